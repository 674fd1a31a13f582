// Lists of numbers, as slices of words.
//
// What is here: `has`, `subset`, `same_set`, `repeats` and `reaches` over slices. All are total. What is proved: each answer is that of
// specs/Lists.antt, and proofs/ has the laws of those definitions: membership, equal sets, selections, ascending lists, cycles. What a
// caller should know: nothing is copied; each looks at every pair of numbers at most.
#![tactic(auto)]

ghost use Rattle.std.specs.Prelude.{◌≡◌, leb, drop};
ghost use Rattle.lists.specs.Lists.{has, any, all, same_set, repeats};

// v is in the list.
pub fn has(l: &[u32], v: u32) -> bool
    ensures { result ≡ has v l.now }
{
    // not `contains`: on the few marks of a facet it costs twice as much
    l.iter().any(|x| *x == v)
}

// All of a are in b.
pub fn subset(a: &[u32], b: &[u32]) -> bool
    ensures { result ≡ all (λ x. has x b.now) a.now }
{
    for i in 0..a.len() {
        if !has(b, a[i]) {
            return false;
        }
    }
    true
}

// Equal sets, whatever the order.
pub fn same_set(a: &[u32], b: &[u32]) -> bool
    ensures { result ≡ same_set a.now b.now }
{
    subset(a, b) && subset(b, a)
}

// A number occurs twice.
pub fn repeats(l: &[u32]) -> bool
    ensures { result ≡ repeats l.now }
{
    for (i, x) in l.iter().enumerate() {
        if has(&l[i + 1..], *x) {
            return true;
        }
    }
    false
}

// One of the list is n or more.
pub fn reaches(l: &[u32], n: u32) -> bool
    ensures { result ≡ any (leb n) l.now }
{
    l.iter().any(|x| n <= *x)
}
