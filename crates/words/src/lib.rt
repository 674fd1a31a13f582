// Lent 32-bit words: the one place where memory is indexed.
//
// What is here: `word` reads, `put` writes, `part` hands back a part of the words. All three are
// total: any memory, any place. What is proved: each answer, and every word as it is left, is an
// equation with a definition of specs/Words.antt or of the library. What a caller should know:
// past the end a read gives 0 and a write changes nothing. proofs/Frame.antt has the laws of what a
// write leaves as it was, for every layer above.
#![tactic(auto)]

ghost use Rattle.std.specs.Prelude.{◌≡◌, get_or, set};
ghost use Rattle.words.specs.Words.{Part};

// The word at a place; 0 past the end.
pub fn word(m: &[u32], at: usize) -> u32
    ensures { result ≡ get_or m.now at 0 }
{
    if at < m.len() { m[at] } else { 0 }
}

// A word stored at a place; nothing past the end.
pub fn put(m: &mut [u32], at: usize, v: u32)
    ensures { m.new ≡ set m.old at v }
{
    if m.len() <= at {
        return;
    }
    m[at] = v;
}

// The n words from a place on, as the very part that stores them; the empty part where they do not all lie in m.
pub fn part(m: &[u32], at: usize, n: usize) -> &[u32]
    ensures { Part m.entry at n result }
{
    if m.len() < n {
        return &m[0..0];
    }
    if m.len() - n < at {
        return &m[0..0];
    }
    let end = at + n;
    &m[at..end]
}
