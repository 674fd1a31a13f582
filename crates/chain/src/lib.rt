// The chain of a mark: the cells that stand in it, ascending, each linked to the next at its corner that is the mark.
//
// What is here: `gather` lists a chain, `find` gives the spot of a cell in one, `relink` puts a cell in or takes it out. All are total:
// any memory, any numbers. What is proved: on the picture of a state whose chains are linked each answer is the definition's
// (specs/Chain.antt, specs/Walk.antt), and a writing function leaves the picture of the state with that one cell in the chain, or out of it
// (`with_link`). What a caller should know: a link says the cell and its corner, so that a step reads one word; at most 128 links are
// followed; on a state that does not allow the step (`MayLink`) it is only sure that no word outside the room changes.
#![tactic(auto)]

ghost use Rattle.std.specs.Prelude.{◌≡◌, true, false, ◌*◌, ◌≤◌};
ghost use Rattle.picture.specs.Changes.{with_link};
ghost use Rattle.picture.specs.Step.{Step};
ghost use Rattle.chain.specs.Chain.{Gathered, MayLink, Inner, Inside};
ghost use Rattle.chain.specs.Walk.{set_lead, Found};

use numbers::{Caps, Cell, MOST_AROUND, Mark, half_of};
use store::{first_of, held_of, link_of, write_first, write_held, write_link};
use words::{put, word};

// How many links of each chain are walked side by side at most.
const MOST_STEPS: u32 = 12;

// Where a cell stands in a chain, or would: the link to the cell before it, and the link to the first one from it on; 0 for none.
#[derive(Clone, Copy)]
pub struct Spot {
    pub before: u32,
    pub after: u32,
}

// The chain of the mark v into out, as far as it has room; the count. At most 128 cells are followed, whatever stands in memory.
pub fn gather(w: &[u32], caps: Caps, v: Mark, out: &mut [u32]) -> u32
    ensures { Gathered w.now caps v.0 out.old result out.new }
{
    let mut link = first_of(w, caps, v);
    for n in 0..MOST_AROUND {
        if link == 0 {
            return n;
        }
        let at = link - 1;
        put(out, n as usize, at / 8);
        link = link_of(w, caps, Cell(at / 8), at % 8);
    }
    MOST_AROUND
}

// The spot of cell c in the chain of the mark v, whether or not c stands in it.
pub fn find(w: &[u32], caps: Caps, v: Mark, c: Cell) -> Spot
    ensures { Found w.now caps v.0 c.0 result }
{
    let mut before: u32 = 0;
    let mut after = first_of(w, caps, v);
    for _ in 0..MOST_AROUND {
        if after == 0 {
            return Spot { before, after };
        }
        let at = after - 1;
        if c.0 <= at / 8 {
            return Spot { before, after };
        }
        before = after;
        after = link_of(w, caps, Cell(at / 8), at % 8);
    }
    Spot { before, after }
}

// The first link of a mark's chain; 0 for a number that is no mark's.
fn entry(w: &[u32], caps: Caps, v: Mark) -> u32
    ensures { Inner w.now caps result }
{
    if caps.marks <= v.0 {
        return 0;
    }
    first_of(w, caps, v)
}

// The link behind a link; 0 behind none.
fn behind(w: &[u32], caps: Caps, link: u32) -> u32
    ensures { Inner w.now caps link → Inner w.now caps result }
{
    if link == 0 {
        return 0;
    }
    let at = link - 1;
    link_of(w, caps, Cell(at / 8), at % 8)
}

// Whether a link leads to no cell's number.
fn beyond(caps: Caps, link: u32) -> bool
    ensures { link ≤ 8 * caps.cells → result ≡ false }
{
    link != 0 && caps.cells <= (link - 1) / 8
}

// Whether a chain of the first three marks leads to no cell's number, as none of a mesh does. The three are walked side by side, so that no read
// of one waits for another's: whoever walks them afterwards finds their cells at hand.
pub fn leads_out(w: &[u32], caps: Caps, marks: &[u32]) -> bool
    ensures { Inside w.now caps result }
{
    let mut a = entry(w, caps, Mark(word(marks, 0)));
    let mut b = entry(w, caps, Mark(word(marks, 1)));
    let mut c = entry(w, caps, Mark(word(marks, 2)));
    for _ in 0..MOST_STEPS {
        if a == 0 && b == 0 && c == 0 {
            return false;
        }
        a = behind(w, caps, a);
        b = behind(w, caps, b);
        c = behind(w, caps, c);
    }
    beyond(caps, a) || beyond(caps, b) || beyond(caps, c)
}

// The word that leads on from a link of the chain of v, or into the chain where that is 0, written.
fn put_lead(w: &mut [u32], caps: Caps, before: u32, v: Mark, x: u32)
    ensures { w.new ≡ set_lead w.old caps before v.0 x }
{
    if before == 0 {
        write_first(w, caps, v, x);
        return;
    }
    let at = before - 1;
    write_link(w, caps, Cell(at / 8), at % 8, x);
}

// The cell c, whose corner k is the mark v, put into the chain of v.
fn splice(w: &mut [u32], caps: Caps, v: Mark, k: u32, c: Cell)
    ensures { Step caps w.old w.new (MayLink caps v.0 k c.0 true) (λ s. with_link s v.0 c.0 true) }
{
    let count = held_of(w, caps, v);
    if MOST_AROUND <= count {
        return;
    }
    let spot = find(w, caps, v, c);
    let here = half_of(c, k);
    put_lead(w, caps, spot.before, v, here.0 + 1);
    write_link(w, caps, c, k, spot.after);
    write_held(w, caps, v, count + 1);
}

// The cell c, whose corner k is the mark v, taken out of the chain of v.
fn unsplice(w: &mut [u32], caps: Caps, v: Mark, k: u32, c: Cell)
    ensures { Step caps w.old w.new (MayLink caps v.0 k c.0 false) (λ s. with_link s v.0 c.0 false) }
{
    let count = held_of(w, caps, v);
    if count == 0 {
        return;
    }
    let spot = find(w, caps, v, c);
    let after = link_of(w, caps, c, k);
    put_lead(w, caps, spot.before, v, after);
    write_link(w, caps, c, k, 0);
    write_held(w, caps, v, count - 1);
}

// The cell c, whose corner k is the mark v, put into the chain of v, or taken out of it.
pub fn relink(w: &mut [u32], caps: Caps, v: Mark, k: u32, c: Cell, on: bool)
    ensures { Step caps w.old w.new (MayLink caps v.0 k c.0 on) (λ s. with_link s v.0 c.0 on) }
{
    if on {
        splice(w, caps, v, k, c);
        return;
    }
    unsplice(w, caps, v, k, c);
}
