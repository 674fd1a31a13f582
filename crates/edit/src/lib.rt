// The parts of an edit around one cell: in all chains of its marks, or out of them, and its siblings cleared.
//
// What is here: `relink_all` puts a cell into the chains of its marks or takes it out of them, `clear_siblings` writes 0 for the siblings
// of its half-facets, lone. Both are total on any memory. What is proved: on the picture of a state that allows the step (`MayLinks`) what is
// left is the picture of the state so changed, and on any memory nothing beyond the room changes; the laws of a whole insertion and a
// whole removal are in proofs/Inserts.antt and proofs/Removes.antt. What a caller should know: only the first eight marks are read, and
// no type has more; the body is written before the chains, and taken after them.
#![tactic(auto)]

ghost use Rattle.std.specs.Prelude.{◌<◌};
ghost use Rattle.picture.specs.Step.{Step};
ghost use Rattle.edit.specs.Edit.{with_links, MayLinks};
ghost use Rattle.edit.specs.Cleared.{cleared};

use chain::relink;
use map::Way;
use numbers::{Caps, Cell, Half, Mark, half_of};
use picture::put_sibling;
use shapes::{MOST_FACETS, MOST_MARKS};
use words::word;

// The cell c, whose marks these are, put into the chain of each, or taken out of it.
pub fn relink_all(w: &mut [u32], caps: Caps, c: Cell, marks: &[u32], on: bool)
    ensures { Step caps w.old w.new (MayLinks caps c.0 marks.now on) (λ s. with_links s c.0 marks.now on) }
{
    for k in 0..MOST_MARKS {
        if marks.len() <= k as usize {
            return;
        }
        relink(w, caps, Mark(word(marks, k as usize)), k, c, on);
    }
}

// The siblings of the half-facets of the cell c, cleared.
pub fn clear_siblings(w: &mut [u32], caps: Caps, c: Cell)
    ensures { Step caps w.old w.new (λ s. c.0 < caps.cells) (λ s. cleared s c.0) }
{
    for f in 0..MOST_FACETS {
        put_sibling(w, caps, half_of(c, f), Half(0), Way::Lone);
    }
}
