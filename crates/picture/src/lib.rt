// The picture: what each word of mesh memory is, by the capacities and the state; and the writers of single words.
//
// What is here: in specs/ the state (State), every word of the room by it (Picture), well-formed memory (Wf) and the steps of an edit
// (Changes, Step); in src/ the writers of a first anchor, a live count, a sibling and a cell's type, licence and marks. All are total on any
// memory. What is proved: each writer leaves the picture of the state changed in that one place, and nothing beyond the room; two
// well-formed memories of one map are equal word for word (proofs/Put.antt). What a caller should know: specs/Writes.antt says what is
// asked.
#![tactic(auto)]

ghost use Rattle.std.specs.Prelude.{◌/◌, ◌%◌, ◌<◌, ◌≤◌};
ghost use Rattle.map.specs.Cells.{licensed_body};
ghost use Rattle.store.specs.Fields.{Near};
ghost use Rattle.picture.specs.Changes.{with_body, with_sib, with_anc, with_count};
ghost use Rattle.picture.specs.Step.{Step};
ghost use Rattle.picture.specs.Writes.{MayWrite, Fills, Fars};
ghost use Rattle.shapes.specs.Sizes.{most_code, most_facets};
ghost use Rattle.store.specs.Layout.{near_marks, past_halves};

use map::Way;
use numbers::{Caps, Cell, Half, Mark};
use shapes::MOST_MARKS;
use store::{
    NEAR_MARKS, write_anchor, write_code, write_count, write_far, write_licence, write_near,
    write_sibling,
};
use words::word;

// The first anchor of a mark in a dimension, as number + 1, 0 for none.
pub fn put_anchor(w: &mut [u32], caps: Caps, d: u32, v: Mark, x: u32)
    ensures { Step caps w.old w.new (λ s. (v.0 < caps.marks) × (1 ≤ d) × (d ≤ 3)) (λ s. with_anc s d v.0 x) }
{
    write_anchor(w, caps, d, v, x);
}

// The count of live cells of a type.
pub fn put_count(w: &mut [u32], caps: Caps, t: u32, x: u32)
    ensures { Step caps w.old w.new (λ s. (1 ≤ t) × (t ≤ most_code)) (λ s. with_count s t x) }
{
    write_count(w, caps, t, x);
}

// The sibling of a half-facet, and the way that it runs.
pub fn put_sibling(w: &mut [u32], caps: Caps, h: Half, x: Half, way: Way)
    ensures { Step caps w.old w.new (λ s. (h.0 / 8 < caps.cells) × (h.0 % 8 < most_facets) × (x.0 < past_halves)) (λ s. with_sib s h.0 x.0 way) }
{
    write_sibling(w, caps, h, x, way);
}

// The first four marks of a cell.
fn put_near(w: &mut [u32], caps: Caps, c: Cell, marks: &[u32])
    ensures { Fills Near caps c.0 marks.now w.old near_marks w.new }
{
    for k in 0..NEAR_MARKS {
        write_near(w, caps, c, k, word(marks, k as usize));
    }
}

// All marks of a cell, in its second part, if that holds any.
fn put_far(w: &mut [u32], caps: Caps, c: Cell, marks: &[u32], far: bool)
    ensures { Fars far caps c.0 marks.now w.old w.new }
{
    if !far {
        return;
    }
    for k in 0..MOST_MARKS {
        write_far(w, caps, c, k, word(marks, k as usize));
    }
}

// The type, the licence and the marks of a cell that stands in no chain; `far` says whether the second part holds marks, before or then.
pub fn put_body(w: &mut [u32], caps: Caps, c: Cell, t: u32, licence: u32, marks: &[u32], far: bool)
    ensures { Step caps w.old w.new (MayWrite caps c.0 marks.now far) (λ s. with_body s c.0 (licensed_body t licence marks.now)) }
{
    put_near(w, caps, c, marks);
    put_far(w, caps, c, marks, far);
    write_licence(w, caps, c, licence);
    write_code(w, caps, c, t);
}
