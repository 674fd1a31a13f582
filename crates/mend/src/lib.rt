// After a cell has come or gone, what is around it is settled.
//
// What is here: `settle` mends the siblings of the sets of the cell's facets and puts the first anchors of its marks in its dimension. It is total on any
// memory. What is proved: nothing beyond the room changes; on the picture of a state that may settle (specs/Settle.antt) all siblings and
// all first anchors are right afterwards. What a caller should know: the cell is given by its type and marks, for it may be gone.
#![tactic(auto)]

ghost use Rattle.std.specs.Prelude.{[]};
ghost use Rattle.picture.specs.Step.{Step};
ghost use Rattle.sibling.specs.Shared.{MayMend, mended};
ghost use Rattle.facet.specs.Facet.{set_in};
ghost use Rattle.mend.specs.Mended.{Mends};
ghost use Rattle.mend.specs.Ancs.{Anchors, MayPut, anchored};
ghost use Rattle.mend.specs.Settle.{MaySettle, settled};

use facet::facet_set;
use group::first_anchor_of;
use numbers::{Caps, Mark};
use picture::put_anchor;
use shapes::{FacetTable, MOST_CORNERS, dimension, facet_count};
use sibling::mend;
use words::part;

// One facet's set mended.
fn mend_facet(w: &mut [u32], caps: Caps, rows: &FacetTable, t: u32, f: u32, marks: &[u32])
    ensures { Step caps w.old w.new (MayMend caps rows.now (set_in rows.now t f marks.now)) (mended caps (set_in rows.now t f marks.now)) }
{
    let mut set = [0u32; MOST_CORNERS as usize];
    let n = facet_set(rows, t, f, marks, &mut set);
    mend(w, caps, rows, part(&set, 0, n as usize));
}

// The sets of all facets mended.
pub fn mend_all(w: &mut [u32], caps: Caps, rows: &FacetTable, t: u32, marks: &[u32])
    ensures { Mends caps rows.now t marks.now w.old w.new [] }
{
    let n = facet_count(t);
    for f in 0..n {
        mend_facet(w, caps, rows, t, f, marks);
    }
}

// The first anchor of one mark in a dimension.
fn anchor_mark(w: &mut [u32], caps: Caps, rows: &FacetTable, d: u32, v: Mark)
    ensures { Step caps w.old w.new (MayPut caps rows.now d v.0) (λ s. anchored caps s s d v.0) }
{
    let first = first_anchor_of(w, caps, rows, d, v);
    put_anchor(w, caps, d, v, first);
}

// The first anchors of all marks, in a dimension.
pub fn anchor_all(w: &mut [u32], caps: Caps, rows: &FacetTable, d: u32, marks: &[u32])
    ensures { Anchors caps rows.now d marks.now w.old w.new [] }
{
    for v in marks {
        anchor_mark(w, caps, rows, d, Mark(*v));
    }
}

// The siblings of the cell's sets and the first anchors of its marks: only those of its own dimension can have moved.
pub fn settle(w: &mut [u32], caps: Caps, rows: &FacetTable, t: u32, marks: &[u32])
    ensures { Step caps w.old w.new (MaySettle caps rows.now t marks.now) (settled caps) }
{
    mend_all(w, caps, rows, t, marks);
    anchor_all(w, caps, rows, dimension(t), marks);
}
