// Whether memory is laid out as a mesh: every record by itself, and the chain of every mark.
//
// What is here: `laid`, the first half of the whole check, and its steps. All are total: any memory, any numbers. What is proved: each
// answer is that of specs/Laid.antt, on any memory; memory that is laid out is the picture of the state that it tells, and well-formed
// memory is laid out (proofs/). What a caller should know: live counts, first anchors and the siblings themselves need other records and
// are not looked at here; a chain is followed for 128 cells at most; the cost follows marks, cells and the chains of each cell's marks.
#![tactic(auto)]

ghost use Rattle.std.specs.Prelude.{◌≡◌};
ghost use Rattle.lists.specs.Lists.{all, every};
ghost use Rattle.shapes.specs.Shapes.{facet_count};
ghost use Rattle.shapes.specs.Sizes.{most_marks, most_facets};
ghost use Rattle.record_checks.specs.Laid.{typed, fine, far_mark, corner_right, facet_right, rest_right, record_right, stands, chain_right, meets, mark_right, cell_right, laid_in};

use facet::marks_at;
use lists::{reaches, repeats};
use numbers::{Caps, Cell, MOST_AROUND, Mark, half_of};
use shapes::{MOST_FACETS, MOST_MARKS, dimension, facet_count};
use store::{
    NEAR_MARKS, cell_blank, code_of, corner_of, far_of, first_of, head_blank, held_of, licence_of,
    link_of, mark_blank, sibling_word,
};
use words::word;

// No cell, or a type of the table.
fn typed(code: u32) -> bool
    ensures { result ≡ typed code }
{
    code == 0 || 0 < dimension(code)
}

// The marks are marks of the mesh, none twice.
fn fine(caps: Caps, marks: &[u32]) -> bool
    ensures { result ≡ fine caps marks.now }
{
    !reaches(marks, caps.marks) && !repeats(marks)
}

// The mark at a corner that stands in the second part: only a cell with more than four has them there.
fn far_mark(marks: &[u32], k: u32) -> u32
    ensures { result ≡ far_mark marks.now k }
{
    if marks.len() <= NEAR_MARKS as usize {
        return 0;
    }
    word(marks, k as usize)
}

// A corner of a cell with these marks: its mark in both parts, and nothing behind the marks.
fn corner_ok(w: &[u32], caps: Caps, c: Cell, k: u32, marks: &[u32]) -> bool
    ensures { result ≡ corner_right w.now caps c.0 marks.now k }
{
    corner_of(w, caps, c, k).0 == word(marks, k as usize)
        && far_of(w, caps, c, k) == far_mark(marks, k)
        && ((k as usize) < marks.len() || link_of(w, caps, c, k) == 0)
}

// Every corner that a record has room for.
fn corners_ok(w: &[u32], caps: Caps, c: Cell, marks: &[u32]) -> bool
    ensures { result ≡ every most_marks (corner_right w.now caps c.0 marks.now) }
{
    for k in 0..MOST_MARKS {
        if !corner_ok(w, caps, c, k, marks) {
            return false;
        }
    }
    true
}

// Behind the facets of the type stands no sibling, and no way.
fn facets_ok(w: &[u32], caps: Caps, c: Cell, t: u32) -> bool
    ensures { result ≡ every most_facets (facet_right w.now caps c.0 (facet_count t)) }
{
    for f in facet_count(t)..MOST_FACETS {
        if sibling_word(w, caps, half_of(c, f)) != 0 {
            return false;
        }
    }
    true
}

// The words that say nothing are 0, and so is the licence under a number that is not live.
fn rest_ok(w: &[u32], caps: Caps, c: Cell) -> bool
    ensures { result ≡ rest_right w.now caps c.0 }
{
    cell_blank(w, caps, c) && (code_of(w, caps, c) != 0 || licence_of(w, caps, c) == 0)
}

// A cell's record by itself.
fn record_ok(w: &[u32], caps: Caps, c: Cell) -> bool
    ensures { result ≡ record_right w.now caps c.0 }
{
    let t = code_of(w, caps, c);
    let marks = marks_at(w, caps, c);
    typed(t)
        && fine(caps, marks)
        && corners_ok(w, caps, c, marks)
        && facets_ok(w, caps, c, t)
        && rest_ok(w, caps, c)
}

// Whether the chain of v meets the cell c.
fn meets(w: &[u32], caps: Caps, v: Mark, c: Cell) -> bool
    ensures { result ≡ meets w.now caps c.0 v.0 }
{
    let mut link = first_of(w, caps, v);
    for _ in 0..MOST_AROUND {
        if link == 0 {
            return false;
        }
        let at = link - 1;
        if at / 8 == c.0 {
            return true;
        }
        link = link_of(w, caps, Cell(at / 8), at % 8);
    }
    false
}

// Whether the chain of each of the marks meets the cell c.
fn all_meet(w: &[u32], caps: Caps, c: Cell, marks: &[u32]) -> bool
    ensures { result ≡ all (meets w.now caps c.0) marks.now }
{
    for v in marks {
        if !meets(w, caps, Mark(*v), c) {
            return false;
        }
    }
    true
}

// A cell's record, and the chains of its marks.
fn cell_ok(w: &[u32], caps: Caps, c: Cell) -> bool
    ensures { result ≡ cell_right w.now caps c.0 }
{
    record_ok(w, caps, c) && all_meet(w, caps, c, marks_at(w, caps, c))
}

// A cell may stand in the chain of v by its corner k: it is from low on, below the capacity, and v is its mark there.
fn stands(w: &[u32], caps: Caps, v: Mark, low: Cell, c: Cell, k: u32) -> bool
    ensures { result ≡ stands w.now caps v.0 low.0 c.0 k }
{
    if c.0 < low.0 || caps.cells <= c.0 {
        return false;
    }
    let marks = marks_at(w, caps, c);
    (k as usize) < marks.len() && marks[k as usize] == v.0
}

// The chain of v: each cell may stand there, they ascend, and the count is theirs.
fn chain_ok(w: &[u32], caps: Caps, v: Mark) -> bool
    ensures { result ≡ chain_right w.now caps v.0 }
{
    let count = held_of(w, caps, v);
    let mut link = first_of(w, caps, v);
    let mut low: u32 = 0;
    for n in 0..MOST_AROUND {
        if link == 0 {
            return count == n;
        }
        let at = link - 1;
        if !stands(w, caps, v, Cell(low), Cell(at / 8), at % 8) {
            return false;
        }
        low = at / 8 + 1;
        link = link_of(w, caps, Cell(at / 8), at % 8);
    }
    link == 0 && count == MOST_AROUND
}

// A mark's record, and its chain.
fn mark_ok(w: &[u32], caps: Caps, v: Mark) -> bool
    ensures { result ≡ mark_right w.now caps v.0 }
{
    mark_blank(w, caps, v) && chain_ok(w, caps, v)
}

// All marks.
fn marks_ok(w: &[u32], caps: Caps) -> bool
    ensures { result ≡ every caps.marks (mark_right w.now caps) }
{
    for v in 0..caps.marks {
        if !mark_ok(w, caps, Mark(v)) {
            return false;
        }
    }
    true
}

// All cells.
fn cells_ok(w: &[u32], caps: Caps) -> bool
    ensures { result ≡ every caps.cells (cell_right w.now caps) }
{
    for c in 0..caps.cells {
        if !cell_ok(w, caps, Cell(c)) {
            return false;
        }
    }
    true
}

// Whether memory is laid out: its records and its chains.
pub fn laid(w: &[u32], caps: Caps) -> bool
    ensures { result ≡ laid_in w.now caps }
{
    head_blank(w, caps) && marks_ok(w, caps) && cells_ok(w, caps)
}
