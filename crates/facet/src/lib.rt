// The facets of a cell in mesh memory.
//
// What is here: `marks_at` hands back the marks of a cell, `facet_set` writes the marks of a facet of a type, `copy_facet` those of a
// facet of a cell; `facet_has` tells whether it holds a mark, `matching` finds the facet of a cell with a given set of marks. All are
// total on any memory. What is proved: each answer is that of specs/Facet.antt, on any memory and any table; on the picture of a map
// these are the facets of the definitions (proofs/Read.antt). What a caller should know: the table is handed down, so that it is copied
// once a call; `facet_has` and `matching` copy no mark.
#![tactic(auto)]

ghost use Rattle.std.specs.Prelude.{◌≡◌, ◌∷◌, min};
ghost use Rattle.lists.specs.Lists.{has, all, same_set, select, first};
ghost use Rattle.lists.specs.Filled.{Copied};
ghost use Rattle.shapes.specs.Shapes.{facet_count};
ghost use Rattle.shapes.specs.Sizes.{most_corners, no_facet};
ghost use Rattle.facet.specs.Facet.{MarksAt, set_in, facet_in, match_in};

use numbers::{Caps, Cell, Mark};
use shapes::{FacetTable, MOST_CORNERS, NO_FACET, column, facet_count, mark_count};
use store::{code_of, marks_of};
use words::{put, word};

// The marks of a cell, as its record gives them: the very part of memory that stores them.
pub fn marks_at(w: &[u32], caps: Caps, c: Cell) -> &[u32]
    ensures { MarksAt w.entry caps c.0 result }
{
    let n = mark_count(code_of(w, caps, c));
    marks_of(w, caps, c, n as usize)
}

// A facet has four corners at most.
fn four_at_most(n: u32) -> u32
    ensures { result ≡ min most_corners n }
{
    MOST_CORNERS.min(n)
}

// The marks of a facet of the type, written to the first places of out; how many there are.
pub fn facet_set(rows: &FacetTable, t: u32, f: u32, marks: &[u32], out: &mut [u32]) -> u32
    ensures { Copied (set_in rows.now t f marks.now) out.old result out.new }
{
    let n = four_at_most(column(rows, t, f, 0));
    for k in 0..n {
        put(
            out,
            k as usize,
            word(marks, column(rows, t, f, k + 1) as usize),
        );
    }
    n
}

// The marks of a facet of the cell, written to the first places of out; how many there are.
pub fn copy_facet(w: &[u32], caps: Caps, rows: &FacetTable, c: Cell, f: u32, out: &mut [u32]) -> u32
    ensures { Copied (facet_in w.now caps rows.now c.0 f) out.old result out.new }
{
    facet_set(rows, code_of(w, caps, c), f, marks_at(w, caps, c), out)
}

// Whether a facet of the type holds the mark.
fn set_has(rows: &FacetTable, t: u32, f: u32, marks: &[u32], v: u32) -> bool
    ensures { result ≡ has v (set_in rows.now t f marks.now) }
{
    let n = four_at_most(column(rows, t, f, 0));
    for k in 0..n {
        if word(marks, column(rows, t, f, k + 1) as usize) == v {
            return true;
        }
    }
    false
}

// Whether all marks of a facet of the type are in the set.
fn set_within(rows: &FacetTable, t: u32, f: u32, marks: &[u32], set: &[u32]) -> bool
    ensures { result ≡ all (λ x. has x set.now) (set_in rows.now t f marks.now) }
{
    let n = four_at_most(column(rows, t, f, 0));
    for k in 0..n {
        if !lists::has(set, word(marks, column(rows, t, f, k + 1) as usize)) {
            return false;
        }
    }
    true
}

// Whether a facet of the type has exactly this set of marks.
fn same_facet(rows: &FacetTable, t: u32, f: u32, marks: &[u32], set: &[u32]) -> bool
    ensures { result ≡ same_set set.now (set_in rows.now t f marks.now) }
{
    set_within(rows, t, f, marks, set) && set.iter().all(|x| set_has(rows, t, f, marks, *x))
}

// Whether the number is one of the marks, or 0, which a place beyond them reads as.
fn known(marks: &[u32], x: u32) -> bool
    ensures { result ≡ has x (0 ∷ marks.now) }
{
    x == 0 || lists::has(marks, x)
}

// Whether all of the set are; the last mark first, since the first is the one that led to the cell.
fn spans(marks: &[u32], set: &[u32]) -> bool
    ensures { result ≡ all (λ x. has x (0 ∷ marks.now)) set.now }
{
    set.iter().rev().all(|x| known(marks, *x))
}

// The first facet of the type with this set of marks; 8 where there is none.
fn first_facet(rows: &FacetTable, t: u32, marks: &[u32], set: &[u32]) -> u32
    ensures { result ≡ first no_facet (select (λ f. same_set set.now (set_in rows.now t f marks.now)) (facet_count t)) }
{
    if !spans(marks, set) {
        return NO_FACET;
    }
    let n = facet_count(t);
    for f in 0..n {
        if same_facet(rows, t, f, marks, set) {
            return f;
        }
    }
    NO_FACET
}

// Whether the facet holds the mark.
pub fn facet_has(w: &[u32], caps: Caps, rows: &FacetTable, c: Cell, f: u32, v: Mark) -> bool
    ensures { result ≡ has v.0 (facet_in w.now caps rows.now c.0 f) }
{
    set_has(rows, code_of(w, caps, c), f, marks_at(w, caps, c), v.0)
}

// The first facet of the cell with this set of marks; 8 where there is none.
pub fn matching(w: &[u32], caps: Caps, rows: &FacetTable, c: Cell, set: &[u32]) -> u32
    ensures { result ≡ match_in w.now caps rows.now c.0 set.now }
{
    first_facet(rows, code_of(w, caps, c), marks_at(w, caps, c), set)
}
