// Whether a cell may be inserted: the nine checks, in the listed order.
//
// What is here: `about_insert`, which opens the call, and the three of its checks that look at other cells. They write nothing. What is
// proved: on well-formed memory the answer is that of the outline's row (`insert_checks`). What a caller should know: the cost follows the
// star of the first mark; for a solid under edition 2, the stars of the first marks of its faces too.
#![tactic(auto)]

ghost use Rattle.std.specs.Prelude.{[], ◌≡◌, ◌<◌, get_or};
ghost use Rattle.lists.specs.Lists.{any, list_of};
ghost use Rattle.shapes.specs.Shapes.{facet_count};
ghost use Rattle.shapes.specs.Table.{table};
ghost use Rattle.map.specs.Answers.{third, insert_checks};
ghost use Rattle.map.specs.Cells.{body_of, sets_of};
ghost use Rattle.checks.specs.Checked.{Checked};
ghost use Rattle.checks.specs.Opening.{Opens};
ghost use Rattle.insert_checks.specs.Admit.{same_in, full_in, Same, Known, full_face, Tells};

use chain::{gather, leads_out};
use facet::{facet_set, marks_at};
use lists::{reaches, repeats, same_set};
use map::Refusal;
use numbers::{Caps, Cell, MOST_AROUND, Mark, SECOND_EDITION};
use shapes::{FacetTable, MOST_CORNERS, dimension, facet_count, facet_table, mark_count};
use sibling::sharers;
use store::{code_of, held_of, open};
use words::{part, word};

// The cell's record is of the type, with the same set of marks.
fn same_record(w: &[u32], caps: Caps, c: Cell, t: u32, marks: &[u32]) -> bool
    ensures { result ≡ same_in w.now caps t marks.now c.0 }
{
    code_of(w, caps, c) == t && same_set(marks_at(w, caps, c), marks)
}

// Whether one of the first n cells is of the type, with the same set of marks.
fn one_same(w: &[u32], caps: Caps, t: u32, marks: &[u32], cells: &[u32], n: u32) -> bool
    ensures { result ≡ any (same_in w.now caps t marks.now) (list_of n (λ i. get_or cells.now i 0)) }
{
    (0..n).any(|i| same_record(w, caps, Cell(word(cells, i as usize)), t, marks))
}

// Whether a live cell of that type has the same set of marks.
pub fn same_cell(w: &[u32], caps: Caps, t: u32, marks: &[u32]) -> bool
    ensures { Same w.now caps t marks.now result }
{
    // not on a mesh; there it brings the cells of all three chains to hand
    if leads_out(w, caps, marks) {
        return false;
    }
    let mut cells = [0u32; MOST_AROUND as usize];
    let n = gather(w, caps, Mark(word(marks, 0)), &mut cells);
    one_same(w, caps, t, marks, &cells, n)
}

// Whether a face of the type on these marks has two half-facets already.
fn face_full(w: &[u32], caps: Caps, rows: &FacetTable, t: u32, f: u32, marks: &[u32]) -> bool
    ensures { Tells w.now caps ((Known caps t marks.now × (rows.now ≡ table)) × (f < facet_count t)) (λ m. full_face m (get_or (sets_of t marks.now) f [])) result }
{
    let mut set = [0u32; MOST_CORNERS as usize];
    let n = facet_set(rows, t, f, marks, &mut set);
    let mut halves = [0u32; MOST_AROUND as usize];
    2 <= sharers(w, caps, rows, part(&set, 0, n as usize), &mut halves)
}

// Whether one of its faces has.
fn one_full(w: &[u32], caps: Caps, rows: &FacetTable, t: u32, marks: &[u32]) -> bool
    ensures { Tells w.now caps (Known caps t marks.now × (rows.now ≡ table)) (λ m. any (full_face m) (sets_of t marks.now)) result }
{
    let n = facet_count(t);
    for f in 0..n {
        if face_full(w, caps, rows, t, f, marks) {
            return true;
        }
    }
    false
}

// Whether the cell would be a third solid on a face, under edition 2.
pub fn third_solid(w: &[u32], caps: Caps, t: u32, marks: &[u32]) -> bool
    ensures { Tells w.now caps (Known caps t marks.now) (λ m. third m (body_of t marks.now)) result }
{
    if caps.edition != SECOND_EDITION {
        return false;
    }
    if dimension(t) != 3 {
        return false;
    }
    let rows = facet_table();
    one_full(w, caps, &rows, t, marks)
}

// Whether one of the marks stands in 128 live cells already.
pub fn full_mark(w: &[u32], caps: Caps, marks: &[u32]) -> bool
    ensures { result ≡ any (full_in w.now caps) marks.now }
{
    marks
        .iter()
        .any(|v| MOST_AROUND <= held_of(w, caps, Mark(*v)))
}

// The checks of an insert.
fn check_insert(w: &[u32], caps: Caps, c: Cell, t: u32, marks: &[u32]) -> Result<(), Refusal>
    ensures { Checked w.now caps (λ m. insert_checks m c.0 (body_of t marks.now)) result }
{
    if caps.cells <= c.0 {
        return Err(Refusal::CellOutside);
    }
    if code_of(w, caps, c) != 0 {
        return Err(Refusal::CellLive);
    }
    if dimension(t) == 0 {
        return Err(Refusal::TypeUnknown);
    }
    if marks.len() != mark_count(t) as usize {
        return Err(Refusal::CountWrong);
    }
    if reaches(marks, caps.marks) {
        return Err(Refusal::MarkOutside);
    }
    if repeats(marks) {
        return Err(Refusal::MarkTwice);
    }
    if same_cell(w, caps, t, marks) {
        return Err(Refusal::CellSame);
    }
    if third_solid(w, caps, t, marks) {
        return Err(Refusal::FaceFull);
    }
    if full_mark(w, caps, marks) {
        return Err(Refusal::MarkFull);
    }
    Ok(())
}

// An insert: what opens it.
pub fn about_insert(w: &[u32], c: Cell, t: u32, marks: &[u32]) -> Result<Caps, Refusal>
    ensures { Opens w.now (λ m. insert_checks m c.0 (body_of t marks.now)) result }
{
    let caps = open(w)?;
    check_insert(w, caps, c, t, marks)?;
    Ok(caps)
}
