// The check that opens a call: memory is a mesh, then the row that the kind of question shares, in the listed order.
//
// What is here: for a question about a cell (3, 5), a half-facet (3, 5, 13), a mark in a dimension (6, 8), a type (6) or a set of marks
// (7, 8, 9) one function, which gives the capacities or says why not; memory that is no mesh is 14. They write nothing. What is
// proved: on well-formed memory the answer is that of the outline's row (specs/Opening.antt); capacities are given only of memory that is
// a mesh. What a caller should know: a new question of one of these kinds begins with its function, and ends with its value.
#![tactic(auto)]

ghost use Rattle.map.specs.Answers.{cell_checks, half_checks, star_checks, set_checks, type_checks};
ghost use Rattle.checks.specs.Checked.{Checked};
ghost use Rattle.checks.specs.Opening.{Opens};

use lists::{reaches, repeats};
use map::Refusal;
use numbers::{Caps, Cell, Mark};
use shapes::{MOST_CORNERS, dimension, facet_count};
use store::{code_of, open};

// A cell: its number is below the capacity, and it is live.
fn check_cell(w: &[u32], caps: Caps, c: Cell) -> Result<(), Refusal>
    ensures { Checked w.now caps (λ m. cell_checks m c.0) result }
{
    if caps.cells <= c.0 {
        return Err(Refusal::CellOutside);
    }
    if code_of(w, caps, c) == 0 {
        return Err(Refusal::CellNotLive);
    }
    Ok(())
}

// A half-facet: its cell is live, and the facet is below the type's count.
fn check_half(w: &[u32], caps: Caps, c: Cell, f: u32) -> Result<(), Refusal>
    ensures { Checked w.now caps (λ m. half_checks m c.0 f) result }
{
    if caps.cells <= c.0 {
        return Err(Refusal::CellOutside);
    }
    let t = code_of(w, caps, c);
    if t == 0 {
        return Err(Refusal::CellNotLive);
    }
    if facet_count(t) <= f {
        return Err(Refusal::FacetOutside);
    }
    Ok(())
}

// A dimension and a mark.
fn check_star(w: &[u32], caps: Caps, d: u32, v: Mark) -> Result<(), Refusal>
    ensures { Checked w.now caps (λ m. star_checks m d v.0) result }
{
    if d < 1 {
        return Err(Refusal::TypeUnknown);
    }
    if 3 < d {
        return Err(Refusal::TypeUnknown);
    }
    if caps.marks <= v.0 {
        return Err(Refusal::MarkOutside);
    }
    Ok(())
}

// A type.
fn check_type(w: &[u32], caps: Caps, t: u32) -> Result<(), Refusal>
    ensures { Checked w.now caps (λ m. type_checks t) result }
{
    if dimension(t) == 0 {
        return Err(Refusal::TypeUnknown);
    }
    Ok(())
}

// A set of marks: at least one, at most as many as a facet has, all of the mesh, none twice.
fn check_set(w: &[u32], caps: Caps, set: &[u32]) -> Result<(), Refusal>
    ensures { Checked w.now caps (λ m. set_checks m set.now) result }
{
    if set.len() < 1 {
        return Err(Refusal::CountWrong);
    }
    if (MOST_CORNERS as usize) < set.len() {
        return Err(Refusal::CountWrong);
    }
    if reaches(set, caps.marks) {
        return Err(Refusal::MarkOutside);
    }
    if repeats(set) {
        return Err(Refusal::MarkTwice);
    }
    Ok(())
}

// A question about a cell.
pub fn about_cell(w: &[u32], c: Cell) -> Result<Caps, Refusal>
    ensures { Opens w.now (λ m. cell_checks m c.0) result }
{
    let caps = open(w)?;
    check_cell(w, caps, c)?;
    Ok(caps)
}

// A question about a half-facet.
pub fn about_half(w: &[u32], c: Cell, f: u32) -> Result<Caps, Refusal>
    ensures { Opens w.now (λ m. half_checks m c.0 f) result }
{
    let caps = open(w)?;
    check_half(w, caps, c, f)?;
    Ok(caps)
}

// A question about a mark in a dimension.
pub fn about_star(w: &[u32], d: u32, v: Mark) -> Result<Caps, Refusal>
    ensures { Opens w.now (λ m. star_checks m d v.0) result }
{
    let caps = open(w)?;
    check_star(w, caps, d, v)?;
    Ok(caps)
}

// A question about a type.
pub fn about_type(w: &[u32], t: u32) -> Result<Caps, Refusal>
    ensures { Opens w.now (λ m. type_checks t) result }
{
    let caps = open(w)?;
    check_type(w, caps, t)?;
    Ok(caps)
}

// A question about a set of marks.
pub fn about_set(w: &[u32], set: &[u32]) -> Result<Caps, Refusal>
    ensures { Opens w.now (λ m. set_checks m set.now) result }
{
    let caps = open(w)?;
    check_set(w, caps, set)?;
    Ok(caps)
}
