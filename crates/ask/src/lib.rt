// The queries that read a word: type, licence and marks of a cell, sibling, border, first anchor, count of a type, edition, capacities, a walker's step;
// and the free cell.
//
// What is here: the public calls, none with a `requires`, and the walker. What is proved: memory that is no mesh is refused with 14; on
// well-formed memory the answer, with its refusals in the listed order, is that of crates/map/specs/Answers.antt (specs/Asked.antt). What a
// caller should know: each costs a few words read, whatever the size of the mesh, save for the free cell, which looks at every cell below it.
#![tactic(auto)]

ghost use Rattle.map.specs.Answers.{type_answer, licence_answer, sibling_answer, border_answer, first_anchor_answer, count_answer, edition_answer, step_answer};
ghost use Rattle.map.specs.Free.{capacities_answer, free_answer};
ghost use Rattle.map.specs.Says.{value_says, pair_says, cell_says, half_says, truth_says, found_says};
ghost use Rattle.ask.specs.Asked.{Asked, HandedMarks};
ghost use Rattle.ask.specs.Steps.{step_says};
ghost use Rattle.ask.specs.Refusals.{no_value, no_pair, no_cell, no_half, no_truth, no_found, no_step};

use checks::{about_cell, about_half, about_star, about_type};
use facet::marks_at;
use map::{Refusal, Way};
use numbers::{Caps, Cell, Half, Mark, cell_of, facet_of, half_of};
use store::{anchor_of, code_of, count_of, licence_of, open, sibling_of, way_of};
use words::part;

// The type of a cell.
pub fn type_of(w: &[u32], c: Cell) -> Result<u32, Refusal>
    ensures { Asked value_says no_value w.now (λ m. type_answer m c.0) result }
{
    let caps = about_cell(w, c)?;
    Ok(code_of(w, caps, c))
}

// The licence of a cell; 0 if it was inserted without one.
pub fn licence(w: &[u32], c: Cell) -> Result<u32, Refusal>
    ensures { Asked value_says no_value w.now (λ m. licence_answer m c.0) result }
{
    let caps = about_cell(w, c)?;
    Ok(licence_of(w, caps, c))
}

// The marks of a cell, as the very part of memory that stores them; empty where the type query refuses.
pub fn marks_of(w: &[u32], c: Cell) -> &[u32]
    ensures { HandedMarks w.entry c.0 result }
{
    match about_cell(w, c) {
        Err(_) => part(w, 0, 0),
        Ok(caps) => marks_at(w, caps, c),
    }
}

// The sibling of a half-facet, and the way that it runs.
pub fn sibling(w: &[u32], c: Cell, f: u32) -> Result<(Half, Way), Refusal>
    ensures { Asked half_says no_half w.now (λ m. sibling_answer m c.0 f) result }
{
    let caps = about_half(w, c, f)?;
    let half = half_of(c, f);
    Ok((sibling_of(w, caps, half), way_of(w, caps, half)))
}

// Whether a half-facet is alone in its set.
pub fn border(w: &[u32], c: Cell, f: u32) -> Result<bool, Refusal>
    ensures { Asked truth_says no_truth w.now (λ m. border_answer m c.0 f) result }
{
    let caps = about_half(w, c, f)?;
    let h = half_of(c, f);
    Ok(sibling_of(w, caps, h).0 == h.0)
}

// The first anchor of a mark in a dimension, or none.
pub fn first_anchor(w: &[u32], d: u32, v: Mark) -> Result<Option<Half>, Refusal>
    ensures { Asked found_says no_found w.now (λ m. first_anchor_answer m d v.0) result }
{
    let caps = about_star(w, d, v)?;
    let x = anchor_of(w, caps, d, v);
    if x == 0 {
        return Ok(None);
    }
    Ok(Some(Half(x - 1)))
}

// The count of live cells of a type.
pub fn count_of_type(w: &[u32], t: u32) -> Result<u32, Refusal>
    ensures { Asked value_says no_value w.now (λ m. count_answer m t) result }
{
    let caps = about_type(w, t)?;
    Ok(count_of(w, caps, t))
}

// The edition that the mesh was formatted under.
pub fn edition(w: &[u32]) -> Result<u32, Refusal>
    ensures { Asked value_says no_value w.now edition_answer result }
{
    let Caps { edition, .. } = open(w)?;
    Ok(edition)
}

// The capacities that the mesh was formatted for: marks, and cells.
pub fn capacities(w: &[u32]) -> Result<(u32, u32), Refusal>
    ensures { Asked pair_says no_pair w.now capacities_answer result }
{
    let Caps { marks, cells, .. } = open(w)?;
    Ok((marks, cells))
}

// The smallest cell number that is not live, or none.
pub fn free(w: &[u32]) -> Result<Option<Cell>, Refusal>
    ensures { Asked cell_says no_cell w.now free_answer result }
{
    let caps = open(w)?;
    for c in 0..caps.cells {
        if code_of(w, caps, Cell(c)) == 0 {
            return Ok(Some(Cell(c)));
        }
    }
    Ok(None)
}

// A walker over one sibling cycle: its place.
#[derive(Clone, Copy)]
pub struct Walker(pub Half);

impl Walker {
    // The walker at the next place of the cycle as it is now, and the way that this runs beside the last; or the refusal for the half-facet.
    pub fn step(self, w: &[u32]) -> Result<(Walker, Way), Refusal>
        ensures { Asked step_says no_step w.now (λ m. step_answer m self.0.0) result }
    {
        let (next, way) = sibling(w, cell_of(self.0), facet_of(self.0))?;
        Ok((Walker(next), way))
    }
}
