// Each kind of answer as a number and lent words: 0 with the value in its place, or the refusal's number.
//
// What is here: a function for each kind of answer, a `Result` of crates/map, crates/positions, crates/surfaces, crates/surfaces_out,
// crates/plan_check and crates/planner. What is proved: the number is the answer's refusal, and the lent word or float is the answer's value, or as it was where the answer
// has none (specs/Told.antt, specs/Floats.antt). What a caller should know: a refused build has a value, the place of its record, a refused read its
// place, a plan the place of its first wrong edit, and a list of edits has one always, the number made; every other answer has one only where it
// is accepted.
#![tactic(auto)]

ghost use Rattle.std.specs.Prelude.{◌≡◌};
ghost use Rattle.map.specs.Says.{number_of, verdict_says, value_says, pair_says, cell_says, half_says, truth_says, built_says, found_says, edits_says};
ghost use Rattle.plan_check.specs.Checked.{planned_says};
ghost use Rattle.positions.specs.Replies.{measure_says, centre_says};
ghost use Rattle.surfaces.specs.ReadsOff.{surfaced_says};
ghost use Rattle.surfaces_out.specs.WritesOff.{written_says};
ghost use Rattle.planner.specs.Proposed.{proposal_says};
ghost use Rattle.c_answers.specs.Told.{Told, ToldTwo, ToldFound};
ghost use Rattle.c_answers.specs.Floats.{ToldMeasure, ToldPoint};

use map::{Refusal, Stopped, Unbuilt, Way, number_of, way_number};
use metres::Point;
use numbers::{Cell, Half};
use plan_check::Flaw;
use positions::Measured;
use surfaces::NotRead;
use surfaces_out::NotWritten;

// The number of a refusal in a byte.
pub fn byte_of(why: Refusal) -> u8
    ensures { result ≡ number_of why }
{
    (number_of(why) % 256) as u8
}

// Accepted, or why not.
pub fn tell_verdict(verdict: Result<(), Refusal>) -> u8
    ensures { result ≡ (verdict_says verdict).refusal }
{
    match verdict {
        Ok(()) => 0,
        Err(why) => byte_of(why),
    }
}

// One number.
pub fn tell_value(value: Result<u32, Refusal>, x: &mut u32) -> u8
    ensures { Told (value_says value) x.old result x.new }
{
    match value {
        Err(why) => byte_of(why),
        Ok(n) => {
            *x = n;
            0
        }
    }
}

// Two numbers.
pub fn tell_pair(pair: Result<(u32, u32), Refusal>, x: &mut u32, y: &mut u32) -> u8
    ensures { ToldTwo (pair_says pair) x.old y.old result x.new y.new }
{
    match pair {
        Err(why) => byte_of(why),
        Ok((first, second)) => {
            *x = first;
            *y = second;
            0
        }
    }
}

// A cell or none: whether there is one, 1 or 0, beside it.
pub fn tell_cell(free: Result<Option<Cell>, Refusal>, some: &mut u32, x: &mut u32) -> u8
    ensures { ToldFound (cell_says free) some.old x.old result some.new x.new }
{
    match free {
        Err(why) => byte_of(why),
        Ok(None) => {
            *some = 0;
            0
        }
        Ok(Some(cell)) => {
            *some = 1;
            *x = cell.0;
            0
        }
    }
}

// A half-facet, and the way that it runs.
pub fn tell_half(beside: Result<(Half, Way), Refusal>, x: &mut u32, y: &mut u32) -> u8
    ensures { ToldTwo (half_says beside) x.old y.old result x.new y.new }
{
    match beside {
        Err(why) => byte_of(why),
        Ok((half, way)) => {
            *x = half.0;
            *y = way_number(way);
            0
        }
    }
}

// Yes as 1, no as 0.
pub fn tell_truth(truth: Result<bool, Refusal>, x: &mut u32) -> u8
    ensures { Told (truth_says truth) x.old result x.new }
{
    match truth {
        Err(why) => byte_of(why),
        Ok(true) => {
            *x = 1;
            0
        }
        Ok(false) => {
            *x = 0;
            0
        }
    }
}

// A half-facet or none: whether there is one, 1 or 0, beside it.
pub fn tell_found(sought: Result<Option<Half>, Refusal>, found: &mut u32, x: &mut u32) -> u8
    ensures { ToldFound (found_says sought) found.old x.old result found.new x.new }
{
    match sought {
        Err(why) => byte_of(why),
        Ok(None) => {
            *found = 0;
            0
        }
        Ok(Some(first)) => {
            *found = 1;
            *x = first.0;
            0
        }
    }
}

// Built, or the place of the refused record.
pub fn tell_built(built: Result<(), Unbuilt>, x: &mut u32) -> u8
    ensures { Told (built_says built) x.old result x.new }
{
    match built {
        Ok(()) => 0,
        Err(unbuilt) => {
            *x = unbuilt.place;
            byte_of(unbuilt.why)
        }
    }
}

// How many edits were made; all of them, or why the list stopped.
pub fn tell_edits(edits: Result<usize, Stopped>, made: &mut usize) -> u8
    ensures { Told (edits_says edits) made.old result made.new }
{
    match edits {
        Ok(all) => {
            *made = all;
            0
        }
        Err(stopped) => {
            *made = stopped.made;
            byte_of(stopped.why)
        }
    }
}

// A measure: the number of its kind beside its float.
pub fn tell_measure(measured: Result<Measured, Refusal>, kind: &mut u32, x: &mut f64) -> u8
    ensures { ToldMeasure (measure_says measured) kind.old x.old result kind.new x.new }
{
    match measured {
        Err(why) => byte_of(why),
        Ok(Measured::SquaredLength(size)) => {
            *kind = 1;
            *x = size;
            0
        }
        Ok(Measured::DoubledArea(size)) => {
            *kind = 2;
            *x = size;
            0
        }
        Ok(Measured::SixfoldVolume(size)) => {
            *kind = 3;
            *x = size;
            0
        }
    }
}

// A centre: the three floats of its point.
pub fn tell_centre(centred: Result<Point, Refusal>, x: &mut f64, y: &mut f64, z: &mut f64) -> u8
    ensures { ToldPoint (centre_says centred) x.old y.old z.old result x.new y.new z.new }
{
    match centred {
        Err(why) => byte_of(why),
        Ok(point) => {
            *x = point.x;
            *y = point.y;
            *z = point.z;
            0
        }
    }
}

// "17 .. with the byte place of the first word that breaks this form, or the length of a text that ends early"
const OFF_BROKEN: u8 = 17;

// "18 for a live cell not triangle or quad"
const NOT_SURFACE: u8 = 18;

// A surface read, or the place where the text or a face is refused.
pub fn tell_surfaced(s: Result<(), NotRead>, x: &mut usize) -> u8
    ensures { Told (surfaced_says s) x.old result x.new }
{
    match s {
        Ok(()) => 0,
        Err(NotRead::Broken(byte)) => {
            *x = byte;
            OFF_BROKEN
        }
        Err(NotRead::Refused(why, face)) => {
            *x = face as usize;
            byte_of(why)
        }
    }
}

// The bytes of a text that is written.
pub fn tell_written(t: Result<usize, NotWritten>, x: &mut usize) -> u8
    ensures { Told (written_says t) x.old result x.new }
{
    match t {
        Ok(bytes) => {
            *x = bytes;
            0
        }
        Err(NotWritten::NotSurface) => NOT_SURFACE,
        Err(NotWritten::Refused(why)) => byte_of(why),
    }
}

// The words of a plan.
pub fn tell_proposal(proposal: Result<usize, Refusal>, x: &mut usize) -> u8
    ensures { Told (proposal_says proposal) x.old result x.new }
{
    match proposal {
        Ok(words) => {
            *x = words;
            0
        }
        Err(why) => byte_of(why),
    }
}

// "24 with the place (from 0) of the first wrong edit, or with the length of the list if only the end differs"
const PLAN_WRONG: u8 = 24;

// A plan that is right, or the place of its first wrong edit.
pub fn tell_planned(planned: Result<(), Flaw>, x: &mut usize) -> u8
    ensures { Told (planned_says planned) x.old result x.new }
{
    match planned {
        Ok(()) => 0,
        Err(Flaw::Wrong(edit)) => {
            *x = edit;
            PLAN_WRONG
        }
        Err(Flaw::Refused(why)) => byte_of(why),
    }
}
