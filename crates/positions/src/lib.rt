// Marks with positions: the corners of a cell as points, its centre, and its measure.
//
// What is here: the public calls, none with a `requires`. Positions are lent beside the mesh, three whole metres a mark. What is proved:
// memory that is no mesh is refused with 14; a refusal leaves the output as it was; on well-formed memory the answer, with its refusals in
// the listed order (specs/Rows.antt), is the definition's: points are the floats of the positions, a centre's sums are exact and divided
// once, a measure is the float of its whole-number formula (specs/Measures.antt, specs/Replies.antt, specs/Pointed.antt). What a caller should
// know: the list of positions has three numbers for each mark of the capacity; a pyramid, a wedge and a brick have corners and a centre, and
// no measure.
#![tactic(auto)]

ghost use Rattle.std.specs.Prelude.{◌≡◌, ◌*◌, ◌≤◌, ltb, length, set, pos};
ghost use Rattle.std.specs.Float.{binary64};
ghost use Rattle.std.specs.Float.Ieee.{of_int, div};
ghost use Rattle.lists.specs.Lists.{list_of};
ghost use Rattle.shapes.specs.Sizes.{most_marks};
ghost use Rattle.store.specs.Slots.{corner_in};
ghost use Rattle.checks.specs.Opening.{Opens};
ghost use Rattle.metres.specs.Whole.{sum_of};
ghost use Rattle.ask.specs.Asked.{Asked};
ghost use Rattle.positions.specs.Rows.{corner_checks, measure_checks};
ghost use Rattle.positions.specs.Measures.{measure_of, coordinate, coordinates, points_of, origins};
ghost use Rattle.positions.specs.Replies.{measure_says, no_measure, measure_reply, centre_says, no_centre, centre_reply};
ghost use Rattle.positions.specs.Pointed.{Wrote, Pointed, Cornered};

use checks::about_cell;
use map::Refusal;
use metres::{Point, doubled_area, metre, point_at, sixfold_volume, squared_length};
use numbers::{Caps, Cell, Mark};
use shapes::{MOST_MARKS, mark_count};
use store::{code_of, corner_of};

// "6 for a solid without a measure": types of a higher code.
pub const MOST_MEASURED: u32 = 4;

// The measure of a cell: its kind follows the type.
#[derive(Clone, Copy)]
pub enum Measured {
    SquaredLength(f64),
    DoubledArea(f64),
    SixfoldVolume(f64),
}

// The corners of a cell as points: as many as are counted stand first, and behind them the origin.
#[derive(Clone, Copy)]
pub struct CornersAt {
    pub count: Result<u32, Refusal>,
    pub at: [Point; MOST_MARKS as usize],
}

// Whether the list has fewer than three numbers for each mark of the capacity.
fn too_few(positions: &[i16], caps: Caps) -> bool
    ensures { result ≡ ltb (length positions.now) (3 * caps.marks) }
{
    positions.len() < 3 * caps.marks as usize
}

// A question about the corners of a cell.
fn about_corners(w: &[u32], positions: &[i16], c: Cell) -> Result<Caps, Refusal>
    ensures { Opens w.now (λ m. corner_checks m c.0 (length positions.now)) result }
{
    let caps = about_cell(w, c)?;
    if too_few(positions, caps) {
        return Err(Refusal::PositionsShort);
    }
    Ok(caps)
}

// A question about the measure of a cell: its type has one.
fn about_measure(w: &[u32], positions: &[i16], c: Cell) -> Result<Caps, Refusal>
    ensures { Opens w.now (λ m. measure_checks m c.0 (length positions.now)) result }
{
    let caps = about_cell(w, c)?;
    if MOST_MEASURED < code_of(w, caps, c) {
        return Err(Refusal::TypeUnknown);
    }
    if too_few(positions, caps) {
        return Err(Refusal::PositionsShort);
    }
    Ok(caps)
}

// The measure of a type on four marks, as many as it needs of them.
fn measure_of(
    positions: &[i16],
    code: u32,
    a: Mark,
    b: Mark,
    c: Mark,
    d: Mark,
) -> Result<Measured, Refusal>
    ensures { result ≡ measure_of positions.now code a.0 b.0 c.0 d.0 }
{
    match code {
        1 => Ok(Measured::SquaredLength(squared_length(positions, a, b))),
        2 => Ok(Measured::DoubledArea(doubled_area(positions, a, b, a, c))),
        3 => Ok(Measured::DoubledArea(doubled_area(positions, a, c, b, d))),
        4 => Ok(Measured::SixfoldVolume(sixfold_volume(positions, a, b, c, d))),
        _ => Err(Refusal::TypeUnknown),
    }
}

// The measure of a cell.
pub fn measure(w: &[u32], positions: &[i16], c: Cell) -> Result<Measured, Refusal>
    ensures { Asked measure_says no_measure w.now (λ m. measure_reply m positions.now c.0) result }
{
    let caps = about_measure(w, positions, c)?;
    let p = corner_of(w, caps, c, 0);
    let q = corner_of(w, caps, c, 1);
    let r = corner_of(w, caps, c, 2);
    let s = corner_of(w, caps, c, 3);
    measure_of(positions, code_of(w, caps, c), p, q, r, s)
}

// The exact sum of a coordinate over the first n corners of a cell.
fn total(w: &[u32], caps: Caps, c: Cell, n: u32, positions: &[i16], k: u32) -> f64
    ensures { n ≤ most_marks → result ≡ of_int binary64 (sum_of n (λ i. coordinate positions.now k (corner_in w.now caps c.0 i))) }
{
    let mut sum = 0.0;
    for i in 0..n {
        let v = corner_of(w, caps, c, i);
        let x = metre(positions, 3 * v.0 as usize + k as usize);
        sum = sum + x as f64;
    }
    sum + 0.0
}

// A sum divided once by the count.
fn mean(sum: f64, n: u32) -> f64
    ensures { result ≡ div binary64 sum (of_int binary64 (pos n)) }
{
    sum / n as f64
}

// The centre of a cell: each coordinate's sum, divided once by the count of corners.
pub fn centre(w: &[u32], positions: &[i16], c: Cell) -> Result<Point, Refusal>
    ensures { Asked centre_says no_centre w.now (λ m. centre_reply m positions.now c.0) result }
{
    let caps = about_corners(w, positions, c)?;
    let n = mark_count(code_of(w, caps, c));
    let x = mean(total(w, caps, c, n, positions, 0), n);
    let y = mean(total(w, caps, c, n, positions, 1), n);
    let z = mean(total(w, caps, c, n, positions, 2), n);
    Ok(Point { x, y, z })
}

// Eight times the origin.
fn origins() -> [Point; MOST_MARKS as usize]
    ensures { result ≡ origins }
{
    [Point {
        x: 0.0,
        y: 0.0,
        z: 0.0,
    }; MOST_MARKS as usize]
}

// The points of the first n corners of a cell, the first in the first place.
fn corner_points(
    w: &[u32],
    caps: Caps,
    c: Cell,
    n: u32,
    positions: &[i16],
) -> [Point; MOST_MARKS as usize]
    ensures { Wrote (points_of positions.now (list_of n (corner_in w.now caps c.0))) origins result }
{
    let mut at = origins();
    for i in 0..n {
        let v = corner_of(w, caps, c, i);
        let p = point_at(positions, v);
        let place = i as usize;
        if place < MOST_MARKS as usize {
            at[place] = p;
        }
    }
    at
}

// The corners of a cell as points, by value.
pub fn corners(w: &[u32], positions: &[i16], c: Cell) -> CornersAt
    ensures { Cornered w.now positions.now c.0 result }
{
    match about_corners(w, positions, c) {
        Err(why) => CornersAt {
            count: Err(why),
            at: origins(),
        },
        Ok(caps) => {
            let n = mark_count(code_of(w, caps, c));
            let at = corner_points(w, caps, c, n, positions);
            CornersAt {
                count: Ok(n),
                at: at,
            }
        }
    }
}

// A float at a place of the output; beyond its end nothing changes.
fn put_float(out: &mut [f64], at: usize, x: f64)
    ensures { out.new ≡ set out.old at x }
{
    if at < out.len() {
        out[at] = x;
    }
}

// The points of the first n corners of a cell, in the first places of the output.
fn write_points(w: &[u32], caps: Caps, c: Cell, n: u32, positions: &[i16], out: &mut [f64])
    ensures { Wrote (coordinates positions.now (list_of n (corner_in w.now caps c.0))) out.old out.new }
{
    for i in 0..n {
        let v = corner_of(w, caps, c, i);
        let p = point_at(positions, v);
        let at = 3 * i as usize;
        put_float(out, at, p.x);
        put_float(out, at + 1, p.y);
        put_float(out, at + 2, p.z);
    }
}

// The corners of a cell as points, three floats each, and their count.
pub fn points(w: &[u32], positions: &[i16], c: Cell, out: &mut [f64]) -> Result<u32, Refusal>
    ensures { Pointed w.now positions.now c.0 out.old result out.new }
{
    let caps = about_corners(w, positions, c)?;
    let n = mark_count(code_of(w, caps, c));
    if out.len() < 3 * n as usize {
        return Err(Refusal::OutputShort);
    }
    write_points(w, caps, c, n, positions, out);
    Ok(n)
}
