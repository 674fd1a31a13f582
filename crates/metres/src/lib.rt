// Positions in whole metres: the point of a mark, and the formulas of the measures.
//
// What is here: the lent list of positions, three signed 16-bit numbers a mark, read as points of three floats; the squared length of an
// edge, the doubled plan area between two edges and the sixfold volume of four marks, in floats. None has a `requires`: beyond the end of the list
// a metre is 0. What is proved: each measure is the float of the whole-number formula
// (specs/Whole.antt), without rounding, and zero is positive zero; how a formula turns when its marks are swapped, reversed or moved
// (proofs/Turns.antt). What a caller should know: products and differences stay below 2^53, whatever the positions.
#![tactic(auto)]

ghost use Rattle.std.specs.Prelude.{◌≡◌, T, get_or, pos};
ghost use Rattle.std.specs.Float.{binary64};
ghost use Rattle.std.specs.Float.Ieee.{of_int, in_float};
ghost use Rattle.std.specs.Int.{w16};
ghost use Rattle.std.proofs.Common.{SFits};
ghost use Rattle.metres.specs.Whole.{position_of, edge, squared, crossed, sixfold};
ghost use Rattle.metres.specs.Points.{point_of, Sixteen};

use numbers::Mark;

// A point of three floats.
#[derive(Clone, Copy)]
pub struct Point {
    pub x: f64,
    pub y: f64,
    pub z: f64,
}

// A number of the list, or 0 beyond its end.
pub fn metre(positions: &[i16], at: usize) -> i16
    ensures value { result ≡ get_or positions.now at (pos 0) }
    ensures fits { SFits w16 result }
{
    if at < positions.len() {
        return positions[at];
    }
    0
}

// The point of a mark.
pub fn point_at(positions: &[i16], v: Mark) -> Point
    ensures value { result ≡ point_of (position_of positions.now v.0) }
    ensures sixteen { Sixteen (position_of positions.now v.0) }
{
    let at = 3 * v.0 as usize;
    let x = metre(positions, at);
    let y = metre(positions, at + 1);
    let z = metre(positions, at + 2);
    Point {
        x: x as f64,
        y: y as f64,
        z: z as f64,
    }
}

// The squared length of the edge from a to b.
pub fn squared_length(positions: &[i16], a: Mark, b: Mark) -> f64
    ensures value { result ≡ of_int binary64 (squared (edge positions.now a.0 b.0)) }
    ensures fits { T (in_float binary64 (squared (edge positions.now a.0 b.0))) }
{
    let p = point_at(positions, a);
    let q = point_at(positions, b);
    let x = q.x - p.x;
    let y = q.y - p.y;
    let z = q.z - p.z;
    x * x + y * y + z * z + 0.0
}

// The doubled signed plan area between the edges from a to b and from c to d.
pub fn doubled_area(positions: &[i16], a: Mark, b: Mark, c: Mark, d: Mark) -> f64
    ensures value { result ≡ of_int binary64 (crossed (edge positions.now a.0 b.0) (edge positions.now c.0 d.0)) }
    ensures fits { T (in_float binary64 (crossed (edge positions.now a.0 b.0) (edge positions.now c.0 d.0))) }
{
    let p = point_at(positions, a);
    let q = point_at(positions, b);
    let r = point_at(positions, c);
    let s = point_at(positions, d);
    (q.x - p.x) * (s.y - r.y) - (q.y - p.y) * (s.x - r.x) + 0.0
}

// The sixfold signed volume of four marks.
pub fn sixfold_volume(positions: &[i16], a: Mark, b: Mark, c: Mark, d: Mark) -> f64
    ensures value { result ≡ of_int binary64 (sixfold (edge positions.now a.0 b.0) (edge positions.now a.0 c.0) (edge positions.now a.0 d.0)) }
    ensures fits { T (in_float binary64 (sixfold (edge positions.now a.0 b.0) (edge positions.now a.0 c.0) (edge positions.now a.0 d.0))) }
{
    let o = point_at(positions, a);
    let p = point_at(positions, b);
    let q = point_at(positions, c);
    let r = point_at(positions, d);
    let x = (q.y - o.y) * (r.z - o.z) - (q.z - o.z) * (r.y - o.y);
    let y = (q.z - o.z) * (r.x - o.x) - (q.x - o.x) * (r.z - o.z);
    let z = (q.x - o.x) * (r.y - o.y) - (q.y - o.y) * (r.x - o.x);
    (p.x - o.x) * x + (p.y - o.y) * y + (p.z - o.z) * z + 0.0
}
