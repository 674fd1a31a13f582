// Borders at a mark, and what they tell of the first anchor.
//
// What is here: `wanted` tells whether a half-facet is a border, `ends_of` gives the first half-facet of a star at the mark and the first
// border at it, `all_out` tells whether walks from the cells before a cell meet a border at the mark. All are total on any memory. What is
// proved: on the picture of a settled state `ends_of` gives the definition's, and where `all_out` says yes, the group of each cell before has a
// border at the mark (specs/First.antt); the first anchor is the least border at the mark, or the least half-facet at it of a group without one
// (proofs/Firsts.antt). What a caller should know: a no of `all_out` says nothing; a walk takes 32 steps at most; nothing is listed or cleared.
#![tactic(auto)]

ghost use Rattle.std.specs.Prelude.{◌≡◌, false, cond, ◌&&◌, ◌%◌, eqb};
ghost use Rattle.shapes.specs.Shapes.{shape};
ghost use Rattle.shapes.specs.Sizes.{most_marks};
ghost use Rattle.border.specs.Borders.{border_in, wanted_in};
ghost use Rattle.border.specs.Corners.{bit_at, corner_bits, corner_row, star_bits, facet_at_in, half_at_in, corner_of, Other, Better};
ghost use Rattle.border.specs.First.{Ended, Stays, Out, FacetOut, CellOut, AllOut};

use numbers::{Caps, Cell, Half, MOST_AROUND, Mark, cell_of, facet_of, half_of};
use shapes::{MOST_FACETS, MOST_MARKS, NO_FACET, dimension};
use store::{code_of, corner_of, first_of, link_of, sibling_of};

// How many steps a walk for a border takes at most.
const MOST_STEPS: u32 = 32;

// The first half-facet of a star at the mark, and the first border at it, each as number + 1; 0 for none.
#[derive(Clone, Copy)]
pub struct Ends {
    pub any: u32,
    pub border: u32,
}

// Whether a half-facet is its own sibling, by its word.
fn alone(w: &[u32], caps: Caps, c: Cell, f: u32) -> bool
    ensures { result ≡ border_in w.now caps c.0 f }
{
    let half = half_of(c, f);
    sibling_of(w, caps, half).0 == half.0
}

// Whether the half-facet is a border, where only those are asked for.
pub fn wanted(w: &[u32], caps: Caps, c: Cell, f: u32, only: bool) -> bool
    ensures { result ≡ wanted_in w.now caps c.0 f only }
{
    !only || alone(w, caps, c, f)
}

// For each corner of a type, the lowest byte first, the facets that hold it: facet f counts 2 to the f.
fn corner_row(t: u32) -> u64
    ensures { result ≡ corner_row (shape t) }
{
    match t {
        1 => 0x201,
        2 => 0x60305,
        3 => 0xc060309,
        4 => 0xe0d070b,
        5 => 0x1e190d0713,
        6 => 0x1613150e0b0d,
        7 => 0x382c2632190d0713,
        _ => 0,
    }
}

// The facets at a corner of a type.
fn at_corner(t: u32, k: u32) -> u32
    ensures { result ≡ corner_bits (shape t) (k % most_marks) }
{
    let row = corner_row(t);
    let at = 8 * (k % MOST_MARKS);
    ((row >> at) % 256) as u32
}

// The facets at a corner of a cell of the dimension; none of another cell.
fn star_bits(w: &[u32], caps: Caps, d: u32, c: Cell, k: u32) -> u32
    ensures { result ≡ star_bits w.now caps d c.0 k }
{
    let t = code_of(w, caps, c);
    if dimension(t) != d {
        return 0;
    }
    at_corner(t, k)
}

// Whether facet f, whose digit is the last of left, is there and wanted.
fn picked(w: &[u32], caps: Caps, c: Cell, f: u32, left: u32, only: bool) -> bool
    ensures { result ≡ (bit_at left 0 && wanted_in w.now caps c.0 f only) }
{
    left % 2 == 1 && wanted(w, caps, c, f, only)
}

// The first wanted facet among some of a cell; 8 where there is none.
fn facet_at(w: &[u32], caps: Caps, c: Cell, bits: u32, only: bool) -> u32
    ensures { result ≡ facet_at_in w.now caps c.0 bits only }
{
    let mut left = bits;
    for f in 0..MOST_FACETS {
        if picked(w, caps, c, f, left, only) {
            return f;
        }
        left /= 2;
    }
    NO_FACET
}

// Its half-facet as number + 1; 0 where there is none.
fn half_at(w: &[u32], caps: Caps, c: Cell, bits: u32, only: bool) -> u32
    ensures { result ≡ half_at_in w.now caps c.0 bits only }
{
    if bits == 0 {
        return 0;
    }
    let f = facet_at(w, caps, c, bits, only);
    if NO_FACET <= f {
        return 0;
    }
    half_of(c, f).0 + 1
}

// What is found already, or else the first half-facet among some of a cell.
fn earlier(w: &[u32], caps: Caps, found: u32, c: Cell, bits: u32) -> u32
    ensures { result ≡ cond (eqb found 0) (half_at_in w.now caps c.0 bits false) found }
{
    if found == 0 {
        return half_at(w, caps, c, bits, false);
    }
    found
}

// The first half-facet of a star at the mark and the first border at it, along the chain; the walk ends at a border.
pub fn ends_of(w: &[u32], caps: Caps, d: u32, v: Mark) -> Ends
    ensures { Ended w.now caps d v.0 result }
{
    let mut any: u32 = 0;
    let mut link = first_of(w, caps, v);
    for _ in 0..MOST_AROUND {
        if link == 0 {
            return Ends { any, border: 0 };
        }
        let at = link - 1;
        let c = Cell(at / 8);
        let bits = star_bits(w, caps, d, c, at % 8);
        any = earlier(w, caps, any, c, bits);
        let border = half_at(w, caps, c, bits, true);
        if 0 < border {
            return Ends { any, border };
        }
        link = link_of(w, caps, c, at % 8);
    }
    Ends { any, border: 0 }
}

// The first corner of a cell that is the mark; 0 where there is none.
fn corner_with(w: &[u32], caps: Caps, c: Cell, v: Mark) -> u32
    ensures { result ≡ corner_of w.now caps c.0 v.0 }
{
    for k in 0..MOST_MARKS {
        if corner_of(w, caps, c, k).0 == v.0 {
            return k;
        }
    }
    0
}

// Of what is found and facet f, whose digit is the last of left: the first after facet g, or else the first.
fn better(found: u32, g: u32, f: u32, left: u32) -> u32
    ensures { Better found f left result }
{
    if left % 2 == 0 {
        return found;
    }
    if found == g {
        return f;
    }
    if f <= g {
        return found;
    }
    if found < g { f } else { found }
}

// Of some facets the next after facet g, and after the last the first; g where there is no other.
fn other(bits: u32, g: u32) -> u32
    ensures { Other bits g result }
{
    let mut found = g;
    let mut left = bits;
    for f in 0..MOST_FACETS {
        found = better(found, g, f, left);
        left /= 2;
    }
    found
}

// Of some facets another than g: the next, or with `back` the one behind the next, where that is another too.
fn swing(bits: u32, g: u32, back: bool) -> u32
    ensures { Other bits g result }
{
    let next = other(bits, g);
    if !back {
        return next;
    }
    let behind = other(bits, next);
    if behind == g { next } else { behind }
}

// Another half-facet of the cell at the mark.
fn turn(w: &[u32], caps: Caps, v: Mark, h: Half, back: bool) -> Half
    ensures { Stays w.now caps v.0 h.0 result.0 }
{
    let c = cell_of(h);
    let bits = at_corner(code_of(w, caps, c), corner_with(w, caps, c, v));
    half_of(c, swing(bits, facet_of(h), back))
}

// Whether a walk from a half-facet at the mark meets a border at it, or a cell before its own: to the sibling, to another half-facet of the sibling's
// cell, and so on, now the next, now the one behind it, so that among solids it crosses the star and does not go round an edge. It stays in the
// group; where it does not meet one there may be one.
fn walks_out(w: &[u32], caps: Caps, v: Mark, start: Half) -> bool
    ensures { Out w.now caps v.0 start.0 result }
{
    let mut h = start;
    for step in 0..MOST_STEPS {
        let next = sibling_of(w, caps, h);
        if next.0 == h.0 {
            return true;
        }
        if next.0 / 8 < start.0 / 8 {
            return true;
        }
        h = turn(w, caps, v, next, step % 2 == 0);
        if h.0 == start.0 {
            return false;
        }
    }
    false
}

// So from facet f of a cell, whose digit is the last of left, where it is there.
fn facet_out(w: &[u32], caps: Caps, v: Mark, c: Cell, f: u32, left: u32) -> bool
    ensures { FacetOut w.now caps v.0 c.0 f left result }
{
    left % 2 == 1 && walks_out(w, caps, v, half_of(c, f))
}

// So from one of some facets of a cell, where it has any.
fn cell_out(w: &[u32], caps: Caps, v: Mark, c: Cell, bits: u32) -> bool
    ensures { CellOut w.now caps v.0 c.0 bits result }
{
    if bits == 0 {
        return true;
    }
    let mut left = bits;
    for f in 0..MOST_FACETS {
        if facet_out(w, caps, v, c, f, left) {
            return true;
        }
        left /= 2;
    }
    false
}

// So from each cell of the star before cell b.
pub fn all_out(w: &[u32], caps: Caps, d: u32, v: Mark, b: Cell) -> bool
    ensures { AllOut w.now caps d v.0 b.0 result }
{
    let mut link = first_of(w, caps, v);
    for _ in 0..MOST_AROUND {
        if link == 0 {
            return true;
        }
        let at = link - 1;
        let c = Cell(at / 8);
        if b.0 <= c.0 {
            return true;
        }
        if !cell_out(w, caps, v, c, star_bits(w, caps, d, c, at % 8)) {
            return false;
        }
        link = link_of(w, caps, c, at % 8);
    }
    false
}
