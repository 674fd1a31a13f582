// The whole check: whether memory is well-formed.
//
// What is here: `whole`, and the steps of its second half; the first half is crates/record_checks. What is proved: it says yes exactly if there is
// a map of which memory is the well-formed memory, on any memory, also under 16 words (specs/Whole.antt). What a caller should know:
// nothing is written; the time grows with the marks and cells and their stars.
#![tactic(auto)]

ghost use Rattle.std.specs.Prelude.{◌≡◌, ◌<◌, get_or};
ghost use Rattle.lists.specs.Lists.{any, every, list_of, after};
ghost use Rattle.shapes.specs.Shapes.{facet_count};
ghost use Rattle.picture.specs.State.{map_with};
ghost use Rattle.shapes.specs.Sizes.{most_code};
ghost use Rattle.store.specs.Slots.{code_in};
ghost use Rattle.record_checks.specs.Upright.{Upright};
ghost use Rattle.whole.specs.Whole.{Whole};
ghost use Rattle.whole.specs.SecondHalf.{Sees, Readied, SettledBy, twin_in, lone_of, few_in, facet_right, facets_right, anc_right, ancs_right, count_in, count_right};

use chain::gather;
use facet::marks_at;
use group::first_anchor_of;
use lists::same_set;
use map::way_number;
use numbers::{Caps, Cell, Half, MOST_AROUND, Mark, SECOND_EDITION, half_of};
use record_checks::laid;
use shapes::{FacetTable, MOST_CODE, dimension, facet_count, facet_table};
use sibling::{facet_sharers, facing};
use store::{anchor_of, code_of, corner_of, count_of, open, sibling_of, way_of};
use words::word;

// Whether k is another cell than c, of the same type with the same set of marks.
fn twin(w: &[u32], caps: Caps, c: Cell, k: Cell) -> bool
    ensures { result ≡ twin_in w.now caps c.0 k.0 }
{
    k.0 != c.0
        && code_of(w, caps, k) == code_of(w, caps, c)
        && same_set(marks_at(w, caps, k), marks_at(w, caps, c))
}

// Whether one of the first n cells of a list is a twin of c.
fn twins(w: &[u32], caps: Caps, c: Cell, cells: &[u32], n: u32) -> bool
    ensures { result ≡ any (twin_in w.now caps c.0) (list_of n (λ i. get_or cells.now i 0)) }
{
    (0..n).any(|i| twin(w, caps, c, Cell(word(cells, i as usize))))
}

// Whether no other cell is of the type of c with its set of marks.
fn lone(w: &[u32], caps: Caps, c: Cell) -> bool
    ensures { Sees w.now caps (λ s. Upright caps s × (c.0 < caps.cells)) (λ s. lone_of (map_with caps s) c.0) result }
{
    if code_of(w, caps, c) == 0 {
        return true;
    }
    let v = corner_of(w, caps, c, 0);
    let mut cells = [0u32; MOST_AROUND as usize];
    let n = gather(w, caps, v, &mut cells);
    !twins(w, caps, c, &cells, n)
}

// Whether no two cells are twins.
fn all_lone(w: &[u32], caps: Caps) -> bool
    ensures { Sees w.now caps (Upright caps) (λ s. every caps.cells (lone_of (map_with caps s))) result }
{
    (0..caps.cells).all(|c| lone(w, caps, Cell(c)))
}

// The number after h among the first n of a list, and after the last the first.
fn next_in(list: &[u32], n: u32, h: Half) -> u32
    ensures { result ≡ after h.0 (list_of n (λ i. get_or list.now i 0)) }
{
    for i in 0..n {
        let x = word(list, i as usize);
        if h.0 < x {
            return x;
        }
    }
    if n == 0 {
        return h.0;
    }
    word(list, 0)
}

// Whether so many may share a facet of the type: two solids at most, under edition 2.
fn few(caps: Caps, t: u32, n: u32) -> bool
    ensures { result ≡ few_in caps t n }
{
    caps.edition != SECOND_EDITION || dimension(t) != 3 || n <= 2
}

// Whether so many may share a facet, and the stored sibling of its half-facet is the sibling, its way the way.
fn sibling_ok(w: &[u32], caps: Caps, rows: &FacetTable, c: Cell, f: u32) -> bool
    ensures { Sees w.now caps (λ s. (Readied caps rows.now s × (c.0 < caps.cells)) × (f < facet_count (code_in w.now caps c.0))) (λ s. facet_right caps s c.0 f) result }
{
    let mut halves = [0u32; MOST_AROUND as usize];
    let n = facet_sharers(w, caps, rows, c, f, &mut halves);
    if !few(caps, code_of(w, caps, c), n) {
        return false;
    }
    let half = half_of(c, f);
    let next = Half(next_in(&halves, n, half));
    sibling_of(w, caps, half).0 == next.0
        && way_number(way_of(w, caps, half)) == way_number(facing(w, caps, rows, half, next))
}

// Whether that is so for each facet of a cell.
fn siblings_ok(w: &[u32], caps: Caps, rows: &FacetTable, c: Cell) -> bool
    ensures { Sees w.now caps (λ s. Readied caps rows.now s × (c.0 < caps.cells)) (λ s. facets_right w.now caps s c.0) result }
{
    let n = facet_count(code_of(w, caps, c));
    (0..n).all(|f| sibling_ok(w, caps, rows, c, f))
}

// Whether that is so for all cells.
fn all_siblings(w: &[u32], caps: Caps, rows: &FacetTable) -> bool
    ensures { Sees w.now caps (Readied caps rows.now) (λ s. every caps.cells (facets_right w.now caps s)) result }
{
    (0..caps.cells).all(|c| siblings_ok(w, caps, rows, Cell(c)))
}

// Whether the stored first anchors of a mark are its first anchors.
fn anchors_ok(w: &[u32], caps: Caps, rows: &FacetTable, v: Mark) -> bool
    ensures { Sees w.now caps (λ s. SettledBy caps rows.now s × (v.0 < caps.marks)) (λ s. ancs_right caps s v.0) result }
{
    for d in 0..3 {
        if anchor_of(w, caps, d + 1, v) != first_anchor_of(w, caps, rows, d + 1, v) {
            return false;
        }
    }
    true
}

// Whether all stored first anchors are the first anchors.
fn all_anchors(w: &[u32], caps: Caps, rows: &FacetTable) -> bool
    ensures { Sees w.now caps (SettledBy caps rows.now) (λ s. every caps.marks (ancs_right caps s)) result }
{
    (0..caps.marks).all(|v| anchors_ok(w, caps, rows, Mark(v)))
}

// The cells of a type, counted.
fn count(w: &[u32], caps: Caps, t: u32) -> u32
    ensures { result ≡ count_in w.now caps t }
{
    let mut n: u32 = 0;
    for c in 0..caps.cells {
        if code_of(w, caps, Cell(c)) == t {
            n += 1;
        }
    }
    n
}

// Whether the stored live counts are those of the types.
fn counts_ok(w: &[u32], caps: Caps) -> bool
    ensures { result ≡ every most_code (count_right w.now caps) }
{
    for t in 0..MOST_CODE {
        if count_of(w, caps, t + 1) != count(w, caps, t + 1) {
            return false;
        }
    }
    true
}

// Whether memory is well-formed, for some map.
pub fn whole(w: &[u32]) -> bool
    ensures { Whole w.now result }
{
    let Ok(caps) = open(w) else {
        return false;
    };
    if !laid(w, caps) {
        return false;
    }
    if !all_lone(w, caps) {
        return false;
    }
    if !counts_ok(w, caps) {
        return false;
    }
    let rows = facet_table();
    all_siblings(w, caps, &rows) && all_anchors(w, caps, &rows)
}
