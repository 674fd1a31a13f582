// The groups of a star, and their anchors.
//
// What is here: `anchors_of` lists the anchors of a mark in a dimension, `first_anchor_of` gives the first of them as number + 1.
// Both are total on any memory. What is proved: on the picture of a settled state each answer is the definition's (specs/Group.antt
// says what of a state is asked). How the anchors: each cell of the star has a label; two cells that share a facet with the mark get one
// label, and the stored siblings of the one cell's facets tell it, for they lead to each cell with a facet of the same marks; then the
// anchor of each label's cells is sought, once. How the first: it is the least border at the mark or the least half-facet at it of a group
// without one (crates/border), so a walk along the chain tells it, and walks from cell to cell that meet a border; labels are the last
// resort. What a caller should know: each pair of cells is looked at once at most; 128 words hold any answer; the table is handed down.
#![tactic(auto)]

ghost use Rattle.std.specs.Prelude.{◌≡◌, ◌+◌, ◌<◌};
ghost use Rattle.lists.specs.Filled.{Copied};
ghost use Rattle.map.specs.Stars.{anchors};
ghost use Rattle.picture.specs.State.{next};
ghost use Rattle.star.specs.Listed.{Gives, Reads};
ghost use Rattle.group.specs.Group.{Around};
ghost use Rattle.group.specs.Labels.{met_in, joins_in, linked_in, link_in, Numbered, Relabelled, Pairs, Merged, Labelled};
ghost use Rattle.group.specs.Places.{chosen_in, seek_in, place_in, Recalled, anchors_in};
ghost use Rattle.numbers.specs.Sizes.{most_around};

use border::{all_out, ends_of, wanted};
use facet::facet_has;
use numbers::{Caps, Cell, Half, MOST_AROUND, Mark, cell_of, half_of};
use shapes::{FacetTable, facet_count};
use star::star_of;
use store::{code_of, sibling_of};
use words::{put, word};

// Whether the words lead from a half-facet to cell b before they lead back; no set has more than 128 half-facets.
fn meets(w: &[u32], caps: Caps, start: Half, b: Cell) -> bool
    ensures { result ≡ met_in w.now caps start.0 b.0 }
{
    let mut h = sibling_of(w, caps, start);
    for _ in 0..MOST_AROUND {
        if h.0 == start.0 {
            return false;
        }
        if cell_of(h).0 == b.0 {
            return true;
        }
        h = sibling_of(w, caps, h);
    }
    false
}

// Whether a facet of cell a is one of cell b too, and holds v.
fn joins(w: &[u32], caps: Caps, rows: &FacetTable, v: Mark, a: Cell, f: u32, b: Cell) -> bool
    ensures { result ≡ joins_in w.now caps rows.now v.0 a.0 f b.0 }
{
    meets(w, caps, half_of(a, f), b) && facet_has(w, caps, rows, a, f, v)
}

// Whether two cells share a facet that holds v, by the sibling words.
fn linked(w: &[u32], caps: Caps, rows: &FacetTable, v: Mark, a: Cell, b: Cell) -> bool
    ensures { result ≡ linked_in w.now caps rows.now v.0 a.0 b.0 }
{
    let n = facet_count(code_of(w, caps, a));
    for f in 0..n {
        if joins(w, caps, rows, v, a, f, b) {
            return true;
        }
    }
    false
}

// Each of the first n places gets a label of its own.
fn number(lab: &mut [u32], n: u32)
    ensures { Numbered n lab.old lab.new }
{
    for j in 0..n {
        put(lab, j as usize, j);
    }
}

// Of the first n places, those with one label get another.
fn relabel(lab: &mut [u32], n: u32, old: u32, new: u32)
    ensures { Relabelled n old new lab.old lab.new }
{
    for j in 0..n {
        if word(lab, j as usize) == old {
            put(lab, j as usize, new);
        }
    }
}

// Two places whose cells are linked get one label.
fn merge_pair(
    w: &[u32],
    caps: Caps,
    rows: &FacetTable,
    v: Mark,
    cells: &[u32],
    n: u32,
    a: usize,
    b: usize,
    lab: &mut [u32],
)
    ensures { b < a → a < n → Merged (link_in w.now caps rows.now v.0 cells.now) n (Pairs a b (b + 1)) lab.old lab.new }
{
    let one = word(lab, a);
    let other = word(lab, b);
    if one == other {
        return;
    }
    if linked(w, caps, rows, v, Cell(word(cells, a)), Cell(word(cells, b))) {
        relabel(lab, n, other, one);
    }
}

// So for a place and each place before it, the nearest first: neighbours often have near numbers, and then one label soon.
fn merge_row(
    w: &[u32],
    caps: Caps,
    rows: &FacetTable,
    v: Mark,
    cells: &[u32],
    n: u32,
    a: u32,
    lab: &mut [u32],
)
    ensures { a < n → Merged (link_in w.now caps rows.now v.0 cells.now) n (Pairs a 0 a) lab.old lab.new }
{
    for b in (0..a).rev() {
        merge_pair(w, caps, rows, v, cells, n, a as usize, b as usize, lab);
    }
}

// The labels of the first n cells: one for each group.
fn labels(w: &[u32], caps: Caps, rows: &FacetTable, v: Mark, cells: &[u32], n: u32, lab: &mut [u32])
    ensures { Labelled (link_in w.now caps rows.now v.0 cells.now) n lab.old lab.new }
{
    number(lab, n);
    for a in 0..n {
        merge_row(w, caps, rows, v, cells, n, a, lab);
    }
}

// Whether the half-facet at a place is of the group of place i, is wanted and holds v.
fn chosen(
    w: &[u32],
    caps: Caps,
    rows: &FacetTable,
    v: Mark,
    cells: &[u32],
    lab: &[u32],
    i: u32,
    only: bool,
    x: u32,
) -> bool
    ensures { result ≡ chosen_in w.now caps rows.now v.0 cells.now lab.now i only x }
{
    let j = (x / 8) as usize;
    if word(lab, j) != word(lab, i as usize) {
        return false;
    }
    let c = Cell(word(cells, j));
    wanted(w, caps, c, x % 8, only) && facet_has(w, caps, rows, c, x % 8, v)
}

// The first such place below end; end where there is none.
fn seek(
    w: &[u32],
    caps: Caps,
    rows: &FacetTable,
    v: Mark,
    cells: &[u32],
    lab: &[u32],
    end: u32,
    i: u32,
    only: bool,
) -> u32
    ensures { result ≡ seek_in w.now caps rows.now v.0 cells.now lab.now end i only }
{
    for x in 0..end {
        if chosen(w, caps, rows, v, cells, lab, i, only, x) {
            return x;
        }
    }
    end
}

// The place of the anchor of place i's group: the first border, or else the first of all.
fn place(
    w: &[u32],
    caps: Caps,
    rows: &FacetTable,
    v: Mark,
    cells: &[u32],
    lab: &[u32],
    end: u32,
    i: u32,
) -> u32
    ensures { result ≡ place_in w.now caps rows.now v.0 cells.now lab.now end i }
{
    let x = seek(w, caps, rows, v, cells, lab, end, i, true);
    if x < end {
        x
    } else {
        seek(w, caps, rows, v, cells, lab, end, i, false)
    }
}

// The place of the anchor of place i's group; it is kept for the group's label as place + 1, so that it is sought once for a group.
fn recall(
    w: &[u32],
    caps: Caps,
    rows: &FacetTable,
    v: Mark,
    cells: &[u32],
    lab: &[u32],
    end: u32,
    i: u32,
    kept: &mut [u32],
) -> u32
    ensures { Recalled (place_in w.now caps rows.now v.0 cells.now lab.now end) lab.now i kept.old result kept.new }
{
    let label = word(lab, i as usize) as usize;
    let known = word(kept, label);
    if 0 < known {
        return known - 1;
    }
    let x = place(w, caps, rows, v, cells, lab, end, i);
    // where there is none, nothing is kept
    if end <= x {
        return x;
    }
    put(kept, label, x + 1);
    x
}

// The anchors among the first n places, each at the place of its own cell, written to the first places of out; how many there are.
fn list(
    w: &[u32],
    caps: Caps,
    rows: &FacetTable,
    v: Mark,
    cells: &[u32],
    lab: &[u32],
    n: u32,
    end: u32,
    out: &mut [u32],
) -> u32
    ensures { Copied (anchors_in (place_in w.now caps rows.now v.0 cells.now lab.now end) cells.now n) out.old result out.new }
{
    let mut kept = [0u32; MOST_AROUND as usize];
    let mut k: u32 = 0;
    for i in 0..n {
        let x = recall(w, caps, rows, v, cells, lab, end, i, &mut kept);
        if x / 8 == i {
            let half = half_of(Cell(word(cells, i as usize)), x % 8);
            put(out, k as usize, half.0);
            k += 1;
        }
    }
    k
}

// The anchors of a mark in a dimension, ascending, written to the first places of out; how many there are.
pub fn anchors_of(w: &[u32], caps: Caps, rows: &FacetTable, d: u32, v: Mark, out: &mut [u32]) -> u32
    ensures { Gives w.now caps most_around (Around caps rows.now v.0) (λ m. anchors m d v.0) out.old result out.new }
{
    let mut cells = [0u32; MOST_AROUND as usize];
    let n = star_of(w, caps, d, v, &mut cells);
    // no cell of that dimension, no group
    if n == 0 {
        return 0;
    }
    let mut lab = [0u32; MOST_AROUND as usize];
    labels(w, caps, rows, v, &cells, n, &mut lab);
    list(w, caps, rows, v, &cells, &lab, n, 8 * n, out)
}

// The first anchor of a mark in a dimension as number + 1, by the groups; 0 for none.
fn first_by_groups(w: &[u32], caps: Caps, rows: &FacetTable, d: u32, v: Mark) -> u32
    ensures { Reads w.now caps (Around caps rows.now v.0) (λ m. next (anchors m d v.0)) result }
{
    let mut found = [0u32; MOST_AROUND as usize];
    let n = anchors_of(w, caps, rows, d, v, &mut found);
    if n == 0 {
        return 0;
    }
    // a larger number is no half-facet's
    let h = word(&found, 0);
    if h < 524288 { h + 1 } else { 0 }
}

// The first anchor of a mark in a dimension as number + 1; 0 for none. No border at the mark: the first half-facet at it. From each cell before
// that of the first border a walk meets one: the first border.
pub fn first_anchor_of(w: &[u32], caps: Caps, rows: &FacetTable, d: u32, v: Mark) -> u32
    ensures { Reads w.now caps (Around caps rows.now v.0) (λ m. next (anchors m d v.0)) result }
{
    let e = ends_of(w, caps, d, v);
    let border = e.border;
    if border == 0 {
        return e.any;
    }
    if all_out(w, caps, d, v, Cell((border - 1) / 8)) {
        return border;
    }
    first_by_groups(w, caps, rows, d, v)
}
