// The half-facets with one set of marks, and their siblings.
//
// What is here: `sharers` lists the half-facets with a set of marks, `facet_sharers` those with the marks of a facet, `facing` tells which
// way one runs beside another, `mend` makes each of a set lead to the next. All are total on any memory. What is proved: on the picture of
// a state whose cells make a sound map and whose chains are right, the list is that of the definitions and the siblings are left as
// specs/Shared.antt says; the way is that of crates/map/specs/Ways.antt; on any memory nothing beyond the room changes. What a caller should know: the set's first mark leads to its cells, so it must be a mark of the mesh; the
// table is handed down, so that it is copied once a call; 128 words hold any answer.
#![tactic(auto)]

ghost use Rattle.std.specs.Prelude.{◌≡◌, [], ◌∷◌};
ghost use Rattle.lists.specs.Lists.{same};
ghost use Rattle.map.specs.Ways.{turned, rotation, runs, direction};
ghost use Rattle.picture.specs.Step.{Step};
ghost use Rattle.facet.specs.Facet.{set_in, facet_in};
ghost use Rattle.sibling.specs.Shared.{Shared, MayMend, mended};
ghost use Rattle.sibling.specs.Ways.{turned_place, end_place, heading, facing_in, Edges};

use facet::{copy_facet, facet_set, marks_at, matching};
use map::Way;
use numbers::{Caps, Cell, Half, MOST_AROUND, Mark, cell_of, facet_of, half_of};
use picture::put_sibling;
use shapes::{FacetTable, MOST_CORNERS, NO_FACET, column};
use store::{code_of, first_of, link_of};
use words::{part, put, word};

// The half-facets with this set of marks, ascending, written to the first places of out; how many there are.
pub fn sharers(w: &[u32], caps: Caps, rows: &FacetTable, set: &[u32], out: &mut [u32]) -> u32
    ensures { Shared w.now caps rows.now set.now out.old result out.new }
{
    let mut n: u32 = 0;
    let mut link = first_of(w, caps, Mark(word(set, 0)));
    for _ in 0..MOST_AROUND {
        if link == 0 {
            return n;
        }
        let at = link - 1;
        let c = Cell(at / 8);
        link = link_of(w, caps, c, at % 8);
        let f = matching(w, caps, rows, c, set);
        if f < NO_FACET {
            let half = half_of(c, f);
            put(out, n as usize, half.0);
            n += 1;
        }
    }
    n
}

// The half-facets with the marks of a facet, ascending, written to the first places of out; how many there are.
pub fn facet_sharers(
    w: &[u32],
    caps: Caps,
    rows: &FacetTable,
    c: Cell,
    f: u32,
    out: &mut [u32],
) -> u32
    ensures { Shared w.now caps rows.now (facet_in w.now caps rows.now c.0 f) out.old result out.new }
{
    let mut marks = [0u32; MOST_CORNERS as usize];
    let n = copy_facet(w, caps, rows, c, f, &mut marks);
    sharers(w, caps, rows, part(&marks, 0, n as usize), out)
}

// The place k behind place n, of so many in a ring.
fn turned_place(size: usize, n: usize, k: usize) -> usize
    ensures { result ≡ turned_place size n k }
{
    if size <= n {
        return k;
    }
    if k < size - n {
        return n + k;
    }
    k - (size - n)
}

// The place, or with `back` the one as far from the end.
fn end_place(size: usize, back: bool, k: usize) -> usize
    ensures { result ≡ end_place size back k }
{
    if !back {
        return k;
    }
    if k < size { size - 1 - k } else { 0 }
}

// Whether a list is another, or that reversed, begun at its place n.
fn same_turned(a: &[u32], b: &[u32], n: usize, back: bool) -> bool
    ensures { result ≡ same a.now (turned (heading back b.now) n) }
{
    if a.len() != b.len() {
        return false;
    }
    for (k, x) in a.iter().enumerate() {
        let at = end_place(b.len(), back, turned_place(b.len(), n, k));
        if *x != word(b, at) {
            return false;
        }
    }
    true
}

// Whether a list is a rotation of another, or of that reversed.
fn rotates(a: &[u32], b: &[u32], back: bool) -> bool
    ensures { result ≡ rotation a.now (heading back b.now) }
{
    (0..b.len()).any(|n| same_turned(a, b, n, back))
}

fn run_way(alike: bool, against: bool) -> Way
    ensures { result ≡ runs alike against }
{
    if alike {
        return Way::Same;
    }
    if against { Way::Opposite } else { Way::Neither }
}

// Which way two facets with one set of marks run, each given by its local number and its marks.
pub fn direction(f: u32, a: &[u32], g: u32, b: &[u32]) -> Way
    ensures { result ≡ direction f a.now g b.now }
{
    if a.len() == 1 {
        return run_way(f == g, true);
    }
    if a.len() == 2 {
        return run_way(same_turned(a, b, 0, false), same_turned(a, b, 0, true));
    }
    run_way(rotates(a, b, false), rotates(a, b, true))
}

// Whether two marks are two others, in their order.
fn same_pair(a: u32, b: u32, c: u32, d: u32) -> bool
    ensures { result ≡ same (a ∷ b ∷ []) (c ∷ d ∷ []) }
{
    a == c && b == d
}

// Which way two edges run, each given by its type and facet and the cell's marks: two marks held to two.
fn edge_beside(
    rows: &FacetTable,
    t: u32,
    f: u32,
    marks: &[u32],
    u: u32,
    g: u32,
    others: &[u32],
) -> Way
    ensures { Edges rows.now t f marks.now u g others.now result }
{
    let a = word(marks, column(rows, t, f, 1) as usize);
    let b = word(marks, column(rows, t, f, 2) as usize);
    let c = word(others, column(rows, u, g, 1) as usize);
    let d = word(others, column(rows, u, g, 2) as usize);
    run_way(same_pair(a, b, c, d), same_pair(a, b, d, c))
}

// Which way two facets run, by copies of their marks.
fn face_beside(
    rows: &FacetTable,
    t: u32,
    f: u32,
    marks: &[u32],
    u: u32,
    g: u32,
    others: &[u32],
) -> Way
    ensures { result ≡ direction f (set_in rows.now t f marks.now) g (set_in rows.now u g others.now) }
{
    let mut first = [0u32; MOST_CORNERS as usize];
    let n = facet_set(rows, t, f, marks, &mut first);
    let mut second = [0u32; MOST_CORNERS as usize];
    let k = facet_set(rows, u, g, others, &mut second);
    direction(
        f,
        part(&first, 0, n as usize),
        g,
        part(&second, 0, k as usize),
    )
}

// Which way two facets run.
fn beside(rows: &FacetTable, t: u32, f: u32, marks: &[u32], u: u32, g: u32, others: &[u32]) -> Way
    ensures { result ≡ direction f (set_in rows.now t f marks.now) g (set_in rows.now u g others.now) }
{
    if column(rows, t, f, 0) == 2 && column(rows, u, g, 0) == 2 {
        return edge_beside(rows, t, f, marks, u, g, others);
    }
    face_beside(rows, t, f, marks, u, g, others)
}

// Which way the half-facet x runs beside h; lone where they are one.
pub fn facing(w: &[u32], caps: Caps, rows: &FacetTable, h: Half, x: Half) -> Way
    ensures { result ≡ facing_in w.now caps rows.now h.0 x.0 }
{
    if h.0 == x.0 {
        return Way::Lone;
    }
    let c = cell_of(h);
    let d = cell_of(x);
    beside(
        rows,
        code_of(w, caps, c),
        facet_of(h),
        marks_at(w, caps, c),
        code_of(w, caps, d),
        facet_of(x),
        marks_at(w, caps, d),
    )
}

// Each half-facet with this set of marks leads to the next, and the last to the first, and says which way that runs.
pub fn mend(w: &mut [u32], caps: Caps, rows: &FacetTable, set: &[u32])
    ensures { Step caps w.old w.new (MayMend caps rows.now set.now) (mended caps set.now) }
{
    let mut halves = [0u32; MOST_AROUND as usize];
    let n = sharers(w, caps, rows, set, &mut halves);
    for i in 0..n {
        let next = i + 1;
        let to = if next < n { next } else { 0 };
        let half = Half(word(&halves, i as usize));
        let after = Half(word(&halves, to as usize));
        let way = facing(w, caps, rows, half, after);
        put_sibling(w, caps, half, after, way);
    }
}
