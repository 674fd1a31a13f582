// The types of cells as a table of tables: dimension, marks and facets of each type.
//
// What is here: `facet_table` gives the table, `column` reads it; `dimension`, `mark_count` and `facet_count` tell of a type. All are
// total: a code, a facet or a corner outside the table reads as 0. What is proved: each answer is that of specs/Shapes.antt, and
// proofs/Facts.antt has the facts of all facets, shown once over the whole table. What a caller should know: a table is copied at each
// use of the constant, so take it once a call and hand the copy down.
#![tactic(auto)]

ghost use Rattle.std.specs.Prelude.{◌≡◌, ◌+◌};
ghost use Rattle.shapes.specs.Shapes.{shape, facet_count};
ghost use Rattle.shapes.specs.Table.{table, entry};

// How many codes the table has, 0 for no type among them.
pub const CODES: u32 = 8;

// No type has a higher code.
pub const MOST_CODE: u32 = 7;

// No type has more marks, or more facets; no facet has more corners.
pub const MOST_MARKS: u32 = 8;

pub const MOST_FACETS: u32 = 6;

pub const MOST_CORNERS: u32 = 4;

// No facet has this number: the answer where none is found.
pub const NO_FACET: u32 = 8;

// A facet's row of the table: the count of its corners, then their places.
const COLUMNS: u32 = 5;

// For each type its facets, each as the count of its corners and their places, padded with 0.
pub type FacetTable = [[[u8; COLUMNS as usize]; MOST_FACETS as usize]; CODES as usize];

const PLACES: FacetTable = [
    [
        [0, 0, 0, 0, 0],
        [0, 0, 0, 0, 0],
        [0, 0, 0, 0, 0],
        [0, 0, 0, 0, 0],
        [0, 0, 0, 0, 0],
        [0, 0, 0, 0, 0],
    ],
    [
        [1, 0, 0, 0, 0],
        [1, 1, 0, 0, 0],
        [0, 0, 0, 0, 0],
        [0, 0, 0, 0, 0],
        [0, 0, 0, 0, 0],
        [0, 0, 0, 0, 0],
    ],
    [
        [2, 0, 1, 0, 0],
        [2, 1, 2, 0, 0],
        [2, 2, 0, 0, 0],
        [0, 0, 0, 0, 0],
        [0, 0, 0, 0, 0],
        [0, 0, 0, 0, 0],
    ],
    [
        [2, 0, 1, 0, 0],
        [2, 1, 2, 0, 0],
        [2, 2, 3, 0, 0],
        [2, 3, 0, 0, 0],
        [0, 0, 0, 0, 0],
        [0, 0, 0, 0, 0],
    ],
    [
        [3, 0, 2, 1, 0],
        [3, 0, 1, 3, 0],
        [3, 1, 2, 3, 0],
        [3, 2, 0, 3, 0],
        [0, 0, 0, 0, 0],
        [0, 0, 0, 0, 0],
    ],
    [
        [4, 0, 3, 2, 1],
        [3, 0, 1, 4, 0],
        [3, 1, 2, 4, 0],
        [3, 2, 3, 4, 0],
        [3, 3, 0, 4, 0],
        [0, 0, 0, 0, 0],
    ],
    [
        [4, 0, 1, 4, 3],
        [4, 1, 2, 5, 4],
        [4, 2, 0, 3, 5],
        [3, 0, 2, 1, 0],
        [3, 3, 4, 5, 0],
        [0, 0, 0, 0, 0],
    ],
    [
        [4, 0, 3, 2, 1],
        [4, 0, 1, 5, 4],
        [4, 1, 2, 6, 5],
        [4, 2, 3, 7, 6],
        [4, 0, 4, 7, 3],
        [4, 4, 5, 6, 7],
    ],
];

fn wide(x: u8) -> u32
    ensures { result ≡ x }
{
    x as u32
}

// The whole table, by value.
pub fn facet_table() -> FacetTable
    ensures { result ≡ table }
{
    PLACES
}

// The dimension of a type; 0 for a code outside the table.
pub fn dimension(t: u32) -> u32
    ensures { result ≡ (shape t).dimension }
{
    match t {
        1 => 1,
        2 => 2,
        3 => 2,
        4 => 3,
        5 => 3,
        6 => 3,
        7 => 3,
        _ => 0,
    }
}

// The count of a type's marks.
pub fn mark_count(t: u32) -> u32
    ensures { result ≡ (shape t).marks }
{
    match t {
        1 => 2,
        2 => 3,
        3 => 4,
        4 => 4,
        5 => 5,
        6 => 6,
        7 => 8,
        _ => 0,
    }
}

// The count of a type's facets.
pub fn facet_count(t: u32) -> u32
    ensures { result ≡ facet_count t }
{
    match t {
        1 => 2,
        2 => 3,
        3 => 4,
        4 => 4,
        5 => 5,
        6 => 5,
        7 => 6,
        _ => 0,
    }
}

// The table's number at a type, a facet and a column: in column 0 the count of the facet's corners, in
// column 1 + k the place of corner k.
pub fn column(rows: &FacetTable, t: u32, f: u32, k: u32) -> u32
    ensures { result ≡ entry rows.now t f k }
{
    if CODES <= t {
        return 0;
    }
    if MOST_FACETS <= f {
        return 0;
    }
    if COLUMNS <= k {
        return 0;
    }
    wide(rows[t as usize][f as usize][k as usize])
}
