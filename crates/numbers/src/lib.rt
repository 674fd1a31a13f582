// The registers of numbers, each a type of its own: a mark's number, a cell's, a half-facet's.
//
// What is here: the three tuple structs, and a half-facet's number made and taken apart. What is
// proved: each answer is an equation with specs/Half.antt; making and taking apart are inverse for
// every cell below 65,536 and every local facet below 8 (proofs/Inverse.antt). What a caller should
// know: a cell's number where a mark's is due does not compile.
#![tactic(auto)]

ghost use Rattle.std.specs.Prelude.{◌≡◌, ◌/◌, ◌%◌};
ghost use Rattle.numbers.specs.Half.{half_of, cut};
ghost use Rattle.numbers.specs.Editions.{is_edition};

// "Capacities: 0 to 65,535 marks and 0 to 65,535 cells."
pub const MOST_CAPACITY: u32 = 65535;

// Cells are numbered below this, whatever the capacity.
pub const PAST_CELLS: u32 = 65536;

// "A mark may stand in at most 128 live cells, all dimensions together."
pub const MOST_AROUND: u32 = 128;

// The editions of the sheet rules; the outline's own forms mean the first.
pub const FIRST_EDITION: u32 = 1;

pub const SECOND_EDITION: u32 = 2;

// What a mesh was formatted for: its capacities and its edition.
#[derive(Clone, Copy)]
pub struct Caps {
    pub marks: u32,
    pub cells: u32,
    pub edition: u32,
}

// Whether there is such an edition.
pub fn is_edition(edition: u32) -> bool
    ensures { result ≡ is_edition edition }
{
    if edition == FIRST_EDITION {
        return true;
    }
    edition == SECOND_EDITION
}

// A mark's number.
#[derive(Clone, Copy)]
pub struct Mark(pub u32);

// A cell's number.
#[derive(Clone, Copy)]
pub struct Cell(pub u32);

// A half-facet's number.
#[derive(Clone, Copy)]
pub struct Half(pub u32);

// The number of a cell's local facet. Cells run below 65,536 and facets below 8; the rest is cut off.
pub fn half_of(c: Cell, f: u32) -> Half
    ensures { result.0 ≡ half_of (cut c.0) (f % 8) }
{
    Half(8 * (c.0 % PAST_CELLS) + f % 8)
}

// The cell of a half-facet.
pub fn cell_of(h: Half) -> Cell
    ensures { result.0 ≡ h.0 / 8 }
{
    Cell(h.0 / 8)
}

// The local facet of a half-facet.
pub fn facet_of(h: Half) -> u32
    ensures { result ≡ h.0 % 8 }
{
    h.0 % 8
}
