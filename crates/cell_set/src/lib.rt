// A set of cells in lent bytes, one for each number.
//
// What is here: `put_cell` adds a cell to the set, `has_cell` tells whether it is in it. Both are total: any bytes, any number. What is proved:
// the answer, and every byte as it is left, is an equation with specs/CellSet.antt or with the library; proofs/Sets.antt has what a set is after
// a cell was added. What a caller should know: bytes of 0 are the empty set; a number past the end is never in it.
#![tactic(auto)]

ghost use Rattle.std.specs.Prelude.{◌≡◌, set};
ghost use Rattle.cell_set.specs.CellSet.{in_set};

use numbers::Cell;

// The cell is in the set.
pub fn has_cell(cells: &[u8], c: Cell) -> bool
    ensures { result ≡ in_set cells.now c.0 }
{
    let at = c.0 as usize;
    at < cells.len() && cells[at] == 1
}

// The cell added to the set.
pub fn put_cell(cells: &mut [u8], c: Cell)
    ensures { cells.new ≡ set cells.old c.0 1 }
{
    let at = c.0 as usize;
    if at < cells.len() {
        cells[at] = 1;
    }
}
