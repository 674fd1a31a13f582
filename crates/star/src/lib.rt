// The star of a mark: its cells of one dimension.
//
// What is here: `star_of` lists the star of a mark in a dimension, from the mark's chain. It is total on any memory. What is proved: on
// the picture of a ready state the list is the definition's, none missing, none extra (specs/Listed.antt: `Gives`). What a caller
// should know: a star has at most 128 cells; the output takes as many as it has room for, and the count is whole.
#![tactic(auto)]

ghost use Rattle.map.specs.Stars.{star};
ghost use Rattle.star.specs.Listed.{Gives, AtMark};
ghost use Rattle.star.specs.Along.{kept};
ghost use Rattle.lists.specs.Filled.{Copied};
ghost use Rattle.std.specs.Prelude.{take};
ghost use Rattle.numbers.specs.Sizes.{most_around};

use chain::gather;
use numbers::{Caps, Cell, MOST_AROUND, Mark};
use shapes::dimension;
use store::code_of;
use words::{put, word};

// Of the first n cells, those of the dimension, written to the first places of out; how many there are.
fn keep_dimension(w: &[u32], caps: Caps, d: u32, cells: &[u32], n: u32, out: &mut [u32]) -> u32
    ensures { Copied (kept w.now caps d cells.now n) out.old result out.new }
{
    let mut k: u32 = 0;
    for i in 0..n {
        let c = Cell(word(cells, i as usize));
        if dimension(code_of(w, caps, c)) == d {
            put(out, k as usize, c.0);
            k += 1;
        }
    }
    k
}

// The star of a mark in a dimension, written to the first places of out; how many cells it has.
pub fn star_of(w: &[u32], caps: Caps, d: u32, v: Mark, out: &mut [u32]) -> u32
    ensures { Gives w.now caps most_around (AtMark caps v.0) (λ m. star m d v.0) out.old result out.new }
{
    let mut cells = [0u32; MOST_AROUND as usize];
    let n = gather(w, caps, v, &mut cells);
    keep_dimension(w, caps, d, &cells, n, out)
}
