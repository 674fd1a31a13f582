// A wanted list of cells, read record by record.
//
// What is here: `read_wanted` tells whether the words are build records with licences to their end, `record_stands` whether the cell of a record
// stands in a mesh with that type, mark order and licence. They have no `requires`. What is proved: the answer of `read_wanted` is the
// refusal of specs/Wanted.antt; that of `record_stands`, on any memory, is specs/Records.antt's, and on well-formed memory that of the map
// (proofs/Standing.antt); what is behind a record is the rest of the list (proofs/Reading.antt). What a caller should know: the list is read
// from record to record by `build::record_end`; specs/Plans.antt has what the check of a plan answers.
#![tactic(auto)]

ghost use Rattle.std.specs.Prelude.{◌≡◌, length};
ghost use Rattle.map.specs.Cells.{licensed_body};
ghost use Rattle.map.specs.Says.{verdict_says};
ghost use Rattle.wanted.specs.Wanted.{wanted_of};
ghost use Rattle.wanted.specs.Records.{refused_with, refusal_at, cell_at, stands_in, wanted_cell};

use build::record_end;
use facet::marks_at;
use map::Refusal;
use numbers::{Caps, Cell};
use shapes::{dimension, mark_count};
use store::{code_of, licence_of};
use words::{part, word};

// The record at a place: its head, then its type, then its marks.
fn check_record(records: &[u32], at: usize) -> Result<(), Refusal>
    ensures { verdict_says result ≡ refused_with (refusal_at records.now at) }
{
    let len = records.len();
    if len < 3 {
        return Err(Refusal::CountWrong);
    }
    if len - 3 < at {
        return Err(Refusal::CountWrong);
    }
    let t = word(records, at + 1);
    if dimension(t) == 0 {
        return Err(Refusal::TypeUnknown);
    }
    if len - 3 - at < mark_count(t) as usize {
        return Err(Refusal::CountWrong);
    }
    Ok(())
}

// Whether a wanted list is whole, or why not.
pub fn read_wanted(records: &[u32]) -> Result<(), Refusal>
    ensures { verdict_says result ≡ refused_with (wanted_of records.now).refusal }
{
    let mut at: usize = 0;
    // a walk from record to record, not a count: each says where the next begins
    while at < records.len() {
        check_record(records, at)?;
        at = record_end(records, at);
    }
    Ok(())
}

// The cell is live, of this type, with this licence, on these marks in this order.
fn stands(w: &[u32], caps: Caps, c: Cell, t: u32, licence: u32, marks: &[u32]) -> bool
    ensures { result ≡ stands_in w.now caps (wanted_cell c.0 t licence marks.now) }
{
    if caps.cells <= c.0 {
        return false;
    }
    let code = code_of(w, caps, c);
    if code == 0 {
        return false;
    }
    if code != t {
        return false;
    }
    if licence_of(w, caps, c) != licence {
        return false;
    }
    marks_at(w, caps, c) == marks
}

// The cell of the record at a place stands in the mesh, as it is wanted.
pub fn record_stands(w: &[u32], caps: Caps, records: &[u32], at: usize) -> bool
    ensures { result ≡ stands_in w.now caps (cell_at records.now at) }
{
    if records.len() <= at {
        return false;
    }
    let c = word(records, at);
    let t = word(records, at + 1);
    let licence = word(records, at + 2);
    let marks = part(records, at + 3, mark_count(t) as usize);
    stands(w, caps, Cell(c), t, licence, marks)
}
