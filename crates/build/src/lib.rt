// A whole mesh from a list of records.
//
// What is here: `build_edition` formats the memory and inserts the records one after another; a record is a cell's number, a type, a licence and
// that type's marks. `build` does so under edition 1. They have no `requires`. What is proved: the answer of the outline, with the place of the
// first refused record; a build that its format refuses changes nothing; nothing beyond the room changes; the memory left is the
// well-formed one of the built mesh, or of the mesh of that edition with no live cell (specs/Builds.antt). What a caller should know: a
// record cut off at the end is refused with 7 unless a check before that one fails, and a refused build formats once more.
#![tactic(auto)]

ghost use Rattle.std.specs.Prelude.{◌≡◌, ◌+◌, min, length};
ghost use Rattle.numbers.specs.Sizes.{caps_under, capacities};
ghost use Rattle.build.specs.Builds.{Builds};
ghost use Rattle.build.specs.Recorded.{width, Recorded};

use format::format_edition;
use map::{Refusal, Unbuilt};
use mesh::insert_licensed;
use numbers::{Cell, FIRST_EDITION};
use shapes::mark_count;
use words::{part, word};

// Where the record from a place on ends: behind its marks, or with the words.
pub fn record_end(records: &[u32], at: usize) -> usize
    ensures { result ≡ min (at + width records.now at) (length records.now) }
{
    let len = records.len();
    if len <= at {
        return len;
    }
    let n = 3 + (mark_count(word(records, at + 1)) as usize);
    if len - at < n {
        return len;
    }
    at + n
}

// The record between two places, inserted.
pub fn one_record(w: &mut [u32], records: &[u32], at: usize, end: usize) -> Result<(), Refusal>
    ensures { Recorded w.old records.now at end result w.new }
{
    if end < 3 {
        return Err(Refusal::CountWrong);
    }
    if end - 3 < at {
        return Err(Refusal::CountWrong);
    }
    let c = word(records, at);
    let t = word(records, at + 1);
    let licence = word(records, at + 2);
    let marks = part(records, at + 3, end - 3 - at);
    insert_licensed(w, Cell(c), t, licence, marks)
}

// A mesh of these capacities and this edition with the cells of the records.
pub fn build_edition(
    w: &mut [u32],
    marks: u32,
    cells: u32,
    edition: u32,
    records: &[u32],
) -> Result<(), Unbuilt>
    ensures { Builds w.old (caps_under edition marks cells) records.now result w.new }
{
    if let Err(why) = format_edition(w, marks, cells, edition) {
        return Err(Unbuilt { why, place: 0 });
    }
    let mut at: usize = 0;
    let mut place: u32 = 0;
    // a walk from record to record, not a count: each says where the next begins
    while at < records.len() {
        let end = record_end(records, at);
        if let Err(why) = one_record(w, records, at, end) {
            let _ = format_edition(w, marks, cells, edition);
            return Err(Unbuilt { why, place });
        }
        at = end;
        place += 1;
    }
    Ok(())
}

// A mesh of these capacities with the cells of the records, under edition 1.
pub fn build(w: &mut [u32], marks: u32, cells: u32, records: &[u32]) -> Result<(), Unbuilt>
    ensures { Builds w.old (capacities marks cells) records.now result w.new }
{
    build_edition(w, marks, cells, FIRST_EDITION, records)
}
