// The edits of a journal, made once more.
//
// What is here: `replay` makes the edits of a journal's first entries in a mesh, one after another; `replay_from` does so in a copy of a
// starting map. They have no `requires`. What is proved: on any memory each is a run of single edits (specs/Replayed.antt), so that on
// well-formed memory the law of runs gives the map, and memory keeps its length. What a caller should know: they are lent the words of the
// room alone, so that nothing beyond it can change.
#![tactic(auto)]

ghost use Rattle.std.specs.Prelude.{◌≡◌};
ghost use Rattle.journal_store.specs.Journals.{edit_in, edits_in};
ghost use Rattle.mesh.specs.Edited.{Edited};
ghost use Rattle.mesh.specs.Run.{Run};
ghost use Rattle.replay.specs.Replayed.{Replayed};

use journal_store::{Kind, cell_of, copy_words, kind_at, licence_of, marks_at, type_of};
use map::Refusal;
use mesh::{insert_licensed, remove};
use numbers::Cell;
use shapes::mark_count;
use words::part;

// The edit of one entry.
fn one_entry(w: &mut [u32], j: &[u32], k: u32) -> Result<(), Refusal>
    ensures { Edited w.old (edit_in j.now k) result w.new }
{
    let c = Cell(cell_of(j, k));
    match kind_at(j, k) {
        Some(Kind::Insert) => {
            let t = type_of(j, k);
            let licence = licence_of(j, k);
            let marks = part(j, marks_at(k), mark_count(t) as usize);
            insert_licensed(w, c, t, licence, marks)
        }
        Some(Kind::Remove) | None => remove(w, c),
    }
}

// The edits of the first n entries.
pub fn replay(w: &mut [u32], j: &[u32], n: u32)
    ensures { Run w.old (edits_in j.now n) w.new }
{
    for k in 0..n {
        let _ = one_entry(w, j, k);
    }
}

// The edits of the first n entries, in a copy of the starting map.
pub fn replay_from(w: &mut [u32], start: &[u32], j: &[u32], n: u32)
    ensures { Replayed start.now j.now n w.old w.new }
{
    let room = w.len();
    copy_words(start, w, 0, room);
    replay(w, j, n);
}
