// A morning's edits in one call, and the desk's tally.
//
// What is here: `make_edits` makes the edits of a list of words in turn, 1 and a build record to insert, 2 and a cell number to remove, and
// stops at the first refusal; `tallied` gives a tally after such an answer; `edits` does both, on memory, list and tally that are lent. None
// has a `requires`. What is proved: memory that is no mesh is refused with 14, also with an empty list, and stays; on any memory nothing beyond
// the room changes, and what stands in it is what the single edits leave (specs/InTurn.antt); on well-formed memory answer and memory are those
// of `morning`, which folds the single edits; the tally's new value is `tally_after` of its old one and the answer (specs/Counts.antt). What a
// caller should know: no answer looks at the tally; 14 adds one refused; a list of one edit is how a single edit is tallied.
#![tactic(auto)]

ghost use Rattle.std.specs.Prelude.{◌≡◌};
ghost use Rattle.map.specs.Morning.{read_from};
ghost use Rattle.edits.specs.Counts.{counted, tally_after};
ghost use Rattle.edits.specs.InTurn.{step_of, Turned, InTurn, ListEdited};
ghost use Rattle.map.specs.Says.{edits_says};

use build::{one_record, record_end};
use map::{Refusal, Stopped};
use mesh::remove;
use numbers::Cell;
use store::{open, room_of};
use words::{part, word};

// The desk's tally: how many edits were accepted and how many refused.
#[derive(Clone, Copy)]
pub struct Tally {
    pub accepted: u32,
    pub refused: u32,
}

// A count with so many more; at its largest number it stays.
fn raised(had: u32, more: usize) -> u32
    ensures { result ≡ counted had more }
{
    let room = 4294967295 - had;
    if more <= room as usize {
        had + (more as u32)
    } else {
        4294967295
    }
}

// The tally after a list with this answer.
pub fn tallied(t: Tally, r: Result<usize, Stopped>) -> Tally
    ensures { result ≡ tally_after t (edits_says r) }
{
    match r {
        Ok(all) => Tally {
            accepted: raised(t.accepted, all),
            refused: t.refused,
        },
        Err(stopped) => Tally {
            accepted: raised(t.accepted, stopped.made),
            refused: raised(t.refused, 1),
        },
    }
}

// An edit with this verdict, which takes so many words.
fn step_of(v: Result<(), Refusal>, words: usize) -> Result<usize, Refusal>
    ensures { result ≡ step_of v words }
{
    match v {
        Err(why) => Err(why),
        Ok(()) => Ok(words),
    }
}

// The edit of this kind from the first of the words on; how many words it takes.
fn one_edit(w: &mut [u32], kind: u32, words: &[u32]) -> Result<usize, Refusal>
    ensures { Turned w.old kind words.now result w.new }
{
    if kind == 1 {
        let end = record_end(words, 0);
        return step_of(one_record(w, words, 0, end), end);
    }
    if kind == 2 {
        if words.len() == 0 {
            return Err(Refusal::CountWrong);
        }
        return step_of(remove(w, Cell(word(words, 0))), 1);
    }
    Err(Refusal::TypeUnknown)
}

// The edits of a list in turn, up to the first refusal.
fn edit_all(w: &mut [u32], list: &[u32]) -> Result<usize, Stopped>
    ensures { InTurn w.old (read_from 0 list.now).edits (read_from 0 list.now).last result w.new }
{
    let mut at: usize = 0;
    let mut made: usize = 0;
    // a walk from edit to edit, not a count: each says how many words it takes
    while at < list.len() {
        let kind = word(list, at);
        at += 1;
        match one_edit(w, kind, part(list, at, list.len() - at)) {
            Err(why) => {
                return Err(Stopped { made, why });
            }
            Ok(n) => {
                at += n;
                made += 1;
            }
        }
    }
    Ok(made)
}

// The edits of a list, on memory that is a mesh: only its room is lent to them.
pub fn make_edits(w: &mut [u32], list: &[u32]) -> Result<usize, Stopped>
    ensures { ListEdited w.old list.now result w.new }
{
    match open(w) {
        Err(why) => Err(Stopped { made: 0, why }),
        Ok(caps) => {
            let room = room_of(caps);
            edit_all(&mut w[..room], list)
        }
    }
}

// The edits of a list, and the tally updated in place.
pub fn edits(w: &mut [u32], list: &[u32], tally: &mut Tally) -> Result<usize, Stopped>
    ensures { ListEdited w.old list.now result w.new × (tally.new ≡ tally_after tally.old (edits_says result)) }
{
    let r = make_edits(w, list);
    *tally = tallied(*tally, r);
    r
}
