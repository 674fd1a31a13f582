// The map on any day of the year, and folding.
//
// What is here: `about_day` opens a query for a day; `map_on` writes the map of a day into second mesh memory; `fold` moves the edits up to a day
// into the starting map. They have no `requires`. What is proved (specs/Calls.antt): memory that is none is refused with 14; a refusal changes
// nothing; nothing is written behind a mesh's room or behind the last edit that fits; the map on a day is the well-formed one of the edits up
// to it, for every day from the last fold on, whatever was folded; a fold keeps the relation of crate `journal` (proofs/Days.antt). What a
// caller should know: a query costs a copy of the room and the edits since the last fold up to the day; what opens it costs a few words read.
#![tactic(auto)]

ghost use Rattle.std.specs.Prelude.{◌≡◌};
ghost use Rattle.journal_store.specs.Days.{before_fold, not_allowed};
ghost use Rattle.journal_store.specs.Journals.{last_in, ever_in, fold_in};
ghost use Rattle.year.specs.Calls.{day_opened, OnDay, Folded};

use journal_store::{
    Head, count_up_to, entries_of, fold_of, is_journal, last_of, move_entries, put_head,
    was_entered,
};
use map::Refusal;
use numbers::Caps;
use replay::{replay, replay_from};
use store::{open, room_of};

// So many days at least stay behind the last fold.
const KEPT_DAYS: usize = 366;

// Whether a day is before that of the last fold.
fn is_folded(j: &[u32], day: u32) -> bool
    ensures { result ≡ before_fold (fold_in j.now) day }
{
    match fold_of(j) {
        Some(fold) => day < fold,
        None => false,
    }
}

// What opens a query for a day, with so many words of second memory: the capacities, or why it is refused.
pub fn about_day(j: &[u32], start: &[u32], day: u32, words: usize) -> Result<Caps, Refusal>
    ensures { result ≡ day_opened j.now start.now day words }
{
    let caps = open(start)?;
    if !is_journal(j, caps) {
        return Err(Refusal::NotMesh);
    }
    if is_folded(j, day) {
        return Err(Refusal::DayFolded);
    }
    let room = room_of(caps);
    if words < room {
        return Err(Refusal::MemoryShort);
    }
    Ok(caps)
}

// The map of a day, written into second mesh memory.
pub fn map_on(j: &[u32], start: &[u32], day: u32, second: &mut [u32]) -> Result<(), Refusal>
    ensures { OnDay j.now start.now day second.old result second.new }
{
    let caps = about_day(j, start, day, second.len())?;
    let room = room_of(caps);
    let n = count_up_to(j, entries_of(j), day);
    replay_from(&mut second[..room], start, j, n);
    Ok(())
}

// Whether the edits up to a day may not be folded.
fn not_allowed(j: &[u32], day: u32) -> bool
    ensures { result ≡ not_allowed (ever_in j.now) (fold_in j.now) (last_in j.now) day }
{
    if !was_entered(j) {
        return true;
    }
    let folded = is_folded(j, day);
    if folded {
        return true;
    }
    (last_of(j) as usize) < (day as usize) + KEPT_DAYS
}

// The edits up to a day, moved into the starting map.
pub fn fold(j: &mut [u32], start: &mut [u32], day: u32) -> Result<(), Refusal>
    ensures { Folded j.old start.old day result j.new start.new }
{
    let caps = open(start)?;
    if !is_journal(j, caps) {
        return Err(Refusal::NotMesh);
    }
    if not_allowed(j, day) {
        return Err(Refusal::FoldNotAllowed);
    }
    let room = room_of(caps);
    let n = entries_of(j);
    let last = last_of(j);
    let k = count_up_to(j, n, day);
    replay(&mut start[..room], j, k);
    move_entries(j, n, k);
    let head = Head {
        entries: n - k,
        last,
        ever: true,
        fold: Some(day),
    };
    put_head(j, caps, head);
    Ok(())
}
