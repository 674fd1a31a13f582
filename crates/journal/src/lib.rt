// A journal above the mesh: each accepted edit with its day.
//
// What is here: `begin` begins a journal of a mesh and copies the mesh into the starting map; `enter_insert` and `enter_remove` make an edit
// and enter it with its day. None has a `requires`. What is proved (specs/Calls.antt): memory that is none is refused with 14; a refusal changes
// nothing; nothing is written behind a mesh's room or behind the last edit that fits; journal, starting map and mesh that the calls kept since a
// journal began stay in one relation with the history (specs/Kept.antt). What a caller should know: from `begin` on the mesh is edited
// through the journal alone; the map on a day, and what makes room again, is crate `year`.
#![tactic(auto)]

ghost use Rattle.std.specs.Prelude.{◌≡◌, ◌<◌, length};
ghost use Rattle.map.specs.Cells.{licensed_body};
ghost use Rattle.map.specs.History.{Insert, Remove};
ghost use Rattle.journal_store.specs.Days.{dated};
ghost use Rattle.journal_store.specs.Entries.{places_of};
ghost use Rattle.journal_store.specs.Journals.{entries_in};
ghost use Rattle.journal_store.specs.Told.{entry_told};
ghost use Rattle.journal.specs.Calls.{Begun, entry_opened, full_in, full_verdict, Appended, Entered};

use checks::about_cell;
use insert_checks::about_insert;
use journal_store::{
    Entry, HEAD_WORDS, Head, Kind, copy_words, entries_of, fold_of, is_journal, last_of, places_of,
    put_entry, put_head, used_of,
};
use map::Refusal;
use mesh::{insert_licensed, remove};
use numbers::{Caps, Cell};
use store::{open, room_of};
use words::part;

// The largest day number.
const MOST_DAY: u32 = 65535;

// A journal with no entry, of this mesh, and the mesh copied into the starting map.
pub fn begin(mesh: &[u32], j: &mut [u32], start: &mut [u32]) -> Result<(), Refusal>
    ensures { Begun mesh.now j.old start.old result j.new start.new }
{
    let caps = open(mesh)?;
    if j.len() < HEAD_WORDS {
        return Err(Refusal::MemoryShort);
    }
    let room = room_of(caps);
    if start.len() < room {
        return Err(Refusal::MemoryShort);
    }
    copy_words(mesh, start, 0, room);
    let used = used_of(j.len());
    copy_words(part(mesh, 0, 0), j, 0, used);
    let head = Head {
        entries: 0,
        last: 0,
        ever: false,
        fold: None,
    };
    put_head(j, caps, head);
    Ok(())
}

// What opens an entry of a day.
fn about_entry(mesh: &[u32], j: &[u32], day: u32) -> Result<Caps, Refusal>
    ensures { result ≡ entry_opened mesh.now j.now day }
{
    let caps = open(mesh)?;
    if !is_journal(j, caps) {
        return Err(Refusal::NotMesh);
    }
    if MOST_DAY < day {
        return Err(Refusal::CapacityAbove);
    }
    if day < last_of(j) {
        return Err(Refusal::DayBefore);
    }
    Ok(caps)
}

// Whether no place is left.
fn is_full(j: &[u32]) -> bool
    ensures { result ≡ full_in j.now }
{
    places_of(j.len()) <= entries_of(j)
}

// The answer in a full journal: the mesh's own refusal before 23.
fn when_full(own: Result<Caps, Refusal>) -> Result<(), Refusal>
    ensures { result ≡ full_verdict own }
{
    own?;
    Err(Refusal::JournalFull)
}

// An entry behind the others.
fn append(j: &mut [u32], caps: Caps, dated: Entry<'_>)
    requires { entries_in j.old < places_of (length j.old) }
    ensures { Appended j.old caps dated.entry.day (entry_told dated.entry) j.new }
{
    let n = entries_of(j);
    let fold = fold_of(j);
    let head = Head {
        entries: n + 1,
        last: dated.day,
        ever: true,
        fold,
    };
    put_entry(j, n, dated);
    put_head(j, caps, head);
}

// A cell with a licence inserted on a day, and entered.
pub fn enter_insert(
    mesh: &mut [u32],
    j: &mut [u32],
    day: u32,
    c: Cell,
    t: u32,
    licence: u32,
    marks: &[u32],
) -> Result<(), Refusal>
    ensures { Entered mesh.old j.old (dated day (Insert c.0 (licensed_body t licence marks.now))) result mesh.new j.new }
{
    let caps = about_entry(mesh, j, day)?;
    if is_full(j) {
        return when_full(about_insert(mesh, c, t, marks));
    }
    insert_licensed(mesh, c, t, licence, marks)?;
    let inserted = Entry {
        day,
        kind: Kind::Insert,
        cell: c,
        code: t,
        licence,
        marks,
    };
    append(j, caps, inserted);
    Ok(())
}

// A cell removed on a day, and entered.
pub fn enter_remove(mesh: &mut [u32], j: &mut [u32], day: u32, c: Cell) -> Result<(), Refusal>
    ensures { Entered mesh.old j.old (dated day (Remove c.0)) result mesh.new j.new }
{
    let none = [0u32; 1];
    let caps = about_entry(mesh, j, day)?;
    if is_full(j) {
        return when_full(about_cell(mesh, c));
    }
    remove(mesh, c)?;
    let removed = Entry {
        day,
        kind: Kind::Remove,
        cell: c,
        code: 0,
        licence: 0,
        marks: part(&none, 0, 0),
    };
    append(j, caps, removed);
    Ok(())
}
