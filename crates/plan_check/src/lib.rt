// The check of a plan: a night's edits, tried before they are made.
//
// What is here: `plan_check` makes the edits of a plan in a copy of today's map and says whether the live cells are then those of a wanted list.
// It has no `requires`. What is proved (specs/Checked.antt): memory that is no mesh is refused with 14; a refusal changes nothing; nothing beyond
// the room of second memory changes; on well-formed memory it says yes exactly when every edit in order would be accepted and the live cells
// are then the wanted ones, each once, and else 24 with its place (proofs/Exactly.antt); yes and 24 leave the well-formed memory of the map
// after the accepted edits. What a caller should know: it costs a copy of the room, the edits, and a look at each record and each cell.
#![tactic(auto)]

ghost use Rattle.std.specs.Prelude.{◌≡◌};
ghost use Rattle.lists.specs.Lists.{every};
ghost use Rattle.plan_check.specs.Checked.{PlanChecked};
ghost use Rattle.plan_check.specs.declared.Flaw.TheVariants.{Refused};
ghost use Rattle.plan_check.specs.Steps.{Sifted, dead_or, AsWanted, Tried};

use build::record_end;
use cell_set::{has_cell, put_cell};
use edits::make_edits;
use journal_store::copy_words;
use map::Refusal;
use numbers::{Caps, Cell, PAST_CELLS};
use store::{code_of, open, room_of};
use wanted::{read_wanted, record_stands};
use words::word;

// Why a plan does not pass: the place of its first wrong edit, or why it was not tried.
#[derive(Clone, Copy)]
pub enum Flaw {
    Wrong(usize),
    Refused(Refusal),
}

impl From<Refusal> for Flaw {
    ghost from_gives = { λ why flaw. flaw ≡ Refused why };

    fn from(why: Refusal) -> Flaw {
        Flaw::Refused(why)
    }
}

// Each record's cell stands in the mesh as it is wanted, and none twice; the set is filled with them.
fn each_stands(w: &[u32], caps: Caps, records: &[u32], seen: &mut [u8]) -> bool
    ensures { Sifted w.now caps records.now seen.old result seen.new }
{
    let mut at: usize = 0;
    // a walk from record to record, not a count: each says where the next begins
    while at < records.len() {
        if !record_stands(w, caps, records, at) {
            return false;
        }
        let c = word(records, at);
        if has_cell(seen, Cell(c)) {
            return false;
        }
        put_cell(seen, Cell(c));
        at = record_end(records, at);
    }
    true
}

// No cell is live under this number, or it is in the set.
fn dead_or(w: &[u32], caps: Caps, seen: &[u8], c: u32) -> bool
    ensures { result ≡ dead_or w.now caps seen.now c }
{
    if code_of(w, caps, Cell(c)) == 0 {
        return true;
    }
    has_cell(seen, Cell(c))
}

// No cell is live but those of the set.
fn none_else(w: &[u32], caps: Caps, seen: &[u8]) -> bool
    ensures { result ≡ every caps.cells (dead_or w.now caps seen.now) }
{
    for c in 0..caps.cells {
        if !dead_or(w, caps, seen, c) {
            return false;
        }
    }
    true
}

// The live cells of the mesh are those of the records, each once.
fn as_wanted(w: &[u32], caps: Caps, records: &[u32]) -> bool
    ensures { AsWanted w.now caps records.now result }
{
    let mut seen = [0u8; PAST_CELLS as usize];
    if !each_stands(w, caps, records, &mut seen) {
        return false;
    }
    none_else(w, caps, &seen)
}

// The plan tried in memory as long as the room.
fn try_plan(
    w: &mut [u32],
    caps: Caps,
    mesh: &[u32],
    edits: &[u32],
    wanted: &[u32],
) -> Result<(), Flaw>
    ensures { Tried w.old caps mesh.now edits.now wanted.now result w.new }
{
    let room = w.len();
    copy_words(mesh, w, 0, room);
    let all = match make_edits(w, edits) {
        Err(stopped) => return Err(Flaw::Wrong(stopped.made)),
        Ok(all) => all,
    };
    if as_wanted(w, caps, wanted) {
        return Ok(());
    }
    Err(Flaw::Wrong(all))
}

// Whether a plan takes today's map to the wanted cells, tried in second memory.
pub fn plan_check(
    mesh: &[u32],
    edits: &[u32],
    wanted: &[u32],
    second: &mut [u32],
) -> Result<(), Flaw>
    ensures { PlanChecked mesh.now edits.now wanted.now second.old result second.new }
{
    let caps = open(mesh)?;
    let room = room_of(caps);
    if second.len() < room {
        return Err(Flaw::Refused(Refusal::MemoryShort));
    }
    read_wanted(wanted)?;
    try_plan(&mut second[..room], caps, mesh, edits, wanted)
}
