// A mesh with no live cell.
//
// What is here: `format_edition` writes the head and clears the room; `format` does so under edition 1. They have no `requires`. What is
// proved: the answer of the outline; a refusal changes nothing; nothing beyond the room changes; an accepted format leaves the well-formed
// memory of the empty map (specs/Formatted.antt). What a caller should know: the cost is that of the room.
#![tactic(auto)]

ghost use Rattle.std.specs.Prelude.{◌≡◌, ◌≤◌};
ghost use Rattle.numbers.specs.Sizes.{caps_under, capacities};
ghost use Rattle.format.specs.Formatted.{Formatted};
ghost use Rattle.format.specs.Cleared.{Cleared};

use map::Refusal;
use numbers::{Caps, FIRST_EDITION, MOST_CAPACITY, is_edition};
use store::{room_of, write_head};

// The first n words set to 0.
fn clear(w: &mut [u32], n: usize)
    ensures { Cleared n w.old w.new }
{
    let end = n.min(w.len());
    w[..end].fill(0);
}

// A mesh of these capacities and this edition with no live cell.
pub fn format_edition(w: &mut [u32], marks: u32, cells: u32, edition: u32) -> Result<(), Refusal>
    ensures { Formatted w.old (caps_under edition marks cells) result w.new }
{
    if !is_edition(edition) {
        return Err(Refusal::TypeUnknown);
    }
    if MOST_CAPACITY < marks {
        return Err(Refusal::CapacityAbove);
    }
    if MOST_CAPACITY < cells {
        return Err(Refusal::CapacityAbove);
    }
    let caps = Caps {
        marks,
        cells,
        edition,
    };
    let room = room_of(caps);
    if w.len() < room {
        return Err(Refusal::MemoryShort);
    }
    clear(w, room);
    write_head(w, caps);
    Ok(())
}

// A mesh of these capacities with no live cell, under edition 1.
pub fn format(w: &mut [u32], marks: u32, cells: u32) -> Result<(), Refusal>
    ensures { Formatted w.old (capacities marks cells) result w.new }
{
    format_edition(w, marks, cells, FIRST_EDITION)
}
