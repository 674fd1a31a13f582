// The edits of a mesh: insert and remove.
//
// What is here: the public calls, none with a `requires`. What is proved: memory that is no mesh is refused with 14; a refusal changes
// nothing; nothing beyond the room changes; on well-formed memory the answer is the outline's, and an accepted edit leaves the well-formed
// memory of exactly the edited map (specs/Edited.antt). What a caller should know: the cost follows the stars of the cell's marks.
#![tactic(auto)]

ghost use Rattle.std.specs.Prelude.{◌≡◌, ltb, length};
ghost use Rattle.edit.specs.Edit.{Made};
ghost use Rattle.map.specs.Cells.{body_of, licensed_body};
ghost use Rattle.map.specs.History.{Insert, Remove};
ghost use Rattle.lists.specs.Filled.{Filled};
ghost use Rattle.facet.specs.Facet.{marks_in};
ghost use Rattle.mesh.specs.Edited.{Edited, TakenOut};
ghost use Rattle.store.specs.Layout.{near_marks};

use chain::leads_out;
use checks::about_cell;
use edit::{clear_siblings, relink_all};
use facet::marks_at;
use insert_checks::about_insert;
use map::Refusal;
use mend::settle;
use numbers::{Caps, Cell, MOST_CAPACITY};
use picture::{put_body, put_count};
use shapes::{MOST_MARKS, facet_table, mark_count};
use store::{NEAR_MARKS, code_of, count_of};
use words::{part, put};

// A cell that was admitted, put into the mesh: its record, its chains, what is around it, the count.
fn make_insert(w: &mut [u32], caps: Caps, c: Cell, t: u32, licence: u32, marks: &[u32])
    ensures { Made caps w.old w.new (Insert c.0 (licensed_body t licence marks.now)) }
{
    let rows = facet_table();
    let count = count_of(w, caps, t);
    if MOST_CAPACITY < count {
        return;
    }
    put_body(w, caps, c, t, licence, marks, in_far(marks));
    relink_all(w, caps, c, marks, true);
    settle(w, caps, &rows, t, marks);
    put_count(w, caps, t, count + 1);
}

// Whether a cell on these marks has them in its second part.
fn in_far(marks: &[u32]) -> bool
    ensures { result ≡ ltb near_marks (length marks.now) }
{
    (NEAR_MARKS as usize) < marks.len()
}

// A cell of the caller's number, of a type, with a licence, on marks.
pub fn insert_licensed(
    w: &mut [u32],
    c: Cell,
    t: u32,
    licence: u32,
    marks: &[u32],
) -> Result<(), Refusal>
    ensures { Edited w.old (Insert c.0 (licensed_body t licence marks.now)) result w.new }
{
    let caps = about_insert(w, c, t, marks)?;
    make_insert(w, caps, c, t, licence, marks);
    Ok(())
}

// A cell of the caller's number, of a type, on marks, without a licence.
pub fn insert(w: &mut [u32], c: Cell, t: u32, marks: &[u32]) -> Result<(), Refusal>
    ensures { Edited w.old (Insert c.0 (body_of t marks.now)) result w.new }
{
    insert_licensed(w, c, t, 0, marks)
}

// A cell of this type on these marks, taken out of the mesh: its chains, its record, what is around it, the count.
fn take_out(w: &mut [u32], caps: Caps, c: Cell, t: u32, marks: &[u32])
    ensures { TakenOut caps w.old w.new c.0 t marks.now }
{
    let rows = facet_table();
    let count = count_of(w, caps, t);
    if count == 0 {
        return;
    }
    relink_all(w, caps, c, marks, false);
    put_body(w, caps, c, 0, 0, part(marks, 0, 0), in_far(marks));
    clear_siblings(w, caps, c);
    settle(w, caps, &rows, t, marks);
    put_count(w, caps, t, count - 1);
}

// The marks of a cell, copied to the first places of out.
fn copy_marks(w: &[u32], caps: Caps, c: Cell, out: &mut [u32])
    ensures { Filled (marks_in w.now caps c.0) out.old out.new }
{
    let marks = marks_at(w, caps, c);
    for (k, v) in marks.iter().enumerate() {
        put(out, k, *v);
    }
}

// A live cell taken out of the mesh, by its record.
fn make_remove(w: &mut [u32], caps: Caps, c: Cell)
    ensures { Made caps w.old w.new (Remove c.0) }
{
    let t = code_of(w, caps, c);
    let mut held = [0u32; MOST_MARKS as usize];
    copy_marks(w, caps, c, &mut held);
    // not on a mesh; there it brings the cells of all three chains to hand
    if leads_out(w, caps, &held) {
        return;
    }
    take_out(w, caps, c, t, part(&held, 0, mark_count(t) as usize));
}

// A live cell, removed.
pub fn remove(w: &mut [u32], c: Cell) -> Result<(), Refusal>
    ensures { Edited w.old (Remove c.0) result w.new }
{
    let caps = about_cell(w, c)?;
    make_remove(w, caps, c);
    Ok(())
}
