// A surface written as OFF text.
//
// What is here: `write_off`, which has no `requires`. It looks at every cell once to see that it is a triangle or a quad and how long the text is, and once
// more to write. What is proved: memory that is no mesh is refused with 14, then 16, 18 and 12; a refusal leaves the output as it was, and a
// text that fits changes only its first places; on well-formed memory the text is that of the live faces, ascending
// (specs/WritesOff.antt). What a caller should know: the first count is the capacity of marks, so every mark has its line.
#![tactic(auto)]

ghost use Rattle.std.specs.Prelude.{◌≡◌, cond, [], ◌++◌, map, eqb, length};
ghost use Rattle.lists.specs.Lists.{list_of};
ghost use Rattle.store.specs.Slots.{corner_in};
ghost use Rattle.frames.specs.Forms.{Appended};
ghost use Rattle.off.specs.Numbers.{title};
ghost use Rattle.off.specs.Writing.{digits_of, line, counts_line, vertex_lines, face_lines};
ghost use Rattle.surfaces_out.specs.declared.NotWritten.TheVariants.{Refused};
ghost use Rattle.surfaces_out.specs.WritesOff.{WritesOff};
ghost use Rattle.surfaces_out.specs.InMemory.{other_type, line_in, faces_in, Surveyed};

use frames::add;
use map::Refusal;
use numbers::{Caps, Cell};
use off::write_number;
use off_lines::{head_length, number_length, vertices_length, write_head, write_vertices};
use shapes::mark_count;
use store::{code_of, corner_of, open};

// Why no text is written: 18 for a live cell that is no face, or another refusal.
#[derive(Clone, Copy)]
pub enum NotWritten {
    NotSurface,
    Refused(Refusal),
}

impl From<Refusal> for NotWritten {
    ghost from_gives = { λ why unwritten. unwritten ≡ Refused why };

    fn from(why: Refusal) -> NotWritten {
        NotWritten::Refused(why)
    }
}

// The live faces counted, and the bytes of their lines.
#[derive(Clone, Copy)]
struct Survey {
    faces: u32,
    bytes: usize,
}

// The line of a cell of so many marks; the place after it.
fn write_face(out: &mut [u8], at: usize, w: &[u32], caps: Caps, c: Cell, size: u32) -> usize
    ensures { Appended (line (digits_of size) (map digits_of (list_of size (corner_in w.now caps c.0)))) out.old at result out.new }
{
    let mut next = write_number(out, at, size);
    for k in 0..size {
        let behind = add(out, next, b' ');
        let v = corner_of(w, caps, c, k);
        next = write_number(out, behind, v.0);
    }
    add(out, next, b'\n')
}

// The bytes of the line of a cell of so many marks.
fn face_length(w: &[u32], caps: Caps, c: Cell, size: u32) -> usize
    ensures { result ≡ length (line (digits_of size) (map digits_of (list_of size (corner_in w.now caps c.0)))) }
{
    let mut bytes = number_length(size);
    for k in 0..size {
        let v = corner_of(w, caps, c, k);
        bytes += 1 + number_length(v.0);
    }
    bytes + 1
}

// Whether a live cell of this type is no face.
#[tactic(auto, unfolding(crate::specs::InMemory::other_type, crate::specs::WritesOff::is_face))]
fn is_other(t: u32) -> bool
    ensures { result ≡ other_type t }
{
    !matches!(t, 0 | 2 | 3)
}

// One for a live cell.
fn live_one(t: u32) -> u32
    ensures { result ≡ cond (eqb t 0) 0 1 }
{
    (t != 0) as u32
}

// The line of a cell, if it is live; the place after it.
fn write_cell(out: &mut [u8], at: usize, w: &[u32], caps: Caps, c: Cell) -> usize
    ensures { Appended (line_in w.now caps c.0) out.old at result out.new }
{
    let t = code_of(w, caps, c);
    if t == 0 {
        return at;
    }
    write_face(out, at, w, caps, c, mark_count(t))
}

// The bytes of that line.
fn cell_length(w: &[u32], caps: Caps, c: Cell) -> usize
    ensures { result ≡ length (line_in w.now caps c.0) }
{
    let t = code_of(w, caps, c);
    if t == 0 {
        return 0;
    }
    face_length(w, caps, c, mark_count(t))
}

// Every cell looked at: the live faces counted, and the bytes of their lines; none where a cell is no face.
fn survey_cells(w: &[u32], caps: Caps) -> Option<Survey>
    ensures { Surveyed w.now caps result }
{
    let mut faces: u32 = 0;
    let mut bytes: usize = 0;
    for c in 0..caps.cells {
        let t = code_of(w, caps, Cell(c));
        if is_other(t) {
            return None;
        }
        faces += live_one(t);
        bytes += cell_length(w, caps, Cell(c));
    }
    Some(Survey { faces, bytes })
}

// The lines of the live cells, ascending; the place after them.
fn write_faces(out: &mut [u8], at: usize, w: &[u32], caps: Caps) -> usize
    ensures { Appended (face_lines (faces_in w.now caps caps.cells)) out.old at result out.new }
{
    let mut next = at;
    for c in 0..caps.cells {
        next = write_cell(out, next, w, caps, Cell(c));
    }
    next
}

// The whole text of so many faces, from the first place on; the place after it.
fn write_text(out: &mut [u8], w: &[u32], caps: Caps, positions: &[i16], faces: u32) -> usize
    ensures { Appended ((line title [] ++ counts_line caps.marks faces) ++ (vertex_lines caps.marks positions.now ++ face_lines (faces_in w.now caps caps.cells))) out.old 0 result out.new }
{
    let first = write_head(out, caps.marks, faces);
    let second = write_vertices(out, first, positions, caps.marks);
    write_faces(out, second, w, caps)
}

// The surface of mesh memory and positions, written as OFF text.
pub fn write_off(w: &[u32], positions: &[i16], out: &mut [u8]) -> Result<usize, NotWritten>
    ensures { WritesOff w.now positions.now out.old result out.new }
{
    let caps = open(w)?;
    if positions.len() < 3 * caps.marks as usize {
        return Err(NotWritten::Refused(Refusal::PositionsShort));
    }
    let Some(found) = survey_cells(w, caps) else {
        return Err(NotWritten::NotSurface);
    };
    let head = head_length(caps.marks, found.faces);
    let total = head + vertices_length(positions, caps.marks) + found.bytes;
    if out.len() < total {
        return Err(NotWritten::Refused(Refusal::OutputShort));
    }
    write_text(out, w, caps, positions, found.faces);
    Ok(total)
}
