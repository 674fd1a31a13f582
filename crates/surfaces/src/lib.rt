// A surface read from OFF text into mesh memory and positions.
//
// What is here: `read_off`, which has no `requires`. It goes along the text once to see its form, once more along the faces to insert them, and once
// more along the vertices to write their positions. What is proved: the answer, with 17 before the build's own refusals and 16 after 2; 17, 1, 2 and 16
// change nothing; a refused face leaves a mesh with no live cell and the positions as they were; a surface that is read leaves the well-formed memory of
// exactly its faces, numbered in the order of the text, and its positions in the first places (specs/ReadsOff.antt). What a caller should
// know: the mesh is of edition 1; nothing of the text is kept in memory.
#![tactic(auto)]

ghost use Rattle.std.specs.Prelude.{◌≡◌, List, [], ℕ, length, set};
ghost use Rattle.numbers.specs.Sizes.{capacities};
ghost use Rattle.build.specs.Builds.{Builds};
ghost use Rattle.off.specs.Reading.{Got, faces};
ghost use Rattle.off_form.specs.Took.{left};
ghost use Rattle.map.specs.Answers.{answer};
ghost use Rattle.map.specs.Says.{verdict_says};
ghost use Rattle.surfaces.specs.ReadsOff.{room_checks, ReadsOff};
ghost use Rattle.surfaces.specs.declared.NotRead.TheVariants.{Broken};
ghost use Rattle.surfaces.specs.Passes.{WordsRead, FaceInserted};

use format::format;
use map::{Refusal, Unbuilt};
use mesh::insert;
use numbers::{Caps, Cell, FIRST_EDITION, MOST_CAPACITY};
use off::Cursor;
use off_form::{Broken, Coordinate, Kind, Number, Size, form_of, take};
use store::room_of;
use words::part;

// Why no surface is read: 17 with the place of the text, or the build's own with the face's place, from 0.
#[derive(Clone, Copy)]
pub enum NotRead {
    Broken(usize),
    Refused(Refusal, u32),
}

impl From<Broken> for NotRead {
    ghost from_gives = { λ broken why. why ≡ Broken broken.place };

    fn from(broken: Broken) -> NotRead {
        NotRead::Broken(broken.place)
    }
}

// A face has three or four marks.
const MOST_FACE: usize = 4;

// A value of a list; beyond the end nothing is written.
fn put_value<T: Copy>(out: &mut [T], at: usize, value: T)
    ensures { out.new ≡ set out.old at value }
{
    if at < out.len() {
        out[at] = value;
    }
}

// So many words of a kind from a cursor on, in the first places of out; the cursor behind them.
fn read_words<K: Kind>(text: &[u8], from: Cursor, n: usize, out: &mut [K::Value]) -> Cursor
    ensures { WordsRead K.says text.now from.at n out.old result.at out.new }
{
    let mut at = from;
    for i in 0..n {
        let Ok(word) = take::<K>(text, at) else {
            return at;
        };
        put_value(out, i, word.0);
        at = word.1;
    }
    at
}

// The face at a cursor, inserted under a number; the cursor behind it.
fn insert_face(w: &mut [u32], text: &[u8], from: Cursor, c: Cell) -> Result<Cursor, Refusal>
    ensures { FaceInserted w.old text.now from.at c.0 result w.new }
{
    let Ok((size, behind)) = take::<Size>(text, from) else {
        return Err(Refusal::CountWrong);
    };
    let mut marks = [0u32; MOST_FACE];
    let next = read_words::<Number>(text, behind, size as usize, &mut marks);
    insert(w, c, size - 1, part(&marks, 0, size as usize))?;
    Ok(next)
}

// A mesh of these capacities with the faces from a cursor on, as if built from their records.
fn build_faces(
    w: &mut [u32],
    text: &[u8],
    from: Cursor,
    marks: u32,
    cells: u32,
) -> Result<(), Unbuilt>
    ensures { (records : List ℕ) → faces (length text.now) cells 0 (left text.now from.at) ≡ Got records []
        → Builds w.old (capacities marks cells) records result w.new }
{
    if let Err(why) = format(w, marks, cells) {
        return Err(Unbuilt { why, place: 0 });
    }
    let mut at = from;
    for c in 0..cells {
        match insert_face(w, text, at, Cell(c)) {
            Err(why) => {
                let _ = format(w, marks, cells);
                return Err(Unbuilt { why, place: c });
            }
            Ok(behind) => at = behind,
        }
    }
    Ok(())
}

// Whether memory of so many words and positions of so many numbers have room for these capacities: 1, 2, then 16.
fn check_room(words: usize, numbers: usize, marks: u32, cells: u32) -> Result<(), Refusal>
    ensures { verdict_says result ≡ answer (room_checks words numbers (capacities marks cells)) [] }
{
    if MOST_CAPACITY < marks {
        return Err(Refusal::CapacityAbove);
    }
    if MOST_CAPACITY < cells {
        return Err(Refusal::CapacityAbove);
    }
    let caps = Caps {
        marks,
        cells,
        edition: FIRST_EDITION,
    };
    if words < room_of(caps) {
        return Err(Refusal::MemoryShort);
    }
    if numbers < 3 * marks as usize {
        return Err(Refusal::PositionsShort);
    }
    Ok(())
}

// The surface of a text, read into mesh memory and positions.
pub fn read_off(w: &mut [u32], positions: &mut [i16], text: &[u8]) -> Result<(), NotRead>
    ensures { ReadsOff w.old positions.old text.now result w.new positions.new }
{
    let form = form_of(text)?;
    if let Err(why) = check_room(w.len(), positions.len(), form.marks, form.cells) {
        return Err(NotRead::Refused(why, 0));
    }
    if let Err(Unbuilt { why, place }) = build_faces(w, text, form.faces, form.marks, form.cells) {
        return Err(NotRead::Refused(why, place));
    }
    read_words::<Coordinate>(text, form.vertices, 3 * form.marks as usize, positions);
    Ok(())
}
