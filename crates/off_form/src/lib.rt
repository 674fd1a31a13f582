// The form of OFF text, word by word: what stands at a cursor, and whether a whole text is of the form.
//
// What is here: `take` reads the word at a cursor, as a number, the size of a face or a coordinate, and gives the cursor behind it; `form_of` goes once
// along a whole text. None has a `requires`. What is proved: each answer is that of `one` of crates/off/specs/Reading.antt; `form_of` gives
// the place of 17, or the counts and the cursors of the first vertex and the first face (specs/Formed.antt). What a caller should
// know: a cursor stands for the words from it on, so a text is read a second time from a cursor that `form_of` gave.
#![tactic(auto)]

ghost use Rattle.std.specs.Prelude.{◌≡◌, List, length, ℕ};
ghost use Rattle.off.specs.Numbers.{Says, number_of, size_of, coordinate_of, title_of};
ghost use Rattle.off.specs.Forms.{said};
ghost use Rattle.off.specs.Reading.{one, many, face, faces};
ghost use Rattle.off_form.specs.Took.{left, took, went, went_says};
ghost use Rattle.off_form.specs.Formed.{Headed, Formed};

use off::{Cursor, is_title, next_word, read_coordinate, read_number, read_size};

// The place of 17: that of the first word that breaks the form, or the length of a text that ends early.
#[derive(Clone, Copy)]
pub struct Broken {
    pub place: usize,
}

// A kind of word: what it is read as.
pub trait Kind {
    type Value: Copy;

    ghost says: { List ℕ → Says Self.Value };

    fn read(word: &[u8]) -> Option<Self::Value>
        ensures { result ≡ said (says word.now) };
}

// A count or a mark.
pub struct Number;

// The size of a face.
pub struct Size;

// A number of a vertex.
pub struct Coordinate;

impl Kind for Number {
    type Value = u32;

    ghost says = { number_of };

    fn read(word: &[u8]) -> Option<u32> {
        read_number(word)
    }
}

impl Kind for Size {
    type Value = u32;

    ghost says = { size_of };

    fn read(word: &[u8]) -> Option<u32> {
        read_size(word)
    }
}

impl Kind for Coordinate {
    type Value = i16;

    ghost says = { coordinate_of };

    fn read(word: &[u8]) -> Option<i16> {
        read_coordinate(word)
    }
}

// The counts of a text that is of the form, and where its vertices and its faces begin.
#[derive(Clone, Copy)]
pub struct Form {
    pub marks: u32,
    pub cells: u32,
    pub vertices: Cursor,
    pub faces: Cursor,
}

// The first two counts, and the cursor behind the third.
#[derive(Clone, Copy)]
struct Head {
    marks: u32,
    cells: u32,
    behind: Cursor,
}

// What the word at a cursor says, and the cursor behind it.
pub fn take<K: Kind>(text: &[u8], from: Cursor) -> Result<(K::Value, Cursor), Broken>
    ensures { took text.now result ≡ one K.says (length text.now) (left text.now from.at) }
{
    let Some(word) = next_word(text, from) else {
        return Err(Broken { place: text.len() });
    };
    let end = word.behind.at;
    let Some(value) = K::read(&text[word.first..end]) else {
        return Err(Broken { place: word.first });
    };
    Ok((value, word.behind))
}

// The word OFF at a cursor.
fn pass_title(text: &[u8], from: Cursor) -> Result<Cursor, Broken>
    ensures { went_says text.now result ≡ went (one title_of (length text.now) (left text.now from.at)) }
{
    let Some(word) = next_word(text, from) else {
        return Err(Broken { place: text.len() });
    };
    let end = word.behind.at;
    if !is_title(&text[word.first..end]) {
        return Err(Broken { place: word.first });
    }
    Ok(word.behind)
}

// So many words of a kind from a cursor on.
fn pass<K: Kind>(text: &[u8], from: Cursor, n: usize) -> Result<Cursor, Broken>
    ensures { went_says text.now result ≡ went (many K.says (length text.now) n (left text.now from.at)) }
{
    let mut at = from;
    for _ in 0..n {
        let (_, behind) = take::<K>(text, at)?;
        at = behind;
    }
    Ok(at)
}

// A face at a cursor, whatever its number.
fn pass_face(text: &[u8], from: Cursor) -> Result<Cursor, Broken>
    ensures { (c : ℕ) → went_says text.now result ≡ went (face (length text.now) c (left text.now from.at)) }
{
    let (size, behind) = take::<Size>(text, from)?;
    pass::<Number>(text, behind, size as usize)
}

// So many faces from a cursor on.
fn pass_faces(text: &[u8], from: Cursor, n: u32) -> Result<Cursor, Broken>
    ensures { went_says text.now result ≡ went (faces (length text.now) n 0 (left text.now from.at)) }
{
    let mut at = from;
    for _ in 0..n {
        at = pass_face(text, at)?;
    }
    Ok(at)
}

// The word OFF and the three counts at the beginning of a text.
fn take_head(text: &[u8]) -> Result<Head, Broken>
    ensures { Headed text.now result }
{
    let behind_title = pass_title(text, Cursor { at: 0 })?;
    let (marks, behind_marks) = take::<Number>(text, behind_title)?;
    let (cells, behind_cells) = take::<Number>(text, behind_marks)?;
    let (_, behind) = take::<Number>(text, behind_cells)?;
    Ok(Head {
        marks,
        cells,
        behind,
    })
}

// Whether a whole text is of the form, and where its parts begin.
pub fn form_of(text: &[u8]) -> Result<Form, Broken>
    ensures { Formed text.now result }
{
    let head = take_head(text)?;
    let vertices = head.behind;
    let faces = pass::<Coordinate>(text, vertices, 3 * head.marks as usize)?;
    let last = pass_faces(text, faces, head.cells)?;
    match next_word(text, last) {
        Some(more) => Err(Broken { place: more.first }),
        None => Ok(Form {
            marks: head.marks,
            cells: head.cells,
            vertices,
            faces,
        }),
    }
}
