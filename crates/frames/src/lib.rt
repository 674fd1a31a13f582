// The frames: one line's bytes read as a frame, and the bytes of an answer.
//
// What is here: `digit` and `read` for the line, `write_verdict`, `write_cells`, `write_halves` and `write_half` for the answers, with no
// mesh memory in them. All are total. What is proved: each frame and each byte is that of specs/Frames.antt, the outline's table; what is
// lent keeps its length and all else in it (specs/Forms.antt). What a caller should know: `read` takes the line without its end; an insert
// names 13 marks at most, which stand in the first places of the lent words; a writer answers the place after its bytes, and 775 bytes
// hold any answer (proofs/Sizes.antt).
#![tactic(auto)]

ghost use Rattle.std.specs.Prelude.{◌≡◌, [], ◌∷◌, ◌%◌, get_or};
ghost use Rattle.map.specs.Says.{given, verdict_says};
ghost use Rattle.map.specs.Ways.{way_number};
ghost use Rattle.frames.specs.Frames.{digits, digit_of, bad_line, bytes_of, number_at, two_bytes, marks_from, frame_in, frame_of, each, counted, cell_and_facet, sibling_bytes, hex, written};
ghost use Rattle.frames.specs.Forms.{carried, Reading, Marked, Appended};

use map::{Refusal, Way, number_of, way_number};
use numbers::{Cell, Half, Mark};
use words::put;

// A frame. An insert and a remove have their day first. An insert's marks stand in lent words, and their count is here.
#[derive(Clone, Copy)]
pub enum Frame {
    Format(u32, u32),
    Insert(u32, Cell, u32, usize),
    Remove(u32, Cell),
    Star(u32, Mark),
    Anchors(u32, Mark),
    Sibling(Cell, u32),
    Bad,
}

// The value of a digit; 16 for another character.
pub fn digit(b: u8) -> u32
    ensures { result ≡ digit_of b }
{
    if b < b'0' {
        return 16;
    }
    if b <= b'9' {
        return (b - b'0') as u32;
    }
    if b < b'a' {
        return 16;
    }
    if b <= b'f' {
        return 10 + (b - b'a') as u32;
    }
    16
}

// Too many digits, an odd count of them, or another character.
fn bad_line(line: &[u8]) -> bool
    ensures { result ≡ bad_line line.now }
{
    if 64 < line.len() {
        return true;
    }
    if line.len() % 2 == 1 {
        return true;
    }
    line.iter().any(|b| 16 <= digit(*b))
}

// The byte at a place of a line's bytes; 0 past the end.
fn byte_at(line: &[u8], k: usize) -> u32
    ensures { result ≡ get_or (bytes_of line.now) k 0 }
{
    if line.len() / 2 <= k {
        return 0;
    }
    let at = 2 * k;
    16 * digit(line[at]) + digit(line[at + 1])
}

// The number of two bytes.
fn number_at(line: &[u8], k: usize) -> u32
    ensures { result ≡ number_at (bytes_of line.now) k }
{
    if line.len() <= k {
        return 0;
    }
    256 * byte_at(line, k) + byte_at(line, k + 1)
}

// The marks of an insert, to the first places of the lent words; how many there are.
fn read_marks(line: &[u8], marks: &mut [u32]) -> usize
    ensures { Marked (marks_from (bytes_of line.now)) marks.old result marks.new }
{
    if line.len() / 2 < 6 {
        return 0;
    }
    let n = (line.len() / 2 - 6) / 2;
    for i in 0..n {
        put(marks, i, number_at(line, 6 + 2 * i));
    }
    n
}

// A frame of fixed size, by its code; an insert is none.
fn fixed(line: &[u8]) -> Frame
    ensures { (get_or (bytes_of line.now) 0 0 ≡ 160 → ⊥) → result ≡ carried (frame_in (bytes_of line.now)) }
{
    let n = line.len() / 2;
    let code = byte_at(line, 0);
    match code {
        0xf0 => {
            if n == 5 {
                Frame::Format(number_at(line, 1), number_at(line, 3))
            } else {
                Frame::Bad
            }
        }
        0xd0 => {
            if n == 5 {
                Frame::Remove(number_at(line, 1), Cell(number_at(line, 3)))
            } else {
                Frame::Bad
            }
        }
        0x50 => {
            if n == 4 {
                Frame::Star(byte_at(line, 1), Mark(number_at(line, 2)))
            } else {
                Frame::Bad
            }
        }
        0x51 => {
            if n == 4 {
                Frame::Anchors(byte_at(line, 1), Mark(number_at(line, 2)))
            } else {
                Frame::Bad
            }
        }
        0x5b => {
            if n == 4 {
                Frame::Sibling(Cell(number_at(line, 1)), byte_at(line, 3))
            } else {
                Frame::Bad
            }
        }
        _ => Frame::Bad,
    }
}

// The frame of a line without its end. The marks of an insert stand in the first places of the lent words.
pub fn read(line: &[u8], marks: &mut [u32]) -> Frame
    ensures { Reading (frame_of line.now) marks.old result marks.new }
{
    if bad_line(line) {
        return Frame::Bad;
    }
    if byte_at(line, 0) != 0xa0 {
        return fixed(line);
    }
    let n = line.len() / 2;
    if n < 6 {
        return Frame::Bad;
    }
    if n % 2 == 1 {
        return Frame::Bad;
    }
    let count = read_marks(line, marks);
    Frame::Insert(
        number_at(line, 1),
        Cell(number_at(line, 3)),
        byte_at(line, 5),
        count,
    )
}

// A byte of the output at a place; the place after it. Past the end nothing is written.
pub fn add(out: &mut [u8], at: usize, b: u8) -> usize
    ensures { Appended (b ∷ []) out.old at result out.new }
{
    if out.len() <= at {
        return at;
    }
    out[at] = b;
    at + 1
}

const LINE_END: u8 = 0x0a;

const DIGITS: [u8; 16] = [
    b'0', b'1', b'2', b'3', b'4', b'5', b'6', b'7', b'8', b'9', b'a', b'b', b'c', b'd', b'e', b'f',
];

// The digit of a value below 16.
fn character(n: u8) -> u8
    ensures { result ≡ get_or digits (n % 16) 0 }
{
    DIGITS[(n % 16) as usize]
}

// A byte as two digits.
fn add_byte(out: &mut [u8], at: usize, b: u8) -> usize
    ensures { Appended (hex (b ∷ [])) out.old at result out.new }
{
    let next = add(out, at, character(b / 16));
    add(out, next, character(b))
}

// A number as two bytes.
fn add_number(out: &mut [u8], at: usize, n: usize) -> usize
    ensures { Appended (hex (two_bytes n)) out.old at result out.new }
{
    let next = add_byte(out, at, (n / 256 % 256) as u8);
    add_byte(out, next, (n % 256) as u8)
}

// The cell and the facet of a half-facet.
fn add_half(out: &mut [u8], at: usize, h: u32) -> usize
    ensures { Appended (hex (cell_and_facet h)) out.old at result out.new }
{
    let next = add_number(out, at, (h / 8) as usize);
    add_byte(out, next, (h % 8) as u8)
}

// Numbers, each as two bytes.
fn add_cells(out: &mut [u8], at: usize, cells: &[u32]) -> usize
    ensures { Appended (hex (each two_bytes cells.now)) out.old at result out.new }
{
    let mut next = at;
    for cell in cells {
        next = add_number(out, next, *cell as usize);
    }
    next
}

// Half-facets, each as its cell and its facet.
fn add_halves(out: &mut [u8], at: usize, halves: &[u32]) -> usize
    ensures { Appended (hex (each cell_and_facet halves.now)) out.old at result out.new }
{
    let mut next = at;
    for half in halves {
        next = add_half(out, next, *half);
    }
    next
}

// The byte of a refusal; 0 for accepted.
fn refusal_byte(v: Result<(), Refusal>) -> u8
    ensures { result ≡ (verdict_says v).refusal }
{
    match v {
        Ok(()) => 0,
        Err(why) => (number_of(why) % 256) as u8,
    }
}

// The line of a format, an insert or a remove, and of any refusal.
pub fn write_verdict(out: &mut [u8], at: usize, v: Result<(), Refusal>) -> usize
    ensures { Appended (written (verdict_says v)) out.old at result out.new }
{
    let next = add_byte(out, at, refusal_byte(v));
    add(out, next, LINE_END)
}

// The line of an accepted star.
pub fn write_cells(out: &mut [u8], at: usize, cells: &[u32]) -> usize
    ensures { Appended (written (given (counted two_bytes cells.now))) out.old at result out.new }
{
    let first = add_byte(out, at, 0);
    let second = add_number(out, first, cells.len());
    let third = add_cells(out, second, cells);
    add(out, third, LINE_END)
}

// The line of accepted anchors.
pub fn write_halves(out: &mut [u8], at: usize, halves: &[u32]) -> usize
    ensures { Appended (written (given (counted cell_and_facet halves.now))) out.old at result out.new }
{
    let first = add_byte(out, at, 0);
    let second = add_number(out, first, halves.len());
    let third = add_halves(out, second, halves);
    add(out, third, LINE_END)
}

// The line of an accepted sibling: the half-facet, and the byte of the way that it runs.
pub fn write_half(out: &mut [u8], at: usize, h: Half, way: Way) -> usize
    ensures { Appended (written (given (sibling_bytes h.0 (way_number way)))) out.old at result out.new }
{
    let first = add_byte(out, at, 0);
    let second = add_half(out, first, h.0);
    let last = add_byte(out, second, (way_number(way) % 256) as u8);
    add(out, last, LINE_END)
}
