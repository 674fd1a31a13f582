// The lines of OFF text: those of the word and the counts, and a line for each vertex; how many bytes they take.
//
// What is here: `write_head` and `write_vertices` write lines at a place of a lent output, `head_length` and `vertices_length` say how long they are,
// `number_length` how long a number is. None has a `requires`. What is proved: the bytes written are those of crates/off/specs/Writing.antt, and
// each length is the length of those bytes. What a caller should know: what is written past the end of the output is left out, so that a
// caller asks for the lengths first; beyond the end of the positions a coordinate is 0.
#![tactic(auto)]

ghost use Rattle.std.specs.Prelude.{◌≡◌, [], ◌++◌, length};
ghost use Rattle.frames.specs.Forms.{Appended};
ghost use Rattle.off.specs.Numbers.{title};
ghost use Rattle.off.specs.Writing.{digits_of, coordinate_text, line, counts_line, vertex_line, vertex_lines};

use frames::add;
use metres::metre;
use off::{write_coordinate, write_number};

// The bytes of a number's text.
pub fn number_length(n: u32) -> usize
    ensures { result ≡ length (digits_of n) }
{
    let mut rest = n;
    for bytes in 1..6 {
        if rest < 10 {
            return bytes;
        }
        rest /= 10;
    }
    6
}

// The bytes of a coordinate's text.
fn coordinate_length(z: i16) -> usize
    ensures { result ≡ length (coordinate_text z) }
{
    if z < 0 {
        return 1 + number_length((0 - z as i32) as u32);
    }
    number_length(z as u32)
}

// The line of the word OFF, at the first place; the place after it.
fn write_title(out: &mut [u8]) -> usize
    ensures { Appended (line title []) out.old 0 result out.new }
{
    let first = add(out, 0, b'O');
    let second = add(out, first, b'F');
    let third = add(out, second, b'F');
    add(out, third, b'\n')
}

// The line of the counts, edges 0; the place after it.
fn write_counts(out: &mut [u8], at: usize, marks: u32, cells: u32) -> usize
    ensures { Appended (counts_line marks cells) out.old at result out.new }
{
    let first = write_number(out, at, marks);
    let second = add(out, first, b' ');
    let third = write_number(out, second, cells);
    let fourth = add(out, third, b' ');
    let fifth = write_number(out, fourth, 0);
    add(out, fifth, b'\n')
}

// The lines of the word OFF and the counts, at the first place; the place after them.
pub fn write_head(out: &mut [u8], marks: u32, cells: u32) -> usize
    ensures { Appended (line title [] ++ counts_line marks cells) out.old 0 result out.new }
{
    let next = write_title(out);
    write_counts(out, next, marks, cells)
}

// The bytes of those two lines.
pub fn head_length(marks: u32, cells: u32) -> usize
    ensures { result ≡ length (line title [] ++ counts_line marks cells) }
{
    8 + number_length(marks) + number_length(cells)
}

// The line of a vertex; the place after it.
fn write_vertex(out: &mut [u8], at: usize, positions: &[i16], v: u32) -> usize
    ensures { Appended (vertex_line positions.now v) out.old at result out.new }
{
    let i = 3 * v as usize;
    let first = write_coordinate(out, at, metre(positions, i));
    let second = add(out, first, b' ');
    let third = write_coordinate(out, second, metre(positions, i + 1));
    let fourth = add(out, third, b' ');
    let fifth = write_coordinate(out, fourth, metre(positions, i + 2));
    add(out, fifth, b'\n')
}

// The lines of the first n vertices; the place after them.
pub fn write_vertices(out: &mut [u8], at: usize, positions: &[i16], n: u32) -> usize
    ensures { Appended (vertex_lines n positions.now) out.old at result out.new }
{
    let mut next = at;
    for v in 0..n {
        next = write_vertex(out, next, positions, v);
    }
    next
}

// The bytes of the line of a vertex.
fn vertex_length(positions: &[i16], v: u32) -> usize
    ensures { result ≡ length (vertex_line positions.now v) }
{
    let i = 3 * v as usize;
    let x = coordinate_length(metre(positions, i));
    let y = coordinate_length(metre(positions, i + 1));
    let z = coordinate_length(metre(positions, i + 2));
    x + y + z + 3
}

// The bytes of the lines of the first n vertices.
pub fn vertices_length(positions: &[i16], n: u32) -> usize
    ensures { result ≡ length (vertex_lines n positions.now) }
{
    let mut bytes: usize = 0;
    for v in 0..n {
        bytes += vertex_length(positions, v);
    }
    bytes
}
