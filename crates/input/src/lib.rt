// The input of the frame program, in pieces as they come.
//
// What is here: `start` formats the lent mesh and begins its journal, `feed` takes bytes of a piece and writes the answer of each line that ends
// in it, `finish` answers a last line without its end; `part` cuts what is handed in and out. None has a `requires`. Between two calls the
// state is the words of the mesh (15,376), of its journal (16,016 for 1,000 edits) and of the starting map (15,376), 65 bytes of the line so far, and
// their count. What is proved: on any memory a piece is taken byte by byte, and how
// far; however the input is cut, what is written is the output of the whole (specs/Fed.antt, proofs/Runs.antt); a line of any length takes 65
// bytes of memory. What a caller should know: `feed` takes bytes while the output has room for any answer, 775 bytes; what it did not take
// is handed in again.
#![tactic(auto)]

ghost use Rattle.std.specs.Prelude.{◌≡◌, ◌+◌, ◌-◌, leb};
ghost use Rattle.words.specs.Words.{part_of};
ghost use Rattle.reply.specs.Memory.{memory};
ghost use Rattle.input.specs.Fed.{Started, KeptByte, Taken, Feeding, Finished};

use frames::write_verdict;
use map::Refusal;
use reply::{format_and_begin, reply};

const LINE_END: u8 = 0x0a;

// One more than the most digits of a frame.
const MOST: usize = 65;

// The bytes of the longest answer: 128 anchors.
const ANSWER: usize = 775;

// What `feed` did: how many bytes of the piece it took, how many of the line are kept now, how many of the output it wrote.
#[derive(Clone, Copy)]
pub struct Fed {
    pub taken: usize,
    pub length: usize,
    pub written: usize,
}

// A mesh of capacities 0 and 0 and its journal, in words with room for the largest.
pub fn start(mesh: &mut [u32], journal: &mut [u32], starting: &mut [u32]) -> Result<(), Refusal>
    ensures { Started (memory mesh.old journal.old starting.old) result (memory mesh.new journal.new starting.new) }
{
    format_and_begin(mesh, journal, starting, 0, 0)
}

// The bytes from one place up to another; none where they do not all lie in the list.
pub fn part(bytes: &[u8], from: usize, to: usize) -> &[u8]
    ensures { result.now ≡ part_of bytes.now from (to - from) }
{
    if to < from {
        return &bytes[0..0];
    }
    if bytes.len() < to {
        return &bytes[0..0];
    }
    &bytes[from..to]
}

// A byte more of the line; past its end nothing is kept.
fn keep(line: &mut [u8], n: usize, b: u8) -> usize
    ensures { KeptByte line.old n b result line.new }
{
    if MOST <= n {
        return n;
    }
    if line.len() <= n {
        return n;
    }
    line[n] = b;
    n + 1
}

// The places after a byte: in the line, and in the output.
#[derive(Clone, Copy)]
struct Places {
    line: usize,
    out: usize,
}

// One byte of the input: it ends the line, which is answered, or is kept.
fn take_byte(
    mesh: &mut [u32],
    journal: &mut [u32],
    starting: &mut [u32],
    line: &mut [u8],
    n: usize,
    b: u8,
    out: &mut [u8],
    at: usize,
) -> Places
    ensures { Taken (memory mesh.old journal.old starting.old) line.old n b out.old at result (memory mesh.new journal.new starting.new) line.new out.new }
{
    if b == LINE_END {
        let next = reply(mesh, journal, starting, part(line, 0, n), out, at);
        return Places { line: 0, out: next };
    }
    let kept = keep(line, n, b);
    Places {
        line: kept,
        out: at,
    }
}

// Whether an output has room for any answer behind a place.
fn has_room(room: usize, at: usize) -> bool
    ensures { result ≡ leb (at + 775) room }
{
    if room < ANSWER {
        return false;
    }
    at <= room - ANSWER
}

// Bytes of a piece taken, and the answer of each line that ends in them written to the first places of out.
pub fn feed(
    mesh: &mut [u32],
    journal: &mut [u32],
    starting: &mut [u32],
    line: &mut [u8],
    length: usize,
    piece: &[u8],
    out: &mut [u8],
) -> Fed
    ensures { Feeding (memory mesh.old journal.old starting.old) line.old length piece.now out.old result (memory mesh.new journal.new starting.new) line.new out.new }
{
    let room = out.len();
    let mut n = length;
    let mut at = 0;
    for (i, b) in piece.iter().enumerate() {
        if !has_room(room, at) {
            return Fed {
                taken: i,
                length: n,
                written: at,
            };
        }
        let next = take_byte(mesh, journal, starting, line, n, *b, out, at);
        n = next.line;
        at = next.out;
    }
    Fed {
        taken: piece.len(),
        length: n,
        written: at,
    }
}

// The end of the input: a last line without its end is answered.
pub fn finish(length: usize, out: &mut [u8]) -> usize
    ensures { Finished length out.old result out.new }
{
    if length == 0 {
        return 0;
    }
    write_verdict(out, 0, Err(Refusal::BadFrame))
}
