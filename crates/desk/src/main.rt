// The frame program: frames from standard input, answers to standard output.
//
// What is here: the loop of turns, each of which reads a piece of the input, or hands what is left of one to crates/input and writes what that
// answers. What is proved: the program is safe and ends; what its turns hand to `write_all` is the definition's output of what `read` left in
// the piece (specs/Turns.antt, proofs/Output.antt). What is not: that `read` and `write_all` move those bytes, docs/GAPS.md. What a user should
// know: every line that has come is answered before more input is waited for; a read or write that fails ends the program with its error. What it
// writes for `stdin` is held to `stdout`, the worked example of the outline.
#![tactic(auto)]

ghost use Rattle.std.specs.Prelude.{◌≡◌, ◌↔◌, IsTrue, length};
ghost use Rattle.std.specs.IoError.{error_kind};
ghost use Rattle.reply.specs.Memory.{memory};
ghost use Rattle.desk.specs.Turns.{Answered, EndAnswered, AfterRead, Turned, Served, Ran};

use input::{feed, finish, part, start};
use std::io;
use std::io::{ErrorKind, Read};

// How many bytes are read at once, and written at once.
const PIECE: usize = 65536;

// Where the program stands after a turn: whether it goes on, whether the input has ended, how many bytes of its line are kept, from where
// up to where its piece is not taken yet, how many bytes the turn wrote, and the error of the read or write that failed in it.
#[derive(Clone, Copy)]
struct Turn {
    on: bool,
    ended: bool,
    length: usize,
    from: usize,
    to: usize,
    wrote: usize,
    failed: Option<io::Error>,
}

// What became of a text: the error, where not all of it was written, and how many bytes it has.
#[derive(Clone, Copy)]
struct Sent {
    failed: Option<io::Error>,
    bytes: usize,
}

// A text written out.
fn write_out(rt: HostRuntime, text: &[u8]) -> Sent
    ensures { result.bytes ≡ length text.now }
{
    let failed = rt.write_all(text).err();
    Sent {
        failed,
        bytes: text.len(),
    }
}

// What is left of a piece answered, as far as the output has room.
fn answer_piece(
    rt: HostRuntime,
    mesh: &mut [u32],
    journal: &mut [u32],
    starting: &mut [u32],
    line: &mut [u8],
    at: Turn,
    piece: &[u8],
    out: &mut [u8],
) -> Turn
    ensures { Answered (memory mesh.old journal.old starting.old) line.old at piece.now out.old result (memory mesh.new journal.new starting.new) line.new out.new }
{
    let fed = feed(
        mesh,
        journal,
        starting,
        line,
        at.length,
        part(piece, at.from, at.to),
        out,
    );
    let sent = write_out(rt, part(out, 0, fed.written));
    Turn {
        on: sent.failed.is_none(),
        ended: false,
        length: fed.length,
        from: at.from + fed.taken,
        to: at.to,
        wrote: sent.bytes,
        failed: sent.failed,
    }
}

// The end of the input answered.
fn answer_end(rt: HostRuntime, length: usize, out: &mut [u8]) -> Turn
    ensures { EndAnswered length out.old result out.new }
{
    let n = finish(length, out);
    let sent = write_out(rt, part(out, 0, n));
    Turn {
        on: false,
        ended: true,
        length: 0,
        from: 0,
        to: 0,
        wrote: sent.bytes,
        failed: sent.failed,
    }
}

// Whether a read that failed was interrupted by a signal, and is tried again.
fn interrupted(error: io::Error) -> bool
    ensures { IsTrue result ↔ (error_kind error ≡ ErrorKind.Interrupted) }
{
    error.kind() == ErrorKind::Interrupted
}

// What comes of a read, by its answer.
fn after_read(
    rt: HostRuntime,
    got: io::Result<usize>,
    length: usize,
    piece: &[u8],
    out: &mut [u8],
) -> Turn
    ensures { AfterRead got length piece.now out.old result out.new }
{
    match got {
        Ok(0) => answer_end(rt, length, out),
        Ok(count) => Turn {
            on: true,
            ended: false,
            length,
            from: 0,
            to: count.min(piece.len()),
            wrote: 0,
            failed: None,
        },
        Err(error) => {
            let again = interrupted(error);
            Turn {
                on: again,
                ended: false,
                length,
                from: 0,
                to: 0,
                wrote: 0,
                failed: if again { None } else { Some(error) },
            }
        }
    }
}

// One turn: what is left of the piece is answered; where nothing is left, another is read.
fn one_turn(
    rt: HostRuntime,
    mesh: &mut [u32],
    journal: &mut [u32],
    starting: &mut [u32],
    line: &mut [u8],
    piece: &mut [u8],
    out: &mut [u8],
    at: Turn,
) -> Turn
    ensures { Turned (memory mesh.old journal.old starting.old) line.old at piece.old out.old result (memory mesh.new journal.new starting.new) line.new piece.new out.new }
{
    if at.from < at.to {
        return answer_piece(rt, mesh, journal, starting, line, at, piece, out);
    }
    let got = rt.stdin().read(piece);
    after_read(rt, got, at.length, piece, out)
}

// A proved loop has to end, and nothing says that the input does. So the turns are bounded, by a number that no run uses up.
fn serve(
    rt: HostRuntime,
    mesh: &mut [u32],
    journal: &mut [u32],
    starting: &mut [u32],
    line: &mut [u8],
) -> Turn
    ensures { Served (memory mesh.old journal.old starting.old) line.old result (memory mesh.new journal.new starting.new) line.new }
{
    let mut read = [0u8; PIECE];
    let piece: &mut [u8] = &mut read;
    let mut written = [0u8; PIECE];
    let out: &mut [u8] = &mut written;
    let mut at = Turn {
        on: true,
        ended: false,
        length: 0,
        from: 0,
        to: 0,
        wrote: 0,
        failed: None,
    };
    for _ in 0..u64::MAX {
        if !at.on {
            return at;
        }
        at = one_turn(rt, mesh, journal, starting, line, piece, out, at);
    }
    at
}

// The program, from its start to its end, with a journal of 1,000 edits.
fn run(rt: HostRuntime) -> Turn
    ensures { Ran result }
{
    let mut mesh = [0u32; 15376];
    let mut journal = [0u32; 16016];
    let mut starting = [0u32; 15376];
    let mut line = [0u8; 65];
    let _ = start(&mut mesh, &mut journal, &mut starting);
    serve(rt, &mut mesh, &mut journal, &mut starting, &mut line)
}

fn main(rt: HostRuntime) -> io::Result<()> {
    match run(rt).failed {
        Some(error) => Err(error),
        None => Ok(()),
    }
}
