// The answer to one line.
//
// What is here: `reply` reads a line as a frame, makes the call that it names on the lent mesh, its journal and the starting map, and appends
// the answer's line; `format_and_begin` formats the mesh and begins its journal, as a format does. Neither has a `requires`. What is proved: on any
// memory `reply` appends the line of an answer, 775 bytes at most, and leaves the other places of the output; a refusal changes no word of the three, and
// no frame changes one beyond its reach, beyond the room of 384 marks and 384 cells or behind the last edit that fits; on the words of a journal the
// line is that of crates/frames/specs/Frames.antt, and what is left are the words of the journal afterwards (specs/Replied.antt). What a caller
// should know: the line comes without its end; the journal has places for as many edits as fit in its words.
#![tactic(auto)]

ghost use Rattle.map.specs.Cells.{body_of};
ghost use Rattle.map.specs.History.{Insert, Remove};
ghost use Rattle.frames.specs.Frames.{frame_of, Format, Change, Star, Anchors, Sibling, Bad};
ghost use Rattle.reply.specs.Memory.{memory};
ghost use Rattle.reply.specs.Replied.{FormattedBegun, FrameAnswered, EditAnswered, QuestionAnswered, Obeyed, Replied};

use format::format;
use frames::{Frame, read, write_cells, write_half, write_halves, write_verdict};
use journal::{begin, enter_insert, enter_remove};
use journal_store::HEAD_WORDS;
use map::Refusal;
use numbers::{Cell, MOST_AROUND, Mark};
use words::part;

// "The program keeps at most 384 marks and 384 cells"
const MOST: u32 = 384;

// The room of so many.
const ROOM: usize = 15376;

// A mesh with no cells, and a journal of it; both or neither.
pub fn format_and_begin(
    mesh: &mut [u32],
    journal: &mut [u32],
    start: &mut [u32],
    marks: u32,
    cells: u32,
) -> Result<(), Refusal>
    ensures { FormattedBegun marks cells (memory mesh.old journal.old start.old) result (memory mesh.new journal.new start.new) }
{
    if MOST < marks {
        return Err(Refusal::CapacityAbove);
    }
    if MOST < cells {
        return Err(Refusal::CapacityAbove);
    }
    if mesh.len() < ROOM {
        return Err(Refusal::MemoryShort);
    }
    if journal.len() < HEAD_WORDS {
        return Err(Refusal::MemoryShort);
    }
    if start.len() < ROOM {
        return Err(Refusal::MemoryShort);
    }
    let _ = format(mesh, marks, cells);
    begin(mesh, journal, start)
}

// A format's answer; above what is kept it is refused.
fn reply_format(
    mesh: &mut [u32],
    journal: &mut [u32],
    start: &mut [u32],
    marks: u32,
    cells: u32,
    out: &mut [u8],
    at: usize,
) -> usize
    ensures { FrameAnswered (Format marks cells) (memory mesh.old journal.old start.old) out.old at result (memory mesh.new journal.new start.new) out.new }
{
    let said = format_and_begin(mesh, journal, start, marks, cells);
    write_verdict(out, at, said)
}

// An insert's answer.
fn reply_insert(
    mesh: &mut [u32],
    journal: &mut [u32],
    day: u32,
    c: Cell,
    t: u32,
    marks: &[u32],
    out: &mut [u8],
    at: usize,
) -> usize
    ensures { EditAnswered day (Insert c.0 (body_of t marks.now)) mesh.old journal.old out.old at result mesh.new journal.new out.new }
{
    let said = enter_insert(mesh, journal, day, c, t, 0, marks);
    write_verdict(out, at, said)
}

// A remove's answer.
fn reply_remove(
    mesh: &mut [u32],
    journal: &mut [u32],
    day: u32,
    c: Cell,
    out: &mut [u8],
    at: usize,
) -> usize
    ensures { EditAnswered day (Remove c.0) mesh.old journal.old out.old at result mesh.new journal.new out.new }
{
    let said = enter_remove(mesh, journal, day, c);
    write_verdict(out, at, said)
}

// A star's answer: no star has more than 128 cells.
fn reply_star(mesh: &[u32], d: u32, v: Mark, out: &mut [u8], at: usize) -> usize
    ensures { QuestionAnswered (Star d v.0) mesh.now out.old at result out.new }
{
    let mut cells = [0u32; MOST_AROUND as usize];
    match listing::star(mesh, d, v, &mut cells) {
        Err(why) => write_verdict(out, at, Err(why)),
        Ok(n) => write_cells(out, at, part(&cells, 0, n as usize)),
    }
}

// The answer to an ask for anchors: there are no more than the star has cells.
fn reply_anchors(mesh: &[u32], d: u32, v: Mark, out: &mut [u8], at: usize) -> usize
    ensures { QuestionAnswered (Anchors d v.0) mesh.now out.old at result out.new }
{
    let mut halves = [0u32; MOST_AROUND as usize];
    match listing::anchors(mesh, d, v, &mut halves) {
        Err(why) => write_verdict(out, at, Err(why)),
        Ok(n) => write_halves(out, at, part(&halves, 0, n as usize)),
    }
}

// A sibling's answer.
fn reply_sibling(mesh: &[u32], c: Cell, f: u32, out: &mut [u8], at: usize) -> usize
    ensures { QuestionAnswered (Sibling c.0 f) mesh.now out.old at result out.new }
{
    match ask::sibling(mesh, c, f) {
        Err(why) => write_verdict(out, at, Err(why)),
        Ok((h, way)) => write_half(out, at, h, way),
    }
}

// The answer to a frame, with the marks of an insert in the first places of marks.
fn obey(
    mesh: &mut [u32],
    journal: &mut [u32],
    start: &mut [u32],
    frame: Frame,
    marks: &[u32],
    out: &mut [u8],
    at: usize,
) -> usize
    ensures { Obeyed frame marks.now (memory mesh.old journal.old start.old) out.old at result (memory mesh.new journal.new start.new) out.new }
{
    match frame {
        Frame::Format(most_marks, most_cells) => reply_format(
            mesh, journal, start, most_marks, most_cells, out, at,
        ),
        Frame::Insert(day, c, t, n) => reply_insert(
            mesh,
            journal,
            day,
            c,
            t,
            part(marks, 0, n),
            out,
            at,
        ),
        Frame::Remove(day, c) => reply_remove(mesh, journal, day, c, out, at),
        Frame::Star(d, v) => reply_star(mesh, d, v, out, at),
        Frame::Anchors(d, v) => reply_anchors(mesh, d, v, out, at),
        Frame::Sibling(c, f) => reply_sibling(mesh, c, f, out, at),
        Frame::Bad => write_verdict(out, at, Err(Refusal::BadFrame)),
    }
}

// The answer to a line without its end, appended to out at a place; the place after it.
pub fn reply(
    mesh: &mut [u32],
    journal: &mut [u32],
    start: &mut [u32],
    line: &[u8],
    out: &mut [u8],
    at: usize,
) -> usize
    ensures { Replied (frame_of line.now) (memory mesh.old journal.old start.old) out.old at result (memory mesh.new journal.new start.new) out.new }
{
    let mut marks = [0u32; 13];
    let frame = read(line, &mut marks);
    if mesh.len() < ROOM {
        return obey(mesh, journal, start, frame, &marks, out, at);
    }
    obey(&mut mesh[..ROOM], journal, start, frame, &marks, out, at)
}
