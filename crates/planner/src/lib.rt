// The planner: the edits that take today's map to a wanted list of cells.
//
// What is here: `plan` writes them as the words of a list of edits: it removes every cell that is not wanted as it stands, ascending, then inserts
// the missing in the wanted list's order. It has no `requires` and writes no word of the mesh. What is proved (specs/Proposed.antt): memory that is
// no mesh is refused with 14; a refusal leaves the output as it was, and a plan that fits changes only its first places; on well-formed memory
// the answer and the words are those of specs/Plan.antt. That the plan passes the check is proved in crates/plan_stories. What a caller should
// know: it goes through the wanted list twice and through the cells twice, with 65,536 bytes of its own for the cells that stand as wanted.
#![tactic(auto)]

ghost use Rattle.std.specs.Prelude.{◌≡◌, cond, [], ◌∷◌, length};
ghost use Rattle.lists.specs.Lists.{select};
ghost use Rattle.words.specs.Words.{part_of};
ghost use Rattle.frames.specs.Forms.{Appended};
ghost use Rattle.wanted.specs.Records.{cell_at, stands_in};
ghost use Rattle.planner.specs.InMemory.{MarkedRecord, Marked, goes_in, removal_in, removal_words, Inserted, Wrote};
ghost use Rattle.planner.specs.Proposed.{Proposed};

use build::record_end;
use cell_set::{has_cell, put_cell};
use map::Refusal;
use numbers::{Caps, Cell, PAST_CELLS};
use store::{code_of, open};
use wanted::{read_wanted, record_stands};
use words::{part, word};

// One record: its cell is put into the set where it stands in the mesh; otherwise its insertion takes n words.
fn mark_record(
    w: &[u32],
    caps: Caps,
    wanted: &[u32],
    at: usize,
    n: usize,
    standing: &mut [u8],
) -> usize
    ensures { MarkedRecord (stands_in w.now caps (cell_at wanted.now at)) (cell_at wanted.now at).number n standing.old result standing.new }
{
    if record_stands(w, caps, wanted, at) {
        put_cell(standing, Cell(word(wanted, at)));
        return 0;
    }
    n
}

// The wanted cells that stand in the mesh, put into the set; the words of the other insertions.
fn mark_standing(w: &[u32], caps: Caps, wanted: &[u32], standing: &mut [u8]) -> usize
    ensures { Marked w.now caps wanted.now standing.old result standing.new }
{
    let mut at: usize = 0;
    let mut total: usize = 0;
    // a walk from record to record, not a count: each says where the next begins
    while at < wanted.len() {
        let end = record_end(wanted, at);
        total += mark_record(w, caps, wanted, at, 1 + (end - at), standing);
        at = end;
    }
    total
}

// A cell that is live and does not stand as wanted.
fn goes(w: &[u32], caps: Caps, standing: &[u8], c: Cell) -> bool
    ensures { result ≡ goes_in w.now caps standing.now c.0 }
{
    code_of(w, caps, c) != 0 && !has_cell(standing, c)
}

// How many cells go.
fn count_going(w: &[u32], caps: Caps, standing: &[u8]) -> u32
    ensures { result ≡ length (select (goes_in w.now caps standing.now) caps.cells) }
{
    let mut n: u32 = 0;
    for c in 0..caps.cells {
        if goes(w, caps, standing, Cell(c)) {
            n += 1;
        }
    }
    n
}

// A word of the output at a place; the place after it. Past the end nothing is written.
fn add(out: &mut [u32], at: usize, x: u32) -> usize
    ensures { Appended (x ∷ []) out.old at result out.new }
{
    if out.len() <= at {
        return at;
    }
    out[at] = x;
    at + 1
}

// Words of the output from a place on; the place after them.
fn add_all(out: &mut [u32], at: usize, words: &[u32]) -> usize
    ensures { Appended words.now out.old at result out.new }
{
    let mut next = at;
    for x in words {
        next = add(out, next, *x);
    }
    next
}

// The removal of a cell, if it goes; the place after it.
fn write_removal(
    out: &mut [u32],
    at: usize,
    w: &[u32],
    caps: Caps,
    standing: &[u8],
    c: Cell,
) -> usize
    ensures { Appended (removal_in w.now caps standing.now c.0) out.old at result out.new }
{
    if !goes(w, caps, standing, c) {
        return at;
    }
    let next = add(out, at, 2);
    add(out, next, c.0)
}

// The removals, ascending, from the first place on; the place after them.
fn write_removals(out: &mut [u32], w: &[u32], caps: Caps, standing: &[u8]) -> usize
    ensures { Appended (removal_words (select (goes_in w.now caps standing.now) caps.cells)) out.old 0 result out.new }
{
    let mut next: usize = 0;
    for c in 0..caps.cells {
        next = write_removal(out, next, w, caps, standing, Cell(c));
    }
    next
}

// The insertion of a record of n words, if its cell does not stand in the mesh; the place after it.
fn write_insertion(
    out: &mut [u32],
    at: usize,
    w: &[u32],
    caps: Caps,
    wanted: &[u32],
    from: usize,
    n: usize,
) -> usize
    ensures { Appended (cond (stands_in w.now caps (cell_at wanted.now from)) [] (1 ∷ part_of wanted.now from n)) out.old at result out.new }
{
    if record_stands(w, caps, wanted, from) {
        return at;
    }
    let next = add(out, at, 1);
    add_all(out, next, part(wanted, from, n))
}

// The insertions of the missing, in the wanted list's order, from a place on; the place after them.
fn write_insertions(out: &mut [u32], at: usize, w: &[u32], caps: Caps, wanted: &[u32]) -> usize
    ensures { Inserted w.now caps wanted.now out.old at result out.new }
{
    let mut next = at;
    let mut from: usize = 0;
    // a walk from record to record, not a count: each says where the next begins
    while from < wanted.len() {
        let end = record_end(wanted, from);
        next = write_insertion(out, next, w, caps, wanted, from, end - from);
        from = end;
    }
    next
}

// The whole plan from the first place on; the place after it.
fn write_plan(out: &mut [u32], w: &[u32], caps: Caps, standing: &[u8], wanted: &[u32]) -> usize
    ensures { Wrote w.now caps standing.now wanted.now out.old result out.new }
{
    let next = write_removals(out, w, caps, standing);
    write_insertions(out, next, w, caps, wanted)
}

// The plan for a wanted list, written as the words of a list of edits.
pub fn plan(w: &[u32], wanted: &[u32], out: &mut [u32]) -> Result<usize, Refusal>
    ensures { Proposed w.now wanted.now out.old result out.new }
{
    let caps = open(w)?;
    read_wanted(wanted)?;
    let mut standing = [0u8; PAST_CELLS as usize];
    let coming = mark_standing(w, caps, wanted, &mut standing);
    let going = count_going(w, caps, &standing);
    let total = 2 * going as usize + coming;
    if out.len() < total {
        return Err(Refusal::OutputShort);
    }
    write_plan(out, w, caps, &standing, wanted);
    Ok(total)
}
