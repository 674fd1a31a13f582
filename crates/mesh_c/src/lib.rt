// The calls of the mesh for programs in C and other languages (include/mengkiloh.h).
//
// What is here: a function for each public call, under its plain name, none with a `requires`. Each answers the refusal's number, 0 for
// accepted, and gives its values through lent words. What is proved: the promise of the call it stands for, told by numbers; a refusal
// leaves what was lent as it was, on any memory (specs/Answered.antt, specs/Changed.antt, specs/Placed.antt, specs/Surfaces.antt,
// specs/Journals.antt, specs/Plans.antt). What a caller should know: a list is a pointer and a count of 32-bit words (of positions 16-bit numbers, of points
// 64-bit floats, of text bytes), aligned to their size; what a call writes may not overlap anything else that is lent to it.
#![tactic(auto)]

ghost use Rattle.std.specs.Prelude.{◌≡◌};
ghost use Rattle.numbers.specs.Half.{half_of};
ghost use Rattle.numbers.specs.Sizes.{caps_under, capacities};
ghost use Rattle.map.specs.Answers.{cell_checks, half_checks, star_checks, type_checks, type_answer, licence_answer, sibling_answer, border_answer, first_anchor_answer, lookup_answer, count_answer, edition_answer};
ghost use Rattle.map.specs.Free.{no_checks, capacities_answer, free_answer, live_numbers};
ghost use Rattle.map.specs.Cells.{body_of, licensed_body, cells_of, neighbours};
ghost use Rattle.map.specs.Siblings.{cycle};
ghost use Rattle.map.specs.Ways.{cycle_ways};
ghost use Rattle.map.specs.Stars.{star, anchors};
ghost use Rattle.map.specs.History.{Insert, Remove};
ghost use Rattle.journal_store.specs.Days.{dated};
ghost use Rattle.journal.specs.Calls.{Begun, Entered};
ghost use Rattle.year.specs.Calls.{OnDay, Folded};
ghost use Rattle.matcher.specs.Complaint.{Named};
ghost use Rattle.journal_whole.specs.Checks.{WholeJournal};
ghost use Rattle.plan_check.specs.Checked.{PlanChecked};
ghost use Rattle.planner.specs.Plan.{plan_words};
ghost use Rattle.planner.specs.Proposed.{planner_checks};
ghost use Rattle.positions.specs.Replies.{measure_reply, centre_reply};
ghost use Rattle.mesh_c.specs.Answered.{Answered, Faced, Sought, Listed, ListedTwo, MarksTold, Judged};
ghost use Rattle.mesh_c.specs.Changed.{Emptied, Raised, Changed};
ghost use Rattle.mesh_c.specs.Journals.{ByNumber, ByCount, ByBit};
ghost use Rattle.mesh_c.specs.Mornings.{EditsTold};
ghost use Rattle.mesh_c.specs.Placed.{Sized, Centre, Corners};
ghost use Rattle.mesh_c.specs.Plans.{ByPlace};
ghost use Rattle.mesh_c.specs.Surfaces.{SurfaceRead, SurfaceWritten};
ghost use Rattle.mesh_c.specs.Version.{version};

use ask::{border, count_of_type, first_anchor, free, sibling, type_of};
use build::{build, build_edition};
use c_answers::{
    byte_of, tell_built, tell_cell, tell_centre, tell_edits, tell_found, tell_half, tell_measure,
    tell_pair, tell_planned, tell_proposal, tell_surfaced, tell_truth, tell_value, tell_verdict,
    tell_written,
};
use edits::{Tally, make_edits, tallied};
use format::{format, format_edition};
use journal::{begin, enter_insert, enter_remove};
use journal_whole::whole_journal;
use listing::{anchors, cells_of_type, cycle, live, lookup, neighbours, star};
use map::Refusal;
use matcher::licences;
use mesh::{insert, insert_licensed, remove};
use numbers::{Cell, Mark};
use plan_check::plan_check;
use planner::plan;
use positions::{centre, measure, points};
use shapes::mark_count;
use store::{marks_place, open};
use surfaces::read_off;
use surfaces_out::write_off;
use whole::whole;
use year::{fold, map_on};

// A mesh of these capacities with no live cell.
#[unsafe(no_mangle)]
pub extern "C" fn mk_format(mesh: &mut [u32], marks: u32, cells: u32) -> u8
    ensures { Emptied mesh.old (capacities marks cells) result mesh.new }
{
    tell_verdict(format(mesh, marks, cells))
}

// A mesh of these capacities and this edition with no live cell.
#[unsafe(no_mangle)]
pub extern "C" fn mk_format_edition(mesh: &mut [u32], marks: u32, cells: u32, edition: u32) -> u8
    ensures { Emptied mesh.old (caps_under edition marks cells) result mesh.new }
{
    tell_verdict(format_edition(mesh, marks, cells, edition))
}

// A mesh of these capacities with the cells of the records; where a record is refused, its place.
#[unsafe(no_mangle)]
pub extern "C" fn mk_build(
    mesh: &mut [u32],
    marks: u32,
    cells: u32,
    records: &[u32],
    place: &mut u32,
) -> u8
    ensures { Raised mesh.old (capacities marks cells) records.now place.old result mesh.new place.new }
{
    tell_built(build(mesh, marks, cells, records), place)
}

// A mesh of these capacities and this edition with the cells of the records; where a record is refused, its place.
#[unsafe(no_mangle)]
pub extern "C" fn mk_build_edition(
    mesh: &mut [u32],
    marks: u32,
    cells: u32,
    edition: u32,
    records: &[u32],
    place: &mut u32,
) -> u8
    ensures { Raised mesh.old (caps_under edition marks cells) records.now place.old result mesh.new place.new }
{
    tell_built(build_edition(mesh, marks, cells, edition, records), place)
}

// A cell of the caller's number, of a type, on marks.
#[unsafe(no_mangle)]
pub extern "C" fn mk_insert(mesh: &mut [u32], cell: u32, code: u32, marks: &[u32]) -> u8
    ensures { Changed mesh.old (Insert cell (body_of code marks.now)) result mesh.new }
{
    tell_verdict(insert(mesh, Cell(cell), code, marks))
}

// A cell of the caller's number, of a type, with a licence, on marks.
#[unsafe(no_mangle)]
pub extern "C" fn mk_insert_licensed(
    mesh: &mut [u32],
    cell: u32,
    code: u32,
    licence: u32,
    marks: &[u32],
) -> u8
    ensures { Changed mesh.old (Insert cell (licensed_body code licence marks.now)) result mesh.new }
{
    tell_verdict(insert_licensed(mesh, Cell(cell), code, licence, marks))
}

// A cell taken out.
#[unsafe(no_mangle)]
pub extern "C" fn mk_remove(mesh: &mut [u32], cell: u32) -> u8
    ensures { Changed mesh.old (Remove cell) result mesh.new }
{
    tell_verdict(remove(mesh, Cell(cell)))
}

// The edits of a list in turn: how many were made, and the tally's two words, accepted and refused.
#[unsafe(no_mangle)]
pub extern "C" fn mk_edits(
    mesh: &mut [u32],
    edits: &[u32],
    tally: &mut [u32; 2],
    made: &mut usize,
) -> u8
    ensures { EditsTold mesh.old edits.now tally.old result mesh.new tally.new made.new }
{
    let answer = make_edits(mesh, edits);
    let before = Tally {
        accepted: tally[0],
        refused: tally[1],
    };
    let after = tallied(before, answer);
    tally[0] = after.accepted;
    tally[1] = after.refused;
    tell_edits(answer, made)
}

// The type of a cell.
#[unsafe(no_mangle)]
pub extern "C" fn mk_type(mesh: &[u32], cell: u32, code: &mut u32) -> u8
    ensures { Answered mesh.now (λ m. type_answer m cell) code.old result code.new }
{
    tell_value(type_of(mesh, Cell(cell)), code)
}

// The licence of a cell; 0 if it was inserted without one.
#[unsafe(no_mangle)]
pub extern "C" fn mk_licence(mesh: &[u32], cell: u32, licence: &mut u32) -> u8
    ensures { Answered mesh.now (λ m. licence_answer m cell) licence.old result licence.new }
{
    tell_value(ask::licence(mesh, Cell(cell)), licence)
}

// Where in memory the marks of a cell stand, and how many there are.
#[unsafe(no_mangle)]
pub extern "C" fn mk_marks(mesh: &[u32], cell: u32, at: &mut u32, count: &mut u32) -> u8
    ensures { MarksTold mesh.now cell at.old count.old result at.new count.new }
{
    let Ok(caps) = open(mesh) else {
        return byte_of(Refusal::NotMesh);
    };
    match type_of(mesh, Cell(cell)) {
        Err(why) => byte_of(why),
        Ok(code) => {
            let n = mark_count(code);
            let place = marks_place(caps, Cell(cell), n as usize);
            if mesh.len() < n as usize {
                return byte_of(Refusal::NotMesh);
            }
            if mesh.len() - (n as usize) < place {
                return byte_of(Refusal::NotMesh);
            }
            *at = (place % 4294967296) as u32;
            *count = n;
            0
        }
    }
}

// The sibling of a half-facet, and the way that it runs.
#[unsafe(no_mangle)]
pub extern "C" fn mk_sibling(
    mesh: &[u32],
    cell: u32,
    facet: u32,
    half: &mut u32,
    way: &mut u32,
) -> u8
    ensures { Faced mesh.now (λ m. sibling_answer m cell facet) half.old way.old result half.new way.new }
{
    tell_half(sibling(mesh, Cell(cell), facet), half, way)
}

// The whole cycle of a half-facet, from it on, and beside each of it the way of its own sibling.
#[unsafe(no_mangle)]
pub extern "C" fn mk_cycle(
    mesh: &[u32],
    cell: u32,
    facet: u32,
    out: &mut [u32],
    ways: &mut [u32],
    count: &mut u32,
) -> u8
    ensures { ListedTwo mesh.now (λ m. half_checks m cell facet) (λ m. cycle m (half_of cell facet)) (λ m. cycle_ways m (half_of cell facet)) out.old ways.old count.old result out.new ways.new count.new }
{
    tell_value(cycle(mesh, Cell(cell), facet, out, ways), count)
}

// Whether a half-facet is alone in its set: 1 or 0.
#[unsafe(no_mangle)]
pub extern "C" fn mk_border(mesh: &[u32], cell: u32, facet: u32, yes: &mut u32) -> u8
    ensures { Answered mesh.now (λ m. border_answer m cell facet) yes.old result yes.new }
{
    tell_truth(border(mesh, Cell(cell), facet), yes)
}

// The star of a mark in a dimension.
#[unsafe(no_mangle)]
pub extern "C" fn mk_star(
    mesh: &[u32],
    dimension: u32,
    mark: u32,
    out: &mut [u32],
    count: &mut u32,
) -> u8
    ensures { Listed mesh.now (λ m. star_checks m dimension mark) (λ m. star m dimension mark) out.old count.old result out.new count.new }
{
    tell_value(star(mesh, dimension, Mark(mark), out), count)
}

// The anchors of a mark in a dimension.
#[unsafe(no_mangle)]
pub extern "C" fn mk_anchors(
    mesh: &[u32],
    dimension: u32,
    mark: u32,
    out: &mut [u32],
    count: &mut u32,
) -> u8
    ensures { Listed mesh.now (λ m. star_checks m dimension mark) (λ m. anchors m dimension mark) out.old count.old result out.new count.new }
{
    tell_value(anchors(mesh, dimension, Mark(mark), out), count)
}

// The first anchor of a mark in a dimension, if there is one.
#[unsafe(no_mangle)]
pub extern "C" fn mk_first_anchor(
    mesh: &[u32],
    dimension: u32,
    mark: u32,
    found: &mut u32,
    half: &mut u32,
) -> u8
    ensures { Sought mesh.now (λ m. first_anchor_answer m dimension mark) found.old half.old result found.new half.new }
{
    tell_found(first_anchor(mesh, dimension, Mark(mark)), found, half)
}

// The other live cells that share a facet with the cell.
#[unsafe(no_mangle)]
pub extern "C" fn mk_neighbours(mesh: &[u32], cell: u32, out: &mut [u32], count: &mut u32) -> u8
    ensures { Listed mesh.now (λ m. cell_checks m cell) (λ m. neighbours m cell) out.old count.old result out.new count.new }
{
    tell_value(neighbours(mesh, Cell(cell), out), count)
}

// The smallest half-facet with a set of marks, if there is one.
#[unsafe(no_mangle)]
pub extern "C" fn mk_lookup(mesh: &[u32], set: &[u32], found: &mut u32, half: &mut u32) -> u8
    ensures { Sought mesh.now (λ m. lookup_answer m set.now) found.old half.old result found.new half.new }
{
    tell_found(lookup(mesh, set), found, half)
}

// The live cells of a type.
#[unsafe(no_mangle)]
pub extern "C" fn mk_cells(mesh: &[u32], code: u32, out: &mut [u32], count: &mut u32) -> u8
    ensures { Listed mesh.now (λ m. type_checks code) (λ m. cells_of m code) out.old count.old result out.new count.new }
{
    tell_value(cells_of_type(mesh, code, out), count)
}

// The count of live cells of a type.
#[unsafe(no_mangle)]
pub extern "C" fn mk_count(mesh: &[u32], code: u32, count: &mut u32) -> u8
    ensures { Answered mesh.now (λ m. count_answer m code) count.old result count.new }
{
    tell_value(count_of_type(mesh, code), count)
}

// The edition that the mesh was formatted under.
#[unsafe(no_mangle)]
pub extern "C" fn mk_edition(mesh: &[u32], edition: &mut u32) -> u8
    ensures { Answered mesh.now edition_answer edition.old result edition.new }
{
    tell_value(ask::edition(mesh), edition)
}

// The capacities that the mesh was formatted for.
#[unsafe(no_mangle)]
pub extern "C" fn mk_capacities(mesh: &[u32], marks: &mut u32, cells: &mut u32) -> u8
    ensures { Faced mesh.now capacities_answer marks.old cells.old result marks.new cells.new }
{
    tell_pair(ask::capacities(mesh), marks, cells)
}

// The smallest cell number that is not live, if there is one.
#[unsafe(no_mangle)]
pub extern "C" fn mk_free(mesh: &[u32], found: &mut u32, cell: &mut u32) -> u8
    ensures { Sought mesh.now free_answer found.old cell.old result found.new cell.new }
{
    tell_cell(free(mesh), found, cell)
}

// All live cells.
#[unsafe(no_mangle)]
pub extern "C" fn mk_live(mesh: &[u32], out: &mut [u32], count: &mut u32) -> u8
    ensures { Listed mesh.now no_checks live_numbers out.old count.old result out.new count.new }
{
    tell_value(live(mesh, out), count)
}

// The version of the library: major, minor and patch, a byte each.
#[unsafe(no_mangle)]
pub extern "C" fn mk_version() -> u32
    ensures { result ≡ version }
{
    0x050100
}

// The corners of a cell as points, three floats each.
#[unsafe(no_mangle)]
pub extern "C" fn mk_points(
    mesh: &[u32],
    positions: &[i16],
    cell: u32,
    out: &mut [f64],
    corners: &mut u32,
) -> u8
    ensures { Corners mesh.now positions.now cell out.old corners.old result out.new corners.new }
{
    tell_value(points(mesh, positions, Cell(cell), out), corners)
}

// The centre of a cell.
#[unsafe(no_mangle)]
pub extern "C" fn mk_centre(
    mesh: &[u32],
    positions: &[i16],
    cell: u32,
    x: &mut f64,
    y: &mut f64,
    z: &mut f64,
) -> u8
    ensures { Centre mesh.now (λ m. centre_reply m positions.now cell) x.old y.old z.old result x.new y.new z.new }
{
    tell_centre(centre(mesh, positions, Cell(cell)), x, y, z)
}

// The measure of a cell, and its kind.
#[unsafe(no_mangle)]
pub extern "C" fn mk_measure(
    mesh: &[u32],
    positions: &[i16],
    cell: u32,
    kind: &mut u32,
    size: &mut f64,
) -> u8
    ensures { Sized mesh.now (λ m. measure_reply m positions.now cell) kind.old size.old result kind.new size.new }
{
    tell_measure(measure(mesh, positions, Cell(cell)), kind, size)
}

// A surface of OFF text, read into mesh and positions; where it is refused, the place of the text or of the face.
#[unsafe(no_mangle)]
pub extern "C" fn mk_off_read(
    mesh: &mut [u32],
    positions: &mut [i16],
    text: &[u8],
    place: &mut usize,
) -> u8
    ensures { SurfaceRead mesh.old positions.old text.now place.old result mesh.new positions.new place.new }
{
    tell_surfaced(read_off(mesh, positions, text), place)
}

// The surface of mesh and positions, written as OFF text, and the bytes of it.
#[unsafe(no_mangle)]
pub extern "C" fn mk_off_write(
    mesh: &[u32],
    positions: &[i16],
    out: &mut [u8],
    length: &mut usize,
) -> u8
    ensures { SurfaceWritten mesh.now positions.now out.old length.old result out.new length.new }
{
    tell_written(write_off(mesh, positions, out), length)
}

// The whole check: 1 for yes, 0 for no.
#[unsafe(no_mangle)]
pub extern "C" fn mk_whole(mesh: &[u32]) -> u8
    ensures { Judged mesh.now result }
{
    if whole(mesh) { 1 } else { 0 }
}

// A journal with no entry, of this mesh, and the mesh copied into the starting map.
#[unsafe(no_mangle)]
pub extern "C" fn mk_journal_begin(mesh: &[u32], journal: &mut [u32], start: &mut [u32]) -> u8
    ensures { ByNumber (λ v. Begun mesh.now journal.old start.old v journal.new start.new) result }
{
    tell_verdict(begin(mesh, journal, start))
}

// A cell with a licence inserted on a day, and entered.
#[unsafe(no_mangle)]
pub extern "C" fn mk_journal_insert(
    mesh: &mut [u32],
    journal: &mut [u32],
    day: u32,
    cell: u32,
    code: u32,
    licence: u32,
    marks: &[u32],
) -> u8
    ensures { ByNumber (λ v. Entered mesh.old journal.old (dated day (Insert cell (licensed_body code licence marks.now))) v mesh.new journal.new) result }
{
    tell_verdict(enter_insert(mesh, journal, day, Cell(cell), code, licence, marks))
}

// A cell removed on a day, and entered.
#[unsafe(no_mangle)]
pub extern "C" fn mk_journal_remove(
    mesh: &mut [u32],
    journal: &mut [u32],
    day: u32,
    cell: u32,
) -> u8
    ensures { ByNumber (λ v. Entered mesh.old journal.old (dated day (Remove cell)) v mesh.new journal.new) result }
{
    tell_verdict(enter_remove(mesh, journal, day, Cell(cell)))
}

// The map of a day, written into second mesh memory.
#[unsafe(no_mangle)]
pub extern "C" fn mk_journal_on(journal: &[u32], start: &[u32], day: u32, second: &mut [u32]) -> u8
    ensures { ByNumber (λ v. OnDay journal.now start.now day second.old v second.new) result }
{
    tell_verdict(map_on(journal, start, day, second))
}

// Whether the edits of a plan take today's map to the wanted cells, tried in second memory; where not, the place of the first wrong edit.
#[unsafe(no_mangle)]
pub extern "C" fn mk_plan_check(
    mesh: &[u32],
    edits: &[u32],
    wanted: &[u32],
    second: &mut [u32],
    place: &mut usize,
) -> u8
    ensures { ByPlace (λ p. PlanChecked mesh.now edits.now wanted.now second.old p second.new) place.old result place.new }
{
    tell_planned(plan_check(mesh, edits, wanted, second), place)
}

// The plan for a wanted list, written as the words of a list of edits, and how many words it has.
#[unsafe(no_mangle)]
pub extern "C" fn mk_plan(mesh: &[u32], wanted: &[u32], out: &mut [u32], count: &mut usize) -> u8
    ensures { Listed mesh.now (λ m. planner_checks wanted.now) (λ m. plan_words m wanted.now) out.old count.old result out.new count.new }
{
    tell_proposal(plan(mesh, wanted, out), count)
}

// The licences of the cells around a mark on a day, and that day's mesh.
#[unsafe(no_mangle)]
pub extern "C" fn mk_licences(
    journal: &[u32],
    start: &[u32],
    day: u32,
    mark: u32,
    second: &mut [u32],
    out: &mut [u32],
    count: &mut u32,
) -> u8
    ensures { ByCount (λ v. Named journal.now start.now day mark second.old out.old v second.new out.new) count.old result count.new }
{
    tell_value(
        licences(journal, start, day, Mark(mark), second, out),
        count,
    )
}

// The edits up to a day, moved into the starting map.
#[unsafe(no_mangle)]
pub extern "C" fn mk_journal_fold(journal: &mut [u32], start: &mut [u32], day: u32) -> u8
    ensures { ByNumber (λ v. Folded journal.old start.old day v journal.new start.new) result }
{
    tell_verdict(fold(journal, start, day))
}

// The whole check of journal and starting map: 1 for yes, 0 for no.
#[unsafe(no_mangle)]
pub extern "C" fn mk_journal_whole(journal: &[u32], start: &[u32]) -> u8
    ensures { ByBit (λ b. WholeJournal journal.now start.now b) result }
{
    if whole_journal(journal, start) { 1 } else { 0 }
}
