// The outline's twelve cases, and the runs that it asks for besides, made and asked by the proved calls.
//
// What is here: a table of cases (what each is built from), a table of edits tried after the build, and for each kind of answer a function
// that prints it. What is proved: the program is safe and ends. What it prints is held to `stdout`, which the second program writes.
#![tactic(auto)]

use ask::{
    Walker, border, capacities, count_of_type, edition, first_anchor, free, marks_of, sibling,
    type_of,
};
use build::build_edition;
use edits::{Tally, make_edits, tallied};
use format::{format, format_edition};
use listing::{anchors, cells_of_type, cycle, live, lookup, neighbours, star};
use map::{Refusal, Stopped, Unbuilt, Way, number_of, way_number};
use mesh::{insert, insert_licensed, remove};
use numbers::{Cell, FIRST_EDITION, Half, Mark, SECOND_EDITION, half_of};
use std::io;
use whole::whole;
use words::{part, word};

// The capacities of every case.
const MARKS: u32 = 5;

const CELLS: u32 = 4;

// How many cases there are. P1 to P12 are the outline's. R13 on are runs besides: a cell that comes back; quads with a triangle and a
// bar; a mesh emptied again; a record cut short; edits that are all refused; request 3's two quads that only look joined, and two that
// share two edges; a pyramid with a tetrahedron and a quad on its faces; R26 and R27, under edition 2, an edge with many faces and a build
// refused at the third solid on a face; R31 to R33 siblings that run every way, at bar ends, edges and faces of three marks. R21 to R25 and
// R28 to R30 have no records.
const CASES: usize = 33;

// How many words the records of each case have; and the records, their first twelve words and the rest, padded with 0.
const SIZES: [u32; CASES] = [
    0, 6, 12, 18, 12, 14, 24, 10, 18, 6, 0, 13, 18, 20, 24, 12, 6, 14, 14, 22, 0, 0, 0, 0, 0, 18,
    22, 0, 0, 0, 15, 18, 22,
];

const FIRST: [[u32; 12]; CASES] = [
    [0, 0, 0, 0, 0, 0, 0, 0, 0, 0, 0, 0],
    [0, 2, 0, 0, 1, 2, 0, 0, 0, 0, 0, 0],
    [0, 2, 0, 0, 1, 2, 1, 2, 7, 2, 1, 3],
    [0, 2, 0, 0, 1, 2, 1, 2, 7, 0, 1, 3],
    [0, 2, 0, 0, 1, 2, 1, 2, 7, 0, 3, 4],
    [0, 4, 0, 0, 1, 2, 3, 1, 4, 7, 0, 2],
    [0, 2, 0, 0, 2, 1, 1, 2, 7, 0, 1, 3],
    [0, 1, 0, 0, 1, 1, 1, 7, 1, 2, 0, 0],
    [0, 2, 0, 0, 1, 2, 1, 2, 7, 0, 1, 3],
    [0, 2, 0, 0, 1, 2, 0, 0, 0, 0, 0, 0],
    [0, 0, 0, 0, 0, 0, 0, 0, 0, 0, 0, 0],
    [0, 2, 0, 0, 1, 2, 1, 4, 7, 0, 1, 2],
    [0, 2, 0, 0, 1, 2, 1, 2, 7, 0, 1, 3],
    [0, 3, 0, 0, 1, 2, 3, 1, 3, 7, 1, 0],
    [0, 2, 0, 0, 2, 1, 1, 2, 7, 0, 1, 3],
    [0, 2, 0, 0, 1, 2, 1, 4, 7, 0, 1, 2],
    [0, 2, 0, 0, 1, 2, 0, 0, 0, 0, 0, 0],
    [0, 3, 0, 0, 1, 2, 3, 1, 3, 7, 0, 4],
    [0, 3, 0, 0, 1, 2, 3, 1, 3, 7, 0, 1],
    [0, 5, 0, 0, 1, 2, 3, 4, 1, 4, 7, 0],
    [0, 0, 0, 0, 0, 0, 0, 0, 0, 0, 0, 0],
    [0, 0, 0, 0, 0, 0, 0, 0, 0, 0, 0, 0],
    [0, 0, 0, 0, 0, 0, 0, 0, 0, 0, 0, 0],
    [0, 0, 0, 0, 0, 0, 0, 0, 0, 0, 0, 0],
    [0, 0, 0, 0, 0, 0, 0, 0, 0, 0, 0, 0],
    [0, 2, 0, 0, 1, 2, 1, 2, 7, 0, 1, 3],
    [0, 4, 0, 0, 1, 2, 3, 1, 4, 7, 0, 2],
    [0, 0, 0, 0, 0, 0, 0, 0, 0, 0, 0, 0],
    [0, 0, 0, 0, 0, 0, 0, 0, 0, 0, 0, 0],
    [0, 0, 0, 0, 0, 0, 0, 0, 0, 0, 0, 0],
    [0, 1, 0, 0, 1, 1, 1, 7, 0, 2, 2, 1],
    [0, 2, 0, 0, 1, 2, 1, 2, 7, 3, 0, 1],
    [0, 4, 0, 0, 1, 2, 3, 1, 4, 7, 1, 2],
];

const REST: [[u32; 12]; CASES] = [
    [0, 0, 0, 0, 0, 0, 0, 0, 0, 0, 0, 0],
    [0, 0, 0, 0, 0, 0, 0, 0, 0, 0, 0, 0],
    [0, 0, 0, 0, 0, 0, 0, 0, 0, 0, 0, 0],
    [2, 2, 4294967295, 0, 1, 4, 0, 0, 0, 0, 0, 0],
    [0, 0, 0, 0, 0, 0, 0, 0, 0, 0, 0, 0],
    [1, 4, 0, 0, 0, 0, 0, 0, 0, 0, 0, 0],
    [2, 2, 4294967295, 1, 2, 3, 3, 2, 7, 2, 0, 3],
    [0, 0, 0, 0, 0, 0, 0, 0, 0, 0, 0, 0],
    [2, 2, 4294967295, 0, 1, 4, 0, 0, 0, 0, 0, 0],
    [0, 0, 0, 0, 0, 0, 0, 0, 0, 0, 0, 0],
    [0, 0, 0, 0, 0, 0, 0, 0, 0, 0, 0, 0],
    [3, 0, 0, 0, 0, 0, 0, 0, 0, 0, 0, 0],
    [2, 2, 4294967295, 0, 1, 4, 0, 0, 0, 0, 0, 0],
    [3, 4, 2, 2, 4294967295, 0, 1, 4, 0, 0, 0, 0],
    [2, 2, 4294967295, 1, 2, 3, 3, 2, 7, 2, 0, 3],
    [0, 0, 0, 0, 0, 0, 0, 0, 0, 0, 0, 0],
    [0, 0, 0, 0, 0, 0, 0, 0, 0, 0, 0, 0],
    [1, 2, 0, 0, 0, 0, 0, 0, 0, 0, 0, 0],
    [2, 4, 0, 0, 0, 0, 0, 0, 0, 0, 0, 0],
    [1, 4, 2, 2, 3, 4294967295, 0, 1, 2, 3, 0, 0],
    [0, 0, 0, 0, 0, 0, 0, 0, 0, 0, 0, 0],
    [0, 0, 0, 0, 0, 0, 0, 0, 0, 0, 0, 0],
    [0, 0, 0, 0, 0, 0, 0, 0, 0, 0, 0, 0],
    [0, 0, 0, 0, 0, 0, 0, 0, 0, 0, 0, 0],
    [0, 0, 0, 0, 0, 0, 0, 0, 0, 0, 0, 0],
    [2, 2, 4294967295, 0, 1, 4, 0, 0, 0, 0, 0, 0],
    [1, 4, 2, 5, 4294967295, 0, 1, 3, 4, 2, 0, 0],
    [0, 0, 0, 0, 0, 0, 0, 0, 0, 0, 0, 0],
    [0, 0, 0, 0, 0, 0, 0, 0, 0, 0, 0, 0],
    [0, 0, 0, 0, 0, 0, 0, 0, 0, 0, 0, 0],
    [4294967295, 3, 0, 0, 0, 0, 0, 0, 0, 0, 0, 0],
    [2, 2, 4294967295, 1, 0, 4, 0, 0, 0, 0, 0, 0],
    [0, 4, 2, 5, 4294967295, 0, 1, 4, 3, 2, 0, 0],
];

// Cases with more marks, behind those, made by inserts: a brick on a brick; a wedge between a brick and a pyramid, a tetrahedron on its
// end; faces in crossed order; the wedge taken away; under edition 2, a third solid on a face in crossed order, on a triangle and on a quad,
// refused and, after a removal, accepted; faces of four marks that run every way.
const SOLID_MARKS: u32 = 12;

// The edits after the builds, in order: case, 1 for an insert and 0 for a removal, cell, type, licence, how many marks, the
// marks.
const EDITS: usize = 56;

const EDITED: [[u32; 14]; EDITS] = [
    [9, 0, 1, 0, 0, 0, 0, 0, 0, 0, 0, 0, 0, 0],
    [10, 1, 1, 2, 7, 3, 2, 0, 1, 0, 0, 0, 0, 0],
    [11, 1, 0, 2, 0, 3, 0, 1, 1, 0, 0, 0, 0, 0],
    [13, 0, 1, 0, 0, 0, 0, 0, 0, 0, 0, 0, 0, 0],
    [13, 1, 1, 2, 7, 3, 0, 1, 3, 0, 0, 0, 0, 0],
    [14, 1, 3, 1, 7, 2, 0, 1, 0, 0, 0, 0, 0, 0],
    [15, 0, 0, 0, 0, 0, 0, 0, 0, 0, 0, 0, 0, 0],
    [15, 0, 3, 0, 0, 0, 0, 0, 0, 0, 0, 0, 0, 0],
    [15, 0, 1, 0, 0, 0, 0, 0, 0, 0, 0, 0, 0, 0],
    [15, 0, 2, 0, 0, 0, 0, 0, 0, 0, 0, 0, 0, 0],
    [17, 1, 4, 2, 5, 3, 0, 1, 3, 0, 0, 0, 0, 0],
    [17, 1, 0, 2, 0, 3, 0, 1, 3, 0, 0, 0, 0, 0],
    [17, 1, 1, 8, 7, 3, 0, 1, 3, 0, 0, 0, 0, 0],
    [17, 1, 1, 2, 7, 2, 0, 1, 0, 0, 0, 0, 0, 0],
    [17, 1, 1, 2, 7, 3, 0, 1, 5, 0, 0, 0, 0, 0],
    [17, 1, 1, 2, 7, 3, 3, 4, 3, 0, 0, 0, 0, 0],
    [17, 1, 1, 2, 7, 3, 1, 2, 0, 0, 0, 0, 0, 0],
    [17, 0, 4, 0, 0, 0, 0, 0, 0, 0, 0, 0, 0, 0],
    [17, 0, 1, 0, 0, 0, 0, 0, 0, 0, 0, 0, 0, 0],
    [21, 1, 0, 7, 0, 8, 0, 1, 2, 3, 4, 5, 6, 7],
    [21, 1, 1, 7, 7, 8, 4, 5, 6, 7, 8, 9, 10, 11],
    [22, 1, 0, 7, 0, 8, 0, 1, 2, 3, 4, 5, 6, 7],
    [22, 1, 1, 6, 7, 6, 1, 2, 8, 5, 6, 9, 0, 0],
    [22, 1, 2, 5, 4294967295, 5, 2, 8, 9, 6, 10, 0, 0, 0],
    [22, 1, 3, 4, 7, 4, 1, 2, 8, 11, 0, 0, 0, 0],
    [23, 1, 0, 7, 0, 8, 0, 1, 2, 3, 4, 5, 6, 7],
    [23, 1, 1, 7, 7, 8, 4, 6, 5, 7, 8, 9, 10, 11],
    [23, 1, 2, 5, 4294967295, 5, 7, 4, 6, 5, 8, 0, 0, 0],
    [24, 1, 0, 7, 0, 8, 0, 1, 2, 3, 4, 5, 6, 7],
    [24, 1, 1, 6, 7, 6, 1, 2, 8, 5, 6, 9, 0, 0],
    [24, 1, 2, 5, 4294967295, 5, 2, 8, 9, 6, 10, 0, 0, 0],
    [24, 1, 3, 4, 7, 4, 1, 2, 8, 11, 0, 0, 0, 0],
    [24, 0, 1, 0, 0, 0, 0, 0, 0, 0, 0, 0, 0, 0],
    [26, 1, 3, 3, 7, 4, 0, 1, 2, 3, 0, 0, 0, 0],
    [28, 1, 0, 7, 0, 8, 0, 1, 2, 3, 4, 5, 6, 7],
    [28, 1, 1, 7, 7, 8, 4, 6, 5, 7, 8, 9, 10, 11],
    [28, 1, 2, 5, 4294967295, 5, 7, 4, 6, 5, 8, 0, 0, 0],
    [29, 1, 0, 4, 0, 4, 0, 1, 2, 3, 0, 0, 0, 0],
    [29, 1, 1, 5, 7, 5, 0, 1, 4, 5, 2, 0, 0, 0],
    [29, 1, 2, 6, 4294967295, 6, 2, 0, 1, 6, 7, 8, 0, 0],
    [29, 1, 2, 2, 4294967295, 3, 0, 1, 2, 0, 0, 0, 0, 0],
    [29, 0, 0, 0, 0, 0, 0, 0, 0, 0, 0, 0, 0, 0],
    [29, 1, 3, 6, 7, 6, 2, 0, 1, 6, 7, 8, 0, 0],
    [30, 1, 0, 7, 0, 8, 0, 1, 2, 3, 4, 5, 6, 7],
    [30, 1, 1, 6, 7, 6, 1, 2, 8, 5, 6, 9, 0, 0],
    [30, 1, 2, 5, 4294967295, 5, 6, 1, 5, 2, 10, 0, 0, 0],
    [30, 1, 2, 7, 4294967295, 8, 7, 6, 5, 4, 3, 2, 1, 0],
    [30, 0, 0, 0, 0, 0, 0, 0, 0, 0, 0, 0, 0, 0],
    [30, 1, 2, 5, 4294967295, 5, 6, 1, 5, 2, 10, 0, 0, 0],
    [30, 1, 0, 7, 0, 8, 0, 1, 2, 3, 4, 5, 6, 7],
    [32, 0, 1, 0, 0, 0, 0, 0, 0, 0, 0, 0, 0, 0],
    [32, 1, 1, 2, 7, 3, 3, 1, 0, 0, 0, 0, 0, 0],
    [34, 1, 0, 7, 0, 8, 0, 1, 2, 3, 4, 5, 6, 7],
    [34, 1, 1, 5, 7, 5, 7, 6, 5, 4, 8, 0, 0, 0],
    [34, 1, 2, 5, 4294967295, 5, 7, 4, 6, 5, 9, 0, 0, 0],
    [34, 1, 3, 7, 7, 8, 4, 5, 6, 7, 8, 9, 10, 11],
];

fn size(p: u32) -> u32 {
    let at = p as usize;
    if at < 1 {
        return 0;
    }
    if CASES < at {
        return 0;
    }
    SIZES[at - 1]
}

fn records(p: u32) -> [u32; 24] {
    let at = p as usize;
    if at < 1 {
        return [0; 24];
    }
    if CASES < at {
        return [0; 24];
    }
    let first = FIRST[at - 1];
    let rest = REST[at - 1];
    [
        first[0], first[1], first[2], first[3], first[4], first[5], first[6], first[7], first[8],
        first[9], first[10], first[11], rest[0], rest[1], rest[2], rest[3], rest[4], rest[5],
        rest[6], rest[7], rest[8], rest[9], rest[10], rest[11],
    ]
}

fn edit_row(k: usize) -> [u32; 14] {
    if k < EDITS { EDITED[k] } else { [0; 14] }
}

fn say(rt: &impl Print, text: &str) -> io::Result<()> {
    rt.print(text)
}

fn say_number(rt: &impl Print, n: u32) -> io::Result<()> {
    say(rt, " ")?;
    rt.print(n)
}

fn say_size(rt: &impl Print, n: usize) -> io::Result<()> {
    say(rt, " ")?;
    rt.print(n)
}

fn say_case(rt: &impl Print, p: u32) -> io::Result<()> {
    if p <= 12 {
        say(rt, "P")?;
    } else {
        say(rt, "R")?;
    }
    rt.print(p)
}

fn say_refusal(rt: &impl Print, why: Refusal) -> io::Result<()> {
    say(rt, " refused")?;
    say_number(rt, number_of(why))
}

// The first n numbers of a list.
fn say_numbers(rt: &impl Print, list: &[u32], n: usize) -> io::Result<()> {
    if n == 0 {
        say(rt, " none")?;
    }
    for i in 0..n {
        say_number(rt, word(list, i))?;
    }
    Ok(())
}

fn say_verdict(rt: &impl Print, v: Result<(), Refusal>) -> io::Result<()> {
    match v {
        Ok(()) => say(rt, " accepted"),
        Err(why) => say_refusal(rt, why),
    }
}

fn say_built(rt: &impl Print, b: Result<(), Unbuilt>) -> io::Result<()> {
    match b {
        Ok(()) => say(rt, " accepted"),
        Err(Unbuilt { why, place }) => {
            say_refusal(rt, why)?;
            say(rt, " record")?;
            say_number(rt, place)
        }
    }
}

fn say_value(rt: &impl Print, v: Result<u32, Refusal>) -> io::Result<()> {
    match v {
        Ok(n) => say_number(rt, n),
        Err(why) => say_refusal(rt, why),
    }
}

fn say_pair(rt: &impl Print, p: Result<(u32, u32), Refusal>) -> io::Result<()> {
    match p {
        Ok((first, second)) => {
            say_number(rt, first)?;
            say_number(rt, second)
        }
        Err(why) => say_refusal(rt, why),
    }
}

fn say_cell(rt: &impl Print, c: Result<Option<Cell>, Refusal>) -> io::Result<()> {
    match c {
        Ok(Some(cell)) => say_number(rt, cell.0),
        Ok(None) => say(rt, " none"),
        Err(why) => say_refusal(rt, why),
    }
}

fn say_list(rt: &impl Print, v: Result<u32, Refusal>, list: &[u32]) -> io::Result<()> {
    match v {
        Ok(n) => say_numbers(rt, list, n as usize),
        Err(why) => say_refusal(rt, why),
    }
}

fn say_way(rt: &impl Print, h: Half, way: Way) -> io::Result<()> {
    say_number(rt, h.0)?;
    say(rt, " way")?;
    say_number(rt, way_number(way))
}

fn say_half(rt: &impl Print, h: Result<(Half, Way), Refusal>) -> io::Result<()> {
    match h {
        Ok((x, way)) => say_way(rt, x, way),
        Err(why) => say_refusal(rt, why),
    }
}

// A cycle, and the ways beside it.
fn say_cycle(
    rt: &impl Print,
    v: Result<u32, Refusal>,
    list: &[u32],
    ways: &[u32],
) -> io::Result<()> {
    match v {
        Ok(n) => {
            say_numbers(rt, list, n as usize)?;
            say(rt, ", ways")?;
            say_numbers(rt, ways, n as usize)
        }
        Err(why) => say_refusal(rt, why),
    }
}

fn say_found(rt: &impl Print, f: Result<Option<Half>, Refusal>) -> io::Result<()> {
    if let Err(why) = f {
        return say_refusal(rt, why);
    }
    let Ok(Some(h)) = f else {
        return say(rt, " none");
    };
    say_number(rt, h.0)
}

fn say_truth(rt: &impl Print, t: Result<bool, Refusal>) -> io::Result<()> {
    match t {
        Ok(true) => say(rt, " yes"),
        Ok(false) => say(rt, " no"),
        Err(why) => say_refusal(rt, why),
    }
}

fn say_step(rt: &impl Print, s: Result<(Walker, Way), Refusal>) -> io::Result<()> {
    match s {
        Ok((at, way)) => say_way(rt, at.0, way),
        Err(why) => say_refusal(rt, why),
    }
}

fn about_cell(rt: &impl Print, w: &[u32], p: u32, c: Cell) -> io::Result<()> {
    say_case(rt, p)?;
    say(rt, " cell")?;
    say_number(rt, c.0)?;
    say(rt, ": type")?;
    say_value(rt, type_of(w, c))?;
    say(rt, ", licence")?;
    say_value(rt, ask::licence(w, c))?;
    say(rt, ", marks")?;
    let marks = marks_of(w, c);
    say_numbers(rt, marks, marks.len())?;
    say(rt, ", neighbours")?;
    let mut out = [0u32; 128];
    let n = neighbours(w, c, &mut out);
    say_list(rt, n, &out)?;
    say(rt, "\n")
}

fn about_half(rt: &impl Print, w: &[u32], p: u32, c: Cell, f: u32) -> io::Result<()> {
    say_case(rt, p)?;
    say(rt, " half")?;
    say_number(rt, c.0)?;
    say_number(rt, f)?;
    say(rt, ": sibling")?;
    say_half(rt, sibling(w, c, f))?;
    say(rt, ", border")?;
    say_truth(rt, border(w, c, f))?;
    say(rt, ", cycle")?;
    let mut out = [0u32; 128];
    let mut ways = [0u32; 128];
    let n = cycle(w, c, f, &mut out, &mut ways);
    say_cycle(rt, n, &out, &ways)?;
    say(rt, ", step")?;
    say_step(rt, Walker(half_of(c, f)).step(w))?;
    say(rt, "\n")
}

fn about_halves(rt: &impl Print, w: &[u32], p: u32, c: Cell) -> io::Result<()> {
    for f in 0..7 {
        about_half(rt, w, p, c, f)?;
    }
    Ok(())
}

fn about_mark(rt: &impl Print, w: &[u32], p: u32, d: u32, v: Mark) -> io::Result<()> {
    say_case(rt, p)?;
    say(rt, " mark")?;
    say_number(rt, v.0)?;
    say(rt, " dimension")?;
    say_number(rt, d)?;
    say(rt, ": star")?;
    let mut cells = [0u32; 128];
    let n = star(w, d, v, &mut cells);
    say_list(rt, n, &cells)?;
    say(rt, ", anchors")?;
    let mut halves = [0u32; 128];
    let k = anchors(w, d, v, &mut halves);
    say_list(rt, k, &halves)?;
    say(rt, ", first")?;
    say_found(rt, first_anchor(w, d, v))?;
    say(rt, "\n")
}

fn about_marks(rt: &impl Print, w: &[u32], p: u32, d: u32) -> io::Result<()> {
    for v in 0..6 {
        about_mark(rt, w, p, d, Mark(v))?;
    }
    Ok(())
}

fn about_type(rt: &impl Print, w: &[u32], p: u32, t: u32) -> io::Result<()> {
    say_case(rt, p)?;
    say(rt, " type")?;
    say_number(rt, t)?;
    say(rt, ": cells")?;
    let mut out = [0u32; 128];
    let n = cells_of_type(w, t, &mut out);
    say_list(rt, n, &out)?;
    say(rt, ", count")?;
    say_value(rt, count_of_type(w, t))?;
    say(rt, "\n")
}

fn about_set(rt: &impl Print, w: &[u32], p: u32, set: &[u32]) -> io::Result<()> {
    say_case(rt, p)?;
    say(rt, " lookup")?;
    say_numbers(rt, set, set.len())?;
    say(rt, ":")?;
    say_found(rt, lookup(w, set))?;
    say(rt, "\n")
}

// The sets of marks that start with a, b and c.
fn about_fours(rt: &impl Print, w: &[u32], p: u32, a: u32, b: u32, c: u32) -> io::Result<()> {
    about_set(rt, w, p, &[a, b, c])?;
    for d in 0..6 {
        if c < d {
            about_set(rt, w, p, &[a, b, c, d])?;
        }
    }
    Ok(())
}

// The sets of marks that start with a and b.
fn about_triples(rt: &impl Print, w: &[u32], p: u32, a: u32, b: u32) -> io::Result<()> {
    about_set(rt, w, p, &[a, b])?;
    for c in 0..6 {
        if b < c {
            about_fours(rt, w, p, a, b, c)?;
        }
    }
    Ok(())
}

// The sets of marks that start with a.
fn about_pairs(rt: &impl Print, w: &[u32], p: u32, a: u32) -> io::Result<()> {
    about_set(rt, w, p, &[a])?;
    for b in 0..6 {
        if a < b {
            about_triples(rt, w, p, a, b)?;
        }
    }
    Ok(())
}

fn about_cells(rt: &impl Print, w: &[u32], p: u32) -> io::Result<()> {
    for c in 0..5 {
        about_cell(rt, w, p, Cell(c))?;
        about_halves(rt, w, p, Cell(c))?;
    }
    Ok(())
}

fn about_dimensions(rt: &impl Print, w: &[u32], p: u32) -> io::Result<()> {
    for d in 0..5 {
        about_marks(rt, w, p, d)?;
    }
    Ok(())
}

fn about_types(rt: &impl Print, w: &[u32], p: u32) -> io::Result<()> {
    for t in 0..9 {
        about_type(rt, w, p, t)?;
    }
    Ok(())
}

fn about_sets(rt: &impl Print, w: &[u32], p: u32) -> io::Result<()> {
    for a in 0..6 {
        about_pairs(rt, w, p, a)?;
    }
    Ok(())
}

fn about_edition(rt: &impl Print, w: &[u32], p: u32) -> io::Result<()> {
    say_case(rt, p)?;
    say(rt, " edition:")?;
    say_value(rt, edition(w))?;
    say(rt, "\n")
}

// The capacities, the live cells and the first number that is free.
fn about_room(rt: &impl Print, w: &[u32], p: u32) -> io::Result<()> {
    say_case(rt, p)?;
    say(rt, " capacities:")?;
    say_pair(rt, capacities(w))?;
    say(rt, ", live")?;
    let mut out = [0u32; 128];
    let n = live(w, &mut out);
    say_list(rt, n, &out)?;
    say(rt, ", free")?;
    say_cell(rt, free(w))?;
    say(rt, "\n")
}

fn about_whole(rt: &impl Print, w: &[u32], p: u32) -> io::Result<()> {
    say_case(rt, p)?;
    if whole(w) {
        say(rt, " whole: yes\n")
    } else {
        say(rt, " whole: no\n")
    }
}

// Every query with every argument, each also one past its range; and the whole check.
fn everything(rt: &impl Print, w: &[u32], p: u32) -> io::Result<()> {
    about_cells(rt, w, p)?;
    about_dimensions(rt, w, p)?;
    about_types(rt, w, p)?;
    about_sets(rt, w, p)?;
    about_set(rt, w, p, &[])?;
    about_set(rt, w, p, &[1, 0, 1])?;
    about_set(rt, w, p, &[0, 1, 2, 3, 4])?;
    about_edition(rt, w, p)?;
    about_room(rt, w, p)?;
    about_whole(rt, w, p)
}

fn about_solid_marks(rt: &impl Print, w: &[u32], p: u32) -> io::Result<()> {
    for v in 0..13 {
        about_mark(rt, w, p, 3, Mark(v))?;
    }
    Ok(())
}

fn about_faces(rt: &impl Print, w: &[u32], p: u32) -> io::Result<()> {
    about_set(rt, w, p, &[4, 5, 6, 7])?;
    about_set(rt, w, p, &[7, 5, 4, 6])?;
    about_set(rt, w, p, &[1, 2, 6, 5])?;
    about_set(rt, w, p, &[2, 8, 9, 6])?;
    about_set(rt, w, p, &[8, 2, 1])?;
    about_set(rt, w, p, &[0, 1, 6, 7])?;
    about_set(rt, w, p, &[0, 1, 2, 12])?;
    about_set(rt, w, p, &[0, 1, 2, 3, 12])
}

// The same of solids, with some sets only.
fn of_solids(rt: &impl Print, w: &[u32], p: u32) -> io::Result<()> {
    about_cells(rt, w, p)?;
    about_solid_marks(rt, w, p)?;
    about_types(rt, w, p)?;
    about_faces(rt, w, p)?;
    about_edition(rt, w, p)?;
    about_room(rt, w, p)?;
    about_whole(rt, w, p)
}

fn try_remove(rt: &impl Print, w: &mut [u32], c: Cell) -> io::Result<()> {
    say(rt, " remove")?;
    say_number(rt, c.0)?;
    say(rt, ":")?;
    say_verdict(rt, remove(w, c))?;
    say(rt, "\n")
}

// The licence, unless it is 0.
fn say_licence(rt: &impl Print, licence: u32) -> io::Result<()> {
    if licence == 0 {
        return Ok(());
    }
    say(rt, " licence")?;
    say_number(rt, licence)
}

// The insert without a licence, where it is 0.
fn made_insert(w: &mut [u32], c: Cell, t: u32, licence: u32, marks: &[u32]) -> Result<(), Refusal> {
    if licence == 0 {
        return insert(w, c, t, marks);
    }
    insert_licensed(w, c, t, licence, marks)
}

fn try_insert(
    rt: &impl Print,
    w: &mut [u32],
    c: Cell,
    t: u32,
    licence: u32,
    marks: &[u32],
) -> io::Result<()> {
    say(rt, " insert")?;
    say_number(rt, c.0)?;
    say(rt, " type")?;
    say_number(rt, t)?;
    say_licence(rt, licence)?;
    say(rt, " marks")?;
    say_numbers(rt, marks, marks.len())?;
    say(rt, ":")?;
    say_verdict(rt, made_insert(w, c, t, licence, marks))?;
    say(rt, "\n")
}

// One row of the edits, where it is of this case.
fn try_edit(rt: &impl Print, w: &mut [u32], p: u32, k: usize) -> io::Result<()> {
    let row = edit_row(k);
    if row[0] != p {
        return Ok(());
    }
    say_case(rt, p)?;
    if row[1] == 0 {
        try_remove(rt, w, Cell(row[2]))
    } else {
        let n = row[5];
        try_insert(
            rt,
            w,
            Cell(row[2]),
            row[3],
            row[4],
            part(&row, 6, n as usize),
        )
    }
}

fn try_edits(rt: &impl Print, w: &mut [u32], p: u32) -> io::Result<()> {
    for k in 0..EDITS {
        try_edit(rt, w, p, k)?;
    }
    Ok(())
}

fn say_made(rt: &impl Print, m: Result<usize, Stopped>) -> io::Result<()> {
    match m {
        Ok(n) => say_size(rt, n),
        Err(Stopped { made: n, why }) => {
            say_size(rt, n)?;
            say_refusal(rt, why)
        }
    }
}

// A tally of these counts, and what it is after a list.
fn say_tally(
    rt: &impl Print,
    accepted: u32,
    refused: u32,
    made: Result<usize, Stopped>,
) -> io::Result<()> {
    say(rt, ", tally")?;
    say_number(rt, accepted)?;
    say_number(rt, refused)?;
    let tally = Tally {
        accepted: accepted,
        refused: refused,
    };
    let after = tallied(tally, made);
    say(rt, " to")?;
    say_number(rt, after.accepted)?;
    say_number(rt, after.refused)
}

// A list of edits, with a tally of these counts.
fn try_list(
    rt: &impl Print,
    w: &mut [u32],
    p: u32,
    accepted: u32,
    refused: u32,
    list: &[u32],
) -> io::Result<()> {
    say_case(rt, p)?;
    say(rt, " edits")?;
    say_numbers(rt, list, list.len())?;
    say(rt, ": made")?;
    let made = make_edits(w, list);
    say_made(rt, made)?;
    say_tally(rt, accepted, refused, made)?;
    say(rt, "\n")
}

fn run_case(rt: &impl Print, w: &mut [u32], p: u32, e: u32) -> io::Result<()> {
    let row = records(p);
    let n = size(p);
    say_case(rt, p)?;
    say(rt, " build:")?;
    say_built(
        rt,
        build_edition(w, MARKS, CELLS, e, part(&row, 0, n as usize)),
    )?;
    say(rt, "\n")?;
    try_edits(rt, w, p)?;
    everything(rt, w, p)
}

fn one_case(rt: &impl Print, p: u32, e: u32) -> io::Result<()> {
    let mut w = [0u32; 184];
    run_case(rt, &mut w, p, e)
}

fn run_solids(rt: &impl Print, w: &mut [u32], p: u32, e: u32) -> io::Result<()> {
    say_case(rt, p)?;
    say(rt, " build:")?;
    say_built(rt, build_edition(w, SOLID_MARKS, CELLS, e, &[]))?;
    say(rt, "\n")?;
    try_edits(rt, w, p)?;
    of_solids(rt, w, p)
}

fn solids(rt: &impl Print, p: u32, e: u32) -> io::Result<()> {
    let mut w = [0u32; 240];
    run_solids(rt, &mut w, p, e)
}

// Two solids at most on a face.
fn limited(rt: &impl Print) -> io::Result<()> {
    one_case(rt, 26, SECOND_EDITION)?;
    one_case(rt, 27, SECOND_EDITION)?;
    solids(rt, 28, SECOND_EDITION)?;
    solids(rt, 29, SECOND_EDITION)?;
    solids(rt, 30, SECOND_EDITION)
}

// Memory that is no mesh.
fn no_mesh(rt: &impl Print) -> io::Result<()> {
    let w = [0u32; 184];
    everything(rt, &w, 25)
}

// A morning's edits, list by list: made, and stopped at an edit.
fn run_made(rt: &impl Print, w: &mut [u32]) -> io::Result<()> {
    try_list(rt, w, 35, 0, 0, &[])?;
    try_list(
        rt,
        w,
        35,
        0,
        0,
        &[1, 0, 2, 0, 0, 1, 2, 1, 1, 2, 7, 2, 1, 3, 2, 0],
    )?;
    try_list(rt, w, 35, 3, 0, &[2, 1, 2, 1, 1, 0, 2, 0, 0, 1, 2])?;
    try_list(rt, w, 35, 4, 1, &[1, 0, 2, 9, 0, 1, 2, 3, 1])
}

// Kinds that are none, and a number, type or licence that is missing.
fn run_short(rt: &impl Print, w: &mut [u32]) -> io::Result<()> {
    try_list(rt, w, 35, 5, 2, &[0])?;
    try_list(rt, w, 35, 5, 2, &[2])?;
    try_list(rt, w, 35, 5, 2, &[1])?;
    try_list(rt, w, 35, 5, 2, &[1, 1])?;
    try_list(rt, w, 35, 5, 2, &[1, 1, 2])?;
    try_list(rt, w, 35, 5, 2, &[1, 1, 8])
}

// The insert's own refusals, with marks missing or not.
fn run_own(rt: &impl Print, w: &mut [u32]) -> io::Result<()> {
    try_list(rt, w, 35, 5, 2, &[1, 1, 8, 7])?;
    try_list(rt, w, 35, 5, 2, &[1, 9, 2, 7])?;
    try_list(rt, w, 35, 5, 2, &[1, 0, 2, 7])?;
    try_list(rt, w, 35, 5, 2, &[1, 1, 2, 7, 0, 1])?;
    try_list(rt, w, 35, 5, 2, &[1, 1, 2, 7, 2, 1, 0])
}

// A list of edits of both kinds and more types, all made.
fn run_all(rt: &impl Print, w: &mut [u32]) -> io::Result<()> {
    try_list(
        rt,
        w,
        35,
        5,
        2,
        &[
            1, 1, 3, 7, 0, 1, 2, 3, 2, 0, 1, 0, 4, 4294967295, 0, 1, 2, 3,
        ],
    )
}

// A count at its largest number stays there.
fn run_counts(rt: &impl Print, w: &mut [u32]) -> io::Result<()> {
    try_list(rt, w, 35, 4294967294, 4294967294, &[2, 0, 2, 1, 2, 1])?;
    try_list(
        rt,
        w,
        35,
        4294967295,
        4294967295,
        &[1, 0, 2, 0, 0, 1, 2, 2, 3],
    )?;
    try_list(rt, w, 35, 4294967294, 4294967295, &[1, 1, 2, 7, 0, 1, 3])
}

// "14 first, for an empty list too"
fn run_none(rt: &impl Print, w: &mut [u32]) -> io::Result<()> {
    try_list(rt, w, 36, 0, 0, &[])?;
    try_list(rt, w, 36, 7, 4294967294, &[2, 0])?;
    try_list(rt, w, 36, 7, 4294967295, &[3])
}

fn mornings(rt: &impl Print) -> io::Result<()> {
    let mut w = [0u32; 184];
    let _ = format(&mut w, MARKS, CELLS);
    run_made(rt, &mut w)?;
    run_short(rt, &mut w)?;
    run_own(rt, &mut w)?;
    run_all(rt, &mut w)?;
    run_counts(rt, &mut w)?;
    everything(rt, &w, 35)?;
    let mut none = [0u32; 184];
    run_none(rt, &mut none)
}

fn try_format(rt: &impl Print, w: &mut [u32], marks: u32, cells: u32) -> io::Result<()> {
    say(rt, "bound format")?;
    say_size(rt, w.len())?;
    say(rt, " words")?;
    say_number(rt, marks)?;
    say_number(rt, cells)?;
    say(rt, ":")?;
    say_verdict(rt, format(w, marks, cells))?;
    say(rt, "\n")
}

// The room exact, and one word short.
fn try_room(rt: &impl Print, w: &mut [u32], marks: u32, cells: u32) -> io::Result<()> {
    try_format(rt, w, marks, cells)?;
    let n = w.len();
    if 0 < n {
        try_format(rt, &mut w[1..], marks, cells)?;
    }
    Ok(())
}

fn most_marks(rt: &impl Print) -> io::Result<()> {
    let mut w = [0u32; 524296];
    try_room(rt, &mut w, 65535, 0)
}

fn above_most(rt: &impl Print, w: &mut [u32]) -> io::Result<()> {
    try_format(rt, w, 65536, 0)?;
    try_format(rt, w, 0, 65536)?;
    try_format(rt, w, 65535, 65535)?;
    try_room(rt, w, MARKS, CELLS)
}

fn formats(rt: &impl Print) -> io::Result<()> {
    most_marks(rt)?;
    let mut w = [0u32; 184];
    above_most(rt, &mut w)?;
    let mut head = [0u32; 16];
    try_room(rt, &mut head, 0, 0)
}

fn try_edition(rt: &impl Print, w: &mut [u32], marks: u32, cells: u32, e: u32) -> io::Result<()> {
    say(rt, "bound format")?;
    say_size(rt, w.len())?;
    say(rt, " words")?;
    say_number(rt, marks)?;
    say_number(rt, cells)?;
    say(rt, " edition")?;
    say_number(rt, e)?;
    say(rt, ":")?;
    say_verdict(rt, format_edition(w, marks, cells, e))?;
    say(rt, "\n")
}

fn one_edition(rt: &impl Print, marks: u32, cells: u32, e: u32) -> io::Result<()> {
    let mut w = [0u32; 184];
    try_edition(rt, &mut w, marks, cells, e)
}

// Siblings that run every way.
fn every_way(rt: &impl Print) -> io::Result<()> {
    one_case(rt, 31, FIRST_EDITION)?;
    one_case(rt, 32, FIRST_EDITION)?;
    one_case(rt, 33, FIRST_EDITION)?;
    solids(rt, 34, FIRST_EDITION)
}

// "6 for another edition, before 1 and like it"
fn editions(rt: &impl Print) -> io::Result<()> {
    one_edition(rt, MARKS, CELLS, 0)?;
    one_edition(rt, MARKS, CELLS, 1)?;
    one_edition(rt, MARKS, CELLS, 2)?;
    one_edition(rt, MARKS, CELLS, 3)?;
    one_edition(rt, MARKS, CELLS, 258)?;
    one_edition(rt, 65536, 0, 2)?;
    one_edition(rt, 65536, 0, 3)?;
    one_edition(rt, 65535, 65535, 2)?;
    one_edition(rt, 65535, 65535, 3)
}

// A bar from mark 0 to the mark of the cell's number and one.
fn try_bar(rt: &impl Print, w: &mut [u32], c: Cell) -> io::Result<()> {
    if 65535 < c.0 {
        return Ok(());
    }
    say(rt, "bound insert")?;
    say_number(rt, c.0)?;
    say(rt, ":")?;
    say_verdict(rt, insert(w, c, 1, &[0, c.0 + 1]))?;
    say(rt, "\n")
}

// Lists into an output of this length.
fn lists_in(rt: &impl Print, w: &[u32], out: &mut [u32]) -> io::Result<()> {
    say(rt, "bound star")?;
    say_size(rt, out.len())?;
    say(rt, ":")?;
    let stars = star(w, 1, Mark(0), out);
    say_list(rt, stars, out)?;
    say(rt, "\nbound neighbours")?;
    say_size(rt, out.len())?;
    say(rt, ":")?;
    let near = neighbours(w, Cell(7), out);
    say_list(rt, near, out)?;
    say(rt, "\n")
}

fn lists_too(rt: &impl Print, w: &[u32], out: &mut [u32]) -> io::Result<()> {
    say(rt, "bound cells")?;
    say_size(rt, out.len())?;
    say(rt, ":")?;
    let cells = cells_of_type(w, 1, out);
    say_list(rt, cells, out)?;
    say(rt, "\nbound anchors")?;
    say_size(rt, out.len())?;
    say(rt, ":")?;
    let first = anchors(w, 1, Mark(0), out);
    say_list(rt, first, out)?;
    say(rt, "\n")
}

fn list_live(rt: &impl Print, w: &[u32], out: &mut [u32]) -> io::Result<()> {
    say(rt, "bound live")?;
    say_size(rt, out.len())?;
    say(rt, ":")?;
    let cells = live(w, out);
    say_list(rt, cells, out)?;
    say(rt, ", free")?;
    say_cell(rt, free(w))?;
    say(rt, "\n")
}

fn lists_all(rt: &impl Print, w: &[u32], out: &mut [u32]) -> io::Result<()> {
    lists_in(rt, w, out)?;
    lists_too(rt, w, out)?;
    list_live(rt, w, out)
}

fn lists_cut(rt: &impl Print, w: &[u32], out: &mut [u32], cut: usize) -> io::Result<()> {
    if cut <= out.len() {
        lists_all(rt, w, &mut out[cut..])?;
    }
    Ok(())
}

// The cycle and the ways beside it, each into an output of its own.
fn ring_in(rt: &impl Print, w: &[u32], out: &mut [u32], ways: &mut [u32]) -> io::Result<()> {
    say(rt, "bound cycle")?;
    say_size(rt, out.len())?;
    say_size(rt, ways.len())?;
    say(rt, ":")?;
    let ring = cycle(w, Cell(7), 0, out, ways);
    say_cycle(rt, ring, out, ways)?;
    say(rt, "\n")
}

fn ring_cut(
    rt: &impl Print,
    w: &[u32],
    out: &mut [u32],
    ways: &mut [u32],
    cut: usize,
    short: usize,
) -> io::Result<()> {
    if cut <= out.len() {
        if short <= ways.len() {
            ring_in(rt, w, &mut out[cut..], &mut ways[short..])?;
        }
    }
    Ok(())
}

// The cycle into an output of 128 places cut by some, and the ways into one cut by as many or by others.
fn ring(rt: &impl Print, w: &[u32], cut: usize, short: usize) -> io::Result<()> {
    let mut out = [0u32; 128];
    let mut ways = [0u32; 128];
    ring_cut(rt, w, &mut out, &mut ways, cut, short)
}

// Lists into an output of 128 places, cut by some.
fn lists(rt: &impl Print, w: &[u32], cut: usize) -> io::Result<()> {
    let mut out = [0u32; 128];
    lists_cut(rt, w, &mut out, cut)?;
    ring(rt, w, cut, cut)
}

fn try_bars(rt: &impl Print, w: &mut [u32]) -> io::Result<()> {
    for c in 0..129 {
        try_bar(rt, w, Cell(c))?;
    }
    Ok(())
}

// A mark's 128th and 129th cell.
fn fill_mark(rt: &impl Print, w: &mut [u32]) -> io::Result<()> {
    try_format(rt, w, 130, 129)?;
    try_bars(rt, w)?;
    lists(rt, w, 2)?;
    lists(rt, w, 1)?;
    lists(rt, w, 0)?;
    ring(rt, w, 1, 0)?;
    ring(rt, w, 0, 1)
}

fn refill_mark(rt: &impl Print, w: &mut [u32]) -> io::Result<()> {
    say(rt, "bound")?;
    try_remove(rt, w, Cell(5))?;
    lists(rt, w, 1)?;
    try_bar(rt, w, Cell(128))?;
    try_bar(rt, w, Cell(5))?;
    lists(rt, w, 0)
}

fn full_mark(rt: &impl Print) -> io::Result<()> {
    let mut w = [0u32; 5184];
    fill_mark(rt, &mut w)?;
    refill_mark(rt, &mut w)
}

fn main(rt: HostRuntime) -> io::Result<()> {
    for p in 1..21 {
        one_case(&rt, p, FIRST_EDITION)?;
    }
    solids(&rt, 21, FIRST_EDITION)?;
    solids(&rt, 22, FIRST_EDITION)?;
    solids(&rt, 23, FIRST_EDITION)?;
    solids(&rt, 24, FIRST_EDITION)?;
    no_mesh(&rt)?;
    limited(&rt)?;
    every_way(&rt)?;
    mornings(&rt)?;
    formats(&rt)?;
    editions(&rt)?;
    full_mark(&rt)
}
