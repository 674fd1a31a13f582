// The mesh in lent words: the head, a record for each mark, a record in two parts for each cell.
//
// What is here: `open` tells whether memory is a mesh and gives its capacities, `write_head` says that it is one; for each field of a
// record one reader (`code_of`, `corner_of`, ..) and one writer (`write_code`, ..). All are total. What is proved: each answer, and all
// memory as it is left, is an equation with specs/Slots.antt, where specs/Fields.antt names every word and specs/Layout.antt says where
// a record lies; two slots never share a word, and every word of the room has a slot (proofs/Slots.antt). What a caller should know: no
// other crate knows a word's number; a write outside the records changes nothing, whatever numbers stand in memory.
#![tactic(auto)]

ghost use Rattle.std.specs.Prelude.{◌≡◌, ◌+◌, ◌*◌, ◌/◌, ◌%◌, eqb, get_or};
ghost use Rattle.lists.specs.Lists.{all};
ghost use Rattle.words.specs.Words.{Part};
ghost use Rattle.store.specs.Layout.{room, head_words, mark_words, part_words};
ghost use Rattle.store.specs.Fields.{Count, First, Held, Anchor, Code, Licence, Near, Sib, Link, Far};
ghost use Rattle.store.specs.Slots.{InHead, InMark, InCell, read, written, corner_in, marks_at, sibling_in, way_in, packed};
ghost use Rattle.store.specs.Rests.{head_blank, mark_blank, cell_blank};
ghost use Rattle.store.specs.Open.{opened, headed};

use map::{Refusal, Way, way_number};
use numbers::{Caps, Cell, Half, MOST_CAPACITY, Mark, cell_of, facet_of, is_edition};
use shapes::{MOST_CODE, MOST_FACETS, MOST_MARKS};
use words::{part, put, word};

// The first word of a mesh.
pub const MAGIC: u32 = 1296780363;

// The words of the head, of a mark's record, of each part of a cell's, of both.
pub const HEAD: usize = 16;

const MARK_WORDS: usize = 8;

const PART_WORDS: usize = 16;

const CELL_WORDS: usize = 32;

// A cell of at most so many marks has them in its first part.
pub const NEAR_MARKS: u32 = 4;

// Half-facets are numbered below this, whatever the capacity.
const PAST_HALVES: u32 = 524288;

// The words that a mesh of these capacities takes.
pub fn room_of(caps: Caps) -> usize
    ensures { result ≡ room caps.marks caps.cells }
{
    HEAD + MARK_WORDS * (caps.marks as usize) + CELL_WORDS * (caps.cells as usize)
}

// Whether memory is a mesh, and its capacities.
pub fn open(w: &[u32]) -> Result<Caps, Refusal>
    ensures { result ≡ opened w.now }
{
    if w.len() < HEAD {
        return Err(Refusal::NotMesh);
    }
    if word(w, 0) != MAGIC {
        return Err(Refusal::NotMesh);
    }
    let caps = Caps {
        marks: word(w, 1),
        cells: word(w, 2),
        edition: word(w, 3),
    };
    if MOST_CAPACITY < caps.marks {
        return Err(Refusal::NotMesh);
    }
    if MOST_CAPACITY < caps.cells {
        return Err(Refusal::NotMesh);
    }
    if !is_edition(caps.edition) {
        return Err(Refusal::NotMesh);
    }
    if w.len() < room_of(caps) {
        return Err(Refusal::NotMesh);
    }
    Ok(caps)
}

// The head of a mesh of these capacities; the live counts and the words that say nothing are left to the caller.
pub fn write_head(w: &mut [u32], caps: Caps)
    ensures { w.new ≡ headed w.old caps }
{
    put(w, 0, MAGIC);
    put(w, 1, caps.marks);
    put(w, 2, caps.cells);
    put(w, 3, caps.edition);
}

// Where a record begins: a mark's, the first part of a cell's, the second part.
fn mark_at(v: Mark) -> usize
    ensures { result ≡ head_words + mark_words * v.0 }
{
    HEAD + MARK_WORDS * (v.0 as usize)
}

fn near_at(caps: Caps, c: Cell) -> usize
    ensures { result ≡ head_words + mark_words * caps.marks + part_words * c.0 }
{
    HEAD + MARK_WORDS * (caps.marks as usize) + PART_WORDS * (c.0 as usize)
}

fn far_at(caps: Caps, c: Cell) -> usize
    ensures { result ≡ head_words + mark_words * caps.marks + part_words * caps.cells + part_words * c.0 }
{
    HEAD + MARK_WORDS * (caps.marks as usize)
        + PART_WORDS * (caps.cells as usize)
        + PART_WORDS * (c.0 as usize)
}

// The live cells of a type, counted.
pub fn count_of(w: &[u32], caps: Caps, t: u32) -> u32
    ensures { result ≡ read w.now caps (InHead (Count t)) }
{
    word(w, 4 + (t as usize))
}

pub fn write_count(w: &mut [u32], caps: Caps, t: u32, x: u32)
    ensures { w.new ≡ written w.old caps (InHead (Count t)) x }
{
    if t < 1 {
        return;
    }
    if MOST_CODE < t {
        return;
    }
    put(w, 4 + (t as usize), x);
}

// The link to the first cell of a mark.
pub fn first_of(w: &[u32], caps: Caps, v: Mark) -> u32
    ensures { result ≡ read w.now caps (InMark v.0 First) }
{
    word(w, mark_at(v))
}

pub fn write_first(w: &mut [u32], caps: Caps, v: Mark, x: u32)
    ensures { w.new ≡ written w.old caps (InMark v.0 First) x }
{
    if caps.marks <= v.0 {
        return;
    }
    put(w, mark_at(v), x);
}

// How many cells hold a mark.
pub fn held_of(w: &[u32], caps: Caps, v: Mark) -> u32
    ensures { result ≡ read w.now caps (InMark v.0 Held) }
{
    word(w, mark_at(v) + 1)
}

pub fn write_held(w: &mut [u32], caps: Caps, v: Mark, x: u32)
    ensures { w.new ≡ written w.old caps (InMark v.0 Held) x }
{
    if caps.marks <= v.0 {
        return;
    }
    put(w, mark_at(v) + 1, x);
}

// The first anchor of a mark in a dimension, as number + 1; 0 for none.
pub fn anchor_of(w: &[u32], caps: Caps, d: u32, v: Mark) -> u32
    ensures { result ≡ read w.now caps (InMark v.0 (Anchor d)) }
{
    word(w, mark_at(v) + (1 + (d as usize)))
}

pub fn write_anchor(w: &mut [u32], caps: Caps, d: u32, v: Mark, x: u32)
    ensures { w.new ≡ written w.old caps (InMark v.0 (Anchor d)) x }
{
    if caps.marks <= v.0 {
        return;
    }
    if d < 1 {
        return;
    }
    if 3 < d {
        return;
    }
    put(w, mark_at(v) + (1 + (d as usize)), x);
}

// The type of a cell; 0 while it is not live.
pub fn code_of(w: &[u32], caps: Caps, c: Cell) -> u32
    ensures { result ≡ read w.now caps (InCell c.0 Code) }
{
    word(w, near_at(caps, c))
}

pub fn write_code(w: &mut [u32], caps: Caps, c: Cell, x: u32)
    ensures { w.new ≡ written w.old caps (InCell c.0 Code) x }
{
    if caps.cells <= c.0 {
        return;
    }
    put(w, near_at(caps, c), x);
}

// The licence of a cell; 0 while it is not live.
pub fn licence_of(w: &[u32], caps: Caps, c: Cell) -> u32
    ensures { result ≡ read w.now caps (InCell c.0 Licence) }
{
    word(w, near_at(caps, c) + 15)
}

pub fn write_licence(w: &mut [u32], caps: Caps, c: Cell, x: u32)
    ensures { w.new ≡ written w.old caps (InCell c.0 Licence) x }
{
    if caps.cells <= c.0 {
        return;
    }
    put(w, near_at(caps, c) + 15, x);
}

// The mark at a corner of a cell.
pub fn corner_of(w: &[u32], caps: Caps, c: Cell, k: u32) -> Mark
    ensures { result.0 ≡ corner_in w.now caps c.0 k }
{
    if k < NEAR_MARKS {
        return Mark(word(w, near_at(caps, c) + (1 + (k as usize))));
    }
    Mark(word(w, far_at(caps, c) + k as usize))
}

// Where the first n marks of a cell stand side by side.
pub fn marks_place(caps: Caps, c: Cell, n: usize) -> usize
    ensures { result ≡ marks_at caps c.0 n }
{
    if n <= NEAR_MARKS as usize {
        return near_at(caps, c) + 1;
    }
    far_at(caps, c)
}

// The first n marks of a cell, as the very part of memory that stores them.
pub fn marks_of(w: &[u32], caps: Caps, c: Cell, n: usize) -> &[u32]
    ensures { Part w.entry (marks_at caps c.0 n) n result }
{
    part(w, marks_place(caps, c, n), n)
}

// One of the first four marks; one of all marks, of a cell with more than four.
pub fn write_near(w: &mut [u32], caps: Caps, c: Cell, k: u32, x: u32)
    ensures { w.new ≡ written w.old caps (InCell c.0 (Near k)) x }
{
    if caps.cells <= c.0 {
        return;
    }
    if NEAR_MARKS <= k {
        return;
    }
    put(w, near_at(caps, c) + (1 + (k as usize)), x);
}

pub fn far_of(w: &[u32], caps: Caps, c: Cell, k: u32) -> u32
    ensures { result ≡ read w.now caps (InCell c.0 (Far k)) }
{
    word(w, far_at(caps, c) + k as usize)
}

pub fn write_far(w: &mut [u32], caps: Caps, c: Cell, k: u32, x: u32)
    ensures { w.new ≡ written w.old caps (InCell c.0 (Far k)) x }
{
    if caps.cells <= c.0 {
        return;
    }
    if MOST_MARKS <= k {
        return;
    }
    put(w, far_at(caps, c) + k as usize, x);
}

// The word of a half-facet: its sibling and the way that it runs.
pub fn sibling_word(w: &[u32], caps: Caps, h: Half) -> u32
    ensures { result ≡ read w.now caps (InCell (h.0 / 8) (Sib (h.0 % 8))) }
{
    word(w, near_at(caps, cell_of(h)) + (5 + (facet_of(h) as usize)))
}

// The sibling of a half-facet.
pub fn sibling_of(w: &[u32], caps: Caps, h: Half) -> Half
    ensures { result.0 ≡ sibling_in w.now caps h.0 }
{
    Half(sibling_word(w, caps, h) / 4)
}

// The way that it runs.
pub fn way_of(w: &[u32], caps: Caps, h: Half) -> Way
    ensures { result ≡ way_in w.now caps h.0 }
{
    match sibling_word(w, caps, h) % 4 {
        0 => Way::Lone,
        1 => Way::Same,
        2 => Way::Opposite,
        _ => Way::Neither,
    }
}

pub fn write_sibling(w: &mut [u32], caps: Caps, h: Half, x: Half, way: Way)
    ensures { w.new ≡ written w.old caps (InCell (h.0 / 8) (Sib (h.0 % 8))) (packed x.0 way) }
{
    let c = cell_of(h);
    let f = facet_of(h);
    if caps.cells <= c.0 {
        return;
    }
    if MOST_FACETS <= f {
        return;
    }
    put(
        w,
        near_at(caps, c) + (5 + (f as usize)),
        4 * (x.0 % PAST_HALVES) + way_number(way),
    );
}

// The link at a corner of a cell.
pub fn link_of(w: &[u32], caps: Caps, c: Cell, k: u32) -> u32
    ensures { result ≡ read w.now caps (InCell c.0 (Link k)) }
{
    if k < NEAR_MARKS {
        return word(w, near_at(caps, c) + (11 + (k as usize)));
    }
    word(w, far_at(caps, c) + (4 + (k as usize)))
}

pub fn write_link(w: &mut [u32], caps: Caps, c: Cell, k: u32, x: u32)
    ensures { w.new ≡ written w.old caps (InCell c.0 (Link k)) x }
{
    if caps.cells <= c.0 {
        return;
    }
    if MOST_MARKS <= k {
        return;
    }
    if k < NEAR_MARKS {
        put(w, near_at(caps, c) + (11 + (k as usize)), x);
        return;
    }
    put(w, far_at(caps, c) + (4 + (k as usize)), x);
}

// Whether the words at these places are 0.
fn blank_at(w: &[u32], places: &[usize]) -> bool
    ensures { result ≡ all (λ i. eqb (get_or w.now i 0) 0) places.now }
{
    places.iter().all(|place| word(w, *place) == 0)
}

// Whether the words that say nothing are 0: of the head, of a mark's record, of a cell's.
pub fn head_blank(w: &[u32], caps: Caps) -> bool
    ensures { result ≡ head_blank w.now caps }
{
    let places = [4usize, 12, 13, 14, 15];
    blank_at(w, &places)
}

pub fn mark_blank(w: &[u32], caps: Caps, v: Mark) -> bool
    ensures { result ≡ mark_blank w.now caps v.0 }
{
    let at = mark_at(v);
    let places = [at + 5, at + 6, at + 7];
    blank_at(w, &places)
}

pub fn cell_blank(w: &[u32], caps: Caps, c: Cell) -> bool
    ensures { result ≡ cell_blank w.now caps c.0 }
{
    let far = far_at(caps, c);
    let places = [far + 12, far + 13, far + 14, far + 15];
    blank_at(w, &places)
}
