// The map: what the outline's words mean, and what each call answers.
//
// What is here: in specs/ the definitions, over the live cells alone (Cells, Siblings, Groups, Stars), the
// answers with their refusals in the listed order (Answers, Free), the history (History), a morning's edits (Morning) and the twelve cases (Cases); in
// src/ the refusals and the ways of a sibling, each with the outline's number in specs/Says.antt and specs/Ways.antt: an answer is a `Result`,
// and its error a refusal, or one with its place. What is proved: `number_of` and `way_number` give that number; the twelve cases hold
// (proofs/Cases.antt); an answer of the outline is that of one `Result` alone (proofs/Says.antt). What a caller should know: the laws of these definitions are in crate `laws`.
#![tactic(auto)]

ghost use Rattle.std.specs.Prelude.{◌≡◌};
ghost use Rattle.map.specs.Says.{number_of};
ghost use Rattle.map.specs.Ways.{way_number};

// Why a call is refused: a row of the outline's table each, in its order.
#[derive(Clone, Copy)]
pub enum Refusal {
    CapacityAbove,
    MemoryShort,
    CellOutside,
    CellLive,
    CellNotLive,
    TypeUnknown,
    CountWrong,
    MarkOutside,
    MarkTwice,
    CellSame,
    MarkFull,
    OutputShort,
    FacetOutside,
    NotMesh,
    BadFrame,
    PositionsShort,
    FaceFull,
    DayBefore,
    DayFolded,
    FoldNotAllowed,
    JournalFull,
}

// The outline's number of a refusal.
pub fn number_of(r: Refusal) -> u32
    ensures { result ≡ number_of r }
{
    match r {
        Refusal::CapacityAbove => 1,
        Refusal::MemoryShort => 2,
        Refusal::CellOutside => 3,
        Refusal::CellLive => 4,
        Refusal::CellNotLive => 5,
        Refusal::TypeUnknown => 6,
        Refusal::CountWrong => 7,
        Refusal::MarkOutside => 8,
        Refusal::MarkTwice => 9,
        Refusal::CellSame => 10,
        Refusal::MarkFull => 11,
        Refusal::OutputShort => 12,
        Refusal::FacetOutside => 13,
        Refusal::NotMesh => 14,
        Refusal::BadFrame => 15,
        Refusal::PositionsShort => 16,
        Refusal::FaceFull => 19,
        Refusal::DayBefore => 20,
        Refusal::DayFolded => 21,
        Refusal::FoldNotAllowed => 22,
        Refusal::JournalFull => 23,
    }
}

// Which way the sibling of a half-facet runs.
#[derive(Clone, Copy)]
pub enum Way {
    Lone,
    Same,
    Opposite,
    Neither,
}

// The number of a way: "0 to 3 in that order".
pub fn way_number(way: Way) -> u32
    ensures { result ≡ way_number way }
{
    match way {
        Way::Lone => 0,
        Way::Same => 1,
        Way::Opposite => 2,
        Way::Neither => 3,
    }
}

// Why a build is refused, and the place of its record, from 0.
#[derive(Clone, Copy)]
pub struct Unbuilt {
    pub why: Refusal,
    pub place: u32,
}

// Why a list of edits stopped, and how many were made before.
#[derive(Clone, Copy)]
pub struct Stopped {
    pub made: usize,
    pub why: Refusal,
}
