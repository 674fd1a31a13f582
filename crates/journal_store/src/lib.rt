// The journal in lent words: a head of 16 words, then 16 words an edit.
//
// What is here: `is_journal` tells whether memory is a journal of given capacities; for each word of the head and of an entry that others ask
// for one reader (`entries_of`, `day_of`, ..), and what it stands for (`was_entered`, `kind_at`, ..); `write_head` and `write_entry` write the
// words of a head and of an entry, `put_head` and `put_entry` those of a `Head` and of an `Entry`, `move_entries` moves entries to the front,
// `copy_words` copies words. All are total. What is proved: each answer is told by specs/Journals.antt and specs/Told.antt, and all memory as
// it is left by specs/Writes.antt. What a caller should know: specs/Days.antt says what the days mean, over the list of dated edits alone;
// other crates of the library ask for what a word stands for, so that none knows a word's number, nor the number of a kind.
#![tactic(auto)]

ghost use Rattle.std.specs.Prelude.{◌≡◌, ◌+◌, get_or, leb, length, ltb};
ghost use Rattle.journal_store.specs.Entries.{entry_at, head_of, entry_of, places_of, used_of};
ghost use Rattle.journal_store.specs.Journals.{entries_in, last_in, ever_in, fold_in, day_in, type_in, licence_in, is_journal, Counted};
ghost use Rattle.journal_store.specs.Told.{kind_word, KindTold, fold_word, FoldTold, head_told, entry_told};
ghost use Rattle.journal_store.specs.Writes.{Copied, Moved};

use numbers::{Caps, Cell};
use words::{part, put, word};

// The first word of a journal.
const MAGIC: u32 = 1296780874;

// The words of the head, and of an entry.
pub const HEAD_WORDS: usize = 16;

const ENTRY_WORDS: usize = 16;

// No journal counts more entries.
const MOST_ENTRIES: usize = 4294967295;

// An entry's first words, and those behind them, which begin with the marks.
const FIRST_WORDS: usize = 5;

const MARK_WORDS: usize = 11;

// The words of the two kinds.
const INSERT: u32 = 1;

const REMOVE: u32 = 2;

// What an entry does.
#[derive(Clone, Copy)]
pub enum Kind {
    Insert,
    Remove,
}

// An edit with its day. One that removes has no type, no licence and no marks.
#[derive(Clone, Copy)]
pub struct Entry<'a> {
    pub day: u32,
    pub kind: Kind,
    pub cell: Cell,
    pub code: u32,
    pub licence: u32,
    pub marks: &'a [u32],
}

// What a head tells: how many entries, the day of the last edit, whether one was ever entered, the day of the last fold.
#[derive(Clone, Copy)]
pub struct Head {
    pub entries: u32,
    pub last: u32,
    pub ever: bool,
    pub fold: Option<u32>,
}

// How many entries fit in so many words.
pub fn places_of(words: usize) -> u32
    ensures { result ≡ places_of words }
{
    let n = words / 16;
    if n < 1 {
        return 0;
    }
    if MOST_ENTRIES < n - 1 {
        return 4294967295;
    }
    (n - 1) as u32
}

// The words that a journal uses, of so many.
pub fn used_of(words: usize) -> usize
    ensures { result ≡ used_of words }
{
    HEAD_WORDS + ENTRY_WORDS * (places_of(words) as usize)
}

// Whether memory is a journal of these capacities and this edition.
pub fn is_journal(j: &[u32], caps: Caps) -> bool
    ensures { result ≡ is_journal j.now caps }
{
    if j.len() < HEAD_WORDS {
        return false;
    }
    if word(j, 0) != MAGIC {
        return false;
    }
    if word(j, 1) != caps.marks {
        return false;
    }
    if word(j, 2) != caps.cells {
        return false;
    }
    if word(j, 3) != caps.edition {
        return false;
    }
    entries_of(j) <= places_of(j.len())
}

// The entries, counted.
pub fn entries_of(j: &[u32]) -> u32
    ensures { result ≡ entries_in j.now }
{
    word(j, 4)
}

// The day of the last edit that was entered.
pub fn last_of(j: &[u32]) -> u32
    ensures { result ≡ last_in j.now }
{
    word(j, 5)
}

// The word that tells whether an edit was ever entered: 1 if one was.
pub fn ever_of(j: &[u32]) -> u32
    ensures { result ≡ ever_in j.now }
{
    word(j, 6)
}

// Whether an edit was ever entered.
pub fn was_entered(j: &[u32]) -> bool
    ensures { result ≡ ltb 0 (ever_in j.now) }
{
    0 < ever_of(j)
}

// Whether the word that tells it is 0 or 1, as it is left here.
pub fn ever_is_told(j: &[u32]) -> bool
    ensures { result ≡ leb (ever_in j.now) 1 }
{
    ever_of(j) <= 1
}

// The first day that was not folded.
pub fn first_of(j: &[u32]) -> u32
    ensures { result ≡ fold_in j.now }
{
    word(j, 7)
}

// The day of the last fold; a head that is written with it has the same word.
pub fn fold_of(j: &[u32]) -> Option<u32>
    ensures told { FoldTold (fold_in j.now) result }
    ensures written { fold_word result ≡ fold_in j.now }
{
    first_of(j).checked_sub(1)
}

// Where an entry begins.
fn entry_at(k: u32) -> usize
    ensures { result ≡ entry_at k }
{
    HEAD_WORDS + ENTRY_WORDS * (k as usize)
}

// The day of an entry.
pub fn day_of(j: &[u32], k: u32) -> u32
    ensures { result ≡ day_in j.now k }
{
    word(j, entry_at(k))
}

// The word of its edit's kind.
pub fn kind_of(j: &[u32], k: u32) -> u32
    ensures { result ≡ get_or j.now (entry_at k + 1) 0 }
{
    word(j, entry_at(k) + 1)
}

// The kind of its edit; none where its word tells none.
pub fn kind_at(j: &[u32], k: u32) -> Option<Kind>
    ensures { KindTold (get_or j.now (entry_at k + 1) 0) result }
{
    match kind_of(j, k) {
        INSERT => Some(Kind::Insert),
        REMOVE => Some(Kind::Remove),
        _ => None,
    }
}

// The cell, the type, the licence.
pub fn cell_of(j: &[u32], k: u32) -> u32
    ensures { result ≡ get_or j.now (entry_at k + 2) 0 }
{
    word(j, entry_at(k) + 2)
}

pub fn type_of(j: &[u32], k: u32) -> u32
    ensures { result ≡ type_in j.now k }
{
    word(j, entry_at(k) + 3)
}

pub fn licence_of(j: &[u32], k: u32) -> u32
    ensures { result ≡ licence_in j.now k }
{
    word(j, entry_at(k) + 4)
}

// Where its marks begin.
pub fn marks_at(k: u32) -> usize
    ensures { result ≡ entry_at k + 5 }
{
    entry_at(k) + FIRST_WORDS
}

// The first n words of `from`, 0 past its end, copied to the places from `at` on.
pub fn copy_words(from: &[u32], to: &mut [u32], at: usize, n: usize)
    ensures { Copied from.now at n to.old to.new }
{
    if to.len() <= at {
        return;
    }
    let places = n.min(to.len() - at);
    let copied = places.min(from.len());
    // not `copy_from_slice`, for which an archive for C would want memmove from outside
    for i in 0..copied {
        to[at + i] = from[i];
    }
    to[at + copied..at + places].fill(0);
}

// The head of a journal, all its 16 words.
pub fn write_head(j: &mut [u32], caps: Caps, entries: u32, last: u32, ever: u32, fold: u32)
    ensures { Copied (head_of caps entries last ever fold) 0 16 j.old j.new }
{
    let words = [
        MAGIC,
        caps.marks,
        caps.cells,
        caps.edition,
        entries,
        last,
        ever,
        fold,
    ];
    copy_words(&words, j, 0, HEAD_WORDS);
}

// The word of a last fold.
fn fold_word(fold: Option<u32>) -> u32
    ensures { result ≡ fold_word fold }
{
    match fold {
        Some(day) => day.saturating_add(1),
        None => 0,
    }
}

// The head of a journal, by what it tells.
pub fn put_head(j: &mut [u32], caps: Caps, head: Head)
    ensures { Copied (head_told caps head) 0 16 j.old j.new }
{
    let fold = fold_word(head.fold);
    write_head(j, caps, head.entries, head.last, head.ever as u32, fold);
}

// An entry, all its 16 words.
pub fn write_entry(
    j: &mut [u32],
    k: u32,
    day: u32,
    kind: u32,
    c: Cell,
    t: u32,
    licence: u32,
    marks: &[u32],
)
    ensures { Copied (entry_of day kind c.0 t licence marks.now) (entry_at k) 16 j.old j.new }
{
    let words = [day, kind, c.0, t, licence];
    let at = entry_at(k);
    copy_words(&words, j, at, FIRST_WORDS);
    copy_words(marks, j, at + FIRST_WORDS, MARK_WORDS);
}

// The word of a kind.
fn kind_word(kind: Kind) -> u32
    ensures { result ≡ kind_word kind }
{
    match kind {
        Kind::Insert => INSERT,
        Kind::Remove => REMOVE,
    }
}

// An entry, by what it is.
pub fn put_entry(j: &mut [u32], k: u32, dated: Entry<'_>)
    ensures { Copied (entry_told dated.entry) (entry_at k) 16 j.old j.new }
{
    let kind = kind_word(dated.kind);
    write_entry(
        j,
        k,
        dated.day,
        kind,
        dated.cell,
        dated.code,
        dated.licence,
        dated.marks,
    );
}

// Of n entries the first k are taken out, and the others moved to the front.
pub fn move_entries(j: &mut [u32], n: u32, k: u32)
    ensures { Moved n k j.old j.new }
{
    let all = ENTRY_WORDS * (n as usize);
    let gone = ENTRY_WORDS * (k as usize);
    for i in 0..all {
        let moved = word(part(j, 0, HEAD_WORDS + all), HEAD_WORDS + i + gone);
        put(j, HEAD_WORDS + i, moved);
    }
}

// How many of the first n entries are of the day or earlier, up to the first that is not.
pub fn count_up_to(j: &[u32], n: u32, day: u32) -> u32
    ensures { Counted j.now n day result }
{
    (0..n).find(|k| day < day_of(j, *k)).unwrap_or(n)
}
