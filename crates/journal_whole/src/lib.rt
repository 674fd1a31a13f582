// The whole check of a journal and its starting map.
//
// What is here: `whole_journal` says whether journal and starting map are what the calls leave: the starting map by its own whole check, the
// journal word by word. It has no `requires`, and writes nothing. What is proved: it says yes exactly if the two are filed, for some map and
// some dated edits (`Filed`, crates/journal/specs/Kept.antt). What a caller should know: that each entry would be accepted at its turn is not
// part of it: an entry that is refused when it is replayed changes nothing.
#![tactic(auto)]

ghost use Rattle.std.specs.Prelude.{◌≡◌, ◌||◌, ◌+◌, eqb, leb};
ghost use Rattle.journal_store.specs.Journals.{fold_in};
ghost use Rattle.journal_whole.specs.Checks.{Zeros, EntryGood, EntriesGood, head_good, WholeJournal};

use journal_store::{
    HEAD_WORDS, Kind, day_of, entries_of, ever_is_told, first_of, fold_of, is_journal, kind_at,
    last_of, licence_of, marks_at, type_of, used_of, was_entered,
};
use shapes::mark_count;
use store::open;
use whole::whole;
use words::part;

// The largest day number.
const MOST_DAY: u32 = 65535;

// So many days at least lie between the last fold and the last day.
const KEPT_DAYS: usize = 366;

// The words of an entry from its marks on.
const MARK_WORDS: usize = 11;

// Whether the words from a place on, n of them, are 0.
fn zeros(j: &[u32], at: usize, n: usize) -> bool
    ensures { Zeros j.now at n result }
{
    // past the end is 0
    let start = at.min(j.len());
    let within = n.min(j.len() - start);
    part(j, start, within).iter().all(|x| *x == 0)
}

// Whether the words of an entry are those of an edit.
fn entry_good(j: &[u32], k: u32) -> bool
    ensures { EntryGood j.now k result }
{
    let t = type_of(j, k);
    let at = marks_at(k);
    match kind_at(j, k) {
        Some(Kind::Insert) => {
            let n = mark_count(t) as usize;
            zeros(j, at + n, MARK_WORDS - n)
        }
        Some(Kind::Remove) => t == 0 && licence_of(j, k) == 0 && zeros(j, at, MARK_WORDS),
        None => false,
    }
}

// Whether the first n entries are edits of days in their order, none before the first day that was not folded.
fn entries_good(j: &[u32], n: u32, first: u32) -> bool
    ensures { EntriesGood j.now n first result }
{
    let mut last = first;
    for k in 0..n {
        let day = day_of(j, k);
        if day < last {
            return false;
        }
        if !entry_good(j, k) {
            return false;
        }
        last = day;
    }
    true
}

// Whether a year of days stays behind the last fold, if there is one.
fn year_stays(j: &[u32], last: u32) -> bool
    ensures { result ≡ (eqb (fold_in j.now) 0 || leb (fold_in j.now + 365) last) }
{
    match fold_of(j) {
        Some(fold) => (fold as usize) + KEPT_DAYS <= last as usize,
        None => true,
    }
}

// Whether the head agrees with the entries.
fn head_good(j: &[u32]) -> bool
    ensures { result ≡ head_good j.now }
{
    let n = entries_of(j);
    let last = last_of(j);
    if n == 0 {
        return last == 0 && !was_entered(j) && first_of(j) == 0;
    }
    was_entered(j)
        && ever_is_told(j)
        && last == day_of(j, n - 1)
        && last <= MOST_DAY
        && year_stays(j, last)
}

// Whether journal and starting map are filed, for some map and some dated edits.
pub fn whole_journal(j: &[u32], start: &[u32]) -> bool
    ensures { WholeJournal j.now start.now result }
{
    let Ok(caps) = open(start) else {
        return false;
    };
    if !is_journal(j, caps) {
        return false;
    }
    if !head_good(j) {
        return false;
    }
    if !zeros(j, 8, 8) {
        return false;
    }
    let n = entries_of(j);
    if !entries_good(j, n, first_of(j)) {
        return false;
    }
    let at = HEAD_WORDS + 16 * (n as usize);
    let used = used_of(j.len());
    if used < at {
        return false;
    }
    if !zeros(j, at, used - at) {
        return false;
    }
    whole(start)
}
