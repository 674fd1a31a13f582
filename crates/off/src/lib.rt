// Surfaces as OFF text: the words of a text, what each says, and numbers written.
//
// What is here: `next_word` finds the next word of a lent text from a cursor on; `read_number`, `read_coordinate`, `read_size` and `is_title` say what a word means, or
// that it breaks the form; `write_number` and `write_coordinate` write digits at a place of a lent output. None has a `requires`. What is proved: each
// answer is that of specs/ (Words, Numbers, Writing); a whole text is read by specs/Reading.antt, with the byte place of the first word that
// breaks the form, and what specs/Writing.antt writes is read back as it was (proofs/Round.antt); worked texts stand in
// proofs/Example.antt. What a caller should know: a word is the part of the text from its first place to the cursor behind it; what is
// written past the end of the output is left out.
#![tactic(auto)]

ghost use Rattle.std.specs.Prelude.{◌≡◌, ◌+◌, drop};
ghost use Rattle.lists.specs.Lists.{same};
ghost use Rattle.off.specs.Words.{parts, words_from};
ghost use Rattle.off.specs.Numbers.{number_of, coordinate_of, size_of, title};
ghost use Rattle.off.specs.Scan.{gap, run, digit_of};
ghost use Rattle.off.specs.Writing.{digits_to, digits_of, coordinate_text};
ghost use Rattle.frames.specs.Forms.{Appended};
ghost use Rattle.off.specs.Forms.{next_of, said};

use frames::add;

// A place of a text, from which it is read on.
#[derive(Clone, Copy)]
pub struct Cursor {
    pub at: usize,
}

// Where a word stands: its first place, and the cursor right behind it.
#[derive(Clone, Copy)]
pub struct Span {
    pub first: usize,
    pub behind: Cursor,
}

// A space or a line end.
#[tactic(auto, unfolding(crate::specs::Words::parts))]
fn parts_words(b: u8) -> bool
    ensures { result ≡ parts b }
{
    b == b' ' || b == b'\n'
}

// The first place from `at` on where no byte parts words.
fn skip(text: &[u8], at: usize) -> usize
    ensures { result ≡ at + gap (drop at text.now) }
{
    for i in at..text.len() {
        if !parts_words(text[i]) {
            return i;
        }
    }
    at.max(text.len())
}

// The first place from `at` on where a byte parts words.
fn past(text: &[u8], at: usize) -> usize
    ensures { result ≡ at + run (drop at text.now) }
{
    for i in at..text.len() {
        if parts_words(text[i]) {
            return i;
        }
    }
    at.max(text.len())
}

// The next word of a text.
pub fn next_word(text: &[u8], from: Cursor) -> Option<Span>
    ensures { result ≡ next_of (words_from from.at (drop from.at text.now)) }
{
    let first = skip(text, from.at);
    if text.len() <= first {
        return None;
    }
    let behind = Cursor {
        at: past(text, first),
    };
    Some(Span { first, behind })
}

// The value of a digit.
#[tactic(auto, unfolding(crate::specs::Scan::digit_of, crate::specs::Numbers::is_digit))]
fn digit(b: u8) -> Option<u32>
    ensures { result ≡ digit_of b }
{
    match b {
        b'0'..=b'9' => Some((b - b'0') as u32),
        _ => None,
    }
}

// The number of a word.
pub fn read_number(word: &[u8]) -> Option<u32>
    ensures { result ≡ said (number_of word.now) }
{
    if word.len() == 0 || 6 < word.len() {
        return None;
    }
    let mut n = 0;
    for b in word {
        n = 10 * n + digit(*b)?;
    }
    Some(n)
}

// The size of a face: the number of a word, where it is 3 or 4.
pub fn read_size(word: &[u8]) -> Option<u32>
    ensures { result ≡ said (size_of word.now) }
{
    read_number(word).filter(|size| *size == 3 || *size == 4)
}

// The word OFF.
pub fn is_title(word: &[u8]) -> bool
    ensures { result ≡ same word.now title }
{
    word == b"OFF".as_slice()
}

// The coordinate of a word.
pub fn read_coordinate(word: &[u8]) -> Option<i16>
    ensures { result ≡ said (coordinate_of word.now) }
{
    if word.is_empty() {
        return None;
    }
    if word[0] == b'-' {
        let n = read_number(&word[1..])?;
        return i16::try_from(-(n as i32)).ok();
    }
    let n = read_number(word)?;
    i16::try_from(n).ok()
}

// The digits of a number, at most `more` besides the last.
fn add_digits(out: &mut [u8], at: usize, more: u32, n: u32) -> usize
    ensures { Appended (digits_to more n) out.old at result out.new }
{
    if more == 0 {
        return add(out, at, b'0' + (n % 10) as u8);
    }
    if n < 10 {
        return add(out, at, b'0' + n as u8);
    }
    let next = add_digits(out, at, more - 1, n / 10);
    add(out, next, b'0' + (n % 10) as u8)
}

// The digits of a number below 1,000,000; the place after them.
pub fn write_number(out: &mut [u8], at: usize, n: u32) -> usize
    ensures { Appended (digits_of n) out.old at result out.new }
{
    add_digits(out, at, 5, n)
}

// The text of a coordinate; the place after it.
pub fn write_coordinate(out: &mut [u8], at: usize, z: i16) -> usize
    ensures { Appended (coordinate_text z) out.old at result out.new }
{
    if z < 0 {
        let next = add(out, at, b'-');
        return write_number(out, next, (0 - z as i32) as u32);
    }
    write_number(out, at, z as u32)
}
