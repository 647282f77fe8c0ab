// A line, read from left to right.
ghost use Rattle.std.specs.Prelude.{◌≡◌, ◌≤◌, length, drop};
ghost use Rattle.base_letters.specs.Letters.{code_of};
ghost use Rattle.text_probes.specs.Reading.{read_marked, read_listed, after, read_first};
ghost use Rattle.text_probes.specs.Says.{
  Reads,
  says_read,
  end_of,
  says_lined,
  code_in,
  line_end,
  told_of,
  stands,
  Spelled,
};

use crate::number;

// With a letter more, the value of a word below this has 32 bits.
const KEPT: u32 = 1073741824;

// What a line lists: one place, two places, or a run from its first place to its last; as they are listed, counted from 1.
// `Places` of card_entries is another: a bare place is one place or a run of one, by the kind of the list.
#[derive(Clone, Copy)]
pub enum Marked {
    Bare(u16),
    Two(u16, u16),
    Run(u16, u16),
}

// A word: its value, of a long one that of its last letters, and where the text goes on.
#[derive(Clone, Copy)]
pub struct Word {
    pub value: u32,
    pub end: usize,
}

// What a line says: how many letters its word has, the word's value, of a long one that of its last letters, and its places; and where the text
// goes on.
#[derive(Clone, Copy)]
pub struct Probe {
    pub letters: usize,
    pub word: u32,
    pub listed: Marked,
    pub end: usize,
}

// The code of a letter, and 0 for any other byte.
#[tactic(auto, using(crate::proofs::WordCursor::code_below))]
fn code_in(byte: u8) -> u32
    ensures { result ≡ code_in (code_of byte) }
{
    match base_letters::code_of(byte) {
        Some(code) => code as u32,
        None => 0,
    }
}

// The letters that stand from `at` on. Each byte is tested before its code is asked: by the code alone the compiler jumps through a table at each
// letter, and importing a list took a third longer.
#[tactic(auto, using(crate::proofs::WordCursor::spelling_end))]
fn read_word(text: &[u8], at: usize) -> Word
    requires { at ≤ length text.now }
    ensures { Spelled text.now at result }
{
    let mut value = 0;
    for end in at..text.len() {
        if !base_letters::is_letter(text[end]) {
            return Word { value, end };
        }
        value = 4 * (value % KEPT) + code_in(text[end]);
    }
    Word {
        value,
        end: text.len(),
    }
}

// What is listed where its first number is p, and what follows that stands from `at` on.
#[tactic(auto, using(crate::proofs::Cursor::byte_there), unfolding(crate::specs::Reading::read_marked))]
fn read_marked(text: &[u8], at: usize, p: u16) -> Option<(Marked, usize)>
    requires { at ≤ length text.now }
    ensures { Reads text.now (says_read text.now result) (read_marked p (drop at text.now)) (end_of result) }
{
    if text.len() <= at {
        return Some((Marked::Bare(p), at));
    }
    let byte = text[at];
    if byte != b',' && byte != b'-' {
        return Some((Marked::Bare(p), at));
    }
    let (q, end) = number::read_number(text, at + 1)?;
    let listed = if byte == b',' {
        Marked::Two(p, q)
    } else {
        Marked::Run(p, q)
    };
    Some((listed, end))
}

// What is listed from `at` on.
#[tactic(auto, unfolding(crate::specs::Reading::read_listed))]
fn read_listed(text: &[u8], at: usize) -> Option<(Marked, usize)>
    ensures { Reads text.now (says_read text.now result) (read_listed (drop at text.now)) (end_of result) }
{
    let (p, end) = number::read_number(text, at)?;
    read_marked(text, end, p)
}

// Whether a byte stands at `at`.
#[tactic(auto, using(crate::proofs::Cursor::byte_there), unfolding(crate::specs::Reading::after))]
fn stands_at(text: &[u8], at: usize, byte: u8) -> bool
    ensures { result ≡ stands (after byte (drop at text.now)) }
{
    at < text.len() && text[at] == byte
}

// The line that begins at `at`.
#[tactic(auto, using(crate::proofs::Cursor::parts_there), unfolding(crate::specs::Reading::read_first))]
pub fn read_line(text: &[u8], at: usize) -> Option<Probe>
    requires { at ≤ length text.now }
    ensures { Reads text.now (says_lined text.now result) (told_of (read_first (drop at text.now))) (line_end result) }
{
    let w = read_word(text, at);
    let tab = w.end;
    if tab == at || !stands_at(text, tab, b'\t') {
        return None;
    }
    let (listed, newline) = read_listed(text, tab + 1)?;
    if !stands_at(text, newline, b'\n') {
        return None;
    }
    Some(Probe {
        letters: tab - at,
        word: w.value,
        listed,
        end: newline + 1,
    })
}
