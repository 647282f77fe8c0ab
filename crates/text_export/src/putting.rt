// The list of a card, put into an output part by part.
ghost use Rattle.std.specs.Prelude.{◌≡◌, true, ◌++◌, map, ◌+◌, ◌≤◌, ◌<◌, length};
ghost use Rattle.base_answers.specs.Answer.{given};
ghost use Rattle.base_letters.specs.Letters.{letter_of};
ghost use Rattle.card_entries.specs.Fault.{most_length};
ghost use Rattle.build_sequence.specs.Build.{letters_of};
ghost use Rattle.card_entries.specs.Bounds.{most_entries};
ghost use Rattle.card_reader.specs.Fetching.{admission};
ghost use Rattle.base_text.specs.Text.{decimal};
ghost use Rattle.base_text.specs.Putting.{Put};
ghost use Rattle.text_probes.specs.Line.{listed_text, line_text, is_small};
ghost use Rattle.text_export.specs.Exporting.{listed_for, line_for, list_of};

use card_entries::{Format, Slot};
use text_probes::line::Marked;

// How many codes there are.
const CODES: u32 = 4;

// Two numbers, with a mark between them.
fn put_both(out: &mut [u8], at: usize, p: u16, mark: &[u8], q: u16) -> usize
    requires { at + length (decimal p ++ (mark.now ++ decimal q)) ≤ length out.old }
    ensures { Put (decimal p ++ (mark.now ++ decimal q)) at out.old result out.new }
{
    let mark_at = base_text::put_digits(out, at, usize::from(p));
    let q_at = base_text::put_text(out, mark_at, mark);
    base_text::put_digits(out, q_at, usize::from(q))
}

// What is listed.
fn put_listed(out: &mut [u8], at: usize, listed: Marked) -> usize
    requires { at + length (listed_text listed) ≤ length out.old }
    ensures { Put (listed_text listed) at out.old result out.new }
{
    match listed {
        Marked::Bare(p) => base_text::put_digits(out, at, usize::from(p)),
        Marked::Two(p, q) => put_both(out, at, p, b",", q),
        Marked::Run(p, q) => put_both(out, at, p, b"-", q),
    }
}

// The letters of a word, from the last to the first.
fn put_word(out: &mut [u8], at: usize, l: usize, word: u32) -> usize
    requires { (0 < l) × (l ≤ most_length) × (at + l ≤ length out.old) }
    ensures { Put (map letter_of (letters_of l word)) at out.old result out.new }
{
    let end = at + l;
    let mut v = word;
    for i in (at..end).rev() {
        out[i] = base_letters::letter_of((v % CODES) as usize);
        v /= CODES;
    }
    end
}

// The line of an entry.
fn put_line(out: &mut [u8], at: usize, kind: usize, l: usize, s: Slot) -> usize
    requires fine { (0 < l) × (l ≤ most_length) × (is_small (listed_for kind s) ≡ true) }
    requires room { at + length (line_text (line_for kind l s)) ≤ length out.old }
    ensures { Put (line_text (line_for kind l s)) at out.old result out.new }
{
    let tab_at = put_word(out, at, l, s.word);
    let listed_at = base_text::put_text(out, tab_at, b"\t");
    let newline_at = put_listed(out, listed_at, crate::listed_for(kind, s));
    base_text::put_text(out, newline_at, b"\n")
}

// The list of an admitted card, over all of an output of just its length.
pub fn put_lines(card: &[u8], f: Format, out: &mut [u8])
    requires { (admission most_entries card.now ≡ given f) × (length out.old ≡ length (list_of card.now)) }
    ensures { out.new ≡ list_of card.now }
{
    let mut at = 0;
    for e in 0..f.m {
        at = put_line(out, at, f.kind, f.l, card_layout::slot_of(card, e));
    }
}
