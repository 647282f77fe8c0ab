// How long the list of a card is.
ghost use Rattle.std.specs.Prelude.{◌≡◌, true, ◌+◌, ◌≤◌, length};
ghost use Rattle.base_answers.specs.Answer.{given};
ghost use Rattle.card_entries.specs.Fault.{most_length};
ghost use Rattle.card_entries.specs.Bounds.{most_entries};
ghost use Rattle.card_reader.specs.Fetching.{admission};
ghost use Rattle.base_text.specs.Text.{decimal};
ghost use Rattle.text_probes.specs.Line.{listed_text, line_text, is_small};
ghost use Rattle.text_export.specs.Exporting.{listed_for, line_for, list_of};

use card_entries::{Format, Slot};
use text_probes::line::Marked;

// Of two numbers, with a mark between them.
fn both_length(p: u16, q: u16) -> usize
    ensures { result ≡ length (decimal p) + 1 + length (decimal q) }
{
    base_text::digits_in(usize::from(p)) + 1 + base_text::digits_in(usize::from(q))
}

// Of what is listed.
fn listed_length(listed: Marked) -> usize
    ensures { result ≡ length (listed_text listed) }
{
    match listed {
        Marked::Bare(p) => base_text::digits_in(usize::from(p)),
        Marked::Two(p, q) | Marked::Run(p, q) => both_length(p, q),
    }
}

// Of the line of an entry.
fn line_length(kind: usize, l: usize, s: Slot) -> usize
    requires { (l ≤ most_length) × (is_small (listed_for kind s) ≡ true) }
    ensures { result ≡ length (line_text (line_for kind l s)) }
{
    l + 2 + listed_length(crate::listed_for(kind, s))
}

// Of the list of an admitted card.
pub fn text_length(card: &[u8], f: Format) -> usize
    requires { admission most_entries card.now ≡ given f }
    ensures { result ≡ length (list_of card.now) }
{
    let mut n = 0;
    for e in 0..f.m {
        n += line_length(f.kind, f.l, card_layout::slot_of(card, e));
    }
    n
}
