// Exporting a card to a probe list: from an admitted card to its text at the start of a lent output. `export` has no `requires`: it tests
// its own input. `measuring` says how long the list is, `putting` puts it.
#![tactic(auto)]

mod measuring;
mod putting;

ghost use Rattle.std.specs.Prelude.{◌≡◌, true};
ghost use Rattle.base_answers.specs.Answer.{given, says};
ghost use Rattle.card_entries.specs.Bounds.{most_entries};
ghost use Rattle.card_reader.specs.Fetching.{admission};
ghost use Rattle.text_probes.specs.Line.{is_small};
ghost use Rattle.text_export.specs.Exporting.{listed_for, Exports};

use base_answers::Refusal;
use card_entries::{Format, Places, Slot};
use text_probes::line::Marked;

// No line of a card has more bytes: 12 letters, a tab, two numbers of at most five digits with a mark between them, and a newline.
const MOST_LINE: usize = card_entries::MOST_LENGTH + 13;
// Room for the list of every card.
pub const LIST: usize = MOST_LINE * card_entries::MOST;

// What is listed of an entry on a list of this kind.
fn listed_for(kind: usize, s: Slot) -> Marked
    requires { is_small (listed_for kind s) ≡ true }
    ensures { result ≡ listed_for kind s }
{
    match card_entries::entry_of(kind, s).places {
        Places::One(p) => Marked::Bare(p + 1),
        Places::Two(p, q) => Marked::Two(p + 1, q + 1),
        Places::Span(p, q) => Marked::Run(p + 1, q + 1),
    }
}

// Exports an admitted card.
fn export_card(card: &[u8], f: Format, out: &mut [u8]) -> Result<usize, Refusal>
    requires { admission most_entries card.now ≡ given f }
    ensures { Exports most_entries card.now out.old (says result) out.new }
{
    let n = measuring::text_length(card, f);
    if out.len() < n {
        return Err(Refusal::Room);
    }
    putting::put_lines(card, f, &mut out[..n]);
    Ok(n)
}

// The probe list of a card at the start of the output, with its length; or the refusal, and then no byte of the output differs.
pub fn export(card: &[u8], out: &mut [u8]) -> Result<usize, Refusal>
    ensures { Exports most_entries card.now out.old (says result) out.new }
{
    let f = card_reader::admit(card)?;
    export_card(card, f, out)
}
