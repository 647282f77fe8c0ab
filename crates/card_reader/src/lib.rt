// The card's reader, over the block layer's promise and the entries': admit a card, fetch an entry, step a reading head, admit into lent
// lists. No function that the scope names has a `requires`: each tests its own input.
#![tactic(auto)]

pub mod listing;
mod reading;

ghost use Rattle.std.specs.Prelude.{◌≡◌};
ghost use Rattle.card_entries.specs.Bounds.{most_entries};
ghost use Rattle.base_answers.specs.Answer.{says};
ghost use Rattle.card_reader.specs.Fetching.{admission, entry_fetch, stepping, says_stepped};

use base_answers::Refusal;
use card_entries::{Entry, Format};

// A reading head: the index of the entry that the next step hands back, from 0.
#[derive(Clone, Copy)]
pub struct Head {
    pub at: usize,
}

// The kind, l and m of a card, or the first rule that it breaks.
#[tactic(auto, using(crate::proofs::FetchingLaws::admissions))]
pub fn admit(card: &[u8]) -> Result<Format, Refusal>
    ensures { says result ≡ admission most_entries card.now }
{
    reading::card_holds(card)?;
    Ok(card_layout::told_by(card))
}

// Entry i of a card, from 0: the card is admitted first, and an entry that it has not is absent.
#[tactic(auto, using(crate::proofs::FetchingLaws::fetches))]
pub fn fetch_entry(card: &[u8], i: usize) -> Result<Entry, Refusal>
    ensures { says result ≡ entry_fetch most_entries card.now i }
{
    let f = admit(card)?;
    if i < f.m {
        Ok(card_layout::entry_at(card, f.kind, i))
    } else {
        Err(Refusal::Absent)
    }
}

impl Head {
    // The entry at the head, with the head moved one on; the end where there is none; or the reader's refusal.
    #[tactic(auto, using(crate::proofs::FetchingLaws::steps))]
    pub fn step(self, card: &[u8]) -> Result<Option<(Entry, Head)>, Refusal>
        ensures { says_stepped result ≡ stepping most_entries card.now self.at }
    {
        let at = self.at;
        let f = admit(card)?;
        if at < f.m {
            let next = Head { at: at + 1 };
            Ok(Some((card_layout::entry_at(card, f.kind, at), next)))
        } else {
            Ok(None)
        }
    }
}
