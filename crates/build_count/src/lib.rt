// How many builds a pair card has: none, or a power of two, whose exponent is given. `count_card` and `count_lists` have no `requires`: each
// tests its own input.
#![tactic(auto)]

ghost use Rattle.std.specs.Prelude.{◌≡◌};
ghost use Rattle.base_answers.specs.Answer.{says};
ghost use Rattle.card_entries.specs.Slot.{entries_in};
ghost use Rattle.card_entries.specs.Bounds.{most_entries};
ghost use Rattle.card_entries.specs.Hold.{ListsHold};
ghost use Rattle.build_count.specs.Counting.{OfCard, OfLists, number_of, Counts};
ghost use Rattle.build_count.specs.ByKind.{ByKind};

use base_answers::Refusal;
use card_entries::{EntryLists, Format, MOST};
use card_reader::listing::ListRoom;

// The number of builds of lists that hold: there are two to it, or there is none.
#[tactic(auto, using(crate::proofs::CountingLaws::span_answered))]
fn count_from(f: Format, lists: &EntryLists) -> Result<Option<usize>, Refusal>
    requires { ListsHold most_entries f lists.now.words.now lists.now.ones.now lists.now.twos.now }
    ensures { ByKind f.kind f.l (entries_in lists.now.words.now lists.now.ones.now lists.now.twos.now) (says result) }
{
    if f.kind == card_entries::SPAN {
        return Err(Refusal::Kind);
    }
    let mut found = [0; MOST];
    Ok(pair_method::pair(f.l, lists, &mut found))
}

// The number of builds of a card.
pub fn count_card(card: &[u8]) -> Result<Option<usize>, Refusal>
    ensures { Counts number_of (OfCard most_entries card.now) (says result) }
{
    let mut room = ListRoom::empty();
    let f = room.admit(card)?;
    count_from(f, &room.lists(f.m))
}

// The number of builds of lists.
// The three lists are parameters of their own, as C lends them.
pub fn count_lists(
    kind: usize,
    l: usize,
    words: &[u32],
    ones: &[u16],
    twos: &[u16],
) -> Result<Option<usize>, Refusal>
    ensures { Counts number_of (OfLists most_entries kind l words.now ones.now twos.now) (says result) }
{
    card_lists::lists_hold(kind, l, words, ones, twos)?;
    let m = words.len();
    count_from(Format { kind, l, m }, &EntryLists { words, ones, twos })
}
