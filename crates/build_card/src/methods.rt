// The method that a card's kind takes, over lists that hold.
ghost use Rattle.std.specs.Prelude.{◌≤◌, length, take};
ghost use Rattle.card_entries.specs.Slot.{entries_in};
ghost use Rattle.card_entries.specs.Bounds.{most_entries};
ghost use Rattle.card_entries.specs.Hold.{ListsHold};
ghost use Rattle.build_card.specs.From.{Found};

use build_method::MethodAnswer;
use card_entries::{EntryLists, Format};

// The method of the card's kind. The words of the alphabetically first build are the first ones of `found`, where there is a build.
#[tactic(auto, using(crate::proofs::FromLaws::founds))]
pub fn find(f: Format, lists: &EntryLists, budget: u32, found: &mut [u32]) -> MethodAnswer
    requires lists_hold { ListsHold most_entries f lists.now.words.now lists.now.ones.now lists.now.twos.now }
    requires words_in_bounds { length lists.now.words.now ≤ length found.old }
    ensures { Found f
        (entries_in lists.now.words.now lists.now.ones.now lists.now.twos.now)
        budget result
        (take (length lists.now.words.now) found.new) }
{
    if f.kind == card_entries::SPAN {
        return span_walk::walk(f.l, lists, budget, found);
    }
    pair_method::settle(f.l, lists, found)
}
