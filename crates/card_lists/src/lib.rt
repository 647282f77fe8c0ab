// The tests of three lists, words, place one and place two, over the entries' promise: what a card's writer, and whoever
// builds from lists, asks first. `lists_hold` has no `requires`: it tests its own input.
#![tactic(auto)]

ghost use Rattle.std.specs.Prelude.{◌≡◌, ◌≤◌, ◌<◌, length};
ghost use Rattle.base_answers.specs.Answer.{first, sound, says_held};
ghost use Rattle.base_lists.specs.Row.{in_turn};
ghost use Rattle.card_entries.specs.Slot.{slot_from};
ghost use Rattle.card_entries.specs.Fault.{most_length, entry_tests};
ghost use Rattle.card_entries.specs.Bounds.{most_entries};
ghost use Rattle.card_lists.specs.Lists.{same_length, lists_tests};

use base_answers::Refusal;
use card_entries::{EntryLists, Format};

// Whether the lists have one length.
fn same_length(lists: &EntryLists) -> bool
    ensures { result ≡ same_length lists.now.words.now lists.now.ones.now lists.now.twos.now }
{
    lists.words.len() == lists.ones.len() && lists.words.len() == lists.twos.len()
}

// Each entry of the lists in turn.
fn entries_hold(f: Format, lists: &EntryLists) -> Result<(), Refusal>
    requires short { f.l ≤ most_length }
    requires there { (f.m ≤ length lists.now.words.now) × (f.m ≤ length lists.now.ones.now) × (f.m ≤ length lists.now.twos.now) }
    ensures { says_held result
        ≡ first
        (in_turn (λ e. entry_tests f e (slot_from lists.now.words.now lists.now.ones.now lists.now.twos.now e)) 0 f.m)
        sound }
{
    for e in 0..f.m {
        card_entries::entry_holds(f, e, lists.slot(e))?;
    }
    Ok(())
}

// The kind, the letters of a word, and the lists, which are parameters of their own, as C lends them.
pub fn lists_hold(
    kind: usize,
    l: usize,
    words: &[u32],
    ones: &[u16],
    twos: &[u16],
) -> Result<(), Refusal>
    ensures { says_held result ≡ first (lists_tests most_entries kind l words.now ones.now twos.now) sound }
{
    if !card_entries::is_kind(kind) {
        return Err(Refusal::Kind);
    }
    if !card_entries::is_length(l) {
        return Err(Refusal::WordLength);
    }
    let lists = EntryLists { words, ones, twos };
    if !same_length(&lists) {
        return Err(Refusal::Lists);
    }
    let m = words.len();
    if !card_entries::is_count(m) {
        return Err(Refusal::Count);
    }
    entries_hold(Format { kind, l, m }, &lists)
}
