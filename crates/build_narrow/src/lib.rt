// Narrow span cards, settled without a budget: from a card and from lists, to the verdict and the sequence. `settle_card` and `settle_lists`
// have no `requires`: each tests its own input.
#![tactic(auto)]

ghost use Rattle.std.specs.Prelude.{◌≡◌, ◌∷◌, ◌≤◌, eqb, length};
ghost use Rattle.base_answers.specs.Numbers.{Kind};
ghost use Rattle.base_answers.specs.Answer.{given, test, first, sound, says, says_held};
ghost use Rattle.card_entries.specs.Slot.{entries_in};
ghost use Rattle.card_entries.specs.Fault.{span};
ghost use Rattle.card_entries.specs.Bounds.{most_entries};
ghost use Rattle.card_entries.specs.Hold.{format_for, ListsHold};
ghost use Rattle.span_layers.specs.Narrow.{is_narrow};
ghost use Rattle.build_card.specs.Building.{answer_of};
ghost use Rattle.build_narrow.specs.Settling.{width_tests, OfCard, OfLists, SettlesInto};
ghost use Rattle.build_narrow.specs.Passing.{PassesTests};

use base_answers::Refusal;
use build_card::BuildAnswer;
use card_entries::{EntryLists, MOST, Slot};
use card_reader::listing::ListRoom;

// The places of a narrow span at most.
const WIDEST_NARROW: usize = 4;

// Whether the span of an entry is narrow.
#[tactic(auto, using(crate::proofs::TestLaws::narrow_by))]
fn is_narrow(s: Slot) -> bool
    ensures { result ≡ is_narrow s }
{
    usize::from(s.two) < usize::from(s.one) + WIDEST_NARROW
}

// Each entry's width in turn.
#[tactic(auto, using(crate::proofs::TestLaws::widths))]
fn widths_hold(lists: &EntryLists) -> Result<(), Refusal>
    requires { (length lists.now.words.now ≤ length lists.now.ones.now) × (length lists.now.words.now ≤ length lists.now.twos.now) }
    ensures { says_held result ≡ first (width_tests 0 (entries_in lists.now.words.now lists.now.ones.now lists.now.twos.now)) sound }
{
    for e in 0..lists.words.len() {
        if !is_narrow(lists.slot(e)) {
            return Err(Refusal::Wider(e));
        }
    }
    Ok(())
}

// The kind, and then the widths.
#[tactic(auto, using(crate::proofs::TestLaws::spans))]
fn spans_hold(kind: usize, lists: &EntryLists) -> Result<(), Refusal>
    requires { (length lists.now.words.now ≤ length lists.now.ones.now) × (length lists.now.words.now ≤ length lists.now.twos.now) }
    ensures { says_held result
        ≡ first
        (test (eqb kind span) Kind 0 ∷ width_tests 0 (entries_in lists.now.words.now lists.now.ones.now lists.now.twos.now))
        sound }
{
    if kind == card_entries::SPAN {
        return widths_hold(lists);
    }
    Err(Refusal::Kind)
}

// Settles lists that pass every test.
fn settle_narrow(l: usize, lists: &EntryLists, out: &mut [u8]) -> BuildAnswer
    requires { PassesTests span l lists.now.words.now lists.now.ones.now lists.now.twos.now (length out.old) }
    ensures { SettlesInto answer_of
        (OfLists most_entries span l lists.now.words.now lists.now.ones.now lists.now.twos.now (length out.old))
        out.old (given result) out.new }
{
    let m = lists.words.len();
    let n = build_card::letters_in(m, l);
    let mut found = [0; MOST];
    let r = span_narrow::settle(l, lists, &mut found);
    build_card::spelled(r, l, &found[..m], &mut out[..n])
}

// Settles lists that hold: first the room is tested, then the kind and the widths.
#[tactic(auto, using(crate::proofs::SettlingLaws::tellings))]
fn settle_from(
    kind: usize,
    l: usize,
    lists: &EntryLists,
    out: &mut [u8],
) -> Result<BuildAnswer, Refusal>
    requires { ListsHold most_entries (format_for kind l lists.now.words.now) lists.now.words.now lists.now.ones.now lists.now.twos.now }
    ensures { SettlesInto answer_of
        (OfLists most_entries kind l lists.now.words.now lists.now.ones.now lists.now.twos.now (length out.old))
        out.old (says result) out.new }
{
    if out.len() < build_card::letters_in(lists.words.len(), l) {
        return Err(Refusal::Room);
    }
    spans_hold(kind, lists)?;
    Ok(settle_narrow(l, lists, out))
}

// Settles a card: the verdict with the length of its sequence, and placements 0. Where there is a build, the letters of the alphabetically
// first one stand at the start of the output, whose later bytes are as they were; with every other answer all of it is as it was.
pub fn settle_card(card: &[u8], out: &mut [u8]) -> Result<BuildAnswer, Refusal>
    ensures { SettlesInto answer_of (OfCard most_entries card.now (length out.old)) out.old (says result) out.new }
{
    let mut room = ListRoom::empty();
    let f = room.admit(card)?;
    settle_from(f.kind, f.l, &room.lists(f.m), out)
}

// Settles lists: what a card with these entries gets, where the lists hold; others are refused by their own tests.
// The three lists are parameters of their own, as C lends them.
#[tactic(auto, using(crate::proofs::SettlingLaws::tellings))]
pub fn settle_lists(
    kind: usize,
    l: usize,
    words: &[u32],
    ones: &[u16],
    twos: &[u16],
    out: &mut [u8],
) -> Result<BuildAnswer, Refusal>
    ensures { SettlesInto answer_of
        (OfLists most_entries kind l words.now ones.now twos.now (length out.old))
        out.old (says result) out.new }
{
    card_lists::lists_hold(kind, l, words, ones, twos)?;
    settle_from(kind, l, &EntryLists { words, ones, twos }, out)
}
