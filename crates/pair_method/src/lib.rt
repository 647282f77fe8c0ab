// The verdict on a pair card and its number of builds, from lists of words and places: the entries and the list of each place are made into
// one list, what is forced is followed, the words are chosen place by place, and every entry gets a place. `pair` and `settle` have a
// `requires`: their caller has admitted the lists.
#![tactic(auto)]

ghost use Rattle.std.specs.Prelude.{◌≡◌, ℕ, ◌+◌, ◌*◌, ◌≤◌, ◌<◌, length, take};
ghost use Rattle.std.specs.Result.{result_ok};
ghost use Rattle.card_entries.specs.Slot.{entries_in};
ghost use Rattle.card_entries.specs.Bounds.{most_entries};
ghost use Rattle.card_entries.specs.KindLists.{PairLists};
ghost use Rattle.build_method.specs.Method.{Right};
ghost use Rattle.pair_theory.specs.Settling.{pair_entries, MeansPair};
ghost use Rattle.pair_following.specs.Following.{nth, count_in, place_in, last_in, pairs_in, HoldsPairs, Links, progress_in, Ready};
ghost use Rattle.pair_forcing.specs.Forcing.{Sure};
ghost use Rattle.pair_method.specs.Built.{FindsBuild};
ghost use Rattle.pair_method.specs.PairMethod.{second_of, Gives, answer_by};
ghost use Rattle.pair_method.specs.CardList.{with_entry, Entered, Linked};

use build_method::MethodAnswer;
use card_entries::{EntryLists, MOST, Slot};
use pair_following::{Clashed, PairCard, Placed};

// The second of an entry's two places; an entry with one place has it twice.
fn second(one: u16, two: u16) -> usize
    ensures { result ≡ second_of one two }
{
    if two == card_entries::NO_PLACE {
        return usize::from(one);
    }
    usize::from(two)
}

// Enters entry e; the list of place e is empty.
fn enter(card: &mut [usize], e: usize, entry: Slot)
    requires { 6 * e + 5 < length card.old }
    ensures { card.new ≡ with_entry card.old e entry.word entry.one (second_of entry.one entry.two) }
{
    let other = second(entry.one, entry.two);
    let at = 6 * e;
    card[at] = usize::from(entry.one);
    card[at + 2] = entry.word as usize;
    card[at + 3] = other;
    card[at + 5] = 0;
}

// Enters the entries.
fn enter_all(lists: &EntryLists, card: &mut [usize])
    requires { (length lists.now.ones.now ≡ length lists.now.words.now)
        × (length lists.now.twos.now ≡ length lists.now.words.now)
        × (length card.old ≡ 6 * length lists.now.words.now) }
    ensures { Entered lists.now.words.now lists.now.ones.now lists.now.twos.now card.new }
{
    for e in 0..lists.words.len() {
        enter(card, e, lists.slot(e));
    }
}

// Makes the list of each place; the lists are empty.
fn link(card: &mut [usize])
    requires { ((x : ℕ) → x < 2 * count_in card.old → place_in card.old x < count_in card.old)
        × ((t : ℕ) → t < count_in card.old → last_in card.old t ≡ 0) }
    ensures { Linked card.old card.new }
{
    for x in 0..card.len() / 6 * 2 {
        // No mask is looked at.
        let pairs = PairCard { card, mask: 0 };
        let t = pairs.place_of(x);
        let before = pairs.last_slot(t);
        card[3 * x + 1] = before;
        card[6 * t + 5] = x + 1;
    }
}

// How many choices of words were free, where there is a build, and its words; no entry is placed before, and count holds zeros.
fn decide(
    pairs: &PairCard,
    placed: &mut Placed,
    count: &mut [u16],
    words: &mut [u32],
) -> Result<usize, Clashed>
    requires ready { Ready pairs.now.card.now pairs.now.mask (progress_in placed.old) }
    requires sure { Sure (pairs_in pairs.now) (nth placed.old.put.now) }
    requires lengths { (length count.old ≡ count_in pairs.now.card.now) × (length words.old ≡ count_in pairs.now.card.now) }
    ensures { FindsBuild (pairs_in pairs.now) words.new (result_ok result) }
{
    pair_forcing::force_before_choice(pairs, placed, count)?;
    let choices = pair_choosing::choose_all(pairs, placed, words)?;
    pair_settling::settle_all(pairs, placed)?;
    Ok(choices)
}

// The first build of the entries, where there is one: its words, place by place.
fn from_card(pairs: &PairCard, words: &mut [u32]) -> Option<usize>
    requires holds_pairs { HoldsPairs pairs.now.card.now pairs.now.mask × Links pairs.now.card.now }
    requires lengths { (length words.old ≡ count_in pairs.now.card.now) × (length words.old ≤ most_entries) }
    ensures { FindsBuild (pairs_in pairs.now) words.new result }
{
    let m = words.len();
    let mut put = [m; MOST];
    let mut trail = [0; MOST];
    let mut count = [0; MOST];
    let mut placed = Placed {
        put: &mut put[..m],
        trail: &mut trail[..m],
        n: 0,
    };
    decide(pairs, &mut placed, &mut count[..m], words).ok()
}

// The same from the lists of a card; `card` is for work.
fn from_lists(l: usize, lists: &EntryLists, card: &mut [usize], first: &mut [u32]) -> Option<usize>
    requires pair_lists { PairLists l lists.now.words.now lists.now.ones.now lists.now.twos.now }
    requires lengths { (length lists.now.words.now ≤ most_entries)
        × (length card.old ≡ 6 * length lists.now.words.now)
        × (length first.old ≡ length lists.now.words.now) }
    ensures { (length first.new ≡ length lists.now.words.now)
        × Gives
        l
        (entries_in lists.now.words.now lists.now.ones.now lists.now.twos.now)
        result
        first.new }
{
    let mask = card_entries::words_of(l - 1) - 1;
    enter_all(lists, card);
    link(card);
    from_card(&PairCard { card, mask }, first)
}

// How many choices of words were free on a pair card that the entry rules admit, where it has a build: there are two to that number of
// builds. Where there is a build, `first` begins with the words of the alphabetically first one.
pub fn pair(l: usize, lists: &EntryLists, first: &mut [u32]) -> Option<usize>
    requires pair_lists { PairLists l lists.now.words.now lists.now.ones.now lists.now.twos.now }
    requires words_in_bounds { length lists.now.words.now ≤ length first.old }
    ensures { Gives
        l
        (entries_in lists.now.words.now lists.now.ones.now lists.now.twos.now)
        result
        (take (length lists.now.words.now) first.new) }
{
    let m = lists.words.len();
    let mut card = [0; 6 * MOST];
    from_lists(l, lists, &mut card[..6 * m], &mut first[..m])
}

// The answer by what is found: sole where no choice was free. It makes no placements.
fn answer_by(choices: Option<usize>) -> MethodAnswer
    ensures { result ≡ answer_by choices }
{
    match choices {
        None => MethodAnswer::None(0),
        Some(0) => MethodAnswer::Sole(0),
        Some(_) => MethodAnswer::Several(0),
    }
}

// The verdict on a pair card that the entry rules admit. Where there is a build, `first` begins with the words of the alphabetically first
// one.
pub fn settle(l: usize, lists: &EntryLists, first: &mut [u32]) -> MethodAnswer
    requires pair_lists { PairLists l lists.now.words.now lists.now.ones.now lists.now.twos.now }
    requires words_in_bounds { length lists.now.words.now ≤ length first.old }
    ensures { Right
        l
        (pair_entries (entries_in lists.now.words.now lists.now.ones.now lists.now.twos.now))
        (MeansPair l (entries_in lists.now.words.now lists.now.ones.now lists.now.twos.now))
        result
        (take (length lists.now.words.now) first.new) }
{
    answer_by(pair(l, lists, first))
}
