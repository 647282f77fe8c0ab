// The words of the first build of a pair card, place by place: at each place every entry that can still stand there is tried, and the least
// word that works is kept. Entries of equal words decide nothing here. The `pub` function has a `requires`: its caller has admitted the
// lists and made one list of them.
#![tactic(auto)]

ghost use Rattle.std.specs.Prelude.{◌≡◌, ◌<◌, length, is_ok};
ghost use Rattle.pair_theory.specs.Arranged.{HasPlace};
ghost use Rattle.pair_theory.specs.Chosen.{Closed, Upto};
ghost use Rattle.pair_following.specs.Following.{nth, count_in, pairs_in, progress_in, Ready, Attempt};
ghost use Rattle.pair_following.specs.Common.{one_in, many_in};
ghost use Rattle.pair_choosing.specs.Choosing.{least_of, Kept, Tries, Weighed, pick_of, Drops, DropsAll, Chooses, ChoosesAll};
ghost use Rattle.pair_choosing.specs.Choosing.{chosen_word, chosen_more, all_choices};

use pair_following::{Clashed, Found, Key, PairCard, Placed};

// Whether entry e can stand at t, found by trying; the places stay as they are.
fn can_stand_at(pairs: &PairCard, placed: &mut Placed, e: usize, t: usize) -> bool
    requires ready { Ready pairs.now.card.now pairs.now.mask (progress_in placed.old) }
    requires closed { Closed (pairs_in pairs.now) (nth placed.old.put.now) }
    requires allowed { (e < count_in pairs.now.card.now) × (t < count_in pairs.now.card.now) × HasPlace (pairs_in pairs.now) e t }
    ensures { Attempt
        (pairs_in pairs.now)
        (progress_in placed.old)
        e
        t
        (progress_in placed.new)
        result }
{
    let p = placed.put[e];
    if p == t {
        return true;
    }
    if p < placed.put.len() {
        return false;
    }
    pairs.attempt(placed, e, t)
}

// The words s, with that of entry e if it can stand at t, found by trying.
fn with_tried(pairs: &PairCard, placed: &mut Placed, e: usize, t: usize, s: Found) -> Found
    requires ready { Ready pairs.now.card.now pairs.now.mask (progress_in placed.old) }
    requires closed { Closed (pairs_in pairs.now) (nth placed.old.put.now) }
    requires allowed { (e < count_in pairs.now.card.now) × (t < count_in pairs.now.card.now) × HasPlace (pairs_in pairs.now) e t }
    ensures { Kept (pairs_in pairs.now)
        (progress_in placed.old)
        (progress_in placed.new)
        × Tries (pairs_in pairs.now) (nth placed.old.put.now) e t (least_of (one_in s) (many_in s)) (least_of (one_in result) (many_in result)) }
{
    if can_stand_at(pairs, placed, e, t) {
        let word = pairs.word_of(e) as usize;
        return pair_following::with_number(s, word);
    }
    s
}

// The words of the entries that can stand at t, found by trying each.
fn weigh(pairs: &PairCard, placed: &mut Placed, t: usize) -> Found
    requires ready { Ready pairs.now.card.now pairs.now.mask (progress_in placed.old) }
    requires closed { Closed (pairs_in pairs.now) (nth placed.old.put.now) }
    requires t_bound { t < count_in pairs.now.card.now }
    ensures { Kept (pairs_in pairs.now)
        (progress_in placed.old)
        (progress_in placed.new)
        × Weighed (pairs_in pairs.now) (nth placed.old.put.now) t 0 (one_in result) (many_in result) }
{
    let mut s = Found::None;
    // The list of a place is linked, so no range has its slots.
    let mut k = pairs.last_slot(t);
    while k > 0 {
        let x = k - 1;
        s = with_tried(pairs, placed, x / 2, t, s);
        k = pairs.slot_before(x);
    }
    s
}

// Sends entry e from t to its other place, unless it has the word w.
fn send_off(
    pairs: &PairCard,
    placed: &mut Placed,
    t: usize,
    w: u32,
    e: usize,
) -> Result<(), Clashed>
    requires ready { Ready pairs.now.card.now pairs.now.mask (progress_in placed.old) }
    requires closed { Closed (pairs_in pairs.now) (nth placed.old.put.now) }
    requires allowed { (e < count_in pairs.now.card.now) × (t < count_in pairs.now.card.now) × HasPlace (pairs_in pairs.now) e t }
    ensures { Drops
        (pairs_in pairs.now)
        (progress_in placed.old)
        e
        (pick_of t w)
        (progress_in placed.new)
        (is_ok result) }
{
    if pairs.word_of(e) == w {
        return Ok(());
    }
    let p = placed.put[e];
    if p == t {
        return Err(Clashed);
    }
    if p < placed.put.len() {
        return Ok(());
    }
    let q = pairs.other(e, t);
    if q == t {
        return Err(Clashed);
    }
    pairs.follow(placed, e, q)
}

// Leaves only entries of the word w at t.
fn keep_word(pairs: &PairCard, placed: &mut Placed, t: usize, w: u32) -> Result<(), Clashed>
    requires ready { Ready pairs.now.card.now pairs.now.mask (progress_in placed.old) }
    requires closed { Closed (pairs_in pairs.now) (nth placed.old.put.now) }
    requires t_bound { t < count_in pairs.now.card.now }
    ensures { DropsAll
        (pairs_in pairs.now)
        (progress_in placed.old)
        (pick_of t w)
        (progress_in placed.new)
        (is_ok result) }
{
    // The list of a place is linked, so no range has its slots.
    let mut k = pairs.last_slot(t);
    while k > 0 {
        let x = k - 1;
        send_off(pairs, placed, t, w, x / 2)?;
        k = pairs.slot_before(x);
    }
    Ok(())
}

// The word of a place, and how many choices of it were free, one or none.
#[derive(Clone, Copy)]
pub struct PlaceChoice {
    pub word: u32,
    pub more: usize,
}

// Decides the word at t: the smallest that can be there.
fn choose(pairs: &PairCard, placed: &mut Placed, t: usize) -> Result<PlaceChoice, Clashed>
    requires ready { Ready pairs.now.card.now pairs.now.mask (progress_in placed.old) }
    requires closed { Closed (pairs_in pairs.now) (nth placed.old.put.now) }
    requires t_bound { t < count_in pairs.now.card.now }
    ensures { Chooses
        (pairs_in pairs.now)
        (progress_in placed.old)
        (pick_of t (chosen_word result))
        (chosen_more result)
        (progress_in placed.new)
        (is_ok result) }
{
    match pairs.found_at(placed, t, Key::Word) {
        Found::None => return Err(Clashed),
        Found::One(least) => {
            let word = least as u32;
            return Ok(PlaceChoice { word, more: 0 });
        }
        Found::More(_) => {}
    }
    let (least, more) = match weigh(pairs, placed, t) {
        Found::None => return Err(Clashed),
        Found::One(least) => (least, 0),
        Found::More(least) => (least, 1),
    };
    let word = least as u32;
    keep_word(pairs, placed, t, word)?;
    Ok(PlaceChoice { word, more })
}

// Decides the words place by place, from the left; the answer is how many choices of words were free.
pub fn choose_all(
    pairs: &PairCard,
    placed: &mut Placed,
    words: &mut [u32],
) -> Result<usize, Clashed>
    requires ready { Ready pairs.now.card.now pairs.now.mask (progress_in placed.old) }
    requires closed { Closed (pairs_in pairs.now) (nth placed.old.put.now) }
    requires words_len { length words.old ≡ count_in pairs.now.card.now }
    requires upto { Upto (pairs_in pairs.now) (nth placed.old.put.now) 0 (nth words.old) 0 }
    ensures { ChoosesAll
        (pairs_in pairs.now)
        (progress_in placed.new)
        (is_ok result)
        (all_choices result)
        words.new }
{
    let mut choices: usize = 0;
    for t in 0..placed.put.len() {
        let g = choose(pairs, placed, t)?;
        choices += g.more;
        words[t] = g.word;
    }
    Ok(choices)
}
