// What a pair card forces before any choice: a place with one entry left takes it, and so on. This spares time, and nothing else rests on
// it. The function `force_before_choice` has a `requires`: its caller has admitted the lists and made one list of them.
#![tactic(auto)]

ghost use Rattle.std.specs.Prelude.{◌≡◌, ℕ, ◌*◌, ◌<◌, length, is_ok};
ghost use Rattle.pair_following.specs.Following.{nth, count_in, place_in, pairs_in, progress_in, Ready};
ghost use Rattle.pair_forcing.specs.Forcing.{Sure, StaysSure};

use pair_following::{Clashed, Found, Key, PairCard, Placed};

// A place with one entry left takes it.
fn force(pairs: &PairCard, placed: &mut Placed, t: usize) -> Result<(), Clashed>
    requires ready { Ready pairs.now.card.now pairs.now.mask (progress_in placed.old) }
    requires sure { Sure (pairs_in pairs.now) (nth placed.old.put.now) }
    requires t_bound { t < count_in pairs.now.card.now }
    ensures { StaysSure (pairs_in pairs.now) (progress_in placed.new) (is_ok result) }
{
    match pairs.found_at(placed, t, Key::Number) {
        Found::None => Err(Clashed),
        Found::One(e) if placed.put[e] >= placed.put.len() => pairs.follow(placed, e, t),
        _ => Ok(()),
    }
}

// One entry fewer for place t: whether one is left. Only a hint: nothing rests on the counts.
fn fewer(count: &mut [u16], t: usize) -> bool
    requires { t < length count.old }
    ensures { length count.new ≡ length count.old }
{
    let k = count[t];
    count[t] = k.saturating_sub(1);
    k == 2
}

// Counts the entries of each place; count holds zeros.
fn count_up(pairs: &PairCard, count: &mut [u16])
    requires { (length count.old ≡ count_in pairs.now.card.now)
        × ((x : ℕ) → x < 2 * count_in pairs.now.card.now → place_in pairs.now.card.now x < count_in pairs.now.card.now) }
    ensures { length count.new ≡ length count.old }
{
    for x in 0..pairs.card.len() / 6 * 2 {
        let t = pairs.place_of(x);
        count[t] = count[t].saturating_add(1);
    }
}

// Forces t where the count says that one entry is left.
fn force_if(pairs: &PairCard, placed: &mut Placed, t: usize, few: bool) -> Result<(), Clashed>
    requires ready { Ready pairs.now.card.now pairs.now.mask (progress_in placed.old) }
    requires sure { Sure (pairs_in pairs.now) (nth placed.old.put.now) }
    requires t_bound { t < count_in pairs.now.card.now }
    ensures { StaysSure (pairs_in pairs.now) (progress_in placed.new) (is_ok result) }
{
    if few { force(pairs, placed, t) } else { Ok(()) }
}

// Forces the places with one entry.
fn force_all(pairs: &PairCard, placed: &mut Placed, count: &[u16]) -> Result<(), Clashed>
    requires ready { Ready pairs.now.card.now pairs.now.mask (progress_in placed.old) }
    requires sure { Sure (pairs_in pairs.now) (nth placed.old.put.now) }
    requires count_len { length count.now ≡ count_in pairs.now.card.now }
    ensures { StaysSure (pairs_in pairs.now) (progress_in placed.new) (is_ok result) }
{
    for (t, k) in count.iter().enumerate() {
        force_if(pairs, placed, t, *k < 2)?;
    }
    Ok(())
}

// Forces the places that the entries of the trail left, in turn.
fn spread(pairs: &PairCard, placed: &mut Placed, count: &mut [u16]) -> Result<(), Clashed>
    requires ready { Ready pairs.now.card.now pairs.now.mask (progress_in placed.old) }
    requires sure { Sure (pairs_in pairs.now) (nth placed.old.put.now) }
    requires count_len { length count.old ≡ count_in pairs.now.card.now }
    ensures { StaysSure (pairs_in pairs.now) (progress_in placed.new) (is_ok result) }
{
    let mut seen = 0;
    // The trail grows while it is gone through, so no range says where that ends.
    while seen < placed.n {
        let e = placed.trail[seen];
        let p = placed.put[e];
        let q = pairs.other(e, p);
        let few = fewer(count, q);
        force_if(pairs, placed, q, few)?;
        seen += 1;
    }
    Ok(())
}

// Decides all that follows from places with one entry; `count` should hold zeros, on which time rests, and nothing else.
pub fn force_before_choice(
    pairs: &PairCard,
    placed: &mut Placed,
    count: &mut [u16],
) -> Result<(), Clashed>
    requires ready { Ready pairs.now.card.now pairs.now.mask (progress_in placed.old) }
    requires sure { Sure (pairs_in pairs.now) (nth placed.old.put.now) }
    requires count_len { length count.old ≡ count_in pairs.now.card.now }
    ensures { StaysSure (pairs_in pairs.now) (progress_in placed.new) (is_ok result) }
{
    count_up(pairs, count);
    force_all(pairs, placed, count)?;
    spread(pairs, placed, count)
}
