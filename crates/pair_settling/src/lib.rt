// What is left of a pair card once the words of all places are chosen: each entry that has no place yet gets one. Whichever works will do,
// since it spells the same. The `pub` function has a `requires`: its caller has admitted the lists and made one list of them.
#![tactic(auto)]

ghost use Rattle.std.specs.Prelude.{◌<◌, is_ok};
ghost use Rattle.pair_theory.specs.Chosen.{Closed};
ghost use Rattle.pair_following.specs.Following.{nth, count_in, pairs_in, progress_in, Trail, Ready};
ghost use Rattle.pair_settling.specs.Settling.{GivesPlace, GivesPlaces};

use pair_following::{Clashed, PairCard, Placed};

// Gives entry e a place, with all that this forces, whichever will do.
fn settle(pairs: &PairCard, placed: &mut Placed, e: usize) -> Result<(), Clashed>
    requires ready { Ready pairs.now.card.now pairs.now.mask (progress_in placed.old) }
    requires closed { Closed (pairs_in pairs.now) (nth placed.old.put.now) }
    requires e_bound { e < count_in pairs.now.card.now }
    ensures { GivesPlace
        (pairs_in pairs.now)
        (progress_in placed.old)
        e
        (progress_in placed.new)
        (is_ok result) }
{
    if placed.put[e] < placed.put.len() {
        return Ok(());
    }
    let one = pairs.place_of(2 * e);
    let two = pairs.place_of(2 * e + 1);
    let n = placed.n;
    if pairs.follow(placed, e, one).is_ok() {
        return Ok(());
    }
    placed.undo(n);
    pairs.follow(placed, e, two)
}

// Gives every entry a place, where that can be done.
pub fn settle_all(pairs: &PairCard, placed: &mut Placed) -> Result<(), Clashed>
    requires ready { Ready pairs.now.card.now pairs.now.mask (progress_in placed.old) }
    requires closed { Closed (pairs_in pairs.now) (nth placed.old.put.now) }
    ensures gives { GivesPlaces (pairs_in pairs.now) placed.old.put.now placed.new.put.now (is_ok result) }
    ensures shape { Trail (count_in pairs.now.card.now) (progress_in placed.new) }
{
    for e in 0..placed.put.len() {
        settle(pairs, placed, e)?;
    }
    Ok(())
}
