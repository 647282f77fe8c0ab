// Settling narrow span cards without a budget, for C. The answer has the struct of build's; it is never unsettled, and placements are 0.
ghost use Rattle.std.specs.Prelude.{length};
ghost use Rattle.card_entries.specs.Bounds.{most_entries};
ghost use Rattle.build_narrow.specs.Settling.{OfCard, OfLists, SettlesInto};
ghost use Rattle.firmware.specs.Building.{build_answer};

use crate::building::BuildAnswer;

// The verdict on a narrow span card. Where there is a build, the letters of the alphabetically first one stand at the start of the output,
// whose later bytes are as they were; with every other answer all of it is as it was.
#[unsafe(no_mangle)]
pub extern "C" fn belfrymist_settle(card: &[u8], out: &mut [u8]) -> BuildAnswer
    ensures { SettlesInto build_answer (OfCard most_entries card.now (length out.old)) out.old result out.new }
{
    BuildAnswer::from(build_narrow::settle_card(card, out))
}

// The same from lists. The C interface has a function for each operation, and so does this crate: those that write stand alike.
#[unsafe(no_mangle)]
pub extern "C" fn belfrymist_settle_lists(
    kind: usize,
    l: usize,
    words: &[u32],
    ones: &[u16],
    twos: &[u16],
    out: &mut [u8],
) -> BuildAnswer
    ensures { SettlesInto build_answer
        (OfLists most_entries kind l words.now ones.now twos.now (length out.old))
        out.old result out.new }
{
    BuildAnswer::from(build_narrow::settle_lists(kind, l, words, ones, twos, out))
}
