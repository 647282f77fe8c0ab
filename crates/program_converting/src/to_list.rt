// What the program `card2list` writes for a card: its list, or why there is none.
ghost use Rattle.card_entries.specs.Bounds.{most_entries};
ghost use Rattle.program_converting.specs.Converting.{to_list, Converted};

use crate::Lengths;

// What is written stands at the start of each buffer, whose later bytes are as they were; the answer is how many bytes each has.
pub fn convert(
    card: &[u8],
    out: &mut [u8; text_export::LIST],
    err: &mut [u8; crate::LINE],
) -> Lengths
    ensures { Converted (to_list most_entries card.now) out.old err.old result out.new err.new }
{
    crate::put_answer(text_export::export(card, out), err)
}
