// What the program `settle` prints for a card: the lines of `build`, with what settling the card answers.
ghost use Rattle.card_entries.specs.Bounds.{most_entries};
ghost use Rattle.base_text.specs.Text.{Printed};
ghost use Rattle.program_lines.specs.SettleLines.{SettleReports};

// The lines are at the start of the buffer, whose later bytes are as they were; the answer is how many bytes they have. The card is settled
// once, with room for the longest sequence.
pub fn report(card: &[u8], out: &mut [u8; crate::LINES]) -> usize
    ensures { Printed (SettleReports most_entries card.now) out.old result out.new }
{
    let mut letters = [0u8; crate::LETTERS];
    let answer = build_narrow::settle_card(card, &mut letters);
    crate::put_answer(out, card, answer, &letters)
}
