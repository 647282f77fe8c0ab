// What the program `card2fasta` writes for a card and a name: the record of the card's only build, or why there is none.
ghost use Rattle.card_entries.specs.Bounds.{most_entries};
ghost use Rattle.program_converting.specs.Fasta.{ToFasta};

use crate::Lengths;
use build_card::BuildAnswer;

// Room for every record: its mark, the longest name and the end of their line, and the longest sequence in lines. A constant's
// value calls no `div_ceil`.
pub const RECORD: usize = text_fasta::MOST_NAME
    + 2
    + program_lines::LETTERS
    + (program_lines::LETTERS - 1) / text_fasta::LINE_LETTERS
    + 1;

// What is written stands at the start of each buffer, whose later bytes are as they were; the answer is how many bytes each has. The card is
// built from once, with room for the longest sequence.
pub fn convert(
    card: &[u8],
    name: &[u8],
    out: &mut [u8; RECORD],
    err: &mut [u8; program_lines::verdict::LINE],
) -> Lengths
    ensures { ToFasta most_entries card.now name.now out.old err.old result out.new err.new }
{
    let mut letters = [0u8; program_lines::LETTERS];
    match build_card::build(card, program_lines::BUDGET, &mut letters) {
        Ok(answer) => match answer {
            BuildAnswer::Sole(n, _) => {
                crate::put_answer(text_fasta::writing::write(name, &letters[..n], out), err)
            }
            other => Lengths {
                output: 0,
                errors: program_lines::verdict::put(err, 0, Ok(other), &letters),
            },
        },
        Err(r) => crate::put_answer(Err(r), err),
    }
}
