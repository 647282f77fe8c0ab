// What the program `list2card` writes for a list: its card, or why there is none.
ghost use Rattle.card_entries.specs.Bounds.{most_entries};
ghost use Rattle.base_text.specs.Putting.{Put};
ghost use Rattle.program_converting.specs.Converting.{too_long, to_card, Converted};

use crate::Lengths;
use program_streams::list::MOST;

// That a list is longer than the program takes.
fn put_too_long(err: &mut [u8; crate::LINE]) -> usize
    ensures { Put too_long 0 err.old result err.new }
{
    let most_at = base_text::put_text(err, 0, b"list2card: more than ");
    let bytes_at = base_text::put_digits(err, most_at, MOST);
    base_text::put_text(err, bytes_at, b" bytes\n")
}

// What is written stands at the start of each buffer, whose later bytes are as they were; the answer is how many bytes each has.
pub fn convert(
    list: &[u8],
    out: &mut [u8; card_layout::LONGEST],
    err: &mut [u8; crate::LINE],
) -> Lengths
    ensures { Converted (to_card most_entries list.now) out.old err.old result out.new err.new }
{
    if MOST < list.len() {
        return Lengths {
            output: 0,
            errors: put_too_long(err),
        };
    }
    crate::put_answer(text_import::import(list, out), err)
}
