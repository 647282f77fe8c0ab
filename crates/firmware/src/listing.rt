// Probe lists, for C.
ghost use Rattle.std.specs.Prelude.{◌≡◌, length};
ghost use Rattle.card_entries.specs.Bounds.{most_entries};
ghost use Rattle.base_answers.specs.Answer.{output_after};
ghost use Rattle.text_import.specs.Importing.{card_in, importing};
ghost use Rattle.text_export.specs.Exporting.{list_of, exporting};
ghost use Rattle.firmware.specs.Flat.{write_answer};

use crate::writing::WriteAnswer;

// A card of the list at the start of the output, whose later bytes are as they were; or the first rule that is broken, and then no byte of
// the output differs.
#[unsafe(no_mangle)]
pub extern "C" fn belfrymist_import(list: &[u8], out: &mut [u8]) -> WriteAnswer
    ensures answer { result ≡ write_answer (importing most_entries list.now (length out.old)) }
    ensures bytes { out.new
        ≡ output_after (card_in list.now) out.old (importing most_entries list.now (length out.old)) }
{
    WriteAnswer::from(text_import::import(list, out))
}

// The list of a card at the start of the output, whose later bytes are as they were; or the first rule that is broken, and then no byte of
// the output differs.
#[unsafe(no_mangle)]
pub extern "C" fn belfrymist_export(card: &[u8], out: &mut [u8]) -> WriteAnswer
    ensures answer { result ≡ write_answer (exporting most_entries card.now (length out.old)) }
    ensures bytes { out.new
        ≡ output_after (list_of card.now) out.old (exporting most_entries card.now (length out.old)) }
{
    WriteAnswer::from(text_export::export(card, out))
}
