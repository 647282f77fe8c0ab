// The writer, for C.
ghost use Rattle.std.specs.Prelude.{◌≡◌, length};
ghost use Rattle.base_answers.specs.Answer.{says, output_after};
ghost use Rattle.card_entries.specs.Bounds.{most_entries};
ghost use Rattle.card_layout.specs.Card.{card_of};
ghost use Rattle.card_entries.specs.Hold.{format_for};
ghost use Rattle.card_writer.specs.Writing.{writing};
ghost use Rattle.card_entries.specs.Slot.{slot_from};
ghost use Rattle.firmware.specs.Flat.{write_answer};

use base_answers::Refusal;

// What writing, importing, exporting and writing a FASTA record answer. The number is 0 where a card, a list or a record was written, with its
// length in bytes; else it is the refusal's, with its place, and the length is 0.
#[repr(C)]
#[derive(Clone, Copy, Default)]
pub struct WriteAnswer {
    pub number: usize,
    pub place: usize,
    pub length: usize,
}

impl From<Result<usize, Refusal>> for WriteAnswer {
    fn from(written: Result<usize, Refusal>) -> WriteAnswer
        ensures { result ≡ write_answer (says written) }
    {
        match written {
            Ok(length) => WriteAnswer {
                length,
                ..WriteAnswer::default()
            },
            Err(r) => WriteAnswer {
                number: r.number(),
                place: r.place(),
                ..WriteAnswer::default()
            },
        }
    }
}

// A card of the lists at the start of the output, whose later bytes are as they were; or the first rule that is broken, and then no byte of
// the output differs.
#[unsafe(no_mangle)]
pub extern "C" fn belfrymist_write(
    kind: usize,
    l: usize,
    words: &[u32],
    ones: &[u16],
    twos: &[u16],
    out: &mut [u8],
) -> WriteAnswer
    ensures answer { result ≡ write_answer (writing most_entries kind l words.now ones.now twos.now (length out.old)) }
    ensures bytes { out.new
        ≡ output_after
        (card_of (format_for kind l words.now) (slot_from words.now ones.now twos.now))
        out.old
        (writing most_entries kind l words.now ones.now twos.now (length out.old)) }
{
    WriteAnswer::from(card_writer::write(kind, l, words, ones, twos, out))
}
