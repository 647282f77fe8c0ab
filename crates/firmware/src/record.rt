// FASTA records, for C.
ghost use Rattle.std.specs.Prelude.{◌≡◌, length};
ghost use Rattle.base_answers.specs.Answer.{says, output_after};
ghost use Rattle.text_fasta.specs.Record.{record_of};
ghost use Rattle.text_fasta.specs.Writing.{writing};
ghost use Rattle.text_fasta.specs.Reading.{name_in, body_in, letters_in, reading};
ghost use Rattle.firmware.specs.Flat.{write_answer, fasta_answer};

use crate::writing::WriteAnswer;
use base_answers::Refusal;

// What reading a record answers. The number is 0 for a record that is read, with the lengths of its name and of its letters; else it is the
// refusal's, with its place, and the rest is 0.
#[repr(C)]
#[derive(Clone, Copy, Default)]
pub struct FastaAnswer {
    pub number: usize,
    pub place: usize,
    pub name: usize,
    pub letters: usize,
}

impl From<Result<(usize, usize), Refusal>> for FastaAnswer {
    fn from(read: Result<(usize, usize), Refusal>) -> FastaAnswer
        ensures { result ≡ fasta_answer (says read) }
    {
        match read {
            Ok((name, letters)) => FastaAnswer {
                name,
                letters,
                ..FastaAnswer::default()
            },
            Err(r) => FastaAnswer {
                number: r.number(),
                place: r.place(),
                ..FastaAnswer::default()
            },
        }
    }
}

// The record of a name and letters at the start of the output, whose later bytes are as they were; or the first rule that is broken, and then
// no byte of the output differs.
#[unsafe(no_mangle)]
pub extern "C" fn belfrymist_write_fasta(name: &[u8], letters: &[u8], out: &mut [u8]) -> WriteAnswer
    ensures answer { result ≡ write_answer (writing name.now letters.now (length out.old)) }
    ensures bytes { out.new
        ≡ output_after
        (record_of name.now letters.now)
        out.old
        (writing name.now letters.now (length out.old)) }
{
    WriteAnswer::from(text_fasta::writing::write(name, letters, out))
}

// The name and the letters of a record, each at the start of its output, whose later bytes are as they were; or the first rule that is broken,
// and then no byte of either output differs. The C interface has a function for each operation, so that writing and reading stand alike.
#[unsafe(no_mangle)]
pub extern "C" fn belfrymist_read_fasta(
    bytes: &[u8],
    name: &mut [u8],
    letters: &mut [u8],
) -> FastaAnswer
    ensures answer { result ≡ fasta_answer (reading bytes.now (length name.old) (length letters.old)) }
    ensures name { name.new
        ≡ output_after
        (name_in bytes.now)
        name.old
        (reading bytes.now (length name.old) (length letters.old)) }
    ensures letters { letters.new
        ≡ output_after
        (letters_in (body_in bytes.now))
        letters.old
        (reading bytes.now (length name.old) (length letters.old)) }
{
    FastaAnswer::from(text_fasta::reading::read(bytes, name, letters))
}
