// What the programs `list2card`, `card2list` and `card2fasta` write, on standard output and on standard error. No public function has a
// `requires`.
#![tactic(auto)]

pub mod to_card;
pub mod to_fasta;
pub mod to_list;

ghost use Rattle.std.specs.Prelude.{◌≤◌, length};
ghost use Rattle.base_answers.specs.Answer.{says};
ghost use Rattle.base_text.specs.Putting.{refusal_room};
ghost use Rattle.program_converting.specs.Lined.{Lined};

use base_answers::Refusal;

// How many bytes are written on each: both numbers, and no `Result`, since a program writes both streams, whichever is empty.
#[derive(Clone, Copy)]
pub struct Lengths {
    pub output: usize,
    pub errors: usize,
}

// Room for what `list2card` and `card2list` write on standard error; the longest is the line of a refusal.
pub const LINE: usize = 50;

// Where so many bytes were given they stand on standard output; else the line of the refusal is put on standard error.
fn put_answer(answer: Result<usize, Refusal>, err: &mut [u8]) -> Lengths
    requires { refusal_room ≤ length err.old }
    ensures { Lined (says answer) err.old result err.new }
{
    match answer {
        Ok(output) => Lengths { output, errors: 0 },
        Err(r) => Lengths {
            output: 0,
            errors: base_text::put_refused(err, r.number(), r.place()),
        },
    }
}
