// The card that a program is given: all of standard input, or as much of it as an answer can depend on.
ghost use Rattle.std.specs.Prelude.{◌≡◌, ◌≤◌, length, IfSome};
ghost use Rattle.card_entries.specs.Bounds.{most_entries};
ghost use Rattle.program_streams.specs.Input.{program_bytes};

// One byte more than the longest card has.
pub const BYTES: usize = card_layout::LONGEST + 1;

// Reads standard input to the start of the buffer, where the program was called with so many arguments; the answer is how many bytes were read. Where
// the program was called in another way, says on standard error how it is used; where a read fails, of what, and why: then there is no answer.
// It is a count and no part of the buffer: of a buffer from which the answer borrows, no clause could say how long it is afterwards.
pub fn read(
    rt: &HostRuntime,
    bytes: &mut [u8; BYTES],
    arguments: usize,
    usage: &[u8],
    what: &[u8],
) -> Option<usize>
    ensures room { length bytes.new ≡ program_bytes most_entries }
    ensures within { IfSome result (λ n. n ≤ length bytes.new) }
{
    crate::take(rt, bytes, arguments, usage, what)
}
