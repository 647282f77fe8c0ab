// The list that a program is given: all of standard input, or one byte more than the program answers.
ghost use Rattle.std.specs.Prelude.{◌≡◌, ◌≤◌, length, IfSome};
ghost use Rattle.program_streams.specs.Input.{list_bytes};

// The most bytes of a list that a program answers.
pub const MOST: usize = 1048576;
// One byte more, so that a longer input is seen.
pub const BYTES: usize = MOST + 1;

// Reads standard input to the start of the buffer, where the program was called without an argument; the answer is how many bytes were read. Where
// the program was called in another way, says on standard error how it is used; where a read fails, of what, and why: then there is no answer.
// This and `card::read` are two, since `room` says of each buffer how long it is.
pub fn read(rt: &HostRuntime, bytes: &mut [u8; BYTES], usage: &[u8], what: &[u8]) -> Option<usize>
    ensures room { length bytes.new ≡ list_bytes }
    ensures within { IfSome result (λ n. n ≤ length bytes.new) }
{
    crate::take(rt, bytes, 0, usage, what)
}
