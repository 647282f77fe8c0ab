// The streams of a program: what it is given on standard input, what it writes, and what it says on standard error where it is called in another
// way or where a stream fails. Of what is read, written and said no contract can speak.
#![tactic(auto)]

pub mod card;
pub mod list;
mod reason;

ghost use Rattle.std.specs.Prelude.{◌≤◌, length, IfSome, IfOk};

use std::env::FillError;
use std::io;
use std::io::Read;
use std::rt::Env;

// Says the bytes on standard error. Where that fails, nothing can be told.
pub fn say(rt: &HostRuntime, bytes: &[u8]) {
    let _ = rt.stderr().write_all(bytes);
}

// Says on standard error what failed, and why.
fn say_failed(rt: &HostRuntime, what: &[u8], why: &io::Error) {
    say(rt, what);
    say(rt, b": ");
    reason::say(rt, why);
    say(rt, b"\n");
}

// Whether the program has an argument of this number. Its name has 0.
fn is_given(rt: &HostRuntime, number: usize) -> bool {
    let mut start = [0u8; 1];
    !matches!(rt.arg(number, &mut start), Err(FillError::NotPresent))
}

// Whether the program was called with so many arguments.
fn called_with(rt: &HostRuntime, arguments: usize) -> bool {
    is_given(rt, arguments) && !is_given(rt, arguments.saturating_add(1))
}

// Reads standard input to the start of the buffer, until it is full or the input ends; the answer is how many bytes were read.
fn fill(rt: &HostRuntime, bytes: &mut [u8]) -> io::Result<usize>
    ensures { IfOk result (λ n. n ≤ length bytes.new) }
{
    let mut input = rt.stdin();
    let mut n = 0;
    // How much a read takes is not known before it, so no range has the reads.
    while n < bytes.len() {
        let more = input.read(&mut bytes[n..])?;
        if more == 0 {
            break;
        }
        n += more;
    }
    Ok(n)
}

// Reads standard input to the start of the buffer, where the program was called with so many arguments; the answer is how many bytes were read. Where
// the program was called in another way, says on standard error how it is used; where a read fails, of what, and why: then there is no answer.
fn take(
    rt: &HostRuntime,
    bytes: &mut [u8],
    arguments: usize,
    usage: &[u8],
    what: &[u8],
) -> Option<usize>
    ensures { IfSome result (λ n. n ≤ length bytes.new) }
{
    if !called_with(rt, arguments) {
        say(rt, usage);
        return None;
    }
    match fill(rt, bytes) {
        Ok(n) => Some(n),
        Err(why) => {
            say_failed(rt, what, &why);
            None
        }
    }
}

// Writes the bytes on a stream. Where not all of them could be written, says on standard error of what, and why.
pub fn write(rt: &HostRuntime, stream: &impl Print, bytes: &[u8], what: &[u8]) {
    if let Err(why) = stream.write_all(bytes) {
        say_failed(rt, what, &why);
    }
}
