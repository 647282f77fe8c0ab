// The program `build`: reads a card from standard input, and prints its two lines or its refusal. `settle` and `count_builds` are as short, with
// their own names and reports, and the one with its own room: a function that is given all these would be longer than each.
#![tactic(auto)]

use program_lines::LINES;
use program_streams::card::BYTES;

fn main(rt: HostRuntime) {
    let usage = b"usage: build < CARD\n";
    let mut bytes = [0u8; BYTES];
    let read = program_streams::card::read(&rt, &mut bytes, 0, usage, b"build: standard input");
    let Some(n) = read else {
        return;
    };
    let mut out = [0u8; LINES];
    let printed = program_lines::report(&bytes[..n], &mut out);
    program_streams::write(
        &rt,
        &rt.stdout(),
        &out[..printed],
        b"build: standard output",
    );
}
