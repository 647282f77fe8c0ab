// The program `settle`: reads a narrow span card from standard input, and prints its two lines or its refusal.
// It stands as `build` does, with its own name and report.
#![tactic(auto)]

use program_lines::LINES;
use program_streams::card::BYTES;

fn main(rt: HostRuntime) {
    let usage = b"usage: settle < CARD\n";
    let mut bytes = [0u8; BYTES];
    let read = program_streams::card::read(&rt, &mut bytes, 0, usage, b"settle: standard input");
    let Some(n) = read else {
        return;
    };
    let mut out = [0u8; LINES];
    let printed = program_lines::settle::report(&bytes[..n], &mut out);
    program_streams::write(
        &rt,
        &rt.stdout(),
        &out[..printed],
        b"settle: standard output",
    );
}
