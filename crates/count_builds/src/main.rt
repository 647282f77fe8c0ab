// The program `count_builds`: reads a card from standard input, and prints how many builds it has, or its refusal.
// It stands as `build` does, with its own name, room and report.
#![tactic(auto)]

use program_lines::count::LINE;
use program_streams::card::BYTES;

fn main(rt: HostRuntime) {
    let usage = b"usage: count_builds < CARD\n";
    let mut bytes = [0u8; BYTES];
    let read = program_streams::card::read(
        &rt,
        &mut bytes,
        0,
        usage,
        b"count_builds: standard input",
    );
    let Some(n) = read else {
        return;
    };
    let mut out = [0u8; LINE];
    let printed = program_lines::count::report(&bytes[..n], &mut out);
    program_streams::write(
        &rt,
        &rt.stdout(),
        &out[..printed],
        b"count_builds: standard output",
    );
}
