// The program `card2list`: reads a card from standard input, and writes its probe list, or on standard error why there is none.
// It stands as `list2card` does, with its own name, rooms and conversion.
#![tactic(auto)]

use program_streams::card::BYTES;

fn main(rt: HostRuntime) {
    let usage = b"usage: card2list < CARD > LIST\n";
    let mut bytes = [0u8; BYTES];
    let read = program_streams::card::read(&rt, &mut bytes, 0, usage, b"card2list: standard input");
    let Some(n) = read else {
        return;
    };
    let mut out = [0u8; text_export::LIST];
    let mut err = [0u8; program_converting::LINE];
    let written = program_converting::to_list::convert(&bytes[..n], &mut out, &mut err);
    program_streams::write(
        &rt,
        &rt.stdout(),
        &out[..written.output],
        b"card2list: standard output",
    );
    program_streams::say(&rt, &err[..written.errors]);
}
