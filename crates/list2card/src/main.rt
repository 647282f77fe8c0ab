// The program `list2card`: reads a probe list from standard input, and writes its card, or on standard error why there is none. `card2list` and
// `card2fasta` are as short, with their own names, rooms and conversions: a function that is given all these would be longer than each.
#![tactic(auto)]

use program_streams::list::BYTES;

fn main(rt: HostRuntime) {
    let usage = b"usage: list2card < LIST > CARD\n";
    let mut bytes = [0u8; BYTES];
    let read = program_streams::list::read(&rt, &mut bytes, usage, b"list2card: standard input");
    let Some(n) = read else {
        return;
    };
    let mut out = [0u8; card_layout::LONGEST];
    let mut err = [0u8; program_converting::LINE];
    let written = program_converting::to_card::convert(&bytes[..n], &mut out, &mut err);
    program_streams::write(
        &rt,
        &rt.stdout(),
        &out[..written.output],
        b"list2card: standard output",
    );
    program_streams::say(&rt, &err[..written.errors]);
}
