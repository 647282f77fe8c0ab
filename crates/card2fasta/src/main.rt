// The program `card2fasta NAME`: reads a card from standard input, and writes the FASTA record of its only build, by that name; or on standard
// error why there is none. It stands as `list2card` does, with an argument more.
#![tactic(auto)]

use program_streams::card::BYTES;
use std::rt::Env;
use text_fasta::MOST_NAME;

fn main(rt: HostRuntime) {
    let usage = b"usage: card2fasta NAME < CARD > RECORD\n";
    let mut bytes = [0u8; BYTES];
    let read = program_streams::card::read(
        &rt,
        &mut bytes,
        1,
        usage,
        b"card2fasta: standard input",
    );
    let Some(n) = read else {
        return;
    };
    // Of a name that is longer than one may be there are no bytes, and no record has an empty name.
    let mut name = [0u8; MOST_NAME];
    let k = rt.arg(1, &mut name).unwrap_or(0);
    let mut out = [0u8; program_converting::to_fasta::RECORD];
    let mut err = [0u8; program_lines::verdict::LINE];
    let written = program_converting::to_fasta::convert(
        &bytes[..n],
        &name[..k],
        &mut out,
        &mut err,
    );
    program_streams::write(
        &rt,
        &rt.stdout(),
        &out[..written.output],
        b"card2fasta: standard output",
    );
    program_streams::say(&rt, &err[..written.errors]);
}
