// Runs stored records, each of which counts the builds of a card or of lists, settles a card or lists, imports a list or exports a card, or writes
// or reads a FASTA record, and prints a line for each. The records stand on standard input, one after the other: a tag byte, and then the record's
// fields, little-endian.
//     C n bytes    counts the builds of the card of the n bytes after it
//     L kind l a b c words ones twos
//                  counts the builds of lists of a words (four bytes each), b places one and c places two (two bytes each)
//                                       `power EXPONENT` or `none`
//     S n room bytes
//                  settles the card of the n bytes after it into an output of `room` bytes, each of which holds 165 before the call
//     T kind l a b c room words ones twos
//                  settles such lists into such an output
//                                       `sole LENGTH PLACEMENTS HASH` or `several`, or `none PLACEMENTS HASH`
//     I n room bytes
//                  imports the list of the n bytes after it into such an output
//                                       `card LENGTH HASH`
//     X n room bytes
//                  exports the card of the n bytes after it into such an output
//                                       `list LENGTH HASH`
//     Y n bytes    exports the card of the n bytes after it, and imports its list into an output of 6,400 bytes
//                                       `again LENGTH HASH`
//     Z kind l m words ones twos
//                  writes the card of lists of m slots each, exports it, and imports its list in the same way
//                                       `list LENGTH HASH again LENGTH HASH`
//     W i j k name letters
//                  writes the name, of i bytes, and the letters, of j, into such an output of k bytes, and reads that record into two of 6,400
//                                       `record LENGTH HASH parts NAME LETTERS HASH HASH`
//     R i j k bytes
//                  reads the FASTA record of the i bytes after it into such outputs, of j bytes for its name and of k for its letters
//                                       `parts NAME LETTERS HASH HASH`
// A call that refuses prints `refused N P`, for all but C and L with the hash of the whole output after it, or of both. n has four bytes, and is at
// most 6,400, for I 16,384; kind and l have eight; a, b, c, m and `room` have two, and are at most 600, but `room` for I 6,400 and for X 16,384;
// i, j and k have two, and are at most 6,400. A record that is none of these, or is cut, ends the run with the line `bad record`.
// No contract can say what was read or printed: these state bounds alone.
#![tactic(auto)]

mod count;
mod fasta_records;
mod listing;
mod settle;

ghost use Rattle.std.specs.Prelude.{◌≤◌};
ghost use Rattle.test_records.specs.Record.{field_bytes};

use std::io::{Read, Write};
use test_records::input::FIELDS;
use test_records::{input, output};

// A proved loop has to end, and nothing says that standard input does: no run has as many records.
const TURNS: u32 = 4000000;

// How many bytes the fields of a record have that stand before its lists or its card.
fn bytes_of(tag: u8) -> usize
    ensures { result ≤ field_bytes }
{
    match tag {
        b'C' | b'Y' => 4,
        b'S' | b'I' | b'X' | b'W' | b'R' => 6,
        b'Z' => 18,
        b'L' => 22,
        b'T' => FIELDS,
        _ => 0,
    }
}

// Runs a record, and says whether there is such a record, and all of it. A tag stays the byte that the format above has: an enum would name each tag
// a second and a third time.
fn run(from: &mut impl Read, to: &mut impl Write, tag: u8, fields: &[u8; FIELDS]) -> bool {
    match tag {
        b'C' => count::of_card(from, to, fields),
        b'L' => count::of_lists(from, to, fields),
        b'S' => settle::of_card(from, to, fields),
        b'T' => settle::of_lists(from, to, fields),
        b'I' => listing::of_list(from, to, fields),
        b'X' => listing::of_card(from, to, fields),
        b'Y' => listing::again_of_card(from, to, fields),
        b'Z' => listing::again_of_lists(from, to, fields),
        b'W' | b'R' => fasta_records::of_fields(from, to, tag, fields),
        _ => false,
    }
}

// Reads the next record and runs it, and says whether there may be more.
fn next(from: &mut impl Read, to: &mut impl Write) -> bool {
    let mut tag = [0u8; 1];
    if !input::fill(from, &mut tag) {
        return false;
    }
    let mut fields = [0u8; FIELDS];
    let k = bytes_of(tag[0]);
    if input::fill(from, &mut fields[..k]) && run(from, to, tag[0], &fields) {
        return true;
    }
    output::text(to, b"bad record\n");
    false
}

// Runs the records in turn.
fn run_all(from: &mut impl Read, to: &mut impl Write) {
    for _ in 0..TURNS {
        if !next(from, to) {
            return;
        }
    }
}

fn main(rt: HostRuntime) {
    run_all(&mut rt.stdin(), &mut rt.stdout());
}
