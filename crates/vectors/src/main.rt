// Runs stored records, each of which sets the card or calls one operation on it, and prints a line for each call. The records stand on
// standard input, one after the other: a tag byte, and then the record's fields, little-endian.
//     C n bytes    sets the card to the n bytes after it (n in four bytes)
//     A            admit                `admit KIND L M`
//     E i          fetch entry i        `entry WORD PLACES`
//     H at         step a head at `at`  `step WORD PLACES NEXT`, or `end`
//     B k          fetch block k        `part LENGTH HASH`
//     F k          its companion        `holds`
//     L a b c      admit into lists of a words, b places one and c places two
//                                       `lists KIND L M X Y Z`, with the hash of each list afterwards
//     W kind l a b c room words ones twos
//                  write a card of a words (four bytes each), b places one and c places two (two bytes each) into an output of
//                  `room` bytes, each of which holds 165 before the call
//                                       `written LENGTH HASH`, with the hash of the whole output afterwards
//     R room       admit into lists of 600 slots, and write the card of their first m slots again, into such an output
//                                       the line of W
//     G kind l m words ones twos
//                  sets the card to the one that the writer makes of these lists of m slots each
//     D budget room
//                  build from the card (the budget in four bytes) into an output of `room` bytes, each of which holds 165 before the call
//                                       `sole LENGTH PLACEMENTS HASH` or `several`, or `none PLACEMENTS HASH` or `unsettled`
// A call that refuses prints `refused N P`, for L with the three hashes after it, for W, R and D with the output's. PLACES is `one P`,
// `two P Q` or `span F G`. i, `at`, k, kind and l have eight bytes; a, b, c, m and `room` have two, and are at most 600, but `room` of W and
// R at most 6,400. A record that is none of these, or is cut, ends the run with the line `bad record`.
// No contract can say what was read or printed: these state bounds alone, of the card's length and of what is written.
#![tactic(auto)]

mod building;
mod cards;
mod reading;
mod writing;

ghost use Rattle.std.specs.Prelude.{◌≤◌, IfSome, length};
ghost use Rattle.test_records.specs.Record.{field_bytes};

use std::io::{Read, Write};
use test_records::input::FIELDS;
use test_records::{input, output};

// The most bytes of a card.
const MOST: usize = 6144;
// A proved loop has to end, and nothing says that standard input does: no run has as many records.
const TURNS: u32 = 4000000;

// How many bytes the fields of a record have that stand before its lists or its card.
fn bytes_of(tag: u8) -> usize
    ensures { result ≤ field_bytes }
{
    match tag {
        b'A' => 0,
        b'R' => 2,
        b'C' => 4,
        b'D' | b'L' => 6,
        b'B' | b'E' | b'F' | b'H' => 8,
        b'G' => 18,
        b'W' => FIELDS,
        _ => 0,
    }
}

// Calls the operation of a tag that lends nothing, with the number x where it takes one, prints what it answers, and says whether there is such
// a tag. A tag stays the byte that the format above has: an enum would name each tag a second and a third time.
fn plain(to: &mut impl Write, tag: u8, x: usize, card: &[u8]) -> bool {
    match tag {
        b'A' => reading::admit(to, card),
        b'E' => reading::fetch_entry(to, card, x),
        b'H' => reading::step(to, card, x),
        b'B' => reading::fetch(to, card, x),
        b'F' => reading::companion(to, card, x),
        _ => {
            return false;
        }
    }
    true
}

// Calls the operation of a tag on the card, prints what it answers, and says whether there is such a record, and all of it.
fn answer(
    from: &mut impl Read,
    to: &mut impl Write,
    tag: u8,
    fields: &[u8; FIELDS],
    card: &[u8],
) -> bool {
    match tag {
        b'L' => reading::admit_into(to, card, fields),
        b'W' => writing::of_lists(from, to, fields),
        b'R' => writing::again(to, card, fields),
        b'D' => building::of_card(to, card, fields),
        _ => plain(to, tag, input::eight_at(fields, 0), card),
    }
}

// Runs a record on the card, which is the first n bytes of its buffer.
fn run(
    from: &mut impl Read,
    to: &mut impl Write,
    tag: u8,
    fields: &[u8; FIELDS],
    card: &mut [u8],
    n: usize,
) -> Option<usize>
    requires { n ≤ length card.old }
    ensures { IfSome result (λ n. n ≤ length card.new) }
{
    if tag == b'C' {
        return cards::set_card(from, to, card, card_block::four_at(fields, 0) as usize);
    }
    if tag == b'G' {
        return cards::write_card(from, to, card, fields);
    }
    if answer(from, to, tag, fields, &card[..n]) {
        output::text(to, b"\n");
        return Some(n);
    }
    cards::bad(to)
}

// Reads the next record, and runs it.
fn next(from: &mut impl Read, to: &mut impl Write, card: &mut [u8], n: usize) -> Option<usize>
    requires { n ≤ length card.old }
    ensures { IfSome result (λ n. n ≤ length card.new) }
{
    let mut tag = [0u8; 1];
    if !input::fill(from, &mut tag) {
        return None;
    }
    let mut fields = [0u8; FIELDS];
    let k = bytes_of(tag[0]);
    if !input::fill(from, &mut fields[..k]) {
        return cards::bad(to);
    }
    run(from, to, tag[0], &fields, card, n)
}

// Runs the records in turn.
fn run_all(from: &mut impl Read, to: &mut impl Write, card: &mut [u8]) {
    let mut n = 0;
    for _ in 0..TURNS {
        let Some(left) = next(from, to, card, n) else {
            return;
        };
        n = left;
    }
}

fn main(rt: HostRuntime) {
    let mut card = [0u8; MOST];
    run_all(&mut rt.stdin(), &mut rt.stdout(), &mut card);
}
