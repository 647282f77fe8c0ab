// The records that count the builds of a card or of lists, and the line that each prints.
ghost use Rattle.std.specs.Prelude.{◌≤◌};
ghost use Rattle.test_records.specs.Record.{slots};

use base_answers::Refusal;
use std::io::{Read, Write};
use test_records::input::FIELDS;
use test_records::lent::ROOM;
use test_records::{input, lent, output};

// Tells the number of builds.
fn tell(to: &mut impl Write, n: Result<Option<usize>, Refusal>) {
    match n {
        Ok(Some(k)) => output::one(to, b"power", k),
        Ok(None) => output::text(to, b"none"),
        Err(r) => output::refused(to, r.number(), r.place()),
    }
    output::text(to, b"\n")
}

// Counts the builds of the card that follows, of as many bytes as are lent, and says whether the input has it.
fn tell_card(from: &mut impl Read, to: &mut impl Write, card: &mut [u8]) -> bool {
    if !input::fill(from, card) {
        return false;
    }
    tell(to, build_count::count_card(card));
    true
}

// The functions of a record stand alike, as settle.rt says. The same with a card of as many bytes as the fields say, where there can be such.
pub fn of_card(from: &mut impl Read, to: &mut impl Write, fields: &[u8; FIELDS]) -> bool {
    let n = card_block::four_at(fields, 0) as usize;
    if ROOM < n {
        return false;
    }
    let mut card = lent::bytes();
    tell_card(from, to, &mut card[..n])
}

// Counts the builds of the lists that follow, of so many slots, and says whether the input has them.
fn tell_lists(
    from: &mut impl Read,
    to: &mut impl Write,
    fields: &[u8; FIELDS],
    a: usize,
    b: usize,
    c: usize,
) -> bool
    requires { (a ≤ slots) × (b ≤ slots) × (c ≤ slots) }
{
    let Some(read) = input::lists(from, a, b, c) else {
        return false;
    };
    let kind = input::eight_at(fields, 0);
    let l = input::eight_at(fields, 8);
    tell(
        to,
        build_count::count_lists(kind, l, &read.words[..a], &read.ones[..b], &read.twos[..c]),
    );
    true
}

// The same with lists of as many slots as the fields say, where there can be such.
pub fn of_lists(from: &mut impl Read, to: &mut impl Write, fields: &[u8; FIELDS]) -> bool {
    let Some((a, b, c)) = input::slots_at(fields, 16) else {
        return false;
    };
    tell_lists(from, to, fields, a, b, c)
}
