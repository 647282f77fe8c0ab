// The records that settle a card or lists, and the line that each prints.
ghost use Rattle.std.specs.Prelude.{◌≤◌};
ghost use Rattle.test_records.specs.Record.{slots};

use base_answers::Refusal;
use build_card::BuildAnswer;
use std::io::{Read, Write};
use test_records::input::FIELDS;
use test_records::lent::{LETTERS, ROOM};
use test_records::{input, lent, output};

// Tells what settling answers, the verdict with its numbers or the refusal, and what the output holds afterwards.
fn tell(to: &mut impl Write, a: Result<BuildAnswer, Refusal>, out: &[u8]) {
    match a {
        Ok(BuildAnswer::Sole(n, k)) => output::two(to, b"sole", n, k as usize),
        Ok(BuildAnswer::Several(n, k)) => output::two(to, b"several", n, k as usize),
        Ok(BuildAnswer::None(k)) => output::one(to, b"none", k as usize),
        Ok(BuildAnswer::Unsettled(k)) => output::one(to, b"unsettled", k as usize),
        Err(r) => output::refused(to, r.number(), r.place()),
    }
    output::hash(to, out);
    output::text(to, b"\n")
}

// Settles the card that follows, of as many bytes as are lent, and says whether the input has it.
fn tell_card(from: &mut impl Read, to: &mut impl Write, card: &mut [u8], out: &mut [u8]) -> bool {
    if !input::fill(from, card) {
        return false;
    }
    let a = build_narrow::settle_card(card, out);
    tell(to, a, out);
    true
}

// The same with a card and an output of as many bytes as the fields say, where there can be such. The functions of a record stand alike: each has its
// own limits, its own lent bytes and its own call, and one function that is given all three would be longer than each.
pub fn of_card(from: &mut impl Read, to: &mut impl Write, fields: &[u8; FIELDS]) -> bool {
    let Some((n, room)) = input::lengths(fields, ROOM, LETTERS) else {
        return false;
    };
    let mut card = lent::bytes();
    let mut out = lent::bytes();
    tell_card(from, to, &mut card[..n], &mut out[..room])
}

// Settles the lists that follow, of so many slots, and says whether the input has them.
fn tell_lists(
    from: &mut impl Read,
    to: &mut impl Write,
    fields: &[u8; FIELDS],
    a: usize,
    b: usize,
    c: usize,
    out: &mut [u8],
) -> bool
    requires { (a ≤ slots) × (b ≤ slots) × (c ≤ slots) }
{
    let Some(read) = input::lists(from, a, b, c) else {
        return false;
    };
    let kind = input::eight_at(fields, 0);
    let l = input::eight_at(fields, 8);
    let s = build_narrow::settle_lists(
        kind,
        l,
        &read.words[..a],
        &read.ones[..b],
        &read.twos[..c],
        out,
    );
    tell(to, s, out);
    true
}

// The same with lists of as many slots, and an output of as many bytes, as the fields say, where there can be such.
pub fn of_lists(from: &mut impl Read, to: &mut impl Write, fields: &[u8; FIELDS]) -> bool {
    let Some((a, b, c)) = input::slots_at(fields, 16) else {
        return false;
    };
    let room = usize::from(card_block::two_at(fields, 22));
    if LETTERS < room {
        return false;
    }
    let mut out = lent::bytes();
    tell_lists(from, to, fields, a, b, c, &mut out[..room])
}
