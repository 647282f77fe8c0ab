// The records that import a list, export a card, or do the one after the other, and the line that each prints.
ghost use Rattle.std.specs.Prelude.{◌≤◌};
ghost use Rattle.test_records.specs.Record.{slots};

use base_answers::Refusal;
use std::io::{Read, Write};
use test_records::input::FIELDS;
use test_records::lent::{ROOM, SLOTS, TEXT_ROOM};
use test_records::{input, lent, output};

// Tells what importing answers, the card's length under this name or the refusal, and what the output holds afterwards.
fn tell_card(to: &mut impl Write, name: &[u8], w: Result<usize, Refusal>, out: &[u8]) {
    output::written(to, name, w, out);
    output::text(to, b"\n")
}

// Imports the list that follows, of as many bytes as are lent, and says whether the input has it.
fn import_told(from: &mut impl Read, to: &mut impl Write, list: &mut [u8], out: &mut [u8]) -> bool {
    if !input::fill(from, list) {
        return false;
    }
    let w = text_import::import(list, out);
    tell_card(to, b"card", w, out);
    true
}

// The same with a list and an output of as many bytes as the fields say, where there can be such. The functions of a record stand alike, as
// settle.rt says.
pub fn of_list(from: &mut impl Read, to: &mut impl Write, fields: &[u8; FIELDS]) -> bool {
    let Some((n, room)) = input::lengths(fields, TEXT_ROOM, ROOM) else {
        return false;
    };
    let mut list = lent::texts();
    let mut out = lent::bytes();
    import_told(from, to, &mut list[..n], &mut out[..room])
}

// Exports the card that follows, of as many bytes as are lent, and says whether the input has it.
fn export_told(from: &mut impl Read, to: &mut impl Write, card: &mut [u8], out: &mut [u8]) -> bool {
    if !input::fill(from, card) {
        return false;
    }
    let e = text_export::export(card, out);
    output::written(to, b"list", e, out);
    output::text(to, b"\n");
    true
}

// The same with a card and an output of as many bytes as the fields say, where there can be such.
pub fn of_card(from: &mut impl Read, to: &mut impl Write, fields: &[u8; FIELDS]) -> bool {
    let Some((n, room)) = input::lengths(fields, ROOM, TEXT_ROOM) else {
        return false;
    };
    let mut card = lent::bytes();
    let mut out = lent::texts();
    export_told(from, to, &mut card[..n], &mut out[..room])
}

// Imports the first n bytes of a list that was exported, and says whether it has as many.
fn import_again(to: &mut impl Write, list: &[u8], n: usize, out: &mut [u8]) -> bool {
    if list.len() < n {
        return false;
    }
    let w = text_import::import(&list[..n], out);
    tell_card(to, b"again", w, out);
    true
}

// Exports a card and imports its list, and says whether that can be.
fn again(to: &mut impl Write, card: &[u8]) -> bool {
    let mut list = lent::texts();
    let mut out = lent::bytes();
    match text_export::export(card, &mut list) {
        Ok(n) => import_again(to, &list, n, &mut out),
        Err(r) => {
            tell_card(to, b"again", Err(r), &out);
            true
        }
    }
}

// The same with the card that follows, of as many bytes as are lent; says whether the input has it.
fn again_told(from: &mut impl Read, to: &mut impl Write, card: &mut [u8]) -> bool {
    if !input::fill(from, card) {
        return false;
    }
    again(to, card)
}

// The same with a card of as many bytes as the fields say, where there can be such.
pub fn again_of_card(from: &mut impl Read, to: &mut impl Write, fields: &[u8; FIELDS]) -> bool {
    let n = card_block::four_at(fields, 0) as usize;
    if ROOM < n {
        return false;
    }
    let mut card = lent::bytes();
    again_told(from, to, &mut card[..n])
}

// Exports the card of the first n bytes, tells its list, and imports that; says whether there are as many bytes, and a list.
fn list_and_again(to: &mut impl Write, card: &[u8], n: usize) -> bool {
    if card.len() < n {
        return false;
    }
    let mut list = lent::texts();
    let mut out = lent::bytes();
    let e = text_export::export(&card[..n], &mut list);
    output::written(to, b"list", e, &list);
    output::text(to, b" ");
    match e {
        Ok(k) => import_again(to, &list, k, &mut out),
        Err(_) => false,
    }
}

// The same with the card of the lists that follow, of m slots each; says whether the input has them, and there is a card.
fn lists_told(from: &mut impl Read, to: &mut impl Write, fields: &[u8; FIELDS], m: usize) -> bool
    requires { m ≤ slots }
{
    let Some(read) = input::lists(from, m, m, m) else {
        return false;
    };
    let kind = input::eight_at(fields, 0);
    let l = input::eight_at(fields, 8);
    let mut card = lent::bytes();
    match card_writer::write(
        kind,
        l,
        &read.words[..m],
        &read.ones[..m],
        &read.twos[..m],
        &mut card,
    ) {
        Ok(n) => list_and_again(to, &card, n),
        Err(_) => false,
    }
}

// The same with lists of as many slots as the fields say, where there can be such.
pub fn again_of_lists(from: &mut impl Read, to: &mut impl Write, fields: &[u8; FIELDS]) -> bool {
    let m = usize::from(card_block::two_at(fields, 16));
    if SLOTS < m {
        return false;
    }
    lists_told(from, to, fields, m)
}
