// The records that read the card, and the line that each prints.
use base_answers::Refusal;
use card_entries::{Entry, Format, Places};
use card_reader::Head;
use std::io::Write;
use test_records::input::FIELDS;
use test_records::{hashes, input, lent, output};

// What admitting answers: the card's kind, l and m, after a name, or the refusal.
fn admitted(to: &mut impl Write, a: Result<Format, Refusal>, name: &[u8]) {
    match a {
        Ok(f) => output::three(to, name, f.kind, f.l, f.m),
        Err(r) => output::refused(to, r.number(), r.place()),
    }
}

// An entry after a name: its word and its places.
fn entry(to: &mut impl Write, name: &[u8], e: Entry) {
    output::one(to, name, e.word as usize);
    let places = e.places;
    match places {
        Places::One(p) => output::one(to, b" one", usize::from(p)),
        Places::Two(p, q) => output::two(to, b" two", usize::from(p), usize::from(q)),
        Places::Span(f, g) => output::two(to, b" span", usize::from(f), usize::from(g)),
    }
}

// Admits the card.
pub fn admit(to: &mut impl Write, card: &[u8]) {
    admitted(to, card_reader::admit(card), b"admit")
}

// Fetches entry i.
pub fn fetch_entry(to: &mut impl Write, card: &[u8], i: usize) {
    match card_reader::fetch_entry(card, i) {
        Ok(e) => entry(to, b"entry", e),
        Err(r) => output::refused(to, r.number(), r.place()),
    }
}

// Takes a step of a head.
pub fn step(to: &mut impl Write, card: &[u8], at: usize) {
    let head = Head { at };
    match head.step(card) {
        Ok(Some((e, next))) => {
            entry(to, b"step", e);
            output::number(to, next.at)
        }
        Ok(None) => output::text(to, b"end"),
        Err(r) => output::refused(to, r.number(), r.place()),
    }
}

// Fetches block k.
pub fn fetch(to: &mut impl Write, card: &[u8], k: usize) {
    let part = card_block::fetch(card, k);
    output::two(to, b"part", part.len(), hashes::of(part))
}

// Asks the companion of block k.
pub fn companion(to: &mut impl Write, card: &[u8], k: usize) {
    match card_block::companion(card, k) {
        Ok(()) => output::text(to, b"holds"),
        Err(r) => output::refused(to, r.number(), r.place()),
    }
}

// Admits the card into the lists, and tells what they hold afterwards.
fn list(to: &mut impl Write, card: &[u8], words: &mut [u32], ones: &mut [u16], twos: &mut [u16]) {
    let a = card_reader::listing::admit_into(card, words, ones, twos);
    let x = hashes::of(words);
    let y = hashes::of(ones);
    let z = hashes::of(twos);
    admitted(to, a, b"lists");
    output::number(to, x);
    output::number(to, y);
    output::number(to, z)
}

// Admits the card into lists of as many slots as the fields say, and answers whether there can be such lists.
pub fn admit_into(to: &mut impl Write, card: &[u8], fields: &[u8; FIELDS]) -> bool {
    let Some((a, b, c)) = input::slots_at(fields, 0) else {
        return false;
    };
    let mut words = lent::words();
    let mut ones = lent::places();
    let mut twos = lent::places();
    list(to, card, &mut words[..a], &mut ones[..b], &mut twos[..c]);
    true
}
