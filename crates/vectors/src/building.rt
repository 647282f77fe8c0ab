// The record that builds from the card, and the line that it prints.
use base_answers::Refusal;
use build_card::BuildAnswer;
use std::io::Write;
use test_records::input::FIELDS;
use test_records::lent::LETTERS;
use test_records::{lent, output};

// What build answers: the verdict with its numbers, or the refusal.
fn built(to: &mut impl Write, a: Result<BuildAnswer, Refusal>) {
    match a {
        Ok(BuildAnswer::Sole(n, k)) => output::two(to, b"sole", n, k as usize),
        Ok(BuildAnswer::Several(n, k)) => output::two(to, b"several", n, k as usize),
        Ok(BuildAnswer::None(k)) => output::one(to, b"none", k as usize),
        Ok(BuildAnswer::Unsettled(k)) => output::one(to, b"unsettled", k as usize),
        Err(r) => output::refused(to, r.number(), r.place()),
    }
}

// Builds from the card, and tells the answer and what the output holds afterwards.
fn build(to: &mut impl Write, card: &[u8], budget: u32, out: &mut [u8]) {
    built(to, build_card::build(card, budget, out));
    output::hash(to, out)
}

// Builds from the card, with the budget and into an output of as many bytes as the fields say, and answers whether there can be one.
pub fn of_card(to: &mut impl Write, card: &[u8], fields: &[u8; FIELDS]) -> bool {
    let budget = card_block::four_at(fields, 0);
    let room = usize::from(card_block::two_at(fields, 4));
    if LETTERS < room {
        return false;
    }
    let mut out = lent::bytes();
    build(to, card, budget, &mut out[..room]);
    true
}
