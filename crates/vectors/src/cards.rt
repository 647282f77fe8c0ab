// The records that set the card: to bytes of their own, or to what the writer makes of lists.
ghost use Rattle.std.specs.Prelude.{◌≡◌, ◌≤◌, IfSome, None, length};

use crate::writing;
use std::io::{Read, Write};
use test_records::input::FIELDS;
use test_records::lent::SLOTS;
use test_records::{input, output};

// A record that is not one ends the run.
pub fn bad(to: &mut impl Write) -> Option<usize>
    ensures { result ≡ None }
{
    output::text(to, b"bad record\n");
    None
}

// Sets the card to the n bytes that follow. What a record leaves is how many bytes the card has, where there is more to read.
pub fn set_card(
    from: &mut impl Read,
    to: &mut impl Write,
    card: &mut [u8],
    n: usize,
) -> Option<usize>
    ensures { IfSome result (λ n. n ≤ length card.new) }
{
    if n <= card.len() && input::fill(from, &mut card[..n]) {
        Some(n)
    } else {
        bad(to)
    }
}

// Sets the card to the one that the writer makes of the lists that follow, of as many slots as the fields say.
pub fn write_card(
    from: &mut impl Read,
    to: &mut impl Write,
    card: &mut [u8],
    fields: &[u8; FIELDS],
) -> Option<usize>
    ensures { IfSome result (λ n. n ≤ length card.new) }
{
    let m = usize::from(card_block::two_at(fields, 16));
    if SLOTS < m {
        return bad(to);
    }
    match writing::write_lists(from, fields, m, m, m, card) {
        Some(Ok(n)) => Some(n),
        _ => bad(to),
    }
}
