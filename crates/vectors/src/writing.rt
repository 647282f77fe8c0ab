// The records that write a card, of their own lists or of what the card holds, and the line that each prints.
ghost use Rattle.std.specs.Prelude.{◌≤◌, length};
ghost use Rattle.test_records.specs.Record.{slots};
ghost use Rattle.vectors.specs.Within.{Within};

use base_answers::Refusal;
use card_entries::Format;
use std::io::{Read, Write};
use test_records::input::FIELDS;
use test_records::lent::ROOM;
use test_records::{input, lent, output};

// Reads lists of a, b and c slots, and writes a card of them, with the kind and l that the fields say.
pub fn write_lists(
    from: &mut impl Read,
    fields: &[u8; FIELDS],
    a: usize,
    b: usize,
    c: usize,
    out: &mut [u8],
) -> Option<Result<usize, Refusal>>
    requires { (a ≤ slots) × (b ≤ slots) × (c ≤ slots) }
    ensures { Within (length out.old) result }
{
    let read = input::lists(from, a, b, c)?;
    Some(card_writer::write(
        input::eight_at(fields, 0),
        input::eight_at(fields, 8),
        &read.words[..a],
        &read.ones[..b],
        &read.twos[..c],
        out,
    ))
}

// Reads lists and writes a card of them, tells the answer, and says whether the input has the lists.
fn write_told(
    from: &mut impl Read,
    to: &mut impl Write,
    fields: &[u8; FIELDS],
    a: usize,
    b: usize,
    c: usize,
    out: &mut [u8],
) -> bool
    requires { (a ≤ slots) × (b ≤ slots) × (c ≤ slots) }
{
    let Some(w) = write_lists(from, fields, a, b, c, out) else {
        return false;
    };
    output::written(to, b"written", w, out);
    true
}

// The same with lists of as many slots, and an output of as many bytes, as the fields say, where there can be such. The functions of a record
// stand alike, each with its own limits and call.
pub fn of_lists(from: &mut impl Read, to: &mut impl Write, fields: &[u8; FIELDS]) -> bool {
    let Some((a, b, c)) = input::slots_at(fields, 16) else {
        return false;
    };
    let room = usize::from(card_block::two_at(fields, 22));
    if ROOM < room {
        return false;
    }
    let mut out = lent::bytes();
    write_told(from, to, fields, a, b, c, &mut out[..room])
}

// Writes a card of this format of the first m slots of each list.
fn write_first(
    to: &mut impl Write,
    f: Format,
    words: &[u32],
    ones: &[u16],
    twos: &[u16],
    out: &mut [u8],
)
    requires { (f.m ≤ length words.now) × (f.m ≤ length ones.now) × (f.m ≤ length twos.now) }
{
    let m = f.m;
    let w = card_writer::write(f.kind, f.l, &words[..m], &ones[..m], &twos[..m], out);
    output::written(to, b"written", w, out)
}

// Admits the card into lists, and writes it again of what they hold then, into an output of as many bytes as the fields say; answers whether
// there can be such an output.
pub fn again(to: &mut impl Write, card: &[u8], fields: &[u8; FIELDS]) -> bool {
    let room = usize::from(card_block::two_at(fields, 0));
    if ROOM < room {
        return false;
    }
    let mut words = lent::words();
    let mut ones = lent::places();
    let mut twos = lent::places();
    let mut out = lent::bytes();
    match card_reader::listing::admit_into(card, &mut words, &mut ones, &mut twos) {
        Ok(f) => write_first(to, f, &words, &ones, &twos, &mut out[..room]),
        Err(r) => output::written(to, b"written", Err(r), &out[..room]),
    }
    true
}
