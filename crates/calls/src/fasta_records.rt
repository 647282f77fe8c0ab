// The records that write a name and letters as a FASTA record and read that, or read any, and the line that each prints.
use base_answers::Refusal;
use std::io::{Read, Write};
use test_records::input::FIELDS;
use test_records::lent::ROOM;
use test_records::{input, lent, output};
use text_fasta::{reading, writing};

// Tells what reading answers, both lengths or the refusal, and what the two outputs hold afterwards.
fn tell_parts(
    to: &mut impl Write,
    p: Result<(usize, usize), Refusal>,
    name: &[u8],
    letters: &[u8],
) {
    match p {
        Ok((n, k)) => output::two(to, b"parts", n, k),
        Err(r) => output::refused(to, r.number(), r.place()),
    }
    output::hash(to, name);
    output::hash(to, letters);
    output::text(to, b"\n")
}

// Reads the first n bytes of what was written, and says whether there are as many.
fn read_back(to: &mut impl Write, out: &[u8], n: usize) -> bool {
    if out.len() < n {
        return false;
    }
    let mut name = lent::bytes();
    let mut letters = lent::bytes();
    let p = reading::read(&out[..n], &mut name, &mut letters);
    output::text(to, b" ");
    tell_parts(to, p, &name, &letters);
    true
}

// Writes the name and the letters that follow, of as many bytes as are lent, and reads what was written; says whether the input has them.
fn write_told(
    from: &mut impl Read,
    to: &mut impl Write,
    name: &mut [u8],
    letters: &mut [u8],
    out: &mut [u8],
) -> bool {
    if !input::fill(from, name) || !input::fill(from, letters) {
        return false;
    }
    match writing::write(name, letters, out) {
        Ok(n) => {
            output::one(to, b"record", n);
            output::hash(to, out);
            read_back(to, out, n)
        }
        Err(r) => {
            output::refused(to, r.number(), r.place());
            output::hash(to, out);
            output::text(to, b"\n");
            true
        }
    }
}

// Reads the FASTA record that follows, of as many bytes as are lent, and says whether the input has it.
fn read_told(
    from: &mut impl Read,
    to: &mut impl Write,
    record: &mut [u8],
    name: &mut [u8],
    letters: &mut [u8],
) -> bool {
    if !input::fill(from, record) {
        return false;
    }
    let p = reading::read(record, name, letters);
    tell_parts(to, p, name, letters);
    true
}

// The one or the other, by the tag, with what is lent.
fn told(
    from: &mut impl Read,
    to: &mut impl Write,
    tag: u8,
    a: &mut [u8],
    b: &mut [u8],
    c: &mut [u8],
) -> bool {
    match tag {
        b'W' => write_told(from, to, a, b, c),
        _ => read_told(from, to, a, b, c),
    }
}

// The same with as many bytes of each as the fields say, where there can be such.
pub fn of_fields(
    from: &mut impl Read,
    to: &mut impl Write,
    tag: u8,
    fields: &[u8; FIELDS],
) -> bool {
    let i = usize::from(card_block::two_at(fields, 0));
    let j = usize::from(card_block::two_at(fields, 2));
    let k = usize::from(card_block::two_at(fields, 4));
    if ROOM < i || ROOM < j || ROOM < k {
        return false;
    }
    let mut a = lent::bytes();
    let mut b = lent::bytes();
    let mut c = lent::bytes();
    told(from, to, tag, &mut a[..i], &mut b[..j], &mut c[..k])
}
