// The parts of a line, written to the output as they come. What the output does not take is left out, and told nowhere.
use crate::hashes;
use base_answers::Refusal;
use std::io::Write;

// A text.
pub fn text(to: &mut impl Write, text: &[u8]) {
    let _ = to.write_all(text);
}

// A space and a number in decimal.
pub fn number(to: &mut impl Write, x: usize) {
    let _ = write!(to, " {x}");
}

// A name and a number.
pub fn one(to: &mut impl Write, name: &[u8], x: usize) {
    text(to, name);
    number(to, x)
}

// A name and two numbers.
pub fn two(to: &mut impl Write, name: &[u8], x: usize, y: usize) {
    one(to, name, x);
    number(to, y)
}

// A name and three numbers.
pub fn three(to: &mut impl Write, name: &[u8], x: usize, y: usize, z: usize) {
    two(to, name, x, y);
    number(to, z)
}

// The hash of bytes, of an output after a call.
pub fn hash(to: &mut impl Write, bytes: &[u8]) {
    number(to, hashes::of(bytes))
}

// A refusal: its number and its place.
pub fn refused(to: &mut impl Write, number: usize, place: usize) {
    two(to, b"refused", number, place)
}

// What an operation answers that writes, a length after a name or the refusal, and what the output holds afterwards.
pub fn written(to: &mut impl Write, name: &[u8], r: Result<usize, Refusal>, out: &[u8]) {
    match r {
        Ok(n) => one(to, name, n),
        Err(r) => refused(to, r.number(), r.place()),
    }
    hash(to, out)
}
