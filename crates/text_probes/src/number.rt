// A number as it is listed: decimal, with no needless zero, and at most 65,535.
ghost use Rattle.std.specs.Prelude.{◌≡◌, ◌≤◌, length, drop};
ghost use Rattle.text_probes.specs.Reading.{read_digits, read_number};
ghost use Rattle.text_probes.specs.Says.{Reads, says_read, end_of};

// A number with the digits after it, which stand from `at` on.
#[tactic(auto, using(crate::proofs::Cursor::byte_there), unfolding(crate::specs::Reading::read_digits))]
fn read_digits(text: &[u8], at: usize, first: u16) -> Option<(u16, usize)>
    requires { at ≤ length text.now }
    ensures { Reads text.now (says_read text.now result) (read_digits first (drop at text.now)) (end_of result) }
{
    let mut v = first;
    for i in at..text.len() {
        let byte = text[i];
        if !byte.is_ascii_digit() {
            return Some((v, i));
        }
        // One test a digit: with `checked_mul` and `checked_add`, which are two, importing a list took a fifth longer.
        v = u16::try_from(10 * u32::from(v) + u32::from(byte - b'0')).ok()?;
    }
    Some((v, text.len()))
}

// The number that stands at `at`.
#[tactic(auto, using(crate::proofs::Cursor::byte_there), unfolding(crate::specs::Reading::read_number))]
pub fn read_number(text: &[u8], at: usize) -> Option<(u16, usize)>
    ensures { Reads text.now (says_read text.now result) (read_number (drop at text.now)) (end_of result) }
{
    let byte = *text.get(at)?;
    if byte == b'0' {
        return Some((0, at + 1));
    }
    if !byte.is_ascii_digit() {
        return None;
    }
    read_digits(text, at + 1, u16::from(byte - b'0'))
}
