// Reading a record: its name and its letters, each to the start of a lent output.
ghost use Rattle.std.specs.Prelude.{◌≡◌, true, false, [], ◌∷◌, ◌+◌, ◌-◌, ◌/◌, ◌≤◌, ◌<◌, length, take, drop};
ghost use Rattle.base_answers.specs.Numbers.{Name};
ghost use Rattle.base_answers.specs.Answer.{refused, sound, test, first, number_of, place_of, says, says_held};
ghost use Rattle.base_text.specs.Putting.{Put};
ghost use Rattle.base_letters.specs.Letters.{is_letter};
ghost use Rattle.text_fasta.specs.Record.{line_letters, leading, are_all};
ghost use Rattle.text_fasta.specs.Writing.{letter_test};
ghost use Rattle.text_fasta.specs.Reading.{no_break, name_length, is_headed, body_in, letters_in, are_lines, Reads};
ghost use Rattle.text_fasta.specs.Inner.{name_reach, is_line, is_body, body_tests};

use base_answers::Refusal;

// How many bytes of a line are looked at at once.
const PIECE: usize = 20;

// How many bytes stand after the first and before the first newline; where there are more than a name may have, one more than that.
fn name_length(bytes: &[u8]) -> usize
    ensures { result ≡ leading no_break (take name_reach (drop 1 bytes.now)) }
{
    if bytes.is_empty() {
        return 0;
    }
    let end = bytes.len().min(crate::MOST_NAME + 2);
    crate::leading(&bytes[1..end], |b| b != crate::NEWLINE)
}

// Whether a record begins with its mark, a name of n bytes and the end of their line.
fn is_headed(bytes: &[u8], n: usize) -> bool
    requires { n ≡ leading no_break (take name_reach (drop 1 bytes.now)) }
    ensures { result ≡ is_headed bytes.now }
{
    let end = n + 1;
    end < bytes.len() && bytes[0] == crate::MARK && crate::is_name(&bytes[1..end])
}

// The length of a record's name.
fn name_in(bytes: &[u8]) -> Result<usize, Refusal>
    ensures { says result ≡ first (test (is_headed bytes.now) Name 0 ∷ []) (name_length bytes.now) }
{
    let n = name_length(bytes);
    if !is_headed(bytes, n) {
        return Err(Refusal::Name);
    }
    Ok(n)
}

// Whether the bytes of a line are letters alone, piece by piece: pieces of one length, of which a full line is three, take the compiler no
// loop.
fn are_line_letters(line: &[u8]) -> bool
    ensures { result ≡ are_all is_letter line.now }
{
    let (pieces, rest) = line.as_chunks::<PIECE>();
    let mut all = true;
    for piece in pieces {
        all &= crate::are_letters(piece);
    }
    all & crate::are_letters(rest)
}

// Whether bytes are a line: a letter or more, and then a newline.
fn is_line(line: &[u8]) -> bool
    ensures { result ≡ is_line line.now }
{
    let Some((end, letters)) = line.split_last() else {
        return false;
    };
    !letters.is_empty() && *end == crate::NEWLINE && are_line_letters(letters)
}

// Whether a body is letters in lines.
fn is_body(body: &[u8]) -> bool
    ensures { result ≡ is_body body.now }
{
    !body.is_empty() && body.chunks(crate::LINE_LETTERS + 1).all(is_line)
}

// Whether the bytes of a body but the newlines are letters; or the refusal, with the count of letters before the first that is none. In
// `writing` a newline is no letter, so that the letters can be looked at many at once.
fn letters_hold(body: &[u8]) -> Result<(), Refusal>
    ensures { says_held result ≡ first (letter_test (letters_in body.now) ∷ []) sound }
{
    let mut k = 0;
    for b in body {
        if base_letters::is_letter(*b) {
            k += 1;
        } else if *b != crate::NEWLINE {
            return Err(Refusal::Letter(k));
        }
    }
    if k == 0 {
        return Err(Refusal::Letter(0));
    }
    Ok(())
}

// Why a body is not letters in lines.
fn fault_in(body: &[u8]) -> Refusal
    requires { is_body body.now ≡ false }
    ensures { refused (number_of result) (place_of result) ≡ first (body_tests body.now) sound }
{
    match letters_hold(body) {
        Err(r) => r,
        Ok(()) => Refusal::Line,
    }
}

// How many of n bytes are letters, where they are letters in lines: all but a newline for each line.
fn letters_among(n: usize) -> usize
    requires { 0 < n }
    ensures { result ≡ n - ((n - 1) / (line_letters + 1) + 1) }
{
    n - n.div_ceil(crate::LINE_LETTERS + 1)
}

// Puts the letters of lines at the start.
fn put_letters(out: &mut [u8], body: &[u8]) -> usize
    requires { (are_lines body.now ≡ true) × (length (letters_in body.now) ≤ length out.old) }
    ensures { Put (letters_in body.now) 0 out.old result out.new }
{
    let mut to = 0;
    for line in body.chunks(crate::LINE_LETTERS + 1) {
        to = base_text::put_text(out, to, &line[..line.len() - 1]);
    }
    to
}

// Reads a record with a name of n bytes, of which the body is letters in lines.
fn read_lines(
    bytes: &[u8],
    n: usize,
    name: &mut [u8],
    letters: &mut [u8],
) -> Result<(usize, usize), Refusal>
    requires { (is_headed bytes.now ≡ true) × (n ≡ name_length bytes.now) × (is_body (body_in bytes.now) ≡ true) }
    ensures { Reads bytes.now name.old letters.old (says result) name.new letters.new }
{
    let at = n + 2;
    let body = &bytes[at..];
    let k = letters_among(body.len());
    if name.len() < n || letters.len() < k {
        return Err(Refusal::Room);
    }
    let end = n + 1;
    base_text::put_text(name, 0, &bytes[1..end]);
    put_letters(letters, body);
    Ok((n, k))
}

// Reads a record with a name of n bytes.
fn read_named(
    bytes: &[u8],
    n: usize,
    name: &mut [u8],
    letters: &mut [u8],
) -> Result<(usize, usize), Refusal>
    requires { (is_headed bytes.now ≡ true) × (n ≡ name_length bytes.now) }
    ensures { Reads bytes.now name.old letters.old (says result) name.new letters.new }
{
    let at = n + 2;
    let body = &bytes[at..];
    if is_body(body) {
        return read_lines(bytes, n, name, letters);
    }
    Err(fault_in(body))
}

// The name and the letters of a record at the start of the outputs, with their lengths; or the refusal, and then no byte of either differs.
pub fn read(bytes: &[u8], name: &mut [u8], letters: &mut [u8]) -> Result<(usize, usize), Refusal>
    ensures { Reads bytes.now name.old letters.old (says result) name.new letters.new }
{
    let n = name_in(bytes)?;
    read_named(bytes, n, name, letters)
}
