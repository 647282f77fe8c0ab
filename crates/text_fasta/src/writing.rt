// Writing a record: from a name and letters to its bytes at the start of a lent output.
ghost use Rattle.std.specs.Prelude.{◌≡◌, true, [], ◌∷◌, ◌++◌, ◌+◌, ◌≤◌, ◌<◌, length, leb};
ghost use Rattle.base_answers.specs.Answer.{first, sound, says, says_held};
ghost use Rattle.base_letters.specs.Letters.{is_letter};
ghost use Rattle.base_text.specs.Putting.{Put};
ghost use Rattle.text_fasta.specs.Record.{newline, most_name, leading, is_name, are_letters, lines_for, in_lines, record_of};
ghost use Rattle.text_fasta.specs.Writing.{letter_test, Writes};

use base_answers::Refusal;

// Whether there are letters and nothing else; or the refusal, with the count of letters before the first byte that is none.
fn letters_hold(letters: &[u8]) -> Result<(), Refusal>
    ensures { says_held result ≡ first (letter_test letters.now ∷ []) sound }
{
    if !letters.is_empty() && crate::are_letters(letters) {
        return Ok(());
    }
    Err(Refusal::Letter(crate::leading(letters, base_letters::is_letter)))
}

// Whether a room has the bytes of a record with k bytes of name and n letters. No sum is taken that n could make too large.
fn fits(k: usize, n: usize, room: usize) -> bool
    requires { (k ≤ most_name) × (0 < n) }
    ensures { result ≡ leb (k + 2 + (n + lines_for n)) room }
{
    let lines = n.div_ceil(crate::LINE_LETTERS);
    let left = room
        .checked_sub(k + 2)
        .and_then(|left| left.checked_sub(lines));
    left.is_some_and(|left| n <= left)
}

// Puts a line and its end.
fn put_line(out: &mut [u8], at: usize, letters: &[u8]) -> usize
    requires { at + length letters.now < length out.old }
    ensures { Put (letters.now ++ (newline ∷ [])) at out.old result out.new }
{
    let end = base_text::put_text(out, at, letters);
    out[end] = crate::NEWLINE;
    end + 1
}

// Puts letters in lines.
fn put_lines(out: &mut [u8], at: usize, letters: &[u8]) -> usize
    requires { at + length (in_lines letters.now) ≤ length out.old }
    ensures { Put (in_lines letters.now) at out.old result out.new }
{
    let mut to = at;
    for line in letters.chunks(crate::LINE_LETTERS) {
        to = put_line(out, to, line);
    }
    to
}

// Puts a record at the start.
fn put_record(out: &mut [u8], name: &[u8], letters: &[u8]) -> usize
    requires { length (record_of name.now letters.now) ≤ length out.old }
    ensures { Put (record_of name.now letters.now) 0 out.old result out.new }
{
    out[0] = crate::MARK;
    let end = put_line(out, 1, name);
    put_lines(out, end, letters)
}

// Writes what is a name and letters.
fn write_named(name: &[u8], letters: &[u8], out: &mut [u8]) -> Result<usize, Refusal>
    requires { (is_name name.now ≡ true) × (are_letters letters.now ≡ true) }
    ensures { Writes name.now letters.now out.old (says result) out.new }
{
    if !fits(name.len(), letters.len(), out.len()) {
        return Err(Refusal::Room);
    }
    Ok(put_record(out, name, letters))
}

// The record of a name and letters at the start of the output, with its length; or the refusal, and then no byte of the output differs.
pub fn write(name: &[u8], letters: &[u8], out: &mut [u8]) -> Result<usize, Refusal>
    ensures { Writes name.now letters.now out.old (says result) out.new }
{
    if !crate::is_name(name) {
        return Err(Refusal::Name);
    }
    letters_hold(letters)?;
    write_named(name, letters, out)
}
