// Line 2 of what `build` and `settle` print: the verdict.
ghost use Rattle.std.specs.Prelude.{[], ◌∷◌, ◌+◌, ◌≤◌, length};
ghost use Rattle.base_answers.specs.Answer.{says};
ghost use Rattle.base_text.specs.Text.{decimal, line};
ghost use Rattle.base_text.specs.Putting.{most_digits, Put};
ghost use Rattle.program_lines.specs.ByAnswer.{verdict_by, verdict_told, length_in, letters_told};
ghost use Rattle.program_lines.specs.Rooms.{verdict_room};

use base_answers::Refusal;
use build_card::BuildAnswer;

// Room for the line with the longest sequence.
pub const LINE: usize = crate::LETTERS + 32;

// The line with a sequence.
fn put_sequence(out: &mut [u8], at: usize, verdict: &[u8], letters: &[u8], n: u32) -> usize
    requires { at + length verdict.now + 1 + length letters.now + 2 + most_digits ≤ length out.old }
    ensures { Put (line verdict.now (letters.now ∷ decimal n ∷ [])) at out.old result out.new }
{
    let letters_at = base_text::put_text(out, at, verdict);
    let n_at = base_text::put_field(out, letters_at, letters);
    base_text::put_last(out, n_at, n as usize)
}

// The line without one.
fn put_placements(out: &mut [u8], at: usize, verdict: &[u8], n: u32) -> usize
    requires { at + length verdict.now + 2 + most_digits ≤ length out.old }
    ensures { Put (line verdict.now (decimal n ∷ [])) at out.old result out.new }
{
    let n_at = base_text::put_text(out, at, verdict);
    base_text::put_last(out, n_at, n as usize)
}

// The line by an answer that is no refusal, and by the letters that it left.
fn put_told(out: &mut [u8], at: usize, answer: BuildAnswer, letters: &[u8]) -> usize
    requires letters_there { length_in answer ≤ length letters.now }
    requires room { at + verdict_room (length letters.now) ≤ length out.old }
    ensures { Put (verdict_by answer letters.now) at out.old result out.new }
{
    match answer {
        BuildAnswer::Sole(n, k) => put_sequence(out, at, b"sole", &letters[..n], k),
        BuildAnswer::Several(n, k) => put_sequence(out, at, b"several", &letters[..n], k),
        BuildAnswer::None(k) => put_placements(out, at, b"none", k),
        BuildAnswer::Unsettled(k) => put_placements(out, at, b"unsettled", k),
    }
}

// The line by an answer, and by the letters that it left; nothing where it is a refusal.
pub fn put(out: &mut [u8], at: usize, answer: Result<BuildAnswer, Refusal>, letters: &[u8]) -> usize
    requires letters_there { letters_told (says answer) ≤ length letters.now }
    requires room { at + verdict_room (length letters.now) ≤ length out.old }
    ensures { Put (verdict_told (says answer) letters.now) at out.old result out.new }
{
    match answer {
        Ok(told) => put_told(out, at, told, letters),
        Err(_) => at,
    }
}
