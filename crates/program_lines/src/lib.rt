// What the programs print for a card. `build`: line 1 with its kind, l and m and line 2 with its verdict, or the one line of a refusal.
// `settle` and `count_builds` have their own files, and so has line 2.
#![tactic(auto)]

pub mod count;
pub mod settle;
pub mod verdict;

ghost use Rattle.std.specs.Prelude.{◌+◌, ◌≤◌, length};
ghost use Rattle.base_answers.specs.Answer.{says};
ghost use Rattle.card_block.specs.Block.{block_bytes};
ghost use Rattle.card_layout.specs.Layout.{told_by};
ghost use Rattle.card_entries.specs.Bounds.{most_entries};
ghost use Rattle.base_text.specs.Text.{Printed};
ghost use Rattle.base_text.specs.Putting.{Put};
ghost use Rattle.program_lines.specs.Lines.{letters_room, kind_name, card_line, Reports};
ghost use Rattle.program_lines.specs.ByAnswer.{lines_by, Tellable};
ghost use Rattle.program_lines.specs.Rooms.{name_bytes, card_room};

use base_answers::Refusal;
use build_card::BuildAnswer;

// The budget that `build` uses.
pub const BUDGET: u32 = 1000000;
// The letters of the longest sequence.
pub const LETTERS: usize = card_entries::MOST + card_entries::MOST_LENGTH - 1;
// Room for the lines: for the letters, and for all else that stands on them.
pub const LINES: usize = LETTERS + 100;

// The name of a kind.
fn put_kind(out: &mut [u8], at: usize, kind: usize) -> usize
    requires { at + name_bytes ≤ length out.old }
    ensures { Put (kind_name kind) at out.old result out.new }
{
    if kind == card_entries::PAIR {
        return base_text::put_text(out, at, b"pair");
    }
    base_text::put_text(out, at, b"span")
}

// Line 1.
fn put_card(out: &mut [u8], card: &[u8]) -> usize
    requires there { block_bytes ≤ length card.now }
    requires room { card_room ≤ length out.old }
    ensures put { Put (card_line (told_by card.now)) 0 out.old result out.new }
    ensures within { result ≤ card_room }
{
    let f = card_layout::told_by(card);
    let kind_at = base_text::put_text(out, 0, b"CARD ");
    let l_at = put_kind(out, kind_at, f.kind);
    base_text::put_two(out, l_at, f.l, f.m)
}

// The lines by an answer, and by the letters that it left.
fn put_answer(
    out: &mut [u8; LINES],
    card: &[u8],
    answer: Result<BuildAnswer, Refusal>,
    letters: &[u8],
) -> usize
    requires tellable { Tellable card.now (says answer) letters.now }
    requires few_letters { length letters.now ≤ letters_room most_entries }
    ensures { Put (lines_by (told_by card.now) (says answer) letters.now) 0 out.old result out.new }
{
    match answer {
        Err(r) => base_text::put_refused(out, r.number(), r.place()),
        Ok(a) => {
            let at = put_card(out, card);
            verdict::put(out, at, Ok(a), letters)
        }
    }
}

// What is printed for a card stands at the start of the buffer, whose later bytes are as they were; the answer is how many bytes it has.
// The card is built from once, with room for the longest sequence.
pub fn report(card: &[u8], out: &mut [u8; LINES]) -> usize
    ensures { Printed (Reports most_entries card.now) out.old result out.new }
{
    let mut letters = [0u8; LETTERS];
    let answer = build_card::build(card, BUDGET, &mut letters);
    put_answer(out, card, answer, &letters)
}
