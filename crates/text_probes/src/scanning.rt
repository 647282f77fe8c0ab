// The tests of a text, line by line.
ghost use Rattle.std.specs.Prelude.{◌≡◌, cond, ◌+◌, ◌^◌, ◌<◌, length, eqb};
ghost use Rattle.base_answers.specs.Answer.{given, first, says};
ghost use Rattle.text_probes.specs.declared.scanning.Outline.{Outline};
ghost use Rattle.text_probes.specs.Lines.{lines_in};
ghost use Rattle.text_probes.specs.Says.{outline_after};
ghost use Rattle.text_probes.specs.Testing.{mark_of, has_zero, agree, said_tests, scanning, kind_of};
ghost use Rattle.text_probes.specs.Keeping.{Keeps};

use crate::line::{Marked, Probe};
use crate::{keeping, line};
use base_answers::Refusal;

// What the lines say so far: the kind that a mark asks for (0: no mark yet), the letters of a word (0: no line yet), and how many they are.
// What is not there is 0 and no `None`: `outline_of` and `known` of specs/Testing.antt say so, and by them the fault `Differs` of specs/Faults.antt.
#[derive(Clone, Copy)]
pub struct Outline {
    pub mark: usize,
    pub l: usize,
    pub m: usize,
}

// The kind that the mark of a line asks for, 0 where it has none.
fn mark_of(listed: Marked) -> usize
    ensures { result ≡ mark_of listed }
{
    match listed {
        Marked::Bare(_) => 0,
        Marked::Two(_, _) => card_entries::PAIR,
        Marked::Run(_, _) => card_entries::SPAN,
    }
}

// Whether a line lists place 0.
fn has_zero(listed: Marked) -> bool
    ensures { result ≡ has_zero listed }
{
    match listed {
        Marked::Bare(p) => p == 0,
        Marked::Two(p, q) | Marked::Run(p, q) => p == 0 || q == 0,
    }
}

// Whether one of the two is not there, or they are the same.
fn agrees(a: usize, b: usize) -> bool
    ensures { result ≡ agree a b }
{
    a == 0 || b == 0 || a == b
}

// The first of the two that is there.
fn first_known(a: usize, b: usize) -> usize
    ensures { result ≡ cond (eqb a 0) b a }
{
    if a == 0 { b } else { a }
}

// The tests of a line after its text, where the lines before it have this outline; and the outline with it.
#[tactic(auto, using(base_answers::proofs::Laws::first_tests), unfolding(crate::specs::Testing::said_tests))]
fn line_after(s: Outline, t: Probe) -> Result<Outline, Refusal>
    requires { s.m + 1 < 2 ^ 64 }
    ensures { says result ≡ first (said_tests s t.letters t.listed) (outline_after s t.letters t.listed) }
{
    let line = s.m + 1;
    let mark = mark_of(t.listed);
    if !agrees(s.mark, mark) {
        return Err(Refusal::Mixed(line));
    }
    if !agrees(s.l, t.letters) {
        return Err(Refusal::Uneven(line));
    }
    if has_zero(t.listed) {
        return Err(Refusal::Zero(line));
    }
    Ok(Outline {
        mark: first_known(s.mark, mark),
        l: first_known(s.l, t.letters),
        m: line,
    })
}

// The tests of a text, and the outline of its lines; where the lent lists have room for an entry of each line, these are put there, each as on a
// pair list.
#[tactic(auto, using(crate::proofs::ScanTurn::begins))]
pub fn scan(
    text: &[u8],
    words: &mut [u32],
    ones: &mut [u16],
    twos: &mut [u16],
) -> Result<Outline, Refusal>
    requires { (length ones.old ≡ length words.old) × (length twos.old ≡ length words.old) }
    ensures says { says result ≡ scanning text.now }
    ensures keeps { (s : Outline)
        → scanning text.now ≡ given s
        → Keeps (lines_in text.now) s.m words.new ones.new twos.new }
{
    if text.is_empty() {
        return Err(Refusal::Text(1));
    }
    let mut s = Outline {
        mark: 0,
        l: 0,
        m: 0,
    };
    let mut at = 0;
    // A line says where the next one begins, so no range has the lines.
    while at < text.len() {
        let Some(t) = line::read_line(text, at) else {
            return Err(Refusal::Text(s.m + 1));
        };
        let e = s.m;
        s = line_after(s, t)?;
        keeping::keep(e, t, words, ones, twos);
        at = t.end;
    }
    Ok(s)
}

// The kind of the card of a list with this mark.
pub fn kind_of(mark: usize) -> usize
    ensures { result ≡ kind_of mark }
{
    if mark == card_entries::SPAN {
        card_entries::SPAN
    } else {
        card_entries::PAIR
    }
}
