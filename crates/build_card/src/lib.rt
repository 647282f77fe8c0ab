// Build: from a lent card to its verdict and its sequence. The card is admitted once, into lists; then the room is tested, the method of
// the card's kind is run over the lists, and the words that it finds are spelled. `build` has no `requires`: it tests its own input.
#![tactic(auto)]

pub mod methods;

ghost use Rattle.std.specs.Prelude.{◌≡◌, ◌+◌, ◌-◌, ◌≤◌, length};
ghost use Rattle.base_answers.specs.Answer.{given, says};
ghost use Rattle.card_entries.specs.Slot.{entries_in};
ghost use Rattle.card_entries.specs.Fault.{most_length};
ghost use Rattle.card_entries.specs.Bounds.{most_entries};
ghost use Rattle.card_entries.specs.Hold.{ListsHold};
ghost use Rattle.build_spelling.specs.Spelling.{Spells};
ghost use Rattle.build_method.specs.Method.{says_method};
ghost use Rattle.build_card.specs.Building.{answer_of, letters_after, Builds};
ghost use Rattle.build_card.specs.From.{Gives, InRoom};

use base_answers::Refusal;
use build_method::MethodAnswer;
use card_entries::{EntryLists, Format, MOST};
use card_reader::listing::ListRoom;

// What build answers where it refuses nothing: the length of the sequence and the placements, or the placements alone. The sequence stands in
// the output. A `MethodAnswer` has no length, since a method finds words and no letters.
#[derive(Clone, Copy)]
pub enum BuildAnswer {
    Sole(usize, u32),
    Several(usize, u32),
    None(u32),
    Unsettled(u32),
}

// The letters of a build of m entries.
pub fn letters_in(m: usize, l: usize) -> usize
    requires { (m ≤ most_entries) × (1 ≤ l) × (l ≤ most_length) }
    ensures { result ≡ m + l - 1 }
{
    m + l - 1
}

// The answer by what the method comes to; the letters of the words that it found stand in the output, where it gives a build.
#[tactic(auto, using(crate::proofs::FromLaws::spellings))]
pub fn spelled(r: MethodAnswer, l: usize, words: &[u32], out: &mut [u8]) -> BuildAnswer
    requires spells { Spells l words.now }
    requires out_len { length out.old + 1 ≡ length words.now + l }
    ensures value { given result ≡ answer_of (given (says_method l words.now r)) }
    ensures out_after { out.new ≡ letters_after (given (says_method l words.now r)) out.old }
{
    let n = out.len();
    match r {
        MethodAnswer::Sole(k) => {
            build_spelling::spell(l, words, out);
            BuildAnswer::Sole(n, k)
        }
        MethodAnswer::Several(k) => {
            build_spelling::spell(l, words, out);
            BuildAnswer::Several(n, k)
        }
        MethodAnswer::None(k) => BuildAnswer::None(k),
        MethodAnswer::Unsettled(k) => BuildAnswer::Unsettled(k),
    }
}

// Builds from lists that hold, into an output of just as many bytes as a build has letters.
fn build_from(f: Format, lists: &EntryLists, budget: u32, out: &mut [u8]) -> BuildAnswer
    requires lists_hold { ListsHold most_entries f lists.now.words.now lists.now.ones.now lists.now.twos.now }
    requires out_len { length out.old + 1 ≡ length lists.now.words.now + f.l }
    ensures { Gives f (entries_in lists.now.words.now lists.now.ones.now lists.now.twos.now) budget out.old (given result) out.new }
{
    let m = lists.words.len();
    let l = f.l;
    let mut found = [0; MOST];
    let r = methods::find(f, lists, budget, &mut found);
    spelled(r, l, &found[..m], out)
}

// Builds from lists that hold, into an output that may be too short for the letters of a build or longer.
fn build_listed(
    f: Format,
    lists: &EntryLists,
    budget: u32,
    out: &mut [u8],
) -> Result<BuildAnswer, Refusal>
    requires { ListsHold most_entries f lists.now.words.now lists.now.ones.now lists.now.twos.now }
    ensures { InRoom f
        (entries_in lists.now.words.now lists.now.ones.now lists.now.twos.now)
        budget out.old (says result) out.new }
{
    let n = letters_in(f.m, f.l);
    if out.len() < n {
        return Err(Refusal::Room);
    }
    Ok(build_from(f, lists, budget, &mut out[..n]))
}

// Builds from a card: the verdict with its numbers. Where there is a build, the letters of the alphabetically first one stand at the start
// of the output, whose later bytes are as they were; with every other answer all of it is as it was.
pub fn build(card: &[u8], budget: u32, out: &mut [u8]) -> Result<BuildAnswer, Refusal>
    ensures { Builds most_entries card.now budget out.old (says result) out.new }
{
    let mut room = ListRoom::empty();
    let f = room.admit(card)?;
    build_listed(f, &room.lists(f.m), budget, out)
}
