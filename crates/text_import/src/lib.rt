// Importing a probe list: from its text to a card at the start of a lent output. `import` has no `requires`: it tests its own input.
#![tactic(auto)]

ghost use Rattle.std.specs.Prelude.{◌≡◌, length};
ghost use Rattle.base_answers.specs.Answer.{says};
ghost use Rattle.card_entries.specs.Bounds.{most_entries};
ghost use Rattle.text_probes.specs.Testing.{kind_of};
ghost use Rattle.text_probes.specs.Keeping.{closed_for};
ghost use Rattle.card_writer.specs.Writing.{Writes};
ghost use Rattle.text_import.specs.Importing.{Imports};

use base_answers::Refusal;
use card_entries::MOST;
use text_probes::scanning::Outline;
use text_probes::{keeping, scanning};

// Writes the card of lists that were kept of a text with this outline: on a span list an entry with one place is a run.
fn write_kept(
    s: Outline,
    words: &[u32],
    ones: &[u16],
    twos: &mut [u16],
    out: &mut [u8],
) -> Result<usize, Refusal>
    requires { length twos.old ≡ length ones.now }
    ensures { Writes most_entries (kind_of s.mark) s.l words.now ones.now
        (closed_for (kind_of s.mark) ones.now twos.old)
        out.old (says result) out.new }
{
    let kind = scanning::kind_of(s.mark);
    keeping::close_for(kind, ones, twos);
    card_writer::write(kind, s.l, words, ones, twos, out)
}

// A card of the list at the start of the output, with its length; or the refusal, and then no byte of the output differs.
#[tactic(auto, using(crate::proofs::ImportingLaws::few_entries, crate::proofs::ImportingLaws::import_refused))]
pub fn import(text: &[u8], out: &mut [u8]) -> Result<usize, Refusal>
    ensures { Imports most_entries text.now out.old (says result) out.new }
{
    let mut words = [0u32; MOST];
    let mut ones = [0u16; MOST];
    let mut twos = [0u16; MOST];
    let s = scanning::scan(text, &mut words, &mut ones, &mut twos)?;
    if !card_entries::is_length(s.l) {
        return Err(Refusal::WordLength);
    }
    if !card_entries::is_count(s.m) {
        return Err(Refusal::Count);
    }
    write_kept(s, &words[..s.m], &ones[..s.m], &mut twos[..s.m], out)
}
