// Spelling words into letters: the sequence of an arrangement's words, as ASCII capitals.
#![tactic(auto)]

ghost use Rattle.std.specs.Prelude.{◌≡◌, map, ◌+◌, ◌<◌, length, get_or};
ghost use Rattle.base_letters.specs.Letters.{codes, letter_of};
ghost use Rattle.build_sequence.specs.Build.{spell};
ghost use Rattle.build_spelling.specs.Spelling.{Spells};

// How many codes there are.
const CODES: u32 = 4;

// The code of letter c of the sequence: one of the first word's letters, or the last letter of a later word.
fn code_at(l: usize, words: &[u32], c: usize) -> usize
    requires spells { Spells l words.now }
    requires c_in_bounds { c + 1 < length words.now + l }
    ensures { (result ≡ get_or (spell l words.now) c 0) × (result < codes) }
{
    if c < l {
        (words[0] / card_entries::words_of(l - 1 - c) % CODES) as usize
    } else {
        (words[c + 1 - l] % CODES) as usize
    }
}

// Writes the letters of the words, each of which overlaps the one before it, over all of an output of just their length.
pub fn spell(l: usize, words: &[u32], out: &mut [u8])
    requires spells { Spells l words.now }
    requires out_len { length out.old + 1 ≡ length words.now + l }
    ensures { out.new ≡ map letter_of (spell l words.now) }
{
    for (c, letter) in out.iter_mut().enumerate() {
        *letter = base_letters::letter_of(code_at(l, words, c));
    }
}
