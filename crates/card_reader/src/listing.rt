// Admitting a card into lent lists of words, places one and places two.
ghost use Rattle.std.specs.Prelude.{◌≡◌, ◌≤◌, length, replicate, take};
ghost use Rattle.base_answers.specs.Answer.{says};
ghost use Rattle.card_layout.specs.Layout.{size_of, slot_of};
ghost use Rattle.card_entries.specs.Bounds.{most_entries};
ghost use Rattle.card_reader.specs.Listing.{has_room, filled, Listed};

use base_answers::Refusal;
use card_entries::{EntryLists, Format, MOST};

// Whether each of three lists has room for m entries.
fn has_room(m: usize, words: usize, ones: usize, twos: usize) -> bool
    ensures { result ≡ has_room m words ones twos }
{
    m <= words && m <= ones && m <= twos
}

// Writes the words and places of the first m entries of a card into lists that have room for them.
#[tactic(auto, using(crate::proofs::ListingLaws::fills))]
fn fill(card: &[u8], m: usize, words: &mut [u32], ones: &mut [u16], twos: &mut [u16])
    requires on_card { (m ≤ most_entries) × (size_of m ≤ length card.now) }
    requires room { (m ≤ length words.old) × (m ≤ length ones.old) × (m ≤ length twos.old) }
    ensures words_after { words.new ≡ filled (λ e. (slot_of card.now e).word) m words.old }
    ensures ones_after { ones.new ≡ filled (λ e. (slot_of card.now e).one) m ones.old }
    ensures twos_after { twos.new ≡ filled (λ e. (slot_of card.now e).two) m twos.old }
{
    for e in 0..m {
        let s = card_layout::slot_of(card, e);
        words[e] = s.word;
        ones[e] = s.one;
        twos[e] = s.two;
    }
}

// The kind, l and m of a card, with its words and places in the first m slots of the lent lists; or the reader's refusal, or 12 where a
// list is too short, and then no slot differs. The three lists are parameters of their own, as `Listed` and the round trips name them; `ListRoom` has
// them in one.
#[tactic(auto, using(crate::proofs::ListingLaws::listings))]
pub fn admit_into(
    card: &[u8],
    words: &mut [u32],
    ones: &mut [u16],
    twos: &mut [u16],
) -> Result<Format, Refusal>
    ensures { Listed most_entries card.now words.old ones.old twos.old
        (says result) words.new ones.new twos.new }
{
    let f = crate::admit(card)?;
    if has_room(f.m, words.len(), ones.len(), twos.len()) {
        fill(card, f.m, words, ones, twos);
        Ok(f)
    } else {
        Err(Refusal::Room)
    }
}

// Room for the lists of as many entries as a card may have: arrays, since there is no heap, and three, as `admit_into` fills them.
#[derive(Drop)]
pub struct ListRoom {
    words: [u32; MOST],
    ones: [u16; MOST],
    twos: [u16; MOST],
}

impl ListRoom {
    // Room in which no card stands.
    pub fn empty() -> ListRoom
        ensures { (result.words ≡ replicate most_entries 0)
            × (result.ones ≡ replicate most_entries 0)
            × (result.twos ≡ replicate most_entries 0) }
    {
        ListRoom {
            words: [0; MOST],
            ones: [0; MOST],
            twos: [0; MOST],
        }
    }

    // The kind, l and m of a card, whose words and places are the first m of the lists then; or the reader's refusal.
    pub fn admit(&mut self, card: &[u8]) -> Result<Format, Refusal>
        ensures { Listed most_entries card.now self.old.words self.old.ones self.old.twos
            (says result) self.new.words self.new.ones self.new.twos }
    {
        admit_into(card, &mut self.words, &mut self.ones, &mut self.twos)
    }

    // The lists of the first m entries.
    pub fn lists(&self, m: usize) -> EntryLists<'_>
        requires { m ≤ most_entries }
        ensures words_are { result.words.now ≡ take m self.now.words }
        ensures ones_are { result.ones.now ≡ take m self.now.ones }
        ensures twos_are { result.twos.now ≡ take m self.now.twos }
    {
        EntryLists {
            words: &self.words[..m],
            ones: &self.ones[..m],
            twos: &self.twos[..m],
        }
    }
}
