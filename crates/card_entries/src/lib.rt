// The entries of a card: what kind, l and m may be, how an entry is stored, what makes it wrong, and the places that it allows.
#![tactic(auto)]

ghost use Rattle.std.specs.Prelude.{◌≡◌, ◌+◌, ◌*◌, ◌^◌, ◌≤◌, ◌<◌, length};
ghost use Rattle.base_answers.specs.Answer.{first, sound, says_held};
ghost use Rattle.base_lists.specs.Parts.{put_at};
ghost use Rattle.card_entries.specs.Slot.{entry_bytes, slot_at, slot_bytes, slot_from};
ghost use Rattle.card_entries.specs.Fault.{is_place, pair_holds, span_holds, places_hold, entry_tests, least_length, most_length};
ghost use Rattle.card_entries.specs.Bounds.{least_entries, most_entries, is_within, is_kind};
ghost use Rattle.card_entries.specs.Entry.{places_of, entry_of};

use base_answers::Refusal;

// The kinds of card.
pub const PAIR: usize = 1;

pub const SPAN: usize = 2;

// The bytes of an entry.
pub const ENTRY: usize = 8;
// The letters that a word may have.
pub const LEAST_LENGTH: usize = 2;

pub const MOST_LENGTH: usize = 12;
// The least entries of a card.
const LEAST: usize = 1;
// The most entries of a card.
pub const MOST: usize = 504;
// How wide a span may be.
pub const WIDEST: u16 = 8;
// What stands for place two where there is no second place, as the card and the lists for C have it; `Places` tells one place from two.
pub const NO_PLACE: u16 = 65535;
// How many words there are of 0, 1, 2, … letters.
const WORDS: [u32; MOST_LENGTH + 1] = [
    1, 4, 16, 64, 256, 1024, 4096, 16384, 65536, 262144, 1048576, 4194304, 16777216,
];

// What a card says of all its entries: its kind, the letters of a word and the number of entries. The kind is a number: block 0 has any byte
// there, and who writes or calls from C gives any number, which rule 5 tests.
#[derive(Clone, Copy)]
pub struct Format {
    pub kind: usize,
    pub l: usize,
    pub m: usize,
}

// An entry as it is stored.
#[derive(Clone, Copy)]
pub struct Slot {
    pub word: u32,
    pub one: u16,
    pub two: u16,
}

// Three lists that stand for entries: their words, places one and places two, as C lends them; `card_lists` tests that they have one length.
#[derive(Clone, Copy)]
pub struct EntryLists<'a> {
    pub words: &'a [u32],
    pub ones: &'a [u16],
    pub twos: &'a [u16],
}

impl EntryLists<'_> {
    // Entry e, as it is stored.
    #[tactic(auto, unfolding(crate::specs::Slot::slot_from))]
    pub fn slot(&self, e: usize) -> Slot
        requires { (e < length self.now.words.now) × (e < length self.now.ones.now) × (e < length self.now.twos.now) }
        ensures { result ≡ slot_from self.now.words.now self.now.ones.now self.now.twos.now e }
    {
        Slot {
            word: self.words[e],
            one: self.ones[e],
            two: self.twos[e],
        }
    }
}

// The allowed places of an entry: one place, two places, or a span from its first place to its last.
#[derive(Clone, Copy)]
pub enum Places {
    One(u16),
    Two(u16, u16),
    Span(u16, u16),
}

// An entry: its word, and its allowed places.
#[derive(Clone, Copy)]
pub struct Entry {
    pub word: u32,
    pub places: Places,
}

// Whether there is such a kind of card.
pub fn is_kind(kind: usize) -> bool
    ensures { result ≡ is_kind kind }
{
    kind == PAIR || kind == SPAN
}

// Whether x is from lo up to hi, both included.
fn is_within(lo: usize, hi: usize, x: usize) -> bool
    ensures { result ≡ is_within lo hi x }
{
    (lo..=hi).contains(&x)
}

// Whether a word may have l letters.
pub fn is_length(l: usize) -> bool
    ensures { result ≡ is_within least_length most_length l }
{
    is_within(LEAST_LENGTH, MOST_LENGTH, l)
}

// Whether a card may have m entries.
pub fn is_count(m: usize) -> bool
    ensures { result ≡ is_within least_entries most_entries m }
{
    is_within(LEAST, MOST, m)
}

// The slot j of a block.
#[tactic(auto, unfolding(crate::specs::Slot::slot_at))]
pub fn slot_at(part: &[u8], j: usize) -> Slot
    requires { entry_bytes * j + entry_bytes ≤ length part.now }
    ensures { result ≡ slot_at part.now j }
{
    let at = ENTRY * j;
    let word = card_block::four_at(part, at);
    let one = card_block::two_at(part, at + 4);
    let two = card_block::two_at(part, at + 6);
    Slot { word, one, two }
}

// Writes the slot j of a block.
pub fn put_slot(part: &mut [u8], j: usize, s: Slot)
    requires { entry_bytes * j + entry_bytes ≤ length part.old }
    ensures { part.new ≡ put_at (slot_bytes s) (entry_bytes * j) part.old }
{
    let at = ENTRY * j;
    card_block::put_four(part, at, s.word);
    card_block::put_two(part, at + 4, s.one);
    card_block::put_two(part, at + 6, s.two);
}

// The places that a slot's two numbers stand for on a card of this kind.
#[tactic(auto, unfolding(crate::specs::Entry::places_of))]
fn places_of(kind: usize, one: u16, two: u16) -> Places
    ensures { result ≡ places_of kind one two }
{
    if kind == SPAN {
        Places::Span(one, two)
    } else if two == NO_PLACE {
        Places::One(one)
    } else {
        Places::Two(one, two)
    }
}

// The entry that a slot stands for on a card of this kind.
#[tactic(auto, unfolding(crate::specs::Entry::entry_of))]
pub fn entry_of(kind: usize, s: Slot) -> Entry
    ensures { result ≡ entry_of kind s }
{
    Entry {
        word: s.word,
        places: places_of(kind, s.one, s.two),
    }
}

// Whether p is a place of a card of m entries.
fn is_place(m: usize, p: u16) -> bool
    ensures { result ≡ is_place m p }
{
    usize::from(p) < m
}

// Whether the two numbers are the places of an entry of a pair card.
#[tactic(auto, unfolding(crate::specs::Fault::pair_holds))]
fn pair_holds(m: usize, one: u16, two: u16) -> bool
    ensures { result ≡ pair_holds m one two }
{
    is_place(m, one) && (two == NO_PLACE || one < two && is_place(m, two))
}

// Whether the two numbers are the places of an entry of a span card.
#[tactic(auto, unfolding(crate::specs::Fault::span_holds))]
fn span_holds(m: usize, one: u16, two: u16) -> bool
    ensures { result ≡ span_holds m one two }
{
    one <= two && is_place(m, two) && two - one < WIDEST
}

// Whether the two numbers are the places of an entry.
#[tactic(auto, unfolding(crate::specs::Fault::places_hold))]
fn places_hold(kind: usize, m: usize, one: u16, two: u16) -> bool
    ensures { result ≡ places_hold kind m one two }
{
    if kind == SPAN {
        span_holds(m, one, two)
    } else {
        pair_holds(m, one, two)
    }
}

// How many words of l letters there are.
pub fn words_of(l: usize) -> u32
    requires { l ≤ most_length }
    ensures { result ≡ 4 ^ l }
{
    WORDS[l]
}

// Whether a slot holds as entry e of a card of this format: its word before its places.
#[tactic(auto, using(base_answers::proofs::Laws::first_tests), unfolding(crate::specs::Fault::entry_tests))]
pub fn entry_holds(f: Format, e: usize, s: Slot) -> Result<(), Refusal>
    requires { f.l ≤ most_length }
    ensures { says_held result ≡ first (entry_tests f e s) sound }
{
    if words_of(f.l) <= s.word {
        Err(Refusal::Word(e))
    } else if !places_hold(f.kind, f.m, s.one, s.two) {
        Err(Refusal::Places(e))
    } else {
        Ok(())
    }
}
