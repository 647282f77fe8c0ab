// What the methods for span cards share: reading the lists of the places, and the tests of one entry at a place.
#![tactic(auto)]

ghost use Rattle.std.specs.Prelude.{◌≡◌, ◌+◌, ◌≤◌, ◌<◌, length, get_or};
ghost use Rattle.span_tables.specs.Prepared.{list_at};
ghost use Rattle.span_steps.specs.Steps.{agrees, is_due};

use card_entries::MOST;

// The slots of the lists of all places together: each entry may stand at so many places.
pub const SLOTS: usize = card_entries::WIDEST as usize * MOST;
// What no word is. It stands for an option, since `tries`, by which the contracts say what is tried, takes the last word tried as a number, and
// since the innermost loop of the walk compares with it.
pub const NO_WORD: u32 = 4294967295;

// What the methods read of a card: the words and last places of its entries, where the list of each place begins, and all the lists, one after
// another, since there is no heap.
#[derive(Clone, Copy)]
pub struct Tables<'a> {
    pub words: &'a [u32],
    pub twos: &'a [u16],
    pub starts: &'a [u32],
    pub slots: &'a [u16],
}

impl Tables<'_> {
    // The slot where the list of the place i begins.
    pub fn start_of(&self, i: usize) -> usize
        requires { i < length self.now.starts.now }
        ensures { result ≡ get_or self.now.starts.now i 0 }
    {
        self.starts[i] as usize
    }

    // The list of the place i.
    pub fn list(&self, i: usize) -> &[u16]
        requires places { i + 1 < length self.now.starts.now }
        requires rises { get_or self.now.starts.now i 0 ≤ get_or self.now.starts.now (i + 1) 0 }
        requires ends { get_or self.now.starts.now (i + 1) 0 ≤ length self.now.slots.now }
        ensures { result.now ≡ list_at self.now.starts.now self.now.slots.now i }
    {
        &self.slots[self.start_of(i)..self.start_of(i + 1)]
    }

    // The entry at the slot k.
    pub fn entry_at(&self, k: usize) -> usize
        requires { k < length self.now.slots.now }
        ensures { result ≡ get_or self.now.slots.now k 0 }
    {
        usize::from(self.slots[k])
    }
}

// Whether the word w may stand at the place i, after a word whose last letters are `want`.
pub fn agrees(w: u32, i: usize, want: u32) -> bool
    ensures { result ≡ agrees i want w }
{
    w / 4 == want || i == 0
}

// Whether the entry e is left and ends at i.
#[tactic(auto, unfolding(crate::specs::Steps::is_due))]
pub fn is_due(twos: &[u16], marks: &[u8], e: usize, i: usize) -> bool
    requires { (e < length twos.now) × (e < length marks.now) }
    ensures { result ≡ is_due twos.now marks.now i e }
{
    usize::from(twos[e]) == i && marks[e] == 0
}
