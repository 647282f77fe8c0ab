// Span cards whose spans are at most 4 wide, settled without a budget, from place to place: a state at a place is the word before it and the
// entries that are still unused. A card that has a build has at most 7 spans over a place, so that the unused among them are one of at most
// 128 sets, and a table has a cell for each place and set. Forward, the cell of each state that can be reached is kept; backward, those that
// are kept learn which entries lead on from there to a build; then the first build is read off. So the work is bounded: for each place at most
// 128 sets, and for each set 7 entries, each against the 7 of the next place.
#![tactic(auto)]

mod chances;
mod digits;
mod keeping;
mod reading;
mod sweeping;

ghost use Rattle.std.specs.Prelude.{◌*◌, ◌≤◌, ◌<◌, ◌≡◌, length, take};
ghost use Rattle.card_entries.specs.Slot.{entries_in};
ghost use Rattle.card_entries.specs.KindLists.{SpanLists};
ghost use Rattle.span_layers.specs.Narrow.{Narrow};
ghost use Rattle.span_narrow.specs.Plan.{plan_in, Planned};
ghost use Rattle.span_narrow.specs.States.{cells_over};
ghost use Rattle.span_narrow.specs.Settled.{SettlesLists, Crowding};

use build_method::MethodAnswer;
use card_entries::{EntryLists, MOST};
use chances::Spot;
use span_steps::{SLOTS, Tables};

// So many sets have the entries over a place that is not crowded: the table has as many cells for each place.
const CELLS: usize = 128;
// The cells of the table, for all places together.
const TABLE: usize = CELLS * MOST;
// So many spans over a place leave no room for a build: if each is at most 4 wide, all their places are among 7.
const CROWD: usize = 8;

// Whether one of the first m places has 8 or more spans over it.
fn crowded(starts: &[u32], m: usize) -> bool
    requires { m < length starts.now }
    ensures { Crowding starts.now m result }
{
    (0..m).any(|i| starts[i] as usize + CROWD <= starts[i + 1] as usize)
}

// A card that is laid out: the letters of a word, and the tables.
#[derive(Clone, Copy)]
struct Layout<'a> {
    l: usize,
    tables: Tables<'a>,
}

impl Layout<'_> {
    // The build of a card with no crowded place.
    fn settle(&self, marks: &mut [u8], table: &mut [u8], first: &mut [u32]) -> MethodAnswer
        requires planned { Planned (plan_in self.now) }
        requires marks_len { (length marks.old ≡ length self.now.tables.words.now)
            × (cells_over * length self.now.tables.words.now ≤ length table.old)
            × (length first.old ≡ length self.now.tables.words.now) }
        ensures settles_lists { SettlesLists
            self.now.l
            (entries_in (plan_in self.now).words (plan_in self.now).ones (plan_in self.now).twos)
            result
            first.new }
        ensures first_len { length first.new ≡ length self.now.tables.words.now }
    {
        self.keep(marks, table);
        self.sweep(marks, table);
        if !self.completes(marks, table, Spot { i: 0, want: 0 }) {
            return MethodAnswer::None(0);
        }
        if self.read_off(marks, table, first) {
            return MethodAnswer::Several(0);
        }
        MethodAnswer::Sole(0)
    }
}

// The build of span lists that the entry rules admit, each span at most 4 wide: one, several or none, with no budget. Where it gives a
// build, `found` begins with the words of the alphabetically first one.
pub fn settle(l: usize, lists: &EntryLists, found: &mut [u32]) -> MethodAnswer
    requires span_lists { SpanLists l lists.now.words.now lists.now.ones.now lists.now.twos.now }
    requires narrow { Narrow (entries_in lists.now.words.now lists.now.ones.now lists.now.twos.now) }
    requires words_in_bounds { length lists.now.words.now ≤ length found.old }
    ensures { SettlesLists
        l
        (entries_in lists.now.words.now lists.now.ones.now lists.now.twos.now)
        result
        (take (length lists.now.words.now) found.new) }
{
    let m = lists.words.len();
    let mut starts = [0; MOST + 1];
    let mut slots = [0; SLOTS];
    span_tables::prepare(l, lists, &mut starts, &mut slots);
    if crowded(&starts, m) {
        return MethodAnswer::None(0);
    }
    let card = Layout {
        l,
        tables: Tables {
            words: lists.words,
            twos: lists.twos,
            starts: &starts,
            slots: &slots,
        },
    };
    // The table last, and in `keep` first: between the two clearings of it nothing else is written, so that the compiler makes them one.
    let mut marks = [0; MOST];
    let mut table = [0; TABLE];
    card.settle(&mut marks[..m], &mut table, &mut found[..m])
}
