// From a state at a place, which entries of the place's list can stand there and lead on to a build, by what is known of the next place.
ghost use Rattle.std.specs.Prelude.{◌≡◌, ◌&&◌, not, ◌+◌, ◌-◌, ◌%◌, ◌^◌, ◌≤◌, ◌<◌, eqb, length, get_or};
ghost use Rattle.card_entries.specs.Fault.{most_length};
ghost use Rattle.span_layers.specs.Narrow.{most_over};
ghost use Rattle.span_layers.specs.Completed.{is_some};
ghost use Rattle.span_memory.specs.Memory.{Below};
ghost use Rattle.span_tables.specs.Spread.{most_numbered};
ghost use Rattle.span_narrow.specs.Plan.{plan_in};
ghost use Rattle.span_narrow.specs.States.{dues_in, can_stand, paths_after, Chances};
ghost use Rattle.span_narrow.specs.Digits.{FirstOf};
ghost use Rattle.span_narrow.specs.Stepping.{Cell, Known, chosen_at, Completes, Leading, Trying, Trials, next_turn};

use crate::digits::{self, Pick};
use crate::{CELLS, Layout};
use span_steps::NO_WORD;

// The cell of the state at the place i, whose list is lent.
pub fn cell_of(list: &[u16], marks: &[u8], i: usize) -> usize
    requires below { Below list.now (length marks.now) }
    requires list_len_bound { (length list.now ≤ most_over) × (i < most_numbered) }
    ensures { Cell list.now marks.now i result }
{
    CELLS * i + span_memory::bits_of(list, marks) as usize
}

// The last letters of the word w, all but the first.
pub fn tail_of(w: u32, l: usize) -> u32
    requires { (0 < l) × (l ≤ most_length) }
    ensures { result ≡ w % 4 ^ (l - 1) }
{
    w & (card_entries::words_of(l - 1) - 1)
}

// How many entries of the list are left and end at i.
pub fn dues(list: &[u16], twos: &[u16], marks: &[u8], i: usize) -> usize
    requires below { Below list.now (length twos.now) }
    requires marks_len { length marks.now ≡ length twos.now }
    ensures { result ≡ dues_in twos.now marks.now i list.now }
{
    list.iter()
        .filter(|e| span_steps::is_due(twos, marks, usize::from(**e), i))
        .count()
}

// Whether the entry e is left, no other that is left ends at i, where `dues` of them do, and its word is not the last one tried.
pub fn can_stand(
    words: &[u32],
    twos: &[u16],
    marks: &[u8],
    e: usize,
    i: usize,
    dues: usize,
    tried: u32,
) -> bool
    requires { (e < length words.now) × (e < length twos.now) × (e < length marks.now) }
    ensures { result ≡ (can_stand twos.now marks.now i dues e && not (eqb (get_or words.now e 0) tried)) }
{
    words[e] != tried && marks[e] == 0 && dues == usize::from(span_steps::is_due(twos, marks, e, i))
}

// A place that is next to be filled, and the last letters of the word before it.
#[derive(Clone, Copy)]
pub struct Spot {
    pub i: usize,
    pub want: u32,
}

// A slot of the list of the place i, whose entry is next to be tried there; `due` entries that are left end at i.
#[derive(Clone, Copy)]
pub struct Turn {
    pub i: usize,
    pub k: usize,
    pub due: usize,
}

// The digits of the entries that were tried, and the last word tried.
#[derive(Clone, Copy)]
struct Trial {
    c: u8,
    tried: u32,
}

impl Layout<'_> {
    // The first of those that lead on from the state at the spot s, by its cell of the table.
    pub fn choose_at(&self, marks: &[u8], table: &[u8], s: Spot) -> Option<Pick>
        requires known { Known (plan_in self.now) marks.now table.now s.i }
        requires inside { s.i < length self.now.tables.words.now }
        ensures { FirstOf (chosen_at (plan_in self.now) marks.now table.now s) result }
    {
        let list = self.tables.list(s.i);
        let c = table[cell_of(list, marks, s.i)];
        digits::choose(list, self.tables.words, c, s.i, s.want)
    }

    // Whether a build is completed from the state at the spot s.
    pub fn completes(&self, marks: &[u8], table: &[u8], s: Spot) -> bool
        requires { Known (plan_in self.now) marks.now table.now s.i }
        ensures { Completes (plan_in self.now) marks.now s result }
    {
        s.i == self.tables.words.len() || self.choose_at(marks, table, s).is_some()
    }

    // Whether a build is completed once the entry e stands at the place i.
    fn leads(&self, marks: &mut [u8], table: &[u8], i: usize, e: usize) -> bool
        requires { Leading (plan_in self.now) marks.old table.now i e }
        ensures value { result ≡ is_some (paths_after (plan_in self.now) marks.old i e) }
        ensures marks_unchanged { marks.new ≡ marks.old }
    {
        marks[e] = 1;
        let next = Spot {
            i: i + 1,
            want: tail_of(self.tables.words[e], self.l),
        };
        let r = self.completes(marks, table, next);
        marks[e] = 0;
        r
    }

    // The entry of the slot is tried, if it can stand at the place: its digit is 1 where it leads on.
    fn try_next(&self, marks: &mut [u8], table: &[u8], at: Turn, t: Trial) -> Trial
        requires trying { Trying (plan_in self.now) marks.old table.now at.i }
        requires trials { Trials (plan_in self.now) marks.old at t × (at.k < get_or self.now.tables.starts.now (at.i + 1) 0) }
        ensures tried_next { Trials (plan_in self.now) marks.old (next_turn at) result }
        ensures marks_unchanged { marks.new ≡ marks.old }
    {
        let Turn { i, k, due } = at;
        let words = self.tables.words;
        let e = self.tables.entry_at(k);
        let c = 2 * t.c;
        if !can_stand(words, self.tables.twos, marks, e, i, due, t.tried) {
            return Trial { c, ..t };
        }
        Trial {
            c: c + u8::from(self.leads(marks, table, i, e)),
            tried: words[e],
        }
    }

    // The entries that can stand at the place i and lead on, a digit for each of the place's list. Of equal words the first is tried.
    pub fn chances(&self, marks: &mut [u8], table: &[u8], i: usize) -> u8
        requires { Trying (plan_in self.now) marks.old table.now i }
        ensures chances { Chances (plan_in self.now) marks.old i result }
        ensures marks_unchanged { marks.new ≡ marks.old }
    {
        let due = dues(self.tables.list(i), self.tables.twos, marks, i);
        let mut t = Trial {
            c: 0,
            tried: NO_WORD,
        };
        for k in self.tables.start_of(i)..self.tables.start_of(i + 1) {
            t = self.try_next(marks, table, Turn { i, k, due }, t);
        }
        t.c
    }
}
