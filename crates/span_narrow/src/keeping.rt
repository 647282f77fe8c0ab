// The states that can be reached: from the first place to the last, the cell of each state that follows on one that is kept gets a 1. To keep
// others as well would cost nothing but time.
ghost use Rattle.std.specs.Prelude.{◌≡◌, true, ◌+◌, ◌*◌, ◌^◌, ◌≤◌, ◌<◌, length, get_or, set};
ghost use Rattle.span_steps.specs.Steps.{is_left};
ghost use Rattle.span_tables.specs.Prepared.{list_at};
ghost use Rattle.span_narrow.specs.Plan.{plan_in, list_on, Planned};
ghost use Rattle.span_narrow.specs.States.{cells_over, Sides, cell_of};
ghost use Rattle.span_narrow.specs.Keeping.{ListThere, Keepable, KeptIfTried, KeptAfter, KeptBelow, Opening};
ghost use Rattle.span_narrow.specs.Sweeping.{Half};

use crate::chances::Turn;
use crate::{CELLS, Layout, chances, digits, sweeping};
use span_steps::{NO_WORD, Tables};

// The state at the place i is kept that the marks tell once the entry e stands before it.
fn keep_after(tables: &Tables, marks: &mut [u8], table: &mut [u8], e: usize, i: usize)
    requires list_there { ListThere tables.now.starts.now tables.now.slots.now i (length marks.old) }
    requires e_in_bounds { (e < length marks.old) × (is_left marks.old e ≡ true) × (cells_over * (i + 1) ≤ length table.old) }
    ensures table_after { table.new
        ≡ set table.old (cell_of (list_at tables.now.starts.now tables.now.slots.now i) (set marks.old e 1) i) 1 }
    ensures marks_unchanged { marks.new ≡ marks.old }
{
    marks[e] = 1;
    let cell = chances::cell_of(tables.list(i), marks, i);
    marks[e] = 0;
    table[cell] = 1;
}

impl Layout<'_> {
    // The entry of the slot is tried, if it can stand at the place; then the state after it is kept. The answer is the last word tried.
    fn keep_next(&self, marks: &mut [u8], table: &mut [u8], at: Turn, tried: u32) -> u32
        requires keepable { Keepable (plan_in self.now) marks.old table.old at.i }
        requires i_bound { (get_or self.now.tables.starts.now at.i 0 ≤ at.k) × (at.k < get_or self.now.tables.starts.now (at.i + 1) 0) }
        ensures kept_if_tried { KeptIfTried (plan_in self.now) marks.old table.old table.new at tried result }
        ensures marks_unchanged { marks.new ≡ marks.old }
    {
        let Turn { i, k, due } = at;
        let words = self.tables.words;
        let e = self.tables.entry_at(k);
        if !chances::can_stand(words, self.tables.twos, marks, e, i, due, tried) {
            return tried;
        }
        keep_after(&self.tables, marks, table, e, i + 1);
        words[e]
    }

    // The states that follow on the state at the place i are kept.
    fn keep_followers(&self, marks: &mut [u8], table: &mut [u8], i: usize)
        requires { Keepable (plan_in self.now) marks.old table.old i }
        ensures kept_after { KeptAfter (plan_in self.now) marks.old table.old table.new i }
        ensures marks_unchanged { marks.new ≡ marks.old }
    {
        let due = chances::dues(self.tables.list(i), self.tables.twos, marks, i);
        let mut tried = NO_WORD;
        for k in self.tables.start_of(i)..self.tables.start_of(i + 1) {
            tried = self.keep_next(marks, table, Turn { i, k, due }, tried);
        }
    }

    // The state at the place i whose marks have the digits b: where it is kept, those that follow on it are kept.
    fn keep_state(&self, marks: &mut [u8], table: &mut [u8], i: usize, b: usize)
        requires opening { Opening (plan_in self.now) marks.old table.old i b }
        requires b_bound { b < 2 ^ length (list_on (plan_in self.now) i) }
        ensures { Opening (plan_in self.now) marks.new table.new i (b + 1) }
    {
        if table[CELLS * i + b] == 0 {
            return;
        }
        digits::spread(self.tables.list(i), marks, b);
        self.keep_followers(marks, table, i);
    }

    // The states at the place i. Then the entries of its list are placed: those that end there are never left at a later place.
    fn keep_place(&self, marks: &mut [u8], table: &mut [u8], i: usize)
        requires { Opening (plan_in self.now) marks.old table.old i 0 }
        ensures sides { Sides (plan_in self.now) marks.new (i + 1) (i + 1 + 1) }
        ensures kept_below { KeptBelow (plan_in self.now) table.new (cells_over * (i + 1)) }
    {
        let list = self.tables.list(i);
        for b in 0..sweeping::sets_of(list.len()) {
            self.keep_state(marks, table, i, b);
        }
        digits::mark_list(list, marks, 1);
    }

    // All places, from the first to the last but one, beginning with the state in which every entry is left.
    pub fn keep(&self, marks: &mut [u8], table: &mut [u8])
        requires planned { Planned (plan_in self.now) }
        requires marks_len { (length marks.old ≡ length self.now.tables.words.now)
            × (cells_over * length self.now.tables.words.now ≤ length table.old) }
        ensures { Half (plan_in self.now) table.new (length self.now.tables.words.now) 0 }
    {
        table.fill(0);
        marks.fill(0);
        table[0] = 1;
        for i in 0..self.tables.words.len() - 1 {
            self.keep_place(marks, table, i);
        }
    }
}
