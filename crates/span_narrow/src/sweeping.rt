// The sweep back over the places: from the last to the first, in the cell of each state that is kept its chances.
ghost use Rattle.std.specs.Prelude.{◌≡◌, ◌+◌, ◌^◌, ◌≤◌, ◌<◌, length};
ghost use Rattle.span_layers.specs.Narrow.{most_over};
ghost use Rattle.span_narrow.specs.Plan.{plan_in, list_on, Planned};
ghost use Rattle.span_narrow.specs.States.{Sides};
ghost use Rattle.span_narrow.specs.Sweeping.{Half, Sweeping};

use crate::{CELLS, Layout, digits};

// How many sets n entries have.
pub fn sets_of(n: usize) -> usize
    requires { n ≤ most_over }
    ensures { result ≡ 2 ^ n }
{
    1usize << n
}

impl Layout<'_> {
    // The state at the place i whose marks have the digits b: where it is kept, its chances take its cell.
    fn sweep_state(&self, marks: &mut [u8], table: &mut [u8], i: usize, b: usize)
        requires sweeping { Sweeping (plan_in self.now) marks.old table.old i (b + 1) }
        requires b_bound { b < 2 ^ length (list_on (plan_in self.now) i) }
        ensures { Sweeping (plan_in self.now) marks.new table.new i b }
    {
        let cell = CELLS * i + b;
        if table[cell] == 0 {
            return;
        }
        digits::spread(self.tables.list(i), marks, b);
        table[cell] = self.chances(marks, table, i);
    }

    // The states at the place i. Then the entries of its list are left: those that begin there are never placed at an earlier place.
    fn sweep_place(&self, marks: &mut [u8], table: &mut [u8], i: usize)
        requires planned { Planned (plan_in self.now) × (i < length self.now.tables.words.now) }
        requires sides { Sides (plan_in self.now) marks.old (i + 1) (i + 1) }
        requires half { Half (plan_in self.now) table.old (i + 1) 0 }
        ensures sides_left { Sides (plan_in self.now) marks.new i i }
        ensures swept { Half (plan_in self.now) table.new i 0 }
    {
        let list = self.tables.list(i);
        for b in (0..sets_of(list.len())).rev() {
            self.sweep_state(marks, table, i, b);
        }
        digits::mark_list(list, marks, 0);
    }

    // All places, from the last to the first. Then every entry is left again.
    pub fn sweep(&self, marks: &mut [u8], table: &mut [u8])
        requires planned { Planned (plan_in self.now) × (length marks.old ≡ length self.now.tables.words.now) }
        requires half { Half (plan_in self.now) table.old (length self.now.tables.words.now) 0 }
        ensures sides { Sides (plan_in self.now) marks.new 0 0 }
        ensures swept { Half (plan_in self.now) table.new 0 0 }
    {
        marks.fill(1);
        for i in (0..self.tables.words.len()).rev() {
            self.sweep_place(marks, table, i);
        }
    }
}
