// The first build, read off the table place by place: the first entry that leads on, and whether another does too.
ghost use Rattle.std.specs.Prelude.{◌≡◌};
ghost use Rattle.span_narrow.specs.Plan.{plan_in};
ghost use Rattle.span_narrow.specs.ReadOff.{Taking, Took, Readable, WasRead};

use crate::chances::Spot;
use crate::digits::Pick;
use crate::{Layout, chances};

impl Layout<'_> {
    // The first entry that leads on from the state at the spot s is placed there.
    fn take_first(&self, marks: &mut [u8], table: &[u8], s: Spot) -> Pick
        requires { Taking (plan_in self.now) marks.old table.now s }
        ensures { Took (plan_in self.now) marks.old marks.new s result }
    {
        let first = self.choose_at(marks, table, s).unwrap();
        marks[first.e] = 1;
        first
    }

    // The words of the first build, where there is one; the answer is whether there is another.
    pub fn read_off(&self, marks: &mut [u8], table: &[u8], first: &mut [u32]) -> bool
        requires { Readable (plan_in self.now) marks.old table.now first.old }
        ensures { WasRead (plan_in self.now) marks.old first.new result }
    {
        let words = self.tables.words;
        let mut more = false;
        let mut want = 0;
        for i in 0..words.len() {
            let t = self.take_first(marks, table, Spot { i, want });
            let w = words[t.e];
            first[i] = w;
            want = chances::tail_of(w, self.l);
            more |= t.more;
        }
        more
    }
}
