// How far a walk has come.
ghost use Rattle.std.specs.Prelude.{◌≡◌, ◌+◌, ◌≤◌, ◌<◌, IfSome, MatchOption};
ghost use Rattle.span_memory.specs.Tally.{most_budget, tally_of, PlacedOne, PlacedMore};

// The placements made, and the builds that are complete.
#[derive(Clone, Copy)]
pub struct Tally {
    pub placed: u32,
    pub builds: u32,
}

impl Tally {
    // A placement at the place i of m: it is counted, and at the last place it completes a build.
    pub fn placed_at(self, i: usize, m: usize) -> Tally
        requires { (i < m) × (self.placed < most_budget) × (self.builds < 2) }
        ensures { PlacedOne i m self result }
    {
        let placed = self.placed + 1;
        let builds = if i + 1 == m {
            self.builds + 1
        } else {
            self.builds
        };
        Tally { placed, builds }
    }

    // So many placements more, if the budget allows them.
    pub fn skipped(self, size: u64, budget: u32) -> Option<Tally>
        requires { self.placed ≤ budget }
        ensures placed_more { PlacedMore size budget self (tally_of budget result) }
        ensures same_builds { IfSome result (λ t. t.builds ≡ self.builds) }
        ensures told { MatchOption result (budget < self.placed + size) (λ t. self.placed + size ≤ budget) }
    {
        let rest = budget - self.placed;
        if size > u64::from(rest) {
            return None;
        }
        Some(Tally {
            placed: self.placed + size as u32,
            builds: self.builds,
        })
    }
}
