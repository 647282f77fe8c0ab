// What one placement forces on a pair card, over lists: an entry that is put at a place excludes others from it and from the two places
// beside it, they go to their other places, and so on, until nothing more is forced or something clashes. Nothing here knows a byte of a
// card: `PairCard` has the list of its entries, three numbers for each slot, as specs/Following.antt says. The `pub` functions but
// `with_number` have a `requires`: their callers have admitted the entries and made that list.
#![tactic(auto)]

ghost use Rattle.std.specs.Prelude.{◌≡◌, true, false, ◌≢◌, ◌⊎◌, ℕ, ◌+◌, ◌*◌, ◌-◌, ◌≤◌, ◌<◌, ◌^◌};
ghost use Rattle.std.specs.Prelude.{length, set, is_ok};
ghost use Rattle.pair_theory.specs.Arranged.{HasPlace, Goes};
ghost use Rattle.pair_theory.specs.Chosen.{Closed, Possible};
ghost use Rattle.pair_following.specs.Following.{nth, count_in, place_in, prev_in, word_in, last_in, pairs_of, pairs_in, HoldsPairs, Links};
ghost use Rattle.pair_following.specs.Following.{progress_of, progress_in, Trail, Ready, Decides, CanStand};
ghost use Rattle.pair_following.specs.Common.{one_in, many_in, key_in, by, Joined, Common};
ghost use Rattle.pair_following.specs.Following.{Free, AllFree, FreeFrom, Grown, Follows, TakenBack, Attempt};

// A clash: what was to be placed cannot be arranged. By the trail the places can be taken back.
#[derive(Clone, Copy)]
pub struct Clashed;

// The numbers that are found at a place: none, one, or more, with the least of them.
#[derive(Clone, Copy)]
pub enum Found {
    None,
    One(usize),
    More(usize),
}

// The number that an entry goes by: its word, by which equal words are one, or its own.
#[derive(Clone, Copy)]
pub enum Key {
    Word,
    Number,
}

// A pair card, as the steps read it: the list of its entries, and the mask that takes the last l − 1 letters of a word.
#[derive(Clone, Copy)]
pub struct PairCard<'a> {
    pub card: &'a [usize],
    pub mask: u32,
}

// The places so far: the place of each entry, or the number of entries where it has none; and the trail, the first n of which are the entries
// that got one, in their order.
#[derive(Drop)]
pub struct Placed<'a> {
    pub put: &'a mut [usize],
    pub trail: &'a mut [usize],
    pub n: usize,
}

// Whether entry e can still come to stand at t, by the places alone, which a caller may have by `&`.
pub fn possible(put: &[usize], e: usize, t: usize) -> bool
    requires { e < length put.now }
    ensures { Decides (CanStand (length put.now) put.now e t) result }
{
    let p = put[e];
    p >= put.len() || p == t
}

// Takes the place from the entries of the trail from `from` up to n; the trail is only read. `Placed::undo` does not call it: two fields behind one
// reference are not lent at once yet.
pub fn undo(put: &mut [usize], trail: &[usize], from: usize, n: usize)
    requires { (n ≤ length trail.now) × ((i : ℕ) → i < n → nth trail.now i < length put.old) }
    ensures { TakenBack (progress_of put.old trail.now n) from put.new }
{
    let none = put.len();
    for i in from..n {
        put[trail[i]] = none;
    }
}

impl Placed<'_> {
    // Whether entry e can still come to stand at t.
    pub fn possible(&self, e: usize, t: usize) -> bool
        requires { e < length self.now.put.now }
        ensures { Decides (CanStand (length self.now.put.now) self.now.put.now e t) result }
    {
        possible(self.put, e, t)
    }

    // Puts entry f at r, and on the trail.
    fn place(&mut self, f: usize, r: usize)
        requires { (f < length self.old.put.now) × (self.old.n < length self.old.trail.now) }
        ensures { (self.new.put.now ≡ set self.old.put.now f r)
            × (self.new.trail.now ≡ set self.old.trail.now self.old.n f)
            × (self.new.n ≡ self.old.n + 1) }
    {
        self.put[f] = r;
        self.trail[self.n] = f;
        self.n += 1;
    }

    // Takes the place from the entries of the trail from `from` on, where it then ends.
    pub fn undo(&mut self, from: usize)
        requires { (self.old.n ≤ length self.old.trail.now)
            × ((i : ℕ) → i < self.old.n → nth self.old.trail.now i < length self.old.put.now) }
        ensures back { TakenBack (progress_in self.old) from self.new.put.now }
        ensures trail { (self.new.trail.now ≡ self.old.trail.now) × (self.new.n ≡ from) }
    {
        let none = self.put.len();
        for i in from..self.n {
            self.put[self.trail[i]] = none;
        }
        self.n = from;
    }
}

// The numbers s and one more.
pub fn with_number(s: Found, x: usize) -> Found
    ensures { Joined (one_in s) (many_in s) x (one_in result) (many_in result) }
{
    match s {
        Found::None => Found::One(x),
        Found::One(least) | Found::More(least) => {
            if x == least {
                s
            } else if x < least {
                Found::More(x)
            } else {
                Found::More(least)
            }
        }
    }
}

impl PairCard<'_> {
    // The place of slot x: entry x / 2 at its place one or two.
    pub fn place_of(&self, x: usize) -> usize
        requires { x < 2 * count_in self.now.card.now }
        ensures { result ≡ place_in self.now.card.now x }
    {
        self.card[3 * x]
    }

    // The slot before x in the list of its place, plus one; 0 where the list ends.
    pub fn slot_before(&self, x: usize) -> usize
        requires { x < 2 * count_in self.now.card.now }
        ensures { result ≡ prev_in self.now.card.now x }
    {
        self.card[3 * x + 1]
    }

    // The last slot of the list of place t, plus one; 0 where the list is empty.
    pub fn last_slot(&self, t: usize) -> usize
        requires { t < count_in self.now.card.now }
        ensures { result ≡ last_in self.now.card.now t }
    {
        self.card[6 * t + 5]
    }

    // The word of entry e.
    pub fn word_of(&self, e: usize) -> u32
        requires { (e < count_in self.now.card.now) × (word_in self.now.card.now e < 2 ^ 32) }
        ensures { result ≡ word_in self.now.card.now e }
    {
        self.card[6 * e + 2] as u32
    }

    // The place of entry f that is not q.
    pub fn other(&self, f: usize, q: usize) -> usize
        requires { (f < count_in self.now.card.now)
            × (place_in self.now.card.now (2 * f) < count_in self.now.card.now)
            × (place_in self.now.card.now (2 * f + 1) < count_in self.now.card.now)
            × (q ≤ place_in self.now.card.now (2 * f) + place_in self.now.card.now (2 * f + 1)) }
        ensures { result ≡ (place_in self.now.card.now (2 * f) + place_in self.now.card.now (2 * f + 1)) - q }
    {
        let one = self.place_of(2 * f);
        let two = self.place_of(2 * f + 1);
        one + two - q
    }

    // Whether the word of entry e ends as that of entry f begins, but for a letter.
    fn overlap(&self, e: usize, f: usize) -> bool
        requires { HoldsPairs self.now.card.now self.now.mask × (e < count_in self.now.card.now) × (f < count_in self.now.card.now) }
        ensures { Decides ((pairs_in self.now).tail e ≡ (pairs_in self.now).head f) result }
    {
        let here = self.word_of(e);
        let next = self.word_of(f);
        here & self.mask == next / 4
    }

    // Whether the entries e at p and f at q do not exclude each other, case by case: one expression would name the cases by what they are not.
    fn goes(&self, e: usize, p: usize, f: usize, q: usize) -> bool
        requires pairs { HoldsPairs self.now.card.now self.now.mask × (e < count_in self.now.card.now) × (f < count_in self.now.card.now) }
        requires places_in_range { (p < count_in self.now.card.now) × (q < count_in self.now.card.now) }
        ensures { Decides (Goes (pairs_in self.now) e p f q) result }
    {
        if p == q {
            return false;
        }
        if q == p + 1 {
            return self.overlap(e, f);
        }
        if p == q + 1 {
            return self.overlap(f, e);
        }
        true
    }

    // Entry e, which has a place, excludes entry f from q, or not: then f goes to its other place.
    fn exclude(&self, placed: &mut Placed, e: usize, f: usize, q: usize) -> Result<(), Clashed>
        requires pairs { HoldsPairs self.now.card.now self.now.mask }
        requires trail { Trail (count_in self.now.card.now) (progress_in placed.old) }
        requires placed { (e < count_in self.now.card.now)
            × (f < count_in self.now.card.now)
            × (q < count_in self.now.card.now)
            × (nth placed.old.put.now e < count_in self.now.card.now)
            × HasPlace (pairs_in self.now) f q }
        ensures { Grown
            (pairs_in self.now)
            (progress_in placed.old)
            (progress_in placed.new)
            (is_ok result)
            (e ≢ f → Free (pairs_in self.now) (nth placed.new.put.now) e f q) }
    {
        if e == f {
            return Ok(());
        }
        if self.goes(e, placed.put[e], f, q) {
            return Ok(());
        }
        let was = placed.put[f];
        if was == q {
            return Err(Clashed);
        }
        if was < placed.put.len() {
            return Ok(());
        }
        let r = self.other(f, q);
        if r == q {
            return Err(Clashed);
        }
        placed.place(f, r);
        Ok(())
    }

    // Entry e, which has a place, excludes from q all that it must.
    fn clear(&self, placed: &mut Placed, e: usize, q: usize) -> Result<(), Clashed>
        requires ready { Ready self.now.card.now self.now.mask (progress_in placed.old) }
        requires placed { (e < count_in self.now.card.now)
            × (q < count_in self.now.card.now)
            × (nth placed.old.put.now e < count_in self.now.card.now) }
        ensures { Grown
            (pairs_in self.now)
            (progress_in placed.old)
            (progress_in placed.new)
            (is_ok result)
            (FreeFrom (pairs_in self.now) (nth placed.new.put.now) e q 0) }
    {
        // The list of a place is linked, so no range has its slots.
        let mut k = self.last_slot(q);
        while k > 0 {
            let x = k - 1;
            self.exclude(placed, e, x / 2, q)?;
            k = self.slot_before(x);
        }
        Ok(())
    }

    // Whether some entry can still come to stand at q.
    fn can_be_filled(&self, placed: &Placed, q: usize) -> bool
        requires { (q < count_in self.now.card.now) × (length placed.now.put.now ≡ count_in self.now.card.now) × Links self.now.card.now }
        ensures { result ≡ false → (mask e : ℕ) → e < count_in self.now.card.now
            → Possible (pairs_of self.now.card.now mask) (nth placed.now.put.now) q e
            → ⊥ }
    {
        // The list of a place is linked, so no range has its slots.
        let mut k = self.last_slot(q);
        while k > 0 {
            let x = k - 1;
            if placed.possible(x / 2, q) {
                return true;
            }
            k = self.slot_before(x);
        }
        false
    }

    // As `clear`, of the place before `after`, where there is one. If no entry is left for it, that is a clash: so a trial that fails ends soon.
    fn clear_beside(&self, placed: &mut Placed, e: usize, after: usize) -> Result<(), Clashed>
        requires ready { Ready self.now.card.now self.now.mask (progress_in placed.old) }
        requires placed { (e < count_in self.now.card.now) × (nth placed.old.put.now e < count_in self.now.card.now) }
        ensures { Grown
            (pairs_in self.now)
            (progress_in placed.old)
            (progress_in placed.new)
            (is_ok result)
            ((q : ℕ) → q + 1 ≡ after → FreeFrom (pairs_in self.now) (nth placed.new.put.now) e q 0) }
    {
        if after == 0 {
            return Ok(());
        }
        if after > placed.put.len() {
            return Ok(());
        }
        let q = after - 1;
        self.clear(placed, e, q)?;
        if self.can_be_filled(placed, q) {
            Ok(())
        } else {
            Err(Clashed)
        }
    }

    // Entry e, which has a place, excludes all that it must.
    fn exclude_all(&self, placed: &mut Placed, e: usize) -> Result<(), Clashed>
        requires ready { Ready self.now.card.now self.now.mask (progress_in placed.old) }
        requires placed { (e < count_in self.now.card.now) × (nth placed.old.put.now e < count_in self.now.card.now) }
        ensures { Grown
            (pairs_in self.now)
            (progress_in placed.old)
            (progress_in placed.new)
            (is_ok result)
            (AllFree (pairs_in self.now) (nth placed.new.put.now) e) }
    {
        let p = placed.put[e];
        self.clear(placed, e, p)?;
        self.clear_beside(placed, e, p + 2)?;
        self.clear_beside(placed, e, p)
    }

    // Puts entry e, which has no place, at p, and all that this forces on the trail.
    pub fn follow(&self, placed: &mut Placed, e: usize, p: usize) -> Result<(), Clashed>
        requires ready { Ready self.now.card.now self.now.mask (progress_in placed.old) }
        requires closed { Closed (pairs_in self.now) (nth placed.old.put.now) }
        requires unplaced { (e < count_in self.now.card.now)
            × (count_in self.now.card.now ≤ nth placed.old.put.now e)
            × (p < count_in self.now.card.now)
            × HasPlace (pairs_in self.now) e p }
        ensures { Follows
            (pairs_in self.now)
            (progress_in placed.old)
            e
            p
            (progress_in placed.new)
            (is_ok result) }
    {
        let mut top = placed.n;
        placed.place(e, p);
        // The trail grows while it is gone through, so no range says where that ends.
        while top < placed.n {
            let f = placed.trail[top];
            self.exclude_all(placed, f)?;
            top += 1;
        }
        Ok(())
    }

    // Whether entry e, which has no place, can be put at p; the places stay as they are.
    pub fn attempt(&self, placed: &mut Placed, e: usize, p: usize) -> bool
        requires ready { Ready self.now.card.now self.now.mask (progress_in placed.old) }
        requires closed { Closed (pairs_in self.now) (nth placed.old.put.now) }
        requires unplaced { (e < count_in self.now.card.now)
            × (count_in self.now.card.now ≤ nth placed.old.put.now e)
            × (p < count_in self.now.card.now)
            × HasPlace (pairs_in self.now) e p }
        ensures { Attempt
            (pairs_in self.now)
            (progress_in placed.old)
            e
            p
            (progress_in placed.new)
            result }
    {
        let n = placed.n;
        let ok = self.follow(placed, e, p).is_ok();
        placed.undo(n);
        ok
    }

    // The number of entry e.
    fn key_of(&self, e: usize, key: Key) -> usize
        requires { (e < count_in self.now.card.now) × (word_in self.now.card.now e < 2 ^ 32) }
        ensures { result ≡ key_in key (word_in self.now.card.now e) e }
    {
        match key {
            Key::Word => self.word_of(e) as usize,
            Key::Number => e,
        }
    }

    // The numbers s, with that of entry e if it can still come to stand at t.
    fn with_possible(&self, placed: &Placed, e: usize, t: usize, key: Key, s: Found) -> Found
        requires { (e < count_in self.now.card.now)
            × (word_in self.now.card.now e < 2 ^ 32)
            × (length placed.now.put.now ≡ count_in self.now.card.now) }
        ensures { ((CanStand (count_in self.now.card.now) placed.now.put.now e t → ⊥)
            × (one_in result ≡ one_in s)
            × (many_in result ≡ many_in s))
            ⊎ (CanStand (count_in self.now.card.now) placed.now.put.now e t
            × Joined (one_in s) (many_in s) (key_in key (word_in self.now.card.now e) e) (one_in result) (many_in result)) }
    {
        if placed.possible(e, t) {
            with_number(s, self.key_of(e, key))
        } else {
            s
        }
    }

    // The numbers of the entries that can still come to stand at t.
    pub fn found_at(&self, placed: &Placed, t: usize, key: Key) -> Found
        requires place { (t < count_in self.now.card.now) × (length placed.now.put.now ≡ count_in self.now.card.now) }
        requires lists { Links self.now.card.now }
        requires words { (e : ℕ) → e < count_in self.now.card.now → word_in self.now.card.now e < 2 ^ 32 }
        ensures { (mask : ℕ) → Common (by key (pairs_of self.now.card.now mask)) (nth placed.now.put.now) t 0 (one_in result) (many_in result) }
    {
        let mut s = Found::None;
        // The list of a place is linked, so no range has its slots.
        let mut k = self.last_slot(t);
        while k > 0 {
            let x = k - 1;
            s = self.with_possible(placed, x / 2, t, key, s);
            k = self.slot_before(x);
        }
        s
    }
}
