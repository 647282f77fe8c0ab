// The walk on span cards, over lists of words and places. Its tables and marks are its own.
#![tactic(auto)]

ghost use Rattle.std.specs.Prelude.{◌≡◌, cond, ◌≤◌, ◌<◌, IfSome, eqb, length, set, take, unwrap_or};
ghost use Rattle.card_entries.specs.Slot.{entries_in};
ghost use Rattle.card_entries.specs.KindLists.{SpanLists};
ghost use Rattle.span_walk.specs.Walked.{Walks};
ghost use Rattle.span_walk.specs.Steps.{walked_at, can_try, between, SlotsBelow, Opened, Next};
ghost use Rattle.span_memory.specs.Tally.{tally_of};
ghost use Rattle.span_steps.specs.Steps.{able, tables_of};
ghost use Rattle.span_walk.specs.Going.{noted, calling, Ready, WentOn};
ghost use Rattle.span_walk.specs.Recalling.{Recalls};

use build_method::MethodAnswer;
use card_entries::{EntryLists, MOST};
use span_memory::tally::Tally;
use span_steps::{NO_WORD, SLOTS, Tables};

// The slots from lo up to hi.
#[derive(Clone, Copy)]
struct Slots {
    lo: usize,
    hi: usize,
}

// Where a walk stands: the place i, after a word whose last letters are `want`, and how far it has come. The budget and the mask, which has a
// one for each binary digit of a word's last letters, are the same at all places.
#[derive(Clone, Copy)]
struct Walking {
    i: usize,
    want: u32,
    mask: u32,
    budget: u32,
    tally: Tally,
}

// Whether the entry e can be tried at the place i, where `tried` was the last word tried.
#[tactic(auto, using(span_steps::proofs::StepLaws::able_is), unfolding(crate::specs::Steps::can_try))]
fn can_try(words: &[u32], marks: &[u8], e: usize, i: usize, want: u32, tried: u32) -> bool
    requires { (e < length words.now) × (e < length marks.now) }
    ensures { result ≡ can_try words.now marks.now i want tried e }
{
    let w = words[e];
    span_steps::agrees(w, i, want) && marks[e] == 0 && w != tried
}

// Of the slots lo to hi those that may be tried at i: all, the one whose entry ends at i, or none where several end there.
fn due(tables: &Tables, marks: &[u8], lo: usize, hi: usize, i: usize) -> Slots
    requires slots_below { SlotsBelow tables.now.slots.now lo hi (length tables.now.twos.now) }
    requires twos_in_bounds { length tables.now.twos.now ≤ length marks.now }
    ensures { Opened tables.now.slots.now tables.now.twos.now marks.now i (between lo hi) result }
{
    let mut the = None;
    for k in lo..hi {
        if span_steps::is_due(tables.twos, marks, tables.entry_at(k), i) {
            match the {
                Some(_) => return Slots { lo: hi, hi },
                None => the = Some(k),
            }
        }
    }
    match the {
        Some(k) => Slots { lo: k, hi: k + 1 },
        None => Slots { lo, hi },
    }
}

// The first slot from `from` on, before hi, whose entry can be tried, if there is one.
fn next(
    tables: &Tables,
    marks: &[u8],
    from: usize,
    hi: usize,
    i: usize,
    want: u32,
    tried: u32,
) -> Option<usize>
    requires slots_below { SlotsBelow tables.now.slots.now from hi (length tables.now.words.now) }
    requires words_in_bounds { length tables.now.words.now ≤ length marks.now }
    ensures next { Next
        (able tables.now.words.now marks.now i want)
        tables.now.words.now
        tables.now.slots.now
        tried
        (between from hi)
        (unwrap_or result hi) }
    ensures in_range { IfSome result (λ k. k < hi) }
{
    for k in from..hi {
        if can_try(tables.words, marks, tables.entry_at(k), i, want, tried) {
            return Some(k);
        }
    }
    None
}

// The word w stands at the place i: it is kept while no build is complete.
fn keep_word(first: &mut [u32], i: usize, w: u32, builds: u32)
    requires { i < length first.old }
    ensures { first.new ≡ cond (eqb builds 0) (set first.old i w) first.old }
{
    if builds == 0 {
        first[i] = w;
    }
}

// The walk from where it stands on, where the marks say which entries are placed: how far it comes, or nothing where the budget is spent. The
// number of unplaced entries falls at each placement. A state that is known to end without a build is not walked again.
fn walk_from(
    tables: &Tables,
    marks: &mut [u8; MOST],
    first: &mut [u32],
    known: &mut [u64; span_memory::LENGTH],
    at: Walking,
) -> Option<Tally>
    requires ready { Ready (calling (tables_of tables.now) at (noted marks.old first.old)) }
    requires recalls { Recalls (tables_of tables.now) at.mask known.old }
    ensures went_on { WentOn
        (calling (tables_of tables.now) at (noted marks.old first.old))
        (noted marks.new first.new)
        (tally_of at.budget result) }
    ensures few_builds { IfSome result (λ t. t.builds ≤ 2) }
    ensures still_recalls { Recalls (tables_of tables.now) at.mask known.new }
{
    let Walking {
        i,
        want,
        mask,
        budget,
        tally: before,
    } = at;
    if i == tables.words.len() {
        return Some(before);
    }
    let lo = tables.start_of(i);
    let end = tables.start_of(i + 1);
    let open = due(tables, marks, lo, end, i);
    let hi = open.hi;
    let mut slot = next(tables, marks, open.lo, hi, i, want, NO_WORD);
    if slot.is_none() {
        return Some(before);
    }
    let key = span_memory::key_of(tables.list(i), marks, i, want, before.placed);
    if let Some(key) = key {
        if let Some(size) = span_memory::recall(known, key) {
            return before.skipped(size, budget);
        }
    }
    let mut tally = before;
    while let Some(k) = slot {
        if tally.placed == budget {
            return None;
        }
        let e = tables.entry_at(k);
        let w = tables.words[e];
        marks[e] = 1;
        keep_word(first, i, w, tally.builds);
        let below = Walking {
            i: i + 1,
            want: w & mask,
            tally: tally.placed_at(i, tables.words.len()),
            ..at
        };
        let went = walk_from(tables, marks, first, known, below);
        marks[e] = 0;
        tally = went?;
        if tally.builds >= 2 {
            return Some(tally);
        }
        slot = next(tables, marks, k + 1, hi, i, want, w);
    }
    if let Some(key) = key {
        span_memory::remember(known, key, before, tally);
    }
    Some(tally)
}

// What a walk that has run out, or stopped, comes to.
fn outcome_of(went: Option<Tally>, budget: u32) -> MethodAnswer
    requires { IfSome went (λ t. t.builds ≤ 2) }
    ensures { result ≡ walked_at budget (tally_of budget went).placed (tally_of budget went).builds }
{
    match went {
        None => MethodAnswer::Unsettled(budget),
        Some(t) => match t.builds {
            0 => MethodAnswer::None(t.placed),
            1 => MethodAnswer::Sole(t.placed),
            _ => MethodAnswer::Several(t.placed),
        },
    }
}

// The walk over lists that the entry rules admit. Where it gives a build, `found` begins with the words of the alphabetically first one.
pub fn walk(l: usize, lists: &EntryLists, budget: u32, found: &mut [u32]) -> MethodAnswer
    requires span_lists { SpanLists l lists.now.words.now lists.now.ones.now lists.now.twos.now }
    requires words_in_bounds { length lists.now.words.now ≤ length found.old }
    ensures { Walks
        l
        (entries_in lists.now.words.now lists.now.ones.now lists.now.twos.now)
        budget
        result
        (take (length lists.now.words.now) found.new) }
{
    let m = lists.words.len();
    let mut starts = [0; MOST + 1];
    let mut slots = [0; SLOTS];
    span_tables::prepare(l, lists, &mut starts, &mut slots);
    let mut marks = [0; MOST];
    let mut known = span_memory::nothing();
    let mask = card_entries::words_of(l - 1) - 1;
    let tally = Tally {
        placed: 0,
        builds: 0,
    };
    let at = Walking {
        i: 0,
        want: 0,
        mask,
        budget,
        tally,
    };
    let tables = Tables {
        words: lists.words,
        twos: lists.twos,
        starts: &starts,
        slots: &slots,
    };
    let went = walk_from(&tables, &mut marks, &mut found[..m], &mut known, at);
    outcome_of(went, budget)
}
