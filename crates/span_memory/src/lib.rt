// What the walk remembers: of a state that it walked to its end without a build the number of its placements, by a key that no other state
// has. The memory is a list of numbers, two for each cell, a key and a size; a key of 0 says nothing, and whatever is stored may be replaced.
// The functions are called by the walk alone, but for `bits_of`, by which narrow cards are settled too.
#![tactic(auto)]

pub mod tally;

ghost use Rattle.std.specs.Prelude.{◌≡◌, ◌≤◌, ◌<◌, IfSome, length, replicate};
ghost use Rattle.span_memory.specs.Memory.{few_marks, most_places, buckets, cells, memory_length, mark_of, Below, Bits, KeyOf, Told, Stored};

use tally::Tally;

// The buckets of the memory, of two cells each: a prime, so that keys spread.
const BUCKETS: usize = 251;
// A key and a size for each cell.
pub const LENGTH: usize = 4 * BUCKETS;
// A state has a key only once so many placements more were made than there are places before it: most cards are settled first.
const PATIENCE: usize = 512;
// The marks of so many entries are told in a key,
const FEW_MARKS: usize = 16;
// and have so many values.
const MARK_VALUES: u64 = 65536;
// The last letters of a word are below it.
const TAIL_VALUES: u64 = 4294967296;

// A memory that says nothing.
pub fn nothing() -> [u64; LENGTH]
    ensures { result ≡ replicate memory_length 0 }
{
    [0; LENGTH]
}

// 1 where the entry e is placed, 0 where it is left.
fn mark_of(marks: &[u8], e: u16) -> u64
    requires { e < length marks.now }
    ensures { result ≡ mark_of marks.now e }
{
    u64::from(marks[usize::from(e)] != 0)
}

// The marks of the entries of the list, as binary digits.
pub fn bits_of(list: &[u16], marks: &[u8]) -> u64
    requires below { Below list.now (length marks.now) }
    requires list_len_bound { length list.now ≤ few_marks }
    ensures { Bits marks.now list.now result }
{
    let mut bits = 0;
    for e in list {
        bits = 2 * bits + mark_of(marks, *e);
    }
    bits
}

// The key of the state at the place i, whose list is lent, after a word whose last letters are `want`; none where `placed` is too few
// placements for one, or the list too long.
pub fn key_of(list: &[u16], marks: &[u8], i: usize, want: u32, placed: u32) -> Option<u64>
    requires below { Below list.now (length marks.now) }
    requires i_lt_most_places { i < most_places }
    ensures { IfSome result (KeyOf marks.now list.now i want) }
{
    if (placed as usize) < i + PATIENCE || list.len() > FEW_MARKS {
        return None;
    }
    let bits = bits_of(list, marks);
    Some((i as u64 * MARK_VALUES + bits) * TAIL_VALUES + u64::from(want) + 1)
}

// The bucket of a key.
fn bucket_of(key: u64) -> usize
    ensures { result < buckets }
{
    (key % BUCKETS as u64) as usize
}

// The placements of the state with that key, if the memory says. No state has the key 0, which an empty cell holds.
pub fn recall(known: &[u64; LENGTH], key: u64) -> Option<u64>
    ensures { IfSome result (Told known.now key) }
{
    if key == 0 {
        return None;
    }
    let one = 4 * bucket_of(key);
    if known[one] == key {
        return Some(known[one + 1]);
    }
    let two = one + 2;
    if known[two] == key {
        return Some(known[two + 1]);
    }
    None
}

// The cell for a state of that size: the first of its bucket, unless a larger one is there. So the largest of a bucket is not lost to a smaller
// one.
fn cell_for(known: &[u64; LENGTH], key: u64, size: u64) -> usize
    ensures { result < cells }
{
    let b = bucket_of(key);
    if known[4 * b + 1] <= size {
        return 2 * b;
    }
    2 * b + 1
}

// The state with that key is finished: where it completed no build, its placements are kept.
pub fn remember(known: &mut [u64; LENGTH], key: u64, before: Tally, after: Tally)
    requires { (0 < key) × (before.placed ≤ after.placed) × (length known.old ≡ memory_length) }
    ensures { Stored known.old known.new key before after }
{
    if after.builds != before.builds {
        return;
    }
    let size = u64::from(after.placed - before.placed);
    let at = 2 * cell_for(known, key, size);
    known[at] = key;
    known[at + 1] = size;
}
