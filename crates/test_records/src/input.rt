// What a record has, read from the input, little-endian: its fields and its lists. Where a read fails the input ends.
ghost use Rattle.std.specs.Prelude.{◌≡◌, ◌+◌, ◌≤◌, IfSome, length};
ghost use Rattle.test_records.specs.Record.{field_bytes, slots, eight_at, lengths_in, slots_in};

use crate::lent;
use crate::lent::SLOTS;
use std::io::Read;

// The most bytes that the fields of a record have.
pub const FIELDS: usize = 24;

// Fills the bytes from the input, and answers whether it has as many.
pub fn fill(from: &mut impl Read, bytes: &mut [u8]) -> bool {
    from.read_exact(bytes).is_ok()
}

// The field of eight bytes from `at` on.
pub fn eight_at(fields: &[u8; FIELDS], at: usize) -> usize
    requires { at + 8 ≤ field_bytes }
    ensures { result ≡ eight_at fields.now at }
{
    let low = card_block::four_at(fields, at) as usize;
    let high = card_block::four_at(fields, at + 4) as usize;
    low + 4294967296 * high
}

// What a list of a record holds: as many bytes for each as its type has.
pub trait Stored: Copy {
    // The next one of the input; none where it ends before.
    fn next(from: &mut impl Read) -> Option<Self>;
}

// An `impl` for each width, as std has them.
impl Stored for u16 {
    fn next(from: &mut impl Read) -> Option<u16> {
        let mut bytes = [0u8; 2];
        if fill(from, &mut bytes) {
            Some(card_block::two_at(&bytes, 0))
        } else {
            None
        }
    }
}

impl Stored for u32 {
    fn next(from: &mut impl Read) -> Option<u32> {
        let mut bytes = [0u8; 4];
        if fill(from, &mut bytes) {
            Some(card_block::four_at(&bytes, 0))
        } else {
            None
        }
    }
}

// Fills the list from the input, and answers whether it has as many.
fn fill_list<T: Stored>(from: &mut impl Read, list: &mut [T]) -> bool {
    for x in list {
        let Some(next) = T::next(from) else {
            return false;
        };
        *x = next;
    }
    true
}

// How many bytes follow, and how many an output has, by the first two fields; none where there are more than so many.
pub fn lengths(fields: &[u8; FIELDS], most: usize, most_room: usize) -> Option<(usize, usize)>
    ensures value { result ≡ lengths_in fields.now most most_room }
    ensures within { IfSome result (λ n. (n.0 ≤ most) × (n.1 ≤ most_room)) }
{
    let n = card_block::four_at(fields, 0) as usize;
    let room = usize::from(card_block::two_at(fields, 4));
    if n <= most && room <= most_room {
        Some((n, room))
    } else {
        None
    }
}

// How many slots three lists have, by the fields from `at` on; none where a record can have no such lists.
pub fn slots_at(fields: &[u8; FIELDS], at: usize) -> Option<(usize, usize, usize)>
    requires { at + 6 ≤ field_bytes }
    ensures value { result ≡ slots_in fields.now at }
    ensures within { IfSome result (λ n. (n.0 ≤ slots) × (n.1 ≤ slots) × (n.2 ≤ slots)) }
{
    let a = usize::from(card_block::two_at(fields, at));
    let b = usize::from(card_block::two_at(fields, at + 2));
    let c = usize::from(card_block::two_at(fields, at + 4));
    if a <= SLOTS && b <= SLOTS && c <= SLOTS {
        Some((a, b, c))
    } else {
        None
    }
}

// The three lists of a card, in whose first slots a record's stand: words, places one and places two. `ListRoom` has as many slots as a card has
// entries at most; a record may have more.
#[derive(Drop)]
pub struct SlotLists {
    pub words: [u32; SLOTS],
    pub ones: [u16; SLOTS],
    pub twos: [u16; SLOTS],
}

// The next a words, b places one and c places two; none where the input ends before.
pub fn lists(from: &mut impl Read, a: usize, b: usize, c: usize) -> Option<SlotLists>
    requires { (a ≤ slots) × (b ≤ slots) × (c ≤ slots) }
    ensures { IfSome result (λ x. (length x.words ≡ slots) × (length x.ones ≡ slots) × (length x.twos ≡ slots)) }
{
    let mut words = lent::words();
    let mut ones = lent::places();
    let mut twos = lent::places();
    if fill_list(from, &mut words[..a])
        && fill_list(from, &mut ones[..b])
        && fill_list(from, &mut twos[..c])
    {
        Some(SlotLists { words, ones, twos })
    } else {
        None
    }
}
