// Where things stand on a card: what the reader and the writer share.
#![tactic(auto)]

ghost use Rattle.std.specs.Prelude.{◌≡◌, ◌+◌, ◌*◌, ◌/◌, ◌≤◌, ◌<◌, length};
ghost use Rattle.card_block.specs.Block.{block_bytes};
ghost use Rattle.card_block.specs.Sealing.{sealed};
ghost use Rattle.card_layout.specs.Layout.{format_of, told_by, per_block, entry_blocks, size_of, entries_before, entries_in_block, slot_of, entry_at};
ghost use Rattle.card_layout.specs.Layout.{is_zeros, head_spare, slots_spare};
ghost use Rattle.card_layout.specs.Card.{head_bytes};
ghost use Rattle.card_entries.specs.Bounds.{most_entries};

use card_entries::{Entry, Format, Slot};

// What a card's form must be.
pub const THE_FORM: u8 = 1;
// The entries of a full block.
const PER_BLOCK: usize = 63;
// The bytes of the longest card. A constant's value calls no `div_ceil`.
pub const LONGEST: usize = card_block::BLOCK
    * (1 + (card_entries::MOST + (PER_BLOCK - 1)) / PER_BLOCK);

// The kind, l and m that block 0 says.
#[tactic(auto, unfolding(crate::specs::Layout::format_of))]
pub fn format_of(head: &[u8]) -> Format
    requires { length head.now ≡ block_bytes }
    ensures { result ≡ format_of head.now }
{
    Format {
        kind: usize::from(head[1]),
        l: usize::from(head[2]),
        m: usize::from(card_block::two_at(head, 4)),
    }
}

// Writes block 0 of a card of this format.
pub fn put_head(part: &mut [u8], f: Format)
    requires { (length part.old ≡ block_bytes) × (f.kind < 256) × (f.l < 256) × (f.m < 65536) }
    ensures { part.new ≡ sealed (head_bytes f) 0 }
{
    part[..4].copy_from_slice(&[THE_FORM, f.kind as u8, f.l as u8, 0]);
    card_block::put_two(part, 4, f.m as u16);
    card_block::seal(part, 6, 0);
}

// The kind, l and m that a card says in its block 0.
pub fn told_by(card: &[u8]) -> Format
    requires { block_bytes ≤ length card.now }
    ensures { result ≡ told_by card.now }
{
    format_of(card_block::part(card, 0))
}

// How many blocks m entries take. `div_ceil` was tried: it multiplies once more, and tests/divisions allows none.
pub fn entry_blocks(m: usize) -> usize
    requires { m ≤ most_entries }
    ensures { result ≡ entry_blocks m }
{
    (m + (PER_BLOCK - 1)) / PER_BLOCK
}

// The bytes of a card of m entries.
pub fn size_of(m: usize) -> usize
    requires { m ≤ most_entries }
    ensures { result ≡ size_of m }
{
    card_block::BLOCK * (1 + entry_blocks(m))
}

// How many entries stand before block k, which is not block 0.
pub fn entries_before(k: usize) -> usize
    requires { (1 ≤ k) × (k ≤ most_entries) }
    ensures { result ≡ entries_before k }
{
    PER_BLOCK * (k - 1)
}

// How many entries stand in block k, which is not block 0.
pub fn entries_in_block(m: usize, k: usize) -> usize
    requires { (1 ≤ k) × (k ≤ most_entries) }
    ensures { result ≡ entries_in_block m k }
{
    PER_BLOCK.min(m.saturating_sub(entries_before(k)))
}

// The slot of entry e.
pub fn slot_of(card: &[u8], e: usize) -> Slot
    requires { block_bytes * (1 + e / per_block) + block_bytes ≤ length card.now }
    ensures { result ≡ slot_of card.now e }
{
    card_entries::slot_at(card_block::part(card, 1 + e / PER_BLOCK), e % PER_BLOCK)
}

// Entry e of a card of this kind.
pub fn entry_at(card: &[u8], kind: usize, e: usize) -> Entry
    requires { (kind ≡ (told_by card.now).kind) × (block_bytes * (1 + e / per_block) + block_bytes ≤ length card.now) }
    ensures { result ≡ entry_at card.now e }
{
    card_entries::entry_of(kind, slot_of(card, e))
}

// Whether all bytes are zero. Each is looked at, with no way out before the last, so that the compiler can look at many at once.
fn is_zeros(bytes: &[u8]) -> bool
    ensures { result ≡ is_zeros bytes.now }
{
    let mut all = true;
    for x in bytes {
        all &= *x == 0;
    }
    all
}

// Whether the bytes of block 0 that must be zero are.
pub fn head_spare(head: &[u8]) -> bool
    requires { length head.now ≡ block_bytes }
    ensures { result ≡ head_spare head.now }
{
    head[3] == 0 && is_zeros(&head[6..card_block::INDEX_AT])
}

// Whether the bytes of a later block that must be zero are, where it has n entries.
pub fn slots_spare(part: &[u8], n: usize) -> bool
    requires { (length part.now ≡ block_bytes) × (n ≤ per_block) }
    ensures { result ≡ slots_spare part.now n }
{
    is_zeros(&part[card_entries::ENTRY * n..card_block::INDEX_AT])
}
