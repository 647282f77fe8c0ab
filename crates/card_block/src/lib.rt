// The blocks of a card: fetched where their check and their index hold, and sealed. This layer knows nothing of entries.
// No function that the scope names has a `requires`: `fetch` and `companion` test their own input.
#![tactic(auto)]

mod check;

ghost use Rattle.std.specs.Prelude.{◌≡◌, ◌+◌, ◌*◌, ◌≤◌, length, take};
ghost use Rattle.base_answers.specs.Answer.{first, sound, says_held};
ghost use Rattle.card_block.specs.Bytes.{two_at, four_at, two_bytes, four_bytes};
ghost use Rattle.base_lists.specs.Parts.{put_at};
ghost use Rattle.card_block.specs.Block.{block_bytes, block_at, index_at, block_tests, fetch_tests, fetch_of, place_of, start_of};
ghost use Rattle.card_block.specs.Sealing.{sealed};

use base_answers::Refusal;
use check::CHECK_AT;

// The bytes of a block.
pub const BLOCK: usize = 512;
// Where a block's index stands, after the bytes that are the card's own.
pub const INDEX_AT: usize = 508;

// The number in the two bytes of a part from `at` on. There is a function for each width, as std has `from_le_bytes` for each type and no trait of
// them.
#[tactic(auto, unfolding(crate::specs::Bytes::two_at))]
pub fn two_at(part: &[u8], at: usize) -> u16
    requires { at + 2 ≤ length part.now }
    ensures { result ≡ two_at part.now at }
{
    u16::from_le_bytes([part[at], part[at + 1]])
}

// The number in the four bytes of a part from `at` on.
#[tactic(auto, unfolding(crate::specs::Bytes::two_at, crate::specs::Bytes::four_at))]
pub fn four_at(part: &[u8], at: usize) -> u32
    requires { at + 4 ≤ length part.now }
    ensures { result ≡ four_at part.now at }
{
    u32::from_le_bytes([part[at], part[at + 1], part[at + 2], part[at + 3]])
}

// Whether a block holds as block k: its check before its index.
#[tactic(auto, using(base_answers::proofs::Laws::first_tests), unfolding(crate::specs::Block::block_tests, crate::specs::Block::index_of))]
fn block_holds(block: &[u8], k: usize) -> Result<(), Refusal>
    requires { length block.now ≡ block_bytes }
    ensures { says_held result ≡ first (block_tests block.now k) sound }
{
    if !check::holds(block) {
        Err(Refusal::Check(k))
    } else if usize::from(two_at(block, INDEX_AT)) != k {
        Err(Refusal::Index(k))
    } else {
        Ok(())
    }
}

// The bytes of block k, which are all there, whether it holds or not.
pub fn part(card: &[u8], k: usize) -> &[u8]
    requires { block_bytes * k + block_bytes ≤ length card.now }
    ensures bytes { result.now ≡ block_at card.now k }
    ensures place { result.ref_ptr ≡ start_of card.entry.ref_ptr (block_bytes * k) }
{
    let at = BLOCK * k;
    let end = at + BLOCK;
    &card[at..end]
}

// Whether the fetch of block k holds; else the refusal: its bytes are not all there, its check, or its index.
pub fn companion(card: &[u8], k: usize) -> Result<(), Refusal>
    ensures { says_held result ≡ first (fetch_tests card.now k) sound }
{
    if card.len() / BLOCK <= k {
        return Err(Refusal::Absent);
    }
    block_holds(part(card, k), k)
}

// The 512 bytes of block k themselves, or an empty part where the companion refuses: what is handed back is a part of the card alone, and no `Err`,
// as `empty_refused` has it.
pub fn fetch(card: &[u8], k: usize) -> &[u8]
    ensures bytes { result.now ≡ fetch_of card.now k }
    ensures place { result.ref_ptr ≡ place_of card.entry.ref_ptr card.now k }
{
    match companion(card, k) {
        Ok(()) => part(card, k),
        Err(_) => &card[..0],
    }
}

// Writes a number into the two bytes of a part from `at` on.
pub fn put_two(part: &mut [u8], at: usize, x: u16)
    requires { at + 2 ≤ length part.old }
    ensures { part.new ≡ put_at (two_bytes x) at part.old }
{
    part[at..at + 2].copy_from_slice(&x.to_le_bytes());
}

// Writes a number into the four bytes of a part from `at` on.
pub fn put_four(part: &mut [u8], at: usize, x: u32)
    requires { at + 4 ≤ length part.old }
    ensures { part.new ≡ put_at (four_bytes x) at part.old }
{
    part[at..at + 4].copy_from_slice(&x.to_le_bytes());
}

// Makes block k of a part whose first n bytes are the block's own: zeros up to its index, then its index and its check.
pub fn seal(part: &mut [u8], n: usize, k: u16)
    requires { (length part.old ≡ block_bytes) × (n ≤ index_at) }
    ensures { part.new ≡ sealed (take n part.old) k }
{
    part[n..INDEX_AT].fill(0);
    put_two(part, INDEX_AT, k);
    let c = check::bytes_of(&part[..CHECK_AT]);
    part[CHECK_AT] = c.first;
    part[CHECK_AT + 1] = c.second;
}
