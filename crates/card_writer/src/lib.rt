// The card's writer, over the promises of the lists' tests, the layout, the entries and the block layer: from a kind, the letters of a word and
// three lists to a card at the start of a lent output. `write` has no `requires`: it tests its own input.
#![tactic(auto)]

ghost use Rattle.std.specs.Prelude.{◌≡◌, ◌+◌, ◌*◌, ◌≤◌, ◌<◌, length};
ghost use Rattle.base_answers.specs.Answer.{says};
ghost use Rattle.base_lists.specs.Parts.{put_at};
ghost use Rattle.card_block.specs.Block.{block_bytes};
ghost use Rattle.card_block.specs.Sealing.{sealed};
ghost use Rattle.card_entries.specs.Slot.{entry_bytes, slot_from};
ghost use Rattle.card_entries.specs.Bounds.{most_entries};
ghost use Rattle.card_layout.specs.Layout.{entry_blocks, size_of, entries_before, entries_in_block};
ghost use Rattle.card_layout.specs.Card.{slots_bytes, card_of};
ghost use Rattle.card_writer.specs.Writing.{Writes};

use base_answers::Refusal;
use card_block::BLOCK;
use card_entries::{EntryLists, Format};

// Writes n entries of the lists, from entry e on, into a part from its first byte on.
fn put_slots(part: &mut [u8], lists: &EntryLists, e: usize, n: usize)
    requires room { entry_bytes * n ≤ length part.old }
    requires listed { (e + n ≤ length lists.now.words.now) × (e + n ≤ length lists.now.ones.now) × (e + n ≤ length lists.now.twos.now) }
    ensures { part.new
        ≡ put_at (slots_bytes (slot_from lists.now.words.now lists.now.ones.now lists.now.twos.now) e n) 0 part.old }
{
    for j in 0..n {
        card_entries::put_slot(part, j, lists.slot(e + j));
    }
}

// Writes block k, which is not block 0, of a card of the lists, which has m entries.
fn put_later(part: &mut [u8], lists: &EntryLists, m: usize, k: usize)
    requires block_and_index { (length part.old ≡ block_bytes) × (m ≤ most_entries) × (1 ≤ k) × (k ≤ entry_blocks m) }
    requires listed { (m ≤ length lists.now.words.now) × (m ≤ length lists.now.ones.now) × (m ≤ length lists.now.twos.now) }
    ensures { part.new
        ≡ sealed
        (slots_bytes
        (slot_from lists.now.words.now lists.now.ones.now lists.now.twos.now)
        (entries_before k)
        (entries_in_block m k))
        k }
{
    let n = card_layout::entries_in_block(m, k);
    put_slots(part, lists, card_layout::entries_before(k), n);
    card_block::seal(part, card_entries::ENTRY * n, k as u16);
}

// Writes a card of this format over all of an output that has its size.
fn put_card(out: &mut [u8], f: Format, lists: &EntryLists)
    requires format_fits { (f.kind < 256) × (f.l < 256) × (f.m ≤ most_entries) × (length out.old ≡ size_of f.m) }
    requires listed { (f.m ≤ length lists.now.words.now) × (f.m ≤ length lists.now.ones.now) × (f.m ≤ length lists.now.twos.now) }
    ensures { out.new ≡ card_of f (slot_from lists.now.words.now lists.now.ones.now lists.now.twos.now) }
{
    card_layout::put_head(&mut out[..BLOCK], f);
    for k in 1..=card_layout::entry_blocks(f.m) {
        let at = BLOCK * k;
        put_later(&mut out[at..at + BLOCK], lists, f.m, k);
    }
}

// A card of the lists at the start of the output, with its length; or the refusal, and then no byte of the output differs.
// The three lists are parameters of their own, as C lends them.
#[tactic(auto, using(crate::proofs::WritingLaws::tells))]
pub fn write(
    kind: usize,
    l: usize,
    words: &[u32],
    ones: &[u16],
    twos: &[u16],
    out: &mut [u8],
) -> Result<usize, Refusal>
    ensures { Writes most_entries kind l words.now ones.now twos.now out.old (says result) out.new }
{
    card_lists::lists_hold(kind, l, words, ones, twos)?;
    let m = words.len();
    let size = card_layout::size_of(m);
    if out.len() < size {
        return Err(Refusal::Room);
    }
    let lists = EntryLists { words, ones, twos };
    put_card(&mut out[..size], Format { kind, l, m }, &lists);
    Ok(size)
}
