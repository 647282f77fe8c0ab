// The reading order of a card: every rule in turn, up to the first that is broken. A block is asked for by `card_block::fetch`; an empty part
// carries no number, and the companion has it.
ghost use Rattle.std.specs.Prelude.{◌≡◌, ◌+◌, ◌*◌, ◌≤◌, length};
ghost use Rattle.base_answers.specs.Answer.{first, sound, says_held};
ghost use Rattle.base_lists.specs.Row.{in_turn};
ghost use Rattle.card_block.specs.Block.{block_bytes};
ghost use Rattle.card_entries.specs.Fault.{most_length};
ghost use Rattle.card_layout.specs.Layout.{format_of, per_block, entry_blocks, size_of};
ghost use Rattle.card_entries.specs.Bounds.{most_entries};
ghost use Rattle.card_reader.specs.Reading.{field_tests, head_tests, slots_tests, later_tests, reading_order};

use base_answers::Refusal;
use card_block::BLOCK;
use card_entries::Format;

// The fields of block 0: its form, its kind, l, m and its spare bytes.
#[tactic(auto, using(base_answers::proofs::Laws::first_tests, card_layout::proofs::Laws::form_is), unfolding(crate::specs::Reading::field_tests))]
fn fields_hold(head: &[u8], f: Format) -> Result<(), Refusal>
    requires { (length head.now ≡ block_bytes) × (f ≡ format_of head.now) }
    ensures { says_held result ≡ first (field_tests most_entries head.now) sound }
{
    if head[0] != card_layout::THE_FORM {
        return Err(Refusal::Form);
    }
    if !card_entries::is_kind(f.kind) {
        return Err(Refusal::Kind);
    }
    if !card_entries::is_length(f.l) {
        return Err(Refusal::WordLength);
    }
    if !card_entries::is_count(f.m) {
        return Err(Refusal::Count);
    }
    if card_layout::head_spare(head) {
        Ok(())
    } else {
        Err(Refusal::Spare(0))
    }
}

// The card is not short, and block 0 holds with all its fields.
#[tactic(auto, using(crate::proofs::ReadingLaws::heads))]
fn head_holds(card: &[u8]) -> Result<(), Refusal>
    ensures { says_held result ≡ first (head_tests most_entries card.now) sound }
{
    if card.len() < BLOCK {
        return Err(Refusal::Short);
    }
    let head = card_block::fetch(card, 0);
    if head.len() == 0 {
        return card_block::companion(card, 0);
    }
    fields_hold(head, card_layout::format_of(head))
}

// The first n slots of a block, of which the first is entry e.
#[tactic(auto, using(crate::proofs::ReadingLaws::turns), unfolding(crate::specs::Reading::slots_tests))]
fn slots_hold(part: &[u8], f: Format, e: usize, n: usize) -> Result<(), Refusal>
    requires { (length part.now ≡ block_bytes) × (f.l ≤ most_length) × (e ≤ most_entries) × (n ≤ per_block) }
    ensures { says_held result ≡ first (slots_tests f part.now e n) sound }
{
    for j in 0..n {
        card_entries::entry_holds(f, e + j, card_entries::slot_at(part, j))?;
    }
    Ok(())
}

// Block k, which is not block 0: it holds, its entries do, and its spare bytes are zero.
#[tactic(auto, using(crate::proofs::ReadingLaws::laters))]
fn later_holds(card: &[u8], f: Format, k: usize) -> Result<(), Refusal>
    requires format_in_bounds { (f.l ≤ most_length) × (f.m ≤ most_entries) }
    requires block_there { (1 ≤ k) × (k ≤ entry_blocks f.m) × (block_bytes * k + block_bytes ≤ length card.now) }
    ensures { says_held result ≡ first (later_tests f card.now k) sound }
{
    let part = card_block::fetch(card, k);
    if part.len() == 0 {
        return card_block::companion(card, k);
    }
    let n = card_layout::entries_in_block(f.m, k);
    slots_hold(part, f, card_layout::entries_before(k), n)?;
    if card_layout::slots_spare(part, n) {
        Ok(())
    } else {
        Err(Refusal::Spare(k))
    }
}

// Each later block in turn.
#[tactic(auto, using(crate::proofs::ReadingLaws::turns))]
fn laters_hold(card: &[u8], f: Format) -> Result<(), Refusal>
    requires { (f.l ≤ most_length) × (f.m ≤ most_entries) × (length card.now ≡ size_of f.m) }
    ensures { says_held result ≡ first (in_turn (later_tests f card.now) 1 (entry_blocks f.m)) sound }
{
    for k in 1..=card_layout::entry_blocks(f.m) {
        later_holds(card, f, k)?;
    }
    Ok(())
}

// Every rule of a card in the reading order.
#[tactic(auto, using(crate::proofs::ReadingLaws::cards))]
pub fn card_holds(card: &[u8]) -> Result<(), Refusal>
    ensures { says_held result ≡ first (reading_order most_entries card.now) sound }
{
    head_holds(card)?;
    let f = card_layout::told_by(card);
    if card.len() != card_layout::size_of(f.m) {
        return Err(Refusal::Size);
    }
    laters_hold(card, f)
}
