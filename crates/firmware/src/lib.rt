// The boundary to C: the operations of the block layer, of the card's reader, of its writer, of probe lists, of FASTA records, build, settling
// and the number of builds as exported functions. Numbers and slices go in, and a struct of numbers comes back. No function has a `requires`:
// each operation tests its own input. The names that C sees begin with the project's.
#![tactic(auto)]

pub mod building;
pub mod count;
pub mod listing;
pub mod record;
pub mod settle;
pub mod writing;

ghost use Rattle.std.specs.Prelude.{◌≡◌};
ghost use Rattle.base_answers.specs.Answer.{first, sound, says, says_held};
ghost use Rattle.card_block.specs.Block.{fetch_tests};
ghost use Rattle.card_entries.specs.Bounds.{most_entries};
ghost use Rattle.card_reader.specs.Fetching.{admission, entry_fetch, stepping, says_stepped};
ghost use Rattle.firmware.specs.Flat.{shape_of, admit_answer, entry_answer, step_answer, held_answer, part_answer};

use base_answers::Refusal;
use card_entries::{Entry, Format, Places};
use card_reader::Head;

// The shapes of an entry's allowed places, by the numbers that C sees.
const SHAPE_ONE: usize = 1;

const SHAPE_TWO: usize = 2;

const SHAPE_SPAN: usize = 3;

// The allowed places of an entry as numbers: the shape, and the places that it has; the second is 0 where there is one place.
#[derive(Clone, Copy)]
struct Shape {
    shape: usize,
    first: usize,
    second: usize,
}

// What admitting answers. The number is 0 for a card that is admitted, with its kind, l and m; else it is the refusal's, with its place,
// and the rest is 0.
#[repr(C)]
#[derive(Clone, Copy, Default)]
pub struct AdmitAnswer {
    pub number: usize,
    pub place: usize,
    pub kind: usize,
    pub l: usize,
    pub m: usize,
}

// What fetching an entry answers. The number is 0 for an entry that is found, with its shape, its word and its places; else it is the
// refusal's, with its place, and the rest is 0.
#[repr(C)]
#[derive(Clone, Copy, Default)]
pub struct EntryAnswer {
    pub number: usize,
    pub place: usize,
    pub shape: usize,
    pub word: usize,
    pub first: usize,
    pub second: usize,
}

// What a step of a reading head answers: the entry, and where the head stands then. At the end all of it is 0; on a refusal all of it is
// but the number and the place.
#[repr(C)]
#[derive(Clone, Copy, Default)]
pub struct StepAnswer {
    pub number: usize,
    pub place: usize,
    pub shape: usize,
    pub word: usize,
    pub first: usize,
    pub second: usize,
    pub next: usize,
}

// What the companion of a fetch answers: 0 and 0 where the fetch holds, else the refusal's number and place.
#[repr(C)]
#[derive(Clone, Copy, Default)]
pub struct HeldAnswer {
    pub number: usize,
    pub place: usize,
}

// What fetching a block answers: where in the card the block's bytes start, and how many there are; 0 and 0 where the companion refuses.
#[repr(C)]
#[derive(Clone, Copy)]
pub struct PartAnswer {
    pub at: usize,
    pub length: usize,
}

impl From<Places> for Shape {
    fn from(places: Places) -> Shape
        ensures { result ≡ shape_of places }
    {
        match places {
            Places::One(p) => Shape {
                shape: SHAPE_ONE,
                first: usize::from(p),
                second: 0,
            },
            Places::Two(p, q) => Shape {
                shape: SHAPE_TWO,
                first: usize::from(p),
                second: usize::from(q),
            },
            Places::Span(f, g) => Shape {
                shape: SHAPE_SPAN,
                first: usize::from(f),
                second: usize::from(g),
            },
        }
    }
}

// Each struct of the C header has a `From` of its own, with the refusal's number and place: the structs share no fields.
impl From<Result<Format, Refusal>> for AdmitAnswer {
    fn from(admitted: Result<Format, Refusal>) -> AdmitAnswer
        ensures { result ≡ admit_answer (says admitted) }
    {
        match admitted {
            Ok(f) => AdmitAnswer {
                kind: f.kind,
                l: f.l,
                m: f.m,
                ..AdmitAnswer::default()
            },
            Err(r) => AdmitAnswer {
                number: r.number(),
                place: r.place(),
                ..AdmitAnswer::default()
            },
        }
    }
}

impl From<Result<Entry, Refusal>> for EntryAnswer {
    fn from(fetched: Result<Entry, Refusal>) -> EntryAnswer
        ensures { result ≡ entry_answer (says fetched) }
    {
        match fetched {
            Ok(e) => {
                let s = Shape::from(e.places);
                EntryAnswer {
                    shape: s.shape,
                    word: e.word as usize,
                    first: s.first,
                    second: s.second,
                    ..EntryAnswer::default()
                }
            }
            Err(r) => EntryAnswer {
                number: r.number(),
                place: r.place(),
                ..EntryAnswer::default()
            },
        }
    }
}

impl From<Result<Option<(Entry, Head)>, Refusal>> for StepAnswer {
    fn from(stepped: Result<Option<(Entry, Head)>, Refusal>) -> StepAnswer
        ensures { result ≡ step_answer (says_stepped stepped) }
    {
        match stepped {
            Ok(Some((e, h))) => {
                let s = Shape::from(e.places);
                StepAnswer {
                    shape: s.shape,
                    word: e.word as usize,
                    first: s.first,
                    second: s.second,
                    next: h.at,
                    ..StepAnswer::default()
                }
            }
            Ok(None) => StepAnswer::default(),
            Err(r) => StepAnswer {
                number: r.number(),
                place: r.place(),
                ..StepAnswer::default()
            },
        }
    }
}

impl From<Result<(), Refusal>> for HeldAnswer {
    fn from(held: Result<(), Refusal>) -> HeldAnswer
        ensures { result ≡ held_answer (says_held held) }
    {
        match held {
            Ok(()) => HeldAnswer::default(),
            Err(r) => HeldAnswer {
                number: r.number(),
                place: r.place(),
            },
        }
    }
}

// The kind, l and m of a card, or the first rule that it breaks.
#[unsafe(no_mangle)]
pub extern "C" fn belfrymist_admit(card: &[u8]) -> AdmitAnswer
    ensures { result ≡ admit_answer (admission most_entries card.now) }
{
    AdmitAnswer::from(card_reader::admit(card))
}

// Entry i of a card, from 0.
#[unsafe(no_mangle)]
pub extern "C" fn belfrymist_entry(card: &[u8], i: usize) -> EntryAnswer
    ensures { result ≡ entry_answer (entry_fetch most_entries card.now i) }
{
    EntryAnswer::from(card_reader::fetch_entry(card, i))
}

// A step of a reading head that stands at an entry, from 0.
#[unsafe(no_mangle)]
pub extern "C" fn belfrymist_step(card: &[u8], at: usize) -> StepAnswer
    ensures { result ≡ step_answer (stepping most_entries card.now at) }
{
    StepAnswer::from(Head { at }.step(card))
}

// Whether the fetch of block k holds, or the refusal.
#[unsafe(no_mangle)]
pub extern "C" fn belfrymist_companion(card: &[u8], k: usize) -> HeldAnswer
    ensures { result ≡ held_answer (first (fetch_tests card.now k) sound) }
{
    HeldAnswer::from(card_block::companion(card, k))
}

// Where in the card the bytes of block k stand, if it holds.
#[unsafe(no_mangle)]
pub extern "C" fn belfrymist_fetch(card: &[u8], k: usize) -> PartAnswer
    ensures { result ≡ part_answer k (first (fetch_tests card.now k) sound) }
{
    let part = card_block::fetch(card, k);
    if part.is_empty() {
        return PartAnswer { at: 0, length: 0 };
    }
    PartAnswer {
        at: card_block::BLOCK * k,
        length: part.len(),
    }
}
