// The number of builds, for C.
ghost use Rattle.std.specs.Prelude.{◌≡◌};
ghost use Rattle.base_answers.specs.Answer.{says};
ghost use Rattle.card_entries.specs.Bounds.{most_entries};
ghost use Rattle.build_count.specs.Counting.{OfCard, OfLists, Counts};
ghost use Rattle.firmware.specs.Counting.{count_answer, flat_number};

use base_answers::Refusal;

// How many builds there are. The number is 0 where nothing is refused: then `any` is 1 and there are two to the exponent, or `any` and the
// exponent are 0 and there is none. Else it is the refusal's, with its place, and the rest is 0.
#[repr(C)]
#[derive(Clone, Copy, Default)]
pub struct CountAnswer {
    pub number: usize,
    pub place: usize,
    pub any: usize,
    pub exponent: usize,
}

impl From<Result<Option<usize>, Refusal>> for CountAnswer {
    fn from(counted: Result<Option<usize>, Refusal>) -> CountAnswer
        ensures { result ≡ flat_number (says counted) }
    {
        match counted {
            Ok(Some(exponent)) => CountAnswer {
                any: 1,
                exponent,
                ..CountAnswer::default()
            },
            Ok(None) => CountAnswer::default(),
            Err(r) => CountAnswer {
                number: r.number(),
                place: r.place(),
                ..CountAnswer::default()
            },
        }
    }
}

// The number of builds of a card.
#[unsafe(no_mangle)]
pub extern "C" fn belfrymist_count(card: &[u8]) -> CountAnswer
    ensures { Counts count_answer (OfCard most_entries card.now) result }
{
    CountAnswer::from(build_count::count_card(card))
}

// The number of builds of lists.
#[unsafe(no_mangle)]
pub extern "C" fn belfrymist_count_lists(
    kind: usize,
    l: usize,
    words: &[u32],
    ones: &[u16],
    twos: &[u16],
) -> CountAnswer
    ensures { Counts count_answer (OfLists most_entries kind l words.now ones.now twos.now) result }
{
    CountAnswer::from(build_count::count_lists(kind, l, words, ones, twos))
}
