// Build, for C.
ghost use Rattle.std.specs.Prelude.{◌≡◌};
ghost use Rattle.base_answers.specs.Answer.{says};
ghost use Rattle.card_entries.specs.Bounds.{most_entries};
ghost use Rattle.firmware.specs.Building.{verdict_answer, flat_of, Told};

use base_answers::Refusal;

// The verdicts, by the numbers that C sees.
const SOLE: usize = 1;

const SEVERAL: usize = 2;

const NONE: usize = 3;

const UNSETTLED: usize = 4;

// What build answers, and settling. The number is 0 where nothing is refused, with the verdict, the length of the sequence, which is 0 where none is
// given, and the placements; else it is the refusal's, with its place, and the rest is 0.
#[repr(C)]
#[derive(Clone, Copy, Default)]
pub struct BuildAnswer {
    pub number: usize,
    pub place: usize,
    pub verdict: usize,
    pub length: usize,
    pub placements: usize,
}

// A verdict with a sequence of so many letters, after so many placements.
fn told(verdict: usize, length: usize, placements: u32) -> BuildAnswer
    ensures { result ≡ verdict_answer verdict length placements }
{
    BuildAnswer {
        verdict,
        length,
        placements: placements as usize,
        ..BuildAnswer::default()
    }
}

impl From<Result<build_card::BuildAnswer, Refusal>> for BuildAnswer {
    fn from(answer: Result<build_card::BuildAnswer, Refusal>) -> BuildAnswer
        ensures { result ≡ flat_of (says answer) }
    {
        match answer {
            Ok(build_card::BuildAnswer::Sole(n, k)) => told(SOLE, n, k),
            Ok(build_card::BuildAnswer::Several(n, k)) => told(SEVERAL, n, k),
            Ok(build_card::BuildAnswer::None(k)) => told(NONE, 0, k),
            Ok(build_card::BuildAnswer::Unsettled(k)) => told(UNSETTLED, 0, k),
            Err(r) => BuildAnswer {
                number: r.number(),
                place: r.place(),
                ..BuildAnswer::default()
            },
        }
    }
}

// The verdict on a card. Where there is a build, the letters of the alphabetically first one stand at the start of the output, whose later
// bytes are as they were; with every other answer all of it is as it was.
#[unsafe(no_mangle)]
pub extern "C" fn belfrymist_build(card: &[u8], budget: u32, out: &mut [u8]) -> BuildAnswer
    ensures { Told most_entries card.now budget out.old result out.new }
{
    BuildAnswer::from(build_card::build(card, budget, out))
}
