// What an operation that tests its input refuses by: a row of the table of refusals, with its place where the row has one.
#![tactic(auto)]

ghost use Rattle.std.specs.Prelude.{◌≡◌};
ghost use Rattle.base_answers.specs.Answer.{number_of, place_of};

// Which rule is broken, and where.
#[derive(Clone, Copy, Debug, PartialEq, Eq)]
pub enum Refusal {
    Short,
    Check(usize),
    Index(usize),
    Form,
    Kind,
    WordLength,
    Count,
    Spare(usize),
    Size,
    Word(usize),
    Places(usize),
    Room,
    Lists,
    Absent,
    Name,
    Letter(usize),
    Line,
    Text(usize),
    Mixed(usize),
    Uneven(usize),
    Zero(usize),
    Wider(usize),
}

impl Refusal {
    // The number of the rule.
    pub fn number(self) -> usize
        ensures { result ≡ number_of self }
    {
        match self {
            Refusal::Short => 1,
            Refusal::Check(_) => 2,
            Refusal::Index(_) => 3,
            Refusal::Form => 4,
            Refusal::Kind => 5,
            Refusal::WordLength => 6,
            Refusal::Count => 7,
            Refusal::Spare(_) => 8,
            Refusal::Size => 9,
            Refusal::Word(_) => 10,
            Refusal::Places(_) => 11,
            Refusal::Room => 12,
            Refusal::Lists => 13,
            Refusal::Absent => 14,
            Refusal::Name => 20,
            Refusal::Letter(_) => 21,
            Refusal::Line => 22,
            Refusal::Text(_) => 23,
            Refusal::Mixed(_) => 24,
            Refusal::Uneven(_) => 25,
            Refusal::Zero(_) => 26,
            Refusal::Wider(_) => 30,
        }
    }

    // Where it is broken; 0 where the rule has no place.
    pub fn place(self) -> usize
        ensures { result ≡ place_of self }
    {
        match self {
            Refusal::Check(at)
            | Refusal::Index(at)
            | Refusal::Spare(at)
            | Refusal::Word(at)
            | Refusal::Places(at)
            | Refusal::Letter(at)
            | Refusal::Text(at)
            | Refusal::Mixed(at)
            | Refusal::Uneven(at)
            | Refusal::Zero(at)
            | Refusal::Wider(at) => at,
            _ => 0,
        }
    }
}
