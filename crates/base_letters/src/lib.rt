// The letters and their codes: one table, used forward to spell a code and searched to read a letter.
#![tactic(auto)]

ghost use Rattle.std.specs.Prelude.{◌≡◌, ◌<◌};
ghost use Rattle.base_letters.specs.Letters.{codes, letter_of, code_of, is_letter, says_code};

// How many codes there are.
const CODES: usize = 4;
// The letters in the order of their codes.
const LETTERS: [u8; CODES] = [b'A', b'C', b'G', b'T'];

// The letter of a code.
#[tactic(auto, unfolding(crate::specs::Letters::letters, crate::specs::Letters::letter_of))]
pub fn letter_of(code: usize) -> u8
    requires { code < codes }
    ensures { result ≡ letter_of code }
{
    LETTERS[code]
}

// The code of a letter, for any byte: where it first stands in the table, or that it is no letter.
pub fn code_of(byte: u8) -> Option<usize>
    ensures { says_code result ≡ code_of byte }
{
    LETTERS.iter().position(|letter| *letter == byte)
}

// Whether a byte is a letter, for any byte: no branch is taken, so that the compiler can look at many bytes at once.
pub fn is_letter(byte: u8) -> bool
    ensures { result ≡ is_letter byte }
{
    (byte == LETTERS[0]) | (byte == LETTERS[1]) | (byte == LETTERS[2]) | (byte == LETTERS[3])
}
