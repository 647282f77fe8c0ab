// FASTA records: `writing` makes one of a name and letters, `reading` has both back. Neither operation has a `requires`: each tests what it is
// given.
#![tactic(auto)]

pub mod reading;
pub mod writing;

ghost use Rattle.std.specs.Prelude.{◌≡◌, ℕ, Bool, ◌<◌};
ghost use Rattle.base_letters.specs.Letters.{is_letter};
ghost use Rattle.text_fasta.specs.Record.{leading, are_all, is_printable, is_name};

const NEWLINE: u8 = 10;
// What a record begins with.
const MARK: u8 = b'>';
// The printable characters in ASCII but the space, from the first to the last.
const FIRST_PRINTABLE: u8 = b'!';

const LAST_PRINTABLE: u8 = b'~';
// The most bytes of a name.
pub const MOST_NAME: usize = 40;
// The letters of a full line.
pub const LINE_LETTERS: usize = 60;

// Whether a byte is a printable ASCII character and no space.
fn is_printable(byte: u8) -> bool
    ensures { result ≡ is_printable byte }
{
    (FIRST_PRINTABLE..=LAST_PRINTABLE).contains(&byte)
}

// How many bytes stand before the first that fails a test; all of them where each passes.
fn leading<F: Fn(u8) -> bool>(bytes: &[u8], passes: F) -> usize
    requires { F.IsAlwaysCallable passes }
    ensures { (ok : ℕ → Bool)
        → ((b : ℕ) → b < 256 → (t : Bool) → F.post passes b t → t ≡ ok b)
        → result ≡ leading ok bytes.now }
{
    bytes
        .iter()
        .position(|b| !passes(*b))
        .unwrap_or(bytes.len())
}

// Whether bytes are a name.
fn is_name(name: &[u8]) -> bool
    ensures { result ≡ is_name name.now }
{
    (1..=MOST_NAME).contains(&name.len()) && leading(name, is_printable) == name.len()
}

// Whether bytes are letters alone. Each is looked at, with no way out before the last, so that the compiler can look at many at once.
fn are_letters(bytes: &[u8]) -> bool
    ensures { result ≡ are_all is_letter bytes.now }
{
    let mut all = true;
    for b in bytes {
        all &= base_letters::is_letter(*b);
    }
    all
}
