// The check of a block: two bytes, of the 510 before them. a and b are added up plainly, and each remainder is taken once.
ghost use Rattle.std.specs.Prelude.{◌≡◌, ◌≤◌, length};
ghost use Rattle.card_block.specs.Check.{check_bytes, check_at, checks};
ghost use Rattle.card_block.specs.Block.{block_bytes};
ghost use Rattle.card_block.specs.Plain.{plain_step, plain_of, most_a, most_b};

// Where a block's check stands, after the bytes that it is of.
pub const CHECK_AT: usize = 510;

// What the sums are taken modulo.
const MODULUS: u32 = 255;

// a and b of some bytes. In the code their remainders are not yet taken.
#[derive(Clone, Copy)]
pub struct Sums {
    pub a: u32,
    pub b: u32,
}

// The two check bytes of a block, as they stand.
#[derive(Clone, Copy)]
pub struct CheckBytes {
    pub first: u8,
    pub second: u8,
}

// The plain sums with one byte more.
fn plain_step(s: Sums, x: u8) -> Sums
    requires { (s.a ≤ most_a) × (s.b ≤ most_b) }
    ensures { result ≡ plain_step s x }
{
    let a = s.a + u32::from(x);
    Sums { a, b: s.b + a }
}

// The plain sums of the bytes before a block's check.
fn sum_up(bytes: &[u8]) -> Sums
    requires { length bytes.now ≤ check_at }
    ensures { result ≡ plain_of bytes.now }
{
    let mut s = Sums { a: 0, b: 0 };
    for x in bytes {
        s = plain_step(s, *x);
    }
    s
}

// The check bytes of the bytes before them.
pub fn bytes_of(bytes: &[u8]) -> CheckBytes
    requires { length bytes.now ≤ check_at }
    ensures { result ≡ check_bytes bytes.now }
{
    let s = sum_up(bytes);
    CheckBytes {
        first: (s.a % MODULUS) as u8,
        second: (s.b % MODULUS) as u8,
    }
}

// Whether the check bytes of a block hold.
#[tactic(auto, unfolding(crate::specs::Check::checks))]
pub fn holds(block: &[u8]) -> bool
    requires { length block.now ≡ block_bytes }
    ensures { result ≡ checks block.now }
{
    let c = bytes_of(&block[..CHECK_AT]);
    c.first == block[CHECK_AT] && c.second == block[CHECK_AT + 1]
}
