// The hash of a list, by which a line tells the whole list.
ghost use Rattle.std.specs.Prelude.{◌≡◌, ℕ, ◌<◌, map};
ghost use Rattle.test_records.specs.Hash.{modulus, mixed, hash_of};

const MODULUS: usize = 65521;

// What a list holds: bytes, places or words, each a number.
pub trait Element: Copy {
    ghost value: { Self → ℕ };

    fn number(self) -> u32
        ensures { result ≡ value self };
}

impl Element for u8 {
    ghost value = { λ x. x };

    fn number(self) -> u32 {
        u32::from(self)
    }
}

impl Element for u16 {
    ghost value = { λ x. x };

    fn number(self) -> u32 {
        u32::from(self)
    }
}

impl Element for u32 {
    ghost value = { λ x. x };

    fn number(self) -> u32 {
        self
    }
}

// The hash with one element more.
fn mix(h: usize, x: u32) -> usize
    requires { h < modulus }
    ensures { result ≡ mixed h x }
{
    (h * 257 + x as usize) % MODULUS
}

// The hash of a list.
pub fn of<T: Element>(s: &[T]) -> usize
    ensures { result ≡ hash_of (map T.value s.now) }
{
    let mut h = 1;
    for x in s {
        h = mix(h, x.number());
    }
    h
}
