// Text put into a buffer, one part after the other: each function that puts a part puts it from `at` on, or at the start, answers where the next
// begins, and asks for room for it.
#![tactic(auto)]

ghost use Rattle.std.specs.Prelude.{[], ◌∷◌, ◌++◌, ◌≡◌, ◌+◌, ◌≤◌, ◌<◌, length};
ghost use Rattle.base_text.specs.Text.{ascii, digit, decimal, others, refusal_line};
ghost use Rattle.base_text.specs.Putting.{most_digits, refusal_room, Put};

// A text, byte by byte: `copy_from_slice` was tried, and calls `memmove`, where the header says that the library needs memcpy and memset at most.
pub fn put_text(out: &mut [u8], at: usize, text: &[u8]) -> usize
    requires { at + length text.now ≤ length out.old }
    ensures { Put text.now at out.old result out.new }
{
    let n = text.len();
    for i in 0..n {
        out[at + i] = text[i];
    }
    at + n
}

// A space and a text. This, `put_number` and `put_last` are each two calls, of other functions: one that is given both would be no shorter.
pub fn put_field(out: &mut [u8], at: usize, text: &[u8]) -> usize
    requires { at + 1 + length text.now ≤ length out.old }
    ensures { Put (ascii " " ++ text.now) at out.old result out.new }
{
    let next = put_text(out, at, b" ");
    put_text(out, next, text)
}

// A digit.
fn put_digit(out: &mut [u8], at: usize, d: usize) -> usize
    requires { (d < 10) × (at < length out.old) }
    ensures { Put (digit d ∷ []) at out.old result out.new }
{
    out[at] = b'0' + d as u8;
    at + 1
}

// A number in decimal.
pub fn put_digits(out: &mut [u8], at: usize, x: usize) -> usize
    requires { at + length (decimal x) ≤ length out.old }
    ensures { Put (decimal x) at out.old result out.new }
{
    if x < 10 {
        return put_digit(out, at, x);
    }
    let last_at = put_digits(out, at, x / 10);
    put_digit(out, last_at, x % 10)
}

// How many digits a number has in decimal.
pub fn digits_in(x: usize) -> usize
    ensures { result ≡ length (decimal x) }
{
    if x < 10 {
        return 1;
    }
    digits_in(x / 10) + 1
}

// A space and a number.
fn put_number(out: &mut [u8], at: usize, x: usize) -> usize
    requires { at + 1 + most_digits ≤ length out.old }
    ensures { Put (ascii " " ++ decimal x) at out.old result out.new }
{
    let next = put_text(out, at, b" ");
    put_digits(out, next, x)
}

// A number, and the line's end.
pub fn put_end(out: &mut [u8], at: usize, x: usize) -> usize
    requires { at + 1 + most_digits ≤ length out.old }
    ensures { Put (decimal x ++ ascii "\n") at out.old result out.new }
{
    let next = put_digits(out, at, x);
    put_text(out, next, b"\n")
}

// A number as the last field of a line, and the line's end.
pub fn put_last(out: &mut [u8], at: usize, x: usize) -> usize
    requires { at + 2 + most_digits ≤ length out.old }
    ensures { Put (others (decimal x ∷ [])) at out.old result out.new }
{
    let next = put_text(out, at, b" ");
    put_end(out, next, x)
}

// Two numbers as the last fields of a line, and the line's end.
pub fn put_two(out: &mut [u8], at: usize, x: usize, y: usize) -> usize
    requires { at + 3 + most_digits + most_digits ≤ length out.old }
    ensures put { Put (others (decimal x ∷ decimal y ∷ [])) at out.old result out.new }
    ensures upper_bound { result ≤ at + 3 + most_digits + most_digits }
{
    let next = put_number(out, at, x);
    put_last(out, next, y)
}

// The one line of a refusal with this number and this place. They are numbers, as the line has them, and no `Refusal`: any two may be told.
pub fn put_refused(out: &mut [u8], number: usize, place: usize) -> usize
    requires { refusal_room ≤ length out.old }
    ensures { Put (refusal_line number place) 0 out.old result out.new }
{
    let number_at = put_text(out, 0, b"refused");
    put_two(out, number_at, number, place)
}
