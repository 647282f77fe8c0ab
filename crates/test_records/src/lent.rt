// What a call is lent, as it is before the call. A list that is read from the input begins as these do too.
ghost use Rattle.std.specs.Prelude.{◌≡◌, length, replicate};
ghost use Rattle.test_records.specs.Record.{slots, room, text_room, old_word, old_place, old_byte};

// The most slots of a list, the most bytes that are lent for a card, and for a list that is a text, and the most bytes of an output for letters.
pub const SLOTS: usize = 600;

pub const ROOM: usize = 6400;

pub const TEXT_ROOM: usize = 16384;

pub const LETTERS: usize = 600;

// A list of words.
pub fn words() -> [u32; SLOTS]
    ensures len { slots ≡ length result }
    ensures value { result ≡ replicate slots old_word }
{
    [305419896; SLOTS]
}

// A list of places.
pub fn places() -> [u16; SLOTS]
    ensures len { slots ≡ length result }
    ensures value { result ≡ replicate slots old_place }
{
    [4660; SLOTS]
}

// As many bytes as the type says, each as it is before a call.
fn filled<const N: usize>() -> [u8; N]
    ensures { result ≡ replicate N old_byte }
{
    [165; N]
}

// Bytes: an output, or the room for a card. How many they are is no caller's choice.
pub fn bytes() -> [u8; ROOM]
    ensures len { room ≡ length result }
    ensures value { result ≡ replicate room old_byte }
{
    filled()
}

// Bytes for a list that is a text: an output, or the room for one.
pub fn texts() -> [u8; TEXT_ROOM]
    ensures len { text_room ≡ length result }
    ensures value { result ≡ replicate text_room old_byte }
{
    filled()
}
