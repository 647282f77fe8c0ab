// Why a stream failed, in the system's own words.
use std::fmt::InlineText;
use std::io;

// Room for the longest text of an error.
const ROOM: usize = 288;

// The text of an error of the system without its number, which std writes after it in parentheses.
fn without_number(text: &[u8]) -> &[u8] {
    match text.iter().rposition(|b| *b == b'(') {
        Some(i) => &text[..i.saturating_sub(1)],
        None => text,
    }
}

// Says it on standard error.
pub fn say(rt: &HostRuntime, why: &io::Error) {
    let text = InlineText::<ROOM>::of(why);
    let all = text.as_str().as_bytes();
    match why.raw_os_error() {
        Some(_) => crate::say(rt, without_number(all)),
        None => crate::say(rt, all),
    }
}
