// Probe lists: tab-separated text, a word and its places a line, the places counted from 1. `scanning` tests a text line by line and keeps its
// entries in lent lists; `line` and `number` read it, `keeping` has what is kept.
#![tactic(auto)]

pub mod keeping;
pub mod line;
mod number;
pub mod scanning;
