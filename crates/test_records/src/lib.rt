// For programs that run stored calls: a record's fields and lists, read from an input; what a call is lent; and the parts of the line that it
// prints, with the hash of a list. No contract can say what was read or printed: these state
// bounds, hashes, the numbers that fields have, and what a call is lent.
#![tactic(auto)]

pub mod hashes;
pub mod input;
pub mod lent;
pub mod output;
