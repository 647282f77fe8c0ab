#![tactic(auto)]

// Lists: what the definitions of every other crate are said with, and the laws of it. There is no code.
