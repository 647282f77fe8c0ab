// What the walk on span cards completes from a state, and how many narrow spans a place can have over it: what settling narrow cards without
// a budget rests on. No function is here.
#![tactic(auto)]
