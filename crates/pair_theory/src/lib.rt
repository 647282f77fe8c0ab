// What the method for pair cards rests on: arrangements as the place of each entry, and what they have to do with builds. There is no code
// here; the crates above cite it.
#![tactic(auto)]
