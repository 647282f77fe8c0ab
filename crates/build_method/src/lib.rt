// What a method answers, whichever it is: the walk on span cards, the method for pair cards, and the one for narrow spans.
#![tactic(auto)]

// One build, several, none, or that it is unsettled, each with its placements.
#[derive(Clone, Copy)]
pub enum MethodAnswer {
    Sole(u32),
    Several(u32),
    None(u32),
    Unsettled(u32),
}
