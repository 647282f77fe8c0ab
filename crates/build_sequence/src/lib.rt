#![tactic(auto)]

// What an arrangement, a build and a verdict are: definitions and their laws, shared by both methods. No function is here.
