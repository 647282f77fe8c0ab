// What the client's requests ask to be proved of the operations: no code. The theorems are in proofs/.
#![tactic(auto)]
