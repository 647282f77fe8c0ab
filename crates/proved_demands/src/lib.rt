// What the client demands, proved of the operations: no code. The theorems are in proofs/Demands.antt.
#![tactic(auto)]
