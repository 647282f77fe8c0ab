// The walk on span cards as 01 words it: its definition, and what is proved of it. No function is here.
#![tactic(auto)]
