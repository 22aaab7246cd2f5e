// Operator lines as commands and as the tree that a dealer writes, and demand 3, which says that the two have one value: see specs/
// and proofs/. There is no code here.

#![tactic(auto)]
