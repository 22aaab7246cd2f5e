// The sheets that document 01 gives by example, with their answers: the table is in specs/, and what is proved of it in
// proofs/. There is no code here.

#![tactic(auto)]
