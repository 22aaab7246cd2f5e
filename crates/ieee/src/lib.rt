// Laws of floats that the crates above share, beyond those of the logic's own library: see proofs/.
// There is no code here.

#![tactic(auto)]
