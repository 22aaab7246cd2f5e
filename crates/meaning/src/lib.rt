// What a sheet's text means: the definitions are in specs/, what is proved of them in proofs/, and here is the answer's form.

#![tactic(auto)]

pub mod reading;
