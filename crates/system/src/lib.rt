// What a program reads and writes, and the words that it is started with. They are had of the system, which `main` alone
// is given and lends to this crate; nothing is lent to a crate below, so that nothing else in the house can read, write
// or look at the words, but for the programs that the comparisons ask, which stand on `io`. Of a reader and a writer
// whose bytes are known, as in memory, the contracts say which bytes come and go. Of the system's no contract can say
// it: that is what is not proved of a program, and its code is looked at.

#![tactic(auto)]

pub mod input;
pub mod output;
pub mod words;
