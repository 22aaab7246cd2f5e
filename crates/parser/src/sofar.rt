// How far the reading of a sheet is, with its tables and columns beside it. Few columns are lent, since each costs in every function that passes it on: in `shape` the macros' names
// stand from 2048 on, the instruments' names from 2176 and their sizes from 2240, in `numbers` the releases from 6144, and in `loops` the places of the parts' names from 256.

use environment::environment::Environment;

#[derive(Clone, Copy)]
pub struct Sofar {
    // The starting environment.
    pub start: Environment,
    // How many parts there are; the environment of each, how many notes it has, and how many loops are open in it.
    pub parts: usize,
    pub envs: [Environment; 16],
    pub counts: [usize; 16],
    pub depths: [usize; 16],
    // How many notes they have together.
    pub all: usize,
    // How many macros there are, and how many instruments beside the default one.
    pub macros: usize,
    pub instruments: usize,
    pub steps: usize,
    // A refusal's number, 0 for none.
    pub refusal: u32,
    // The number of the line that is read next, and the place where it begins; after a refusal its line.
    pub line: usize,
    pub at: usize,
}
