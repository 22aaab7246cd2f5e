// The words that a program is started with.

ghost use Rattle.system.specs.Counts.{Counts};

use std::env::{Env, FillError};

// How many there are, the program's own name among them.
pub fn word_count<E: Env>(env: &E) -> usize {
    let mut first = [0u8; 1];
    for i in 0..usize::MAX {
        if let Err(FillError::NotPresent) = env.arg(i, &mut first) {
            return i;
        }
    }
    usize::MAX
}

// Puts word i at the start of a buffer, and says how long it is: 0 where there is none, or where it is longer than the
// buffer.
pub fn word<E: Env>(env: &E, i: usize, bytes: &mut [u8]) -> usize
    ensures { Counts result bytes.new }
{
    env.arg(i, bytes).unwrap_or(0)
}
