// The instruments of a sheet as numbers: for each its release, its count of commands, and its commands.

use crate::words;
use instrument::machine::{Command, Instrument};
use operator::operator::Operator;

fn operator(out: &mut [u8], from: usize, op: Operator) -> usize {
    let mut at = words::bits(out, from, op.amplitude);
    at = words::bits(out, at, op.freqratio);
    at = words::bits(out, at, op.attack);
    at = words::bits(out, at, op.decay);
    at = words::bits(out, at, op.sustain);
    at = words::bits(out, at, op.release);
    words::word(out, at, op.feedback)
}

// 0 and an operator's seven numbers, or 1 and the number of a Stack.
fn command(out: &mut [u8], from: usize, c: Command) -> usize {
    match c {
        Command::Operator(op) => {
            let at = words::word(out, from, 0);
            operator(out, at, op)
        }
        Command::Stack(n) => {
            let at = words::word(out, from, 1);
            words::number(out, at, n)
        }
    }
}

// One instrument, with at most 64 commands.
fn instrument(out: &mut [u8], from: usize, i: &Instrument) -> usize {
    let mut at = words::bits(out, from, i.release);
    at = words::number(out, at, i.count);
    for slot in i.commands.iter().take(i.count) {
        at = command(out, at, slot.command);
    }
    at
}

// Puts the first n instruments at place `from`, at most 32 of them, and says where the next number comes.
pub fn put(out: &mut [u8], from: usize, n: usize, table: &[Instrument; 32]) -> usize {
    let mut at = from;
    for own in table.iter().take(n) {
        at = instrument(out, at, own);
    }
    at
}
