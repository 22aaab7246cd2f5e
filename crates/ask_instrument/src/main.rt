// Asks the proved instrument: records on standard input build an instrument command by command and ask
// for its value at a time or for a stretch of a note's samples, and the answers go to standard output.
// tools/compare/instrument asks the given Rust the same and compares.

#![tactic(auto)]

mod answer;
mod build;
mod record;
mod stretch;
mod write;

use instrument::machine::Instrument;

// Standard input.
const STDIN_FILENO: i32 = 0;

// The bytes of a record.
const RECORD: usize = 32;

// Answers every whole record of a block.
fn answer_all(block: &[u8], start: Instrument) -> Instrument {
    let mut held = start;
    for record in block.chunks_exact(RECORD) {
        held = answer::to(held, record);
    }
    held
}

// Reads up to a block and answers it, and gives the instrument afterwards where the input may have more. A record
// that the input's end cuts short gets no answer.
fn answer_block(held: Instrument) -> Option<Instrument> {
    let mut block = io::large_buffer();
    let n = io::read_full(STDIN_FILENO, &mut block);
    let next = answer_all(&block[..n], held);
    (n == block.len()).then_some(next)
}

// A proved loop has to end, and nothing says that the input does. So the loop has as many turns as no run uses up.
fn main() {
    let mut held = build::silent();
    for _ in 0..u64::MAX {
        let Some(next) = answer_block(held) else {
            return;
        };
        held = next;
    }
}
