// Answers requests for numbers: every 32 bytes of standard input are one request, and each gets 16
// bytes on standard output. tools/compare/numbers asks the given Rust the same and compares.

#![tactic(auto)]

mod answer;
mod block;
mod request;
mod sines;

ghost use Rattle.std.specs.Prelude.{◌≡◌};
ghost use Rattle.sine.specs.Quarter.{quarter};

// Standard input.
const STDIN_FILENO: i32 = 0;

// Standard output.
const STDOUT_FILENO: i32 = 1;

// Reads up to a block, answers it, and says whether there may be more. A request that the input's end
// cuts short gets no answer.
fn answer_block(table: &[u32; 1025]) -> bool
    requires { table.now ≡ quarter }
{
    let mut requests = io::large_buffer();
    let n = io::read_full(STDIN_FILENO, &mut requests);
    let mut answers = [0u8; 32768];
    let k = block::answer_all(table, &requests[..n], &mut answers);
    let is_written = io::write_all(STDOUT_FILENO, &answers[..k]);
    if n < 65536 {
        return false;
    }
    is_written
}

// A proved loop has to end, and nothing says that the input does. So the loop counts its turns down,
// from a number that no run uses up.
fn main() {
    let table = sine::quarter::table();
    let mut turns = u64::MAX;
    while turns > 0 && answer_block(&table) {
        turns -= 1;
    }
}
