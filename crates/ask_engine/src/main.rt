// Has the proved reader read the sheets of standard input, puts a field of each out of range where the request says so, and calls the renderer
// and the WAV writers on it. What each answers goes to standard output with its whole buffer, so that untouched places are seen too.
// tools/compare/sound holds that against the given Rust.

#![tactic(auto)]

mod answer;
mod buffers;
mod damage;
mod request;

ghost use Rattle.std.specs.Prelude.{◌≤◌, length};
ghost use Rattle.io.specs.Counts.{IsPrefixLen};

// Standard input.
const STDIN_FILENO: i32 = 0;

// Reads the first n bytes, or as many as there are, and says how many.
fn read_first(bytes: &mut [u8], n: usize) -> usize
    requires { n ≤ length bytes.old }
    ensures { IsPrefixLen result bytes.new }
{
    io::read_full(STDIN_FILENO, &mut bytes[..n])
}

// Answers one request, if a whole head is there, and says whether there may be more.
fn answer_next() -> bool {
    let mut head = [0u8; 32];
    if io::read_full(STDIN_FILENO, &mut head) < 32 {
        return false;
    }
    let asked = request::of(&head);
    let mut bytes = io::large_buffer();
    let follow = request::follow(asked);
    let got = read_first(&mut bytes, follow);
    answer::to(asked, &bytes[..got])
}

// A proved loop has to end, and nothing says that the input does. So the loop counts its turns down,
// from a number that no run uses up.
fn main() {
    let mut turns = u64::MAX;
    while turns > 0 && answer_next() {
        turns -= 1;
    }
}
