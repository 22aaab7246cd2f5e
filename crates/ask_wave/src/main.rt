// Calls the proved WAV writers as standard input asks, one request after the other, and writes to standard
// output what each answers and its whole buffer, so that untouched bytes are seen too. tools/compare/wave
// holds that against the given Rust.

#![tactic(auto)]

mod answer;
mod floats;
mod pattern;
mod request;

ghost use Rattle.std.specs.Prelude.{◌≡◌, ◌≤◌, length, take};
ghost use Rattle.io.specs.Counts.{IsPrefixLen};

use crate::request::Request;

// Standard input.
const STDIN_FILENO: i32 = 0;

// Standard output.
const STDOUT_FILENO: i32 = 1;

// Reads the first n bytes, or as many as there are, and says how many.
fn read_first(bytes: &mut [u8], n: usize) -> usize
    requires { n ≤ length bytes.old }
    ensures { IsPrefixLen result bytes.new }
{
    io::read_full(STDIN_FILENO, &mut bytes[..n])
}

// Reads the samples that follow a head, and says how many there are.
fn read_samples(asked: Request, samples: &mut [f32]) -> usize
    ensures { (result ≤ length samples.new) × (result ≡ length (take result samples.new)) }
{
    let mut bytes = io::large_buffer();
    let follow = request::follow(asked, &bytes);
    let got = read_first(&mut bytes, follow);
    floats::read(&bytes[..got], samples)
}

// Answers a request on a buffer, writes the answer and the whole buffer, and says whether all was taken.
fn answer_in(asked: Request, samples: &[f32], buffer: &mut [u8]) -> bool {
    pattern::fill(buffer);
    let a = answer::to(asked, samples, buffer);
    io::write_all(STDOUT_FILENO, &a.refusal.to_le_bytes())
        && io::write_all(STDOUT_FILENO, &a.count.to_le_bytes())
        && io::write_all(STDOUT_FILENO, buffer)
}

// Answers one request, if a whole head is there, and says whether there may be more.
fn answer_next() -> bool {
    let mut head = [0u8; 20];
    if io::read_full(STDIN_FILENO, &mut head) < 20 {
        return false;
    }
    let asked = request::of(&head);
    let mut samples = [0.0f32; 16384];
    let n = read_samples(asked, &mut samples);
    let mut buffer = io::large_buffer();
    let room = request::room(asked, &buffer);
    answer_in(asked, &samples[..n], &mut buffer[..room])
}

// A proved loop has to end, and nothing says that the input does. So the loop counts its turns down,
// from a number that no run uses up.
fn main() {
    let mut turns = u64::MAX;
    while turns > 0 && answer_next() {
        turns -= 1;
    }
}
