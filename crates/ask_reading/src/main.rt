// Has the proved reader read the sheets of standard input, one request after the other, and writes to standard output what each is
// read as. tools/compare/sheets holds that against the model of document 01 and the given Rust.

#![tactic(auto)]

mod answer;
mod instruments;
mod parts;
mod words;

ghost use Rattle.std.specs.Prelude.{◌≡◌, ◌≤◌, length};
ghost use Rattle.io.specs.Counts.{IsPrefixLen};

use fields::word::word;
use strict::mode::{Mode, mode_of};

// Standard input.
const STDIN_FILENO: i32 = 0;

// The bytes of a request's head, and the most of its sheet.
const HEAD: usize = 8;

const SHEET: usize = 40000;

// Reads the first n bytes, or as many as there are, and says how many.
fn read_first(bytes: &mut [u8], n: usize) -> usize
    requires { n ≤ length bytes.old }
    ensures { IsPrefixLen result bytes.new }
{
    io::read_full(STDIN_FILENO, &mut bytes[..n])
}

// How many bytes of a sheet follow a head: 40,000 at the most.
fn follow(head: &[u8]) -> usize
    requires { length head.now ≡ HEAD }
    ensures { result ≤ SHEET }
{
    (word(head, 0) as usize).min(SHEET)
}

// The mode that a head asks for.
fn mode(head: &[u8]) -> Mode
    requires { length head.now ≡ HEAD }
{
    mode_of(word(head, 4))
}

// Answers one request, if a whole head is there, and says whether there may be more.
fn answer_next() -> bool {
    let mut head = [0u8; HEAD];
    if io::read_full(STDIN_FILENO, &mut head) < HEAD {
        return false;
    }
    let mut bytes = io::large_buffer();
    let n = follow(&head);
    let got = read_first(&mut bytes, n);
    answer::to(&bytes[..got], mode(&head))
}

// A proved loop has to end, and nothing says that the input does. So the loop has as many turns as no run uses up.
fn main() {
    for _ in 0..u64::MAX {
        if !answer_next() {
            return;
        }
    }
}
