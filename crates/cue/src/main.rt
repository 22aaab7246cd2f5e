// The program `cue`: it reads a cue sheet from standard input, strictly where it is asked to, and writes its WAV file
// to standard output, with the old RIFF size where it is asked to, or one line that says why the sheet is refused. What
// a text means, and every byte of the file, is promised by the crates below, and `answer` hands that on. That it is
// handed on once, and answers to what was read, no contract can say: tools/held.txt holds the code of this crate.

#![tactic(auto)]

mod answer;
mod handing;
mod words;

use crate::answer::{SOURCE, answer};
use crate::handing::Handing;
use crate::words::{USE, asked_by};
use form::size::Size;
use std::io::{Read, Write};
use strict::mode::Mode;
use system::input::read_first;
use system::output::{Streams, tell};
use system::words::{word, word_count};

// Hands the answer to a source on, from its first byte.
fn respond<W: Write, E: Write>(mode: Mode, size: Size, source: &[u8], to: &mut Streams<W, E>) {
    let mut reached: usize = 0;
    answer(mode, size, source, to, Handing::start(), &mut reached);
}

// Reads an input to its end, or to one byte more than a source may have, and hands the answer on. Where it cannot be
// read to there, nothing is handed on: half a sheet is no sheet.
fn run<R: Read, W: Write, E: Write>(mode: Mode, size: Size, input: &mut R, to: &mut Streams<W, E>) {
    let mut bytes = [0; SOURCE];
    if let Some(n) = read_first(input, &mut to.errors, &mut bytes) {
        respond(mode, size, &bytes[..n], to);
    }
}

// The program on the streams and the words that the system has for it.
fn main(rt: HostRuntime) {
    // A word that does not fit is none that the program understands, and counts as empty.
    let mut first = [0u8; 16];
    let mut second = [0u8; 16];
    let m = word(&rt, 1, &mut first);
    let n = word(&rt, 2, &mut second);
    let mut to = Streams {
        output: rt.stdout(),
        errors: rt.stderr(),
    };
    match asked_by(word_count(&rt), &first[..m], &second[..n]) {
        Some((mode, size)) => run(mode, size, &mut rt.stdin(), &mut to),
        None => tell(&mut to.errors, &USE),
    }
}
