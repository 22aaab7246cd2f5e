// The reader of sheets (the Rust's `parser.rs`): what a source's bytes mean, or why they are refused.

ghost use Rattle.std.specs.Prelude.{◌≡◌};
ghost use Rattle.meaning.specs.Layout.{reading_of};
ghost use Rattle.meaning.specs.Sheets.{all_below128};

use crate::ending::{finished, refused_reading};
use crate::walk::walk;
use meaning::reading::Reading;
use sheet::refusal::Refusal;
use strict::mode::Mode;

// The first byte that is no character of ASCII.
const ASCII_END: u8 = 128;

// Whether all bytes are below 128. It looks for the largest and has no early end, so that it can be compiled to look at many bytes at once.
fn all_below_128(source: &[u8]) -> bool
    ensures { result ≡ all_below128 source.now }
{
    let mut most: u8 = 0;
    for b in source {
        most = most.max(*b);
    }
    most < ASCII_END
}

// What a source is read as in a mode: a refusal with its line, or a sheet with the steps that were read.
// Its lines are read into tables and columns that have room for all that the capacities allow. They stand
// here since each function that hands a sheet on keeps one more on the stack.
pub fn read(source: &[u8], mode: Mode) -> Reading
    ensures { result ≡ reading_of mode 44100 source.now }
{
    if source.len() > 32768 {
        return refused_reading(Refusal::SourceTooLong.number(), 0);
    }
    if !all_below_128(source) {
        return refused_reading(Refusal::NotAscii.number(), 0);
    }
    let rate = 44100;
    let mut bodies = [0usize; 128];
    let mut numbers = [0.0f32; 6176];
    let mut shape = [0usize; 2272];
    let mut floats = [0.0f32; 98304];
    let mut bytes = [0u8; 32768];
    let mut loops = [0usize; 288];
    let q = walk(
        source,
        &mut bodies,
        &mut numbers,
        &mut shape,
        &mut floats,
        &mut bytes,
        &mut loops,
        rate,
        mode,
    );
    finished(&floats, &bytes, &numbers, &shape, q, rate)
}
