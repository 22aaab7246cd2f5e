// What a request is answered: what its sheet is read as, in numbers.

ghost use Rattle.std.specs.Prelude.{◌≡◌, length};
ghost use Rattle.io.specs.Counts.{IsPrefixLen};

use crate::{instruments, parts, words};
use meaning::reading::Reading;
use parser::reader::read;
use strict::mode::Mode;

// Standard output.
const STDOUT_FILENO: i32 = 1;

// Room for any answer: five numbers, 16 counts, 2,048 notes and 32 instruments of 64 commands take 98,644 bytes.
const ROOM: usize = 131072;

// The numbers of a reading, and how many bytes they take.
fn numbers(out: &mut [u8], r: Reading) -> usize {
    let sheet = &r.sheet;
    let mut at = words::word(out, 0, r.refusal);
    at = words::number(out, at, r.line);
    at = words::number(out, at, r.steps);
    at = words::number(out, at, sheet.parts);
    at = words::number(out, at, sheet.instruments);
    at = parts::put(out, at, sheet.parts, &sheet.counts, &sheet.notes);
    instruments::put(out, at, sheet.instruments, &sheet.table)
}

// How many bytes of the buffer an answer takes: all of them at the most.
fn within(end: usize, out: &[u8]) -> usize
    ensures { IsPrefixLen result out.now }
{
    end.min(out.len())
}

// Reads a sheet in a mode, writes the answer, and says whether all was taken.
pub fn to(source: &[u8], mode: Mode) -> bool {
    let mut out = [0u8; ROOM];
    let end = numbers(&mut out, read(source, mode));
    let n = within(end, &out);
    io::write_all(STDOUT_FILENO, &out[..n])
}
