// What a request is answered: the refusal and the count, and the whole buffer behind them.

ghost use Rattle.io.specs.Counts.{IsPrefixLen};

use crate::request::Request;
use crate::{buffers, damage};
use engine::file::write_header;
use evaluator::window::window;
use fields::float::to_bits;
use fields::word::put;
use form::size::size_of;
use parser::reader::read;
use sheet::refusal::Refusal;
use sheet::sheet::Sheet;
use strict::mode::Mode;
use windows::window::write_window;

// Standard output.
const STDOUT_FILENO: i32 = 1;

// How many samples a second has.
const RATE: u32 = 44100;

// An answer as two numbers: the refusal, 0 for none, and the count.
fn numbers(answer: Result<usize, Refusal>) -> [u8; 8] {
    let mut out = [0u8; 8];
    match answer {
        Ok(n) => put(&mut out, 4, n.min(0xffff_ffff) as u32),
        Err(why) => put(&mut out, 0, why.number()),
    }
    out
}

// Puts the bits of floats, four bytes each, of those that there is room for, and says how many bytes they take.
fn bits(floats: &[f32], out: &mut [u8]) -> usize
    ensures { IsPrefixLen result out.new }
{
    let n = floats.len().min(out.len() / 4);
    for (i, x) in floats[..n].iter().enumerate() {
        put(out, 4 * i, to_bits(*x));
    }
    4 * n
}

// Writes a window of samples into a slice, answers with all of it, and says whether the answer was taken.
fn samples_in(sheet: Sheet, start: u32, floats: &mut [f32]) -> bool {
    let head = numbers(window(sheet, floats, RATE, start as usize));
    let mut out = io::large_buffer();
    let n = bits(floats, &mut out);
    io::write_all(STDOUT_FILENO, &head) && io::write_all(STDOUT_FILENO, &out[..n])
}

// A window of samples, in a slice of 16,384 elements at the most.
fn samples(sheet: Sheet, asked: Request) -> bool {
    let mut floats = buffers::floats();
    let room = buffers::floats_asked(asked.room, &floats);
    samples_in(sheet, asked.start, &mut floats[..room])
}

// The header, or a window of samples as bytes.
fn written(sheet: Sheet, asked: Request, buffer: &mut [u8]) -> Result<usize, Refusal> {
    if asked.kind == 1 {
        return write_header(sheet, buffer, size_of(asked.start), RATE);
    }
    write_window(sheet, buffer, asked.at as usize, RATE, asked.start as usize)
}

// Writes bytes into a buffer, answers with all of it, and says whether the answer was taken.
fn bytes_in(sheet: Sheet, asked: Request, buffer: &mut [u8]) -> bool {
    let head = numbers(written(sheet, asked, buffer));
    io::write_all(STDOUT_FILENO, &head) && io::write_all(STDOUT_FILENO, buffer)
}

// Bytes of the file, in a buffer of 65,536 at the most.
fn bytes(sheet: Sheet, asked: Request) -> bool {
    let mut buffer = buffers::bytes();
    let room = buffers::bytes_asked(asked.room, &buffer);
    bytes_in(sheet, asked, &mut buffer[..room])
}

// Reads the sheet, does what is asked, and says whether the answer was taken.
pub fn to(asked: Request, source: &[u8]) -> bool {
    let reading = read(source, Mode::Plain);
    let sheet = damage::to(reading.sheet, asked);
    if asked.kind == 0 {
        return samples(sheet, asked);
    }
    bytes(sheet, asked)
}
