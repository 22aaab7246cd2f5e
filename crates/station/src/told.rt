// What each call of the library answers and writes, before its numbers go to where the caller wants them.

ghost use Rattle.std.specs.Prelude.{◌≡◌, length};
ghost use Rattle.sheet.specs.Answers.{answered};
ghost use Rattle.sheet.specs.Refusals.{going, refused};
ghost use Rattle.station.specs.Calls.{told, samples_asked, header_asked, header_written, window_asked, window_written, wav_told, wav_written};

use engine::file::write_header;
use form::header::HEADER_BYTES;
use form::size::Size;
use handed::check::check;
use parser::reader::read;
use sheet::refusal::Refusal;
use strict::mode::Mode;
use windows::window::write_window;

// How many samples a second has.
const RATE: u32 = 44100;

// What a caller is told: how many, a refusal's number, 0 for none, and its line.
#[derive(Clone, Copy)]
pub struct Told {
    pub count: usize,
    pub refusal: u32,
    pub line: usize,
}

// So many.
fn so_many(count: usize) -> Told
    ensures { result ≡ told (going count) }
{
    Told {
        count,
        refusal: 0,
        line: 0,
    }
}

// A refusal.
fn turned_away(refusal: u32, line: usize) -> Told
    ensures { result ≡ told (refused refusal line) }
{
    Told {
        count: 0,
        refusal,
        line,
    }
}

// What is answered to a caller who hands in a sheet, told to one who hands in a text.
fn told_of(answer: Result<usize, Refusal>) -> Told
    ensures { result ≡ told (answered answer) }
{
    match answer {
        Ok(n) => so_many(n),
        Err(why) => turned_away(why.number(), 0),
    }
}

// How many samples a text has.
pub(crate) fn samples_of(source: &[u8], mode: Mode) -> Told
    ensures { result ≡ told (samples_asked mode source.now) }
{
    let reading = read(source, mode);
    if reading.refusal != 0 {
        return turned_away(reading.refusal, reading.line);
    }
    told_of(check(reading.sheet, RATE))
}

// The header of a text's file, with the RIFF size of that name, in the buffer's first 44 bytes.
pub(crate) fn header_of(source: &[u8], mode: Mode, riff: Size, buffer: &mut [u8]) -> Told
    ensures answer { result ≡ told (header_asked mode source.now (length buffer.old)) }
    ensures bytes { buffer.new ≡ header_written mode riff source.now buffer.old }
{
    let reading = read(source, mode);
    if reading.refusal != 0 {
        return turned_away(reading.refusal, reading.line);
    }
    told_of(write_header(reading.sheet, buffer, riff, RATE))
}

// The samples of a text from `start` on that exist and fit whole, as bytes from `place` on.
pub(crate) fn window_of(
    source: &[u8],
    mode: Mode,
    start: usize,
    buffer: &mut [u8],
    place: usize,
) -> Told
    ensures answer { result ≡ told (window_asked mode source.now start (length buffer.old) place) }
    ensures bytes { buffer.new ≡ window_written mode source.now start buffer.old place }
{
    let reading = read(source, mode);
    if reading.refusal != 0 {
        return turned_away(reading.refusal, reading.line);
    }
    told_of(write_window(reading.sheet, buffer, place, RATE, start))
}

// The whole file of a text, in the buffer's first bytes; the count is the file's size, also where the buffer has fewer.
pub(crate) fn wav_of(source: &[u8], mode: Mode, riff: Size, buffer: &mut [u8]) -> Told
    ensures answer { result ≡ wav_told mode source.now (length buffer.old) }
    ensures bytes { buffer.new ≡ wav_written mode riff source.now buffer.old }
{
    let text = read(source, mode);
    if text.refusal != 0 {
        return turned_away(text.refusal, text.line);
    }
    let size = HEADER_BYTES + 2 * check(text.sheet, RATE).unwrap_or(0);
    if buffer.len() < size {
        return Told {
            count: size,
            refusal: Refusal::BufferTooShort.number(),
            line: 0,
        };
    }
    let _ = write_header(text.sheet, buffer, riff, RATE);
    let _ = write_window(text.sheet, buffer, HEADER_BYTES, RATE, 0);
    so_many(size)
}
