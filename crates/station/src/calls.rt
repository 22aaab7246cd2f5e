// The calls that the static library has under these names. Each reads the text once, in the mode that is asked, answers a count, and puts the number and the line of a refusal where
// the caller wants them: 0 and 0 where there is none. After a refusal every byte of the buffer is as it was.

ghost use Rattle.std.specs.Prelude.{◌≡◌, length};
ghost use Rattle.form.specs.Form.{size_numbered};
ghost use Rattle.strict.specs.Strict.{mode_numbered};
ghost use Rattle.station.specs.Calls.{told, samples_asked, header_asked, header_written, window_asked, window_written, wav_told, wav_written};

use crate::told::{header_of, samples_of, wav_of, window_of};
use form::size::size_of;
use strict::mode::mode_of;

// How many samples a sheet has, 0 where it is refused.
#[unsafe(no_mangle)]
pub extern "C" fn cue_samples(
    source: &[u8],
    mode: u32,
    refusal: &mut u32,
    line: &mut usize,
) -> usize
    ensures count { result ≡ (told (samples_asked (mode_numbered mode) source.now)).count }
    ensures number { refusal.new ≡ (told (samples_asked (mode_numbered mode) source.now)).refusal }
    ensures line { line.new ≡ (told (samples_asked (mode_numbered mode) source.now)).line }
{
    let answer = samples_of(source, mode_of(mode));
    *refusal = answer.refusal;
    *line = answer.line;
    answer.count
}

// Writes the whole WAV file of a sheet, with the RIFF size that a number names, to the buffer's start, and answers the file's size in bytes, also where the
// buffer is too short for it (30); 0 where the text is refused.
#[unsafe(no_mangle)]
pub extern "C" fn cue_wav(
    source: &[u8],
    mode: u32,
    riff: u32,
    buffer: &mut [u8],
    refusal: &mut u32,
    line: &mut usize,
) -> usize
    ensures size { result ≡ (wav_told (mode_numbered mode) source.now (length buffer.old)).count }
    ensures number { refusal.new ≡ (wav_told (mode_numbered mode) source.now (length buffer.old)).refusal }
    ensures line { line.new ≡ (wav_told (mode_numbered mode) source.now (length buffer.old)).line }
    ensures bytes { buffer.new ≡ wav_written (mode_numbered mode) (size_numbered riff) source.now buffer.old }
{
    let answer = wav_of(source, mode_of(mode), size_of(riff), buffer);
    *refusal = answer.refusal;
    *line = answer.line;
    answer.count
}

// Writes the header of a sheet's file, with the RIFF size that a number names, to the buffer's start, and answers its 44 bytes; 0 where the text is
// refused or the buffer has fewer (30).
#[unsafe(no_mangle)]
pub extern "C" fn cue_header(
    source: &[u8],
    mode: u32,
    riff: u32,
    buffer: &mut [u8],
    refusal: &mut u32,
    line: &mut usize,
) -> usize
    ensures count { result ≡ (told (header_asked (mode_numbered mode) source.now (length buffer.old))).count }
    ensures number { refusal.new ≡ (told (header_asked (mode_numbered mode) source.now (length buffer.old))).refusal }
    ensures line { line.new ≡ (told (header_asked (mode_numbered mode) source.now (length buffer.old))).line }
    ensures bytes { buffer.new ≡ header_written (mode_numbered mode) (size_numbered riff) source.now buffer.old }
{
    let answer = header_of(source, mode_of(mode), size_of(riff), buffer);
    *refusal = answer.refusal;
    *line = answer.line;
    answer.count
}

// Writes the samples of a sheet from `start` on that exist and fit whole, two bytes each, from `place` of the buffer on, and answers how many; 0 where the
// text is refused, `start` is past the samples (29), `place` is past the buffer, or a sample exists and under two bytes are left (30).
#[unsafe(no_mangle)]
pub extern "C" fn cue_window(
    source: &[u8],
    mode: u32,
    start: usize,
    buffer: &mut [u8],
    place: usize,
    refusal: &mut u32,
    line: &mut usize,
) -> usize
    ensures count { result ≡ (told (window_asked (mode_numbered mode) source.now start (length buffer.old) place)).count }
    ensures number { refusal.new ≡ (told (window_asked (mode_numbered mode) source.now start (length buffer.old) place)).refusal }
    ensures line { line.new ≡ (told (window_asked (mode_numbered mode) source.now start (length buffer.old) place)).line }
    ensures bytes { buffer.new ≡ window_written (mode_numbered mode) source.now start buffer.old place }
{
    let answer = window_of(source, mode_of(mode), start, buffer, place);
    *refusal = answer.refusal;
    *line = answer.line;
    answer.count
}
