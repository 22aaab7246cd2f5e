// The file of given samples, its header, and sample bytes at any place of a lent buffer. Each writer
// says what it answers and what the whole buffer holds afterwards.

ghost use Rattle.std.specs.Prelude.{◌≡◌, ◌*◌, ◌/◌, ◌≤◌, min, length};
ghost use Rattle.form.specs.Sample.{bytes_of};
ghost use Rattle.wave.specs.File.{put, count_in, samples_in, told, header_told, header_in, file_told, file_in};

use form::header::{HEADER_BYTES, header};
use form::sample::sample;
use form::size::Size;

// Why nothing is written (refusal 30): the buffer is too short, or there are too many samples.
#[derive(Clone, Copy, Debug, PartialEq, Eq)]
pub struct TooShort;

// "over 2,000,000,000 given samples"
const SAMPLES_MOST: usize = 2000000000;

// How many of so many samples fit whole into so many bytes.
fn fitting(samples: usize, room: usize) -> usize
    ensures { result ≡ min samples (room / 2) }
{
    samples.min(room / 2)
}

// The samples as bytes, from the start of the part that is lent.
fn fill(part: &mut [u8], samples: &[f32])
    requires { 2 * length samples.now ≤ length part.old }
    ensures { part.new ≡ put part.old 0 (bytes_of samples.now) }
{
    for (i, x) in samples.iter().enumerate() {
        let [low, high] = sample(*x).to_le_bytes();
        part[2 * i] = low;
        part[2 * i + 1] = high;
    }
}

// Writes from place `at` on the samples that fit whole, two bytes each, and says how many. Past the
// buffer's end none fit. So of three samples at place 1 of six bytes two are written.
pub fn write_samples(buffer: &mut [u8], at: usize, samples: &[f32]) -> usize
    ensures count { result ≡ count_in (length buffer.old) at (length samples.now) }
    ensures bytes { buffer.new ≡ samples_in buffer.old at samples.now }
{
    if at > buffer.len() {
        return 0;
    }
    let n = fitting(samples.len(), buffer.len() - at);
    fill(&mut buffer[at..], &samples[..n]);
    n
}

// Copies bytes to the start of the buffer.
fn store(buffer: &mut [u8], bytes: &[u8])
    requires { length bytes.now ≤ length buffer.old }
    ensures { buffer.new ≡ put buffer.old 0 bytes.now }
{
    for (i, byte) in bytes.iter().enumerate() {
        buffer[i] = *byte;
    }
}

// Writes the header of a file of n samples, with the RIFF size of that name, into the buffer's first
// 44 bytes. A buffer that has fewer is refused, and then nothing is written.
pub fn write_header(buffer: &mut [u8], size: Size, rate: u32, n: u32) -> Result<usize, TooShort>
    ensures answer { told result ≡ header_told (length buffer.old) }
    ensures bytes { buffer.new ≡ header_in size rate n buffer.old }
{
    if buffer.len() < HEADER_BYTES {
        return Err(TooShort);
    }
    let bytes = header(size, rate, n);
    store(buffer, &bytes);
    Ok(HEADER_BYTES)
}

// Writes the file of the given n samples, with the RIFF size of that name, into the buffer's first
// 44 + 2n bytes. Over 2,000,000,000 samples or a buffer that has fewer bytes is refused, and then
// nothing is written.
pub fn write_file(
    buffer: &mut [u8],
    samples: &[f32],
    size: Size,
    rate: u32,
) -> Result<usize, TooShort>
    ensures answer { told result ≡ file_told (length samples.now) (length buffer.old) }
    ensures bytes { buffer.new ≡ file_in size rate samples.now buffer.old }
{
    let n = samples.len();
    if n > SAMPLES_MOST {
        return Err(TooShort);
    }
    if buffer.len() < HEADER_BYTES + 2 * n {
        return Err(TooShort);
    }
    write_header(buffer, size, rate, n as u32)?;
    write_samples(buffer, HEADER_BYTES, samples);
    Ok(HEADER_BYTES + 2 * n)
}
