// A window of the samples of a sheet as bytes, at any place of a lent buffer. The writer says what it answers and what the whole buffer holds afterwards.

ghost use Rattle.std.specs.Prelude.{◌≡◌, true, ◌+◌, ◌*◌, ◌≤◌, length};
ghost use Rattle.form.specs.Sample.{bytes_of};
ghost use Rattle.wave.specs.File.{put};
ghost use Rattle.sheet.specs.Answers.{answered};
ghost use Rattle.sheet.specs.Parts.{length_of};
ghost use Rattle.handed.specs.Check.{is_sheet};
ghost use Rattle.evaluator.specs.Samples.{samples_from};
ghost use Rattle.mixing.specs.Placing.{placed};
ghost use Rattle.windows.specs.Written.{written_of, written_in};

use handed::check::check;
use mixing::mixing::mix;
use sheet::refusal::Refusal;
use sheet::sheet::Sheet;
use wave::file::write_samples;

// How many samples are made at a time.
const BLOCK: usize = 16384;

// Writes n samples from `start` on, which exist and fit, as bytes from place `at` on. They are made in blocks, large enough that the walk over the
// sheet's notes costs little beside them.
fn write_blocks(sheet: Sheet, buffer: &mut [u8], at: usize, rate: u32, start: usize, n: usize)
    requires { (is_sheet rate sheet ≡ true) × ((start + n ≤ length_of rate sheet) × (at + 2 * n ≤ length buffer.old)) }
    ensures { buffer.new ≡ put buffer.old at (bytes_of (samples_from (placed rate sheet) start n)) }
{
    let mut block = [0.0f32; BLOCK];
    let mut done: usize = 0;
    while done < n {
        let k = (n - done).min(BLOCK);
        mix(sheet, &mut block[..k], rate, start + done);
        write_samples(buffer, at + 2 * done, &block[..k]);
        done += k;
    }
}

// Writes as bytes, from place `at` on, the samples of a sheet from sample `start` on that exist and fit whole, and answers how many. A sheet that does
// not pass the check is refused with 28, a start past the sheet's length with 29, a place past the buffer's length with 30, and so are under two
// bytes where a sample exists; then nothing is written.
pub fn write_window(
    sheet: Sheet,
    buffer: &mut [u8],
    at: usize,
    rate: u32,
    start: usize,
) -> Result<usize, Refusal>
    ensures answer { answered result ≡ written_of rate sheet start (length buffer.old) at }
    ensures bytes { buffer.new ≡ written_in rate sheet start buffer.old at }
{
    let samples = check(sheet, rate)?;
    if start > samples {
        return Err(Refusal::StartPastEnd);
    }
    if at > buffer.len() {
        return Err(Refusal::BufferTooShort);
    }
    let n = ((buffer.len() - at) / 2).min(samples - start);
    if n == 0 {
        if start < samples {
            return Err(Refusal::BufferTooShort);
        }
        return Ok(0);
    }
    write_blocks(sheet, buffer, at, rate, start, n);
    Ok(n)
}
