// The header of a sheet's WAV file in a lent buffer. The writer says what it answers and what the whole buffer holds
// afterwards.

ghost use Rattle.std.specs.Prelude.{◌≡◌, length};
ghost use Rattle.sheet.specs.Answers.{answered};
ghost use Rattle.engine.specs.Files.{header_of, header_in};

use form::header::HEADER_BYTES;
use form::size::Size;
use handed::check::check;
use sheet::refusal::Refusal;
use sheet::sheet::Sheet;

// Writes the header of a sheet's file, with the RIFF size of that name, into the buffer's first 44 bytes. A sheet that
// does not pass the check is refused with 28, a buffer that has fewer bytes with 30, and then nothing is written.
pub fn write_header(
    sheet: Sheet,
    buffer: &mut [u8],
    size: Size,
    rate: u32,
) -> Result<usize, Refusal>
    ensures answer { answered result ≡ header_of rate sheet (length buffer.old) }
    ensures bytes { buffer.new ≡ header_in size rate sheet buffer.old }
{
    let samples = check(sheet, rate)?;
    if buffer.len() < HEADER_BYTES {
        return Err(Refusal::BufferTooShort);
    }
    let _ = wave::file::write_header(buffer, size, rate, samples as u32);
    Ok(HEADER_BYTES)
}
