// The file of a sheet, handed on in turn.

ghost use Rattle.std.specs.Prelude.{◌≡◌, length};
ghost use Rattle.engine.specs.Stream.{next_of, next_in};

use crate::file::write_header;
use form::header::HEADER_BYTES;
use form::size::Size;
use sheet::sheet::Sheet;
use windows::window::write_window;

// Writes the next bytes of a sheet's file, from place `at` of the file on, to the buffer's start, and answers how many:
// at place 0 the header, with the RIFF size of that name, and behind it as many whole samples as fit. Where nothing is
// left, inside the header or inside a sample, and for a sheet that does not pass the check or a buffer that is too
// short, it writes nothing and answers 0.
pub fn next_bytes(sheet: Sheet, buffer: &mut [u8], size: Size, rate: u32, at: usize) -> usize
    ensures count { result ≡ next_of rate sheet (length buffer.old) at }
    ensures bytes { buffer.new ≡ next_in size rate sheet buffer.old at }
{
    if at == 0 {
        return write_header(sheet, buffer, size, rate).unwrap_or(0);
    }
    if at < HEADER_BYTES {
        return 0;
    }
    let behind = at - HEADER_BYTES;
    if behind % 2 == 1 {
        return 0;
    }
    2 * write_window(sheet, buffer, 0, rate, behind / 2).unwrap_or(0)
}
