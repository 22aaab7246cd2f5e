// The 44 header bytes of a WAV file: every field of the published form, or with the old RIFF size where
// the caller names it.

ghost use Rattle.std.specs.Prelude.{◌≡◌, ◌≤◌};
ghost use Rattle.std.proofs.lemmas.List.Edits.{sets};
ghost use Rattle.form.specs.Form.{le, header};

use crate::size::{Size, field};

// How many bytes a header has.
pub const HEADER_BYTES: usize = 44;

// Where its four numbers stand in it.
const FILE_SIZE_AT: usize = 4;

const RATE_AT: usize = 24;

const BYTE_RATE_AT: usize = 28;

const DATA_SIZE_AT: usize = 40;

// A header with the four lower bytes of a number at a place, the lowest first.
fn with_number(mut form: [u8; HEADER_BYTES], at: usize, v: u64) -> [u8; HEADER_BYTES]
    requires { at ≤ 40 }
    ensures { result ≡ sets form at (le 4 v) }
{
    form[at..at + 4].copy_from_slice(&v.to_le_bytes()[..4]);
    form
}

// The header of a file of n samples at so many samples a second, with the RIFF size of that name. The
// form has PCM, one channel, 2 bytes a block and 16 bits a sample.
pub fn header(size: Size, rate: u32, n: u32) -> [u8; HEADER_BYTES]
    ensures { result ≡ header size rate n }
{
    let form = *b"RIFF____WAVEfmt \x10\0\0\0\x01\0\x01\0________\x02\0\x10\0data____";
    let sized = with_number(form, FILE_SIZE_AT, field(size, n));
    let rated = with_number(sized, RATE_AT, u64::from(rate));
    let timed = with_number(rated, BYTE_RATE_AT, u64::from(rate) * 2);
    with_number(timed, DATA_SIZE_AT, 2 * u64::from(n))
}
