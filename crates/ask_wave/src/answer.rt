// What a request is answered: the writer that it asks for, called on the lent buffer.

ghost use Rattle.std.specs.Prelude.{◌≡◌, length};
ghost use Rattle.ask_wave.specs.Answer.{printed, answer_to, buffer_to};
ghost use Rattle.wave.specs.File.{told};

use crate::request::Request;
use form::size::size_of;
use wave::file::{TooShort, write_file, write_header, write_samples};

// Document 01's number of the refusal of a buffer that is too short.
const TOO_SHORT: u64 = 30;

// The refusal, 0 for none, and how many bytes were written; for a window, how many samples.
#[derive(Clone, Copy)]
pub struct Answer {
    pub refusal: u64,
    pub count: u64,
}

fn of_written(written: Result<usize, TooShort>) -> Answer
    ensures { result ≡ printed (told written) }
{
    match written {
        Ok(n) => Answer {
            refusal: 0,
            count: n as u64,
        },
        Err(TooShort) => Answer {
            refusal: TOO_SHORT,
            count: 0,
        },
    }
}

pub fn to(r: Request, samples: &[f32], buffer: &mut [u8]) -> Answer
    ensures answer { result ≡ answer_to r (length samples.now) (length buffer.old) }
    ensures bytes { buffer.new ≡ buffer_to r samples.now buffer.old }
{
    if r.kind == 0 {
        return of_written(write_file(buffer, samples, size_of(r.place), r.rate));
    }
    if r.kind == 1 {
        let n = write_samples(buffer, r.place as usize, samples);
        return Answer {
            refusal: 0,
            count: n as u64,
        };
    }
    of_written(write_header(buffer, size_of(r.place), r.rate, r.count))
}
