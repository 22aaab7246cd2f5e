// Standard input: its first bytes. A read that fails is not the end of the text, and half a text is never taken for a
// whole one.

ghost use Rattle.std.specs.Prelude.{◌≡◌, ◌≢◌, ◌↔◌, IfOk, IfErr, IsTrue};
ghost use Rattle.std.specs.IoError.{error_kind};
ghost use Rattle.std.specs.Io.KnownBytes.{ReadConsumes};
ghost use Rattle.system.specs.Counts.{Counts, Within, ReadsFirst, KeepsUnlessFailed};

use crate::output::fail;
use std::io;
use std::io::{Error, ErrorKind, Read, Write};

// How often an interrupted call is tried again: every function has to end, and nobody interrupts so often.
pub(crate) const TRIES: u32 = 4294967295;

// Whether a signal interrupted the call that failed so.
pub(crate) fn is_interrupted(why: Error) -> bool
    ensures { IsTrue result ↔ error_kind why ≡ ErrorKind.Interrupted }
{
    why.kind() == ErrorKind::Interrupted
}

// A call that was interrupted at each of its tries.
pub(crate) fn tired() -> Error
    ensures { error_kind result ≢ ErrorKind.Interrupted }
{
    Error::other("Interrupted system call")
}

// One read to the start of a buffer, of no byte at the end of the input, tried again where a signal interrupts it.
fn read_some<R: Read>(input: &mut R, bytes: &mut [u8]) -> io::Result<usize>
    ensures count { IfOk result (λ n. Counts n bytes.new) }
    ensures bytes { ReadConsumes (R.remaining input.old) (R.remaining input.new) result bytes.new }
    ensures again { IfErr result (λ why. error_kind why ≢ ErrorKind.Interrupted) }
{
    for _ in 0..TRIES {
        match input.read(bytes) {
            Ok(n) => return Ok(n),
            Err(why) => {
                if !is_interrupted(why) {
                    return Err(why);
                }
            }
        }
    }
    Err(tired())
}

// Reads an input until the buffer is full or the input ends, and says how many bytes were read. Where reading fails, one
// line to standard error says why, and nothing in the buffer means anything.
pub fn read_first<R: Read, E: Write>(
    input: &mut R,
    errors: &mut E,
    bytes: &mut [u8],
) -> Option<usize>
    ensures count { Within result bytes.new }
    ensures bytes { ReadsFirst (R.remaining input.old) result bytes.new }
    ensures quiet { KeepsUnlessFailed result (E.contents errors.old) (E.contents errors.new) }
{
    let mut done = 0;
    while done < bytes.len() {
        match read_some(input, &mut bytes[done..]) {
            Ok(0) => return Some(done),
            Ok(n) => done += n,
            Err(why) => {
                fail(errors, b"standard input", why);
                return None;
            }
        }
    }
    Some(done)
}
