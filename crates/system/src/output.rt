// Standard output, which takes an answer in order, and standard error, which takes a line. Elsewhere an `Output` can be
// made at its start alone and not be changed, so that one at a later place is had only by handing on all before it.

ghost use Rattle.std.specs.Prelude.{◌≡◌, ◌≢◌, true, length, IfOk, IfErr, OnOk};
ghost use Rattle.std.specs.IoError.{error_kind};
ghost use Rattle.std.specs.Io.{StartsWith};
ghost use Rattle.std.specs.Io.KnownBytes.{Appends, Keeps, WriteAppends};
ghost use Rattle.system.specs.Counts.{Counts};
ghost use Rattle.system.specs.Moving.{Advanced, AppendsFirst, Written};

use crate::input::{TRIES, is_interrupted, tired};
use std::fmt::InlineText;
use std::io;
use std::io::{Error, ErrorKind, Write};

#[derive(Clone, Copy)]
pub struct Output {
    // How many bytes of the answer have been handed on.
    at: usize,
    // Whether all of them were taken.
    taking: bool,
}

// What a program writes to: standard output and standard error.
#[derive(Drop)]
pub struct Streams<W, E> {
    pub output: W,
    pub errors: E,
}

// One write of a part's first bytes, tried again where a signal interrupts it; how many it took.
fn write_some<W: Write>(to: &mut W, part: &[u8]) -> io::Result<usize>
    ensures count { IfOk result (λ n. Counts n part.now) }
    ensures bytes { WriteAppends (W.contents to.old) (W.contents to.new) result part.now }
    ensures again { IfErr result (λ why. error_kind why ≢ ErrorKind.Interrupted) }
{
    for _ in 0..TRIES {
        match to.write(part) {
            Ok(n) => return Ok(n),
            Err(why) => {
                if !is_interrupted(why) {
                    return Err(why);
                }
            }
        }
    }
    Err(tired())
}

// Writes all of a part, or says why not all of it was taken.
fn write_part<W: Write>(to: &mut W, part: &[u8]) -> io::Result<()>
    ensures all { OnOk result (Appends (W.contents to.old) (W.contents to.new) part.now) }
    ensures first { AppendsFirst (W.contents to.old) (W.contents to.new) part.now }
{
    let mut done = 0;
    while done < part.len() {
        let n = write_some(to, &part[done..])?;
        if n == 0 {
            return Err(Error::from(ErrorKind::WriteZero));
        }
        done += n;
    }
    Ok(())
}

impl Output {
    // Nothing is handed on yet.
    pub fn start() -> Output
        ensures { (result.at ≡ 0) × (result.taking ≡ true) }
    {
        Output {
            at: 0,
            taking: true,
        }
    }

    pub fn place(self) -> usize
        ensures { result ≡ self.at }
    {
        self.at
    }

    pub fn is_taking(self) -> bool
        ensures { result ≡ self.taking }
    {
        self.taking
    }

    // Hands a part on to standard output, and says how far that brings the output, or that it takes no more; then one
    // line to standard error says why the system did not take it. An `Output` can be copied; where one `reached` is
    // lent to all, it holds how far the program has come, and an older copy hands nothing on.
    pub fn hand<W: Write, E: Write>(
        self,
        to: &mut Streams<W, E>,
        part: &[u8],
        reached: &mut usize,
    ) -> Output
        ensures place { Advanced self (length part.now) result reached.old reached.new }
        ensures bytes { Written self part.now result reached.old
            (W.contents to.old.output) (W.contents to.new.output) }
        ensures quiet { result.taking ≡ true
            → Keeps (E.contents to.old.errors) (E.contents to.new.errors) }
    {
        let at = self.at;
        let stopped = Output { at, taking: false };
        if !self.taking {
            return stopped;
        }
        if *reached != at {
            return stopped;
        }
        let Some(next) = at.checked_add(part.len()) else {
            return stopped;
        };
        if let Err(why) = write_part(&mut to.output, part) {
            fail(&mut to.errors, b"standard output", why);
            return stopped;
        }
        *reached = next;
        Output {
            at: next,
            taking: true,
        }
    }
}

// Tells a line to standard error. There is nobody to tell where it is not taken.
pub fn tell<E: Write>(errors: &mut E, line: &[u8])
    ensures { AppendsFirst (E.contents errors.old) (E.contents errors.new) line.now }
{
    let _ = write_part(errors, line);
}

// The system's words for what went wrong, without the number that `Error` puts behind them.
fn words_of(said: &str) -> &str
    ensures { StartsWith said.now result.now }
{
    match said.rfind(" (os error ") {
        Some(end) => &said[..end],
        None => said,
    }
}

// Tells one line to standard error: what failed, and why.
pub(crate) fn fail<E: Write>(errors: &mut E, what: &[u8], why: Error) {
    let said = InlineText::<128>::of(why);
    let words = words_of(said.as_str());
    tell(errors, what);
    tell(errors, b": ");
    tell(errors, words.as_bytes());
    tell(errors, b"\n");
}
