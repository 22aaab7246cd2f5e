// The answer on its way to standard output. Elsewhere a `Handing` can be made at its start alone and not be changed, so
// that one at a later place is had only by handing on all that comes before it.

ghost use Rattle.std.specs.Prelude.{◌≡◌, true, length};
ghost use Rattle.cue.specs.Answer.{answer_of};
ghost use Rattle.cue.specs.Handing.{Takes, Next, Moved};

use form::size::Size;
use std::io::Write;
use strict::mode::Mode;
use system::output::{Output, Streams};

#[derive(Clone, Copy)]
pub struct Handing {
    out: Output,
}

impl Handing {
    // Nothing is handed on yet.
    pub fn start() -> Handing
        ensures { (result.out.at ≡ 0) × (result.out.taking ≡ true) }
    {
        Handing {
            out: Output::start(),
        }
    }

    // How many bytes of the answer have been handed on.
    pub fn place(self) -> usize
        ensures { result ≡ self.out.at }
    {
        self.out.place()
    }

    // Whether all of them were taken.
    pub fn is_taking(self) -> bool
        ensures { result ≡ self.out.taking }
    {
        self.out.is_taking()
    }

    // Hands the next piece of the answer on. A `Handing` can be copied; where one `reached` is lent to all, it holds
    // how far the program has come, and an older copy cannot hand its piece on again. That there is one is seen by eye.
    pub(crate) fn hand<W: Write, E: Write>(
        self,
        mode: Mode,
        size: Size,
        source: &[u8],
        to: &mut Streams<W, E>,
        part: &[u8],
        reached: &mut usize,
    ) -> Handing
        requires taking { Takes self reached.old }
        requires next { Next (answer_of mode size source.now) self.out.at part.now }
        ensures { Moved self (length part.now) result reached.new }
    {
        let later = self.out.hand(to, part, reached);
        Handing { out: later }
    }
}
