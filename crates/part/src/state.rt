// How far the reading of a part is, with the notes and the open loops in columns beside it.

ghost use Rattle.std.specs.Prelude.{◌≡◌};
ghost use Rattle.sheet.specs.Numbers.{number_of};
ghost use Rattle.part.specs.Columns.{refused_at};

use environment::environment::Environment;
use sheet::refusal::Refusal;

// How many notes all parts may have.
pub(crate) const NOTES: usize = 2048;

// How many loops of a part may be open.
pub(crate) const OPEN_LOOPS: usize = 8;

// How many steps a reading may take.
pub(crate) const STEPS: usize = 100000;

#[derive(Clone, Copy)]
pub struct State {
    pub env: Environment,
    // How many notes the part has, and how many all other parts have.
    pub count: usize,
    pub others: usize,
    // How many loops are open.
    pub depth: usize,
    pub steps: usize,
    // A refusal's number, 0 for none, and its line.
    pub refusal: u32,
    pub line: usize,
}

impl State {
    // The same part with a refusal and its line.
    pub(crate) fn refused(self, why: Refusal, line: usize) -> State
        ensures { result ≡ refused_at self (number_of why) line }
    {
        State {
            refusal: why.number(),
            line,
            ..self
        }
    }
}

// What a body is read in: the source, in which the tables of macros' names, of their bodies and of instruments' names
// have their places, the instruments' releases, and the rate at which notes are counted in samples.
#[derive(Clone, Copy)]
pub(crate) struct Book<'a> {
    pub source: &'a [u8],
    pub macros: &'a [usize],
    pub bodies: &'a [usize],
    pub names: &'a [usize],
    pub releases: &'a [f32],
    pub rate: u32,
}

// The columns of a part: three numbers for each note, a byte for its instrument, and two places for each open loop.
#[derive(Drop)]
pub(crate) struct Columns<'a> {
    pub floats: &'a mut [f32],
    pub instruments: &'a mut [u8],
    pub loops: &'a mut [usize],
}
