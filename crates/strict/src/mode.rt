// How a sheet's numbers and keys are read: as document 01 has them, where what follows one in its token is ignored, or to the
// end of their tokens.

ghost use Rattle.std.specs.Prelude.{◌≡◌};
ghost use Rattle.strict.specs.Strict.{mode_numbered, tailed};

// How a sheet is read.
#[derive(Clone, Copy)]
pub enum Mode {
    Plain,
    Strict,
}

// The mode that a number stands for: 0 is plain, and every other number is strict.
#[tactic(auto, unfolding(crate::specs::Strict::mode_numbered))]
pub fn mode_of(number: u32) -> Mode
    ensures { result ≡ mode_numbered number }
{
    if number == 0 {
        Mode::Plain
    } else {
        Mode::Strict
    }
}

// Whether a token has a tail that the mode refuses: its reader stopped at one place, and the token ends at another.
#[tactic(auto, unfolding(crate::specs::Strict::tailed))]
pub fn has_tail(mode: Mode, stop: usize, end: usize) -> bool
    ensures { result ≡ tailed mode stop end }
{
    matches!(mode, Mode::Strict) && stop < end
}
