// The environment of a part (the Rust's `environment.rs`), with the bounds of its values.

ghost use Rattle.std.specs.Prelude.{◌≡◌};
ghost use Rattle.environment.specs.Environment.{at_the_start, octave_up, octave_down};

use keys::key::{Accidental, Key};

#[derive(Clone, Copy)]
pub struct Environment {
    pub octave: u32,
    // The value of a note that has none of its own.
    pub value: u32,
    pub tempo: u32,
    pub amplitude: f32,
    // The denominator of the time signature.
    pub denominator: u32,
    pub key: Key,
    // A place in the sheet's table of instruments.
    pub instrument: usize,
}

impl Environment {
    pub const MIN_OCTAVE: u32 = 1;

    pub const MAX_OCTAVE: u32 = 8;

    pub const MIN_VALUE: u32 = 1;

    pub const MAX_VALUE: u32 = 128;

    pub const MIN_TEMPO: u32 = 1;

    pub const MAX_TEMPO: u32 = 1000;

    pub const MIN_AMPLITUDE: f32 = 0.0;

    pub const MAX_AMPLITUDE: f32 = 1.0;

    pub const MIN_DENOM: u32 = 1;

    pub const MAX_DENOM: u32 = 128;

    // The environment at the start of a sheet.
    pub fn new() -> Environment
        ensures { result ≡ at_the_start }
    {
        let key = Key {
            a: false,
            b: false,
            c: false,
            d: false,
            e: false,
            f: false,
            g: false,
            accidental: Accidental::Natural,
        };
        Environment {
            octave: 4,
            value: 4,
            tempo: 100,
            amplitude: 0.5,
            denominator: 4,
            key,
            instrument: 0,
        }
    }

    // The octave one higher, and no higher than the highest.
    #[tactic(auto, unfolding(crate::specs::Environment::octave_up))]
    pub fn octave_up(self) -> Environment
        ensures { result ≡ octave_up self }
    {
        Environment {
            octave: self.octave.saturating_add(1).min(Environment::MAX_OCTAVE),
            ..self
        }
    }

    // The octave one lower, and no lower than the lowest.
    #[tactic(auto, unfolding(crate::specs::Environment::octave_down))]
    pub fn octave_down(self) -> Environment
        ensures { result ≡ octave_down self }
    {
        Environment {
            octave: self.octave.saturating_sub(1).max(Environment::MIN_OCTAVE),
            ..self
        }
    }
}
