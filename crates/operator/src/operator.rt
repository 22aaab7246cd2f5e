// An operator: a sine with an envelope, modulated by its input.

ghost use Rattle.std.specs.Prelude.{◌≡◌, suc, Some};
ghost use Rattle.operator.specs.Evaluation.{level_of, rounds, operator_at};
ghost use Rattle.operator.specs.Lent.{worked_by, operator_by};
ghost use Rattle.operator.specs.Lanes.{decay_level, release_level};

use sine::turn::sine_by;

// Six numbers of a sheet's operator line, and how often the operator works on its own output.
#[derive(Clone, Copy)]
pub struct Operator {
    pub amplitude: f32,
    pub freqratio: f32,
    pub attack: f32,
    pub decay: f32,
    pub sustain: f32,
    pub release: f32,
    pub feedback: u32,
}

// The f32 nearest to pi.
pub(crate) const PI: f32 = 3.14159274101257324219;

// The level at time t in the decay: from 1 down to the sustain level.
pub(crate) fn decay_level(attack: f32, decay: f32, sustain: f32, t: f32) -> f32
    ensures { result ≡ decay_level attack decay sustain t }
{
    sustain + (1.0 - sustain) * (1.0 - (t - attack) / decay)
}

// The level at time t in the release of a note that lasts d seconds: from the sustain level down to 0.
pub(crate) fn release_level(sustain: f32, release: f32, d: f32, t: f32) -> f32
    ensures { result ≡ release_level sustain release d t }
{
    sustain * (1.0 - (t - d) / release)
}

impl Operator {
    // How loud the operator is at time t of a note that lasts d seconds: no factor past every stage of its envelope.
    pub(crate) fn level(self, d: f32, t: f32) -> Option<f32>
        ensures { result ≡ level_of self d t }
    {
        let attack = self.attack;
        let decay = self.decay;
        let sustain = self.sustain;
        let release = self.release;
        if t < attack {
            return Some(t / attack);
        }
        if t < d {
            if t < attack + decay {
                return Some(decay_level(attack, decay, sustain, t));
            }
            return Some(sustain);
        }
        if t < d + release {
            return Some(release_level(sustain, release, d, t));
        }
        None
    }

    // Feedback + 1 rounds of work at a level on an input.
    fn rounds(self, table: &[u32; 1025], f: f32, t: f32, level: f32, input: f32) -> f32
        ensures { result ≡ rounds (suc self.feedback) (worked_by table.now self f t (Some level)) input }
    {
        let turn = 2.0 * PI * f * self.freqratio * t;
        let amplitude = self.amplitude;
        let mut x = input;
        for _ in 0..=self.feedback {
            x = level * (amplitude * sine_by(table, turn + x));
        }
        x
    }

    // The operator's value at time t of a note of frequency f and duration d, modulated by an input; the
    // sine's table is lent.
    pub(crate) fn eval_by(self, table: &[u32; 1025], f: f32, d: f32, t: f32, input: f32) -> f32
        ensures { result ≡ operator_by table.now f d t self input }
    {
        match self.level(d, t) {
            Some(level) => self.rounds(table, f, t, level, input),
            None => input,
        }
    }

    // The operator's value at time t of a note of frequency f and duration d, modulated by an input.
    pub fn eval(self, f: f32, d: f32, t: f32, input: f32) -> f32
        ensures { result ≡ operator_at f d t self input }
    {
        let table = sine::quarter::table();
        self.eval_by(&table, f, d, t, input)
    }
}
