// Commands that change an environment (the Rust's `int_command` and `float_command` with what they are called for): the environment afterwards, or a
// refusal.

ghost use Rattle.std.specs.Prelude.{◌≡◌, ℕ};
ghost use Rattle.settings.specs.Changes.{change_outcome, octave_read, value_read, tempo_read, amplitude_read, key_read};
ghost use Rattle.keys.specs.Keys.{key_found};
ghost use Rattle.environment.specs.Ranges.{digit_run, amount_of};

use environment::environment::Environment;
use environment::range::{ranged_amplitude, ranged_value};
use keys::key::Key;
use number::decimal::NoDecimal;
use sheet::refusal::Refusal;
use text::parsed::Parsed;

// `o` and its digit run: refused where there is none, or where it is out of range.
pub fn octave_command(env: Environment, n: Option<Parsed<u64>>) -> Result<Environment, Refusal>
    ensures { (line : ℕ) → change_outcome line result ≡ octave_read line (digit_run n) env }
{
    let octave = ranged_value(n, Environment::MIN_OCTAVE, Environment::MAX_OCTAVE)?;
    Ok(Environment { octave, ..env })
}

// `l` and its digit run.
pub fn value_command(env: Environment, n: Option<Parsed<u64>>) -> Result<Environment, Refusal>
    ensures { (line : ℕ) → change_outcome line result ≡ value_read line (digit_run n) env }
{
    let value = ranged_value(n, Environment::MIN_VALUE, Environment::MAX_VALUE)?;
    Ok(Environment { value, ..env })
}

// `t` and its digit run.
pub fn tempo_command(env: Environment, n: Option<Parsed<u64>>) -> Result<Environment, Refusal>
    ensures { (line : ℕ) → change_outcome line result ≡ tempo_read line (digit_run n) env }
{
    let tempo = ranged_value(n, Environment::MIN_TEMPO, Environment::MAX_TEMPO)?;
    Ok(Environment { tempo, ..env })
}

// `v` and its decimal: refused where there is none, where it is too long, or where it is out of range.
pub fn amplitude_command(
    env: Environment,
    d: Result<Parsed<f32>, NoDecimal>,
) -> Result<Environment, Refusal>
    ensures { (line : ℕ) → change_outcome line result ≡ amplitude_read line (amount_of d) env }
{
    let amplitude = ranged_amplitude(d)?;
    Ok(Environment { amplitude, ..env })
}

// `k` and its key: refused where it has no accidental.
pub fn key_command(env: Environment, k: Option<Parsed<Key>>) -> Result<Environment, Refusal>
    ensures { (line : ℕ) → change_outcome line result ≡ key_read line (key_found k) env }
{
    let key = k.ok_or(Refusal::NoAccidental)?.value;
    Ok(Environment { key, ..env })
}
