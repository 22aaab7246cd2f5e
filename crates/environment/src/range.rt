// Values of commands and directives (the Rust's `int_command`, `float_command` and `int_directive`): a number that is there and
// within its bounds, or a refusal.

ghost use Rattle.std.specs.Prelude.{◌≡◌, ℕ};
ghost use Rattle.environment.specs.Bounds.{bounds};
ghost use Rattle.environment.specs.Ranges.{digit_run, amount_of, ranged, loudness, value_outcome, amplitude_outcome};

use crate::environment::Environment;
use number::decimal::NoDecimal;
use sheet::refusal::Refusal;
use text::parsed::Parsed;

// The value of a digit run between two bounds: refused where there is none, or where it lies outside.
pub fn ranged_value(n: Option<Parsed<u64>>, least: u32, most: u32) -> Result<u32, Refusal>
    ensures { (line : ℕ) → value_outcome line result ≡ ranged line (bounds least most) (digit_run n) }
{
    let value = n.ok_or(Refusal::NoNumber)?.value;
    if value < u64::from(least) || value > u64::from(most) {
        return Err(Refusal::OutOfRange);
    }
    Ok(value as u32)
}

// The amplitude of a decimal: refused where there is none, where it is too long, or where it lies outside 0 to 1.
pub fn ranged_amplitude(d: Result<Parsed<f32>, NoDecimal>) -> Result<f32, Refusal>
    ensures { (line : ℕ) → amplitude_outcome line result ≡ loudness line (amount_of d) }
{
    let amplitude = match d {
        Ok(found) => found.value,
        Err(NoDecimal::Unreadable) => return Err(Refusal::NoNumber),
        Err(NoDecimal::TooLong) => return Err(Refusal::TooManyDigits),
    };
    if amplitude < Environment::MIN_AMPLITUDE || amplitude > Environment::MAX_AMPLITUDE {
        return Err(Refusal::OutOfRange);
    }
    Ok(amplitude)
}
