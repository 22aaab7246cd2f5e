// Seconds and samples: a note's duration, and how many samples a time takes (the Rust's
// `sec_to_len`). The rate is a parameter, so what is proved of lengths is proved at every rate.

ghost use Rattle.std.specs.Prelude.{◌≡◌};
ghost use Rattle.tone.specs.Time.{duration_of, count_of, length_of};

// Why a time has no number of samples.
#[derive(Clone, Copy, Debug, PartialEq, Eq)]
pub enum Uncounted {
    NotANumber,
    Negative,
    TooMany,
}

// The most samples that one note may have, of which an f32 holds each number up to there.
const NOTE_MOST: f32 = 16777216.0;

// The seconds that a note of the given value takes at a tempo, with a denominator and perhaps a dot.
pub fn duration(tempo: u32, denom: u32, value: u32, dotted: bool) -> f32
    ensures { result ≡ duration_of tempo denom value dotted }
{
    let beat = 60.0 / std::num::nearest_u32_to_f32(tempo);
    let share = std::num::nearest_u32_to_f32(denom) / std::num::nearest_u32_to_f32(value);
    let d = beat * share;
    if dotted { d * 1.5 } else { d }
}

// A time counted in samples, rounded up to a whole number of them.
fn count(samples: f32) -> Result<u64, Uncounted>
    ensures { result ≡ count_of samples }
{
    if samples.is_nan() {
        return Err(Uncounted::NotANumber);
    }
    if samples < 0.0 {
        return Err(Uncounted::Negative);
    }
    if samples > NOTE_MOST {
        return Err(Uncounted::TooMany);
    }
    let whole = std::num::truncating_f32_to_u64(samples);
    if (whole as f32) < samples {
        return Ok(whole + 1);
    }
    Ok(whole)
}

// How many samples so many seconds take at a rate: ceil(seconds * rate), the product in f32.
pub fn sec_to_len(seconds: f32, rate: u32) -> Result<u64, Uncounted>
    ensures { result ≡ length_of rate seconds }
{
    count(seconds * std::num::nearest_u32_to_f32(rate))
}
