// Seconds counted in samples where every time has a count.

ghost use Rattle.std.specs.Prelude.{◌≡◌, ◌≤◌};
ghost use Rattle.tone.specs.Time.{length_of};
ghost use Rattle.sheet.specs.Lengths.{samples_of};

use tone::time::{Uncounted, sec_to_len};

// How many samples so many seconds take: none where they have no number of samples that one note may have.
pub fn samples(seconds: f32, rate: u32) -> u64
    ensures { (result ≡ samples_of (length_of rate seconds)) × (result ≤ 16777216) }
{
    match sec_to_len(seconds, rate) {
        Ok(n) => n,
        Err(Uncounted::NotANumber) => 0,
        Err(Uncounted::Negative) => 0,
        Err(Uncounted::TooMany) => 0,
    }
}
