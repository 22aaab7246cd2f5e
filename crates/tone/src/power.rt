// Frequencies: the power rule of document 01, and the frequency of a semitone. Every operation is
// rounded to f32 where document 01 rounds it.

ghost use Rattle.std.specs.Prelude.{◌≡◌};
ghost use Rattle.tone.specs.Power.{power_of, frequency_of};

use crate::tuning::{FIRST, table};

// 2^(1/12), rounded to f32: its bits are 0x3f879c7d.
pub const SEMINOTE_STEP: f32 = 1.0594630943592952645618253;

// The semitone a of octave 4, and its frequency.
const A4: u32 = 57;

const CONCERT_PITCH: f32 = 440.0;

// x to the power n, by the bits of n from the lowest.
pub fn power(x: f32, n: u32) -> f32
    ensures { result ≡ power_of x n }
{
    let mut r: f32 = 1.0;
    let mut q = x;
    let mut left = n;
    while left != 0 {
        if left % 2 == 1 {
            r *= q;
        }
        q *= q;
        left /= 2;
    }
    r
}

// The frequency of the semitone s by the power rule: that of a 4, times step to the power s - A4.
fn by_power(s: u32) -> f32
    ensures { result ≡ frequency_of s }
{
    if s < A4 {
        return CONCERT_PITCH * (1.0 / power(SEMINOTE_STEP, A4 - s));
    }
    CONCERT_PITCH * power(SEMINOTE_STEP, s - A4)
}

// The frequency of the semitone s, counted from c of octave 0: from the table where it has s, else by the power rule.
pub fn frequency(s: u32) -> f32
    ensures { result ≡ frequency_of s }
{
    if s >= FIRST {
        let i = (s - FIRST) as usize;
        if let Some(frequency) = table().get(i) {
            return *frequency;
        }
    }
    by_power(s)
}
