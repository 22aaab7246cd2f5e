// Samples as bytes: one f32 becomes a 16-bit number, stored as two bytes, the lower first.

ghost use Rattle.std.specs.Prelude.{◌≡◌, false, T, pos, ◌≤◌};
ghost use Rattle.std.specs.Float.{fin};
ghost use Rattle.std.specs.Float.Ieee.{le, to_unsigned};
ghost use Rattle.ieee.specs.Constants.{plus_zero};
ghost use Rattle.form.specs.Sample.{clamp, AtMostScale, nearest_whole, stored_of, sample16, word};

// How many numbers there are of 16 bits.
const WORDS: u32 = 65536;

// The largest of them with a sign.
const LOUDEST: u32 = 32767;

// 2^23: from there on to 2^24 the floats are the whole numbers, and the lowest 23 of a float's bits say which
// of them it is.
const WHOLE_FROM: f32 = 8388608.0;

const WHOLE_BITS: u32 = 8388608;

// What a sample is multiplied by.
const SCALE: f32 = 32767.5;

// x, or the end of -1..1 that it lies past; NaN stays NaN.
fn clamped(x: f32) -> f32
    ensures { result ≡ clamp x }
{
    if x < -1.0 {
        return -1.0;
    }
    if x > 1.0 {
        return 1.0;
    }
    x
}

// The whole part of a float from 0 to 65,535. Added to 2^23, where the floats are the whole numbers,
// it is rounded to one of the two whole numbers beside it; where that is the larger one, it is one
// too many. There the bits end in the whole number without 2^23, so that nothing is converted.
fn whole_part(x: f32) -> u32
    requires from_zero { T (le plus_zero x) }
    requires within_16_bits { T (le x (fin false 65535 (pos 0))) }
    ensures { result ≡ to_unsigned 64 x }
{
    let near = (x + WHOLE_FROM).to_bits() % WHOLE_BITS;
    if x < near as f32 { near - 1 } else { near }
}

// The whole number nearest to p without its sign, the larger one at a half: half of the whole part
// of twice p, rounded up.
fn nearest(p: f32) -> u32
    requires { AtMostScale p }
    ensures { result ≡ nearest_whole p }
{
    let size = if p < 0.0 { -p } else { p };
    (whole_part(size + size) + 1) / 2
}

// The whole number n nearest to p without its sign, as it is stored but for 2^16: counted down from there below zero,
// and the loudest sample at the most elsewhere.
fn stored(n: u32, p: f32) -> u32
    requires { n ≤ 32768 }
    ensures { result ≡ stored_of n p }
{
    if p < 0.0 { WORDS - n } else { n.min(LOUDEST) }
}

// The 16-bit number of a sample as it is stored: clamped to -1..1, times 32767.5, half away from
// zero; NaN gives 0.
pub fn sample(x: f32) -> u16
    ensures { result ≡ word (sample16 x) }
{
    let p = clamped(x) * SCALE;
    if p.is_nan() {
        return 0;
    }
    let n = nearest(p);
    (stored(n, p) % WORDS) as u16
}
