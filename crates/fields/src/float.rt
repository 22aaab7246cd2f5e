// Floats as bit patterns, both ways and for NaN too: every NaN's pattern is read as the one NaN, and NaN
// is written as 0x7fc00000.

ghost use Rattle.std.specs.Prelude.{◌≡◌};
ghost use Rattle.std.specs.Float.{binary32};
ghost use Rattle.std.specs.Float.Ieee.{to_bits, of_bits};

// The sign, and infinity's bits: what is over these but for its sign is a NaN's pattern.
const SIGN: u32 = 0x8000_0000;

const INFINITY: u32 = 0x7f80_0000;

// The NaN that is written.
const NAN: u32 = 0x7fc0_0000;

// The float whose bits these are. (`from_bits` takes no NaN's pattern.)
pub fn of_bits(w: u32) -> f32
    ensures { result ≡ of_bits binary32 w }
{
    if w % SIGN > INFINITY {
        return f32::NAN;
    }
    f32::from_bits(w)
}

// The bits of x.
pub fn to_bits(x: f32) -> u32
    ensures { result ≡ to_bits binary32 x }
{
    if x.is_nan() {
        return NAN;
    }
    x.to_bits()
}
