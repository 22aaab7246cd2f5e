// The turn sine: whole numbers from the bits of x to S, and S / 2^24 rounded once.
// `sine_by` reads a table that its caller made once and lends; `sine` makes its own.

ghost use Rattle.std.specs.Prelude.{◌≡◌, ◌+◌, ◌-◌, ◌*◌, ◌/◌, ◌%◌, ◌^◌, ◌<◌, ◌≤◌, pos, negsuc, from_bits, nat_le};
ghost use Rattle.std.specs.Float.{binary32, fin};
ghost use Rattle.std.specs.Float.Ieee.{of_int, unlike};
ghost use Rattle.sine.specs.Turn.{C, quarter_of, folded, height, turn_sine_by, turn_sine};
ghost use Rattle.sine.specs.Phase.{field_of, position_of};

use crate::quarter;

// The exponent's field of the numbers from 2^-32 to below 2^-31, the lowest whose positions need not be 0.
pub(crate) const LOWEST_FIELD: u32 = 95;

// The sine of x radians, the same bits on every machine: NaN where x is not finite, and 0.0 where |x|
// is 2^31 or more. sine(1.0) is 0.8414709, and sine(-0.0) is -0.0.
pub fn sine(x: f32) -> f32
    ensures { result ≡ turn_sine x }
{
    let table = quarter::table();
    sine_by(&table, x)
}

// The sine by the heights of a lent table, for one that takes many: by `quarter::table` it is `sine`.
// Where a table falls the height stays at the higher entry.
pub fn sine_by(table: &[u32; 1025], x: f32) -> f32
    ensures { result ≡ turn_sine_by table.now x }
{
    if x != x {
        return x;
    }
    let bits = f32::to_bits(x);
    // |x| is 2^31 or more: x - x is 0.0, and NaN at an infinity
    if bits % 0x8000_0000 >= 0x4f00_0000 {
        return x - x;
    }
    let p = position(bits);
    let s = height_by(table, fold(p));
    nearest(s) * unit(bits, p)
}

// The exponent's field of a pattern.
pub(crate) fn field(bits: u32) -> u32
    ensures { result ≡ field_of bits }
{
    bits % 0x8000_0000 / 0x80_0000
}

// The position of the float x whose bits these are. With m for its 24 digits and e for the exponent's
// field |x| is m 2^(e - 150), so the position is floor(m 2^9 C / 2^(31 + 158 - e)) mod 2^32. Below the
// field 95 that is 0, for the smallest values too, whose digits have no leading one.
fn position(bits: u32) -> u32
    requires { bits % 2 ^ 31 < 158 * 2 ^ 23 }
    ensures { result ≡ position_of (from_bits binary32 bits) }
{
    let e = field(bits);
    if e < LOWEST_FIELD {
        return 0;
    }
    let m = (bits % 0x80_0000 + 0x80_0000) as u64 * 512;
    phase(m, (158 - e) as u64)
}

// floor(m C / 2^(31 + j)) mod 2^32. C is cut into two limbs at its bit 31. The position is the sum of
// what their products give, the upper one's lowest j bits added to the lower one first: positions
// wrap at 2^32, and so does the sum.
pub(crate) fn phase(m: u64, j: u64) -> u32
    requires { (m < 2 ^ 33) × (j < 64) }
    ensures { result ≡ m * C / 2 ^ (31 + j) % 2 ^ 32 }
{
    let high = m * (quarter::C / 0x8000_0000);
    let low = m * (quarter::C % 0x8000_0000) / 0x8000_0000 + (high & ((1 << j) - 1));
    std::num::wrapping_add_u32(
        ((high >> j) % 0x1_0000_0000) as u32,
        ((low >> j) % 0x1_0000_0000) as u32,
    )
}

// How far a position lies from the nearest zero of the sine: 2^30 is at a crest.
pub(crate) fn fold(p: u32) -> u32
    ensures { result ≡ folded p }
{
    let u = p % 0x4000_0000;
    if p / 0x4000_0000 % 2 == 1 {
        return 0x4000_0000 - u;
    }
    u
}

// S at u: the table's entry below u, and the part of the way from there to the next entry.
pub(crate) fn height_by(table: &[u32; 1025], u: u32) -> u32
    requires { u ≤ 2 ^ 30 }
    ensures { result ≡ height table.now u }
{
    let i = (u / 0x10_0000) as usize;
    if i == 1024 {
        return table[1024];
    }
    partway(table[i], table[i + 1], u % 0x10_0000)
}

// The height r / 2^20 of the way from an entry to the next. No way leads down: where the next is lower,
// the height stays.
fn partway(from: u32, next: u32, r: u32) -> u32
    requires { r ≤ 2 ^ 20 }
    ensures { result ≡ from + (next - from) * r / 2 ^ 20 }
{
    if next < from {
        return from;
    }
    let rise = (next - from) as u64 * (r as u64);
    from + (rise / 0x10_0000) as u32
}

// S as an f32. Up to 2^24, where T ends, one conversion is exact and costs least.
fn nearest(s: u32) -> f32
    ensures { result ≡ of_int binary32 (pos s) }
{
    if s <= 0x100_0000 {
        return s as f32;
    }
    std::num::nearest_u32_to_f32(s)
}

// 2^-24 with the result's sign: x's sign bit, turned in the last two quarters.
pub(crate) fn unit(bits: u32, p: u32) -> f32
    ensures { result ≡ fin (unlike (nat_le (2 ^ 31) bits) (nat_le 2 (quarter_of p))) 1 (negsuc 23) }
{
    if bits / 0x8000_0000 == p / 0x8000_0000 {
        return 5.9604644775390625e-8;
    }
    -5.9604644775390625e-8
}
