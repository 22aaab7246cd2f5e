// A checksum over the sines of a run of bit patterns, so that all 2^32 of them can be compared without
// writing each one out. It is a polynomial in a prime field: one that a wrong sign everywhere, say,
// does not slip through, as it could where the modulus is a power of two.

ghost use Rattle.std.specs.Prelude.{◌≡◌, ◌<◌, ◌≤◌, min, length, from_bits, to_bits};
ghost use Rattle.std.specs.Float.{nan, binary32};
ghost use Rattle.sine.specs.Quarter.{quarter};
ghost use Rattle.sine.specs.Turn.{turn_sine};
ghost use Rattle.sine.specs.Lanes.{LanesOf};
ghost use Rattle.ask_numbers.specs.Answer.{mixed, prime, sines_from};
ghost use Rattle.ask_numbers.specs.Sines.{float_from, mixed_with};

use fields::float;
use sine::lanes::sines_by;
use sine::turn::sine_by;

// How many sines are asked for at once.
const LANES: u32 = 32;

// The bits of the sine of the float whose bits these are.
pub fn sine_bits(table: &[u32; 1025], pattern: u32) -> u32
    requires { table.now ≡ quarter }
    ensures { result ≡ to_bits binary32 (turn_sine (from_bits binary32 pattern)) }
{
    float::to_bits(sine_by(table, float::of_bits(pattern)))
}

// A checksum with one word more: 2^40 - 87 is a prime.
fn mix(sum: u64, word: u32) -> u64
    requires { sum < prime }
    ensures { (result ≡ mixed sum word) × (result < prime) }
{
    (sum * 7368787 + word as u64) % 1099511627689
}

// A checksum with the bits of n numbers more.
fn mix_lanes(sum: u64, values: &[f32; 32], n: u32) -> u64
    requires { (sum < prime) × (n ≤ 32) }
    ensures { (result ≡ mixed_with sum values.now n) × (result < prime) }
{
    let mut total = sum;
    for x in &values[..n as usize] {
        total = mix(total, float::to_bits(*x));
    }
    total
}

// The numbers of 32 patterns from one on, which wrap at 2^32.
fn fill(values: &mut [f32; 32], pattern: u32)
    requires { length values.old ≡ 32 }
    ensures { LanesOf nan (float_from pattern) 32 values.old values.new }
{
    for (j, x) in values.iter_mut().enumerate() {
        *x = float::of_bits(pattern.wrapping_add(j as u32));
    }
}

// The checksum of the sines of `count` patterns from `start` on; the patterns wrap at 2^32. The sines are those of many
// lanes at once, while a request for one sine is answered by `sine_by`.
pub fn sines(table: &[u32; 1025], start: u32, count: u32) -> u64
    requires { table.now ≡ quarter }
    ensures { result ≡ sines_from 0 start count }
{
    let mut values = [0.0f32; 32];
    let mut sum: u64 = 0;
    let mut pattern = start;
    let mut left = count;
    while left != 0 {
        let n = left.min(LANES);
        fill(&mut values, pattern);
        sines_by(table, &mut values);
        sum = mix_lanes(sum, &values, n);
        pattern = pattern.wrapping_add(n);
        left -= n;
    }
    sum
}
