// The sines of many numbers, a lane for each. Where up to 32 of them have one exponent, as neighbours in time nearly
// always do, each step is done in all lanes before the next, and all shift by one count: then the processor takes
// several lanes at once.

ghost use Rattle.std.specs.Prelude.{◌≡◌, ℕ, ◌+◌, ◌≤◌, T, map, length, from_bits, EachIndex, slice_index_or};
ghost use Rattle.std.specs.Prelude.{MatchOption};
ghost use Rattle.std.specs.Float.{binary32};
ghost use Rattle.std.specs.Float.Ieee.{fits};
ghost use Rattle.sine.specs.Turn.{turn_sine_by};
ghost use Rattle.sine.specs.Phase.{field_of, position_of};
ghost use Rattle.sine.specs.Lanes.{AllPass, LanesBy, LanesAlike, CommonField, pattern_of, signed_of};

use crate::turn::{LOWEST_FIELD, field, fold, height_by, phase, sine_by, unit};

// How many lanes are worked on side by side at the most.
const LANES: usize = 32;

// The exponent's field of the numbers from 2^22 to below 2^23, the highest whose positions `position_down` works out.
const HIGHEST_FIELD: u32 = 149;

// Gives each lane what `f` makes of its number and of what it has.
pub fn each_lane<T: Copy, F: Fn(usize, T) -> T>(lanes: &mut [T], f: F)
    requires { (none : T) → EachIndex lanes.old (λ j. F.pre f j (slice_index_or lanes.old j none)) }
    ensures { (none : T) → LanesBy (F.post f) none (length lanes.old) lanes.old lanes.new }
{
    for (j, lane) in lanes.iter_mut().enumerate() {
        *lane = f(j, *lane);
    }
}

// Whether every lane passes a test. All are tested: with no branch among them, several are at once.
pub fn all_lanes<T: Copy, F: Fn(T) -> bool>(lanes: &[T], test: F) -> bool
    requires { (none : T) → EachIndex lanes.now (λ j. F.pre test (slice_index_or lanes.now j none)) }
    ensures { (none : T) → AllPass (F.post test) none (length lanes.now) lanes.now result }
{
    let mut all = true;
    for lane in lanes {
        all &= test(*lane);
    }
    all
}

// The bits of x, and 0 for NaN.
fn pattern(x: f32) -> u32
    ensures bits { result ≡ pattern_of x }
    ensures fits { T (fits binary32 x) }
{
    if x != x {
        return 0;
    }
    f32::to_bits(x)
}

// The exponent's field that all patterns have, if they have one, and one whose positions `position_down` works out.
fn common_field(bits: &[u32]) -> Option<u32>
    ensures { MatchOption result ((e : ℕ) → CommonField e bits.now → ⊥) (λ e. CommonField e bits.now) }
{
    let e = field(*bits.first()?);
    if e < LOWEST_FIELD || e > HIGHEST_FIELD {
        return None;
    }
    if all_lanes(bits, |pattern| field(pattern) == e) {
        return Some(e);
    }
    None
}

// The position of a pattern whose exponent's field is 149 - down: floor(m C / 2^(31 + down)) mod 2^32 for its 24 digits
// m. Without the 2^9 that `position` puts before them each product is one of 32 bits by 32, as processors have it in
// lanes.
fn position_down(bits: u32, down: u64) -> u32
    requires { (down ≤ 54) × (field_of bits + down ≡ 149) }
    ensures { result ≡ position_of (from_bits binary32 bits) }
{
    phase((bits % 0x80_0000 + 0x80_0000) as u64, down)
}

// S / 2^24 with the sign of a pattern and of its position.
fn signed(s: u32, bits: u32, p: u32) -> f32
    ensures { result ≡ signed_of s bits p }
{
    std::num::nearest_u32_to_f32(s) * unit(bits, p)
}

// The sines of all lanes, whose patterns have the exponent's field e: each step in all lanes before the next.
fn sines_alike(table: &[u32; 1025], values: &mut [f32], bits: &[u32], e: u32)
    requires { LanesAlike e values.old bits.now }
    ensures { values.new ≡ map (turn_sine_by table.now) values.old }
{
    let down = (HIGHEST_FIELD - e) as u64;
    let mut blank_positions = [0u32; LANES];
    let mut blank_heights = [0u32; LANES];
    let positions = &mut blank_positions[..bits.len()];
    let heights = &mut blank_heights[..bits.len()];
    each_lane(positions, |j, _| position_down(bits[j], down));
    each_lane(heights, |j, _| fold(positions[j]));
    each_lane(heights, |_, u| height_by(table, u));
    each_lane(values, |j, _| signed(heights[j], bits[j], positions[j]));
}

// Each number becomes its sine by the heights of a lent table. Up to 32 numbers at a time are the fastest.
pub fn sines_by(table: &[u32; 1025], values: &mut [f32])
    ensures { values.new ≡ map (turn_sine_by table.now) values.old }
{
    if values.len() <= LANES {
        let mut blank = [0u32; LANES];
        let bits = &mut blank[..values.len()];
        each_lane(bits, |j, _| pattern(values[j]));
        if let Some(e) = common_field(bits) {
            sines_alike(table, values, bits, e);
            return;
        }
    }
    each_lane(values, |_, x| sine_by(table, x));
}
