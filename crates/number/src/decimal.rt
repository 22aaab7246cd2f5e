// Decimals (the Rust's `eat_float`): digits, or digits, a point, digits, as the nearest f32. What the
// text `0,7` means can be read off here: the number is 0, and reading stops at the comma.

ghost use Rattle.std.specs.Prelude.{◌≡◌, false, ◌+◌, ◌*◌, ◌/◌, ◌-◌, ◌^◌, ◌≤◌, ◌<◌, max, length};
ghost use Prim.Native.Nat.{compare};
ghost use Rattle.std.specs.Float.{binary32};
ghost use Rattle.std.specs.Float.Ieee.{round, nearest};
ghost use Rattle.text.specs.Fronts.{front};
ghost use Rattle.number.specs.Digits.{is_digit};
ghost use Rattle.number.specs.Decimal.{judged, decimal_at};

use crate::digits::{digits_at, value_after};
use std::cmp::Ordering;
use text::characters::stands_at;
use text::parsed::Parsed;

// Why no decimal is read at a place: none stands there, or one of more than 18 digits.
#[derive(Clone, Copy)]
pub enum NoDecimal {
    Unreadable,
    TooLong,
}

// How many digits a decimal may have, those before the point and behind it together.
const DIGITS_MOST: usize = 18;

// How many binary digits of an f32 stand behind the first one, and what that one counts.
const PLACES: usize = 23;

const FIRST: u64 = 1 << 23;

// A number that was scaled by a power of two, and how far.
#[derive(Clone, Copy)]
struct Scaled {
    number: u64,
    by: u64,
}

// A quotient of 24 binary digits, and its remainder.
#[derive(Clone, Copy)]
struct Quotient {
    whole: u64,
    rest: u64,
}

// n doubled until it is at least d.
fn raised(n: u64, d: u64) -> Scaled
    requires some { 0 < n }
    requires small { n ≤ 10 ^ 18 }
    requires few { d ≤ 10 ^ 18 }
    ensures scaled { result.number ≡ n * 2 ^ result.by }
    ensures by_most { result.by ≤ 60 }
    ensures reached { d ≤ result.number }
    ensures no_further { result.number ≤ max n (2 * (d - 1)) }
{
    let mut number = n;
    let mut by: u64 = 0;
    while number < d {
        number *= 2;
        by += 1;
    }
    Scaled { number, by }
}

// n / d by long division, to 23 binary places.
fn divided(n: u64, d: u64) -> Quotient
    requires whole { d ≤ n }
    requires one { n < 2 * d }
    requires small { d ≤ 10 ^ 18 }
    ensures quotient { n * 2 ^ 23 ≡ result.whole * d + result.rest }
    ensures remainder { result.rest < d }
{
    let mut whole: u64 = 1;
    let mut rest = n - d;
    for _place in 0..PLACES {
        rest *= 2;
        whole *= 2;
        if rest >= d {
            rest -= d;
            whole += 1;
        }
    }
    Quotient { whole, rest }
}

// The quotient, moved up by one where the rest says so: a tie goes to the even one.
fn rounded(whole: u64, rest: u64, d: u64) -> u64
    requires digits { whole < 2 ^ 24 }
    requires remainder { rest < d }
    requires small { d ≤ 10 ^ 18 }
    ensures { result ≡ nearest whole (compare (rest * 2) d) }
{
    match (rest * 2).cmp(&d) {
        Ordering::Less => whole,
        Ordering::Equal => whole + whole % 2,
        Ordering::Greater => whole + 1,
    }
}

// The f32 nearest to n / d times 2 ^ (k - 126), put together from its exponent and its 24 digits.
fn assembled(n: u64, d: u64, k: u64) -> f32
    requires some { 0 < d }
    requires whole { d ≤ n }
    requires one { n < 2 * d }
    requires small { d ≤ 10 ^ 18 }
    requires exponent { k ≤ 200 }
    ensures { result ≡ round binary32 false (n * 2 ^ 23 * 2 ^ k) (d * 2 ^ 149) }
{
    let quotient = divided(n, d);
    let digits = rounded(quotient.whole, quotient.rest, d);
    f32::from_bits((k * FIRST + digits) as u32)
}

// The f32 nearest to n / d, ties to even.
fn nearest_f32(n: u64, d: u64) -> f32
    requires number { n < 10 ^ 18 }
    requires some { 0 < d }
    requires small { d ≤ 10 ^ 18 }
    ensures { result ≡ round binary32 false n d }
{
    if n == 0 {
        return 0.0;
    }
    if n < d {
        let up = raised(n, d);
        return assembled(up.number, d, 126 - up.by);
    }
    // the last doubling of d that stays at most n is the first that is over half of n
    let down = raised(d, n / 2 + 1);
    assembled(n, down.number, 126 + down.by)
}

// The number whose digits stand before and behind a point, read up to `next`.
fn judged(whole: &[u8], part: &[u8], next: usize) -> Result<Parsed<f32>, NoDecimal>
    requires whole_digits { front is_digit whole.now ≡ whole.now }
    requires part_digits { front is_digit part.now ≡ part.now }
    ensures { result ≡ judged whole.now part.now next }
{
    let room = DIGITS_MOST.saturating_sub(whole.len());
    if whole.len() > DIGITS_MOST || part.len() > room {
        return Err(NoDecimal::TooLong);
    }
    // 18 digits always fit, so this reads both sides
    let Some(before) = value_after(0, whole) else {
        return Err(NoDecimal::TooLong)
    };
    let Some(n) = value_after(before, part) else {
        return Err(NoDecimal::TooLong)
    };
    let d = 10_u64.pow(part.len() as u32);
    Ok(Parsed {
        value: nearest_f32(n, d),
        next,
    })
}

// The decimal at place i of s, and the place after it.
pub fn eat_float(s: &[u8], i: usize) -> Result<Parsed<f32>, NoDecimal>
    ensures { result ≡ decimal_at s.now i }
{
    let whole = digits_at(s, i);
    if whole.is_empty() {
        return Err(NoDecimal::Unreadable);
    }
    let point = i + whole.len();
    if !stands_at(s, point, b'.') {
        return judged(whole, &[], point);
    }
    let part = digits_at(s, point + 1);
    if part.is_empty() {
        return Err(NoDecimal::Unreadable);
    }
    judged(whole, part, point + 1 + part.len())
}
