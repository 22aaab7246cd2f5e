// Digit runs (the Rust's `eat_int`): the value of the digits at a place of a text, and the place
// after them. One definition serves every limit: 4,294,967,295 for values, 2^64 - 1 for loop counts.

ghost use Rattle.std.specs.Prelude.{◌≡◌, ◌+◌, ◌-◌, ◌^◌, ◌<◌, ◌≤◌, length, drop, MatchOption, Some, None};
ghost use Rattle.text.specs.Fronts.{front};
ghost use Rattle.text.specs.Parsed.{parsed};
ghost use Rattle.number.specs.Digits.{is_digit, value_from, int_at};

use text::parsed::Parsed;
use text::runs::run_end;

// Whether b is one of the ten digits.
#[tactic(auto, unfolding(crate::specs::Digits::is_digit))]
fn is_digit(b: u8) -> bool
    ensures { result ≡ is_digit b }
{
    matches!(b, b'0'..=b'9')
}

// What the digit b counts. (A byte below `0`, which no caller has here, counts 0.)
fn digit(b: u8) -> u64
    ensures { result ≡ b - 48 }
{
    u64::from(b.saturating_sub(b'0'))
}

// The place after the digits that stand at i: i itself where there is none.
fn digits_end(s: &[u8], i: usize) -> usize
    ensures { result ≡ i + length (front is_digit (drop i s.now)) }
{
    run_end(s, i, |b| is_digit(b))
}

// The digits that stand at i.
pub(crate) fn digits_at(s: &[u8], i: usize) -> &[u8]
    ensures run { result.now ≡ front is_digit (drop i s.now) }
    ensures digits { front is_digit result.now ≡ result.now }
    ensures within { 0 < length result.now → i + length result.now ≤ length s.now }
{
    s.get(i..digits_end(s, i)).unwrap_or(&[])
}

// The value of the digits, read after v: none where it is over 2^64 - 1.
pub(crate) fn value_after(v: u64, digits: &[u8]) -> Option<u64>
    ensures { MatchOption result (2 ^ 64 ≤ value_from v digits.now) (λ value. value ≡ value_from v digits.now) }
{
    let mut value = v;
    for b in digits {
        value = value.checked_mul(10)?.checked_add(digit(*b))?;
    }
    Some(value)
}

// The number at place i of s, if its value is at most `limit`: leading zeros are read, and where the
// run is absent or over the limit no digit is. It ends at the first digit that leads over the limit,
// so that a long run costs no more than a short one.
pub fn eat_int(s: &[u8], i: usize, limit: u64) -> Option<Parsed<u64>>
    ensures { result ≡ int_at limit s.now i }
{
    let mut value: u64 = 0;
    for at in i..s.len() {
        if !is_digit(s[at]) {
            return found(i, at, value);
        }
        let longer = value.checked_mul(10)?.checked_add(digit(s[at]))?;
        if longer > limit {
            return None;
        }
        value = longer;
    }
    found(i, s.len(), value)
}

// The answer for the digits from i up to `at`, whose value is `value`.
fn found(i: usize, at: usize, value: u64) -> Option<Parsed<u64>>
    ensures none { at ≤ i → result ≡ None }
    ensures some { i < at → result ≡ Some (parsed value at) }
{
    (at > i).then_some(Parsed { value, next: at })
}
