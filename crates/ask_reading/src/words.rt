// Numbers in a buffer, one behind the other: four bytes each, the lowest first. Each function says where the next one comes; where
// there is no room left it puts nothing.

use fields::float;
use fields::word::put;

// The bytes of a number.
const WORD: usize = 4;

pub fn word(out: &mut [u8], at: usize, w: u32) -> usize {
    let from = at.min(out.len());
    if out.len() - from < WORD {
        return from;
    }
    put(out, from, w);
    from + WORD
}

// A number that four bytes may not hold counts as the largest that they do.
pub fn number(out: &mut [u8], at: usize, n: usize) -> usize {
    word(out, at, u32::try_from(n).unwrap_or(u32::MAX))
}

// A float as its bit pattern.
pub fn bits(out: &mut [u8], at: usize, x: f32) -> usize {
    word(out, at, float::to_bits(x))
}
