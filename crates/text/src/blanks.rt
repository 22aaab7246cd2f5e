// Blanks and what stands between them (the Rust's `split_whitespace` and `eat_to_whitespace`): code
// that looks for a token passes over the blanks, and then over the ink.

ghost use Rattle.std.specs.Prelude.{◌≡◌, ◌+◌, length, drop};
ghost use Rattle.text.specs.Blanks.{is_blank, is_ink};
ghost use Rattle.text.specs.Fronts.{front};

use crate::runs::run_end;

// Whether b is a space, tab, LF, VT, FF or CR.
#[tactic(auto, unfolding(crate::specs::Blanks::is_blank))]
pub fn is_blank(b: u8) -> bool
    ensures { result ≡ is_blank b }
{
    matches!(b, b' ' | b'\t'..=b'\r')
}

// The place after the blanks that stand at i: i itself where there is none. In `a  b` the blanks at
// 1 end at 3.
pub fn blanks_end(s: &[u8], i: usize) -> usize
    ensures { result ≡ i + length (front is_blank (drop i s.now)) }
{
    run_end(s, i, |b| is_blank(b))
}

// The place after the bytes at i that are no blanks: i itself where there is none. In `@i c` the
// name at 0 ends at 2.
#[tactic(auto, unfolding(crate::specs::Blanks::is_ink))]
pub fn ink_end(s: &[u8], i: usize) -> usize
    ensures { result ≡ i + length (front is_ink (drop i s.now)) }
{
    run_end(s, i, |b| !is_blank(b))
}
