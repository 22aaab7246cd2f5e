// Runs: bytes that stand one behind the other in a text and all pass a test.

ghost use Rattle.std.specs.Prelude.{◌≡◌, ℕ, Bool, ◌+◌, ◌<◌, length, drop};
ghost use Rattle.text.specs.Fronts.{front};

// The place after the bytes at i that pass a test: i itself where there is none.
pub fn run_end<P: Fn(u8) -> bool>(s: &[u8], i: usize, passes: P) -> usize
    requires { P.IsAlwaysCallable passes }
    ensures { (p : ℕ → Bool) → ((b : ℕ) (t : Bool) → b < 256 → P.post passes b t → t ≡ p b)
        → result ≡ i + length (front p (drop i s.now)) }
{
    for end in i..s.len() {
        if !passes(s[end]) {
            return end;
        }
    }
    i.max(s.len())
}
