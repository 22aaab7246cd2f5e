// Samples from bytes: the floats whose bit patterns four bytes each are.

ghost use Rattle.std.specs.Prelude.{◌≡◌, ◌/◌, ◌≤◌, min, length, take};
ghost use Rattle.std.proofs.lemmas.List.Edits.{sets};
ghost use Rattle.ask_wave.specs.Request.{floats_from};

use fields::float::of_bits;
use fields::word::word;

// Reads as many floats as the bytes hold and as `out` has room for, and says how many.
pub fn read(bytes: &[u8], out: &mut [f32]) -> usize
    ensures count { result ≡ min (length bytes.now / 4) (length out.old) }
    ensures within { (result ≤ length out.new) × (result ≡ length (take result out.new)) }
    ensures floats { out.new ≡ sets out.old 0 (floats_from bytes.now 0 result) }
{
    let n = (bytes.len() / 4).min(out.len());
    for i in 0..n {
        out[i] = of_bits(word(bytes, 4 * i));
    }
    n
}
