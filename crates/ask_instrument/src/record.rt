// The fields of a record of 32 bytes: eight numbers of four bytes each, the lowest byte first. The first
// is the record's kind; two neighbours make a number of eight bytes.

ghost use Rattle.std.specs.Prelude.{◌≡◌, ◌<◌, length};

use fields::float;

// Field k.
pub fn word(s: &[u8], k: usize) -> u32
    requires { (length s.now ≡ 32) × (k < 8) }
{
    fields::word::word(s, k * 4)
}

// Fields k and k + 1 as one number.
pub fn long(s: &[u8], k: usize) -> usize
    requires { (length s.now ≡ 32) × (k < 7) }
{
    word(s, k) as usize + word(s, k + 1) as usize * 0x1_0000_0000
}

// Field k as the bits of a float.
pub fn float(s: &[u8], k: usize) -> f32
    requires { (length s.now ≡ 32) × (k < 8) }
{
    float::of_bits(word(s, k))
}
