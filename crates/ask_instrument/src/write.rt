// Numbers and floats on standard output: four bytes each, the lowest first. A float is written as its
// bit pattern.

ghost use Rattle.std.specs.Prelude.{◌≤◌, length};

use fields::float;
use fields::word::put;

// Standard output.
const STDOUT_FILENO: i32 = 1;

pub fn number(w: u32) {
    io::write_all(STDOUT_FILENO, &w.to_le_bytes());
}

// A whole slice, in one call of the system's.
pub fn floats(xs: &[f32])
    requires { length xs.now ≤ 512 }
{
    let mut bytes = [0u8; 2048];
    for (i, x) in xs.iter().enumerate() {
        put(&mut bytes, i * 4, float::to_bits(*x));
    }
    io::write_all(STDOUT_FILENO, &bytes[..xs.len() * 4]);
}
