// Numbers of four bytes in a slice, the lowest first.

ghost use Rattle.std.specs.Prelude.{◌≡◌, ◌+◌, ◌<◌, length};
ghost use Rattle.std.proofs.lemmas.List.Edits.{sets};
ghost use Rattle.fields.specs.Word.{word_at, bytes_of};

// The number of four bytes at place i.
pub fn word(s: &[u8], i: usize) -> u32
    requires { i + 3 < length s.now }
    ensures { result ≡ word_at s.now i }
{
    u32::from_le_bytes([s[i], s[i + 1], s[i + 2], s[i + 3]])
}

// Puts the four bytes of a number at place i.
pub fn put(s: &mut [u8], i: usize, w: u32)
    requires { i + 3 < length s.old }
    ensures { s.new ≡ sets s.old i (bytes_of w) }
{
    let bytes = w.to_le_bytes();
    s[i..i + 4].copy_from_slice(&bytes);
}
