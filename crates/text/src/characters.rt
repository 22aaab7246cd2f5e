// Single characters of a text, and whether two texts are the same.

ghost use Rattle.std.specs.Prelude.{◌≡◌, drop};
ghost use Rattle.text.specs.Characters.{starts_with, same};

// Whether the byte b stands at place i.
pub fn stands_at(s: &[u8], i: usize, b: u8) -> bool
    ensures { result ≡ starts_with b (drop i s.now) }
{
    match s.get(i) {
        Some(at) => *at == b,
        None => false,
    }
}

// Whether two texts are the same, byte for byte.
pub fn same_text(s: &[u8], t: &[u8]) -> bool
    ensures { result ≡ same s.now t.now }
{
    if s.len() != t.len() {
        return false;
    }
    for at in 0..s.len() {
        if s[at] != t[at] {
            return false;
        }
    }
    true
}
