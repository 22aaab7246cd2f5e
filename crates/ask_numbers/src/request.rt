// The text of a request, and the place in it to read at.

ghost use Rattle.std.specs.Prelude.{◌≡◌, length};
ghost use Rattle.ask_numbers.specs.Request.{text_of, place_of};

// The text: as many bytes as byte 1 says from byte 3 on, or all that there are.
pub fn text(s: &[u8]) -> &[u8]
    requires { length s.now ≡ 32 }
    ensures { result.now ≡ text_of s.now }
{
    let n = s[1] as usize;
    if n > 29 {
        return &s[3..];
    }
    let end = 3 + n;
    &s[3..end]
}

// The place in the text to read at.
pub fn place(s: &[u8]) -> usize
    requires { length s.now ≡ 32 }
    ensures { result ≡ place_of s.now }
{
    s[2] as usize
}
