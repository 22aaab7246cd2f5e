// The line that tells of a refusal: its words put one behind the other.

ghost use Rattle.std.specs.Prelude.{◌≡◌, ◌+◌, ◌≤◌, length};
ghost use Rattle.refusal.specs.Line.{last_digit, numeral, Adds, line_count, line_in};

// The most bytes that a line has: two numbers of 64 bits have 20 digits each.
const ROOM: usize = 50;

// The last digit of a number.
fn digit(n: u64) -> u8
    ensures { result ≡ last_digit n }
{
    b'0' + (n % 10) as u8
}

// Puts a word behind the first `at` bytes of a text, and says where it ends.
fn add_word(text: &mut [u8], at: usize, word: &[u8]) -> usize
    requires { at + length word.now ≤ length text.old }
    ensures end { result ≡ at + length word.now }
    ensures bytes { Adds text.old at word.now text.new }
{
    let end = at + word.len();
    text[at..end].copy_from_slice(word);
    end
}

// The same with a number's digits: below ten it is one digit, else those of its tenth part stand before the last.
fn add_number(text: &mut [u8], at: usize, n: u64) -> usize
    requires { at + length (numeral n) ≤ length text.old }
    ensures end { result ≡ at + length (numeral n) }
    ensures bytes { Adds text.old at (numeral n) text.new }
{
    let last = [digit(n)];
    if n < 10 {
        return add_word(text, at, &last);
    }
    let behind = add_number(text, at, n / 10);
    add_word(text, behind, &last)
}

// Puts the line of a refusal at a text's start, and says how long it is. Where the text has under 50 bytes
// it stays as it was, and the answer is 0.
pub fn refused_line(number: u32, line: usize, text: &mut [u8]) -> usize
    ensures count { result ≡ line_count number line (length text.old) }
    ensures bytes { text.new ≡ line_in number line text.old }
{
    if text.len() < ROOM {
        return 0;
    }
    let a = add_word(text, 0, b"refused ");
    let b = add_number(text, a, number as u64);
    let c = add_word(text, b, b" ");
    let d = add_number(text, c, line as u64);
    add_word(text, d, b"\n")
}
