// Keys and accidentals (the Rust's `key.rs` and `Accidental`). A reader takes a text and a place in it, and answers with what
// it found and the place after it.

ghost use Rattle.std.specs.Prelude.{◌≡◌, ◌+◌, length, drop};
ghost use Rattle.text.specs.Fronts.{front};
ghost use Rattle.keys.specs.Keys.{mark_at, note_mark_at, is_key_letter, among, key_at, in_key, accidental_in};

use text::characters::stands_at;
use text::parsed::Parsed;
use text::runs::run_end;

// How a note is raised or lowered.
#[derive(Clone, Copy)]
pub enum Accidental {
    DoubleFlat,
    Flat,
    Natural,
    Sharp,
    DoubleSharp,
}

// Which of the letters a to g are raised or lowered, and how.
#[derive(Clone, Copy)]
pub struct Key {
    pub a: bool,
    pub b: bool,
    pub c: bool,
    pub d: bool,
    pub e: bool,
    pub f: bool,
    pub g: bool,
    pub accidental: Accidental,
}

// The accidental at place i: one of `+`, `-` and `=`.
pub(crate) fn accidental_at(s: &[u8], i: usize) -> Option<Parsed<Accidental>>
    ensures { result ≡ mark_at s.now i }
{
    let value = match s.get(i)? {
        b'+' => Accidental::Sharp,
        b'-' => Accidental::Flat,
        b'=' => Accidental::Natural,
        _ => return None,
    };
    Some(Parsed { value, next: i + 1 })
}

// The accidental of a note at a place, which may be doubled: `++` raises by two.
pub fn note_accidental_at(s: &[u8], at: usize) -> Option<Parsed<Accidental>>
    ensures { result ≡ note_mark_at s.now at }
{
    let sign = *s.get(at)?;
    let doubled = stands_at(s, at + 1, sign);
    let (value, next) = match sign {
        b'+' if doubled => (Accidental::DoubleSharp, at + 2),
        b'+' => (Accidental::Sharp, at + 1),
        b'-' if doubled => (Accidental::DoubleFlat, at + 2),
        b'-' => (Accidental::Flat, at + 1),
        b'=' => (Accidental::Natural, at + 1),
        _ => return None,
    };
    Some(Parsed { value, next })
}

// Whether b is one of the letters a to g.
#[tactic(auto, unfolding(crate::specs::Keys::is_key_letter))]
pub fn is_key_letter(b: u8) -> bool
    ensures { result ≡ is_key_letter b }
{
    matches!(b, b'a'..=b'g')
}

// The place after the letters a to g that stand at i.
fn letters_end(s: &[u8], i: usize) -> usize
    ensures { result ≡ i + length (front is_key_letter (drop i s.now)) }
{
    run_end(s, i, |b| is_key_letter(b))
}

// Whether a letter is among letters.
fn is_among(letters: &[u8], letter: u8) -> bool
    ensures { result ≡ among letters.now letter }
{
    letters.contains(&letter)
}

// The key at place i: letters a to g, none or many, and then an accidental.
pub fn key_at(s: &[u8], i: usize) -> Option<Parsed<Key>>
    ensures { result ≡ key_at s.now i }
{
    let end = letters_end(s, i);
    let mark = accidental_at(s, end)?;
    let letters = &s[i..end];
    let value = Key {
        a: is_among(letters, b'a'),
        b: is_among(letters, b'b'),
        c: is_among(letters, b'c'),
        d: is_among(letters, b'd'),
        e: is_among(letters, b'e'),
        f: is_among(letters, b'f'),
        g: is_among(letters, b'g'),
        accidental: mark.value,
    };
    let next = mark.next;
    Some(Parsed { value, next })
}

impl Key {
    // Whether a letter is in the key.
    #[tactic(auto, unfolding(crate::specs::Keys::in_key, text::specs::Characters::row_of))]
    fn has(self, letter: u8) -> bool
        ensures { result ≡ in_key self letter }
    {
        match letter {
            b'a' => self.a,
            b'b' => self.b,
            b'c' => self.c,
            b'd' => self.d,
            b'e' => self.e,
            b'f' => self.f,
            b'g' => self.g,
            _ => false,
        }
    }

    // The accidental that the key gives to a letter: none, natural, where the letter is not in the key.
    #[tactic(auto, unfolding(crate::specs::Keys::accidental_in))]
    pub fn get(self, letter: u8) -> Accidental
        ensures { result ≡ accidental_in self letter }
    {
        if self.has(letter) {
            self.accidental
        } else {
            Accidental::Natural
        }
    }
}
