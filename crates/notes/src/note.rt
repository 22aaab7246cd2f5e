// What a written note sounds like: its semitone, how loud it is, its value, and whether it is too long.

ghost use Rattle.std.specs.Prelude.{◌≡◌, ◌≤◌};
ghost use Rattle.tone.specs.Time.{length_of};
ghost use Rattle.keys.specs.Keys.{moved_by, keyed, accidental_found};
ghost use Rattle.environment.specs.Ranges.{digit_run};
ghost use Rattle.sheet.specs.Lengths.{is_counted};
ghost use Rattle.notes.specs.Notes.{offset_of, semitone_within, amplitude_of, value_of};

use environment::environment::Environment;
use keys::key::{Accidental, Key};
use text::parsed::Parsed;
use tone::time::sec_to_len;

// How many semitones an octave has.
const SEMITONES: u32 = 12;

// How far a letter lies above c.
#[tactic(auto, unfolding(crate::specs::Notes::offset_of))]
fn offset(letter: u8) -> u32
    ensures { (result ≡ offset_of letter) × (result ≤ 11) }
{
    match letter {
        b'c' => 0,
        b'd' => 2,
        b'e' => 4,
        b'f' => 5,
        b'g' => 7,
        b'a' => 9,
        b'b' => 11,
        _ => 0,
    }
}

// A semitone moved by an accidental.
#[tactic(auto, unfolding(keys::specs::Keys::moved_by))]
fn moved_by(a: Accidental, s: u32) -> u32
    requires { s ≤ 1000 }
    ensures { result ≡ moved_by a s }
{
    match a {
        Accidental::DoubleFlat => s.saturating_sub(2),
        Accidental::Flat => s.saturating_sub(1),
        Accidental::Natural => s,
        Accidental::Sharp => s + 1,
        Accidental::DoubleSharp => s + 2,
    }
}

// A note's own accidental, or where it has none the key's.
#[tactic(auto, unfolding(keys::specs::Keys::keyed, keys::specs::Keys::accidental_found))]
fn accidental(key: Key, letter: u8, own: Option<Parsed<Accidental>>) -> Accidental
    ensures { result ≡ keyed key letter (accidental_found own) }
{
    match own {
        Some(found) => found.value,
        None => key.get(letter),
    }
}

// A note's semitone, counted from c of octave 0. Past the highest octave it is 0.
pub fn semitone(env: Environment, letter: u8, own: Option<Parsed<Accidental>>) -> u32
    ensures { result ≡ semitone_within env letter (accidental_found own) }
{
    if env.octave > Environment::MAX_OCTAVE {
        return 0;
    }
    let natural = SEMITONES * env.octave + offset(letter);
    moved_by(accidental(env.key, letter, own), natural)
}

// A rest has amplitude 0.
#[tactic(auto, unfolding(crate::specs::Notes::amplitude_of))]
pub fn amplitude(env: Environment, letter: u8) -> f32
    ensures { result ≡ amplitude_of env letter }
{
    if letter == b'r' { 0.0 } else { env.amplitude }
}

// A note's own value, or where it has none the environment's.
#[tactic(auto, unfolding(crate::specs::Notes::value_of, environment::specs::Ranges::digit_run))]
pub fn value(env: Environment, own: Option<Parsed<u64>>) -> u64
    ensures { result ≡ value_of env (digit_run own) }
{
    match own {
        Some(written) => written.value,
        None => u64::from(env.value),
    }
}

// Whether so many seconds have a number of samples that one note may have.
#[tactic(auto, unfolding(sheet::specs::Lengths::is_counted))]
pub fn is_counted(seconds: f32, rate: u32) -> bool
    ensures { result ≡ is_counted (length_of rate seconds) }
{
    sec_to_len(seconds, rate).is_ok()
}
