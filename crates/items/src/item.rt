// The items of a body as they are written: the item at a place of a text, and the place after it. The table of
// beginnings is read in three functions, each of which has some rows and hands on what is left.

ghost use Rattle.std.specs.Prelude.{◌≡◌, ◌+◌, ◌<◌, length, drop, get_or};
ghost use Rattle.std.specs.Result.{result_ok};
ghost use Rattle.text.specs.Parsed.{next_or};
ghost use Rattle.items.specs.Items.{is_note_letter, note_at, item_at};
ghost use Rattle.items.specs.Steps.{Stands, rows_from};
ghost use Rattle.items.specs.Written.{FoundAt, is_call};

use keys::key::{Accidental, Key, is_key_letter, key_at, note_accidental_at};
use number::decimal::{NoDecimal, eat_float};
use number::digits::eat_int;
use text::blanks::ink_end;
use text::characters::stands_at;
use text::parsed::{Parsed, next_or};

// The most that a value, an octave or a tempo may be as a digit run.
const VALUE_MOST: u64 = u32::MAX as u64;

// The most that a loop's count may be.
const COUNT_MOST: u64 = u64::MAX;

// A note as it is written: its letter, its accidental, its value and whether it is dotted.
#[derive(Clone, Copy)]
pub struct WrittenNote {
    pub letter: u8,
    pub accidental: Option<Parsed<Accidental>>,
    pub value: Option<Parsed<u64>>,
    pub dotted: bool,
}

// An item as it is written. The name of an instrument or a macro runs from the item's place to its end.
#[derive(Clone, Copy)]
pub enum Item {
    Note(WrittenNote),
    Up,
    Down,
    Opening,
    Cut,
    Closing(Option<Parsed<u64>>),
    Octave(Option<Parsed<u64>>),
    Value(Option<Parsed<u64>>),
    Tempo(Option<Parsed<u64>>),
    Amplitude(Result<Parsed<f32>, NoDecimal>),
    Key(Option<Parsed<Key>>),
    Instrument,
    Call,
    Unknown,
}

// The place after a decimal that was asked for at a place: that place where there is none.
fn decimal_end(decimal: Result<Parsed<f32>, NoDecimal>, at: usize) -> usize
    ensures { result ≡ next_or at (result_ok decimal) }
{
    match decimal {
        Ok(found) => found.next,
        Err(NoDecimal::Unreadable) => at,
        Err(NoDecimal::TooLong) => at,
    }
}

// Whether b is one of the letters a to g, or r.
#[tactic(auto, unfolding(crate::specs::Items::is_note_letter))]
fn is_note_letter(b: u8) -> bool
    ensures { result ≡ is_note_letter b }
{
    is_key_letter(b) || b == b'r'
}

// The note at place `at` whose letter stands there: behind it an accidental, a value and a dot, each or none.
fn note_at(text: &[u8], at: usize, letter: u8) -> Parsed<Item>
    requires { at < length text.now }
    ensures { Stands text.now at (note_at letter (drop (at + 1) text.now)) result }
{
    let from = at + 1;
    let accidental = note_accidental_at(text, from);
    let behind = next_or(accidental, from);
    let value = eat_int(text, behind, VALUE_MOST);
    let end = next_or(value, behind);
    let dotted = stands_at(text, end, b'.');
    let next = if dotted { end + 1 } else { end };
    let note = WrittenNote {
        letter,
        accidental,
        value,
        dotted,
    };
    Parsed {
        value: Item::Note(note),
        next,
    }
}

// The item at place `at`, where the character b stands, by the last four rows of the table: `v`, `k`, `@` and `!`.
fn other_at(text: &[u8], at: usize, b: u8) -> Parsed<Item>
    requires { (at < length text.now) × (b ≡ get_or text.now at 0) }
    ensures { Stands text.now at (rows_from 8 b (drop (at + 1) text.now)) result }
{
    let from = at + 1;
    let (value, next) = match b {
        b'v' => {
            let amplitude = eat_float(text, from);
            (Item::Amplitude(amplitude), decimal_end(amplitude, from))
        }
        b'k' => {
            let key = key_at(text, from);
            (Item::Key(key), next_or(key, from))
        }
        b'@' => {
            let name_end = ink_end(text, from);
            (Item::Instrument, name_end)
        }
        b'!' => {
            let name_end = ink_end(text, from);
            (Item::Call, name_end)
        }
        _ => (Item::Unknown, from),
    };
    Parsed { value, next }
}

// The item at place `at`, where the character b stands, by the table without its first four rows: `]`, `o`, `l` and `t`
// take a digit run, and `other_at` has the rest.
fn command_at(text: &[u8], at: usize, b: u8) -> Parsed<Item>
    requires { (at < length text.now) × (b ≡ get_or text.now at 0) }
    ensures { Stands text.now at (rows_from 4 b (drop (at + 1) text.now)) result }
{
    let from = at + 1;
    let (value, next) = match b {
        b']' => {
            let count = eat_int(text, from, COUNT_MOST);
            (Item::Closing(count), next_or(count, from))
        }
        b'o' => {
            let octave = eat_int(text, from, VALUE_MOST);
            (Item::Octave(octave), next_or(octave, from))
        }
        b'l' => {
            let value = eat_int(text, from, VALUE_MOST);
            (Item::Value(value), next_or(value, from))
        }
        b't' => {
            let tempo = eat_int(text, from, VALUE_MOST);
            (Item::Tempo(tempo), next_or(tempo, from))
        }
        _ => return other_at(text, at, b),
    };
    Parsed { value, next }
}

// The item at place `at` of a text, where a byte stands.
fn found_at(text: &[u8], at: usize) -> Parsed<Item>
    requires { at < length text.now }
    ensures { Stands text.now at (item_at (get_or text.now at 0) (drop (at + 1) text.now)) result }
{
    let b = text[at];
    if is_note_letter(b) {
        return note_at(text, at, b);
    }
    let next = at + 1;
    let value = match b {
        b'>' => Item::Up,
        b'<' => Item::Down,
        b'[' => Item::Opening,
        b':' => Item::Cut,
        _ => return command_at(text, at, b),
    };
    Parsed { value, next }
}

// The item at place `at` of a text, which is no blank and no `;`, and the place after it. Past the text's end it is
// unknown, and nothing is passed over. Its numbers, accidentals and keys have the places where their readers stopped.
// In `c4 e` the item at 0 is a note of value 4, and ends at 2.
pub fn item_at(text: &[u8], at: usize) -> Parsed<Item>
    ensures { FoundAt text.now at result }
{
    if at >= text.len() {
        return Parsed {
            value: Item::Unknown,
            next: at,
        };
    }
    found_at(text, at)
}

// Whether an item is a macro call.
#[tactic(auto, unfolding(crate::specs::Written::is_call))]
pub fn is_call(item: Item) -> bool
    ensures { result ≡ is_call item }
{
    matches!(item, Item::Call)
}
