// The notes of the parts, each in its regions of two columns, one part after the other.

ghost use Rattle.std.specs.Prelude.{◌≡◌, [], ◌+◌, ◌-◌, ◌*◌, ◌<◌, min, length, take, get_or};
ghost use Rattle.ieee.specs.Constants.{plus_zero};
ghost use Rattle.sheet.specs.Capacities.{notes_most, parts_most};
ghost use Rattle.sheet.specs.Padding.{padded, silence};
ghost use Rattle.columns.specs.Columns.{notes_in};
ghost use Rattle.sheet.specs.Lengths.{end_of};
ghost use Rattle.layout.specs.Regions.{region};
ghost use Rattle.layout.specs.Layout.{notes_from, longest_from};

use crate::region::region;
use columns::length::{number_at, part_end};
use sheet::note::Note;

// The most parts of a sheet.
const PARTS: usize = 16;

// The most notes, and as many instruments in a part's region.
const NOTES: usize = 2048;

// A part's region of numbers: three for each note.
const NUMBERS: usize = 3 * NOTES;

// Notes that say nothing.
fn silences() -> [Note; 2048]
    ensures { result ≡ padded notes_most silence [] }
{
    let silence = Note {
        amplitude: 0.0,
        frequency: 0.0,
        duration: 0.0,
        instrument: 0,
    };
    [silence; NOTES]
}

// How many notes the part k has: no more than its region has room for, nor than the column of instruments has there.
fn held(instruments: usize, count: usize, k: usize) -> usize
    requires { k < parts_most }
    ensures { result ≡ min count (min notes_most (instruments - notes_most * k)) }
{
    count.min(NOTES.min(instruments.saturating_sub(NOTES * k)))
}

// The note i of the part k: three floats, and an instrument.
fn note_at(floats: &[f32], instruments: &[u8], k: usize, i: usize) -> Note
    requires { (k < parts_most) × ((i < notes_most) × (notes_most * k + i < length instruments.now)) }
    ensures { result ≡ record { amplitude = get_or floats.now (3 * notes_most * k + 3 * i) plus_zero; frequency = get_or floats.now (3 * notes_most * k + 3 * i + 1) plus_zero; duration = get_or floats.now (3 * notes_most * k + 3 * i + 2) plus_zero; instrument = get_or instruments.now (notes_most * k + i) 0 } }
{
    let at = NUMBERS * k + 3 * i;
    Note {
        amplitude: number_at(floats, at),
        frequency: number_at(floats, at + 1),
        duration: number_at(floats, at + 2),
        instrument: instruments[NOTES * k + i] as usize,
    }
}

// The notes of the first `parts` parts, at most 2,048 of them, and then notes that say nothing.
pub fn notes_of(
    floats: &[f32],
    instruments: &[u8],
    counts: [usize; 16],
    parts: usize,
) -> [Note; 2048]
    ensures { result ≡ padded notes_most silence (take notes_most (notes_from counts floats.now instruments.now 0 (min parts parts_most))) }
{
    let mut notes = silences();
    let mut n = 0;
    for k in 0..parts.min(PARTS) {
        for i in 0..held(instruments.len(), counts[k], k) {
            if n >= NOTES {
                return notes;
            }
            notes[n] = note_at(floats, instruments, k, i);
            n += 1;
        }
    }
    notes
}

// How many notes each of the first `parts` parts has, and then 0.
pub fn counts_of(counts: [usize; 16], parts: usize) -> [usize; 16]
    ensures { result ≡ padded parts_most 0 (take parts counts) }
{
    let many = parts.min(PARTS);
    let mut own = [0; PARTS];
    own[..many].copy_from_slice(&counts[..many]);
    own
}

// The largest end of a sounding note of the part k, which has `count` notes.
fn end_at(
    floats: &[f32],
    instruments: &[u8],
    count: usize,
    k: usize,
    releases: &[f32],
    rate: u32,
) -> u64
    ensures { result ≡ end_of rate releases.now 0 (notes_in (region (3 * notes_most) k floats.now) (take count (region notes_most k instruments.now))) }
{
    part_end(
        region(floats, NUMBERS, k),
        region(instruments, NOTES, k),
        count,
        releases,
        rate,
    )
}

// The largest end of a sounding note of the first `parts` parts, in samples: 0 where there is none.
pub fn longest(
    floats: &[f32],
    instruments: &[u8],
    counts: [usize; 16],
    parts: usize,
    releases: &[f32],
    rate: u32,
) -> u64
    ensures { result ≡ longest_from counts floats.now instruments.now rate releases.now 0 (min parts parts_most) }
{
    let mut end: u64 = 0;
    for k in 0..parts.min(PARTS) {
        let ends = end_at(floats, instruments, counts[k], k, releases, rate);
        end = end.max(ends);
    }
    end
}
