// The parts of a sheet as numbers: for each its count of notes, and its notes.

use crate::words;
use sheet::note::Note;

fn note(out: &mut [u8], from: usize, n: &Note) -> usize {
    let mut at = words::bits(out, from, n.amplitude);
    at = words::bits(out, at, n.frequency);
    at = words::bits(out, at, n.duration);
    words::number(out, at, n.instrument)
}

// The notes of one part.
fn own_notes(out: &mut [u8], from: usize, notes: &[Note]) -> usize {
    let mut at = from;
    for own in notes {
        at = note(out, at, own);
    }
    at
}

// Puts the first `parts` parts at place `from`, at most 16 of them with 2,048 notes together, and says where the next number comes.
pub fn put(
    out: &mut [u8],
    from: usize,
    parts: usize,
    counts: &[usize; 16],
    notes: &[Note; 2048],
) -> usize {
    let mut at = from;
    let mut left: &[Note] = notes;
    for count in counts.iter().take(parts) {
        at = words::number(out, at, *count);
        let (own, others) = left.split_at((*count).min(left.len()));
        at = own_notes(out, at, own);
        left = others;
    }
    at
}
