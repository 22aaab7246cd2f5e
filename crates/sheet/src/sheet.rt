// The sheet: the notes of its parts one part after the other, and its instruments. Elements past a count say nothing.

use crate::note::Note;
use instrument::machine::Instrument;

// How many parts, notes and instruments a sheet holds.
pub const PARTS_MOST: usize = 16;

pub const NOTES_MOST: usize = 2048;

pub const INSTRUMENTS_MOST: usize = 32;

#[derive(Clone, Copy)]
pub struct Sheet {
    // How many parts there are, and how many notes each of them has, in order of first appearance.
    pub parts: usize,
    pub counts: [usize; PARTS_MOST],
    pub notes: [Note; NOTES_MOST],
    // How many instruments there are; the first is the default one.
    pub instruments: usize,
    pub table: [Instrument; INSTRUMENTS_MOST],
}
