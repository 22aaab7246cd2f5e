// Sheets that no reader makes: one field of a sheet becomes what a request says.

use crate::request::Request;
use fields::float::of_bits;
use instrument::machine::{Command, Instrument, Slot};
use operator::operator::Operator;
use sheet::note::Note;
use sheet::sheet::{INSTRUMENTS_MOST, NOTES_MOST, PARTS_MOST, Sheet};

// A number as a count: the largest stands for a count that no sum may take further.
fn count_of(becomes: u32) -> usize {
    if becomes == u32::MAX {
        usize::MAX
    } else {
        becomes as usize
    }
}

// Fields 1 to 3: the numbers of parts and of instruments, and how many notes a part has.
fn counted(sheet: Sheet, asked: Request) -> Sheet {
    let n = count_of(asked.becomes);
    match asked.field {
        1 => Sheet { parts: n, ..sheet },
        2 => Sheet {
            instruments: n,
            ..sheet
        },
        _ => {
            let mut counts = sheet.counts;
            counts[(asked.which as usize).min(PARTS_MOST - 1)] = n;
            Sheet { counts, ..sheet }
        }
    }
}

// Fields 4, 5, 9 and 10: a note's instrument, its duration, its amplitude and its frequency.
fn note_with(note: Note, field: u32, becomes: u32) -> Note {
    match field {
        4 => Note {
            instrument: count_of(becomes),
            ..note
        },
        5 => Note {
            duration: of_bits(becomes),
            ..note
        },
        9 => Note {
            amplitude: of_bits(becomes),
            ..note
        },
        10 => Note {
            frequency: of_bits(becomes),
            ..note
        },
        _ => note,
    }
}

fn noted(sheet: Sheet, asked: Request) -> Sheet {
    let mut notes = sheet.notes;
    let k = (asked.which as usize).min(NOTES_MOST - 1);
    notes[k] = note_with(notes[k], asked.field, asked.becomes);
    Sheet { notes, ..sheet }
}

// Field 8: the feedback of an instrument's first command, which becomes a plain operator.
fn fed_back(becomes: u32) -> Slot {
    let op = Operator {
        amplitude: 1.0,
        freqratio: 1.0,
        attack: 0.0,
        decay: 0.0,
        sustain: 1.0,
        release: 0.0,
        feedback: becomes,
    };
    Slot {
        command: Command::Operator(op),
    }
}

// Field 11: the first command sets the value aside for so many operators.
fn set_aside(becomes: u32) -> Slot {
    Slot {
        command: Command::Stack(count_of(becomes)),
    }
}

// Fields 6 to 8 and 11: an instrument's release, how many commands it counts, a feedback, and a first command that sets
// aside.
fn instrument_with(by: Instrument, field: u32, becomes: u32) -> Instrument {
    let mut commands = by.commands;
    match field {
        6 => Instrument {
            release: of_bits(becomes),
            ..by
        },
        7 => Instrument {
            count: count_of(becomes),
            ..by
        },
        8 => {
            commands[0] = fed_back(becomes);
            Instrument { commands, ..by }
        }
        11 => {
            commands[0] = set_aside(becomes);
            Instrument { commands, ..by }
        }
        _ => by,
    }
}

fn played(sheet: Sheet, asked: Request) -> Sheet {
    let mut table = sheet.table;
    let k = (asked.which as usize).min(INSTRUMENTS_MOST - 1);
    table[k] = instrument_with(table[k], asked.field, asked.becomes);
    Sheet { table, ..sheet }
}

// The sheet as the request wants it.
pub fn to(sheet: Sheet, asked: Request) -> Sheet {
    match asked.field {
        0 => sheet,
        1..=3 => counted(sheet, asked),
        4 | 5 | 9 | 10 => noted(sheet, asked),
        _ => played(sheet, asked),
    }
}
