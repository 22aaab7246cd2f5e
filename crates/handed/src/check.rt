// A sheet is a public struct that anyone can fill with anything: these functions find out whether what it counts can
// be rendered.

ghost use Rattle.std.specs.Prelude.{◌≡◌, true, false, ◌&&◌, ◌≤◌, min, ltb, length, take, Float};
ghost use Rattle.std.specs.Float.{nan};
ghost use Rattle.ieee.specs.Times.{is_time};
ghost use Rattle.tone.specs.Time.{length_of as length_in};
ghost use Rattle.sheet.specs.Parts.{counts_of, total, instruments_of, length_of};
ghost use Rattle.handed.specs.Check.{all, command_passes, instrument_passes, note_passes, counted_of, walked_of, checked_of};

use instrument::machine::{Command, Instrument};
use sheet::length::samples;
use sheet::note::Note;
use sheet::refusal::Refusal;
use sheet::sheet::{INSTRUMENTS_MOST, NOTES_MOST, PARTS_MOST, Sheet};
use tone::time::{Uncounted, sec_to_len};

// The most commands of an instrument, the highest feedback of a command, and the most samples of a sheet.
const COMMANDS_MOST: usize = 64;

const FEEDBACK_MOST: u32 = 255;

const SAMPLES_MOST: usize = 2000000000;

// Whether a command's feedback is within its limit.
fn command_passes(command: Command) -> bool
    ensures { result ≡ command_passes command }
{
    match command {
        Command::Operator(op) => op.feedback <= FEEDBACK_MOST,
        Command::Stack(_) => true,
    }
}

// Whether an instrument passes, with the commands that it counts.
fn instrument_passes(by: &Instrument) -> bool
    ensures { result ≡ instrument_passes by.now }
{
    if by.count > COMMANDS_MOST {
        return false;
    }
    if !(0.0 <= by.release) {
        return false;
    }
    by.commands[..by.count]
        .iter()
        .all(|slot| command_passes(slot.command))
}

// Whether the instruments that a sheet counts pass.
fn instruments_pass(sheet: &Sheet) -> bool
    requires { length sheet.now.table ≡ 32 }
    ensures { result ≡ all instrument_passes (instruments_of sheet.now) }
{
    let most = sheet.instruments.min(INSTRUMENTS_MOST);
    sheet.table[..most].iter().all(instrument_passes)
}

// How many notes the first so many parts have: 2,049 where they have more than a sheet holds.
fn notes_in(counts: [usize; PARTS_MOST], parts: usize) -> usize
    ensures { result ≡ min (total (take parts counts)) 2049 }
{
    let most = parts.min(PARTS_MOST);
    let mut sum = 0;
    for count in &counts[..most] {
        sum += (NOTES_MOST + 1 - sum).min(*count);
    }
    sum
}

// Seconds counted in samples: how many they take, if one note may last so long.
fn counted(seconds: f32, rate: u32) -> Option<u64>
    ensures { result ≡ counted_of (length_in rate seconds) }
{
    match sec_to_len(seconds, rate) {
        Ok(n) => Some(n),
        Err(Uncounted::NotANumber) => None,
        Err(Uncounted::Negative) => None,
        Err(Uncounted::TooMany) => None,
    }
}

// Whether a note passes, of so many instruments, and with its release counted or not.
fn note_passes(note: Note, instruments: usize, within: bool) -> bool
    ensures { result ≡ (ltb note.instrument instruments && (is_time note.duration && within)) }
{
    if note.instrument >= instruments {
        return false;
    }
    if !(0.0 <= note.duration) {
        return false;
    }
    within
}

// The release of an instrument, if it is one of the sheet's, and else no number.
pub fn released(by: Instrument, known: bool) -> f32
    ensures { result ≡ elim known as (λ b. Float) [ true ↦ by.release | false ↦ nan ] }
{
    if known { by.release } else { f32::NAN }
}

// Goes through the notes of a sheet once: where all pass, the sheet's length in samples, the largest end of its notes.
fn walk(sheet: &Sheet, rate: u32) -> Result<usize, Refusal>
    ensures { result ≡ walked_of rate sheet.now }
{
    let instruments = sheet.instruments.min(INSTRUMENTS_MOST);
    let parts = sheet.parts.min(PARTS_MOST);
    let mut end: u64 = 0;
    let mut n: usize = 0;
    for p in 0..parts {
        let stop = n + sheet.counts[p].min(NOTES_MOST - n);
        let mut start: u64 = 0;
        for k in n..stop {
            let note = sheet.notes[k];
            let place = note.instrument.min(INSTRUMENTS_MOST - 1);
            let release = released(sheet.table[place], note.instrument < instruments);
            let sounds = counted(note.duration + release, rate);
            if !note_passes(note, instruments, sounds.is_some()) {
                return Err(Refusal::NoSheet);
            }
            let heard = sounds.unwrap_or(0);
            let lasts = samples(note.duration, rate);
            end = end.max(start + heard);
            start += lasts;
        }
        n = stop;
    }
    Ok(end as usize)
}

// Checks a sheet at a rate, and counts its samples.
pub fn check(sheet: Sheet, rate: u32) -> Result<usize, Refusal>
    ensures { result ≡ checked_of rate sheet }
{
    if sheet.parts > PARTS_MOST {
        return Err(Refusal::NoSheet);
    }
    if sheet.instruments > INSTRUMENTS_MOST {
        return Err(Refusal::NoSheet);
    }
    let count = notes_in(sheet.counts, sheet.parts);
    if count > NOTES_MOST {
        return Err(Refusal::NoSheet);
    }
    if !instruments_pass(&sheet) {
        return Err(Refusal::NoSheet);
    }
    let length = walk(&sheet, rate)?;
    if length > SAMPLES_MOST {
        return Err(Refusal::NoSheet);
    }
    Ok(length)
}
