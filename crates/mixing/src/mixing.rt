// Mixes the notes of a sheet into a lent slice, one note after the other.

ghost use Rattle.std.specs.Prelude.{◌≡◌, ◌+◌, ◌-◌, ◌*◌, ◌≤◌, ◌<◌, min, length};
ghost use Rattle.sine.specs.Quarter.{quarter};
ghost use Rattle.tone.specs.Time.{note_most};
ghost use Rattle.sheet.specs.Capacities.{notes_most};
ghost use Rattle.mixing.specs.Placing.{sounds_of, placed_note, placed};
ghost use Rattle.mixing.specs.Mixing.{mix_one, mix_all};

use handed::check::released;
use instrument::machine::Instrument;
use sheet::length::samples;
use sheet::note::Note;
use sheet::sheet::{INSTRUMENTS_MOST, NOTES_MOST, PARTS_MOST, Sheet};

// Mixes into a slice, whose first element is sample `from`, a note that starts at sample `start` and sounds in the elements from a to e. The
// sine's table is lent, so that it is made once for all notes.
fn mix_note(
    table: &[u32; 1025],
    out: &mut [f32],
    from: usize,
    by: Instrument,
    note: Note,
    rate: u32,
    start: usize,
    a: usize,
    e: usize,
    covered: usize,
)
    requires { (table.now ≡ quarter) × (start ≤ notes_most * note_most) × (a ≡ start - from) × (e ≡ min (start + sounds_of rate by note - from) (length out.old)) × (a < e) }
    ensures { out.new ≡ mix_one covered (placed_note rate by note start) from out.old }
{
    let first = (from + a) - start;
    let added = covered.saturating_sub(from + a);
    by.fill_by(
        table,
        &mut out[a..e],
        note.amplitude,
        note.frequency,
        note.duration,
        rate,
        first,
        added,
    );
}

// Mixes the notes of a sheet into a slice whose first element is sample `from`. It asks nothing of the sheet: past a count nothing is mixed, and a
// note without a number of samples does not sound.
pub fn mix(sheet: Sheet, out: &mut [f32], rate: u32, from: usize)
    ensures { out.new ≡ mix_all 0 (placed rate sheet) from out.old }
{
    let table = sine::quarter::table();
    let instruments = sheet.instruments.min(INSTRUMENTS_MOST);
    let parts = sheet.parts.min(PARTS_MOST);
    let mut covered: usize = 0;
    let mut n: usize = 0;
    for p in 0..parts {
        let stop = n + sheet.counts[p].min(NOTES_MOST - n);
        let mut at: usize = 0;
        for k in n..stop {
            let note = sheet.notes[k];
            let place = note.instrument.min(INSTRUMENTS_MOST - 1);
            let release = released(sheet.table[place], note.instrument < instruments);
            let sounds = samples(note.duration + release, rate) as usize;
            let takes = samples(note.duration, rate) as usize;
            let end = at + sounds;
            let a = at.saturating_sub(from);
            let e = end.saturating_sub(from).min(out.len());
            if a < e {
                let by = sheet.table[place];
                mix_note(&table, out, from, by, note, rate, at, a, e, covered);
            }
            covered = covered.max(end);
            at += takes;
        }
        n = stop;
    }
}
