// A note in its place in the columns. The column of numbers has three for each note, its amplitude,
// its frequency and its duration, and a column of bytes has the instruments.

ghost use Rattle.std.specs.Prelude.{◌≡◌, List, ℕ, ◌≤◌, length};
ghost use Rattle.sheet.specs.Capacities.{instruments_most};
ghost use Rattle.keys.specs.Keys.{accidental_found};
ghost use Rattle.environment.specs.Ranges.{digit_run};
ghost use Rattle.notes.specs.Notes.{value_of};
ghost use Rattle.tables.specs.Named.{Macro};
ghost use Rattle.part.specs.Body.{noted as notedIs};
ghost use Rattle.part.specs.Columns.{Room, Deep, Becomes, progress_of, book_of, laid};

use crate::state::{NOTES, State};
use environment::environment::Environment;
use items::item::WrittenNote;
use notes::note::{amplitude, is_counted, semitone, value};
use sheet::refusal::Refusal;
use tone::power::frequency;
use tone::time::duration;

// A note at the end of its part, where there is room for one more.
fn push(
    floats: &mut [f32],
    instruments: &mut [u8],
    st: State,
    line: usize,
    a: f32,
    f: f32,
    d: f32,
    i: u8,
) -> State
    requires { (st.refusal ≡ 0) × Room st floats.old instruments.old }
    ensures { (ls : List ℕ) → Deep st ls → Becomes
        (laid line (record { amplitude = a; frequency = f; duration = d; instrument = i })
        (progress_of st floats.old instruments.old ls))
        result floats.new instruments.new ls }
{
    let n = st.count;
    if st.others + n >= NOTES {
        return st.refused(Refusal::Full, line);
    }
    let at = 3 * n;
    floats[at] = a;
    floats[at + 1] = f;
    floats[at + 2] = d;
    instruments[n] = i;
    State { count: n + 1, ..st }
}

// A note as it is written, at the end of its part: refused where its value is out of range, where it is too long, and
// where there is no room.
pub(crate) fn noted(
    releases: &[f32],
    floats: &mut [f32],
    instruments: &mut [u8],
    st: State,
    line: usize,
    rate: u32,
    note: WrittenNote,
) -> State
    requires { (st.refusal ≡ 0) × ((length releases.now ≤ instruments_most) × Room st floats.old instruments.old) }
    ensures { (ms : List Macro) (ns : List (List ℕ)) (ls : List ℕ) → Deep st ls →
        let book = book_of rate ms ns releases.now in
        let own = value_of st.env (digit_run note.value) in
        let before = progress_of st floats.old instruments.old ls in
        Becomes (notedIs book line note.letter (accidental_found note.accidental) own note.dotted before)
        result floats.new instruments.new ls }
{
    let env = st.env;
    let v = value(env, note.value);
    if v < u64::from(Environment::MIN_VALUE) || v > u64::from(Environment::MAX_VALUE) {
        return st.refused(Refusal::OutOfRange, line);
    }
    let d = duration(env.tempo, env.denominator, v as u32, note.dotted);
    let i = env.instrument;
    if i >= releases.len() || !is_counted(d + releases[i], rate) {
        return st.refused(Refusal::NoteTooLong, line);
    }
    let f = frequency(semitone(env, note.letter, note.accidental));
    let a = amplitude(env, note.letter);
    push(floats, instruments, st, line, a, f, d, i as u8)
}
