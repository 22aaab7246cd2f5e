// A part's line: its body is read on from the part's state and columns.

ghost use Rattle.std.specs.Prelude.{◌≡◌, true, false, List, ℕ, length, Float};
ghost use Rattle.sheet.specs.Refusals.{Outcome};
ghost use Rattle.part.specs.Body.{Progress};
ghost use Rattle.part.specs.Columns.{Ready, Becomes, book_in};
ghost use Rattle.part.specs.Reading.{is_ready, part_in, state_after, Held};

use crate::body::body;
use crate::state::{Book, Columns, NOTES, OPEN_LOOPS, State};
use environment::environment::Environment;
use sheet::refusal::Refusal;

// How many instruments a sheet may have.
const INSTRUMENTS: usize = 32;

// How deep macro calls may nest.
const NESTED_CALLS: usize = 8;

// Whether a state is that of a part within the capacities, and columns of these lengths have the room for all of it.
#[tactic(auto, unfolding(crate::specs::Reading::is_ready))]
fn is_ready(st: State, floats: usize, instruments: usize, loops: usize, releases: usize) -> bool
    ensures { result ≡ is_ready st floats instruments loops releases }
{
    st.refusal == 0
        && st.env.octave <= Environment::MAX_OCTAVE
        && st.others <= NOTES
        && st.count <= NOTES - st.others
        && st.depth <= OPEN_LOOPS
        && floats == 3 * NOTES
        && instruments == NOTES
        && loops == 2 * OPEN_LOOPS
        && releases <= INSTRUMENTS
}

// What a reading has come to: after a refusal the state is the one from before, with the refusal and its line.
fn settled(st: State, r: State) -> State
    ensures { (o : Outcome Progress) (fs : List Float) (is ls : List ℕ) → Becomes o r fs is ls
        → (result ≡ state_after st o) × (Held o fs is ls × (result.refusal ≡ 0 → Ready result fs is ls)) }
{
    if r.refusal != 0 {
        return State {
            refusal: r.refusal,
            line: r.line,
            ..st
        };
    }
    State { line: 0, ..r }
}

// The body of a part's line, read on from a state and its columns: the state afterwards. The tables are those of the
// macros' names, their bodies and the instruments' names, as places in the source. Where the state is none of a part,
// 21, and the columns stay as they are.
pub fn read_part(
    source: &[u8],
    macros: &[usize],
    bodies: &[usize],
    names: &[usize],
    releases: &[f32],
    text: &[u8],
    floats: &mut [f32],
    instruments: &mut [u8],
    loops: &mut [usize],
    st: State,
    line: usize,
    rate: u32,
) -> State
    ensures state { let book = book_in rate source.now macros.now bodies.now names.now releases.now in
        result ≡ state_after st (part_in book line text.now st floats.old instruments.old loops.old) }
    ensures columns { let book = book_in rate source.now macros.now bodies.now names.now releases.now in
        Held (part_in book line text.now st floats.old instruments.old loops.old)
        floats.new instruments.new loops.new }
    ensures ready { is_ready st (length floats.old) (length instruments.old) (length loops.old)
        (length releases.now) ≡ true
        → result.refusal ≡ 0 → Ready result floats.new instruments.new loops.new }
    ensures kept { is_ready st (length floats.old) (length instruments.old) (length loops.old)
        (length releases.now) ≡ false
        → (floats.new ≡ floats.old)
        × ((instruments.new ≡ instruments.old) × (loops.new ≡ loops.old)) }
{
    if !is_ready(
        st,
        floats.len(),
        instruments.len(),
        loops.len(),
        releases.len(),
    ) {
        return st.refused(Refusal::Full, line);
    }
    let book = Book {
        source,
        macros,
        bodies,
        names,
        releases,
        rate,
    };
    let mut columns = Columns {
        floats,
        instruments,
        loops,
    };
    let r = body(&book, text, &mut columns, st, line, NESTED_CALLS);
    settled(st, r)
}
