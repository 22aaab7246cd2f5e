// Loops (the Rust's `LoopInfo`): `[` opens one, `:` cuts it, `]` closes it. The column of the open loops has two places
// for each: how many notes the part had where it opens, and its cut, 0 for none, else the place and one. A loop's notes
// are the last ones of its part, so closing lays the further passes down behind them.

ghost use Rattle.std.specs.Prelude.{◌≡◌, List, ℕ, ◌≤◌, Float};
ghost use Rattle.sheet.specs.Capacities.{notes_most};
ghost use Rattle.environment.specs.Ranges.{digit_run};
ghost use Rattle.part.specs.Body.{Book, opened as openedIs, cut_here as cutIs, closed as closedIs};
ghost use Rattle.part.specs.Columns.{Room, Deep, Becomes, progress_of};

use crate::state::{NOTES, OPEN_LOOPS, State};
use loops::count::{last_count, times_of};
use loops::repeat::repeat;
use sheet::refusal::Refusal;
use text::parsed::Parsed;

// `[`: one more open loop, from the notes so far.
pub(crate) fn opened(loops: &mut [usize], st: State, line: usize) -> State
    requires { (st.refusal ≡ 0) × Deep st loops.old }
    ensures { (book : Book) (fs : List Float) (is : List ℕ) → Room st fs is
        → Becomes (openedIs book line (progress_of st fs is loops.old)) result fs is loops.new }
{
    let d = st.depth;
    if d >= OPEN_LOOPS {
        return st.refused(Refusal::Full, line);
    }
    let n = st.count;
    let place = 2 * d;
    loops[place] = n;
    loops[place + 1] = 0;
    State { depth: d + 1, ..st }
}

// `:`: the innermost open loop is cut at the notes so far.
pub(crate) fn cut_here(loops: &mut [usize], st: State, line: usize) -> State
    requires { (st.refusal ≡ 0) × ((st.count ≤ notes_most) × Deep st loops.old) }
    ensures { (book : Book) (fs : List Float) (is : List ℕ) → Room st fs is
        → Becomes (cutIs book line (progress_of st fs is loops.old)) result fs is loops.new }
{
    let d = st.depth;
    if d == 0 {
        return st.refused(Refusal::NoOpenLoop, line);
    }
    let place = 2 * (d - 1) + 1;
    loops[place] = st.count + 1;
    st
}

// `]` with its count: all passes of the innermost open loop, whose column is lent as the others are and stays as it is.
// The count may be 2^64 - 1: it is asked whether the notes fit before one is laid down, and a loop without notes closes
// at once.
pub(crate) fn closed(
    floats: &mut [f32],
    instruments: &mut [u8],
    loops: &mut [usize],
    st: State,
    line: usize,
    times: Option<Parsed<u64>>,
) -> State
    requires { (st.refusal ≡ 0) × (Room st floats.old instruments.old × Deep st loops.old) }
    ensures { (book : Book) →
        let before = progress_of st floats.old instruments.old loops.old in
        Becomes (closedIs book line (digit_run times) before) result floats.new instruments.new loops.new }
{
    let d = st.depth;
    if d == 0 {
        return st.refused(Refusal::NoOpenLoop, line);
    }
    let passes = times_of(times);
    if passes == 0 {
        return st.refused(Refusal::NoCount, line);
    }
    let top = d - 1;
    let start = loops[2 * top];
    let cut = loops[2 * top + 1];
    let n = st.count;
    if start >= n {
        return State { depth: top, ..st };
    }
    let m = n - start;
    let last = last_count(start, cut, m);
    let room = NOTES - st.others - start - last;
    let further = passes - 1;
    if further > (room / m) as u64 {
        return st.refused(Refusal::Full, line);
    }
    let end = start + further as usize * m + last;
    repeat(floats, 3 * start, 3 * n, 3 * end);
    repeat(instruments, start, n, end);
    State {
        depth: top,
        count: end,
        ..st
    }
}
