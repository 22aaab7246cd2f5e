// The stack machine on many samples side by side, a lane for each: a command is run on all lanes before the next one.
// What the lanes set aside stands in one array, a row of lanes for each depth of the stack.

ghost use Rattle.std.specs.Prelude.{◌≡◌, ◌+◌, ◌*◌, ◌<◌, ◌≤◌, length};
ghost use Rattle.operator.specs.Lanes.{Lanes};
ghost use Rattle.instrument.specs.Fill.{mixed};
ghost use Rattle.instrument.specs.Lanes.{SettlesLanes, StepsLanes, MixesLanes, timed};

use crate::machine::Command;
use sine::lanes::each_lane;

// The times of samples from sample `first` on. Signed numbers of 32 bits are made floats four at once.
pub(crate) fn times_from(times: &mut [f32], first: usize, unit: f32)
    requires { first + length times.old ≤ 16777216 }
    ensures { Lanes (timed first unit) (length times.old) times.old times.new }
{
    each_lane(times, |j, _| (first + j) as i32 as f32 * unit);
}

// After an operator gave the lanes their values: the top entry loses one, or at 0 is added and removed. The depth
// afterwards.
fn settle(counts: &mut [usize; 64], saved: &[f32], values: &mut [f32], depth: usize) -> usize
    requires depth { depth ≤ 64 }
    requires lanes { length values.old ≤ 32 }
    requires saved { length saved.now ≡ 64 * length values.old }
    ensures { SettlesLanes (length values.old) depth values.old counts.old saved.now values.new result counts.new }
{
    if depth == 0 {
        return depth;
    }
    let top = depth - 1;
    let left = counts[top];
    if left == 0 {
        let from = top * values.len();
        let kept = &saved[from..from + values.len()];
        each_lane(values, |j, x| x + kept[j]);
        return top;
    }
    counts[top] = left - 1;
    depth
}

// One command on all lanes: the depth afterwards.
pub(crate) fn step(
    command: Command,
    table: &[u32; 1025],
    counts: &mut [usize; 64],
    saved: &mut [f32],
    values: &mut [f32],
    times: &[f32],
    depth: usize,
    f: f32,
    d: f32,
) -> usize
    requires depth { depth < 64 }
    requires lanes { length values.old ≤ 32 }
    requires saved { length saved.old ≡ 64 * length values.old }
    requires times { length times.now ≤ length values.old }
    ensures { StepsLanes table.now f d times.now (length values.old) command depth
        values.old counts.old saved.old values.new result counts.new saved.new }
{
    match command {
        Command::Operator(op) => {
            op.work(table, values, times, f, d);
            settle(counts, saved, values, depth)
        }
        Command::Stack(m) => {
            counts[depth] = m;
            let from = depth * values.len();
            // Not by `copy_from_slice`, which would have the library for C ask for `memmove`.
            each_lane(&mut saved[from..from + values.len()], |j, _| values[j]);
            values.fill(0.0);
            depth + 1
        }
    }
}

// A value at place i, where `old` stands.
fn mix(added: usize, i: usize, old: f32, v: f32) -> f32
    ensures { result ≡ mixed added i old v }
{
    if added <= i {
        return v;
    }
    old + v
}

// Mixes all lanes into a slice from place i on.
pub(crate) fn mix_lanes(out: &mut [f32], values: &[f32], i: usize, added: usize, amplitude: f32)
    requires { i + length values.now ≤ length out.old }
    ensures { MixesLanes added amplitude i (length values.now) values.now out.old out.new }
{
    each_lane(
        &mut out[i..i + values.len()],
        |j, old| mix(added, i + j, old, amplitude * values[j]),
    );
}
