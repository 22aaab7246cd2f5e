// An operator at many times side by side, a lane for each: a round of work goes through all lanes before the next, so
// that the sines of the lanes overlap.

ghost use Rattle.std.specs.Prelude.{◌≡◌, suc, ◌≤◌, length};
ghost use Rattle.operator.specs.Lent.{worked_over};
ghost use Rattle.operator.specs.Lanes.{Lanes, Levelled, Staged, Worked, round_at, rounds_at};

use crate::operator::{Operator, PI, decay_level, release_level};
use sine::lanes::{all_lanes, each_lane, sines_by};

// How many lanes are worked on side by side: of fewer than the least each is worked on alone.
const LEAST_LANES: usize = 4;

const MOST_LANES: usize = 32;

// One round of work in all lanes: each step in all of them before the next.
fn round_lanes(
    table: &[u32; 1025],
    values: &mut [f32],
    levels: &[f32],
    turns: &[f32],
    amplitude: f32,
)
    requires levels { length values.old ≤ length levels.now }
    requires turns { length values.old ≤ length turns.now }
    ensures { Lanes (round_at table.now amplitude levels.now turns.now) (length values.old) values.old values.new }
{
    each_lane(values, |j, x| turns[j] + x);
    sines_by(table, values);
    each_lane(values, |j, y| levels[j] * (amplitude * y));
}

impl Operator {
    // The levels of all lanes, if all of them are in one stage of the envelope: whether they are.
    fn in_one_stage(self, levels: &mut [f32], times: &[f32], d: f32) -> bool
        requires { length levels.old ≡ length times.now }
        ensures { Staged self d times.now levels.new result }
    {
        let attack = self.attack;
        let decay = self.decay;
        let sustain = self.sustain;
        let release = self.release;
        let decayed = attack + decay;
        let silent = d + release;
        if all_lanes(times, |t| !(t < attack) && !(t < decayed) && t < d) {
            levels.fill(sustain);
            return true;
        }
        if all_lanes(times, |t| !(t < attack) && !(t < d) && t < silent) {
            each_lane(levels, |j, _| release_level(sustain, release, d, times[j]));
            return true;
        }
        if all_lanes(times, |t| !(t < attack) && t < d && t < decayed) {
            each_lane(levels, |j, _| decay_level(attack, decay, sustain, times[j]));
            return true;
        }
        if all_lanes(times, |t| t < attack) {
            each_lane(levels, |j, _| times[j] / attack);
            return true;
        }
        false
    }

    // The levels of lanes from the first on, and of how many: all, or up to one that is past.
    fn levels_lanes(self, levels: &mut [f32], times: &[f32], d: f32) -> usize
        requires { length levels.old ≡ length times.now }
        ensures { Levelled self d times.now levels.new result }
    {
        if self.in_one_stage(levels, times, d) {
            return times.len();
        }
        for (j, t) in times.iter().enumerate() {
            let Some(level) = self.level(d, *t) else {
                return j;
            };
            levels[j] = level;
        }
        times.len()
    }

    // Feedback + 1 rounds of work in all lanes.
    fn rounds_lanes(self, table: &[u32; 1025], values: &mut [f32], levels: &[f32], turns: &[f32])
        requires levels { length values.old ≤ length levels.now }
        requires turns { length values.old ≤ length turns.now }
        ensures { Lanes (rounds_at (suc self.feedback) (round_at table.now self.amplitude levels.now turns.now))
            (length values.old) values.old values.new }
    {
        let amplitude = self.amplitude;
        for _ in 0..=self.feedback {
            round_lanes(table, values, levels, turns, amplitude);
        }
    }

    // The work in lanes from the first on, and in how many: none of few, and else those with a level, as many as are
    // worked on side by side.
    fn work_front(
        self,
        table: &[u32; 1025],
        values: &mut [f32],
        times: &[f32],
        f: f32,
        d: f32,
    ) -> usize
        requires { length times.now ≡ length values.old }
        ensures { Worked table.now self f d times.now values.old values.new result }
    {
        if times.len() < LEAST_LANES {
            return 0;
        }
        let most = times.len().min(MOST_LANES);
        let times = &times[..most];
        let mut blank_levels = [0.0f32; MOST_LANES];
        let mut blank_turns = [0.0f32; MOST_LANES];
        let levels = &mut blank_levels[..most];
        let turns = &mut blank_turns[..most];
        let turn = 2.0 * PI * f * self.freqratio;
        each_lane(turns, |j, _| turn * times[j]);
        let m = self.levels_lanes(levels, times, d);
        self.rounds_lanes(table, &mut values[..m], levels, turns);
        m
    }

    // The operator's work on values, each at the time of its place; a value without a time stays. The sine's table is
    // lent.
    pub fn work(self, table: &[u32; 1025], values: &mut [f32], times: &[f32], f: f32, d: f32)
        ensures { values.new ≡ worked_over table.now f d self times.now values.old }
    {
        let n = values.len().min(times.len());
        let m = self.work_front(table, &mut values[..n], &times[..n], f, d);
        for j in m..n {
            values[j] = self.eval_by(table, f, d, times[j], values[j]);
        }
    }
}
