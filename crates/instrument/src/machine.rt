// The stack machine: an instrument's commands, run in order, give its value at one time of a note.

ghost use Rattle.std.specs.Prelude.{◌≡◌, ◌*◌, ◌<◌, ◌≤◌, length, EachIndex, slice_index_or};
ghost use Rattle.std.specs.Float.{nan};
ghost use Rattle.instrument.specs.Evaluation.{instrument_at};
ghost use Rattle.instrument.specs.Fill.{count_from, filled};
ghost use Rattle.instrument.specs.Lent.{instrument_by, filled_by};

use crate::lanes::{mix_lanes, step, times_from};
use operator::operator::Operator;

// One command: an operator works on the value, or the value is set aside for later.
#[derive(Clone, Copy)]
pub enum Command {
    Operator(Operator),
    Stack(usize),
}

// A command as an element of an array.
#[derive(Clone, Copy)]
pub struct Slot {
    pub command: Command,
}

// An instrument: its largest operator release, and its commands, `count` of them.
#[derive(Clone, Copy)]
pub struct Instrument {
    pub release: f32,
    pub commands: [Slot; 64],
    pub count: usize,
}

// The most samples that a note has.
const MOST_SAMPLES: usize = 16777216;

// How many lanes there are, and how many values they set aside at the most.
const LANES: usize = 32;

const SAVED: usize = 64 * LANES;

// How many samples are few, and as much for those.
const FEW_SAMPLES: usize = 96;

const FEW_LANES: usize = 16;

const FEW_SAVED: usize = 64 * FEW_LANES;

// How many elements of a slice a note has samples for, from sample `first` on.
fn room_from(first: usize, room: usize) -> usize
    ensures { result ≡ count_from first room }
{
    room.min(MOST_SAMPLES.saturating_sub(first))
}

impl Instrument {
    // The instrument's values in all lanes that have a time: its commands, run from nothing. `counts` and `saved` are
    // theirs to use.
    fn run(
        &self,
        table: &[u32; 1025],
        counts: &mut [usize; 64],
        saved: &mut [f32],
        values: &mut [f32],
        times: &[f32],
        f: f32,
        d: f32,
    )
        requires lanes { length values.old ≤ 32 }
        requires saved { length saved.old ≡ 64 * length values.old }
        requires times { length times.now ≤ length values.old }
        ensures { EachIndex times.now (λ j.
            slice_index_or values.new j nan ≡ instrument_by table.now f d (slice_index_or times.now j nan) self.now) }
    {
        values.fill(0.0);
        let mut depth: usize = 0;
        for slot in &self.commands[..self.count.min(64)] {
            depth = step(
                slot.command,
                table,
                counts,
                saved,
                values,
                times,
                depth,
                f,
                d,
            );
        }
    }

    // The instrument's value at time t of a note of frequency f and duration d: its commands, run from
    // nothing. A count over 64 is taken as 64.
    pub fn eval(self, f: f32, d: f32, t: f32) -> f32
        ensures { result ≡ instrument_at f d t self }
    {
        let table = sine::quarter::table();
        let mut counts = [0usize; 64];
        let mut saved = [0.0f32; 64];
        let mut values = [0.0f32; 1];
        self.run(&table, &mut counts, &mut saved, &mut values, &[t], f, d);
        values[0]
    }

    // Mixes the note's `room` samples from `first` on into a slice, as many at a time as there are lanes: `saved`,
    // `values` and `times` are theirs to use.
    fn spread(
        self,
        table: &[u32; 1025],
        out: &mut [f32],
        saved: &mut [f32],
        values: &mut [f32],
        times: &mut [f32],
        room: usize,
        amplitude: f32,
        f: f32,
        d: f32,
        rate: u32,
        first: usize,
        added: usize,
    )
        requires room { room ≡ count_from first (length out.old) }
        requires some { 0 < length values.old }
        requires lanes { length values.old ≤ 32 }
        requires saved { length saved.old ≡ 64 * length values.old }
        requires times { length times.old ≡ length values.old }
        ensures { out.new ≡ filled_by table.now self amplitude f d rate first added out.old }
    {
        let mut counts = [0usize; 64];
        let unit = 1.0 / std::num::nearest_u32_to_f32(rate);
        for i in (0..room).step_by(values.len()) {
            let n = values.len().min(room - i);
            let times = &mut times[..n];
            times_from(times, first + i, unit);
            self.run(table, &mut counts, saved, values, times, f, d);
            mix_lanes(out, &values[..n], i, added, amplitude);
        }
    }

    // `fill` by a lent table of the sine, for one that fills many slices: by `quarter::table` it is `fill`. Where the
    // samples are few there are fewer lanes, since making room for many takes longer than they do.
    pub fn fill_by(
        self,
        table: &[u32; 1025],
        out: &mut [f32],
        amplitude: f32,
        f: f32,
        d: f32,
        rate: u32,
        first: usize,
        added: usize,
    ) -> usize
        ensures count { result ≡ count_from first (length out.old) }
        ensures values { out.new ≡ filled_by table.now self amplitude f d rate first added out.old }
    {
        let room = room_from(first, out.len());
        if room <= FEW_SAMPLES {
            let mut saved = [0.0f32; FEW_SAVED];
            let mut values = [0.0f32; FEW_LANES];
            let mut times = [0.0f32; FEW_LANES];
            self.spread(
                table,
                out,
                &mut saved,
                &mut values,
                &mut times,
                room,
                amplitude,
                f,
                d,
                rate,
                first,
                added,
            );
            return room;
        }
        let mut saved = [0.0f32; SAVED];
        let mut values = [0.0f32; LANES];
        let mut times = [0.0f32; LANES];
        self.spread(
            table,
            out,
            &mut saved,
            &mut values,
            &mut times,
            room,
            amplitude,
            f,
            d,
            rate,
            first,
            added,
        );
        room
    }

    // Mixes a note's samples from sample `first` on into a slice, and answers how many: each value is
    // added to what stands there below the element `added`, and stored from it on. A note has at most
    // 16,777,216 samples; elements past them keep their values.
    pub fn fill(
        self,
        out: &mut [f32],
        amplitude: f32,
        f: f32,
        d: f32,
        rate: u32,
        first: usize,
        added: usize,
    ) -> usize
        ensures count { result ≡ count_from first (length out.old) }
        ensures values { out.new ≡ filled self amplitude f d rate first added out.old }
    {
        let table = sine::quarter::table();
        self.fill_by(&table, out, amplitude, f, d, rate, first, added)
    }
}
