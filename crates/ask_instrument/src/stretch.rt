// Stretches of a note's samples: one that is mixed into a slice with known elements, so that what was
// added to, what was stored and what was left as it was can be told apart, and many in a row, for a clock.

ghost use Rattle.std.specs.Prelude.{◌≡◌, ◌≤◌, length};

use crate::{record, write};
use instrument::machine::Instrument;

// What a record asks for. The slice's length is in field 7; field 6 says how many of its elements are
// added to, or how many stretches there are.
#[derive(Clone, Copy)]
struct Asked {
    amplitude: f32,
    f: f32,
    d: f32,
    rate: u32,
    first: usize,
    number: u32,
}

fn read(s: &[u8]) -> Asked
    requires { length s.now ≡ 32 }
{
    Asked {
        amplitude: record::float(s, 1),
        f: record::float(s, 2),
        d: record::float(s, 3),
        rate: record::word(s, 4),
        first: record::word(s, 5) as usize,
        number: record::word(s, 6),
    }
}

// The most elements that a slice has.
const MOST: usize = 512;

// How long the slice is.
fn size(s: &[u8]) -> usize
    requires { length s.now ≡ 32 }
    ensures { result ≤ MOST }
{
    (record::word(s, 7) as usize).min(MOST)
}

// What stands in the slice before it is filled: 0, 1/1024, 2/1024 and so on.
fn prepare(out: &mut [f32]) {
    let mut next: f32 = 0.0;
    for x in out.iter_mut() {
        *x = next;
        next += 0.0009765625;
    }
}

// Writes the count, and then the whole slice.
fn answer(held: Instrument, out: &mut [f32], a: Asked)
    requires { length out.old ≤ MOST }
{
    prepare(out);
    let added = a.number as usize;
    let count = held.fill(out, a.amplitude, a.f, a.d, a.rate, a.first, added);
    write::number(count as u32);
    write::floats(out);
}

// One stretch, as a record asks for it.
pub fn one(held: Instrument, s: &[u8])
    requires { length s.now ≡ 32 }
{
    let n = size(s);
    let mut out = [0.0; MOST];
    answer(held, &mut out[..n], read(s));
}

// Stretches one after the other into the same slice, of which only the last is written: a clock is to see
// the samples and not the writing.
fn run(held: Instrument, out: &mut [f32], a: Asked)
    requires { length out.old ≤ MOST }
{
    let mut first = a.first;
    for _ in 0..a.number {
        held.fill(out, a.amplitude, a.f, a.d, a.rate, first, 0);
        first = first.wrapping_add(out.len());
    }
    write::floats(out);
}

// Many stretches, as a record asks for them.
pub fn many(held: Instrument, s: &[u8])
    requires { length s.now ≡ 32 }
{
    let n = size(s);
    let mut out = [0.0; MOST];
    run(held, &mut out[..n], read(s));
}
