// What each kind of record does: it changes the instrument that is held, or asks it for values.

ghost use Rattle.std.specs.Prelude.{◌≡◌, length};

use crate::{build, record, stretch, write};
use fields::float;
use instrument::machine::Instrument;

// The kinds of record.
const START: u32 = 1;

const OPERATOR: u32 = 2;

const STACK: u32 = 3;

const COUNT: u32 = 4;

const VALUE: u32 = 5;

const STRETCH: u32 = 6;

const STRETCHES: u32 = 7;

// The value at a time: frequency, duration and time in fields 1 to 3.
fn value(held: Instrument, s: &[u8])
    requires { length s.now ≡ 32 }
{
    let height = held.eval(
        record::float(s, 1),
        record::float(s, 2),
        record::float(s, 3),
    );
    write::number(float::to_bits(height));
}

// Does what a record asks for, and gives the instrument afterwards. A kind that there is not does nothing.
pub fn to(held: Instrument, s: &[u8]) -> Instrument
    requires { length s.now ≡ 32 }
{
    match record::word(s, 0) {
        START => return build::silent(),
        OPERATOR => return build::with_operator(held, s),
        STACK => return build::with_stack(held, s),
        COUNT => return build::with_count(held, s),
        VALUE => value(held, s),
        STRETCH => stretch::one(held, s),
        STRETCHES => stretch::many(held, s),
        _ => (),
    }
    held
}
