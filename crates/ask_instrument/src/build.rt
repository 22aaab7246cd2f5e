// Building an instrument record by record: one with no command, one with a command more, and one with
// another count than it has commands.

ghost use Rattle.std.specs.Prelude.{◌≡◌, length};

use crate::record;
use instrument::machine::{Command, Instrument, Slot};
use operator::operator::Operator;

// No command counts; every slot holds Stack(0), which shows where a count is larger than it should be.
pub fn silent() -> Instrument {
    let slot = Slot {
        command: Command::Stack(0),
    };
    Instrument {
        release: 0.0,
        commands: [slot; 64],
        count: 0,
    }
}

// The operator of a record: six floats and the feedback.
fn operator(s: &[u8]) -> Operator
    requires { length s.now ≡ 32 }
{
    Operator {
        amplitude: record::float(s, 1),
        freqratio: record::float(s, 2),
        attack: record::float(s, 3),
        decay: record::float(s, 4),
        sustain: record::float(s, 5),
        release: record::float(s, 6),
        feedback: record::word(s, 7),
    }
}

// The instrument with a command more, if it has room.
fn with(mut held: Instrument, command: Command) -> Instrument {
    let at = held.count;
    if let Some(slot) = held.commands.get_mut(at) {
        *slot = Slot { command };
        held.count += 1;
    }
    held
}

// Adds the operator of a record.
pub fn with_operator(held: Instrument, s: &[u8]) -> Instrument
    requires { length s.now ≡ 32 }
{
    with(held, Command::Operator(operator(s)))
}

// Adds Stack(n), with n in fields 1 and 2.
pub fn with_stack(held: Instrument, s: &[u8]) -> Instrument
    requires { length s.now ≡ 32 }
{
    with(held, Command::Stack(record::long(s, 1)))
}

// Takes the count in fields 1 and 2 for the number of commands, whatever it is.
pub fn with_count(held: Instrument, s: &[u8]) -> Instrument
    requires { length s.now ≡ 32 }
{
    Instrument {
        count: record::long(s, 1),
        ..held
    }
}
