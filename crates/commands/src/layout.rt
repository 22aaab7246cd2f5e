// An instrument from its operator lines in two columns: the lines are read from the last one up, and
// a line that is outdented puts its `Stack` after itself.

ghost use Rattle.std.specs.Prelude.{◌≡◌, List, [], ℕ, ◌+◌, ◌*◌, ◌/◌, ◌≤◌, ◌<◌, min, length, get_or};
ghost use Rattle.instrument.specs.declared.machine.Command.TheVariants as Command;
ghost use Rattle.tree.specs.Lines.{outdent, larger, release_of};
ghost use Rattle.commands.specs.Commands.{instrument_of, lines_held};
ghost use Rattle.commands.specs.Laying.{lines_from, operator_at, above, put, puts, laid};

use instrument::machine::{Command, Instrument, Slot};
use operator::operator::Operator;

// How many operators and commands an instrument may have, and how large a feedback may be.
const OPERATORS_MOST: usize = 32;

const COMMANDS_MOST: usize = 64;

const FEEDBACK_MOST: usize = 255;

// How many numbers a line has in each of the two columns, and which of them is its release.
const NUMBERS_EACH: usize = 6;

const SHAPE_EACH: usize = 2;

const RELEASE: usize = 5;

// Commands in the front of their array, so many of them.
#[derive(Clone, Copy)]
struct Laid {
    commands: [Slot; 64],
    count: usize,
}

impl Laid {
    // No command.
    #[tactic(auto, unfolding(sheet::specs::Padding::padded))]
    fn nothing() -> Laid
        ensures { result ≡ laid [] }
    {
        let none = Slot {
            command: Command::Stack(0),
        };
        Laid {
            commands: [none; COMMANDS_MOST],
            count: 0,
        }
    }

    // One command more.
    fn put(&mut self, command: Command)
        requires { self.old.count < 64 }
        ensures { self.new ≡ put command self.old }
    {
        self.commands[self.count] = Slot { command };
        self.count += 1;
    }
}

// The operator of the line i.
fn operator_at(numbers: &[f32], shape: &[usize], i: usize) -> Operator
    requires numbers { 6 * i + 6 ≤ length numbers.now }
    requires shape { 2 * i + 2 ≤ length shape.now }
    ensures { result ≡ operator_at i numbers.now shape.now }
{
    let at = NUMBERS_EACH * i;
    let place = SHAPE_EACH * i + 1;
    Operator {
        amplitude: numbers[at],
        freqratio: numbers[at + 1],
        attack: numbers[at + 2],
        decay: numbers[at + 3],
        sustain: numbers[at + 4],
        release: numbers[at + RELEASE],
        feedback: shape[place].min(FEEDBACK_MOST) as u32,
    }
}

// The commands of the line i behind those of the lines below it.
fn lay(all: &mut Laid, numbers: &[f32], shape: &[usize], i: usize)
    requires room { all.old.count + 2 ≤ 64 }
    requires numbers { 6 * i + 6 ≤ length numbers.now }
    requires shape { 2 * i + 2 ≤ length shape.now }
    ensures { all.new ≡ puts (outdent (above i shape.now) (get_or shape.now (2 * i) 0))
        (put (Command.Operator (operator_at i numbers.now shape.now)) all.old) }
{
    let op = operator_at(numbers, shape, i);
    let own = shape[SHAPE_EACH * i];
    all.put(Command::Operator(op));
    if i == 0 {
        return;
    }
    let higher = shape[SHAPE_EACH * (i - 1)];
    if own >= higher {
        return;
    }
    all.put(Command::Stack(higher - own));
}

// The larger of a release and those before it.
#[tactic(auto, unfolding(tree::specs::Lines::larger))]
fn larger(most: f32, release: f32) -> f32
    ensures { result ≡ larger most release }
{
    if most < release {
        return release;
    }
    most
}

// The largest release of the first n lines, 0 for none.
fn release_of(numbers: &[f32], n: usize) -> f32
    requires { 6 * n ≤ length numbers.now }
    ensures { (ss : List ℕ) → result ≡ release_of (lines_from n 0 numbers.now ss) }
{
    let mut most: f32 = 0.0;
    for i in 0..n {
        most = larger(most, numbers[NUMBERS_EACH * i + RELEASE]);
    }
    most
}

// How many of the first `count` lines two columns hold: no more than 32, nor than they hold whole.
fn held(numbers: &[f32], shape: &[usize], count: usize) -> usize
    ensures { result ≡ min (min count 32) (min (length numbers.now / 6) (length shape.now / 2)) }
{
    let whole = (numbers.len() / NUMBERS_EACH).min(shape.len() / SHAPE_EACH);
    count.min(OPERATORS_MOST).min(whole)
}

// The release alone of the instrument of the first `count` lines, without its 2 KB of commands.
pub fn release_held(numbers: &[f32], shape: &[usize], count: usize) -> f32
    ensures { result ≡ release_of (lines_held count numbers.now shape.now) }
{
    let lines = held(numbers, shape, count);
    release_of(numbers, lines)
}

// The instrument of the first `count` lines of two columns: no more than 32, nor than the columns hold whole.
pub fn instrument_of(numbers: &[f32], shape: &[usize], count: usize) -> Instrument
    ensures { result ≡ instrument_of (lines_held count numbers.now shape.now) }
{
    let most = held(numbers, shape, count);
    let mut all = Laid::nothing();
    for i in (0..most).rev() {
        lay(&mut all, numbers, shape, i);
    }
    let release = release_of(numbers, most);
    Instrument {
        release,
        commands: all.commands,
        count: all.count,
    }
}
