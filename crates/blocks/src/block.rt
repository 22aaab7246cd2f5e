// The operator lines below a header (the Rust's `instrument::parse`): those up to the first that is none, each kept in
// two columns.

ghost use Rattle.std.specs.Prelude.{◌≡◌, false, [], ◌∷◌, ◌++◌, ℕ, ◌+◌, ◌*◌, ◌≤◌, ◌<◌, length, drop};
ghost use Rattle.lines.specs.Lines.{lines_of, behind_lines};
ghost use Rattle.sheet.specs.Refusals.{going};
ghost use Rattle.operators.specs.OperatorLines.{ends};
ghost use Rattle.blocks.specs.Blocks.{lines_in, has_room, block_read, first_read, block_outcome};

use lines::lines::line_at;
use operators::line::{OperatorLine, operator};
use sheet::refusal::Refusal;
use strict::mode::Mode;
use text::blanks::blanks_end;

// How many operators an instrument may have, and how many numbers a line has in each of its two columns.
const OPERATORS_MOST: usize = 32;

const NUMBERS_EACH: usize = 6;

const SHAPE_EACH: usize = 2;

// How many operator lines were read, and the place behind them.
#[derive(Clone, Copy)]
pub struct Block {
    pub count: usize,
    pub next: usize,
    // Why the line there is refused, if it is.
    pub refusal: Option<Refusal>,
}

// Whether a line is no operator line: it is blank, or `#`, `@` or `;` stands first.
fn is_end(l: &[u8]) -> bool
    ensures { result ≡ ends l.now }
{
    match l.get(blanks_end(l, 0)) {
        Some(first) => matches!(*first, b'#' | b'@' | b';'),
        None => true,
    }
}

// An operator line in its place in the columns: so many stand before it.
fn put(numbers: &mut [f32], shape: &mut [usize], n: usize, read: OperatorLine)
    requires few { n < 32 }
    requires wide { 192 ≤ length numbers.old }
    requires high { 64 ≤ length shape.old }
    ensures lines { lines_in (n + 1) numbers.new shape.new
        ≡ lines_in n numbers.old shape.old ++ (record { indent = read.indent; op = read.operator } ∷ []) }
    ensures numbers { drop (6 * (n + 1)) numbers.new ≡ drop (6 * (n + 1)) numbers.old }
    ensures shape { drop (2 * (n + 1)) shape.new ≡ drop (2 * (n + 1)) shape.old }
{
    let op = read.operator;
    let at = NUMBERS_EACH * n;
    numbers[at..at + NUMBERS_EACH].copy_from_slice(&[
        op.amplitude,
        op.freqratio,
        op.attack,
        op.decay,
        op.sustain,
        op.release,
    ]);
    let place = SHAPE_EACH * n;
    shape[place..place + SHAPE_EACH].copy_from_slice(&[read.indent, op.feedback as usize]);
}

// The operator lines from place `at` of a source on. Those that were read stand in the columns, before a refusal too,
// and behind them the columns are as they were. Where they have no room for 32 operators, 21, and nothing is read.
pub fn read_block(
    source: &[u8],
    at: usize,
    numbers: &mut [f32],
    shape: &mut [usize],
    mode: Mode,
) -> Block
    ensures read { (line : ℕ) → block_outcome line result numbers.new shape.new
        ≡ block_read mode line (drop at source.now) (length numbers.old) (length shape.old) }
    ensures place { result.next ≡ behind_lines result.count source.now at }
    ensures onward { result.refusal ≡ None
        → lines_of (drop result.next source.now) ≡ drop result.count (lines_of (drop at source.now)) }
    ensures within { (at ≤ result.next) × (at ≤ length source.now → result.next ≤ length source.now) }
    ensures few { result.count ≤ 32 }
    ensures kept { has_room (length numbers.old) (length shape.old) ≡ false
        → (numbers.new ≡ numbers.old) × (shape.new ≡ shape.old) }
    ensures front { (line : ℕ) → first_read mode line result.count (drop at source.now)
        ≡ going (lines_in result.count numbers.new shape.new) }
    ensures rest { (drop (6 * result.count) numbers.new ≡ drop (6 * result.count) numbers.old)
        × (drop (2 * result.count) shape.new ≡ drop (2 * result.count) shape.old) }
{
    if numbers.len() < NUMBERS_EACH * OPERATORS_MOST || shape.len() < SHAPE_EACH * OPERATORS_MOST {
        return Block {
            count: 0,
            next: at,
            refusal: Some(Refusal::Full),
        };
    }
    let mut place = at;
    let mut count = 0;
    let mut before = 0;
    while place < source.len() {
        let line = line_at(source, place);
        let text = &source[place..line.end];
        if is_end(text) {
            return Block {
                count,
                next: place,
                refusal: None,
            };
        }
        let read = match operator(text, before, count, mode) {
            Ok(read) => read,
            Err(why) => {
                return Block {
                    count,
                    next: place,
                    refusal: Some(why),
                };
            }
        };
        put(numbers, shape, count, read);
        before = read.indent;
        count += 1;
        place = line.next;
    }
    Block {
        count,
        next: place,
        refusal: None,
    }
}
