// The instruments, each from its operator lines in its regions of two columns.

ghost use Rattle.std.specs.Prelude.{◌≡◌, [], map, ◌*◌, ◌<◌, min, get_or};
ghost use Rattle.sheet.specs.Capacities.{instruments_most, operators_most};
ghost use Rattle.sheet.specs.Padding.{padded};
ghost use Rattle.commands.specs.Commands.{instrument_of, lines_held};
ghost use Rattle.layout.specs.Regions.{region};
ghost use Rattle.bank.specs.Bank.{lines_from};

use commands::layout::instrument_of;
use instrument::machine::Instrument;
use layout::region::region;

// The most instruments of a sheet.
const INSTRUMENTS: usize = 32;

// The places of an instrument's region of its shape: two for each of 32 operator lines.
const SHAPES: usize = 64;

// Those of its region of numbers: six for each.
const NUMBERS: usize = 192;

// An array of one instrument, by a function of its own so that no other has to write the array out.
fn empties(empty: Instrument) -> [Instrument; 32]
    ensures { result ≡ padded instruments_most empty [] }
{
    [empty; INSTRUMENTS]
}

// How many operator lines the instrument k has: past the end of the sizes none.
fn size_at(sizes: &[usize], k: usize) -> usize
    ensures { result ≡ get_or sizes.now k 0 }
{
    sizes.get(k).copied().unwrap_or(0)
}

// The instrument k, which has `size` operator lines.
fn instrument_at(numbers: &[f32], shape: &[usize], size: usize, k: usize) -> Instrument
    ensures { result ≡ instrument_of (lines_held size (region (6 * operators_most) k numbers.now) (region (2 * operators_most) k shape.now)) }
{
    instrument_of(region(numbers, NUMBERS, k), region(shape, SHAPES, k), size)
}

// The first n instruments, at most 32 of them, and then empty ones: an instrument of no line is empty whatever the columns hold.
pub fn table_of(numbers: &[f32], shape: &[usize], sizes: &[usize], n: usize) -> [Instrument; 32]
    ensures { result ≡ padded instruments_most (instrument_of []) (map instrument_of (lines_from sizes.now numbers.now shape.now 0 (min n instruments_most))) }
{
    let mut table = empties(instrument_of(numbers, shape, 0));
    for k in 0..n.min(INSTRUMENTS) {
        table[k] = instrument_at(numbers, shape, size_at(sizes, k), k);
    }
    table
}
