// An instrument's header with the operator lines below it.

ghost use Rattle.std.specs.Prelude.{◌≡◌, List, [], ◌∷◌, ℕ, ◌+◌, ◌*◌, ◌≤◌, ◌<◌, length, take, drop, Float};
ghost use Rattle.lines.specs.Lines.{lines_of, line_of};
ghost use Rattle.tree.specs.Lines.{release_of};
ghost use Rattle.operators.specs.OperatorLines.{operator_lines};
ghost use Rattle.commands.specs.Commands.{lines_held};
ghost use Rattle.bank.specs.Bank.{lines_from};
ghost use Rattle.layout.specs.Regions.{region};
ghost use Rattle.meaning.specs.Sheets.{plain, header_read};
ghost use Rattle.parser.specs.Columns.{tables_in, size_column, release_column, read_in, Fits, Tabled, Begins, Goes, Blocked, Aside, Kept};

use crate::sofar::Sofar;
use crate::steps::refused;
use blocks::block::{Block, read_block};
use commands::layout::release_held;
use strict::mode::Mode;
use tables::table::header_line;

// The operator lines from place `at` on, in the regions of the instrument i.
fn block_at(
    source: &[u8],
    at: usize,
    numbers: &mut [f32],
    shape: &mut [usize],
    i: usize,
    mode: Mode,
) -> Block
    requires { (i < 32) × ((length numbers.old ≡ 6176) × (length shape.old ≡ 2272)) }
    ensures block { Blocked mode source.now at i result numbers.old shape.old numbers.new shape.new }
    ensures aside { Aside shape.old shape.new numbers.old numbers.new }
{
    read_block(
        source,
        at,
        &mut numbers[192 * i..192 * i + 192],
        &mut shape[64 * i..64 * i + 64],
        mode,
    )
}

// The release of the instrument i, which has `size` operator lines.
fn release_at(numbers: &[f32], shape: &[usize], i: usize, size: usize) -> f32
    requires { (i < 32) × ((length numbers.now ≡ 6176) × (length shape.now ≡ 2272)) }
    ensures { result ≡ release_of (lines_held size (region 192 i numbers.now) (region 64 i shape.now)) }
{
    release_held(
        &numbers[192 * i..192 * i + 192],
        &shape[64 * i..64 * i + 64],
        size,
    )
}

// The operator lines from place `at` on, kept as the instrument i with their number and its release.
fn kept(
    source: &[u8],
    at: usize,
    numbers: &mut [f32],
    shape: &mut [usize],
    i: usize,
    mode: Mode,
) -> Block
    requires { (i < 32) × ((length numbers.old ≡ 6176) × (length shape.old ≡ 2272)) }
    ensures { Kept mode source.now at i result numbers.old shape.old numbers.new shape.new }
{
    let b = block_at(source, at, numbers, shape, i, mode);
    if let Some(_) = b.refusal {
        return b;
    }
    let release = release_at(numbers, shape, i, b.count);
    shape[2240 + i] = b.count;
    numbers[6144 + i] = release;
    b
}

// The default instrument, `1 1 0 0 1 0`, read as any other.
pub(crate) fn default_instrument(numbers: &mut [f32], shape: &mut [usize])
    requires { (length numbers.old ≡ 6176) × (length shape.old ≡ 2272) }
    ensures lines { lines_from (size_column shape.new) numbers.new shape.new 0 1 ≡ plain ∷ [] }
    ensures releases { take 1 (release_column numbers.new) ≡ release_of plain ∷ [] }
{
    kept(b"1 1 0 0 1 0", 0, numbers, shape, 0, Mode::Plain);
}

// A header's line, and the operator lines below it.
pub(crate) fn header_step(
    source: &[u8],
    end: usize,
    next: usize,
    numbers: &mut [f32],
    shape: &mut [usize],
    r: Sofar,
    mode: Mode,
) -> Sofar
    requires { Begins source.now r end next × ((r.instruments + 1 ≤ 32) × ((length numbers.old ≡ 6176) × (length shape.old ≡ 2272))) }
    ensures { (places : List ℕ) (fs : List Float) (is ls bs : List ℕ) → Fits places r fs is ls → Tabled r (tables_in bs numbers.old shape.old) → Goes (header_read mode r.line (line_of (drop r.at source.now)) (lines_of (drop next source.now)) (read_in source.now places r fs is ls (tables_in bs numbers.old shape.old))) (1 + length (operator_lines (lines_of (drop next source.now)))) source.now places r result fs is ls (tables_in bs numbers.new shape.new) }
{
    let i = r.instruments + 1;
    let names = &mut shape[2176..2240];
    if let Err(why) = header_line(source, r.at, end, names, r.instruments) {
        return refused(r, why.number(), r.line);
    }
    let b = kept(source, next, numbers, shape, i, mode);
    let line = r.line + 1 + b.count;
    if let Some(why) = b.refusal {
        return refused(r, why.number(), line);
    }
    let mut q = r;
    q.instruments = i;
    q.line = line;
    q.at = b.next;
    q
}
