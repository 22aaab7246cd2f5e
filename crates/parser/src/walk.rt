// The walk over a sheet's lines, from the top: each is one step by its kind.

ghost use Rattle.std.specs.Prelude.{◌≡◌, List, ℕ, ◌+◌, ◌≤◌, length, drop, Float};
ghost use Rattle.lines.specs.Lines.{lines_of, line_of};
ghost use Rattle.meaning.specs.Sheets.{nothing_read, kind_of, taken_by, line_read, lines_read};
ghost use Rattle.parser.specs.Columns.{place_column, tables_in, read_in, read_outcome, Fits, Tabled, Begins, Goes, nothing_sofar};
ghost use Rattle.parser.specs.Walks.{BareAt};

use crate::header::{default_instrument, header_step};
use crate::runs::part_lines;
use crate::sofar::Sofar;
use crate::steps::{directive_step, macro_step, passed};
use environment::environment::Environment;
use lines::lines::line_at;
use strict::mode::Mode;

// A line that names no part, by the byte that it begins with.
fn line_step(
    source: &[u8],
    end: usize,
    next: usize,
    bodies: &mut [usize],
    numbers: &mut [f32],
    shape: &mut [usize],
    r: Sofar,
    mode: Mode,
) -> Sofar
    requires line { Begins source.now r end next × Tabled r (tables_in bodies.old numbers.old shape.old) }
    requires bare { BareAt source.now r.at end }
    ensures { (rate : ℕ) (fs : List Float) (is ls : List ℕ) → Fits (place_column ls) r fs is ls → Goes (line_read mode rate (kind_of (line_of (drop r.at source.now))) r.line (line_of (drop r.at source.now)) (lines_of (drop next source.now)) (read_in source.now (place_column ls) r fs is ls (tables_in bodies.old numbers.old shape.old))) (1 + taken_by (kind_of (line_of (drop r.at source.now))) (lines_of (drop next source.now))) source.now (place_column ls) r result fs is ls (tables_in bodies.new numbers.new shape.new) }
{
    let at = r.at;
    if at >= end {
        return passed(r, next);
    }
    match source[at] {
        b';' => passed(r, next),
        b'@' => header_step(source, end, next, numbers, shape, r, mode),
        b'#' => directive_step(source, end, next, r, mode),
        b'!' => macro_step(source, end, next, bodies, shape, r),
        _ => passed(r, next),
    }
}

// Nothing is read yet.
fn nothing_sofar() -> Sofar
    ensures { result ≡ nothing_sofar }
{
    let start = Environment::new();
    Sofar {
        start,
        parts: 0,
        envs: [start; 16],
        counts: [0; 16],
        depths: [0; 16],
        all: 0,
        macros: 0,
        instruments: 0,
        steps: 0,
        refusal: 0,
        line: 1,
        at: 0,
    }
}

// All lines from the first place on, up to the first refusal, with the default instrument before them.
pub(crate) fn walk(
    source: &[u8],
    bodies: &mut [usize],
    numbers: &mut [f32],
    shape: &mut [usize],
    floats: &mut [f32],
    bytes: &mut [u8],
    loops: &mut [usize],
    rate: u32,
    mode: Mode,
) -> Sofar
    requires { (length source.now ≤ 32768) × ((length bodies.old ≡ 128) × ((length numbers.old ≡ 6176) × ((length shape.old ≡ 2272) × ((length floats.old ≡ 98304) × ((length bytes.old ≡ 32768) × (length loops.old ≡ 288)))))) }
    ensures means { read_outcome source.now (place_column loops.new) result floats.new bytes.new loops.new (tables_in bodies.new numbers.new shape.new) ≡ lines_read mode rate 0 1 (lines_of source.now) nothing_read }
    ensures fits { result.refusal ≡ 0 → Fits (place_column loops.new) result floats.new bytes.new loops.new × Tabled result (tables_in bodies.new numbers.new shape.new) }
{
    default_instrument(numbers, shape);
    let mut r = nothing_sofar();
    while r.at < source.len() {
        r = part_lines(
            source, bodies, numbers, shape, floats, bytes, loops, r, rate,
        );
        if r.refusal != 0 {
            return r;
        }
        let at = r.at;
        if at >= source.len() {
            return r;
        }
        let line = line_at(source, at);
        r = line_step(source, line.end, line.next, bodies, numbers, shape, r, mode);
        if r.refusal != 0 {
            return r;
        }
    }
    r
}
