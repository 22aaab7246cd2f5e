// Lines that are no part's: each is one step of the reading.

ghost use Rattle.std.specs.Prelude.{◌≡◌, List, ℕ, ◌+◌, ◌≤◌, length, drop, Float};
ghost use Rattle.lines.specs.Lines.{line_of};
ghost use Rattle.directive.specs.Directives.{applied, applied_to};
ghost use Rattle.meaning.specs.Sheets.{directive_read, macro_read};
ghost use Rattle.parser.specs.Columns.{Tables, tables_in, read_in, Fits, Tabled, Begins, Goes, refused_at, passed_to, with_envs};

use crate::sofar::Sofar;
use directive::directive::{Directive, apply, apply_to_parts, read_directive};
use sheet::refusal::Refusal;
use strict::mode::Mode;
use tables::table::macro_line;

// A refusal with its line.
pub(crate) fn refused(mut r: Sofar, number: u32, line: usize) -> Sofar
    ensures { result ≡ refused_at r number line }
{
    r.refusal = number;
    r.line = line;
    r
}

// On behind one line.
pub(crate) fn passed(mut r: Sofar, next: usize) -> Sofar
    requires { r.line ≤ 2000000 }
    ensures { result ≡ passed_to r r.macros r.instruments (r.line + 1) next }
{
    r.line += 1;
    r.at = next;
    r
}

// The starting environment and that of every part, changed by a directive.
fn changed(d: Result<Directive, Refusal>, r: Sofar) -> Sofar
    ensures { result ≡ with_envs r (applied d r.start) (applied_to d r.parts r.envs) }
{
    Sofar {
        start: apply(d, r.start),
        envs: apply_to_parts(d, r.envs, r.parts),
        ..r
    }
}

// A directive's line.
pub(crate) fn directive_step(source: &[u8], end: usize, next: usize, r: Sofar, mode: Mode) -> Sofar
    requires { Begins source.now r end next }
    ensures { (places : List ℕ) (fs : List Float) (is ls : List ℕ) (t : Tables) → Fits places r fs is ls → Tabled r t → Goes (directive_read mode r.line (line_of (drop r.at source.now)) (read_in source.now places r fs is ls t)) 1 source.now places r result fs is ls t }
{
    let d = read_directive(&source[r.at..end], mode);
    match d {
        Err(why) => refused(r, why.number(), r.line),
        Ok(_) => passed(changed(d, r), next),
    }
}

// A macro's line.
pub(crate) fn macro_step(
    source: &[u8],
    end: usize,
    next: usize,
    bodies: &mut [usize],
    shape: &mut [usize],
    r: Sofar,
) -> Sofar
    requires { Begins source.now r end next × ((r.macros ≤ 64) × (length shape.old ≡ 2272)) }
    ensures { (places : List ℕ) (fs : List Float) (is ls : List ℕ) (xs : List Float) → Fits places r fs is ls → Tabled r (tables_in bodies.old xs shape.old) → Goes (macro_read r.line (line_of (drop r.at source.now)) (read_in source.now places r fs is ls (tables_in bodies.old xs shape.old))) 1 source.now places r result fs is ls (tables_in bodies.new xs shape.new) }
{
    let names = &mut shape[2048..2176];
    if let Err(why) = macro_line(source, r.at, end, names, bodies, r.macros, r.line) {
        return refused(r, why.number(), r.line);
    }
    let mut q = passed(r, next);
    q.macros += 1;
    q
}
