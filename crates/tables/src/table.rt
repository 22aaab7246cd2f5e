// A line that adds an entry to a table: a macro's line, and an instrument's header. One that is refused leaves the
// table as it was.

ghost use Rattle.std.specs.Prelude.{◌≡◌, ℕ, ◌+◌, ◌*◌, ◌≤◌, ◌<◌, ltb, length, take};
ghost use Rattle.lines.specs.Names.{names_in, place_among};
ghost use Rattle.tables.specs.Tables.{macro_line, header_line, number_of, number_told};
ghost use Rattle.tables.specs.Tables.{with_entry, names_after, bodies_after, headers_after};

use lines::names::{NameAt, name_at, place_named};
use sheet::refusal::Refusal;

// How many macros a sheet may have.
const MACROS: usize = 64;

// How many instruments a sheet may have with the default one.
const INSTRUMENTS: usize = 32;

// Whether one of a table's first `count` names is this one.
fn is_taken(source: &[u8], names: &[usize], count: usize, name: &[u8]) -> bool
    requires { 2 * count ≤ length names.now }
    ensures { result ≡ ltb (place_among name.now (names_in source.now (take (2 * count) names.now))) count }
{
    let place = place_named(source, &names[..2 * count], name);
    place < count
}

// One more entry behind the first `count`.
#[tactic(auto, unfolding(crate::specs::Tables::with_entry))]
fn put_entry(table: &mut [usize], count: usize, a: usize, b: usize)
    requires { 2 * count + 1 < length table.old }
    ensures { table.new ≡ with_entry count a b table.old }
{
    let at = 2 * count;
    table[at] = a;
    table[at + 1] = b;
}

// A macro's line, from `from` to `end` of the source: refused where it has under two tokens, where its name is taken,
// and where there are 64 macros.
pub fn macro_line(
    source: &[u8],
    from: usize,
    end: usize,
    names: &mut [usize],
    bodies: &mut [usize],
    count: usize,
    line: usize,
) -> Result<(), Refusal>
    ensures number { number_told result ≡ number_of (macro_line line source.now from end count names.old bodies.old) }
    ensures names { let said = macro_line line source.now from end count names.old bodies.old in
        names.new ≡ names_after said source.now from end count names.old }
    ensures bodies { let said = macro_line line source.now from end count names.old bodies.old in
        bodies.new ≡ bodies_after said line source.now end count bodies.old }
{
    if count > MACROS || names.len() != 2 * MACROS || bodies.len() != 2 * MACROS {
        return Err(Refusal::Full);
    }
    let to = end.min(source.len());
    let begin = from.min(to);
    let l = &source[begin..to];
    let NameAt {
        from: name_from,
        end: name_end,
        two,
    } = name_at(l);
    if !two {
        return Err(Refusal::MacroIncomplete);
    }
    if is_taken(source, names, count, &l[name_from..name_end]) {
        return Err(Refusal::MacroTaken);
    }
    if count >= MACROS {
        return Err(Refusal::Full);
    }
    put_entry(names, count, begin + name_from, begin + name_end);
    put_entry(bodies, count, to, line);
    Ok(())
}

// An instrument's header, from `from` to `end` of the source: refused where its name is taken, and where there are 32
// with the default one.
pub fn header_line(
    source: &[u8],
    from: usize,
    end: usize,
    names: &mut [usize],
    count: usize,
) -> Result<(), Refusal>
    ensures number { (line : ℕ) →
        number_told result ≡ number_of (header_line line source.now from end count names.old) }
    ensures names { (line : ℕ) →
        let said = header_line line source.now from end count names.old in
        names.new ≡ headers_after said source.now from end count names.old }
{
    if count > INSTRUMENTS || names.len() != 2 * INSTRUMENTS {
        return Err(Refusal::Full);
    }
    let to = end.min(source.len());
    let begin = from.min(to);
    if is_taken(source, names, count, &source[begin..to]) {
        return Err(Refusal::InstrumentTaken);
    }
    if count + 1 >= INSTRUMENTS {
        return Err(Refusal::Full);
    }
    put_entry(names, count, begin, to);
    Ok(())
}
