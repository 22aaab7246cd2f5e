// A part's line: which part it names, the state that this part is read on from, and its body.

ghost use Rattle.std.specs.Prelude.{◌≡◌, List, ℕ, ◌+◌, ◌*◌, ◌≤◌, ◌<◌, length, take, drop, get_or, true, false};
ghost use Rattle.lines.specs.Names.{names_in, place_among};
ghost use Rattle.sheet.specs.Capacities.{parts_most};
ghost use Rattle.environment.specs.declared.environment.Environment.{Environment};
ghost use Rattle.part.specs.Columns.{book_in};
ghost use Rattle.meaning.specs.Sheets.{kind_of, part_line};
ghost use Rattle.parser.specs.Columns.{macro_column, name_column, release_column, place_column};
ghost use Rattle.parser.specs.PartSteps.{state_from, PartNamed, NamedAt, ReadyAt, body_at, BodyCame};

use crate::sofar::Sofar;
use lines::names::{name_at, place_named};
use part::part::read_part;
use part::state::State;

// The most parts of a sheet.
pub(crate) const PARTS: usize = 16;

// The place of a name among those of the first `parts` parts, `parts` where it is new.
fn place_of(source: &[u8], loops: &[usize], parts: usize, name: &[u8]) -> usize
    requires { (parts ≤ 16) × (length loops.now ≡ 288) }
    ensures { result ≡ place_among name.now (names_in source.now (take (2 * parts) (place_column loops.now))) }
{
    let at = 256 + 2 * parts;
    let known = &loops[256..at];
    place_named(source, known, name)
}

// Whether a line is a part's, by the byte that it begins with.
fn is_part(l: &[u8]) -> bool
    ensures { (result ≡ true → kind_of l.now ≡ part_line) × (result ≡ false → kind_of l.now ≡ part_line → ⊥) }
{
    if l.is_empty() {
        return false;
    }
    match l[0] {
        b';' | b'@' | b'#' | b'!' => false,
        _ => true,
    }
}

// Which part a line names that is a part's, with a name and a body.
#[derive(Clone, Copy)]
pub struct Parted {
    // The part's place, 16 or more where there is no room for it.
    pub place: usize,
    // From where to where its name stands in the source; the body is what follows.
    pub from: usize,
    pub end: usize,
}

// Which part the line from `at` to `end` of the source names, where there are so many parts.
pub(crate) fn part_of(
    source: &[u8],
    at: usize,
    end: usize,
    loops: &[usize],
    parts: usize,
) -> Option<Parted>
    requires { (at ≤ end) × ((end ≤ length source.now) × ((parts ≤ 16) × (length loops.now ≡ 288))) }
    ensures { PartNamed source.now at end parts loops.now result }
{
    let l = &source[at..end];
    if !is_part(l) {
        return None;
    }
    let name = name_at(l);
    if !name.two {
        return None;
    }
    Some(Parted {
        place: place_of(source, loops, parts, &l[name.from..name.end]),
        from: at + name.from,
        end: at + name.end,
    })
}

// The places of the name of the part k, from `from` to `end` of the source, where it is not one of the `parts` parts that are there.
pub(crate) fn named(loops: &mut [usize], k: usize, parts: usize, from: usize, end: usize)
    requires { (k < 16) × (length loops.old ≡ 288) }
    ensures { NamedAt k parts from end loops.old loops.new }
{
    if k < parts {
        return;
    }
    let at = 256 + 2 * parts;
    loops[at] = from;
    loops[at + 1] = end;
}

// The state that the part k is read on from: what it has, or that of a new part.
pub(crate) fn state_of(r: &Sofar, k: usize) -> State
    requires { (k < parts_most) × (k < r.now.parts → get_or r.now.counts k 0 ≤ r.now.all) }
    ensures { (d : Environment) → result ≡ state_from k r.now.parts (get_or r.now.envs k d) (get_or r.now.counts k 0) (get_or r.now.depths k 0) r.now.start r.now.all r.now.steps }
{
    let new = State {
        env: r.start,
        count: 0,
        others: r.all,
        depth: 0,
        steps: r.steps,
        refusal: 0,
        line: 0,
    };
    if k >= r.parts {
        return new;
    }
    let count = r.counts[k];
    State {
        env: r.envs[k],
        count,
        others: r.all - count,
        depth: r.depths[k],
        ..new
    }
}

// A body that is read on from a state, in the regions of the part k.
fn body_at(
    source: &[u8],
    macros: &[usize],
    bodies: &[usize],
    names: &[usize],
    releases: &[f32],
    text: &[u8],
    floats: &mut [f32],
    bytes: &mut [u8],
    loops: &mut [usize],
    k: usize,
    st: State,
    line: usize,
    rate: u32,
) -> State
    requires { (k < 16) × ((length floats.old ≡ 98304) × ((length bytes.old ≡ 32768) × ((length loops.old ≡ 288) × ((length releases.now ≤ 32) × ReadyAt k st floats.old bytes.old loops.old)))) }
    ensures body { BodyCame (body_at (book_in rate source.now macros.now bodies.now names.now releases.now) line text.now k st floats.old bytes.old loops.old) k st result floats.old bytes.old loops.old floats.new bytes.new loops.new }
    ensures places { place_column loops.new ≡ place_column loops.old }
{
    let a = 6144 * k;
    let b = 2048 * k;
    let d = 16 * k;
    read_part(
        source,
        macros,
        bodies,
        names,
        releases,
        text,
        &mut floats[a..a + 6144],
        &mut bytes[b..b + 2048],
        &mut loops[d..d + 16],
        st,
        line,
        rate,
    )
}

// A body of the part k that is read on from a state, with the tables as far as they are filled.
pub(crate) fn played(
    source: &[u8],
    bodies: &[usize],
    numbers: &[f32],
    shape: &[usize],
    text: &[u8],
    floats: &mut [f32],
    bytes: &mut [u8],
    loops: &mut [usize],
    k: usize,
    macros: usize,
    instruments: usize,
    st: State,
    line: usize,
    rate: u32,
) -> State
    requires columns { (k < 16) × ((length floats.old ≡ 98304) × ((length bytes.old ≡ 32768) × ((length loops.old ≡ 288) × ReadyAt k st floats.old bytes.old loops.old))) }
    requires tables { (macros ≤ 64) × ((instruments + 1 ≤ 32) × ((length bodies.now ≡ 128) × ((length numbers.now ≡ 6176) × (length shape.now ≡ 2272)))) }
    ensures body { BodyCame (body_at (book_in rate source.now (take (2 * macros) (macro_column shape.now)) (take (2 * macros) bodies.now) (take (2 * instruments) (name_column shape.now)) (take (instruments + 1) (release_column numbers.now))) line text.now k st floats.old bytes.old loops.old) k st result floats.old bytes.old loops.old floats.new bytes.new loops.new }
    ensures places { place_column loops.new ≡ place_column loops.old }
{
    let m = 2 * macros;
    let n = 2 * instruments;
    let i = instruments + 1;
    body_at(
        source,
        &shape[2048..2048 + m],
        &bodies[..m],
        &shape[2176..2176 + n],
        &numbers[6144..6144 + i],
        text,
        floats,
        bytes,
        loops,
        k,
        st,
        line,
        rate,
    )
}
