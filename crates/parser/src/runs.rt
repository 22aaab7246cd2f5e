// A run of parts' lines, one after the other.

ghost use Rattle.std.specs.Prelude.{◌≡◌, ◌+◌, ◌≤◌, length};
ghost use Rattle.strict.specs.declared.mode.Mode.{Mode};
ghost use Rattle.parser.specs.Columns.{place_column, tables_in};
ghost use Rattle.parser.specs.Walks.{rest_read, Walking, PartsRead};

use crate::parts::{PARTS, named, part_of, played, state_of};
use crate::sofar::Sofar;
use lines::lines::line_at;
use sheet::refusal::Refusal;

// All lines up to the next one that names no part, or to the first refusal. The reading is changed in its place: handed on by value for each line, it would be
// copied for each. Nothing in a body is strict, so that the mode says nothing here.
pub(crate) fn part_lines(
    source: &[u8],
    bodies: &[usize],
    numbers: &[f32],
    shape: &[usize],
    floats: &mut [f32],
    bytes: &mut [u8],
    loops: &mut [usize],
    mut r: Sofar,
    rate: u32,
) -> Sofar
    requires { (length source.now ≤ 32768) × ((mode : Mode) → Walking mode rate source.now (rest_read mode rate source.now (place_column loops.old) r floats.old bytes.old loops.old (tables_in bodies.now numbers.now shape.now)) (place_column loops.old) r floats.old bytes.old loops.old (tables_in bodies.now numbers.now shape.now)) }
    ensures { (mode : Mode) → PartsRead mode rate source.now (rest_read mode rate source.now (place_column loops.old) r floats.old bytes.old loops.old (tables_in bodies.now numbers.now shape.now)) r result floats.new bytes.new loops.new (tables_in bodies.now numbers.now shape.now) }
{
    while r.at < source.len() {
        let at = r.at;
        let line = line_at(source, at);
        let end = line.end;
        let Some(p) = part_of(source, at, end, loops, r.parts) else {
            return r;
        };
        let k = p.place;
        if k >= PARTS {
            r.refusal = Refusal::Full.number();
            return r;
        }
        named(loops, k, r.parts, p.from, p.end);
        let before = state_of(&r, k);
        let st = played(
            source,
            bodies,
            numbers,
            shape,
            &source[p.end..end],
            floats,
            bytes,
            loops,
            k,
            r.macros,
            r.instruments,
            before,
            r.line,
            rate,
        );
        if st.refusal != 0 {
            r.refusal = st.refusal;
            r.line = st.line;
            return r;
        }
        r.envs[k] = st.env;
        r.counts[k] = st.count;
        r.depths[k] = st.depth;
        r.parts = r.parts.max(k + 1);
        r.all = st.others + st.count;
        r.steps = st.steps;
        r.line += 1;
        r.at = line.next;
    }
    r
}
