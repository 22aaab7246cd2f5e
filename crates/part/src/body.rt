// The reader of bodies: "A body calls a macro, a macro holds a body." `body` walks over the items of a text, `item`
// counts the step and does what the item says, and `call` reads a macro's body where the macro is called, with one
// nested call less to go.

ghost use Rattle.std.specs.Prelude.{◌≡◌, false, List, ◌≤◌, ◌<◌, length};
ghost use Rattle.lines.specs.Names.{names_in};
ghost use Rattle.sheet.specs.Capacities.{instruments_most};
ghost use Rattle.sheet.specs.Refusals.{Outcome};
ghost use Rattle.tables.specs.Named.{Macro};
ghost use Rattle.part.specs.Body.{Progress, called, does, stepped, run, inside};
ghost use Rattle.part.specs.Columns.{Ready, Becomes, progress_of, book_of, held, SameColumns};
ghost use Rattle.items.specs.Items.{items_of};
ghost use Rattle.items.specs.Written.{item_of, is_call};

use crate::command::{change, instrument};
use crate::note::noted;
use crate::open_loops::{closed, cut_here, opened};
use crate::state::{Book, Columns, STEPS, State};
use items::item::{Item, is_call, item_at};
use lines::names::place_named;
use settings::command::{
    amplitude_command, key_command, octave_command, tempo_command, value_command,
};
use sheet::refusal::Refusal;
use text::blanks::blanks_end;
use text::parsed::Parsed;

// What an item does that is no macro call.
fn done(
    book: &Book,
    text: &[u8],
    columns: &mut Columns,
    st: State,
    line: usize,
    at: usize,
    next: usize,
    item: Item,
) -> State
    requires ready { Ready st columns.old.floats.now columns.old.instruments.now columns.old.loops.now }
    requires few_releases { (length book.now.releases.now ≤ instruments_most) × (is_call item ≡ false) }
    requires places { (at ≤ next) × (next ≤ length text.now) }
    ensures becomes { (ms : List Macro) (inner : Macro → Progress → Outcome Progress) →
        let names = names_in book.now.source.now book.now.names.now in
        let named = book_of book.now.rate ms names book.now.releases.now in
        let before = progress_of st columns.old.floats.now columns.old.instruments.now columns.old.loops.now in
        let found = item_of text.now at next item in
        Becomes (does named line inner found before)
        result columns.new.floats.now columns.new.instruments.now columns.new.loops.now }
    ensures same { SameColumns columns.old columns.new }
{
    let env = st.env;
    match item {
        Item::Note(n) => noted(
            book.releases,
            columns.floats,
            columns.instruments,
            st,
            line,
            book.rate,
            n,
        ),
        Item::Up => change(st, line, Ok(env.octave_up())),
        Item::Down => change(st, line, Ok(env.octave_down())),
        Item::Opening => opened(columns.loops, st, line),
        Item::Cut => cut_here(columns.loops, st, line),
        Item::Closing(n) => closed(
            columns.floats,
            columns.instruments,
            columns.loops,
            st,
            line,
            n,
        ),
        Item::Octave(n) => change(st, line, octave_command(env, n)),
        Item::Value(n) => change(st, line, value_command(env, n)),
        Item::Tempo(n) => change(st, line, tempo_command(env, n)),
        Item::Amplitude(d) => change(st, line, amplitude_command(env, d)),
        Item::Key(k) => change(st, line, key_command(env, k)),
        Item::Instrument => instrument(book.source, book.names, st, line, &text[at..next]),
        Item::Call => st,
        Item::Unknown => st.refused(Refusal::UnknownCharacter, line),
    }
}

// One item: its step is counted, and that there are too many precedes all else.
#[cycle(body_call_item)]
fn item(
    book: &Book,
    text: &[u8],
    columns: &mut Columns,
    st: State,
    line: usize,
    at: usize,
    found: Parsed<Item>,
    nest: usize,
) -> State
    requires ready { Ready st columns.old.floats.now columns.old.instruments.now columns.old.loops.now }
    requires few_releases { length book.now.releases.now ≤ instruments_most }
    requires places { (at ≤ found.next) × (found.next ≤ length text.now) }
    ensures becomes { let lent = held book.now in
        let before = progress_of st columns.old.floats.now columns.old.instruments.now columns.old.loops.now in
        let this = item_of text.now at found.next found.value in
        Becomes (stepped lent line (inside lent nest line) this before)
        result columns.new.floats.now columns.new.instruments.now columns.new.loops.now }
    ensures same { SameColumns columns.old columns.new }
{
    let steps = st.steps;
    if steps >= STEPS {
        return st.refused(Refusal::TooManySteps, line);
    }
    let s = State {
        steps: steps + 1,
        ..st
    };
    let Parsed { value: kind, next } = found;
    if is_call(kind) {
        let name = &text[at..next];
        return call(book, columns, s, line, name, nest);
    }
    done(book, text, columns, s, line, at, next, kind)
}

// A macro call: refused where no macro has the name, or where no nested call is left. The macro's body is a part of the
// source.
#[cycle(body_call_item)]
fn call(
    book: &Book,
    columns: &mut Columns,
    st: State,
    line: usize,
    name: &[u8],
    nest: usize,
) -> State
    requires ready { Ready st columns.old.floats.now columns.old.instruments.now columns.old.loops.now }
    requires few_releases { length book.now.releases.now ≤ instruments_most }
    ensures becomes { let lent = held book.now in
        let before = progress_of st columns.old.floats.now columns.old.instruments.now columns.old.loops.now in
        Becomes (called lent line (inside lent nest line) name.now before)
        result columns.new.floats.now columns.new.instruments.now columns.new.loops.now }
    ensures same { SameColumns columns.old columns.new }
{
    let Book {
        source,
        macros,
        bodies,
        ..
    } = *book;
    let place = place_named(source, macros, name);
    let at = 2 * place;
    if macros.len() - at < 2 || bodies.len() < at + 2 {
        return st.refused(Refusal::UnknownMacro, line);
    }
    if nest == 0 {
        return st.refused(Refusal::NestedTooDeep, line);
    }
    let begin = macros[at + 1];
    let end = bodies[at];
    let own = bodies[at + 1];
    let to = end.min(source.len());
    let from = begin.min(to);
    let text = &source[from..to];
    body(book, text, columns, st, own, nest - 1)
}

// The items of a text one after the other, up to its end, a `;` or a refusal.
#[cycle(body_call_item)]
pub(crate) fn body(
    book: &Book,
    text: &[u8],
    columns: &mut Columns,
    st: State,
    line: usize,
    nest: usize,
) -> State
    requires ready { Ready st columns.old.floats.now columns.old.instruments.now columns.old.loops.now }
    requires few_releases { length book.now.releases.now ≤ instruments_most }
    ensures becomes { let lent = held book.now in
        let before = progress_of st columns.old.floats.now columns.old.instruments.now columns.old.loops.now in
        Becomes (run lent line (inside lent nest line) (items_of text.now) before)
        result columns.new.floats.now columns.new.instruments.now columns.new.loops.now }
    ensures same { SameColumns columns.old columns.new }
{
    let mut s = st;
    let mut at = 0;
    loop {
        let from = blanks_end(text, at);
        if from >= text.len() {
            return s;
        }
        if text[from] == b';' {
            return s;
        }
        let found = item_at(text, from);
        let next = found.next;
        s = item(book, text, columns, s, line, from, found, nest);
        if s.refusal != 0 {
            return s;
        }
        at = next;
    }
}
