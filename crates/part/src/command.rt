// Commands that change a part's environment and nothing else.

ghost use Rattle.std.specs.Prelude.{List, ℕ, Float};
ghost use Rattle.lines.specs.Names.{names_in};
ghost use Rattle.sheet.specs.Refusals.{Outcome};
ghost use Rattle.settings.specs.Changes.{change_outcome, Low};
ghost use Rattle.items.specs.Items as Items;
ghost use Rattle.tables.specs.Named.{Macro};
ghost use Rattle.part.specs.Body.{Progress, does, changing};
ghost use Rattle.part.specs.Columns.{Ready, Becomes, progress_of, book_of};

use crate::state::State;
use environment::environment::Environment;
use lines::names::place_named;
use sheet::refusal::Refusal;

// The environment that a command came to, in place of the part's, or its refusal.
pub(crate) fn change(st: State, line: usize, changed: Result<Environment, Refusal>) -> State
    requires { Low (change_outcome line changed) }
    ensures { (fs : List Float) (is ls : List ℕ) → Ready st fs is ls
        → Becomes (changing (change_outcome line changed) (progress_of st fs is ls)) result fs is ls }
{
    match changed {
        Ok(env) => State { env, ..st },
        Err(why) => st.refused(why, line),
    }
}

// `@` and a name: refused where no instrument has it. The default one has no name, so the first name is that of
// instrument 1.
pub(crate) fn instrument(
    source: &[u8],
    names: &[usize],
    st: State,
    line: usize,
    name: &[u8],
) -> State
    ensures { (rate : ℕ) (ms : List Macro) (rs : List Float) (inner : Macro → Progress → Outcome Progress)
        (fs : List Float) (is ls : List ℕ) → Ready st fs is ls →
        let book = book_of rate ms (names_in source.now names.now) rs in
        Becomes (does book line inner (Items.instrument name.now) (progress_of st fs is ls)) result fs is ls }
{
    let place = place_named(source, names, name);
    if names.len() - 2 * place < 2 {
        return st.refused(Refusal::UnknownInstrument, line);
    }
    let env = Environment {
        instrument: place + 1,
        ..st.env
    };
    State { env, ..st }
}
