// Names as places in a text. A table has two places for each name: where it begins, and where it ends.

ghost use Rattle.std.specs.Prelude.{◌≡◌, ◌*◌, ◌≤◌, length};
ghost use Rattle.lines.specs.Names.{names_in, place_among};
ghost use Rattle.lines.specs.Tokens.{name_at};

use text::blanks::{blanks_end, ink_end};
use text::characters::same_text;

// How many names of a table stand before the first that is this one; where none is, how many there are. A place past
// the text's end is its end, and a name that would end before it begins is empty.
pub fn place_named(s: &[u8], places: &[usize], name: &[u8]) -> usize
    ensures meant { result ≡ place_among name.now (names_in s.now places.now) }
    ensures within { 2 * result ≤ length places.now }
{
    for passed in 0..places.len() / 2 {
        let at = 2 * passed;
        let to = places[at + 1].min(s.len());
        let from = places[at].min(to);
        if same_text(name, &s[from..to]) {
            return passed;
        }
    }
    places.len() / 2
}

// The first token of a line, from `from` to `end`, and whether a second one follows it.
#[derive(Clone, Copy)]
pub struct NameAt {
    pub from: usize,
    pub end: usize,
    pub two: bool,
}

// Where a line's first token stands: its name, where a second token follows. In `p c` the name ends at 1.
pub fn name_at(l: &[u8]) -> NameAt
    ensures { result ≡ name_at l.now }
{
    let from = blanks_end(l, 0);
    let end = ink_end(l, from);
    let next = blanks_end(l, end);
    let two = next < l.len();
    NameAt { from, end, two }
}
