// Lines: where the line at a place ends, and where the next one begins.

ghost use Rattle.std.specs.Prelude.{◌≡◌, ◌+◌, length, drop};
ghost use Rattle.text.specs.Fronts.{front};
ghost use Rattle.lines.specs.Lines.{is_not_lf, line_at};

use text::runs::run_end;

// The place after a line's last byte, and the place where the next line begins.
#[derive(Clone, Copy)]
pub struct Line {
    pub end: usize,
    pub next: usize,
}

// The place of the first LF from i on, or of the text's end.
#[tactic(auto, unfolding(crate::specs::Lines::is_not_lf))]
fn lf_from(s: &[u8], i: usize) -> usize
    ensures { result ≡ i + length (front is_not_lf (drop i s.now)) }
{
    run_end(s, i, |b| b != b'\n')
}

// The line that begins at place i: it ends before its LF, and before one CR that stands there. Past the
// text's end there is no line, and both places are i.
pub fn line_at(s: &[u8], i: usize) -> Line
    ensures { result ≡ line_at s.now i }
{
    let lf = lf_from(s, i);
    if lf >= s.len() {
        return Line { end: lf, next: lf };
    }
    let next = lf + 1;
    if lf == i {
        return Line { end: lf, next };
    }
    let last = lf - 1;
    if s[last] == b'\r' {
        return Line { end: last, next };
    }
    Line { end: lf, next }
}
