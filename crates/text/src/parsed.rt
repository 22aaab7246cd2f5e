// What a reader of a text answers: the value that stands at a place, and the place after it.

ghost use Rattle.std.specs.Prelude.{◌≡◌};
ghost use Rattle.text.specs.Parsed.{next_or};

#[derive(Clone, Copy)]
pub struct Parsed<T> {
    pub value: T,
    pub next: usize,
}

// The place after what was asked for at a place: that place itself where nothing was read.
pub fn next_or<T: Copy>(found: Option<Parsed<T>>, at: usize) -> usize
    ensures { result ≡ next_or at found }
{
    match found {
        Some(parsed) => parsed.next,
        None => at,
    }
}
