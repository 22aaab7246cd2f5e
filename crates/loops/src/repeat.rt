// A loop's further passes, laid down in a column behind the first.

ghost use Rattle.std.specs.Prelude.{◌≡◌};
ghost use Rattle.loops.specs.Again.{laid_again};

// The elements from `start` to n, laid down again and again up to the place `end`. Where there are none, or the column
// is too short, nothing is written.
pub fn repeat<T: Copy>(xs: &mut [T], start: usize, n: usize, end: usize)
    ensures { xs.new ≡ laid_again start n end xs.old }
{
    if start >= n || n > xs.len() || end > xs.len() {
        return;
    }
    let m = n - start;
    for to in n..end {
        xs[to] = xs[to - m];
    }
}
