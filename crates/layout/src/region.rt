// Columns cut into regions of one width, one region behind the other.

ghost use Rattle.std.specs.Prelude.{◌≡◌};
ghost use Rattle.layout.specs.Regions.{region};

// The region k of a column, which has `width` elements, or fewer where the column ends.
pub fn region<T>(column: &[T], width: usize, k: usize) -> &[T]
    ensures { result.now ≡ region width k column.now }
{
    let from = width.saturating_mul(k).min(column.len());
    let behind = &column[from..];
    &behind[..width.min(behind.len())]
}
