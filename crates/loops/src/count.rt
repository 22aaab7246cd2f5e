// The counts of a loop that closes: how many notes come in its last pass, and how many passes it has.

ghost use Rattle.std.specs.Prelude.{◌≡◌, ◌≤◌};
ghost use Rattle.environment.specs.Ranges.{digit_run};
ghost use Rattle.loops.specs.Loops.{cut_of, last_count, times_of};

use text::parsed::Parsed;

// How many notes of a loop's m come in its last pass.
pub fn last_count(start: usize, cut: usize, m: usize) -> usize
    ensures { (result ≡ last_count start (cut_of cut) m) × (result ≤ m) }
{
    match cut.checked_sub(1) {
        None => m,
        Some(place) => place.saturating_sub(start).min(m),
    }
}

// A loop's count: 0 where there is none.
#[tactic(auto, unfolding(crate::specs::Loops::times_of, environment::specs::Ranges::digit_run))]
pub fn times_of(times: Option<Parsed<u64>>) -> u64
    ensures { result ≡ times_of (digit_run times) }
{
    times.map_or(0, |found| found.value)
}
