// How long the notes of a part last: the largest end of a sounding note, in samples.

ghost use Rattle.std.specs.Prelude.{◌≡◌, min, take, get_or};
ghost use Rattle.std.specs.Float.{nan};
ghost use Rattle.ieee.specs.Constants.{plus_zero};
ghost use Rattle.sheet.specs.Capacities.{notes_most};
ghost use Rattle.sheet.specs.Lengths.{end_of};
ghost use Rattle.columns.specs.Columns.{notes_in};

use sheet::length::samples;
use sheet::sheet::NOTES_MOST;

// A number of a column: past its end 0.0.
pub fn number_at(floats: &[f32], i: usize) -> f32
    ensures { result ≡ get_or floats.now i plus_zero }
{
    floats.get(i).copied().unwrap_or(0.0)
}

// The release of an instrument: past the table no number.
fn release_at(releases: &[f32], i: usize) -> f32
    ensures { result ≡ get_or releases.now i nan }
{
    releases.get(i).copied().unwrap_or(f32::NAN)
}

// The largest end of the first `count` notes of two columns, at most 2,048 of them: 0 where there is none. An instrument past the table of releases has a
// release that is no number, and so its note does not sound.
pub fn part_end(
    floats: &[f32],
    instruments: &[u8],
    count: usize,
    releases: &[f32],
    rate: u32,
) -> u64
    ensures { result ≡ end_of rate releases.now 0 (notes_in floats.now (take (min count notes_most) instruments.now)) }
{
    let most = count.min(NOTES_MOST).min(instruments.len());
    let mut start = 0;
    let mut end: u64 = 0;
    for (i, instrument) in instruments[..most].iter().enumerate() {
        let duration = number_at(floats, 3 * i + 2);
        let release = release_at(releases, usize::from(*instrument));
        end = end.max(start + samples(duration + release, rate));
        start += samples(duration, rate);
    }
    end
}
