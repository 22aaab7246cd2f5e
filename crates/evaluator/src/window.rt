// A window of the samples of a sheet that is handed in.

ghost use Rattle.std.specs.Prelude.{◌≡◌, length};
ghost use Rattle.sheet.specs.Answers.{answered};
ghost use Rattle.evaluator.specs.Windows.{window_of, window_in};

use handed::check::check;
use mixing::mixing::mix;
use sheet::refusal::Refusal;
use sheet::sheet::Sheet;

// Writes the samples of a sheet from sample `start` on that exist and fit, and answers how many. A sheet that does not pass the check is refused with
// 28, a start past the sheet's length with 29, and then nothing is written.
pub fn window(sheet: Sheet, out: &mut [f32], rate: u32, start: usize) -> Result<usize, Refusal>
    ensures answer { answered result ≡ window_of rate sheet start (length out.old) }
    ensures values { out.new ≡ window_in rate sheet start out.old }
{
    let samples = check(sheet, rate)?;
    if start > samples {
        return Err(Refusal::StartPastEnd);
    }
    mix(sheet, out, rate, start);
    Ok(out.len().min(samples - start))
}
