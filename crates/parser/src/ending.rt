// The end of a sheet: 25, 26 and 27, and then what was read, laid out in the arrays of a sheet.

ghost use Rattle.std.specs.Prelude.{◌≡◌, List, [], map, ℕ, ◌+◌, ◌≤◌, min, length, Float};
ghost use Rattle.tree.specs.Lines.{release_of};
ghost use Rattle.sheet.specs.Capacities.{parts_most};
ghost use Rattle.sheet.specs.Refusals.{going, refused, ◌>>=◌ as ◌then◌};
ghost use Rattle.bank.specs.Bank.{lines_from};
ghost use Rattle.parser.specs.declared.sofar.Sofar.{Sofar};
ghost use Rattle.meaning.specs.Layout.{laid_out, sheet_of};
ghost use Rattle.meaning.specs.Sheets.{ended, any_open};
ghost use Rattle.parser.specs.Columns.{Tables, ending, tables_of, tables_in, parts_from, read_in, read_outcome, Fits, Tabled};

use crate::parts::PARTS;
use crate::sofar::Sofar;
use bank::instruments::table_of;
use layout::parts::{counts_of, longest, notes_of};
use meaning::reading::Reading;
use sheet::refusal::Refusal;
use sheet::sheet::Sheet;

// The most samples of a sheet.
const LONGEST: u64 = 2000000000;

// The sheet of a refusal: no parts, notes or instruments.
fn empty_sheet() -> Sheet
    ensures { result ≡ sheet_of [] [] }
{
    let counts = [0; 16];
    Sheet {
        parts: 0,
        counts: counts_of(counts, 0),
        notes: notes_of(&[], &[], counts, 0),
        instruments: 0,
        table: table_of(&[], &[], &[], 0),
    }
}

// The reading that a refusal ends. It is not compiled into its callers, where each of its four calls
// would take room for a sheet.
#[inline(never)]
pub(crate) fn refused_reading(refusal: u32, line: usize) -> Reading
    ensures { result ≡ laid_out (refused refusal line) }
{
    Reading {
        refusal,
        line,
        steps: 0,
        sheet: empty_sheet(),
    }
}

// Whether a loop is open in one of the first `parts` parts, at most 16 of them.
fn any_open(depths: [usize; 16], parts: usize) -> bool
    ensures { (s places : List ℕ) (q : Sofar) (fs : List Float) (is ls : List ℕ) → q.depths ≡ depths → result ≡ any_open (parts_from s places q fs is ls 0 (min parts parts_most)) }
{
    for k in 0..parts.min(PARTS) {
        if depths[k] > 0 {
            return true;
        }
    }
    false
}

// Whether the end of the sheet refuses it.
fn end_refusal(
    floats: &[f32],
    bytes: &[u8],
    releases: &[f32],
    q: Sofar,
    rate: u32,
) -> Result<(), Refusal>
    ensures { (s places ls : List ℕ) (t : Tables) → Fits places q floats.now bytes.now ls → releases.now ≡ map release_of (lines_from t.sizes t.numbers t.shape 0 (q.instruments + 1)) → ended rate (read_in s places q floats.now bytes.now ls t) ≡ ending result (read_in s places q floats.now bytes.now ls t) }
{
    let open = any_open(q.depths, q.parts);
    let end = longest(floats, bytes, q.counts, q.parts, releases, rate);
    if q.parts == 0 {
        return Err(Refusal::NoPart);
    }
    if open {
        return Err(Refusal::LoopOpen);
    }
    if end > LONGEST {
        return Err(Refusal::SheetTooLong);
    }
    Ok(())
}

// The reading without a refusal, of `instruments` instruments. It is not compiled into its caller, where
// its arrays would take room beside the columns.
#[inline(never)]
fn laid(
    floats: &[f32],
    bytes: &[u8],
    numbers: &[f32],
    shape: &[usize],
    sizes: &[usize],
    instruments: usize,
    q: Sofar,
) -> Reading
    ensures { (s places ls ms bs ns : List ℕ) (rs : List Float) → Fits places q floats.now bytes.now ls → Tabled q (tables_of ms bs ns sizes.now numbers.now shape.now rs) → instruments ≡ q.instruments + 1 → result ≡ laid_out (going (read_in s places q floats.now bytes.now ls (tables_of ms bs ns sizes.now numbers.now shape.now rs))) }
{
    Reading {
        refusal: 0,
        line: 0,
        steps: q.steps,
        sheet: Sheet {
            parts: q.parts,
            counts: counts_of(q.counts, q.parts),
            notes: notes_of(floats, bytes, q.counts, q.parts),
            instruments,
            table: table_of(numbers, shape, sizes, instruments),
        },
    }
}

// The reading, where all lines are read: the refusal of one of them, or one of the end, or the sheet.
pub(crate) fn finished(
    floats: &[f32],
    bytes: &[u8],
    numbers: &[f32],
    shape: &[usize],
    q: Sofar,
    rate: u32,
) -> Reading
    requires { q.refusal ≡ 0 → (q.instruments + 1 ≤ 32) × ((length numbers.now ≡ 6176) × (length shape.now ≡ 2272)) }
    ensures { (s places ls bs : List ℕ) → (q.refusal ≡ 0 → Fits places q floats.now bytes.now ls) → (q.refusal ≡ 0 → Tabled q (tables_in bs numbers.now shape.now)) → result ≡ laid_out (read_outcome s places q floats.now bytes.now ls (tables_in bs numbers.now shape.now) then (λ x. ended rate x)) }
{
    if q.refusal != 0 {
        return refused_reading(q.refusal, q.line);
    }
    let instruments = q.instruments + 1;
    let releases = &numbers[6144..6144 + instruments];
    match end_refusal(floats, bytes, releases, q, rate) {
        Err(why) => refused_reading(why.number(), 0),
        Ok(()) => laid(
            floats,
            bytes,
            numbers,
            shape,
            &shape[2240..2272],
            instruments,
            q,
        ),
    }
}
