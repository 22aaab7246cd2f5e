// The whole answer to a source, handed on part by part.

ghost use Rattle.std.specs.Prelude.{◌≡◌, true, length};
ghost use Rattle.system.specs.Counts.{Counts};
ghost use Rattle.handed.specs.Check.{is_sheet};
ghost use Rattle.engine.specs.Stream.{file_of, next_of, next_in};
ghost use Rattle.refusal.specs.Line.{refused_line};
ghost use Rattle.cue.specs.Answer.{answer_of};
ghost use Rattle.cue.specs.Handing.{Fresh, Whole};

use crate::handing::Handing;
use engine::stream::next_bytes;
use form::size::Size;
use parser::reader::read;
use refusal::line::refused_line;
use sheet::sheet::Sheet;
use std::io::Write;
use strict::mode::Mode;
use system::output::Streams;

// One byte more than a source may have is enough to see that it has too many.
pub const SOURCE: usize = 32769;

// The longest line of a refusal.
const LINE: usize = 50;

// The samples of a second.
const RATE: u32 = 44100;

// A file is handed on in parts of so many bytes.
const PART: usize = 65536;

// Hands `refused N L` and a line feed on: the refusal's number, and its line.
fn hand_line<W: Write, E: Write>(
    mode: Mode,
    size: Size,
    source: &[u8],
    number: u32,
    line: usize,
    to: &mut Streams<W, E>,
    out: Handing,
    reached: &mut usize,
) -> Handing
    requires fresh { Fresh out reached.old }
    requires answer { answer_of mode size source.now ≡ refused_line number line }
    ensures { Whole (answer_of mode size source.now) result }
{
    let mut text = [0; LINE];
    let n = refused_line(number, line, &mut text);
    out.hand(mode, size, source, to, &text[..n], reached)
}

// The next bytes of a sheet's file, from place `at` on, at the buffer's start, and how many they are.
fn next(sheet: Sheet, buffer: &mut [u8], size: Size, at: usize) -> usize
    ensures within { Counts result buffer.new }
    ensures count { result ≡ next_of 44100 sheet (length buffer.old) at }
    ensures bytes { buffer.new ≡ next_in size 44100 sheet buffer.old at }
{
    next_bytes(sheet, buffer, size, RATE, at)
}

// Hands a sheet's file on, part by part, until all of it is handed on or nobody takes it any more.
fn hand_file<W: Write, E: Write>(
    mode: Mode,
    size: Size,
    source: &[u8],
    sheet: Sheet,
    to: &mut Streams<W, E>,
    out: Handing,
    reached: &mut usize,
) -> Handing
    requires fresh { Fresh out reached.old }
    requires answer { (answer_of mode size source.now ≡ file_of size 44100 sheet) × (is_sheet 44100 sheet ≡ true) }
    ensures { Whole (answer_of mode size source.now) result }
{
    let mut buffer = [0; PART];
    let mut later = out;
    while later.is_taking() {
        let n = next(sheet, &mut buffer, size, later.place());
        if n == 0 {
            return later;
        }
        later = later.hand(mode, size, source, to, &buffer[..n], reached);
    }
    later
}

// Hands the whole answer to a source in a mode, with the RIFF size of a name, on: where the output takes all that is
// handed to it here, that is the answer, each byte once and in order.
pub(crate) fn answer<W: Write, E: Write>(
    mode: Mode,
    size: Size,
    source: &[u8],
    to: &mut Streams<W, E>,
    out: Handing,
    reached: &mut usize,
) -> Handing
    requires { Fresh out reached.old }
    ensures { Whole (answer_of mode size source.now) result }
{
    let reading = read(source, mode);
    if reading.refusal != 0 {
        return hand_line(
            mode,
            size,
            source,
            reading.refusal,
            reading.line,
            to,
            out,
            reached,
        );
    }
    hand_file(mode, size, source, reading.sheet, to, out, reached)
}
