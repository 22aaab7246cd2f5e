// Blocks of requests and answers: how an answer is written out in 16 bytes, and how a block of requests
// becomes a block of answers.

ghost use Rattle.std.specs.Prelude.{◌≡◌, ◌+◌, ◌*◌, ◌/◌, ◌≤◌, min, length};
ghost use Rattle.std.proofs.lemmas.List.Edits.{sets};
ghost use Rattle.io.specs.Counts.{IsPrefixLen};
ghost use Rattle.sine.specs.Quarter.{quarter};
ghost use Rattle.ask_numbers.specs.Block.{put_at, answered};

use crate::answer;
use crate::answer::Answer;

// Copies bytes to place `at` of `out` and those behind it.
fn put_bytes(out: &mut [u8], at: usize, bytes: &[u8])
    requires { at + length bytes.now ≤ length out.old }
    ensures { out.new ≡ sets out.old at bytes.now }
{
    out[at..at + bytes.len()].copy_from_slice(bytes);
}

// Writes an answer's 16 bytes: its tag, its value and its place.
fn put(out: &mut [u8], at: usize, a: Answer)
    requires { at + 16 ≤ length out.old }
    ensures { out.new ≡ put_at out.old at a }
{
    put_bytes(out, at, &a.tag.to_le_bytes()[..4]);
    put_bytes(out, at + 4, &a.value.to_le_bytes());
    put_bytes(out, at + 12, &a.place.to_le_bytes()[..4]);
}

// Answers as many whole requests as there are and as `out` has room for, and says how many bytes that
// took.
pub fn answer_all(table: &[u32; 1025], requests: &[u8], out: &mut [u8]) -> usize
    requires { table.now ≡ quarter }
    ensures within { IsPrefixLen result out.new }
    ensures count { result ≡ min (length requests.now / 32) (length out.old / 16) * 16 }
    ensures answers { out.new ≡ answered requests.now out.old 0 (result / 16) }
{
    let n = (requests.len() / 32).min(out.len() / 16);
    for i in 0..n {
        let from = i * 32;
        let a = answer::to(table, &requests[from..from + 32]);
        put(out, i * 16, a);
    }
    n * 16
}
