// The head of a request: 20 bytes that say which writer to call and with what.

ghost use Rattle.std.specs.Prelude.{◌≡◌, ◌≤◌, min, length};
ghost use Rattle.io.specs.Counts.{IsPrefixLen};
ghost use Rattle.ask_wave.specs.Request.{request_of, follow};

use fields::word::word;

// Kind 0 asks for the file of the samples, 1 for the samples at a place of the buffer, any other for the
// header alone. The buffer has `room` bytes. `place` is the place, or the number of the RIFF size; `count` is how
// many samples follow, or the header's number of samples.
#[derive(Clone, Copy)]
pub struct Request {
    pub kind: u32,
    pub room: u32,
    pub place: u32,
    pub rate: u32,
    pub count: u32,
}

pub fn of(head: &[u8]) -> Request
    requires { length head.now ≡ 20 }
    ensures { result ≡ request_of head.now }
{
    Request {
        kind: word(head, 0),
        room: word(head, 4),
        place: word(head, 8),
        rate: word(head, 12),
        count: word(head, 16),
    }
}

// How many bytes of samples follow the head: four for each, of those that there is room for.
pub fn follow(r: Request, bytes: &[u8]) -> usize
    ensures { (result ≡ follow r (length bytes.now)) × (result ≤ length bytes.now) }
{
    if r.kind >= 2 {
        return 0;
    }
    (4 * (r.count as usize)).min(bytes.len())
}

// How long a part of the buffer is asked for: all of it at the most.
pub fn room(r: Request, buffer: &[u8]) -> usize
    ensures count { result ≡ min r.room (length buffer.now) }
    ensures within { IsPrefixLen result buffer.now }
{
    (r.room as usize).min(buffer.len())
}
