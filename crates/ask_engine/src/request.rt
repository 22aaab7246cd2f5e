// A request: the eight numbers of its head, in front of the sheet's text.

ghost use Rattle.std.specs.Prelude.{◌≤◌, length};

use fields::word::word;

#[derive(Clone, Copy)]
pub struct Request {
    // How many bytes of text follow.
    pub text: u32,
    // Which field is put out of range, 0 for none; of which part, note or instrument; and what it becomes.
    pub field: u32,
    pub which: u32,
    pub becomes: u32,
    // 0: a window of samples; 1: the header; 2: a window of bytes.
    pub kind: u32,
    pub start: u32,
    // How many elements the buffer has, and the place in it.
    pub room: u32,
    pub at: u32,
}

pub fn of(head: &[u8]) -> Request
    requires { 32 ≤ length head.now }
{
    Request {
        text: word(head, 0),
        field: word(head, 4),
        which: word(head, 8),
        becomes: word(head, 12),
        kind: word(head, 16),
        start: word(head, 20),
        room: word(head, 24),
        at: word(head, 28),
    }
}

// How many bytes of text follow: 40,000 at the most.
pub fn follow(asked: Request) -> usize
    ensures { result ≤ 40000 }
{
    (asked.text as usize).min(40000)
}
