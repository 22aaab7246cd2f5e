// The buffers that are lent: what they hold before, and how much of them is asked for.

ghost use Rattle.std.specs.Prelude.{◌≡◌, ◌≤◌, length, take};
ghost use Rattle.io.specs.Counts.{IsPrefixLen};

// What a slice of samples holds before it is lent.
pub fn floats() -> [f32; 16384]
    ensures { 16384 ≡ length result }
{
    [7.5; 16384]
}

// What a buffer of bytes holds before it is lent.
pub fn bytes() -> [u8; 65536]
    ensures { 65536 ≡ length result }
{
    [0x5a; 65536]
}

// How many samples of a slice are asked for: all of them at the most.
pub fn floats_asked(room: u32, floats: &[f32]) -> usize
    ensures { (result ≤ length floats.now) × (result ≡ length (take result floats.now)) }
{
    (room as usize).min(floats.len())
}

// How many bytes of a buffer are asked for: all of them at the most.
pub fn bytes_asked(room: u32, buffer: &[u8]) -> usize
    ensures { IsPrefixLen result buffer.now }
{
    (room as usize).min(buffer.len())
}
