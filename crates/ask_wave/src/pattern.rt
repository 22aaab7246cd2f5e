// What a buffer holds before a writer gets it: bytes that differ from place to place, so that it is seen when
// a byte which was to stay is written or moved.

ghost use Rattle.std.specs.Prelude.{◌≡◌, length};
ghost use Rattle.std.proofs.lemmas.List.Edits.{sets};
ghost use Rattle.ask_wave.specs.Request.{pattern_from};

// Byte i becomes i modulo 251.
pub fn fill(buffer: &mut [u8])
    ensures { buffer.new ≡ sets buffer.old 0 (pattern_from 0 (length buffer.old)) }
{
    for (i, b) in buffer.iter_mut().enumerate() {
        *b = (i % 251) as u8;
    }
}
