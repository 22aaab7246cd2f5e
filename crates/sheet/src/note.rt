// A note: how loud, how high, how long, and on which instrument.

#[derive(Clone, Copy)]
pub struct Note {
    // 0.0 for a rest.
    pub amplitude: f32,
    pub frequency: f32,
    // In seconds.
    pub duration: f32,
    // A place in the sheet's table of instruments.
    pub instrument: usize,
}
