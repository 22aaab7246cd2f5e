// What a source is read as.

use sheet::sheet::Sheet;

#[derive(Clone, Copy)]
pub struct Reading {
    // A refusal's number, 0 for none, and its line.
    pub refusal: u32,
    pub line: usize,
    // How many steps were read, and what they gave; after a refusal none, and the empty sheet.
    pub steps: usize,
    pub sheet: Sheet,
}
