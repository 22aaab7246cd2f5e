// The words that the program is started with.

ghost use Rattle.std.specs.Prelude.{◌≡◌};
ghost use Rattle.cue.specs.Words.{asked_by_one, are_both, asked_by_two, asked_by};

use form::size::Size;
use strict::mode::Mode;
use text::characters::same_text;

// How the program is used.
pub const USE: [u8; 48] = *b"use: cue [strict] [old-size] < sheet > file.wav\n";

// What is asked by one word: a mode to read in, and the name of the RIFF size to write, or nothing that the program
// understands.
#[tactic(auto, unfolding(crate::specs::Words::asked_by_one, text::specs::Quoted::bytes))]
fn asked_by_one(word: &[u8]) -> Option<(Mode, Size)>
    ensures { result ≡ asked_by_one word.now }
{
    if same_text(word, b"strict") {
        return Some((Mode::Strict, Size::Published));
    }
    if same_text(word, b"old-size") {
        return Some((Mode::Plain, Size::Old));
    }
    None
}

// Whether the two words are both that there are, in this order.
#[tactic(auto, unfolding(crate::specs::Words::are_both, text::specs::Quoted::bytes))]
fn are_both(first: &[u8], second: &[u8]) -> bool
    ensures { result ≡ are_both first.now second.now }
{
    same_text(first, b"strict") && same_text(second, b"old-size")
}

// What is asked by two words.
#[tactic(auto, unfolding(crate::specs::Words::asked_by_two))]
fn asked_by_two(first: &[u8], second: &[u8]) -> Option<(Mode, Size)>
    ensures { result ≡ asked_by_two first.now second.now }
{
    let both = are_both(first, second) || are_both(second, first);
    both.then_some((Mode::Strict, Size::Old))
}

// What is asked by so many words, the program's own name among them, of which these stand behind the name; a word that there is not counts for nothing.
#[tactic(auto, unfolding(crate::specs::Words::asked_by))]
pub fn asked_by(count: usize, first: &[u8], second: &[u8]) -> Option<(Mode, Size)>
    ensures { result ≡ asked_by count first.now second.now }
{
    match count {
        0..=1 => Some((Mode::Plain, Size::Published)),
        2 => asked_by_one(first),
        3 => asked_by_two(first, second),
        _ => None,
    }
}
