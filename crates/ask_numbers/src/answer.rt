// What each kind of request is answered: a tag, a value and, for a text, the place after the number.
// Every answer is the proved function's own, put into numbers.

ghost use Rattle.std.specs.Prelude.{◌≡◌, length, to_bits};
ghost use Rattle.std.specs.Float.{binary32};
ghost use Rattle.sine.specs.Quarter.{quarter};
ghost use Rattle.ask_numbers.specs.Answer.{tagged, valued, decimal_answer, digits_answer, length_answer, decimal_for, digits_for, sine_for, frequency_for, duration_for, length_for, sines_for, answer_to};

use crate::{request, sines};
use fields::float;
use fields::word::word;
use number::decimal::{NoDecimal, eat_float};
use number::digits::eat_int;
use text::parsed::Parsed;
use tone::time::{Uncounted, sec_to_len};

// Tags: 0 no such kind, 1 a value, 2 no number, 3 too long, 4 not a number, 5 negative, 6 too many.
#[derive(Clone, Copy)]
pub struct Answer {
    pub tag: u64,
    pub value: u64,
    pub place: u64,
}

// An answer that is only a tag.
fn plain(tag: u64) -> Answer
    ensures { result ≡ tagged tag }
{
    Answer {
        tag,
        value: 0,
        place: 0,
    }
}

// An answer that is only a value.
fn number(value: u64) -> Answer
    ensures { result ≡ valued value }
{
    Answer {
        tag: 1,
        value,
        place: 0,
    }
}

// The bits of a float as an answer.
fn float_bits(x: f32) -> Answer
    ensures { result ≡ valued (to_bits binary32 x) }
{
    number(u64::from(float::to_bits(x)))
}

fn of_decimal(found: Result<Parsed<f32>, NoDecimal>) -> Answer
    ensures { result ≡ decimal_answer found }
{
    match found {
        Ok(x) => Answer {
            tag: 1,
            value: u64::from(float::to_bits(x.value)),
            place: x.next as u64,
        },
        Err(NoDecimal::Unreadable) => plain(2),
        Err(NoDecimal::TooLong) => plain(3),
    }
}

fn of_int(found: Option<Parsed<u64>>) -> Answer
    ensures { result ≡ digits_answer found }
{
    match found {
        Some(n) => Answer {
            tag: 1,
            value: n.value,
            place: n.next as u64,
        },
        None => plain(2),
    }
}

fn of_length(length: Result<u64, Uncounted>) -> Answer
    ensures { result ≡ length_answer length }
{
    match length {
        Ok(n) => number(n),
        Err(Uncounted::NotANumber) => plain(4),
        Err(Uncounted::Negative) => plain(5),
        Err(Uncounted::TooMany) => plain(6),
    }
}

fn decimal(s: &[u8]) -> Answer
    requires { length s.now ≡ 32 }
    ensures { result ≡ decimal_for s.now }
{
    of_decimal(eat_float(request::text(s), request::place(s)))
}

fn digits(s: &[u8], limit: u64) -> Answer
    requires { length s.now ≡ 32 }
    ensures { result ≡ digits_for limit s.now }
{
    of_int(eat_int(request::text(s), request::place(s), limit))
}

fn sine(table: &[u32; 1025], s: &[u8]) -> Answer
    requires { (table.now ≡ quarter) × (length s.now ≡ 32) }
    ensures { result ≡ sine_for s.now }
{
    number(u64::from(sines::sine_bits(table, word(s, 4))))
}

fn frequency(s: &[u8]) -> Answer
    requires { length s.now ≡ 32 }
    ensures { result ≡ frequency_for s.now }
{
    float_bits(tone::power::frequency(word(s, 4)))
}

fn duration(s: &[u8]) -> Answer
    requires { length s.now ≡ 32 }
    ensures { result ≡ duration_for s.now }
{
    let tempo = word(s, 4);
    let denom = word(s, 8);
    let value = word(s, 12);
    float_bits(tone::time::duration(tempo, denom, value, s[16] != 0))
}

fn samples(s: &[u8]) -> Answer
    requires { length s.now ≡ 32 }
    ensures { result ≡ length_for s.now }
{
    let seconds = float::of_bits(word(s, 4));
    of_length(sec_to_len(seconds, word(s, 8)))
}

fn sine_run(table: &[u32; 1025], s: &[u8]) -> Answer
    requires { (table.now ≡ quarter) × (length s.now ≡ 32) }
    ensures { result ≡ sines_for s.now }
{
    let start = word(s, 4);
    number(sines::sines(table, start, word(s, 8)))
}

// The answer to the request s.
#[tactic(auto, unfolding(crate::specs::Answer::answer_to))]
pub fn to(table: &[u32; 1025], s: &[u8]) -> Answer
    requires { (table.now ≡ quarter) × (length s.now ≡ 32) }
    ensures { result ≡ answer_to s.now }
{
    match s[0] {
        1 => decimal(s),
        2 => digits(s, u64::from(u32::MAX)),
        3 => digits(s, u64::MAX),
        4 => sine(table, s),
        5 => frequency(s),
        6 => duration(s),
        7 => samples(s),
        8 => sine_run(table, s),
        _ => plain(0),
    }
}
