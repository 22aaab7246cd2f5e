// One operator line: its indent, its six numbers and its feedback, or its refusal. Each reader takes
// the line's text and a place in it, and answers with the place behind the token it read, so that
// nothing is copied.

ghost use Rattle.std.specs.Prelude.{◌≡◌, [], ◌∷◌, ℕ, ◌≤◌, ◌<◌, length, drop, MatchResult};
ghost use Rattle.lines.specs.Tokens.{tokens_of};
ghost use Rattle.sheet.specs.Numbers.{number_of, outcome_on};
ghost use Rattle.operators.specs.OperatorLines.{indent_of, indented, feedback_read, operator_read};
ghost use Rattle.operators.specs.Answers.{outcome_of, indent_above};
ghost use Rattle.operators.specs.Steps.{Passed, Stopped, numbers_of};

use number::decimal::{NoDecimal, eat_float};
use number::digits::eat_int;
use operator::operator::Operator;
use sheet::refusal::Refusal;
use strict::mode::{Mode, has_tail};
use text::blanks::{blanks_end, ink_end};
use text::parsed::Parsed;
use text::runs::run_end;

// How many tokens an operator line has: six numbers, and a feedback or none.
const TOKENS_LEAST: usize = 6;

const TOKENS_MOST: usize = 7;

// The largest feedback, and the largest number that a digit run may have.
const FEEDBACK_MOST: u64 = 255;

const VALUE_MOST: u64 = 4294967295;

// How many operators an instrument may have.
const OPERATORS_MOST: usize = 32;

// What an operator line says.
#[derive(Clone, Copy)]
pub struct OperatorLine {
    pub indent: usize,
    pub operator: Operator,
}

// How many tabs a line begins with.
#[tactic(auto, unfolding(crate::specs::OperatorLines::indent_of))]
fn indent(text: &[u8]) -> usize
    ensures { result ≡ indent_of text.now }
{
    run_end(text, 0, |b| b == b'\t')
}

// Refuses a line that begins with too many tabs.
fn check_indent(tabs: usize, before: usize, above: usize) -> Result<(), Refusal>
    ensures { (line : ℕ) → outcome_on line result ≡ indented line (indent_above above before) tabs }
{
    if tabs == 0 {
        return Ok(());
    }
    if above == 0 {
        return Err(Refusal::FirstIndented);
    }
    if tabs - 1 > before {
        return Err(Refusal::IndentedTooFar);
    }
    Ok(())
}

// How many tokens a line has. It goes from token to token, since by the pieces between blanks each blank costs a
// piece.
fn tokens(text: &[u8]) -> usize
    ensures { result ≡ length (tokens_of text.now) }
{
    let mut count: usize = 0;
    let mut at = 0;
    while at < text.len() {
        let from = blanks_end(text, at);
        if from >= text.len() {
            return count;
        }
        count += 1;
        at = ink_end(text, from);
    }
    count
}

// The number of the token behind the place `at`; a tail is refused before the next token is looked at.
fn number_at(text: &[u8], at: usize, mode: Mode) -> Result<Parsed<f32>, Refusal>
    requires { 0 < length (tokens_of (drop at text.now)) }
    ensures { MatchResult result (λ number. Passed mode text.now at (number.value ∷ []) number.next)
        (λ why. Stopped mode text.now at 1 (number_of why)) }
{
    let from = blanks_end(text, at);
    let number = match eat_float(text, from) {
        Ok(number) => number,
        Err(NoDecimal::Unreadable) => return Err(Refusal::Unreadable),
        Err(NoDecimal::TooLong) => return Err(Refusal::TooManyDigits),
    };
    let end = ink_end(text, number.next);
    if has_tail(mode, number.next, end) {
        return Err(Refusal::Tail);
    }
    Ok(Parsed {
        value: number.value,
        next: end,
    })
}

// The numbers of three tokens behind the place `at`.
fn three_at(text: &[u8], at: usize, mode: Mode) -> Result<Parsed<(f32, f32, f32)>, Refusal>
    requires { 3 ≤ length (tokens_of (drop at text.now)) }
    ensures { MatchResult result
        (λ three. Passed mode text.now at (three.value.0 ∷ three.value.1 ∷ three.value.2 ∷ []) three.next)
        (λ why. Stopped mode text.now at 3 (number_of why)) }
{
    let first = number_at(text, at, mode)?;
    let second = number_at(text, first.next, mode)?;
    let third = number_at(text, second.next, mode)?;
    Ok(Parsed {
        value: (first.value, second.value, third.value),
        next: third.next,
    })
}

// The operator of a line's first six tokens, with no feedback.
fn six_numbers(text: &[u8], mode: Mode) -> Result<Parsed<Operator>, Refusal>
    requires { 6 ≤ length (tokens_of text.now) }
    ensures { MatchResult result (λ six. Passed mode text.now 0 (numbers_of six.value) six.next)
        (λ why. Stopped mode text.now 0 6 (number_of why)) }
{
    let front = three_at(text, 0, mode)?;
    let back = three_at(text, front.next, mode)?;
    let (amplitude, freqratio, attack) = front.value;
    let (decay, sustain, release) = back.value;
    Ok(Parsed {
        value: Operator {
            amplitude,
            freqratio,
            attack,
            decay,
            sustain,
            release,
            feedback: 0,
        },
        next: back.next,
    })
}

// The feedback of the token behind the place `at`: 0 where there is none.
fn feedback_at(text: &[u8], at: usize, mode: Mode) -> Result<u32, Refusal>
    ensures { (line : ℕ) → outcome_on line result ≡ feedback_read mode line (tokens_of (drop at text.now)) }
{
    let from = blanks_end(text, at);
    if from >= text.len() {
        return Ok(0);
    }
    let Some(feedback) = eat_int(text, from, VALUE_MOST) else {
        return Err(Refusal::Unreadable);
    };
    if feedback.value > FEEDBACK_MOST {
        return Err(Refusal::FeedbackTooHigh);
    }
    let end = ink_end(text, feedback.next);
    if has_tail(mode, feedback.next, end) {
        return Err(Refusal::Tail);
    }
    Ok(feedback.value as u32)
}

// The operator of a line. So many operators stand above it in its instrument, and the last of them is
// indented by `before`; where none stands above, `before` says nothing.
pub fn operator(
    text: &[u8],
    before: usize,
    above: usize,
    mode: Mode,
) -> Result<OperatorLine, Refusal>
    ensures { (line : ℕ) → outcome_of line result
        ≡ operator_read mode line (indent_above above before) above text.now }
{
    let indent = indent(text);
    check_indent(indent, before, above)?;
    let count = tokens(text);
    if count < TOKENS_LEAST || count > TOKENS_MOST {
        return Err(Refusal::OperatorTokens);
    }
    let six = six_numbers(text, mode)?;
    let feedback = feedback_at(text, six.next, mode)?;
    if above >= OPERATORS_MOST {
        return Err(Refusal::Full);
    }
    Ok(OperatorLine {
        indent,
        operator: Operator {
            feedback,
            ..six.value
        },
    })
}
