// What a directive's line says that is to be changed: a tempo, a denominator or a key.

ghost use Rattle.std.specs.Prelude.{◌≡◌, ℕ};
ghost use Rattle.text.specs.Quoted.{bytes};
ghost use Rattle.number.specs.Digits.{int_width};
ghost use Rattle.sheet.specs.Numbers.{outcome_on};
ghost use Rattle.environment.specs.Bounds.{bounds};
ghost use Rattle.directive.specs.Directives.{number_read, change_of, directive_of, directive_outcome, applied, applied_to};

use environment::environment::Environment;
use environment::range::ranged_value;
use keys::key::{Key, key_at};
use lines::names::{NameAt, name_at};
use number::digits::eat_int;
use sheet::refusal::Refusal;
use sheet::sheet::PARTS_MOST;
use strict::mode::{Mode, has_tail};
use text::blanks::{blanks_end, ink_end};
use text::characters::same_text;
use text::parsed::{Parsed, next_or};

// The most that a digit run of a value may be.
const VALUE_MOST: u64 = 4294967295;

// What is changed.
#[derive(Clone, Copy)]
pub enum Directive {
    Tempo(u32),
    Denominator(u32),
    OfKey(Key),
}

// The place at which the reading of a value stopped: 0 where there is no digit run.
#[tactic(auto, unfolding(number::specs::Digits::int_width))]
fn run_stop(n: Option<Parsed<u64>>) -> usize
    ensures { result ≡ int_width n }
{
    next_or(n, 0)
}

// The number between two bounds that a token begins with, and in strict mode is.
fn number(value: &[u8], mode: Mode, least: u32, most: u32) -> Result<u32, Refusal>
    ensures { (line : ℕ) → outcome_on line result ≡ number_read mode line (bounds least most) value.now }
{
    let n = eat_int(value, 0, VALUE_MOST);
    let number = ranged_value(n, least, most)?;
    if has_tail(mode, run_stop(n), value.len()) {
        return Err(Refusal::Tail);
    }
    Ok(number)
}

// The value of `#tempo`.
fn tempo(value: &[u8], mode: Mode) -> Result<Directive, Refusal>
    ensures { (line : ℕ) → directive_outcome line result ≡ change_of mode line (bytes "#tempo") value.now }
{
    let tempo = number(value, mode, Environment::MIN_TEMPO, Environment::MAX_TEMPO)?;
    Ok(Directive::Tempo(tempo))
}

// The value of `#denom`.
fn denominator(value: &[u8], mode: Mode) -> Result<Directive, Refusal>
    ensures { (line : ℕ) → directive_outcome line result ≡ change_of mode line (bytes "#denom") value.now }
{
    let denominator = number(value, mode, Environment::MIN_DENOM, Environment::MAX_DENOM)?;
    Ok(Directive::Denominator(denominator))
}

// The value of `#key`.
fn key(value: &[u8], mode: Mode) -> Result<Directive, Refusal>
    ensures { (line : ℕ) → directive_outcome line result ≡ change_of mode line (bytes "#key") value.now }
{
    let key = key_at(value, 0).ok_or(Refusal::NoAccidental)?;
    if has_tail(mode, key.next, value.len()) {
        return Err(Refusal::Tail);
    }
    Ok(Directive::OfKey(key.value))
}

// What a name and a value say: refused where no directive has the name.
fn change(name: &[u8], value: &[u8], mode: Mode) -> Result<Directive, Refusal>
    ensures { (line : ℕ) → directive_outcome line result ≡ change_of mode line name.now value.now }
{
    if same_text(name, b"#tempo") {
        return tempo(value, mode);
    }
    if same_text(name, b"#denom") {
        return denominator(value, mode);
    }
    if same_text(name, b"#key") {
        return key(value, mode);
    }
    Err(Refusal::UnknownDirective)
}

// What a line says that begins with `#`: refused where it has under two tokens, else what its name and its value say.
pub fn read_directive(l: &[u8], mode: Mode) -> Result<Directive, Refusal>
    ensures { (line : ℕ) → directive_outcome line result ≡ directive_of mode line l.now }
{
    let NameAt { from, end, two } = name_at(l);
    if !two {
        return Err(Refusal::NoNumber);
    }
    let name = &l[from..end];
    let next = blanks_end(l, end);
    let last = ink_end(l, next);
    let value = &l[next..last];
    change(name, value, mode)
}

// The change carried out on an environment. A refusal, of whatever kind, changes nothing.
#[tactic(auto, unfolding(crate::specs::Directives::applied))]
pub fn apply<E: Copy>(d: Result<Directive, E>, env: Environment) -> Environment
    ensures { result ≡ applied d env }
{
    match d {
        Ok(Directive::Tempo(v)) => Environment { tempo: v, ..env },
        Ok(Directive::Denominator(v)) => Environment {
            denominator: v,
            ..env
        },
        Ok(Directive::OfKey(k)) => Environment { key: k, ..env },
        Err(_) => env,
    }
}

// The environments of parts with a directive carried out on each of the first n.
pub fn apply_to_parts<E: Copy>(
    d: Result<Directive, E>,
    mut envs: [Environment; PARTS_MOST],
    n: usize,
) -> [Environment; PARTS_MOST]
    ensures { result ≡ applied_to d n envs }
{
    let most = n.min(envs.len());
    let existing = &mut envs[..most];
    for env in existing.iter_mut() {
        *env = apply(d, *env);
    }
    envs
}
