//! What the bytes of a token stand for.
ghost use Rattle.std.specs.Prelude.{◌≡◌, ◌<◌, ◌≤◌, drop, IfOk};
ghost use Rattle.texts.specs.declared.integers.TheConstants.{INTEGER_LIMIT};
ghost use Rattle.st_grammar.specs.Tokens.{value_of, number_value, character_value};
ghost use Rattle.st_grammar.specs.Tokens.{string_value, symbol_value};
ghost use Rattle.st_lexer.specs.Numbers.{IsNumber};

use crate::numbers::{digits_len, value_of};
use crate::words::is_at;
use std::alloc::{AllocError, Global};
use texts::Text;

/// The number that the bytes of a number token stand for.
pub fn number_value(bytes: &[u8]) -> u64
    requires { IsNumber bytes.now }
    ensures value { result ≡ number_value bytes.now }
    ensures bound { result < INTEGER_LIMIT }
{
    let (radix, digits) = radix_and_digits(bytes);
    small_value(radix, digits)
}

// The radix of a number token's bytes, and the digits after it.
fn radix_and_digits(bytes: &[u8]) -> (u64, &[u8])
    requires { IsNumber bytes.now }
    ensures low { 1 ≤ result.0 }
    ensures high { result.0 ≤ 36 }
    ensures value { value_of result.0 result.1.now ≡ number_value bytes.now }
{
    let len = digits_len(bytes);
    if !is_at(bytes, len, b'r') {
        return (10, &bytes[..len]);
    }
    (small_value(10, &bytes[..len]), &bytes[len + 1..])
}

// The number that these digits stand for.
fn small_value(radix: u64, digits: &[u8]) -> u64
    requires low { 1 ≤ radix }
    requires high { radix ≤ 36 }
    requires small { value_of radix digits.now < INTEGER_LIMIT }
    ensures { result ≡ value_of radix digits.now }
{
    match value_of(radix, digits) {
        Some(value) => value,
        None => unreachable!(),
    }
}

/// The code of the character that the bytes of a character token stand for.
pub fn character_value(bytes: &[u8]) -> u8
    ensures { result ≡ character_value bytes.now }
{
    match bytes {
        [_, code, ..] => *code,
        _ => 0,
    }
}

/// The string that the bytes of a string token stand for: without the quotes around it, a doubled
/// quote counted once.
pub fn string_value(alloc: Global, bytes: &[u8]) -> Result<Text, AllocError>
    ensures { IfOk result (λ text. text ≡ string_value bytes.now) }
{
    let mut value = Vec::new(alloc);
    let mut quoted = false;
    for b in after_first(bytes) {
        if quoted && *b != b'\'' {
            return Ok(Text::of(value));
        }
        if quoted || *b != b'\'' {
            value.push(*b)?;
            quoted = false;
        } else {
            quoted = true;
        }
    }
    Ok(Text::of(value))
}

/// The name of the symbol that the bytes of a symbol token stand for: what follows the `#`, and of a
/// string its bytes.
pub fn symbol_value(alloc: Global, bytes: &[u8]) -> Result<Text, AllocError>
    ensures { IfOk result (λ text. text ≡ symbol_value bytes.now) }
{
    let name = after_first(bytes);
    if is_at(name, 0, b'\'') {
        string_value(alloc, name)
    } else {
        Text::copy_of(alloc, name)
    }
}

fn after_first(bytes: &[u8]) -> &[u8]
    ensures { result.now ≡ drop 1 bytes.now }
{
    match bytes.split_first() {
        Some((_, rest)) => rest,
        None => bytes,
    }
}
