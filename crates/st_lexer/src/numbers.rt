//! Numbers.
ghost use Rattle.std.specs.Prelude.{◌≡◌, ◌+◌, ◌^◌, ◌<◌, ◌≤◌, length, nat_lt, nat_le, ◌&&◌};
ghost use Rattle.std.specs.Prelude.{MatchOption};
ghost use Rattle.std.specs.List.{prefix_len, list_all};
ghost use Rattle.std.specs.Char.{is_ascii_digit};
ghost use Rattle.texts.specs.declared.integers.TheConstants.{INTEGER_LIMIT};
ghost use Rattle.st_grammar.specs.Tokens.{is_radix_digit, digit_value, value_of, ends_number};
ghost use Rattle.st_grammar.specs.Tokens.{number_before, are_digits, number_in, number_after};
ghost use Rattle.st_grammar.specs.Tokens.{number_at};
ghost use Rattle.st_lexer.specs.Views.{piece_seen};

use crate::kinds::TokenKind;
use crate::pieces::{Piece, TokenRule};
use crate::words::{is_at, is_digit_at, starts_name_at};
use texts::INTEGER_LIMIT;

fn is_radix_digit(byte: u8) -> bool
    ensures { result ≡ is_radix_digit byte }
{
    byte.is_ascii_digit() || byte.is_ascii_uppercase()
}

pub(crate) fn digits_len(text: &[u8]) -> usize
    ensures len { result ≡ prefix_len is_ascii_digit text.now }
    ensures within { result ≤ length text.now }
{
    for (i, b) in text.iter().enumerate() {
        if !b.is_ascii_digit() {
            return i;
        }
    }
    text.len()
}

fn radix_digits_len(text: &[u8]) -> usize
    ensures len { result ≡ prefix_len is_radix_digit text.now }
    ensures within { result ≤ length text.now }
{
    for (i, b) in text.iter().enumerate() {
        if !is_radix_digit(*b) {
            return i;
        }
    }
    text.len()
}

fn digit_value(byte: u8) -> u8
    ensures { result ≡ digit_value byte }
{
    if byte.is_ascii_digit() {
        byte - b'0'
    } else {
        byte.saturating_sub(b'A' - 10)
    }
}

// The number that the digits stand for, or `None` where it is too large.
pub(crate) fn value_of(radix: u64, digits: &[u8]) -> Option<u64>
    requires low { 1 ≤ radix }
    requires high { radix ≤ 36 }
    ensures { MatchOption result (INTEGER_LIMIT ≤ value_of radix digits.now)
        (λ v. (value_of radix digits.now ≡ v) × (v < INTEGER_LIMIT)) }
{
    let mut value = 0;
    for b in digits {
        let digit = u64::from(digit_value(*b));
        if value > (INTEGER_LIMIT - 1 - digit) / radix {
            return None;
        }
        value = value * radix + digit;
    }
    Some(value)
}

fn is_small(radix: u64, digits: &[u8]) -> bool
    requires low { 1 ≤ radix }
    requires high { radix ≤ 36 }
    ensures { result ≡ nat_lt (value_of radix digits.now) INTEGER_LIMIT }
{
    value_of(radix, digits).is_some()
}

fn ends_number(text: &[u8]) -> bool
    ensures { result ≡ ends_number text.now }
{
    !(starts_name_at(text, 0) || (is_at(text, 0, b'.') && is_digit_at(text, 1)))
}

// A number of `len` bytes with these digits, and what follows it.
fn number_before(len: usize, radix: u64, digits: &[u8], after: &[u8]) -> Piece
    requires low { 1 ≤ radix }
    requires high { radix ≤ 36 }
    ensures { piece_seen result ≡ number_before len (value_of radix digits.now) after.now }
{
    if ends_number(after) && is_small(radix, digits) {
        Piece::Word(TokenKind::Number, len)
    } else {
        Piece::Wrong(TokenRule::NoForm)
    }
}

fn are_below(radix: u64, digits: &[u8]) -> bool
    ensures { result ≡ list_all (λ b. nat_lt (digit_value b) radix) digits.now }
{
    digits.iter().all(|b| u64::from(digit_value(*b)) < radix)
}

fn is_radix(radix: u64) -> bool
    ensures { result ≡ (nat_le 2 radix && nat_le radix 36) }
{
    2 <= radix && radix <= 36
}

fn are_digits(radix: u64, digits: &[u8]) -> bool
    ensures { result ≡ are_digits radix digits.now }
{
    is_radix(radix) && !digits.is_empty() && are_below(radix, digits)
}

// A number whose first `len` bytes gave its radix.
fn number_in(radix: u64, len: usize, rest: &[u8]) -> Piece
    requires { len + length rest.now < 2 ^ 33 }
    ensures { piece_seen result ≡ number_in radix len rest.now }
{
    let digits_len = radix_digits_len(rest);
    let (digits, after) = rest.split_at(digits_len);
    if are_digits(radix, digits) {
        number_before(len + digits_len, radix, digits, after)
    } else {
        Piece::Wrong(TokenRule::NoForm)
    }
}

// A number whose first `len` bytes are its digits or those of its radix.
fn number_after(len: usize, text: &[u8]) -> Piece
    requires within { len ≤ length text.now }
    requires short { length text.now < 2 ^ 32 }
    ensures { piece_seen result ≡ number_after len text.now }
{
    if !is_at(text, len, b'r') {
        return number_before(len, 10, &text[..len], &text[len..]);
    }
    match value_of(10, &text[..len]) {
        Some(radix) => number_in(radix, len + 1, &text[len + 1..]),
        None => Piece::Wrong(TokenRule::NoForm),
    }
}

// The number that the text begins with.
pub(crate) fn number_at(text: &[u8]) -> Piece
    requires { length text.now < 2 ^ 32 }
    ensures { piece_seen result ≡ number_at text.now }
{
    number_after(digits_len(text), text)
}
