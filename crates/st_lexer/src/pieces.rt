//! What a text begins with: a gap, a token, or nothing that may stand there.
ghost use Rattle.std.specs.Prelude.{◌≡◌, ◌^◌, ◌<◌, false, length, drop};
ghost use Rattle.st_grammar.specs.Tokens.{token_rule_number, piece, is_blank, class_of, mark};
ghost use Rattle.st_grammar.specs.Tokens.{sized, quoted_symbol, symbol_at, character_at};
ghost use Rattle.st_grammar.specs.Tokens.{comment_to, comment_end, string_to, string_end};
ghost use Rattle.st_grammar.specs.Tokens.{string_bytes, colon_before, word};
ghost use Rattle.st_lexer.specs.Views.{piece_seen, class_seen, rule_seen};

use crate::kinds::TokenKind;
use crate::numbers::number_at;
use crate::quotes::{comment_end, string_end};
use crate::words::{
    binary_len, is_at, is_keyword_end, is_operator, is_operator_at, name_len, starts_name_at,
    symbol_name_len,
};
use texts::{SYMBOL_LIMIT, starts_name};

// What the first byte of a piece says of it.
#[derive(Clone, Copy, Debug)]
enum Class {
    Blank,
    Comment,
    Name,
    Digit,
    Quote,
    Dollar,
    Hash,
    Operator,
    ColonMark,
    Other,
}

// The rules that a bad token breaks.
#[derive(Clone, Copy, Debug)]
pub(crate) enum TokenRule {
    // P1: a byte that begins no token.
    NoToken,
    // P2: no end of a string, comment, character or symbol, or a `#` with which nothing begins.
    NoEnd,
    // P3: a number that isn't of the form or too large, or a symbol that is too long.
    NoForm,
}

impl TokenRule {
    // The number that is printed after `P`.
    pub(crate) fn number(self) -> u8
        ensures { result ≡ token_rule_number (rule_seen self) }
    {
        match self {
            TokenRule::NoToken => 1,
            TokenRule::NoEnd => 2,
            TokenRule::NoForm => 3,
        }
    }
}

// What a text begins with.
#[derive(Clone, Copy, Debug)]
pub(crate) enum Piece {
    // so many bytes that separate tokens
    Gap(usize),
    // a token of so many bytes
    Word(TokenKind, usize),
    // a bad token
    Wrong(TokenRule),
}

fn is_blank(byte: u8) -> bool
    ensures { result ≡ is_blank byte }
{
    byte == b' ' || byte == b'\t' || byte == b'\n' || byte == b'\r'
}

fn class_of(byte: u8) -> Class
    ensures { class_seen result ≡ class_of byte }
{
    if is_blank(byte) {
        Class::Blank
    } else if byte == b'"' {
        Class::Comment
    } else if starts_name(byte) {
        Class::Name
    } else if byte.is_ascii_digit() {
        Class::Digit
    } else if byte == b'\'' {
        Class::Quote
    } else if byte == b'$' {
        Class::Dollar
    } else if byte == b'#' {
        Class::Hash
    } else if is_operator(byte) {
        Class::Operator
    } else if byte == b':' {
        Class::ColonMark
    } else {
        Class::Other
    }
}

fn mark(byte: u8) -> Piece
    ensures { piece_seen result ≡ mark byte }
{
    let kind = if byte == b'|' {
        TokenKind::Bar
    } else if byte == b'^' {
        TokenKind::Caret
    } else if byte == b';' {
        TokenKind::Semicolon
    } else if byte == b'.' {
        TokenKind::Period
    } else if byte == b'(' {
        TokenKind::OpenParen
    } else if byte == b')' {
        TokenKind::CloseParen
    } else if byte == b'[' {
        TokenKind::OpenBracket
    } else if byte == b']' {
        TokenKind::CloseBracket
    } else {
        return Piece::Wrong(TokenRule::NoToken);
    };
    Piece::Word(kind, 1)
}

// An identifier or a keyword.
fn word(text: &[u8]) -> Piece
    requires { length text.now < 2 ^ 32 }
    ensures { piece_seen result ≡ word text.now }
{
    let len = name_len(text);
    if is_keyword_end(text, len) {
        Piece::Word(TokenKind::Keyword, len + 1)
    } else {
        Piece::Word(TokenKind::Identifier, len)
    }
}

// A comment whose first quote stands before the text.
fn comment(rest: &[u8]) -> Piece
    requires { length rest.now < 2 ^ 32 }
    ensures { piece_seen result ≡ comment_to (comment_end rest.now) }
{
    match comment_end(rest) {
        Some(len) => Piece::Gap(len + 1),
        None => Piece::Wrong(TokenRule::NoEnd),
    }
}

// A string whose first quote stands before the text.
fn string(rest: &[u8]) -> Piece
    requires { length rest.now < 2 ^ 32 }
    ensures { piece_seen result ≡ string_to (string_end false rest.now) }
{
    match string_end(rest) {
        Some(quoted) => Piece::Word(TokenKind::Str, quoted.len + 1),
        None => Piece::Wrong(TokenRule::NoEnd),
    }
}

// A character whose `$` stands before the text.
fn character(rest: &[u8]) -> Piece
    ensures { piece_seen result ≡ character_at rest.now }
{
    if !rest.is_empty() && 32 <= rest[0] && rest[0] <= 126 {
        Piece::Word(TokenKind::Character, 2)
    } else {
        Piece::Wrong(TokenRule::NoEnd)
    }
}

// A symbol of `len` bytes whose name has `size` bytes.
fn sized(size: usize, len: usize) -> Piece
    ensures { piece_seen result ≡ sized size len }
{
    if size <= SYMBOL_LIMIT {
        Piece::Word(TokenKind::Symbol, len)
    } else {
        Piece::Wrong(TokenRule::NoForm)
    }
}

// A symbol that is written as a string, whose first quote stands before the text.
fn quoted_symbol(text: &[u8]) -> Piece
    requires { length text.now < 2 ^ 32 }
    ensures { piece_seen result
        ≡ quoted_symbol (length (string_bytes false text.now)) (string_end false text.now) }
{
    match string_end(text) {
        Some(quoted) => sized(quoted.size, quoted.len + 2),
        None => Piece::Wrong(TokenRule::NoEnd),
    }
}

// What begins with a `#` before the text.
fn symbol(rest: &[u8]) -> Piece
    requires { length rest.now < 2 ^ 32 }
    ensures { piece_seen result ≡ symbol_at rest.now }
{
    if starts_name_at(rest, 0) {
        let len = symbol_name_len(rest);
        sized(len, len + 1)
    } else if is_operator_at(rest, 0) {
        Piece::Word(TokenKind::Symbol, binary_len(rest, 1) + 1)
    } else if is_at(rest, 0, b'|') {
        Piece::Word(TokenKind::Symbol, 2)
    } else if is_at(rest, 0, b'\'') {
        quoted_symbol(&rest[1..])
    } else if is_at(rest, 0, b'(') {
        Piece::Word(TokenKind::OpenArray, 2)
    } else {
        Piece::Wrong(TokenRule::NoEnd)
    }
}

fn colon(rest: &[u8]) -> Piece
    ensures { piece_seen result ≡ colon_before rest.now }
{
    if is_at(rest, 0, b'=') {
        Piece::Word(TokenKind::Assign, 2)
    } else {
        Piece::Word(TokenKind::Colon, 1)
    }
}

// What the text begins with, which isn't at its end.
fn first_piece(text: &[u8]) -> Piece
    requires some { 0 < length text.now }
    requires short { length text.now < 2 ^ 32 }
    ensures { piece_seen result ≡ piece text.now }
{
    let rest = &text[1..];
    match class_of(text[0]) {
        Class::Blank => Piece::Gap(1),
        Class::Comment => comment(rest),
        Class::Name => word(text),
        Class::Digit => number_at(text),
        Class::Quote => string(rest),
        Class::Dollar => character(rest),
        Class::Hash => symbol(rest),
        Class::Operator => Piece::Word(TokenKind::Binary, binary_len(rest, 0)),
        Class::ColonMark => colon(rest),
        Class::Other => mark(text[0]),
    }
}

// What the text has at this offset, which is before its end.
pub(crate) fn piece_from(text: &[u8], at: usize) -> Piece
    requires within { at < length text.now }
    requires short { length text.now < 2 ^ 32 }
    ensures { piece_seen result ≡ piece (drop at text.now) }
{
    first_piece(&text[at..])
}
