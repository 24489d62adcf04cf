//! Names, keywords and single bytes at a place of a text.
ghost use Rattle.std.specs.Prelude.{◌≡◌, ◌≤◌, length, drop};
ghost use Rattle.std.specs.List.{prefix_len};
ghost use Rattle.std.specs.Char.{is_ascii_digit};
ghost use Rattle.texts.specs.NameBytes.{starts_name, is_name_byte};
ghost use Rattle.st_grammar.specs.Tokens.{is_operator, is_second, name_goes_on, is_keyword_end};
ghost use Rattle.st_grammar.specs.Tokens.{keywords, begins, begins_with, symbol_name, binary_len};

use texts::{is_name_byte, starts_name};

const OPERATORS: &[u8] = b"+-*/\\~<>=@%&?,";

pub(crate) fn is_operator(byte: u8) -> bool
    ensures { result ≡ is_operator byte }
{
    OPERATORS.contains(&byte)
}

fn is_second(byte: u8) -> bool
    ensures { result ≡ is_second byte }
{
    is_operator(byte) && byte != b'-'
}

// This byte stands at index `i`.
pub(crate) fn is_at(text: &[u8], i: usize, byte: u8) -> bool
    ensures { result ≡ begins_with byte (drop i text.now) }
{
    i < text.len() && text[i] == byte
}

pub(crate) fn starts_name_at(text: &[u8], i: usize) -> bool
    ensures { result ≡ begins starts_name (drop i text.now) }
{
    i < text.len() && starts_name(text[i])
}

pub(crate) fn is_digit_at(text: &[u8], i: usize) -> bool
    ensures { result ≡ begins is_ascii_digit (drop i text.now) }
{
    i < text.len() && text[i].is_ascii_digit()
}

pub(crate) fn is_operator_at(text: &[u8], i: usize) -> bool
    ensures { result ≡ begins is_operator (drop i text.now) }
{
    i < text.len() && is_operator(text[i])
}

fn is_second_at(text: &[u8], i: usize) -> bool
    ensures { result ≡ begins is_second (drop i text.now) }
{
    i < text.len() && is_second(text[i])
}

// How many bytes a binary selector has whose first byte stands before index `i`.
pub(crate) fn binary_len(text: &[u8], i: usize) -> usize
    ensures { result ≡ binary_len (drop i text.now) }
{
    if is_second_at(text, i) { 2 } else { 1 }
}

// How many bytes of a name the text begins with.
pub(crate) fn name_len(text: &[u8]) -> usize
    ensures len { result ≡ prefix_len is_name_byte text.now }
    ensures within { result ≤ length text.now }
{
    for (i, b) in text.iter().enumerate() {
        if !is_name_byte(*b) {
            return i;
        }
    }
    text.len()
}

// A colon stands at index `i` and no `=` after it.
pub(crate) fn is_keyword_end(text: &[u8], i: usize) -> bool
    ensures { result ≡ is_keyword_end (drop i text.now) }
{
    i < text.len() && text[i] == b':' && !is_at(text, i + 1, b'=')
}

// A name of which `here` bytes stand before this one goes on with it.
fn name_goes_on(here: usize, byte: u8) -> bool
    ensures { result ≡ name_goes_on here byte }
{
    if here == 0 {
        starts_name(byte)
    } else {
        is_name_byte(byte)
    }
}

// How many bytes of keywords without a gap the text begins with.
fn keywords_len(text: &[u8]) -> usize
    ensures len { result ≡ keywords 0 text.now }
    ensures within { result ≤ length text.now }
{
    let mut done = 0;
    let mut here = 0;
    'bytes: while done + here < text.len() {
        let goes_on = name_goes_on(here, text[done + here]);
        let ends = here > 0 && is_keyword_end(text, done + here);
        if !goes_on && !ends {
            return done;
        }
        if goes_on {
            here += 1;
        } else {
            done += here + 1;
            here = 0;
        }
    }
    done
}

// How many bytes of a name or of keywords follow a `#`.
pub(crate) fn symbol_name_len(text: &[u8]) -> usize
    ensures len { result ≡ symbol_name text.now }
    ensures within { result ≤ length text.now }
{
    let keywords = keywords_len(text);
    if keywords == 0 {
        name_len(text)
    } else {
        keywords
    }
}
