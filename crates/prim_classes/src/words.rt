//! The texts of which print texts are made.
ghost use Rattle.std.specs.Prelude.{◌≡◌, ◌∷◌, ◌++◌, cond, codes, IfOk, OnOk};
ghost use Rattle.gem_sound.specs.st_grammar.Tokens.{begins};
ghost use Rattle.prim_rules.specs.Texts.{with_quote_doubled, quoted, symbol_text, is_symbol_token, is_vowel, with_article, decimal_text};
ghost use Rattle.st_lexer.specs.Views.{tokens_seen};
ghost use Rattle.prim_classes.specs.Symbols.{begins_with_symbol};

use gem_object::Text;
use st_lexer::{LexFault, Token, TokenKind, tokens};
use std::alloc::{AllocError, Global};

// A quoted symbol is never longer: each byte of its name may stand twice.
const SYMBOL_TOKEN_LIMIT: usize = 2_003;

// Adds a byte of a quoted text: a quote twice.
fn push_doubled(bytes: &mut Vec<u8>, byte: u8) -> Result<(), AllocError>
    ensures { OnOk result (bytes.new.items ≡ bytes.old.items ++ with_quote_doubled byte) }
{
    if byte == b'\'' {
        bytes.push(b'\'')?;
    }
    Ok(bytes.push(byte)?)
}

/// A text in single quotes, where each quote in it is doubled.
pub fn quoted(alloc: Global, text: &[u8]) -> Result<Text, AllocError>
    ensures { IfOk result (λ made. made ≡ quoted text.now) }
{
    let mut bytes = Vec::new(alloc);
    bytes.push(b'\'')?;
    for byte in text {
        push_doubled(&mut bytes, *byte)?;
    }
    bytes.push(b'\'')?;
    Ok(Text::of(bytes))
}

/// A symbol as it is printed: `#` and its name, which stands in quotes unless the two are one
/// token.
pub fn symbol_text(alloc: Global, name: &[u8]) -> Result<Text, AllocError>
    ensures { IfOk result (λ made. made ≡ symbol_text name.now) }
{
    if is_symbol_token(alloc, name)? {
        return hashed(alloc, name);
    }
    let name = quoted(alloc, name)?;
    hashed(alloc, name.bytes())
}

// `#` and a text.
fn hashed(alloc: Global, text: &[u8]) -> Result<Text, AllocError>
    ensures { IfOk result (λ made. made ≡ 35 ∷ text.now) }
{
    let mut bytes = Vec::new(alloc);
    bytes.push(b'#')?;
    bytes.extend_from_slice(text)?;
    Ok(Text::of(bytes))
}

// Whether `#` and a name are one symbol token.
fn is_symbol_token(alloc: Global, name: &[u8]) -> Result<bool, AllocError>
    ensures { IfOk result (λ is. is ≡ is_symbol_token name.now) }
{
    if name.len() > SYMBOL_TOKEN_LIMIT {
        return Ok(false);
    }
    let text = hashed(alloc, name)?;
    match tokens(alloc, text.bytes()) {
        Ok(found) => Ok(begins_with_symbol(found.as_slice(), name.len() as u32 + 1)),
        Err(LexFault::Bad { .. }) => Ok(false),
        Err(LexFault::NoMemory) => Err(AllocError),
    }
}

// Whether the first of these tokens is a symbol that ends at this place of a text.
fn begins_with_symbol(found: &[Token], size: u32) -> bool
    ensures { result ≡ begins_with_symbol size (tokens_seen found.now) }
{
    let [token, ..] = found else { return false };
    matches!(token.kind, TokenKind::Symbol) && token.end == size
}

/// `a` or `an`, and the name of a class.
pub fn with_article(alloc: Global, name: &[u8]) -> Result<Text, AllocError>
    ensures { IfOk result (λ made. made ≡ with_article name.now) }
{
    let mut bytes = Vec::new(alloc);
    bytes.extend_from_slice(article(name))?;
    bytes.extend_from_slice(name)?;
    Ok(Text::of(bytes))
}

// `a` or `an`: `an` where the name's first letter is a vowel.
fn article(name: &[u8]) -> &'static [u8]
    ensures { result.now ≡ cond (begins is_vowel name.now) (codes "an ") (codes "a ") }
{
    match name {
        [first, ..] if is_vowel(*first) => b"an ",
        _ => b"a ",
    }
}

fn is_vowel(letter: u8) -> bool
    ensures { result ≡ is_vowel letter }
{
    b"AEIOUaeiou".contains(&letter)
}

/// An integer in decimal.
pub fn decimal_text(alloc: Global, number: i64) -> Result<Text, AllocError>
    ensures { IfOk result (λ made. made ≡ decimal_text number) }
{
    let text = format!(in alloc; "{number}")?;
    Ok(Text::of(text.into_bytes()))
}
