//! Tokens, bad tokens and their places, worked out by hand.
use st_lexer::{LexFault, Token, TokenKind, tokens};
use std::alloc::Global;
use std::process::Abort;
use std::test::Fail;

fn read(rt: &impl Abort, alloc: Global, text: &[u8]) -> Result<Vec<Token>, LexFault> {
    assert!(rt; text.len() < 10_000);
    tokens(alloc, text)
}

fn token(kind: TokenKind, start: u32, end: u32) -> Token {
    Token { kind, start, end }
}

fn bad(at: u32, rule: u8) -> LexFault {
    LexFault::Bad { at, rule }
}

// Each kind of token alone, after a comment and a line feed and before a tab.
const KINDS: [(&[u8], TokenKind); 37] = [
    (b"sum", TokenKind::Identifier),
    (b"_a1", TokenKind::Identifier),
    (b"at:", TokenKind::Keyword),
    (b"0", TokenKind::Number),
    (b"1152921504606846975", TokenKind::Number),
    (b"16rFF", TokenKind::Number),
    (b"36rZ", TokenKind::Number),
    (b"2r101", TokenKind::Number),
    (b"16rFFFFFFFFFFFFFFF", TokenKind::Number),
    (b"$a", TokenKind::Character),
    (b"$ ", TokenKind::Character),
    (b"$~", TokenKind::Character),
    (b"''", TokenKind::Str),
    (b"'it''s'", TokenKind::Str),
    (b"''''", TokenKind::Str),
    (b"#sum", TokenKind::Symbol),
    (b"#at:put:", TokenKind::Symbol),
    (b"#<=", TokenKind::Symbol),
    (b"#-", TokenKind::Symbol),
    (b"#|", TokenKind::Symbol),
    (b"#'it''s'", TokenKind::Symbol),
    (b"+", TokenKind::Binary),
    (b"<=", TokenKind::Binary),
    (b"-", TokenKind::Binary),
    (b"-=", TokenKind::Binary),
    (b"|", TokenKind::Bar),
    (b":=", TokenKind::Assign),
    (b":", TokenKind::Colon),
    (b"^", TokenKind::Caret),
    (b";", TokenKind::Semicolon),
    (b".", TokenKind::Period),
    (b"(", TokenKind::OpenParen),
    (b")", TokenKind::CloseParen),
    (b"[", TokenKind::OpenBracket),
    (b"]", TokenKind::CloseBracket),
    (b"#(", TokenKind::OpenArray),
    (b"~~", TokenKind::Binary),
];

fn between_blanks(alloc: Global, text: &[u8]) -> Result<Vec<u8>, Fail> {
    let mut whole = Vec::from_slice(alloc, b"\"\"\n")?;
    whole.extend_from_slice(text)?;
    whole.push(b'\t')?;
    Ok(whole)
}

// Whether a text is this token alone.
fn is_token(rt: &impl Abort, alloc: Global, text: &[u8], want: Token) -> Result<bool, LexFault> {
    Ok(read(rt, alloc, text)?.as_slice() == [want].as_slice())
}

#[test]
fn reads_each_kind(rt: HostRuntime) -> Result<(), Fail> {
    let alloc = rt.alloc();
    for &(text, kind) in &KINDS {
        assert!(rt; text.len() < 100);
        let want = token(kind, 3, 3 + text.len() as u32);
        let whole = between_blanks(alloc, text)?;
        assert!(rt; is_token(&rt, alloc, &whole, want)?);
    }
    Ok(())
}

// The kind of a token, its start and its end.
type Part = (TokenKind, u32, u32);

fn is_part(found: &Token, part: Part) -> bool {
    *found == token(part.0, part.1, part.2)
}

// Whether these two tokens touch in a text.
fn parts(
    rt: &impl Abort,
    alloc: Global,
    text: &[u8],
    first: Part,
    second: Part,
) -> Result<bool, LexFault> {
    let found = read(rt, alloc, text)?;
    Ok(found.len() == 2 && is_part(&found[0], first) && is_part(&found[1], second))
}

const TOUCHING: [(&[u8], Part, Part); 12] = [
    (
        b"x:=",
        (TokenKind::Identifier, 0, 1),
        (TokenKind::Assign, 1, 3),
    ),
    (
        b"x::=",
        (TokenKind::Keyword, 0, 2),
        (TokenKind::Assign, 2, 4),
    ),
    (b"+-", (TokenKind::Binary, 0, 1), (TokenKind::Binary, 1, 2)),
    (b"<=+", (TokenKind::Binary, 0, 2), (TokenKind::Binary, 2, 3)),
    (b"||", (TokenKind::Bar, 0, 1), (TokenKind::Bar, 1, 2)),
    (b"3.", (TokenKind::Number, 0, 1), (TokenKind::Period, 1, 2)),
    (b"-3", (TokenKind::Binary, 0, 1), (TokenKind::Number, 1, 2)),
    (
        b"#a:b",
        (TokenKind::Symbol, 0, 3),
        (TokenKind::Identifier, 3, 4),
    ),
    (
        b"#a:=",
        (TokenKind::Symbol, 0, 2),
        (TokenKind::Assign, 2, 4),
    ),
    (b"#+-", (TokenKind::Symbol, 0, 2), (TokenKind::Binary, 2, 3)),
    (
        b"$''a'",
        (TokenKind::Character, 0, 2),
        (TokenKind::Str, 2, 5),
    ),
    (
        b":x",
        (TokenKind::Colon, 0, 1),
        (TokenKind::Identifier, 1, 2),
    ),
];

#[test]
fn parts_tokens_that_touch(rt: HostRuntime) -> Result<(), Fail> {
    for &(text, first, second) in &TOUCHING {
        assert!(rt; parts(&rt, rt.alloc(), text, first, second)?);
    }
    Ok(())
}

// The first bad token counts, with the offset where it begins.
const BAD_TEXTS: [(&[u8], u32, u8); 30] = [
    (b"!", 0, 1),
    (b"3 { 4", 2, 1),
    (b"`", 0, 1),
    (b"x \x80", 2, 1),
    (b"\0", 0, 1),
    (b"'abc", 0, 2),
    (b"a 'it''", 2, 2),
    (b"x \"abc", 2, 2),
    (b"$", 0, 2),
    (b"1 $\n", 2, 2),
    (b"#", 0, 2),
    (b"# a", 0, 2),
    (b"##a", 0, 2),
    (b"#1", 0, 2),
    (b"#:", 0, 2),
    (b"#'abc", 0, 2),
    (b"1152921504606846976", 0, 3),
    (b"- 1152921504606846976", 2, 3),
    (b"12abc", 0, 3),
    (b"12_", 0, 3),
    (b"1.5", 0, 3),
    (b"1r0", 0, 3),
    (b"37r1", 0, 3),
    (b"2r102", 0, 3),
    (b"16rG", 0, 3),
    (b"16r", 0, 3),
    (b"16rff", 0, 3),
    (b"16rFF.0", 0, 3),
    (b"16r1000000000000000", 0, 3),
    (b"{ 'abc", 0, 1),
];

fn fault_of(rt: &impl Abort, alloc: Global, text: &[u8]) -> Option<LexFault> {
    match read(rt, alloc, text) {
        Ok(_) => None,
        Err(fault) => Some(fault),
    }
}

#[test]
fn says_where_a_text_is_bad(rt: HostRuntime) -> Result<(), Fail> {
    for &(text, at, rule) in &BAD_TEXTS {
        assert_eq!(rt; fault_of(&rt, rt.alloc(), text), Some(bad(at, rule)));
    }
    Ok(())
}

fn long_name(alloc: Global, count: usize) -> Result<Vec<u8>, Fail> {
    let mut name = Vec::from_slice(alloc, b"#")?;
    for _ in 0..count {
        name.push(b'a')?;
    }
    Ok(name)
}

fn long_quoted(alloc: Global, count: usize) -> Result<Vec<u8>, Fail> {
    let mut quoted = Vec::from_slice(alloc, b"#'")?;
    for _ in 0..count {
        quoted.extend_from_slice(b"''")?;
    }
    quoted.push(b'\'')?;
    Ok(quoted)
}

// A symbol has at most 1,000 bytes, in which a doubled quote counts once.
#[test]
fn bounds_symbols(rt: HostRuntime) -> Result<(), Fail> {
    let alloc = rt.alloc();
    let name = long_name(alloc, 1000)?;
    assert!(rt; is_token(&rt, alloc, &name, token(TokenKind::Symbol, 0, 1001))?);
    let quoted = long_quoted(alloc, 1000)?;
    assert!(rt; is_token(&rt, alloc, &quoted, token(TokenKind::Symbol, 0, 2003))?);
    Ok(())
}

#[test]
fn says_where_a_symbol_is_too_long(rt: HostRuntime) -> Result<(), Fail> {
    let alloc = rt.alloc();
    let name = long_name(alloc, 1001)?;
    assert_eq!(rt; fault_of(&rt, alloc, &name), Some(bad(0, 3)));
    Ok(())
}
