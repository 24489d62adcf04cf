//! The names that methods and blocks declare.
ghost use Rattle.std.specs.Prelude.{◌≡◌, ◌++◌, ◌<◌, ◌≤◌, [], false, Some, List, length, IfOk};
ghost use Rattle.texts.specs.Bytes.{Bytes};
ghost use Rattle.st_tree.specs.Trees.{no_statements};
ghost use Rattle.st_grammar.specs.Grammar.{may_declare};
ghost use Rattle.st_grammar_laws.specs.Machine.{Slot, Body, top, in_block, at_pattern};
ghost use Rattle.st_grammar_laws.specs.Machine.{pattern_operator, pattern_keyword, pattern_more};
ghost use Rattle.st_grammar_laws.specs.Machine.{header, in_temps, begin, in_params, param_wanted};
ghost use Rattle.st_grammar.specs.Tokens.{colon};
ghost use Rattle.st_parser.specs.Descent.{with_pattern, Reached, starts, is_kind, filled};
ghost use Rattle.st_parser.specs.Descent.{params_of};

use crate::reader::{Lexeme, Reader};
use crate::scopes::{is_among, may_declare};
use crate::stops::{Broken, Stop};
use st_lexer::TokenKind;
use std::alloc::Global;
use texts::Text;

// Reads the name of a parameter, and puts it after the others.
fn parameter(alloc: Global, r: &mut Reader, params: &mut Vec<Text>) -> Result<(), Stop>
    ensures block { (k : Slot) (names : List Bytes)
        → Reached (param_wanted k names params.old.items) r.old
        (λ _. in_params k names params.new.items) r.new result }
    ensures operator { (selector : Bytes) → params.old.items ≡ []
        → Reached (pattern_operator selector) r.old
        (λ _. header (top (Some selector) params.new.items [] no_statements)) r.new result }
    ensures keyword { (selector : Bytes)
        → Reached (pattern_keyword selector params.old.items) r.old
        (λ _. pattern_more selector params.new.items) r.new result }
    ensures shorter { IfOk result (λ _. length r.new < length r.old) }
{
    match r.peek() {
        Some(
            Lexeme {
                kind: TokenKind::Identifier,
                bytes,
                ..
            },
        ) => {
            if !may_declare(params, bytes) {
                return Err(Stop::Breaks(Broken::Declaration));
            }
            params.push(Text::copy_of(alloc, bytes)?)?;
            r.skip();
            Ok(())
        }
        _ => Err(Stop::Breaks(Broken::Unexpected)),
    }
}

// The parameters of a block.
pub(crate) fn parameters(alloc: Global, r: &mut Reader) -> Result<Vec<Text>, Stop>
    ensures met { (k : Slot) (names : List Bytes)
        → Reached (in_params k names []) r.old
        (λ params. in_params k names params.items) r.new result }
    ensures stops { IfOk result (λ _. starts (is_kind colon) r.new ≡ false) }
    ensures shorter { IfOk result (λ _. length r.new ≤ length r.old) }
{
    let mut params = Vec::new(alloc);
    'params: while r.is_at(TokenKind::Colon) {
        r.skip();
        parameter(alloc, r, &mut params)?;
    }
    Ok(params)
}

// Goes past the `|` after parameters, which may be left out before a `]`.
pub(crate) fn skip_bar(r: &mut Reader, params: &[Text]) -> Result<(), Stop>
    requires { starts (is_kind colon) r.old ≡ false }
    ensures met { (k : Slot) (names : List Bytes)
        → Reached (in_params k names params.now) r.old
        (λ _. header (in_block k names params.now [] no_statements)) r.new result }
    ensures shorter { IfOk result (λ _. length r.new ≤ length r.old) }
{
    if params.is_empty() {
        return Ok(());
    }
    if r.is_at(TokenKind::CloseBracket) {
        return Ok(());
    }
    if !r.is_at(TokenKind::Bar) {
        return Err(Stop::Breaks(Broken::MissingBracket));
    }
    r.skip();
    Ok(())
}

// The name may be declared after these parameters and temporaries.
fn may_add(params: &[Text], temps: &[Text], name: &[u8]) -> bool
    ensures { result ≡ may_declare (params.now ++ temps.now) name.now }
{
    may_declare(params, name) && !is_among(temps, name)
}

// The temporaries and their second `|`. The first is read.
fn temporary_names(alloc: Global, r: &mut Reader, params: &[Text]) -> Result<Vec<Text>, Stop>
    ensures met { (b : Body) → params_of b ≡ params.now
        → Reached (in_temps (filled b [] no_statements)) r.old
        (λ temps. begin (filled b temps.items no_statements)) r.new result }
    ensures shorter { IfOk result (λ _. length r.new < length r.old) }
{
    let mut temps = Vec::new(alloc);
    'temps: while let Some(
        Lexeme {
            kind: TokenKind::Identifier,
            bytes,
            ..
        },
    ) = r.peek()
    {
        if !may_add(params, &temps, bytes) {
            return Err(Stop::Breaks(Broken::Declaration));
        }
        temps.push(Text::copy_of(alloc, bytes)?)?;
        r.skip();
    }
    if !r.is_at(TokenKind::Bar) {
        return Err(Stop::Breaks(Broken::Unexpected));
    }
    r.skip();
    Ok(temps)
}

// The temporaries, which may be left out.
pub(crate) fn temporaries(alloc: Global, r: &mut Reader, params: &[Text]) -> Result<Vec<Text>, Stop>
    ensures met { (b : Body) → params_of b ≡ params.now
        → Reached (header (filled b [] no_statements)) r.old
        (λ temps. begin (filled b temps.items no_statements)) r.new result }
    ensures shorter { IfOk result (λ _. length r.new ≤ length r.old) }
{
    if !r.is_at(TokenKind::Bar) {
        return Ok(Vec::new(alloc));
    }
    r.skip();
    temporary_names(alloc, r, params)
}

// The selector and the parameters of a method.
#[derive(Debug, Drop)]
pub(crate) struct MethodPattern {
    pub(crate) selector: Text,
    pub(crate) params: Vec<Text>,
}

// A pattern of keywords, of which the first is read.
fn keyword_pattern(alloc: Global, r: &mut Reader, first: &[u8]) -> Result<MethodPattern, Stop>
    ensures met { Reached (pattern_keyword first.now []) r.old with_pattern r.new result }
{
    let mut selector = first.to_vec(alloc)?;
    let mut params = Vec::new(alloc);
    'parts: loop {
        parameter(alloc, r, &mut params)?;
        let Some(
            Lexeme {
                kind: TokenKind::Keyword,
                bytes,
                ..
            },
        ) = r.peek()
        else {
            return Ok(MethodPattern {
                selector: Text::of(selector),
                params,
            });
        };
        selector.extend_from_slice(bytes)?;
        r.skip();
    }
}

// A pattern of a binary selector, which is read.
fn operator_pattern(alloc: Global, r: &mut Reader, selector: &[u8]) -> Result<MethodPattern, Stop>
    ensures met { Reached (pattern_operator selector.now) r.old with_pattern r.new result }
{
    let selector = Text::copy_of(alloc, selector)?;
    let mut params = Vec::new(alloc);
    parameter(alloc, r, &mut params)?;
    Ok(MethodPattern { selector, params })
}

// The pattern that a method begins with.
pub(crate) fn pattern(alloc: Global, r: &mut Reader) -> Result<MethodPattern, Stop>
    ensures met { Reached at_pattern r.old with_pattern r.new result }
{
    let Some(lexeme) = r.peek() else {
        return Err(Stop::Breaks(Broken::Unexpected));
    };
    match lexeme.kind {
        TokenKind::Identifier => {
            let selector = Text::copy_of(alloc, lexeme.bytes)?;
            r.skip();
            Ok(MethodPattern {
                selector,
                params: Vec::new(alloc),
            })
        }
        TokenKind::Binary => {
            r.skip();
            operator_pattern(alloc, r, lexeme.bytes)
        }
        TokenKind::Bar => {
            r.skip();
            operator_pattern(alloc, r, lexeme.bytes)
        }
        TokenKind::Keyword => {
            r.skip();
            keyword_pattern(alloc, r, lexeme.bytes)
        }
        _ => Err(Stop::Breaks(Broken::Unexpected)),
    }
}
