//! Literals.
ghost use Rattle.std.specs.Prelude.{◌≡◌, ◌<◌, ◌≤◌, ◌∷◌, true, false, length, IfOk};
ghost use Rattle.st_grammar.specs.declared.limits.TheConstants.{DEPTH_LIMIT};
ghost use Rattle.st_tree.specs.Trees.{array, no_constants, sym};
ghost use Rattle.st_tree.specs.Views.{constant_of};
ghost use Rattle.st_grammar.specs.Grammar.{named_constant, starts_with_joined_number};
ghost use Rattle.st_grammar_laws.specs.Machine.{Nest, Slot, in_elements, element_run, minus, have};
ghost use Rattle.st_grammar_laws.specs.Machine.{one_more, close_array, depth_nest, bare};
ghost use Rattle.st_grammar.specs.Tokens.{close_paren};
ghost use Rattle.st_parser.specs.Descent.{with_literal, Reached, starts, is_kind};
ghost use Rattle.st_parser.specs.Literals.{atom_of, constants_in, opens_array, is_other};
ghost use Rattle.st_parser.specs.Literals.{behind_selector};
ghost use Rattle.st_parser.specs.Lexemes.{HoldsNumber, word_of, others};
ghost use Rattle.st_lexer.specs.Views.{kind_seen};
ghost use Rattle.texts.specs.Bytes.{Bytes};
ghost use Rattle.st_tree.specs.Trees.{Constants, constant};
ghost use Rattle.st_grammar.specs.Grammar.{any_message};
ghost use Rattle.std.specs.Prelude.{List};

use crate::numbers::{negative, number};
use crate::reader::{Lexeme, Reader};
use crate::scopes::is_minus;
use crate::stops::{Broken, Stop};
use st_grammar::DEPTH_LIMIT;
use st_lexer::{TokenKind, character_value, string_value, symbol_value};
use st_tree::{Literal, Literals};
use std::alloc::{AllocError, Global};
use texts::Text;

const NIL: &[u8] = b"nil";

const TRUE: &[u8] = b"true";

const FALSE: &[u8] = b"false";

// The literal that a token is on its own, or `None` where it is none.
pub(crate) fn atom(alloc: Global, lexeme: &Lexeme) -> Result<Option<Literal>, AllocError>
    requires { HoldsNumber lexeme.now }
    ensures { IfOk result (λ literal. constants_in literal
        ≡ atom_of (kind_seen lexeme.now.kind) lexeme.now.bytes.now) }
{
    match lexeme.kind {
        TokenKind::Number => Ok(Some(Literal::Int(number(lexeme.bytes)))),
        TokenKind::Character => Ok(Some(Literal::Char(character_value(lexeme.bytes)))),
        TokenKind::Str => Ok(Some(Literal::Str(string_value(alloc, lexeme.bytes)?))),
        TokenKind::Symbol => Ok(Some(Literal::Sym(symbol_value(alloc, lexeme.bytes)?))),
        _ => Ok(None),
    }
}

// What an identifier stands for in a literal array.
fn named(alloc: Global, name: &[u8]) -> Result<Literal, AllocError>
    ensures { IfOk result (λ l. constant_of l ≡ named_constant name.now) }
{
    if name == NIL {
        return Ok(Literal::Nil);
    }
    if name == TRUE {
        return Ok(Literal::True);
    }
    if name == FALSE {
        return Ok(Literal::False);
    }
    Ok(Literal::Sym(Text::copy_of(alloc, name)?))
}

// The symbol of keywords that follow one another without a gap, of which the first is read.
fn keyword_run(alloc: Global, r: &mut Reader, first: &[u8]) -> Result<Literal, Stop>
    ensures met { (n : Nest) (cs : Constants)
        → Reached (element_run n cs first.now) r.old (with_literal n cs) r.new result }
    ensures shorter { length r.new ≤ length r.old }
{
    let mut symbol = first.to_vec(alloc)?;
    'joined: while let Some(
        Lexeme {
            kind: TokenKind::Keyword,
            bytes,
            touches: true,
        },
    ) = r.peek()
    {
        symbol.extend_from_slice(bytes)?;
        r.skip();
    }
    Ok(Literal::Sym(Text::of(symbol)))
}

// A binary selector as a symbol, or the number after a `-` that it touches. The selector is read.
fn selector(alloc: Global, r: &mut Reader, selector: &[u8]) -> Result<Literal, Stop>
    ensures met { (n : Nest) (cs : Constants)
        → Reached (behind_selector n cs selector.now) r.old (with_literal n cs) r.new result }
    ensures shorter { length r.new ≤ length r.old }
{
    if !is_minus(selector) {
        return Ok(Literal::Sym(Text::copy_of(alloc, selector)?));
    }
    match r.peek() {
        Some(
            Lexeme {
                kind: TokenKind::Number,
                bytes,
                touches: true,
            },
        ) => {
            r.skip();
            Ok(Literal::Int(negative(bytes)))
        }
        _ => Ok(Literal::Sym(Text::copy_of(alloc, selector)?)),
    }
}

// The elements of a literal array and its `)`. The bracket before them is read.
#[cycle(array)]
pub(crate) fn elements(alloc: Global, r: &mut Reader, depth: usize) -> Result<Literals, Stop>
    requires { depth ≤ DEPTH_LIMIT }
    ensures met { (n : Nest) → depth_nest n ≡ depth
        → Reached (in_elements n no_constants) r.old (λ cs. close_array n (array cs)) r.new result }
    ensures shorter { IfOk result (λ _. length r.new < length r.old) }
{
    let mut items = Vec::new(alloc);
    'elements: while !r.is_at(TokenKind::CloseParen) {
        items.push(element(alloc, r, depth)?)?;
    }
    r.skip();
    Ok(Literals { items })
}

// An array in parentheses or after `#(`, as an element.
#[cycle(array)]
fn nested(alloc: Global, r: &mut Reader, depth: usize) -> Result<Literal, Stop>
    requires small { depth ≤ DEPTH_LIMIT }
    requires opens { starts opens_array r.old ≡ true }
    ensures met { (n : Nest) (cs : Constants) → depth_nest n ≡ depth
        → Reached (in_elements n cs) r.old (with_literal n cs) r.new result }
    ensures shorter { IfOk result (λ _. length r.new < length r.old) }
{
    if depth >= DEPTH_LIMIT {
        return Err(Stop::Breaks(Broken::Depth));
    }
    r.skip();
    Ok(Literal::Array(elements(alloc, r, depth + 1)?))
}

fn atom_element(alloc: Global, r: &mut Reader, lexeme: &Lexeme) -> Result<Literal, Stop>
    requires number { HoldsNumber lexeme.now }
    requires shown { r.old ≡ word_of lexeme.now ∷ others r.old }
    requires other { is_other (kind_seen lexeme.now.kind) ≡ true }
    ensures met { (n : Nest) (cs : Constants)
        → Reached (in_elements n cs) r.old (with_literal n cs) r.new result }
    ensures shorter { IfOk result (λ _. length r.new < length r.old) }
{
    match atom(alloc, lexeme)? {
        Some(literal) => {
            r.skip();
            Ok(literal)
        }
        None => Err(Stop::Breaks(Broken::MissingParen)),
    }
}

#[cycle(array)]
fn element(alloc: Global, r: &mut Reader, depth: usize) -> Result<Literal, Stop>
    requires small { depth ≤ DEPTH_LIMIT }
    requires goes_on { starts (is_kind close_paren) r.old ≡ false }
    ensures met { (n : Nest) (cs : Constants) → depth_nest n ≡ depth
        → Reached (in_elements n cs) r.old (with_literal n cs) r.new result }
    ensures shorter { IfOk result (λ _. length r.new < length r.old) }
{
    let Some(lexeme) = r.peek() else {
        return Err(Stop::Breaks(Broken::MissingParen));
    };
    match lexeme.kind {
        TokenKind::Identifier => {
            r.skip();
            Ok(named(alloc, lexeme.bytes)?)
        }
        TokenKind::Keyword => {
            r.skip();
            keyword_run(alloc, r, lexeme.bytes)
        }
        TokenKind::Binary => {
            r.skip();
            selector(alloc, r, lexeme.bytes)
        }
        TokenKind::Bar => {
            r.skip();
            Ok(Literal::Sym(Text::copy_of(alloc, lexeme.bytes)?))
        }
        TokenKind::OpenParen => nested(alloc, r, depth),
        TokenKind::OpenArray => nested(alloc, r, depth),
        _ => atom_element(alloc, r, &lexeme),
    }
}
