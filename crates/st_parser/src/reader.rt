//! A reader over the tokens of a text.
ghost use Rattle.std.specs.Prelude.{◌≡◌, length};
ghost use Rattle.st_grammar.specs.Grammar.{words_of};
ghost use Rattle.st_parser.specs.Descent.{starts, is_kind};
ghost use Rattle.st_parser.specs.Descent.{begins_expression, begins_statement};
ghost use Rattle.st_parser.specs.Levels.{level_seen, Assigned, Selects};
ghost use Rattle.st_grammar_laws.specs.Machine.{super_takes};
ghost use Rattle.st_lexer.specs.Views.{kind_seen, tokens_seen};
ghost use Rattle.st_parser.specs.Reader.{AreWhole};
ghost use Rattle.st_parser.specs.Lexemes.{Shows, NumberIn, others};

use crate::levels::Level;
use crate::scopes::is_minus;
use st_lexer::{Token, TokenKind};
use std::marker::Model;

// A token, its bytes, and whether it touches the token before it.
#[derive(Clone, Copy, Debug)]
pub(crate) struct Lexeme<'a> {
    pub(crate) kind: TokenKind,
    pub(crate) bytes: &'a [u8],
    pub(crate) touches: bool,
}

// The tokens that are left of a text. `end` is where the token before them ended.
#[derive(Debug, Drop)]
pub(crate) struct Reader<'a> {
    text: &'a [u8],
    tokens: &'a [Token],
    end: u32,
}

impl<'a> Model for Reader<'a> {
    ghost use Rattle.std.specs.Prelude.{List};
    ghost use Rattle.st_grammar.specs.Grammar.{Word, words_after};
    ghost use Rattle.st_lexer.specs.Views.{tokens_seen};
    ghost use Rattle.st_parser.specs.Reader.{AreWhole};

    ghost Value = { List Word };

    ghost view = { λ r. words_after r.end r.text.now (tokens_seen r.tokens.now) };

    ghost invariant = { λ r. AreWhole r.text.now (tokens_seen r.tokens.now) };
}

impl<'a> Reader<'a> {
    pub(crate) fn new(text: &'a [u8], tokens: &'a [Token]) -> Reader<'a>
        requires { AreWhole text.now (tokens_seen tokens.now) }
        ensures { result ≡ words_of text.now (tokens_seen tokens.now) }
    {
        Reader {
            text,
            tokens,
            end: 0,
        }
    }

    // The next token, or `None` at the end.
    pub(crate) fn peek(&self) -> Option<Lexeme<'a>>
        ensures shows { Shows result self.now }
        ensures number { NumberIn result }
    {
        let token = self.tokens.first()?;
        Some(Lexeme {
            kind: token.kind,
            bytes: &self.text[token.start as usize..token.end as usize],
            touches: token.start == self.end,
        })
    }

    // Goes past the next token, if there is one.
    pub(crate) fn skip(&mut self)
        ensures { self.new ≡ others self.old }
    {
        if let Some((token, rest)) = self.tokens.split_first() {
            self.end = token.end;
            self.tokens = rest;
        }
    }

    // How many tokens are left.
    pub(crate) fn left(&self) -> usize
        ensures { result ≡ length self.now }
    {
        self.tokens.len()
    }

    // The next token is of this kind.
    pub(crate) fn is_at(&self, kind: TokenKind) -> bool
        ensures { result ≡ starts (is_kind (kind_seen kind)) self.now }
    {
        match self.peek() {
            Some(lexeme) => lexeme.kind == kind,
            None => false,
        }
    }

    // The name at the next token, if a `:=` follows it.
    pub(crate) fn assigned_name(&self) -> Option<&'a [u8]>
        ensures { Assigned result self.now }
    {
        let (name, rest) = self.tokens.split_first()?;
        let assign = rest.first()?;
        match (name.kind, assign.kind) {
            (TokenKind::Identifier, TokenKind::Assign) => Some(
                &self.text[name.start as usize..name.end as usize],
            ),
            _ => None,
        }
    }

    // The binary selector at the next token, if it is one.
    pub(crate) fn selector(&self) -> Option<&'a [u8]>
        ensures { Selects result self.now }
    {
        let lexeme = self.peek()?;
        match lexeme.kind {
            TokenKind::Binary => Some(lexeme.bytes),
            TokenKind::Bar => Some(lexeme.bytes),
            _ => None,
        }
    }

    // The next token begins a message that an expression at this level may hold.
    pub(crate) fn begins_message(&self, level: Level) -> bool
        ensures { result ≡ starts (super_takes (level_seen level)) self.now }
    {
        let Some(lexeme) = self.peek() else {
            return false;
        };
        match lexeme.kind {
            TokenKind::Identifier => true,
            TokenKind::Binary => !matches!(level, Level::OfBinary),
            TokenKind::Bar => !matches!(level, Level::OfBinary),
            TokenKind::Keyword => matches!(level, Level::Full),
            _ => false,
        }
    }

    // The next token begins an expression.
    fn begins_expression(&self) -> bool
        ensures { result ≡ begins_expression self.now }
    {
        let Some(lexeme) = self.peek() else {
            return false;
        };
        match lexeme.kind {
            TokenKind::Identifier => true,
            TokenKind::Number => true,
            TokenKind::Character => true,
            TokenKind::Str => true,
            TokenKind::Symbol => true,
            TokenKind::OpenParen => true,
            TokenKind::OpenBracket => true,
            TokenKind::OpenArray => true,
            TokenKind::Binary => is_minus(lexeme.bytes),
            _ => false,
        }
    }

    // The next token begins a statement.
    pub(crate) fn begins_statement(&self) -> bool
        ensures { result ≡ begins_statement self.now }
    {
        self.is_at(TokenKind::Caret) || self.begins_expression()
    }
}
