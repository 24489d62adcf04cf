//! The kinds of token, tokens, and why a text has none.
ghost use Rattle.std.specs.Prelude.{◌≡◌, Some};
ghost use Rattle.st_lexer.specs.FaultText.{fault_text};
ghost use Rattle.st_lexer.specs.declared.kinds.LexFault.TheVariants.{NoMemory};

use std::alloc::{AllocError, AllocFailed};
use std::error::Error;
use std::fmt;

/// The kinds of token.
#[derive(Clone, Copy, Debug, PartialEq, Eq)]
pub enum TokenKind {
    /// A letter or `_`, then letters, digits and `_`.
    Identifier,
    /// An identifier with a colon directly after it, where no `=` follows.
    Keyword,
    /// Digits, or a radix of 2 to 36, `r` and digits below it. At most 2^60 - 1.
    Number,
    /// `$` and one byte of 32 to 126.
    Character,
    /// A string in single quotes, in which a doubled quote is one quote.
    Str,
    /// `#` and an identifier, keywords, a binary selector or a string, of at most 1,000 bytes.
    Symbol,
    /// A binary selector other than `|`.
    Binary,
    /// `|`, which is a binary selector where one is expected.
    Bar,
    /// `:=`
    Assign,
    /// `:`
    Colon,
    /// `^`
    Caret,
    /// `;`
    Semicolon,
    /// `.`
    Period,
    /// `(`
    OpenParen,
    /// `)`
    CloseParen,
    /// `[`
    OpenBracket,
    /// `]`
    CloseBracket,
    /// `#(`
    OpenArray,
}

/// A token of a text: `start` is the offset of its first byte and `end` the one after its last.
#[derive(Clone, Copy, Debug, PartialEq, Eq)]
pub struct Token {
    /// What kind of token it is.
    pub kind: TokenKind,
    /// The offset of its first byte.
    pub start: u32,
    /// The offset after its last byte.
    pub end: u32,
}

/// Why a text has no tokens.
#[derive(Clone, Copy, Debug, PartialEq, Eq)]
pub enum LexFault {
    /// A bad token begins at offset `at`. P1: no token begins with this byte. P2: a string,
    /// comment, character or symbol without its end, or a `#` with which nothing begins. P3: a
    /// number that isn't of the form or is too large, or a symbol that is too long.
    Bad {
        /// The offset where the bad token begins.
        at: u32,
        /// The number that is printed after `P`, 1 to 3.
        rule: u8,
    },
    /// Memory ran out.
    NoMemory,
}

impl fmt::Display for LexFault {
    ghost output = { λ fault. Some (fault_text fault) };

    fn fmt<W: fmt::Write>(&self, f: &mut fmt::Formatter<W>) -> fmt::Result {
        match *self {
            LexFault::Bad { at, rule } => write!(f, "P{rule} at {at}"),
            LexFault::NoMemory => f.write_str("out of memory"),
        }
    }
}

impl Error for LexFault {}

impl From<AllocError> for LexFault {
    ghost from_gives = { λ _ fault. fault ≡ NoMemory };

    fn from(_: AllocError) -> LexFault {
        LexFault::NoMemory
    }
}

impl<T: Drop> From<AllocFailed<T>> for LexFault {
    ghost from_gives = { λ _ fault. fault ≡ NoMemory };

    fn from(_: AllocFailed<T>) -> LexFault {
        LexFault::NoMemory
    }
}
