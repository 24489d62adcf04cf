//! The tokens of a text, piece by piece.
ghost use Rattle.std.specs.Prelude.{◌≡◌, ◌^◌, ◌<◌, length, IfOk, IfErr};
ghost use Rattle.st_grammar.specs.Tokens.{Lexes};
ghost use Rattle.st_lexer.specs.Views.{tokens_seen, IsFault};

use crate::kinds::{LexFault, Token};
use crate::pieces::{Piece, piece_from};
use std::alloc::Global;

/// The tokens of the text in order, or the first bad token's place and rule.
///
/// # Errors
///
/// `Bad` exactly where the text has a bad token: the first one's offset and its rule. `NoMemory`
/// where memory ran out, of which the contract says no more.
pub fn tokens(alloc: Global, text: &[u8]) -> Result<Vec<Token>, LexFault>
    requires { length text.now < 2 ^ 32 }
    ensures tokens { IfOk result (λ v. Lexes 0 text.now (tokens_seen v.items)) }
    ensures fault { IfErr result (IsFault text.now) }
{
    let mut tokens = Vec::new(alloc);
    let mut at = 0;
    while at < text.len() {
        match piece_from(text, at) {
            Piece::Gap(len) => at += len,
            Piece::Word(kind, len) => {
                tokens.push(Token {
                    kind,
                    start: at as u32,
                    end: (at + len) as u32,
                })?;
                at += len;
            }
            Piece::Wrong(rule) => {
                return Err(LexFault::Bad {
                    at: at as u32,
                    rule: rule.number(),
                });
            }
        }
    }
    Ok(tokens)
}
