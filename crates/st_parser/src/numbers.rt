//! The integers that number tokens stand for.
ghost use Rattle.std.specs.Prelude.{◌≡◌, pos};
ghost use lib.IntN.{neg_ℤ};
ghost use Rattle.st_grammar.specs.Tokens.{number_value};
ghost use Rattle.st_lexer.specs.Numbers.{IsNumber};

use st_lexer::number_value;

// The number that the bytes of a number token stand for.
pub(crate) fn number(bytes: &[u8]) -> i64
    requires { IsNumber bytes.now }
    ensures { result ≡ pos (number_value bytes.now) }
{
    number_value(bytes) as i64
}

// The number with a `-` before it.
pub(crate) fn negative(bytes: &[u8]) -> i64
    requires { IsNumber bytes.now }
    ensures { result ≡ neg_ℤ (pos (number_value bytes.now)) }
{
    -number(bytes)
}
