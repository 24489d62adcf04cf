//! Why the parser stops.
ghost use Rattle.std.specs.Prelude.{◌≡◌};
ghost use Rattle.st_parser.specs.declared.stops.Stop.TheVariants.{Memory};
ghost use Rattle.st_grammar.specs.Fails.{rule_number, of_grammar};
ghost use Rattle.st_parser.specs.Descent.{rule_of};

use std::alloc::{AllocError, AllocFailed};

// The rule that the token in hand breaks.
#[derive(Clone, Copy, Debug, PartialEq, Eq)]
pub(crate) enum Broken {
    // P4: another token is expected.
    Unexpected,
    // P5: a `]` is missing.
    MissingBracket,
    // P6: a `)` is missing.
    MissingParen,
    // P7: a name is declared twice, or a pseudo-variable is.
    Declaration,
    // P8: a pseudo-variable or a parameter is assigned to.
    Assignment,
    // P9: blocks, parentheses and literal arrays are nested too deep.
    Depth,
}

// Why a part of the text isn't read: the token in hand breaks a rule, or memory ran out.
#[derive(Clone, Copy, Debug, PartialEq, Eq)]
pub(crate) enum Stop {
    Breaks(Broken),
    Memory,
}

impl From<AllocError> for Stop {
    ghost from_gives = { λ _ stop. stop ≡ Memory };

    fn from(_: AllocError) -> Stop {
        Stop::Memory
    }
}

impl<T: Drop> From<AllocFailed<T>> for Stop {
    ghost from_gives = { λ _ stop. stop ≡ Memory };

    fn from(_: AllocFailed<T>) -> Stop {
        Stop::Memory
    }
}

impl Broken {
    // The number that is printed after `P`.
    pub(crate) fn number(self) -> u8
        ensures { result ≡ rule_number (of_grammar (rule_of self)) }
    {
        match self {
            Broken::Unexpected => 4,
            Broken::MissingBracket => 5,
            Broken::MissingParen => 6,
            Broken::Declaration => 7,
            Broken::Assignment => 8,
            Broken::Depth => 9,
        }
    }
}
