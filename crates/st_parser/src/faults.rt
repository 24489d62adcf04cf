//! Why a text has no tree.
ghost use Rattle.std.specs.Prelude.{◌≡◌, Some};
ghost use Rattle.st_parser.specs.FaultText.{fault_text};
ghost use Rattle.st_parser.specs.declared.faults.ParseFault.TheVariants.{Rule, NoMemory};
ghost use Rattle.st_parser.specs.Faults.{fault_from};

use st_lexer::LexFault;
use std::alloc::{AllocError, AllocFailed};
use std::error::Error;
use std::fmt;

/// Why a text has no tree.
#[derive(Clone, Copy, Debug, PartialEq, Eq)]
pub enum ParseFault {
    /// The text breaks a rule. P1 to P3 are those of `LexFault::Bad`. P4: another token is
    /// expected. P5: a `]` is missing. P6: a `)` is missing. P7: a name twice among the parameters
    /// and temporaries of one method or block, or a pseudo-variable declared. P8: an assignment to
    /// a pseudo-variable or a parameter. P9: blocks, parentheses and literal arrays nested too
    /// deep.
    Rule {
        /// The offset of the first token that can't stand there, or the text's length where the
        /// text ends too soon.
        at: u32,
        /// The number that is printed after `P`, 1 to 9.
        rule: u8,
    },
    /// Memory ran out.
    NoMemory,
}

impl fmt::Display for ParseFault {
    ghost output = { λ fault. Some (fault_text fault) };

    fn fmt<W: fmt::Write>(&self, f: &mut fmt::Formatter<W>) -> fmt::Result {
        match *self {
            ParseFault::Rule { at, rule } => write!(f, "P{rule} at {at}"),
            ParseFault::NoMemory => f.write_str("out of memory"),
        }
    }
}

impl Error for ParseFault {}

impl From<AllocError> for ParseFault {
    ghost from_gives = { λ _ fault. fault ≡ NoMemory };

    fn from(_: AllocError) -> ParseFault {
        ParseFault::NoMemory
    }
}

impl<T: Drop> From<AllocFailed<T>> for ParseFault {
    ghost from_gives = { λ _ fault. fault ≡ NoMemory };

    fn from(_: AllocFailed<T>) -> ParseFault {
        ParseFault::NoMemory
    }
}

impl From<LexFault> for ParseFault {
    ghost from_gives = { λ lexed fault. fault ≡ fault_from lexed };

    fn from(lexed: LexFault) -> ParseFault {
        match lexed {
            LexFault::Bad { at, rule } => ParseFault::Rule { at, rule },
            LexFault::NoMemory => ParseFault::NoMemory,
        }
    }
}
