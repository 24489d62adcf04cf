//! Why a text is no script.
ghost use Rattle.std.specs.Prelude.{◌≡◌, Some};
ghost use Rattle.shell_words.specs.FaultText.{fault_text};
ghost use Rattle.shell_words.specs.declared.fault.ScriptFault.TheVariants.{NoMemory};

use crate::rule::ScriptRule;
use std::alloc::{AllocError, AllocFailed};
use std::error::Error;
use std::fmt;

/// Why a text is no script.
#[derive(Clone, Copy, Debug, PartialEq, Eq)]
pub enum ScriptFault {
    /// The text breaks this rule first, at this line.
    Rule {
        /// The number of the line, from 1, or 0 for `ScriptSize`, a rule of the text as a whole.
        line: u32,
        /// The rule.
        rule: ScriptRule,
    },
    /// Memory ran out.
    NoMemory,
}

impl ScriptFault {
    /// The fault of a text that has more bytes than a script, for whoever reads no further.
    pub fn too_long() -> ScriptFault
        ensures { result ≡ ScriptFault.Rule 0 ScriptRule.ScriptSize }
    {
        ScriptFault::Rule {
            line: 0,
            rule: ScriptRule::ScriptSize,
        }
    }
}

impl fmt::Display for ScriptFault {
    ghost output = { λ fault. Some (fault_text fault) };

    fn fmt<W: fmt::Write>(&self, f: &mut fmt::Formatter<W>) -> fmt::Result {
        match *self {
            ScriptFault::Rule { line, rule } => {
                let rule = rule.number();
                write!(f, "script line {line} rule S{rule}")
            }
            ScriptFault::NoMemory => f.write_str("out of memory"),
        }
    }
}

impl Error for ScriptFault {}

impl From<AllocError> for ScriptFault {
    ghost from_gives = { λ _ fault. fault ≡ NoMemory };

    fn from(_: AllocError) -> ScriptFault {
        ScriptFault::NoMemory
    }
}

impl<T: Drop> From<AllocFailed<T>> for ScriptFault {
    ghost from_gives = { λ _ fault. fault ≡ NoMemory };

    fn from(_: AllocFailed<T>) -> ScriptFault {
        ScriptFault::NoMemory
    }
}
