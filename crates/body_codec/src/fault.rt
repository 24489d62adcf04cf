//! Why bytes could not be read.
ghost use Rattle.std.specs.Prelude.{◌≡◌, Some, length};
ghost use Rattle.body_codec.specs.FaultText.{fault_text};
ghost use Rattle.body_codec.specs.declared.fault.ReadError.TheVariants.{Memory};

use std::alloc::{AllocError, AllocFailed};
use std::error::Error;
use std::fmt;

/// What spelled bytes must keep. The order is that of the numbers, from 1 to 5.
#[derive(Clone, Copy, Debug, PartialEq, Eq)]
pub enum BodyRule {
    /// The bytes end too early.
    Length = 1,
    /// A tag or a kind is unknown, or isn't one that a key may have.
    Kind = 2,
    /// A number is outside its range.
    Range = 3,
    /// Keys, names or groups don't ascend, or one stands twice.
    Order = 4,
    /// A byte of a text is 128 or more.
    Byte = 5,
}

impl BodyRule {
    ghost use Rattle.body_codec.specs.FaultText.{rule_number};

    /// The number, from 1 to 5.
    pub fn number(self) -> u8
        ensures { result ≡ rule_number self }
    {
        self as u8
    }
}

/// Why bytes don't begin with the spelling of an object or an effect.
#[derive(Clone, Copy, Debug, PartialEq, Eq)]
pub enum BodyFault {
    /// They don't. The first field that fails begins at this offset and breaks this rule.
    Bad {
        /// The offset of the field in the bytes; their length, where they end in front of it.
        at: u64,
        /// The rule.
        rule: BodyRule,
    },
    /// Memory ran out.
    NoMemory,
}

impl fmt::Display for BodyFault {
    ghost output = { λ fault. Some (fault_text fault) };

    fn fmt<W: fmt::Write>(&self, f: &mut fmt::Formatter<W>) -> fmt::Result {
        match *self {
            BodyFault::Bad { at, rule } => {
                let rule = rule.number();
                write!(f, "byte {at} rule B{rule}")
            }
            BodyFault::NoMemory => f.write_str("out of memory"),
        }
    }
}

impl Error for BodyFault {}

/// The first field that fails among bytes that are read field by field. No call of this crate gives
/// one; it is public for the definitions of crates above.
#[derive(Clone, Copy, Debug, PartialEq, Eq)]
pub struct Flaw {
    /// How many bytes are left from the field on.
    pub left: usize,
    /// The rule that the field breaks.
    pub rule: BodyRule,
}

#[derive(Debug, Drop)]
pub(crate) enum ReadError {
    Memory,
    Flaw(Flaw),
}

impl From<AllocError> for ReadError {
    ghost from_gives = { λ _ e. e ≡ Memory };

    fn from(_e: AllocError) -> ReadError {
        ReadError::Memory
    }
}

impl<T: Drop> From<AllocFailed<T>> for ReadError {
    ghost from_gives = { λ _ e. e ≡ Memory };

    fn from(_e: AllocFailed<T>) -> ReadError {
        ReadError::Memory
    }
}

// The field at the front of these bytes breaks the rule.
pub(crate) fn breaks(bytes: &[u8], rule: BodyRule) -> ReadError
    ensures { result ≡ ReadError.Flaw (record { left = length bytes.now; rule = rule }) }
{
    ReadError::Flaw(Flaw {
        left: bytes.len(),
        rule,
    })
}
