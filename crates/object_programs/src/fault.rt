//! The errors by which a chunk ends.
ghost use Rattle.std.specs.Prelude.{◌≡◌, Some, MatchResult};
ghost use Rattle.std.specs.Str.{IsUtf8};
ghost use Rattle.object_programs.specs.Fault.{fault_number, fault_text};

use gem_object::{Oid, Text};
use std::error::Error;
use std::{fmt, str};

/// An error that ends a chunk.
#[derive(Debug, Drop)]
pub enum Fault {
    /// E1: no method answers the message with this selector.
    NotUnderstood(Text),
    /// E2: the name stands for nothing.
    UndefinedVariable(Text),
    /// E3: a condition isn't a Boolean.
    NotBoolean,
    /// E4: there is nothing at the index.
    Index,
    /// E5: an argument isn't of the kind that is wanted.
    ArgumentKind,
    /// E6: the result isn't one of the language's integers.
    IntegerRange,
    /// E7: a division by zero.
    ZeroDivisor,
    /// E8: the method to which a block returns has ended.
    DeadHome,
    /// E9: a block is handed another number of arguments than it takes.
    BlockArgumentCount,
    /// E10: the user may not read the object of this name.
    NoReadRight(Oid),
    /// E11: the user may not write the object of this name.
    NoWriteRight(Oid),
    /// E12: a block would be stored.
    BlockStored,
    /// E13: no unit is left.
    SendBudget,
    /// E14: too many activations live at once.
    Depth,
    /// E15: too little space is left.
    Space,
    /// E16: no name is left to be drawn.
    NamesUsedUp,
    /// E17: an object or a text would be too large.
    ObjectTooLarge,
    /// E18: the key isn't there.
    KeyAbsent,
    /// E19: the object may not be put into another segment.
    SegmentChange,
    /// E20: the program raised an error with this text.
    Raised(Text),
}

impl Fault {
    /// The number k of the rule, in `error Ek`: from 1 to 20. It takes no memory.
    pub fn number(&self) -> u8
        ensures { result ≡ fault_number self.now }
    {
        match self {
            Fault::NotUnderstood(_) => 1,
            Fault::UndefinedVariable(_) => 2,
            Fault::NotBoolean => 3,
            Fault::Index => 4,
            Fault::ArgumentKind => 5,
            Fault::IntegerRange => 6,
            Fault::ZeroDivisor => 7,
            Fault::DeadHome => 8,
            Fault::BlockArgumentCount => 9,
            Fault::NoReadRight(_) => 10,
            Fault::NoWriteRight(_) => 11,
            Fault::BlockStored => 12,
            Fault::SendBudget => 13,
            Fault::Depth => 14,
            Fault::Space => 15,
            Fault::NamesUsedUp => 16,
            Fault::ObjectTooLarge => 17,
            Fault::KeyAbsent => 18,
            Fault::SegmentChange => 19,
            Fault::Raised(_) => 20,
        }
    }
}

/// The text as characters, to be printed. The error comes only for bytes that aren't UTF-8; what a
/// chunk names or raises has bytes below 128.
fn printed(text: &Text) -> Result<&str, fmt::Error>
    ensures { MatchResult result (λ told. told.now ≡ text.now) (λ _. ¬ (IsUtf8 text.now)) }
{
    str::from_utf8(text.bytes()).map_err(|_| fmt::Error)
}

/// What is printed after `error Ek `. Where a text that the fault holds isn't UTF-8 it isn't
/// printed, and the answer is an error; so is any refusal of the writer.
impl fmt::Display for Fault {
    ghost output = { λ fault. Some (fault_text fault) };

    fn fmt<W: fmt::Write>(&self, f: &mut fmt::Formatter<W>) -> fmt::Result {
        match self {
            Fault::NotUnderstood(selector) => {
                let selector = printed(selector)?;
                write!(f, "not understood: {selector}")
            }
            Fault::UndefinedVariable(name) => {
                let name = printed(name)?;
                write!(f, "undefined variable: {name}")
            }
            Fault::NotBoolean => f.write_str("not a Boolean"),
            Fault::Index => f.write_str("index"),
            Fault::ArgumentKind => f.write_str("argument kind"),
            Fault::IntegerRange => f.write_str("integer range"),
            Fault::ZeroDivisor => f.write_str("zero divisor"),
            Fault::DeadHome => f.write_str("dead home"),
            Fault::BlockArgumentCount => f.write_str("block argument count"),
            Fault::NoReadRight(name) => write!(f, "no read right: {name}"),
            Fault::NoWriteRight(name) => write!(f, "no write right: {name}"),
            Fault::BlockStored => f.write_str("block stored"),
            Fault::SendBudget => f.write_str("send budget"),
            Fault::Depth => f.write_str("depth"),
            Fault::Space => f.write_str("space"),
            Fault::NamesUsedUp => f.write_str("names used up"),
            Fault::ObjectTooLarge => f.write_str("object too large"),
            Fault::KeyAbsent => f.write_str("key absent"),
            Fault::SegmentChange => f.write_str("segment change refused"),
            Fault::Raised(text) => {
                let text = printed(text)?;
                write!(f, "error: {text}")
            }
        }
    }
}

impl Error for Fault {}
