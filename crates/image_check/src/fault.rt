//! Why an image isn't sound.
ghost use Rattle.std.specs.Prelude.{◌≡◌, Some};
ghost use Rattle.gem_sound.specs.Sound.{rule_number};
ghost use Rattle.image_check.specs.declared.fault.SoundFault.TheVariants.{NoMemory};
ghost use Rattle.image_check.specs.Faults.{rule_of, fault_text};

use gem_object::Oid;
use std::alloc::{AllocError, AllocFailed};
use std::error::Error;
use std::fmt;

/// A rule that a sound image keeps, in the order in which they are tried for a name.
#[derive(Clone, Copy, Debug, PartialEq, Eq)]
pub enum Rule {
    /// No name is 0, and what is referred to is there.
    I1 = 1,
    /// A method's source has fewer than 2^24 bytes and is the text of a method of its selector, and
    /// a primitive stands only where it belongs.
    I2 = 2,
    /// The superclasses of a class end at Object, it has the superclass, the kind and the names
    /// that it may have, and with the inherited ones at most 200.
    I3 = 3,
    /// The objects of the kernel are there, each with its kind of body.
    I4 = 4,
    /// Class and segment of an object fit it, and so do the objects that a segment or a user names.
    I5 = 5,
}

impl Rule {
    /// The number that is printed after `I`, 1 to 5.
    pub fn number(self) -> u8
        ensures { result ≡ rule_number (rule_of self) }
    {
        self as u8
    }
}

/// Why an image isn't known to be sound.
#[derive(Clone, Copy, Debug, PartialEq, Eq)]
pub enum SoundFault {
    /// The image isn't sound.
    Broken {
        /// The lowest name at which a rule is broken. An object of the kernel that isn't there
        /// breaks I4 at its name.
        oid: Oid,
        /// The first rule that is broken there.
        rule: Rule,
    },
    /// Memory ran out.
    NoMemory,
}

impl fmt::Display for SoundFault {
    ghost output = { λ fault. Some (fault_text fault) };

    fn fmt<W: fmt::Write>(&self, f: &mut fmt::Formatter<W>) -> fmt::Result {
        match *self {
            SoundFault::Broken { oid, rule } => {
                let number = rule.number();
                write!(f, "I{number} at {oid}")
            }
            SoundFault::NoMemory => f.write_str("out of memory"),
        }
    }
}

impl Error for SoundFault {}

impl From<AllocError> for SoundFault {
    ghost from_gives = { λ _ fault. fault ≡ NoMemory };

    fn from(_: AllocError) -> SoundFault {
        SoundFault::NoMemory
    }
}

impl<T: Drop> From<AllocFailed<T>> for SoundFault {
    ghost from_gives = { λ _ fault. fault ≡ NoMemory };

    fn from(_: AllocFailed<T>) -> SoundFault {
        SoundFault::NoMemory
    }
}
