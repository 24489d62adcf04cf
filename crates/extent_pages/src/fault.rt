//! Why an extent can't be opened.
ghost use Rattle.std.specs.Prelude.{◌≡◌};

use body_codec::Flaw;
use gem_io::Failed;
use std::alloc::{AllocError, AllocFailed};
use std::error::Error;
use std::fmt;

/// What an extent must keep. The order is that of the numbers, from 1 to 7.
#[derive(Clone, Copy, Debug, PartialEq, Eq)]
pub enum PageRule {
    /// G1: a page lies whole within the file, and has a number below 262,144.
    Outside = 1,
    /// G2: a page of a chain has a number from 3 on, and is used once.
    Taken = 2,
    /// G3: a page uses from 1 to 16,376 bytes, and 16,376 where it isn't the last of its chain.
    Used = 3,
    /// G4: a directory has its form.
    Directory = 4,
    /// G5: a leaf has its form.
    Leaf = 5,
    /// G6: the bytes of each object are a whole object.
    Object = 6,
    /// G7: the root's number is below 2^63, and its counts and its largest serial agree.
    Count = 7,
}

impl PageRule {
    ghost use Rattle.extent_pages.specs.FaultText.{rule_number};

    /// The number, from 1 to 7.
    pub fn number(self) -> u8
        ensures { result ≡ rule_number self }
    {
        self as u8
    }
}

/// Why an extent can't be opened.
#[derive(Clone, Copy, Debug, PartialEq, Eq)]
pub enum PageFault {
    /// Its bytes are no extent.
    NotPages {
        /// The offset of the page in which a rule fails first.
        at: u64,
        /// The rule.
        rule: PageRule,
    },
    /// The disk failed.
    Disk,
    /// Memory ran out.
    NoMemory,
}

impl fmt::Display for PageFault {
    ghost use Rattle.std.specs.Prelude.{Some};
    ghost use Rattle.extent_pages.specs.FaultText.{fault_text};

    ghost output = { λ fault. Some (fault_text fault) };

    fn fmt<W: fmt::Write>(&self, f: &mut fmt::Formatter<W>) -> fmt::Result {
        match *self {
            PageFault::NotPages { at, rule } => {
                let rule = rule.number();
                write!(f, "extent byte {at} rule G{rule}")
            }
            PageFault::Disk => f.write_str("disk fault"),
            PageFault::NoMemory => f.write_str("out of memory"),
        }
    }
}

impl Error for PageFault {}

impl From<Failed> for PageFault {
    ghost use Rattle.extent_pages.specs.declared.fault.PageFault.TheVariants as faults;

    ghost from_gives = { λ _ e. e ≡ faults.Disk };

    fn from(_e: Failed) -> PageFault {
        PageFault::Disk
    }
}

impl From<AllocError> for PageFault {
    ghost use Rattle.extent_pages.specs.declared.fault.PageFault.TheVariants as faults;

    ghost from_gives = { λ _ e. e ≡ faults.NoMemory };

    fn from(_e: AllocError) -> PageFault {
        PageFault::NoMemory
    }
}

impl<T: Drop> From<AllocFailed<T>> for PageFault {
    ghost use Rattle.extent_pages.specs.declared.fault.PageFault.TheVariants as faults;

    ghost from_gives = { λ _ e. e ≡ faults.NoMemory };

    fn from(_e: AllocFailed<T>) -> PageFault {
        PageFault::NoMemory
    }
}

// Why a payload couldn't be read: where the first field that fails begins, by how many bytes of the
// payload are left there, and the rule.
#[derive(Debug, Drop)]
pub(crate) enum PartError {
    NoMemory,
    Broken { left: usize, rule: PageRule },
}

impl From<AllocError> for PartError {
    ghost use Rattle.extent_pages.specs.declared.fault.PartError.TheVariants as parts;

    ghost from_gives = { λ _ e. e ≡ parts.NoMemory };

    fn from(_e: AllocError) -> PartError {
        PartError::NoMemory
    }
}

impl<T: Drop> From<AllocFailed<T>> for PartError {
    ghost use Rattle.extent_pages.specs.declared.fault.PartError.TheVariants as parts;

    ghost from_gives = { λ _ e. e ≡ parts.NoMemory };

    fn from(_e: AllocFailed<T>) -> PartError {
        PartError::NoMemory
    }
}

// Why fields couldn't be read that all break one rule of pages.
#[derive(Debug, Drop)]
pub(crate) enum FieldError {
    NoMemory,
    Broken(Flaw),
}

impl From<AllocError> for FieldError {
    ghost use Rattle.extent_pages.specs.declared.fault.FieldError.TheVariants as fields;

    ghost from_gives = { λ _ e. e ≡ fields.NoMemory };

    fn from(_e: AllocError) -> FieldError {
        FieldError::NoMemory
    }
}

impl<T: Drop> From<AllocFailed<T>> for FieldError {
    ghost use Rattle.extent_pages.specs.declared.fault.FieldError.TheVariants as fields;

    ghost from_gives = { λ _ e. e ≡ fields.NoMemory };

    fn from(_e: AllocFailed<T>) -> FieldError {
        FieldError::NoMemory
    }
}

impl From<Flaw> for FieldError {
    ghost use Rattle.extent_pages.specs.declared.fault.FieldError.TheVariants as fields;

    ghost from_gives = { λ flaw e. e ≡ fields.Broken flaw };

    fn from(flaw: Flaw) -> FieldError {
        FieldError::Broken(flaw)
    }
}
