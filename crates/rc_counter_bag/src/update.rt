//! The updates of a bag, and why one is refused.
ghost use Rattle.std.specs.Prelude.{◌≡◌, Some};
ghost use Rattle.rc_counter_bag.specs.Fault.{fault_text};
ghost use Rattle.rc_counter_bag.specs.declared.update.BagFault.TheVariants.{NoMemory};

use std::alloc::{AllocError, AllocFailed};
use std::error::Error;
use std::fmt;

/// One change of a bag.
#[derive(Debug, Drop)]
pub enum BagUpdate<T> {
    /// The item occurs once more.
    Add(T),
    /// The item occurs once less.
    Remove(T),
}

/// Why a bag refused an update or a merge.
#[derive(Clone, Copy, Debug, PartialEq, Eq)]
pub enum BagFault {
    /// The removal at this index of the updates finds no occurrence.
    Missing(u64),
    /// Memory ran out.
    NoMemory,
}

impl fmt::Display for BagFault {
    ghost output = { λ fault. Some (fault_text fault) };

    fn fmt<W: fmt::Write>(&self, f: &mut fmt::Formatter<W>) -> fmt::Result {
        match *self {
            BagFault::Missing(at) => write!(f, "the removal at index {at} finds no occurrence"),
            BagFault::NoMemory => f.write_str("out of memory"),
        }
    }
}

impl Error for BagFault {}

impl From<AllocError> for BagFault {
    ghost from_gives = { λ _ fault. fault ≡ NoMemory };

    fn from(_: AllocError) -> BagFault {
        BagFault::NoMemory
    }
}

impl<T: Drop> From<AllocFailed<T>> for BagFault {
    ghost from_gives = { λ _ fault. fault ≡ NoMemory };

    fn from(_: AllocFailed<T>) -> BagFault {
        BagFault::NoMemory
    }
}
