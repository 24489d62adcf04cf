//! The updates of a queue, and why one is refused.
ghost use Rattle.std.specs.Prelude.{◌≡◌, Some};
ghost use Rattle.rc_queue.specs.Fault.{fault_text};
ghost use Rattle.rc_queue.specs.declared.update.QueueFault.TheVariants.{NoMemory};

use std::alloc::{AllocError, AllocFailed};
use std::error::Error;
use std::fmt;

/// One change of a queue.
#[derive(Debug, Drop)]
pub enum QueueUpdate<T> {
    /// The item goes to the back.
    Add(T),
    /// The front goes, which must be this item: the one that the removal handed out.
    Remove(T),
}

/// Why a queue refused an update or a merge.
#[derive(Clone, Copy, Debug, PartialEq, Eq)]
pub enum QueueFault {
    /// The removal at this index of the updates doesn't apply.
    Remove(u64),
    /// Memory ran out.
    NoMemory,
}

impl fmt::Display for QueueFault {
    ghost output = { λ fault. Some (fault_text fault) };

    fn fmt<W: fmt::Write>(&self, f: &mut fmt::Formatter<W>) -> fmt::Result {
        match *self {
            QueueFault::Remove(at) => {
                write!(f, "the removal at index {at} meets another front or none")
            }
            QueueFault::NoMemory => f.write_str("out of memory"),
        }
    }
}

impl Error for QueueFault {}

impl From<AllocError> for QueueFault {
    ghost from_gives = { λ _ fault. fault ≡ NoMemory };

    fn from(_: AllocError) -> QueueFault {
        QueueFault::NoMemory
    }
}

impl<T: Drop> From<AllocFailed<T>> for QueueFault {
    ghost from_gives = { λ _ fault. fault ≡ NoMemory };

    fn from(_: AllocFailed<T>) -> QueueFault {
        QueueFault::NoMemory
    }
}
