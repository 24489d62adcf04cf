//! The updates of a dictionary, and why one is refused.
ghost use Rattle.std.specs.Prelude.{◌≡◌, Some};
ghost use Rattle.rc_dict.specs.Dict.{key_of};
ghost use Rattle.rc_dict.specs.Fault.{fault_text};
ghost use Rattle.rc_dict.specs.declared.update.DictFault.TheVariants.{NoMemory};

use std::alloc::{AllocError, AllocFailed};
use std::error::Error;
use std::fmt;

/// One change of a dictionary.
#[derive(Debug, Drop)]
pub enum DictUpdate<K, T> {
    /// The key has this value.
    Put(K, T),
    /// The key has no value.
    Remove(K),
}

impl<K, T> DictUpdate<K, T> {
    /// The key that the update changes.
    pub fn key(&self) -> &K
        ensures { result.now ≡ key_of self.now }
    {
        match self {
            DictUpdate::Put(key, _) => key,
            DictUpdate::Remove(key) => key,
        }
    }
}

/// Why a dictionary refused an update or a merge.
#[derive(Clone, Copy, Debug, PartialEq, Eq)]
pub enum DictFault {
    /// The update at this index doesn't apply: its key was changed since the view, or, where one
    /// update is applied, it removes a key that has no value.
    Key(u64),
    /// Memory ran out.
    NoMemory,
}

impl fmt::Display for DictFault {
    ghost output = { λ fault. Some (fault_text fault) };

    fn fmt<W: fmt::Write>(&self, f: &mut fmt::Formatter<W>) -> fmt::Result {
        match *self {
            DictFault::Key(at) => {
                write!(
                    f,
                    "the key of the update at index {at} was changed or has no value"
                )
            }
            DictFault::NoMemory => f.write_str("out of memory"),
        }
    }
}

impl Error for DictFault {}

impl From<AllocError> for DictFault {
    ghost from_gives = { λ _ fault. fault ≡ NoMemory };

    fn from(_: AllocError) -> DictFault {
        DictFault::NoMemory
    }
}

impl<T: Drop> From<AllocFailed<T>> for DictFault {
    ghost from_gives = { λ _ fault. fault ≡ NoMemory };

    fn from(_: AllocFailed<T>) -> DictFault {
        DictFault::NoMemory
    }
}
