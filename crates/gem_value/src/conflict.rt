//! Why a commit was refused.
ghost use Rattle.std.specs.Prelude.{◌≡◌};
ghost use Rattle.gem_value.specs.Conflict.{kind_number};

use crate::oid::Oid;
use crate::sequence::Sequence;

/// What stands against a commit at one object. The order of kinds is that of their numbers, from 1
/// to 8, which a report prints after a `C`.
#[derive(Clone, Copy, Debug, PartialEq, Eq, PartialOrd, Ord, Hash)]
pub enum ConflictKind {
    /// C1: a written object has changed since the view.
    WriteWrite = 1,
    /// C2: an object that was touched and not written has changed since the view.
    ReadWrite = 2,
    /// C3: another session holds a read lock on a written or updated object.
    WriteReadLock = 3,
    /// C4: another session holds a write lock on a written or updated object.
    WriteWriteLock = 4,
    /// C5: the merge of a counter would leave its range.
    CounterRange = 5,
    /// C6: the merge of a bag lacks an item to remove.
    BagRemove = 6,
    /// C7: the merge of a dictionary meets a key that was changed.
    DictionaryKey = 7,
    /// C8: the merge of a queue lacks an item to remove.
    QueueRemove = 8,
}

impl ConflictKind {
    /// The number, from 1 to 8.
    pub fn number(self) -> u8
        ensures { result ≡ kind_number self }
    {
        self as u8
    }
}

/// One reason why a commit was refused. Conflicts are ordered by the object, then by the kind, and
/// then by what is shown.
#[derive(Clone, Copy, Debug, PartialEq, Eq, PartialOrd, Ord, Hash)]
pub struct Conflict {
    /// The object at which the commit was refused.
    pub oid: Oid,
    /// What stands against it.
    pub kind: ConflictKind,
    /// What is shown with it: for a lock the session that holds it, and else the number of the
    /// commit that last changed the object.
    pub shown: u64,
}

/// All that stands against a commit, in order. A contract sees the list.
pub type Conflicts = Sequence<Conflict>;
