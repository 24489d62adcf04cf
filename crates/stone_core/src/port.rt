//! What sessions may ask of a Stone.
ghost use Rattle.std.specs.Prelude.{◌≡◌, true, IfOk, IfErr, IsSome};
ghost use Rattle.std.specs.FinMap.{get};
ghost use Rattle.gem_meaning.specs.Events.{OthersCame, standing};
ghost use Rattle.gem_meaning.specs.Serial.{IsRecorded};
ghost use Rattle.stone_core.specs.Port.{PortState, BeginSays, CommitSays, LockSays, UnlockSays, CheckSays, LogoutSays, GoesOn};

use gem_image::Image;
use gem_object::{Conflicts, Oid};
use gem_record::TxnRecord;
use lock_table::LockKind;
use std::alloc::{AllocError, Global};

/// What a transaction begins with: the image of a moment, and the number of commits in it.
#[derive(Drop)]
pub struct Begun {
    /// The image.
    pub image: Image,
    /// The number of commits in it.
    pub number: u64,
}

/// How a commit ended.
#[derive(Debug, Drop)]
pub enum CommitAnswer {
    /// The disk had failed when this number was to be stored, and nothing has changed.
    Halted(u64),
    /// Nothing was written or updated. The number is that of the transaction's view.
    ReadOnly(u64),
    /// The commit was refused, for these conflicts, and nothing has changed.
    Conflicts(Conflicts),
    /// The log has no room for the commit's record, and nothing has changed.
    LogFull {
        /// The log's length.
        length: u64,
        /// The record's size.
        size: u64,
    },
    /// The disk failed. Whether the commit is on it isn't known, and nothing later is accepted.
    DiskFault,
    /// The commit was placed, and this is its number.
    Placed(u64),
    /// Memory ran out, or a merge made what can't be stored, and nothing has changed.
    NoMemory,
}

/// How the request for a lock ended.
#[derive(Clone, Copy, Debug, PartialEq, Eq)]
pub enum LockAnswer {
    /// The session holds the object now.
    Granted {
        /// The kind in which it holds it.
        kind: LockKind,
        /// The number of the commit that last changed the object, or 0.
        changed: u64,
    },
    /// The lock of another session is in the way, and nothing has changed.
    Denied {
        /// The number of this session.
        holder: u32,
        /// The kind of its lock.
        kind: LockKind,
    },
    /// Memory ran out, and nothing has changed.
    NoMemory,
}

/// How a checkpoint ended.
#[derive(Clone, Copy, Debug, PartialEq, Eq)]
pub enum CheckAnswer {
    /// The disk had failed when this number was to be stored, and nothing has changed.
    Halted(u64),
    /// The checkpoint would count so many pages, which are too many, and nothing has changed.
    Full(u64),
    /// The disk failed, and nothing later is accepted.
    DiskFault,
    /// The image with this number is stored, and the log is empty.
    Made(u64),
    /// Memory ran out, and nothing has changed.
    NoMemory,
}

/// What sessions may ask of a Stone that they may share with others. Each call says what it answers
/// by the events that the port has seen: events of other sessions may have come first, and then the
/// call's own one.
pub trait StonePort {
    /// The port as contracts see it.
    ghost state: { Self → PortState };

    /// The image and the number of this moment. The image is sound, and the session's further names
    /// are free in it.
    ///
    /// # Errors
    ///
    /// `AllocError` where memory ran out. The session has no event then either.
    fn begin(&mut self, session: u32) -> Result<Begun, AllocError>
        requires serves { (state self.old).serves session ≡ true }
        ensures begun { IfOk result (λ begun.
            BeginSays (state self.old).told.opened session (state self.old).told.events
            (state self.new).told.events begun.image begun.number) }
        ensures starved { IfErr result (λ _.
            OthersCame session (state self.old).told.events (state self.new).told.events) }
        ensures port { GoesOn session (state self.old) (state self.new) };

    /// Commits what a transaction did. The record has to be what running its commands gives where
    /// all stands as at its view.
    ///
    /// Where the disk had failed that is answered. Otherwise it is read only exactly where nothing
    /// was written or updated, else refused exactly where there are conflicts, else `LogFull`
    /// exactly where the log has no room for its record, and else placed, with the next number,
    /// unless the disk fails. Only where it is placed or the disk fails something has changed.
    fn commit(&mut self, alloc: Global, done: &TxnRecord) -> CommitAnswer
        requires serves { (state self.old).serves done.now.session ≡ true }
        requires recorded { IsRecorded (state self.old).told done.now }
        ensures says { CommitSays (state self.old).told.opened (state self.old).told.events
            (state self.new).told.events done.now result }
        ensures port { GoesOn done.now.session (state self.old) (state self.new) };

    /// Locks an object for the session, which has to be there. A session that asks again keeps the
    /// greater kind.
    fn lock(&mut self, session: u32, oid: Oid, kind: LockKind) -> LockAnswer
        requires serves { (state self.old).serves session ≡ true }
        requires there { IsSome (get (standing (state self.old).told).image oid) }
        ensures says { LockSays (state self.old).told.opened (state self.old).told.events
            (state self.new).told.events session oid kind result }
        ensures port { GoesOn session (state self.old) (state self.new) };

    /// Gives the session's lock on an object back; whether it held one. It takes no memory.
    fn unlock(&mut self, session: u32, oid: Oid) -> bool
        requires serves { (state self.old).serves session ≡ true }
        ensures says { UnlockSays (state self.old).told.opened (state self.old).told.events
            (state self.new).told.events session oid result }
        ensures port { GoesOn session (state self.old) (state self.new) };

    /// Stores the image that stands, and empties the log. Where the disk had failed that is
    /// answered. Otherwise it is `Full` exactly where it would count too many pages, and else made,
    /// unless the disk fails.
    fn checkpoint(&mut self, alloc: Global, session: u32) -> CheckAnswer
        requires serves { (state self.old).serves session ≡ true }
        ensures says { CheckSays (state self.old).told.opened (state self.old).told.events
            (state self.new).told.events session result }
        ensures port { GoesOn session (state self.old) (state self.new) };

    /// Ends the session: all its locks are gone. It takes no memory.
    fn logout(&mut self, session: u32)
        requires serves { (state self.old).serves session ≡ true }
        ensures says { LogoutSays (state self.old).told.opened (state self.old).told.events
            (state self.new).told.events session }
        ensures port { GoesOn session (state self.old) (state self.new) };
}
