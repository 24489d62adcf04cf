//! What sessions reply, and the book that a run leaves.
use gem_object::{Conflicts, Oid, Sequence, Text};
use gem_record::Entry;
use lock_table::LockKind;

/// A reply to a command. Its line in the report stands beside it.
#[derive(Debug, Drop)]
pub enum Line {
    /// `no user at view V`: the image with this number knows no such user, and nobody is logged in.
    NoUser(u64),
    /// `not logged in`: the command isn't done, since nobody is logged in.
    NotLoggedIn,
    /// `login view V`: the session begins, at the view with this number.
    Login(u64),
    /// `no memory`: it could not be done for want of memory.
    NoMemory,
    /// `parse PR at A`: the chunk or method breaks this rule of the grammar, at this place in bytes
    /// from 0.
    Parse {
        at: u32,
        rule: u8,
    },
    /// `show T`: what the chunk or method wrote to the transcript, where that isn't empty. The
    /// reply that says how it ended comes next, with the same number.
    Show(Text),
    /// `error EK TEXT`: the chunk or method ended with an error of this kind, from 1 to 20.
    Error {
        kind: u8,
        detail: Text,
    },
    /// `ok`: the chunk ran.
    Ran,
    /// The text of the chunk's value.
    Printed(Text),
    /// `method SELECTOR`: the class has the method now.
    Method(Text),
    /// `spoiled`: nothing is committed, since a chunk or method of the transaction was short of
    /// memory.
    Spoiled,
    /// `committed unchanged at N view V`: nothing had been written. It counts after commit `at`,
    /// and the view `view` begins.
    Unchanged {
        at: u64,
        view: u64,
    },
    /// `refused K`, and a line for each of the K conflicts.
    Refused(Conflicts),
    /// `log full at LENGTH by SIZE`: the log has so many bytes, and the commit's record as many as
    /// SIZE, which is too much.
    LogFull {
        length: u64,
        size: u64,
    },
    /// `disk fault`: the disk failed, so nothing more is committed. Whether the commit or the
    /// checkpoint is on the disk isn't known.
    DiskFault,
    /// `halted at N`: the disk had failed when it was to store number N.
    Halted(u64),
    /// `committed N view V`: it is commit `number`, and the view `view` begins.
    Committed {
        number: u64,
        view: u64,
    },
    /// `aborted view V`: the view with this number begins.
    Aborted(u64),
    /// `logout`: the session ends.
    Logout,
    /// `no name NAME`: no global has the name that the command gives, or the user may not read a
    /// dictionary in which it is looked up.
    NoName(Text),
    /// `not an object NAME`: the global with this name doesn't refer to an object.
    NotObject(Text),
    /// `not committed OID`: the transaction made the object, so it can't be locked yet.
    NotCommitted(Oid),
    /// `no right OID`: the user lacks the right on the object that the lock needs.
    NoRight(Oid),
    /// `denied KIND OID by session S KIND`: a lock of the first kind was asked for, and the session
    /// `holder` is in the way, which holds the object in the kind `held`.
    Denied {
        kind: LockKind,
        oid: Oid,
        holder: u32,
        held: LockKind,
    },
    /// `locked KIND OID clean`, or `dirty` where `clean` is false: the session holds the object in
    /// this kind now. It is clean where no commit has changed the object since the view.
    Locked {
        kind: LockKind,
        oid: Oid,
        clean: bool,
    },
    /// `not held OID`: the session holds no lock on the object.
    NotHeld(Oid),
    /// `unlocked OID`: the session's lock on the object is gone.
    Unlocked(Oid),
    /// `checkpoint N`: the image with this number is stored, and the log begins anew.
    Checkpoint(u64),
    /// `extent full at PAGES`: the checkpoint would take so many pages, which is too many.
    ExtentFull(u64),
    /// `mode full_checks`, or `mode no_rw_checks` where `full` is false: the session's transactions
    /// are so checked from now on.
    Mode {
        full: bool,
    },
}

/// A reply with the number of its command within the session. Login is 0. Replies to one command
/// have one number.
#[derive(Debug, Drop)]
pub struct Reply {
    pub command: u32,
    pub line: Line,
}

/// The replies of a session, in order. A contract sees the list.
pub type Replies = Sequence<Reply>;

/// What one session replied.
#[derive(Debug, Drop)]
pub struct Transcript {
    /// The session's number, from 1.
    pub session: u32,
    pub user: Text,
    pub replies: Replies,
}

/// The transcripts of a run, in the order of the script. A contract sees the list.
pub type Transcripts = Sequence<Transcript>;

/// What was committed, in order. A contract sees the list.
pub type History = Sequence<Entry>;

/// What a run leaves: what its sessions replied, and what was committed.
#[derive(Debug, Drop)]
pub struct RunBook {
    /// The number of commits before the run.
    pub first: u64,
    /// The serial of the first session. The sessions have the serials from it on, in the order of
    /// the script.
    pub base: u32,
    pub transcripts: Transcripts,
    pub history: History,
}
