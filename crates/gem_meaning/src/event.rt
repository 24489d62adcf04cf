//! What happens to the Stone.
use gem_object::Oid;
use gem_record::Entry;
use lock_table::LockKind;

/// What happened to the Stone. Each event has the number of the session that made it beside it.
#[derive(Clone, Copy, Debug, PartialEq, Eq)]
pub enum What {
    /// The session's commit was placed: the image has one commit more, and this is its entry in the
    /// history.
    Placed(Entry),
    /// The session was granted a lock on the object. The kind is the one in which it then holds it.
    Held(Oid, LockKind),
    /// The session gave its lock on the object back.
    Dropped(Oid),
    /// The session ended, and all its locks are gone.
    Left,
    /// The session's checkpoint was made: the image is stored, and the log begins anew.
    Checked,
    /// The disk failed while it was to store the image or the commit with this number, for the
    /// session's checkpoint or for its commit, which has this entry. Nothing more is stored, and
    /// whether this is on the disk isn't known.
    Halted(u64, Option<Entry>),
}
