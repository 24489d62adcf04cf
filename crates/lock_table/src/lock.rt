//! A lock, and what a request for one is answered.

/// How a session holds an object. The order is that of the variants.
#[derive(Clone, Copy, Debug, PartialEq, Eq, PartialOrd, Ord, Hash)]
pub enum LockKind {
    /// Beside others that read.
    Read,
    /// Alone.
    Write,
}

/// A session's hold on an object. The order is by object, and then by session.
#[derive(Clone, Copy, Debug, PartialEq, Eq, PartialOrd, Ord, Hash)]
pub struct Holding {
    /// The object's number.
    pub oid: u64,
    /// The session's number.
    pub session: u32,
}

/// What a request was answered.
#[derive(Clone, Copy, Debug, PartialEq, Eq)]
pub enum Asked {
    /// The session holds the object now, in this kind.
    Granted(LockKind),
    /// Another session is in the way: the lowest such session, and how it holds the object.
    Denied { holder: u32, kind: LockKind },
    /// There was no memory for a new lock.
    NoMemory,
}
