//! What the words of a command line ask for.

/// How many rounds each session of a demo has where the words don't say.
pub const DEFAULT_ROUNDS: u32 = 4;

/// The names of the two files of a store.
#[derive(Clone, Copy, Debug)]
pub struct Paths<'a> {
    /// The file of the extent.
    pub extent: &'a str,
    /// The file of the log.
    pub log: &'a str,
}

/// What the words of a command line ask for.
#[derive(Clone, Copy, Debug)]
pub enum Words<'a> {
    /// To serve a script, over a store where one is named.
    Serve(Option<Paths<'a>>),
    /// To make a store.
    Init(Paths<'a>),
    /// To look at a store.
    Check(Paths<'a>),
    /// To serve a generated load of so many sessions with so many rounds each.
    Demo {
        seed: u32,
        sessions: u32,
        rounds: u32,
    },
}

/// The words ask for nothing.
#[derive(Clone, Copy, Debug, PartialEq, Eq)]
pub struct Usage;
