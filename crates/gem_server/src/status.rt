//! How a call of the server ends.
ghost use Rattle.std.specs.Prelude.{◌≡◌};
ghost use Rattle.gem_server.specs.Server.{IsBlank, IsBlankOver, status_of};
ghost use Rattle.gem_server.specs.Serving.{status_of_store};

use gem_meaning::What;
use gem_object::Sequence;
use gem_replies::RunBook;
use shell_words::ScriptFault;
use std::alloc::Global;
use stone_store::{StoreFault, StoreFlaw};

/// How a call of the server ended.
#[derive(Clone, Copy, Debug, PartialEq, Eq)]
pub enum Status {
    /// What was asked for was done, and all that tells of it was written.
    Done,
    /// The words are none that the program knows.
    Usage,
    /// The script breaks a rule of its form, first at this line. Line 0 is the script as a whole.
    /// The rule is printed with an `S` before it.
    Script { line: u32, rule: u8 },
    /// The two files are no store.
    NotStore(StoreFlaw),
    /// The serials from the base on don't suffice for so many sessions, or the image has more than
    /// 2^62 commits.
    SerialsUsed { base: u32, sessions: u32 },
    /// A store was to be made, and one of the files isn't empty: the lengths of both, in bytes.
    NotEmpty { extent: u64, log: u64 },
    /// The source failed.
    ReadFault,
    /// The disk failed.
    DiskFault,
    /// The sink failed. What was written is a part from the front.
    WriteFault,
    /// There was no memory.
    NoMemory,
}

impl Status {
    // The status that tells why a text is no script, or that memory ran out.
    pub(crate) fn of_script(fault: ScriptFault) -> Status
        ensures { result ≡ status_of fault }
    {
        match fault {
            ScriptFault::Rule { line, rule } => Status::Script {
                line,
                rule: rule.number(),
            },
            ScriptFault::NoMemory => Status::NoMemory,
        }
    }

    // The status that tells why a store can't be opened.
    pub(crate) fn of_store(fault: StoreFault) -> Status
        ensures { result ≡ status_of_store fault }
    {
        match fault {
            StoreFault::NotStore(flaw) => Status::NotStore(flaw),
            StoreFault::Disk => Status::DiskFault,
            StoreFault::NoMemory => Status::NoMemory,
        }
    }
}

/// The events of a run, each with the number of the session that made it. A contract sees the list.
pub type Events = Sequence<(u32, What)>;

/// What serving a script's text gives.
#[derive(Debug, Drop)]
pub struct Served {
    /// The report.
    pub report: Vec<u8>,
    /// What the sessions replied, and what was committed.
    pub book: RunBook,
    /// What happened to the Stone, in order.
    pub events: Events,
}

/// What a call of the server leaves.
#[derive(Debug, Drop)]
pub struct Ended<D: Drop> {
    /// How it ended.
    pub status: Status,
    /// What the sessions replied, and what was committed. It is blank where no sessions ran, but
    /// for the number and the base of a store that was opened and has no room for them. Where memory
    /// ran out when they had run over a store, it has the commits and no replies.
    pub book: RunBook,
    /// What happened to the Stone, in order. Blank where no sessions ran.
    pub events: Events,
    /// The disk that was handed in.
    pub disk: D,
}

impl<D: Drop> Ended<D> {
    // An end with nothing to tell of a run.
    pub(crate) fn blank(alloc: Global, status: Status, disk: D) -> Ended<D>
        ensures status { result.status ≡ status }
        ensures blank { IsBlank result.events result.book }
        ensures disk { result.disk ≡ disk }
    {
        Ended::blank_over(alloc, status, 0, 0, disk)
    }

    // The same over a store that was opened, with the number of commits in its image and the serial
    // from which those of sessions go on there.
    pub(crate) fn blank_over(
        alloc: Global,
        status: Status,
        first: u64,
        base: u32,
        disk: D,
    ) -> Ended<D>
        ensures status { result.status ≡ status }
        ensures blank { IsBlankOver first base result.events result.book }
        ensures disk { result.disk ≡ disk }
    {
        Ended {
            status,
            book: RunBook {
                first,
                base,
                transcripts: Sequence::of(Vec::new(alloc)),
                history: Sequence::of(Vec::new(alloc)),
            },
            events: Sequence::of(Vec::new(alloc)),
            disk,
        }
    }
}
