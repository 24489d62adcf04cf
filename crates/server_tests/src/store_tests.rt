// The top call over a store in memory. Sessions run one after another. Expected values are worked
// by hand.
use crate::turns::TurnGate;
use gem_disk::{MemDisk, Pick};
use gem_io::{MemSink, MemSource};
use gem_server::{Ended, Status, gemstone};
use std::alloc::Global;
use std::sync::Wait;
use std::test::Fail;
use std::thread::Threads;

/// What a call over a store leaves.
#[derive(Drop)]
pub(crate) struct Left {
    pub(crate) status: Status,
    pub(crate) written: Vec<u8>,
    pub(crate) disk: MemDisk,
}

/// Does what the words ask for. From this call a caller's proof learns nothing, so it stays short.
pub(crate) fn done<R: Threads + Wait + Sync>(
    rt: &R,
    alloc: Global,
    command: &str,
    script: &[u8],
    disk: MemDisk,
) -> Result<Left, Fail> {
    let mut words = Vec::new(alloc);
    for word in [command, "extent", "log"] {
        words.push(String::from_str(alloc, word)?)?;
    }
    let mut source = MemSource::new(script.to_vec(alloc)?, Vec::new(alloc));
    let mut sink = MemSink::new(Vec::new(alloc));
    let gate = TurnGate::new();
    let ended = gemstone(rt, alloc, &words, &mut source, disk, &gate, &mut sink);
    gate.check(rt)?;
    let Ended { status, disk, .. } = ended;
    Ok(Left {
        status,
        written: sink.written().to_vec(alloc)?,
        disk,
    })
}

/// A disk of two empty files.
pub(crate) fn empty(alloc: Global) -> MemDisk {
    MemDisk::new(Vec::new(alloc), Vec::new(alloc))
}

// A script, what it or another command writes, and how that ends.
#[derive(Clone, Copy)]
struct Day {
    command: &'static str,
    script: &'static str,
    status: Status,
    written: &'static str,
}

const OBJECTS: &str = "session DataCurator\nrun\nGlobals at: #Box put: (Array new: 1).\n\
    Globals at: #Cup put: (Array new: 1).\nGlobals at: #Hits put: RcCounter new.\n\
    Globals at: #Bag put: RcIdentityBag new.\nGlobals at: #Tab put: RcKeyValueDictionary new.\n\
    Globals at: #Line put: RcQueue new\n%\ncommit\n";

const OBJECTS_MADE: &str =
    "session 1 DataCurator\n[0] login view 0\n[1] ok\n[2] committed 1 view 1\n\
    [3] logout\ncommits 1\n1 session 1 transaction 1 view 0\n";

const NEW: &str = "store number 0 objects 35\n";

const FILLED: &str = "store number 1 objects 41\n";

const DAYS: [Day; 8] = [
    Day {
        command: "init",
        script: "",
        status: Status::Done,
        written: NEW,
    },
    Day {
        command: "check",
        script: "",
        status: Status::Done,
        written: NEW,
    },
    Day {
        command: "serve",
        script: OBJECTS,
        status: Status::Done,
        written: OBJECTS_MADE,
    },
    Day {
        command: "check",
        script: "",
        status: Status::Done,
        written: FILLED,
    },
    Day {
        command: "serve",
        script: "session DataCurator\nrun\n3\n",
        status: Status::Script { line: 2, rule: 3 },
        written: "",
    },
    Day {
        command: "serve",
        script: "session DataCurator\ncheckpoint\nprintit\nBox at: 1\n%\n",
        status: Status::Done,
        written: "session 1 DataCurator\n[0] login view 1\n[1] checkpoint 1\n[2] nil\n[3] logout\n\
            commits 0\n",
    },
    Day {
        command: "check",
        script: "",
        status: Status::Done,
        written: FILLED,
    },
    Day {
        command: "serve",
        script: "session DataCurator\nrun\nBox at: 1 put: 5\n%\ncommit\nsession DataCurator\n\
            printit\nBox at: 1\n%\n",
        status: Status::Done,
        written: "session 1 DataCurator\n[0] login view 1\n[1] ok\n[2] committed 2 view 2\n\
            [3] logout\nsession 2 DataCurator\n[0] login view 2\n[1] 5\n[2] logout\ncommits 1\n\
            2 session 1 transaction 1 view 1\n",
    },
];

// The store after a day, where that ended and was told as it should.
fn lived<R: Threads + Wait + Sync>(
    rt: &R,
    alloc: Global,
    day: &Day,
    disk: MemDisk,
) -> Result<Option<MemDisk>, Fail> {
    let Left {
        status,
        written,
        disk,
    } = done(rt, alloc, day.command, day.script.as_bytes(), disk)?;
    if status == day.status && written.as_slice() == day.written.as_bytes() {
        return Ok(Some(disk));
    }
    Ok(None)
}

// The store after these days, one after the other.
fn lived_all<R: Threads + Wait + Sync>(
    rt: &R,
    alloc: Global,
    days: &[Day],
) -> Result<Option<MemDisk>, Fail> {
    let mut store = Some(empty(alloc));
    for day in days {
        store = match store {
            Some(disk) => lived(rt, alloc, day, disk)?,
            None => None,
        };
    }
    Ok(store)
}

#[test]
fn days_of_a_store(rt: HostRuntime) -> Result<(), Fail> {
    assert!(rt; lived_all(&rt, rt.alloc(), &DAYS)?.is_some());
    Ok(())
}

// Looking makes a log of empty files, and then they aren't empty.
#[test]
fn init_after_check(rt: HostRuntime) -> Result<(), Fail> {
    let alloc = rt.alloc();
    let looked = done(&rt, alloc, "check", b"", empty(alloc))?;
    assert_eq!(rt; looked.status, Status::Done);
    assert_eq!(rt; looked.written.as_slice(), NEW.as_bytes());
    let made = done(&rt, alloc, "init", b"", looked.disk)?;
    assert_eq!(rt; made.status, Status::NotEmpty { extent: 0, log: 1 });
    assert!(rt; made.written.is_empty());
    Ok(())
}

const COUNTED: &[u8] = b"session DataCurator\nrun\nGlobals at: #N put: 1\n%\ncommit\nrun\n\
    Globals at: #N put: 2\n%\ncommit\ncheckpoint\nrun\nGlobals at: #N put: 3\n%\ncommit\n";

// How often a report acknowledges a commit.
fn acknowledged(report: &[u8]) -> usize {
    report
        .windows(10)
        .filter(|piece| *piece == b"committed ".as_slice())
        .count()
}

// Whether a store holds so many commits.
fn holds<R: Threads + Wait + Sync>(
    rt: &R,
    alloc: Global,
    disk: MemDisk,
    pick: Pick,
    commits: usize,
) -> Result<bool, Fail> {
    let images = disk.crash(pick)?;
    let again = MemDisk::new(images.extent, images.log);
    let left = done(rt, alloc, "check", b"", again)?;
    let same = format!(in alloc; "store number {commits} objects 35\n")?;
    let more = commits.saturating_add(1);
    let next = format!(in alloc; "store number {more} objects 35\n")?;
    let written = left.written.as_slice();
    Ok(written == same.as_bytes() || written == next.as_bytes())
}

// The disk stops behind so many calls; what a crash leaves has each acknowledged commit, and at
// most the one in flight besides.
fn survives<R: Threads + Wait + Sync>(
    rt: &R,
    alloc: Global,
    calls: u64,
    pick: Pick,
) -> Result<bool, Fail> {
    let mut made = done(rt, alloc, "init", b"", empty(alloc))?;
    made.disk.stop_after(calls);
    let left = done(rt, alloc, "serve", COUNTED, made.disk)?;
    let commits = acknowledged(&left.written);
    holds(rt, alloc, left.disk, pick, commits)
}

#[test]
fn stopped_behind_each_call(rt: HostRuntime) -> Result<(), Fail> {
    let alloc = rt.alloc();
    for calls in 0..60 {
        for pick in [Pick::Old, Pick::New, Pick::Torn(7)] {
            assert!(rt; survives(&rt, alloc, calls, pick)?, "{calls}");
        }
    }
    Ok(())
}
