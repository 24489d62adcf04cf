// What sessions are replied to beside another one that holds a lock, and where the disk fails.
use crate::halts::HALTS;
use crate::keepers::{opened, reported};
use gem_io::OpenGate;
use gem_keeper::{FailingKeeper, MemKeeper};
use gem_object::Oid;
use gem_replies::{History, RunBook, Transcript, Transcripts, report_text};
use gem_session::run_session;
use lock_table::LockKind;
use shell_words::{Script, read_script};
use std::alloc::{AllocError, Global};
use std::marker::Brand;
use std::sync::ledger::Blank;
use std::sync::{Arc, Wait};
use std::test::Fail;

/// The first session is run, and the second one holds a lock meanwhile.
const SCRIPT: &str = "\
session DataCurator
lock write Globals
lock read Globals
unlock Globals
run
Globals at: #T put: 3. UserGlobals at: #K put: 4
%
commit
printit
T + K
%
commit
abort
printit
T
%
run
UserGlobals at: #K put: 5
%
commit
session DataCurator
";

/// Where the other one holds Globals for reading.
const BESIDE_READ_LOCK: &str = "\
session 1 DataCurator
[0] login view 0
[1] denied write 0:27 by session 2 read
[2] locked read 0:27 clean
[3] unlocked 0:27
[4] ok
[5] refused 1
C3 object 0:27 session 2
[6] 7
[7] refused 1
C3 object 0:27 session 2
[8] aborted view 0
[9] error E2 undefined variable: T
[10] ok
[11] committed 1 view 1
[12] logout
commits 0
";

/// Where it holds Globals for writing.
const BESIDE_WRITE_LOCK: &str = "\
session 1 DataCurator
[0] login view 0
[1] denied write 0:27 by session 2 write
[2] denied read 0:27 by session 2 write
[3] not held 0:27
[4] ok
[5] refused 1
C4 object 0:27 session 2
[6] 7
[7] refused 1
C4 object 0:27 session 2
[8] aborted view 0
[9] error E2 undefined variable: T
[10] ok
[11] committed 1 view 1
[12] logout
commits 0
";

// What the first session of a script is replied to, while the second one, if there is one, holds
// Globals in this kind.
fn beside_lock<R: Wait>(
    rt: &R,
    alloc: Global,
    script: Script,
    kind: LockKind,
) -> Result<Option<Transcript>, AllocError> {
    let script = Arc::new(alloc, script)?;
    let sessions = script.sessions();
    let keeper = MemKeeper::new();
    let mut stone = opened::<MemKeeper, Brand>(alloc, script.clone()?, keeper, Blank::new(1))?;
    if sessions.len() < 2 {
        return Ok(None);
    }
    stone.lock(2, Oid::from_parts(0, 27), kind);
    let first = run_session(rt, alloc, &mut stone, &OpenGate, 1, 1, &sessions[0])?;
    Ok(Some(first))
}

// The report of one transcript alone, or nothing where there is none.
fn told(alloc: Global, transcript: Option<Transcript>) -> Result<Vec<u8>, AllocError> {
    let mut transcripts = Vec::new(alloc);
    if let Some(transcript) = transcript {
        transcripts.push(transcript)?;
    }
    let book = RunBook {
        first: 0,
        base: 1,
        transcripts: Transcripts::of(transcripts),
        history: History::of(Vec::new(alloc)),
    };
    report_text(alloc, &book)
}

// Whether this is the report of the first session beside a lock of this kind.
fn is_told<R: Wait>(rt: &R, alloc: Global, kind: LockKind, report: &str) -> Result<bool, Fail> {
    let Ok(script) = read_script(alloc, SCRIPT.as_bytes()) else {
        return Err(Fail::new("it is no script"));
    };
    let told = told(alloc, beside_lock(rt, alloc, script, kind)?)?;
    Ok(told.as_slice() == report.as_bytes())
}

#[test]
fn replies_beside_a_lock(rt: HostRuntime) -> Result<(), Fail> {
    let alloc = rt.alloc();
    assert!(rt; is_told(&rt, alloc, LockKind::Read, BESIDE_READ_LOCK)?);
    assert!(rt; is_told(&rt, alloc, LockKind::Write, BESIDE_WRITE_LOCK)?);
    Ok(())
}

// After a failure of the disk nothing more is committed or stored, and the rest goes on.
#[test]
fn replies_of_a_failing_disk(rt: HostRuntime) -> Result<(), Fail> {
    let alloc = rt.alloc();
    for (calls, script, report) in HALTS {
        let told = reported(&rt, alloc, script, FailingKeeper::after(calls))?;
        assert!(rt; told.as_slice() == report.as_bytes(), "{script}");
    }
    Ok(())
}
