ghost use Rattle.std.specs.Prelude.{◌≡◌, IfOk};

use gem_object::{Conflict, ConflictKind, Conflicts, Oid, Text};
use gem_record::{Entry, Mode};
use gem_replies::{History, Line, Replies, Reply, RunBook, Transcript, Transcripts, report_text};
use lock_table::LockKind;
use std::alloc::{AllocError, Global};
use std::test::Fail;

fn text(alloc: Global, bytes: &[u8]) -> Result<Text, AllocError>
    ensures { IfOk result (λ text. text ≡ bytes.now) }
{
    Ok(Text::of(Vec::from_slice(alloc, bytes)?))
}

fn reply(command: u32, line: Line) -> Reply {
    Reply { command, line }
}

// The replies to the first four commands.
type Four = (Line, Line, Line, Line);

fn numbered(alloc: Global, lines: Four) -> Result<Replies, AllocError> {
    let (first, second, third, fourth) = lines;
    Ok(Replies::of(vec![in alloc;
        reply(0, first),
        reply(1, second),
        reply(2, third),
        reply(3, fourth),
    ]?))
}

fn transcript(alloc: Global, session: u32, lines: Four) -> Result<Transcript, AllocError> {
    Ok(Transcript {
        session,
        user: text(alloc, b"DataCurator")?,
        replies: numbered(alloc, lines)?,
    })
}

fn entry(session: u32, transaction: u32, view: u64) -> Entry {
    Entry {
        session,
        transaction,
        user: Oid::from_parts(1, 1),
        first_command: 1,
        last_command: 2,
        first_name: 1,
        view,
        mode: Mode::Full,
    }
}

// The same of a transaction in whose commit what it only read wasn't checked.
fn unchecked(session: u32, transaction: u32, view: u64) -> Entry {
    Entry {
        mode: Mode::NoRw,
        ..entry(session, transaction, view)
    }
}

// A session that writes, and one that reads what was written.
fn writer(alloc: Global) -> Result<Transcript, AllocError> {
    let lines = (
        Line::Login(0),
        Line::Ran,
        Line::Committed { number: 1, view: 1 },
        Line::Logout,
    );
    transcript(alloc, 1, lines)
}

fn reader(alloc: Global) -> Result<Transcript, AllocError> {
    let printed = Line::Printed(text(alloc, b"25")?);
    let unchanged = Line::Unchanged { at: 1, view: 1 };
    transcript(alloc, 2, (Line::Login(1), printed, unchanged, Line::Logout))
}

fn report_of_both(alloc: Global) -> Result<Vec<u8>, AllocError> {
    let transcripts = vec![in alloc; writer(alloc)?, reader(alloc)?]?;
    let book = RunBook {
        first: 0,
        base: 1,
        transcripts: Transcripts::of(transcripts),
        history: History::of(vec![in alloc; entry(1, 1, 0)]?),
    };
    report_text(alloc, &book)
}

#[test]
fn two_sessions(rt: HostRuntime) -> Result<(), Fail> {
    let wanted =
        b"session 1 DataCurator\n[0] login view 0\n[1] ok\n[2] committed 1 view 1\n[3] logout\n\
        session 2 DataCurator\n[0] login view 1\n[1] 25\n[2] committed unchanged at 1 view 1\n\
        [3] logout\ncommits 1\n1 session 1 transaction 1 view 0\n";
    assert!(rt; report_of_both(rt.alloc())?.as_slice() == wanted.as_slice());
    Ok(())
}

fn report_of_lines(alloc: Global, lines: Four) -> Result<Vec<u8>, AllocError> {
    let book = RunBook {
        first: 0,
        base: 1,
        transcripts: Transcripts::of(vec![in alloc; transcript(alloc, 1, lines)?]?),
        history: History::of(Vec::new(alloc)),
    };
    report_text(alloc, &book)
}

#[test]
fn refusals(rt: HostRuntime) -> Result<(), Fail> {
    let alloc = rt.alloc();
    let conflicts = vec![in alloc;
        Conflict {
            oid: Oid::from_parts(0, 5),
            kind: ConflictKind::WriteWrite,
            shown: 7
        },
        Conflict {
            oid: Oid::from_parts(1, 2),
            kind: ConflictKind::WriteReadLock,
            shown: 3
        },
        Conflict {
            oid: Oid::from_parts(1, 2),
            kind: ConflictKind::WriteWriteLock,
            shown: 4
        },
        Conflict {
            oid: Oid::from_parts(16, 3),
            kind: ConflictKind::QueueRemove,
            shown: 18_446_744_073_709_551_615
        },
    ]?;
    let lines = (
        Line::Refused(Conflicts::of(conflicts)),
        Line::Refused(Conflicts::of(Vec::new(alloc))),
        Line::Spoiled,
        Line::Aborted(9),
    );
    let wanted =
        b"session 1 DataCurator\n[0] refused 4\nC1 object 0:5 commit 7\nC3 object 1:2 session 3\n\
        C4 object 1:2 session 4\nC8 object 16:3 commit 18446744073709551615\n[1] refused 0\n\
        [2] spoiled\n[3] aborted view 9\ncommits 0\n";
    assert!(rt; report_of_lines(alloc, lines)?.as_slice() == wanted.as_slice());
    Ok(())
}

// The report of a run of one session with this reply alone, to its fifth command.
fn report_of_line(alloc: Global, line: Line) -> Result<Vec<u8>, AllocError> {
    let replies = Replies::of(vec![in alloc; Reply { command: 5, line }]?);
    let user = text(alloc, b"DataCurator")?;
    let transcript = Transcript {
        session: 1,
        user,
        replies,
    };
    let book = RunBook {
        first: 0,
        base: 1,
        transcripts: Transcripts::of(vec![in alloc; transcript]?),
        history: History::of(Vec::new(alloc)),
    };
    report_text(alloc, &book)
}

// Whether the lines of a reply in a report say this after its number.
fn shows(alloc: Global, line: Line, shown: &str) -> Result<bool, AllocError> {
    let report = report_of_line(alloc, line)?;
    let wanted = format!(in alloc; "session 1 DataCurator\n[5] {shown}\ncommits 0\n")?;
    Ok(report.as_slice() == wanted.as_bytes())
}

#[test]
fn lines_of_logins(rt: HostRuntime) -> Result<(), Fail> {
    let alloc = rt.alloc();
    assert!(rt; shows(alloc, Line::NoUser(0), "no user at view 0")?);
    assert!(rt; shows(alloc, Line::NotLoggedIn, "not logged in")?);
    assert!(rt; shows(alloc, Line::Login(1), "login view 1")?);
    assert!(rt; shows(alloc, Line::Aborted(2), "aborted view 2")?);
    assert!(rt; shows(alloc, Line::Logout, "logout")?);
    Ok(())
}

fn error(alloc: Global, kind: u8, detail: &[u8]) -> Result<Line, AllocError> {
    let detail = text(alloc, detail)?;
    Ok(Line::Error { kind, detail })
}

#[test]
fn lines_of_faults(rt: HostRuntime) -> Result<(), Fail> {
    let alloc = rt.alloc();
    assert!(rt; shows(alloc, Line::NoMemory, "no memory")?);
    assert!(rt; shows(alloc, Line::Parse { at: 12, rule: 4 }, "parse P4 at 12")?);
    assert!(rt; shows(alloc, error(alloc, 8, b"dead home")?, "error E8 dead home")?);
    let raised = error(alloc, 20, b"error: a\\b")?;
    assert!(rt; shows(alloc, raised, "error E20 error: a\\\\b")?);
    Ok(())
}

#[test]
fn lines_of_chunks(rt: HostRuntime) -> Result<(), Fail> {
    let alloc = rt.alloc();
    assert!(rt; shows(alloc, Line::Show(text(alloc, b"abc\n3")?), "show abc\\n3")?);
    assert!(rt; shows(alloc, Line::Ran, "ok")?);
    assert!(rt; shows(alloc, Line::Printed(text(alloc, b"-1")?), "-1")?);
    assert!(rt; shows(alloc, Line::Method(text(alloc, b"make")?), "method make")?);
    let backslashes = Line::Method(text(alloc, b"\\\\")?);
    assert!(rt; shows(alloc, backslashes, "method \\\\\\\\")?);
    Ok(())
}

fn one_conflict(alloc: Global) -> Result<Line, AllocError> {
    let conflict = Conflict {
        oid: Oid::from_parts(1, 10),
        kind: ConflictKind::WriteWrite,
        shown: 2,
    };
    Ok(Line::Refused(Conflicts::of(vec![in alloc; conflict]?)))
}

#[test]
fn lines_of_commits(rt: HostRuntime) -> Result<(), Fail> {
    let alloc = rt.alloc();
    assert!(rt; shows(alloc, Line::Spoiled, "spoiled")?);
    let unchanged = Line::Unchanged { at: 1, view: 2 };
    assert!(rt; shows(alloc, unchanged, "committed unchanged at 1 view 2")?);
    assert!(rt;
        shows(
            alloc,
            one_conflict(alloc)?,
            "refused 1\nC1 object 1:10 commit 2"
        )?
    );
    let committed = Line::Committed { number: 2, view: 3 };
    assert!(rt; shows(alloc, committed, "committed 2 view 3")?);
    Ok(())
}

#[test]
fn lines_of_the_disk(rt: HostRuntime) -> Result<(), Fail> {
    let alloc = rt.alloc();
    let most = 18_446_744_073_709_551_615;
    assert!(rt; shows(alloc, Line::Halted(most), "halted at 18446744073709551615")?);
    let full = Line::LogFull {
        length: 13,
        size: 21,
    };
    assert!(rt; shows(alloc, full, "log full at 13 by 21")?);
    assert!(rt; shows(alloc, Line::DiskFault, "disk fault")?);
    assert!(rt; shows(alloc, Line::ExtentFull(65537), "extent full at 65537")?);
    assert!(rt; shows(alloc, Line::Checkpoint(0), "checkpoint 0")?);
    Ok(())
}

#[test]
fn lines_of_modes(rt: HostRuntime) -> Result<(), Fail> {
    let alloc = rt.alloc();
    assert!(rt; shows(alloc, Line::Mode { full: true }, "mode full_checks")?);
    assert!(rt; shows(alloc, Line::Mode { full: false }, "mode no_rw_checks")?);
    Ok(())
}

fn denied(kind: LockKind, holder: u32, held: LockKind) -> Line {
    Line::Denied {
        kind,
        oid: Oid::from_parts(1, 1),
        holder,
        held,
    }
}

fn locked(kind: LockKind, clean: bool) -> Line {
    Line::Locked {
        kind,
        oid: Oid::from_parts(16_777_215, 16_777_215),
        clean,
    }
}

#[test]
fn lines_of_names_without_locks(rt: HostRuntime) -> Result<(), Fail> {
    let alloc = rt.alloc();
    assert!(rt; shows(alloc, Line::NoName(text(alloc, b"Box_2")?), "no name Box_2")?);
    assert!(rt;
        shows(
            alloc,
            Line::NotObject(text(alloc, b"T")?),
            "not an object T"
        )?
    );
    let made = Line::NotCommitted(Oid::from_parts(2, 4));
    assert!(rt; shows(alloc, made, "not committed 2:4")?);
    let kept = Line::NoRight(Oid::from_parts(0, 27));
    assert!(rt; shows(alloc, kept, "no right 0:27")?);
    Ok(())
}

#[test]
fn lines_of_refused_locks(rt: HostRuntime) -> Result<(), Fail> {
    let alloc = rt.alloc();
    let read = denied(LockKind::Read, 2, LockKind::Write);
    assert!(rt; shows(alloc, read, "denied read 1:1 by session 2 write")?);
    let write = denied(LockKind::Write, 16, LockKind::Read);
    assert!(rt; shows(alloc, write, "denied write 1:1 by session 16 read")?);
    Ok(())
}

#[test]
fn lines_of_locks(rt: HostRuntime) -> Result<(), Fail> {
    let alloc = rt.alloc();
    let clean = locked(LockKind::Read, true);
    assert!(rt; shows(alloc, clean, "locked read 16777215:16777215 clean")?);
    let dirty = locked(LockKind::Write, false);
    assert!(rt; shows(alloc, dirty, "locked write 16777215:16777215 dirty")?);
    assert!(rt; shows(alloc, Line::NotHeld(Oid::from_parts(1, 1)), "not held 1:1")?);
    assert!(rt; shows(alloc, Line::Unlocked(Oid::from_parts(0, 1)), "unlocked 0:1")?);
    Ok(())
}

fn printed(alloc: Global, bytes: &[u8]) -> Result<Line, AllocError> {
    Ok(Line::Printed(text(alloc, bytes)?))
}

fn report_of_escapes(alloc: Global) -> Result<Vec<u8>, AllocError> {
    let none = printed(alloc, b"")?;
    let controls = printed(alloc, b"\x00\t\x0f\x1f ~\x7f\x80\xff")?;
    let lines = printed(alloc, b"\n\\n\\")?;
    report_of_lines(alloc, (none, controls, lines, Line::Ran))
}

#[test]
fn escapes(rt: HostRuntime) -> Result<(), Fail> {
    let wanted =
        b"session 1 DataCurator\n[0] \n[1] \\x00\\x09\\x0f\\x1f ~\\x7f\x80\xff\n[2] \\n\\\\n\\\\\n\
        [3] ok\ncommits 0\n";
    assert!(rt; report_of_escapes(rt.alloc())?.as_slice() == wanted.as_slice());
    Ok(())
}

// The numbers of commits go past those of 64 bits, and no session is needed.
#[test]
fn commits_alone(rt: HostRuntime) -> Result<(), Fail> {
    let alloc = rt.alloc();
    let book = RunBook {
        first: 18_446_744_073_709_551_614,
        base: 1,
        transcripts: Transcripts::of(Vec::new(alloc)),
        history: History::of(vec![in alloc; entry(2, 1, 8), unchecked(1, 3, 9)]?),
    };
    let wanted = b"commits 2\n18446744073709551615 session 2 transaction 1 view 8\n\
        18446744073709551616 session 1 transaction 3 view 9 no_rw_checks\n";
    assert!(rt; report_text(alloc, &book)?.as_slice() == wanted.as_slice());
    Ok(())
}
