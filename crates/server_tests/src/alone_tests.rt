// The server, from a script to its report, in threads as the program runs them. Sessions run one
// after another.
ghost use Rattle.std.specs.Prelude.{◌<◌};

use crate::reports::{LONG_REPORTS, REPORTS};
use crate::short_sink::ShortSink;
use crate::turns::TurnGate;
use gem_disk::MemDisk;
use gem_io::{MemSink, MemSource, Sink, Source};
use gem_server::{Ended, Status, gemstone};
use std::alloc::{AllocError, Global};
use std::sync::Wait;
use std::test::Fail;
use std::thread::Threads;

// A command line, cut at its spaces.
fn words(alloc: Global, line: &str) -> Result<Vec<String>, AllocError> {
    let mut words = Vec::new(alloc);
    for word in line.split_whitespace() {
        words.push(String::from_str(alloc, word)?)?;
    }
    Ok(words)
}

// How the program ends on a command line, over these devices. From this call a caller's proof
// learns nothing of the run, so it stays short.
fn run<R: Threads + Wait + Sync, S: Source, K: Sink>(
    rt: &R,
    alloc: Global,
    line: &str,
    source: &mut S,
    sink: &mut K,
) -> Result<Ended<MemDisk>, Fail> {
    let words = words(alloc, line)?;
    let disk = MemDisk::new(Vec::new(alloc), Vec::new(alloc));
    let gate = TurnGate::new();
    let ended = gemstone(rt, alloc, &words, source, disk, &gate, sink);
    gate.check(rt)?;
    Ok(ended)
}

// How a script ends, and what is written.
fn served<R: Threads + Wait + Sync>(
    rt: &R,
    alloc: Global,
    script: &[u8],
) -> Result<(Ended<MemDisk>, MemSink), Fail> {
    let mut source = MemSource::new(script.to_vec(alloc)?, Vec::new(alloc));
    let mut sink = MemSink::new(Vec::new(alloc));
    let ended = run(rt, alloc, "serve", &mut source, &mut sink)?;
    Ok((ended, sink))
}

#[test]
fn not_always_no_memory(rt: HostRuntime) -> Result<(), Fail> {
    let (ended, sink) = served(&rt, rt.alloc(), b"session DataCurator\nprintit\n3\n%\n")?;
    assert_eq!(rt; ended.status, Status::Done);
    assert!(rt; !sink.written().is_empty());
    Ok(())
}

// Whether a script ends so.
fn ends<R: Threads + Wait + Sync>(
    rt: &R,
    alloc: Global,
    script: &[u8],
    status: Status,
) -> Result<bool, Fail> {
    let (ended, _) = served(rt, alloc, script)?;
    Ok(ended.status == status)
}

// Whether a script ends so, and this is written.
fn writes<R: Threads + Wait + Sync>(
    rt: &R,
    alloc: Global,
    script: &[u8],
    status: Status,
    written: &[u8],
) -> Result<bool, Fail> {
    let (ended, sink) = served(rt, alloc, script)?;
    Ok(ended.status == status && sink.written() == written)
}

// Whether the report of a script is this.
fn has_report<R: Threads + Wait + Sync>(
    rt: &R,
    alloc: Global,
    script: &[u8],
    report: &[u8],
) -> Result<bool, Fail> {
    writes(rt, alloc, script, Status::Done, report)
}

#[test]
fn scripts_and_their_reports(rt: HostRuntime) -> Result<(), Fail> {
    let alloc = rt.alloc();
    for &(script, report) in &REPORTS {
        assert!(rt;
            has_report(&rt, alloc, script.as_bytes(), report.as_bytes())?,
            "{script}"
        );
    }
    Ok(())
}

#[test]
fn long_scripts_and_their_reports(rt: HostRuntime) -> Result<(), Fail> {
    let alloc = rt.alloc();
    for &(script, report) in &LONG_REPORTS {
        assert!(rt;
            has_report(&rt, alloc, script.as_bytes(), report.as_bytes())?,
            "{script}"
        );
    }
    Ok(())
}

#[test]
fn empty_script(rt: HostRuntime) -> Result<(), Fail> {
    assert!(rt; has_report(&rt, rt.alloc(), b"", b"commits 0\n")?);
    Ok(())
}

// The text that is repeated for each of so many sessions, behind the first one's own.
fn counting(alloc: Global, sessions: u32) -> Result<String, AllocError> {
    let mut script = String::from_str(
        alloc,
        "session DataCurator\nrun\nGlobals at: #Hits put: RcCounter new\n%\ncommit\n",
    )?;
    for _ in 0..sessions {
        script.push_str(
            "session DataCurator\nrun\nGlobals at: #Z put: Object new\n%\nlock read Z\n\
            printit\nHits increment; value\n%\ncommit\n",
        )?;
    }
    Ok(script)
}

// The transcript of the session after so many others, which have committed once each.
fn counted(alloc: Global, before: u32) -> Result<String, AllocError>
    requires { before < 16 }
{
    let session = before + 1;
    format!(in alloc;
        "session {session} DataCurator\n[0] login view {before}\n[1] ok\n\
        [2] not committed {session}:1\n[3] {before}\n[4] committed {session} view {session}\n\
        [5] logout\n"
    )
}

// The report of such a script.
fn all_counted(alloc: Global) -> Result<String, AllocError> {
    let mut report = String::from_str(
        alloc,
        "session 1 DataCurator\n[0] login view 0\n[1] ok\n[2] committed 1 view 1\n[3] logout\n",
    )?;
    for before in 1..16u32 {
        report.push_str(counted(alloc, before)?.as_str())?;
    }
    report.push_str("commits 16\n")?;
    for before in 0..16u32 {
        let session = before + 1;
        let line = format!(in alloc; "{session} session {session} transaction 1 view {before}\n")?;
        report.push_str(line.as_str())?;
    }
    Ok(report)
}

// Each session has a serial of its own in the names that it draws, and sees what those before it
// committed.
#[test]
fn sixteen_sessions(rt: HostRuntime) -> Result<(), Fail> {
    let alloc = rt.alloc();
    let script = counting(alloc, 15)?;
    let report = all_counted(alloc)?;
    assert!(rt; has_report(&rt, alloc, script.as_bytes(), report.as_bytes())?);
    Ok(())
}

#[test]
fn seventeen_sessions(rt: HostRuntime) -> Result<(), Fail> {
    let alloc = rt.alloc();
    let script = counting(alloc, 16)?;
    let status = Status::Script { line: 141, rule: 5 };
    assert!(rt; ends(&rt, alloc, script.as_bytes(), status)?);
    Ok(())
}

// Whether the book of a run from the kernel's image has one transcript, and there was one event.
fn has_one_session(ended: &Ended<MemDisk>) -> bool {
    ended.book.first == 0
        && ended.book.base == 1
        && ended.book.transcripts.as_slice().len() == 1
        && ended.events.as_slice().len() == 1
}

// Whether the first commit is that of the first session's first two commands.
fn has_first_commit(ended: &Ended<MemDisk>) -> bool {
    let Some((entry, _)) = ended.book.history.as_slice().split_first() else {
        return false;
    };
    (entry.session, entry.transaction, entry.view) == (1, 1, 0)
        && (entry.first_command, entry.last_command) == (1, 2)
}

#[test]
fn book_and_events(rt: HostRuntime) -> Result<(), Fail> {
    let script = b"session DataCurator\nrun\nGlobals at: #T put: 2\n%\ncommit\n";
    let (ended, _) = served(&rt, rt.alloc(), script)?;
    assert!(rt; has_one_session(&ended));
    assert!(rt; has_first_commit(&ended));
    Ok(())
}

const NO_SCRIPTS: [(&str, u32, u8); 5] = [
    ("session DataCurator\nrun\n3\n", 2, 3),
    ("checkpoint\n", 1, 2),
    ("commit\n", 1, 2),
    ("\nsession 2nd\n", 2, 6),
    ("session DataCurator\nrun\n\u{7f}\n%\n", 3, 8),
];

#[test]
fn texts_that_are_no_script(rt: HostRuntime) -> Result<(), Fail> {
    let alloc = rt.alloc();
    for &(script, line, rule) in &NO_SCRIPTS {
        let status = Status::Script { line, rule };
        assert!(rt;
            writes(&rt, alloc, script.as_bytes(), status, b"")?,
            "{script}"
        );
    }
    Ok(())
}

#[test]
fn longest_script(rt: HostRuntime) -> Result<(), Fail> {
    let alloc = rt.alloc();
    let script = vec![in alloc; b'\n'; 1_048_576]?;
    assert!(rt; ends(&rt, alloc, &script, Status::Done)?);
    Ok(())
}

#[test]
fn too_long_script(rt: HostRuntime) -> Result<(), Fail> {
    let alloc = rt.alloc();
    let script = vec![in alloc; b'\n'; 1_048_577]?;
    assert!(rt; ends(&rt, alloc, &script, Status::Script { line: 0, rule: 7 })?);
    Ok(())
}

// Whether the program doesn't know these words, and writes nothing.
fn is_unknown<R: Threads + Wait + Sync>(rt: &R, alloc: Global, line: &str) -> Result<bool, Fail> {
    let mut source = MemSource::new(Vec::new(alloc), Vec::new(alloc));
    let mut sink = MemSink::new(Vec::new(alloc));
    let ended = run(rt, alloc, line, &mut source, &mut sink)?;
    Ok(ended.status == Status::Usage && sink.written().is_empty())
}

#[test]
fn other_words(rt: HostRuntime) -> Result<(), Fail> {
    let alloc = rt.alloc();
    for line in &[
        "",
        "check",
        "Serve",
        "serve x",
        "serve x y z",
        "serve serve",
        "--help",
    ] {
        assert!(rt; is_unknown(&rt, alloc, line)?, "{line}");
    }
    Ok(())
}

const ONE_SUM: &[u8] = b"session DataCurator\nprintit\n3 + 4 * 2\n%\n";

#[test]
fn fault_of_a_source(rt: HostRuntime) -> Result<(), Fail> {
    let alloc = rt.alloc();
    let mut failing = MemSource::new(ONE_SUM.to_vec(alloc)?, vec![in alloc; 2]?);
    let mut sink = MemSink::new(Vec::new(alloc));
    let ended = run(&rt, alloc, "serve", &mut failing, &mut sink)?;
    assert_eq!(rt; ended.status, Status::ReadFault);
    assert!(rt; sink.written().is_empty());
    Ok(())
}

#[test]
fn fault_of_a_sink(rt: HostRuntime) -> Result<(), Fail> {
    let alloc = rt.alloc();
    let mut source = MemSource::new(ONE_SUM.to_vec(alloc)?, Vec::new(alloc));
    let mut short = ShortSink::new(10, Vec::new(alloc));
    let ended = run(&rt, alloc, "serve", &mut source, &mut short)?;
    assert_eq!(rt; ended.status, Status::WriteFault);
    assert!(rt; short.taken() == b"session 1 ".as_slice());
    Ok(())
}
