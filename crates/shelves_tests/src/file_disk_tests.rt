// The disk of two files: which calls it makes of a file system, and which the host's makes of them.
use crate::recorded_calls::Recorder;
use crate::watched_files::{Watch, Watched};
use file_disk::{FileCalls, FileDisk};
use gem_disk::{Disk, Which};
use gem_io::Failed;
use std::alloc::{AllocError, Global};
use std::fs::{File, OpenFile};
use std::process::Abort;
use std::rc::Rc;
use std::rt::Files;
use std::test::Fail;
use std::{fs, io};

const FOLDER: &str = "disks";

const EXTENT: &str = "disks/extent";

const LOG: &str = "disks/log";

const NEVER: usize = usize::MAX;

const SIZE: u64 = 77;

#[derive(Clone, Copy, Debug)]
enum Ask {
    Length,
    Read,
    Write,
    Cut,
    Sync,
}

// Makes one call of the disk, which answers the length, or 0.
fn outcome_of<C: FileCalls>(disk: &mut FileDisk<C>, ask: Ask, file: Which) -> Result<u64, Failed> {
    match ask {
        Ask::Length => disk.length(file),
        Ask::Read => disk.read(file, 5, &mut [1; 3]).map(|()| 0),
        Ask::Write => disk.write_at(file, 7, b"abcd").map(|()| 0),
        Ask::Cut => disk.cut(file, 1_048_577).map(|()| 0),
        Ask::Sync => disk.sync(file).map(|()| 0),
    }
}

fn answer_of(ask: Ask) -> u64 {
    match ask {
        Ask::Length => SIZE,
        _ => 0,
    }
}

// What is asked of which file, and the calls that are made.
#[derive(Clone, Copy)]
struct Row {
    ask: Ask,
    file: Which,
    told: &'static str,
}

macro_rules! rows {
    ($($ask:ident, $file:ident => $told:expr;)*) => {
        [$(Row {
            ask: Ask::$ask,
            file: Which::$file,
            told: $told,
        }),*]
    };
}

// Each is asked twice.
const CALLS: [Row; 10] = rows! {
    Length, Extent => "open a/b/c;sync folder a/b;length a/b/c;length a/b/c;";
    Read, Extent => "open a/b/c;sync folder a/b;read a/b/c at 5 3;read a/b/c at 5 3;";
    Write, Extent => "open a/b/c;sync folder a/b;write a/b/c at 7 4;write a/b/c at 7 4;";
    Cut, Extent => "open a/b/c;sync folder a/b;cut a/b/c to 1048577;cut a/b/c to 1048577;";
    Sync, Extent => "open a/b/c;sync folder a/b;sync a/b/c;sync a/b/c;";
    Length, Log => "open log;sync folder .;length log;length log;";
    Read, Log => "open log;sync folder .;read log at 5 3;read log at 5 3;";
    Write, Log => "open log;sync folder .;write log at 7 4;write log at 7 4;";
    Cut, Log => "open log;sync folder .;cut log to 1048577;cut log to 1048577;";
    Sync, Log => "open log;sync folder .;sync log;sync log;";
};

#[derive(Drop)]
struct Told {
    first: Result<u64, Failed>,
    second: Result<u64, Failed>,
    calls: String,
}

impl Told {
    fn is(&self, first: Result<u64, Failed>, second: Result<u64, Failed>, calls: &str) -> bool {
        self.first == first && self.second == second && self.calls.as_str() == calls
    }
}

// What is answered and told where the same is asked twice, and the call of this number fails.
fn told_by<R: Abort + Clone + Drop>(
    rt: &R,
    alloc: Global,
    row: &Row,
    fails_in: usize,
) -> Result<Told, AllocError> {
    let recorder = Recorder::new(rt.clone()?, alloc, fails_in, SIZE);
    let mut disk = FileDisk::over(recorder, alloc, "a/b/c", "log")?;
    let first = outcome_of(&mut disk, row.ask, row.file);
    let second = outcome_of(&mut disk, row.ask, row.file);
    let calls = disk.calls().told();
    Ok(Told {
        first,
        second,
        calls,
    })
}

#[test]
fn each_call_is_made_of_its_file(rt: HostRuntime) -> Result<(), Fail> {
    for row in &CALLS {
        let told = told_by(&rt, rt.alloc(), row, NEVER)?;
        let answer = Ok(answer_of(row.ask));
        assert!(rt;
            told.is(answer, answer, row.told),
            "{:?}: {}",
            row.ask,
            told.calls
        );
    }
    Ok(())
}

// The calls where one is asked for twice, and the first, the second or the third fails.
fn calls_with_failure(alloc: Global, call: &str, failing: usize) -> Result<String, AllocError> {
    match failing {
        0 => format!(in alloc; "open log failed;open log;sync folder .;{call};"),
        1 => format!(in alloc; "open log;sync folder . failed;open log;sync folder .;{call};"),
        _ => format!(in alloc; "open log;sync folder .;{call} failed;{call};"),
    }
}

// Each by its call on the log.
const FAILING: [Row; 5] = rows! {
    Length, Log => "length log";
    Read, Log => "read log at 5 3";
    Write, Log => "write log at 7 4";
    Cut, Log => "cut log to 1048577";
    Sync, Log => "sync log";
};

fn fails_so<R: Abort + Clone + Drop>(
    rt: &R,
    alloc: Global,
    row: &Row,
    failing: usize,
) -> Result<bool, AllocError> {
    let told = told_by(rt, alloc, row, failing)?;
    let calls = calls_with_failure(alloc, row.told, failing)?;
    Ok(told.is(Err(Failed), Ok(answer_of(row.ask)), calls.as_str()))
}

#[test]
fn each_failing_call_is_a_failure(rt: HostRuntime) -> Result<(), Fail> {
    for row in &FAILING {
        for failing in 0..3 {
            let fails = fails_so(&rt, rt.alloc(), row, failing)?;
            assert!(rt; fails, "{:?} at {failing}", row.ask);
        }
    }
    Ok(())
}

// Each with the calls of the host's file system, which takes two bytes a call, and a sync behind.
const HOST: [Row; 7] = rows! {
    Length, Log => "length disks/log;sync disks/log;";
    Read, Log => "seek disks/log 5;read disks/log 3;read disks/log 1;sync disks/log;";
    Write, Log => "seek disks/log 7;write disks/log 4;write disks/log 2;sync disks/log;";
    Cut, Log => "cut disks/log 1048577;sync disks/log;";
    Sync, Log => "sync disks/log;sync disks/log;";
    Cut, Extent => "cut disks/extent 1048577;sync disks/extent;";
    Sync, Extent => "sync disks/extent;sync disks/extent;";
};

fn make_file<R: Files>(rt: &R, path: &str) -> io::Result<()> {
    File::create(rt, path)?.set_len(SIZE)
}

fn make_files<R: Files>(rt: &R, alloc: Global) -> io::Result<()> {
    let _ = rt.remove_dir_all(alloc, FOLDER);
    rt.create_dir(FOLDER)?;
    make_file(rt, EXTENT)?;
    make_file(rt, LOG)
}

// What is answered and told where a sync follows, and the host fails in the call behind so many.
fn host_told<R: Files + Clone + Drop>(
    rt: &R,
    alloc: Global,
    row: &Row,
    passes: u64,
) -> Result<Told, Fail> {
    make_files(rt, alloc)?;
    let watch = Rc::new(alloc, Watch::new(alloc, passes))?;
    let watched = Watched::new(rt.clone()?, alloc, watch.clone()?);
    let mut disk = FileDisk::at(&watched, alloc, EXTENT, LOG)?;
    let first = outcome_of(&mut disk, row.ask, row.file);
    let second = outcome_of(&mut disk, Ask::Sync, row.file);
    let calls = watch.told()?;
    Ok(Told {
        first,
        second,
        calls,
    })
}

fn opening_of(alloc: Global, row: &Row) -> Result<String, AllocError> {
    let path = match row.file {
        Which::Extent => EXTENT,
        Which::Log => LOG,
    };
    format!(in alloc;
        "open rwc {path};open r {FOLDER};sync {FOLDER};{}",
        row.told
    )
}

// Three calls open the file, and one or three do what is asked.
fn calls_for(ask: Ask) -> u64 {
    match ask {
        Ask::Read | Ask::Write => 6,
        _ => 4,
    }
}

// Whether it fails where the host fails in the call behind so many, and else does what is asked.
fn host_fails_so<R: Files + Clone + Drop>(
    rt: &R,
    alloc: Global,
    row: &Row,
    passes: u64,
) -> Result<bool, Fail> {
    let told = host_told(rt, alloc, row, passes)?;
    if passes < calls_for(row.ask) {
        Ok(told.first == Err(Failed) && told.second == Ok(0))
    } else {
        Ok(told.first == Ok(answer_of(row.ask)) && told.second == Err(Failed))
    }
}

#[test]
fn the_host_is_asked_for_each(rt: HostRuntime) -> Result<(), Fail> {
    for row in &HOST {
        let told = host_told(&rt, rt.alloc(), row, u64::MAX)?;
        let calls = opening_of(rt.alloc(), row)?;
        let is_so = told.is(Ok(answer_of(row.ask)), Ok(0), calls.as_str());
        assert!(rt; is_so, "{:?}: {}", row.ask, told.calls);
        for passes in 0..=calls_for(row.ask) {
            let fails = host_fails_so(&rt, rt.alloc(), row, passes)?;
            assert!(rt; fails, "{:?} after {passes}", row.ask);
        }
    }
    fs::remove_dir_all(&rt, FOLDER)?;
    Ok(())
}

// Each call in a function of its own, so that what it promises isn't carried on.
fn size_of<C: FileCalls>(disk: &mut FileDisk<C>, file: Which) -> Result<u64, Failed> {
    disk.length(file)
}

fn write<C: FileCalls>(disk: &mut FileDisk<C>, at: u64, bytes: &[u8]) -> Result<(), Failed> {
    disk.write_at(Which::Log, at, bytes)
}

fn cut<C: FileCalls>(disk: &mut FileDisk<C>, size: u64) -> Result<(), Failed> {
    disk.cut(Which::Log, size)
}

fn sync<C: FileCalls>(disk: &mut FileDisk<C>, file: Which) -> Result<(), Failed> {
    disk.sync(file)
}

fn four_at<C: FileCalls>(disk: &mut FileDisk<C>, at: u64) -> Result<[u8; 4], Failed> {
    let mut out = [0u8; 4];
    disk.read(Which::Log, at, &mut out)?;
    Ok(out)
}

const AGAIN: &str = "disks_again";

const PAGES: &str = "disks_again/extent";

const RECORDS: &str = "disks_again/log";

fn write_first<R: Files + Clone + Drop>(rt: &R, alloc: Global) -> Result<bool, AllocError> {
    let mut disk = FileDisk::at(rt, alloc, PAGES, RECORDS)?;
    Ok(
        size_of(&mut disk, Which::Log) == Ok(0)
            && write(&mut disk, 0, b"abcd") == Ok(())
            && write(&mut disk, 3, b"xyz") == Ok(())
            && cut(&mut disk, 5) == Ok(())
            && sync(&mut disk, Which::Log) == Ok(()),
    )
}

fn read_then<R: Files + Clone + Drop>(rt: &R, alloc: Global) -> Result<bool, AllocError> {
    let mut disk = FileDisk::at(rt, alloc, PAGES, RECORDS)?;
    Ok(
        size_of(&mut disk, Which::Log) == Ok(5)
            && four_at(&mut disk, 1) == Ok(*b"bcxy")
            && four_at(&mut disk, 2) == Err(Failed)
            && size_of(&mut disk, Which::Extent) == Ok(0),
    )
}

fn fails_nowhere<R: Files + Clone + Drop>(rt: &R, alloc: Global) -> Result<bool, AllocError> {
    let mut disk = FileDisk::at(rt, alloc, PAGES, RECORDS)?;
    Ok(sync(&mut disk, Which::Extent) == Err(Failed))
}

#[test]
fn files_are_read_again(rt: HostRuntime) -> Result<(), Fail> {
    let _ = fs::remove_dir_all(&rt, AGAIN);
    fs::create_dir(&rt, AGAIN)?;
    assert!(rt; write_first(&rt, rt.alloc())?);
    assert!(rt; fs::metadata(&rt, PAGES).is_err());
    assert!(rt; read_then(&rt, rt.alloc())?);
    assert!(rt; fs::metadata(&rt, PAGES).is_ok());
    fs::remove_dir_all(&rt, AGAIN)?;
    assert!(rt; fails_nowhere(&rt, rt.alloc())?);
    Ok(())
}
