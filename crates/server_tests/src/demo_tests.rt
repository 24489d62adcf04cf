// The generated load. Expected values are worked by hand, from the numbers of the seed.
use crate::short_sink::ShortSink;
use gem_disk::{Images, MemDisk, Pick};
use gem_io::{Gate, MemSink, MemSource, OpenGate, Sink};
use gem_server::{Ended, Status, gemstone};
use std::alloc::{AllocError, Global};
use std::sync::{Mutex, Wait};
use std::test::Fail;
use std::thread::Threads;

// What the disk holds that is handed in, and what the source would give. Neither is looked at.
const EXTENT: &[u8] = b"no pages";

const LOG: &[u8] = b"no log";

const SCRIPT: &[u8] = b"no script";

// A command line, cut at its spaces.
fn words(alloc: Global, line: &str) -> Result<Vec<String>, AllocError> {
    let mut words = Vec::new(alloc);
    for word in line.split_whitespace() {
        words.push(String::from_str(alloc, word)?)?;
    }
    Ok(words)
}

// How the program ends on a command line, over this sink, with sessions that pass this gate. From
// this call a caller's proof learns nothing of the run, so it stays short.
fn run_past<R: Threads + Wait + Sync, K: Sink, G: Gate + Sync>(
    rt: &R,
    alloc: Global,
    line: &str,
    gate: &G,
    sink: &mut K,
) -> Result<Ended<MemDisk>, Fail> {
    let words = words(alloc, line)?;
    let disk = MemDisk::new(EXTENT.to_vec(alloc)?, LOG.to_vec(alloc)?);
    let mut source = MemSource::new(SCRIPT.to_vec(alloc)?, Vec::new(alloc));
    Ok(gemstone(rt, alloc, &words, &mut source, disk, gate, sink))
}

// The same with an open gate.
fn run<R: Threads + Wait + Sync, K: Sink>(
    rt: &R,
    alloc: Global,
    line: &str,
    sink: &mut K,
) -> Result<Ended<MemDisk>, Fail> {
    run_past(rt, alloc, line, &OpenGate, sink)
}

// How a command line ends, and what is written.
fn done<R: Threads + Wait + Sync>(
    rt: &R,
    alloc: Global,
    line: &str,
) -> Result<(Ended<MemDisk>, MemSink), Fail> {
    let mut sink = MemSink::new(Vec::new(alloc));
    let ended = run(rt, alloc, line, &mut sink)?;
    Ok((ended, sink))
}

const SMALL: &[u8] = b"demo seed 1 sessions 2 rounds 4\ncommits 9\ncounter 42\nbag 8\n";

#[test]
fn small_load(rt: HostRuntime) -> Result<(), Fail> {
    let (ended, sink) = done(&rt, rt.alloc(), "demo --seed 1 --sessions 2")?;
    assert_eq!(rt; ended.status, Status::Done);
    assert!(rt; sink.written() == SMALL);
    Ok(())
}

// The book and the events are those of the load, which begins behind the set-up's one commit.
#[test]
fn book_of_a_load(rt: HostRuntime) -> Result<(), Fail> {
    let (ended, _) = done(&rt, rt.alloc(), "demo --sessions=2 --rounds 4 --seed=1")?;
    assert_eq!(rt; ended.book.first, 1);
    assert_eq!(rt; ended.book.transcripts.len(), 2);
    assert_eq!(rt; ended.book.history.len(), 8);
    assert_eq!(rt; ended.events.len(), 8);
    Ok(())
}

/// Counts how often it is passed.
#[derive(Drop)]
struct CountingGate {
    passed: Mutex<u32>,
}

impl Gate for CountingGate {
    fn pass<R: Wait>(&self, rt: &R, _session: u32, _command: u32) {
        let mut passed = self.passed.lock(rt);
        *passed = passed.saturating_add(1);
    }

    fn left<R: Wait>(&self, _rt: &R, _session: u32) {}
}

// Two sessions of eight commands each pass it, which log in and out besides.
#[test]
fn sessions_of_a_load_pass_the_gate(rt: HostRuntime) -> Result<(), Fail> {
    let alloc = rt.alloc();
    let gate = CountingGate {
        passed: Mutex::new(0),
    };
    let mut sink = MemSink::new(Vec::new(alloc));
    let ended = run_past(&rt, alloc, "demo --seed 1 --sessions 2", &gate, &mut sink)?;
    assert_eq!(rt; ended.status, Status::Done);
    assert_eq!(rt; *gate.passed.lock(&rt), 20);
    Ok(())
}

fn holds(images: &Images) -> bool {
    images.extent.as_slice() == EXTENT && images.log.as_slice() == LOG
}

#[test]
fn disk_stays(rt: HostRuntime) -> Result<(), Fail> {
    let (ended, _) = done(&rt, rt.alloc(), "demo --seed 1 --sessions 2")?;
    assert!(rt; holds(&ended.disk.crash(Pick::New)?));
    Ok(())
}

const LARGE: &str = "demo --seed 7 --sessions 16 --rounds 50";

// What it writes, in whatever order its sessions run.
const LARGE_LINES: &[u8] =
    b"demo seed 7 sessions 16 rounds 50\ncommits 801\ncounter 4047\nbag 800\n";

#[test]
fn large_load_twice(rt: HostRuntime) -> Result<(), Fail> {
    let alloc = rt.alloc();
    let (first, written) = done(&rt, alloc, LARGE)?;
    let (second, again) = done(&rt, alloc, LARGE)?;
    assert_eq!(rt; first.status, Status::Done);
    assert_eq!(rt; second.status, Status::Done);
    assert!(rt; written.written() == LARGE_LINES);
    assert!(rt; again.written() == LARGE_LINES);
    Ok(())
}

#[test]
fn largest_seed(rt: HostRuntime) -> Result<(), Fail> {
    let line = "demo --seed 2147483647 --sessions 1 --rounds 1";
    let (ended, sink) = done(&rt, rt.alloc(), line)?;
    assert_eq!(rt; ended.status, Status::Done);
    let expected = b"demo seed 2147483647 sessions 1 rounds 1\ncommits 2\ncounter 9\nbag 1\n";
    assert!(rt; sink.written() == expected.as_slice());
    Ok(())
}

#[test]
fn full_sink(rt: HostRuntime) -> Result<(), Fail> {
    let alloc = rt.alloc();
    let mut short = ShortSink::new(10, Vec::new(alloc));
    let ended = run(&rt, alloc, "demo --seed 1 --sessions 2", &mut short)?;
    assert_eq!(rt; ended.status, Status::WriteFault);
    assert!(rt; short.taken() == b"demo seed ".as_slice());
    assert_eq!(rt; ended.book.history.len(), 8);
    Ok(())
}

// Whether these words ask for nothing, and nothing is written.
fn is_unknown<R: Threads + Wait + Sync>(rt: &R, alloc: Global, line: &str) -> Result<bool, Fail> {
    let (ended, sink) = done(rt, alloc, line)?;
    Ok(ended.status == Status::Usage && sink.written().is_empty())
}

#[test]
fn numbers_out_of_range(rt: HostRuntime) -> Result<(), Fail> {
    let alloc = rt.alloc();
    for line in &[
        "demo",
        "demo --seed 1",
        "demo --seed 1 --sessions 0",
        "demo --seed 1 --sessions 17",
        "demo --seed 1 --sessions 2 --rounds 0",
        "demo --seed 1 --sessions 2 --rounds 1001",
        "demo --seed 2147483648 --sessions 2",
        "demo --seed 1 --sessions 2 --seed 1",
    ] {
        assert!(rt; is_unknown(&rt, alloc, line)?, "{line}");
    }
    Ok(())
}
