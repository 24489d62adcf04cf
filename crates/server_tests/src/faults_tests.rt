// A store whose disk stops, or fails once, at a chosen call of its second commit. Expected values
// are worked by hand.
use crate::store_tests::{Left, done, empty};
use gem_disk::{MemDisk, Pick};
use gem_server::Status;
use std::alloc::Global;
use std::sync::Wait;
use std::test::Fail;
use std::thread::Threads;

const FIRST: &[u8] = b"session DataCurator\nrun\nGlobals at: #N put: 1\n%\ncommit\n";

const SECOND: &[u8] = b"session DataCurator\nrun\nGlobals at: #N put: 2\n%\ncommit\n";

// A store with one commit.
fn with_one<R: Threads + Wait + Sync>(rt: &R, alloc: Global) -> Result<MemDisk, Fail> {
    let Left { status, disk, .. } = done(rt, alloc, "serve", FIRST, empty(alloc))?;
    if status == Status::Done {
        return Ok(disk);
    }
    Err(Fail::new("there is no first commit"))
}

// How many calls of the disk open that store: with so many, and no fewer, a script without sessions
// is served over it.
fn opening_calls<R: Threads + Wait + Sync>(rt: &R, alloc: Global) -> Result<u64, Fail> {
    for calls in 0..60u64 {
        let mut disk = with_one(rt, alloc)?;
        disk.stop_after(calls);
        let Left { status, .. } = done(rt, alloc, "serve", b"", disk)?;
        if status == Status::Done {
            return Ok(calls);
        }
    }
    Err(Fail::new("the store isn't opened"))
}

// The line of a look at what a crash leaves.
fn left_by<R: Threads + Wait + Sync>(
    rt: &R,
    alloc: Global,
    disk: MemDisk,
    pick: Pick,
) -> Result<Vec<u8>, Fail> {
    let images = disk.crash(pick)?;
    let again = MemDisk::new(images.extent, images.log);
    let Left { written, .. } = done(rt, alloc, "check", b"", again)?;
    Ok(written)
}

const ONE: &[u8] = b"store number 1 objects 35\n";

const TWO: &[u8] = b"store number 2 objects 35\n";

// Which commits a store holds.
#[derive(Clone, Copy)]
enum Held {
    One,
    Two,
    Either,
}

// What a crash leaves behind so many calls of the second commit.
const CRASHES: [(u64, Pick, Held); 12] = [
    (1, Pick::Old, Held::One),
    (1, Pick::New, Held::One),
    (1, Pick::Torn(1), Held::One),
    (2, Pick::Old, Held::One),
    (2, Pick::New, Held::One),
    (2, Pick::Torn(1), Held::One),
    (3, Pick::Old, Held::One),
    (3, Pick::New, Held::Two),
    (3, Pick::Torn(7), Held::Either),
    (4, Pick::Old, Held::Two),
    (4, Pick::New, Held::Two),
    (4, Pick::Torn(1), Held::Two),
];

// Whether the line of a look tells so.
fn tells(written: &[u8], held: Held) -> bool {
    match held {
        Held::One => written == ONE,
        Held::Two => written == TWO,
        Held::Either => written == ONE || written == TWO,
    }
}

// The line of a look at what a crash leaves behind so many calls of the disk.
fn left_behind<R: Threads + Wait + Sync>(
    rt: &R,
    alloc: Global,
    calls: u64,
    pick: Pick,
) -> Result<Vec<u8>, Fail> {
    let mut disk = with_one(rt, alloc)?;
    disk.stop_after(calls);
    let Left { disk, .. } = done(rt, alloc, "serve", SECOND, disk)?;
    left_by(rt, alloc, disk, pick)
}

#[test]
fn stopped_in_the_second_commit(rt: HostRuntime) -> Result<(), Fail> {
    let alloc = rt.alloc();
    let opening = opening_calls(&rt, alloc)?;
    for (calls, pick, held) in CRASHES {
        let written = left_behind(&rt, alloc, opening.saturating_add(calls), pick)?;
        assert!(rt; tells(&written, held), "{calls}");
    }
    Ok(())
}

const TWICE: &[u8] = b"session DataCurator\nrun\nGlobals at: #N put: 2\n%\ncommit\n\
    run\nGlobals at: #N put: 3\n%\ncommit\n";

const HALTED: &[u8] = b"session 1 DataCurator\n[0] login view 1\n[1] ok\n[2] disk fault\n[3] ok\n\
    [4] halted at 2\n[5] logout\ncommits 0\n";

// The second call of a commit is its first sync.
#[test]
fn fault_of_a_sync(rt: HostRuntime) -> Result<(), Fail> {
    let alloc = rt.alloc();
    let opening = opening_calls(&rt, alloc)?;
    let mut disk = with_one(&rt, alloc)?;
    disk.fail_at(opening.saturating_add(2));
    let left = done(&rt, alloc, "serve", TWICE, disk)?;
    assert_eq!(rt; left.status, Status::DiskFault);
    assert_eq!(rt; left.written.as_slice(), HALTED);
    let looked = done(&rt, alloc, "check", b"", left.disk)?;
    assert_eq!(rt; looked.status, Status::Done);
    assert_eq!(rt; looked.written.as_slice(), ONE);
    Ok(())
}
