// The disks. Expected values are those of the disk model, worked by hand.
use gem_disk::{Disk, Images, MemDisk, Pick, Which};
use gem_io::Failed;
use std::alloc::{AllocError, Global};
use std::test::Fail;

const STEPS: u64 = 5;

// One step of the fixed run, of two calls each: a look at the length, and a change where it fits.
fn step(disk: &mut MemDisk, number: u64) -> Result<(), Failed> {
    match number {
        1 => write(disk, Which::Log, 2, b"cd"),
        2 => sync(disk, Which::Log),
        3 => write(disk, Which::Log, 3, b"xyz"),
        4 => cut(disk, Which::Log, 5),
        _ => write(disk, Which::Extent, 1, b"AG"),
    }
}

fn write(disk: &mut MemDisk, file: Which, at: u64, bytes: &[u8]) -> Result<(), Failed> {
    if at > disk.length(file)? {
        return Err(Failed);
    }
    disk.write_at(file, at, bytes)
}

fn cut(disk: &mut MemDisk, file: Which, size: u64) -> Result<(), Failed> {
    if size > disk.length(file)? {
        return Err(Failed);
    }
    disk.cut(file, size)
}

fn sync(disk: &mut MemDisk, file: Which) -> Result<(), Failed> {
    disk.length(file)?;
    disk.sync(file)
}

fn start(alloc: Global) -> Result<MemDisk, AllocError> {
    Ok(MemDisk::new(b"page".to_vec(alloc)?, b"ab".to_vec(alloc)?))
}

// What a crash leaves after the run, which stops after some steps, or fails in one.
fn left_by(alloc: Global, fault: Fault, pick: Pick) -> Result<Images, AllocError> {
    let mut disk = start(alloc)?;
    match fault {
        Fault::StopAfter(steps) => disk.stop_after(steps.saturating_mul(2)),
        Fault::FailAt(step) => disk.fail_at(step.saturating_mul(2)),
    }
    for number in 1..=STEPS {
        let _ = step(&mut disk, number);
    }
    disk.crash(pick)
}

#[derive(Clone, Copy, Debug)]
enum Fault {
    StopAfter(u64),
    FailAt(u64),
}

// The fault, the pick, and what is left of both files.
#[derive(Clone, Copy)]
struct Row {
    fault: Fault,
    pick: Pick,
    extent: &'static str,
    log: &'static str,
}

macro_rules! rows {
    ($($fault:expr, $pick:expr => $extent:expr, $log:expr;)*) => {
        [$(Row {
            fault: $fault,
            pick: $pick,
            extent: $extent,
            log: $log,
        }),*]
    };
}

#[test]
fn crashes_leave_what_is_picked(rt: HostRuntime) -> Result<(), Fail> {
    for row in rows! {
        Fault::StopAfter(0), Pick::Old => "page", "ab";
        Fault::StopAfter(0), Pick::New => "page", "ab";
        Fault::StopAfter(0), Pick::Torn(b'?') => "page", "ab";
        Fault::StopAfter(1), Pick::Old => "page", "ab";
        Fault::StopAfter(1), Pick::New => "page", "abcd";
        Fault::StopAfter(1), Pick::Torn(b'?') => "page", "ab??";
        Fault::StopAfter(2), Pick::Old => "page", "abcd";
        Fault::StopAfter(2), Pick::New => "page", "abcd";
        Fault::StopAfter(2), Pick::Torn(b'?') => "page", "abcd";
        Fault::StopAfter(3), Pick::Old => "page", "abcd";
        Fault::StopAfter(3), Pick::New => "page", "abcxyz";
        Fault::StopAfter(3), Pick::Torn(b'?') => "page", "abc???";
        Fault::StopAfter(4), Pick::Old => "page", "abcd";
        Fault::StopAfter(4), Pick::New => "page", "abcxy";
        Fault::StopAfter(4), Pick::Torn(b'?') => "page", "abc??";
        Fault::StopAfter(5), Pick::Old => "page", "abcd";
        Fault::StopAfter(5), Pick::New => "pAGe", "abcxy";
        Fault::StopAfter(5), Pick::Torn(b'?') => "p??e", "abc??";
        Fault::FailAt(0), Pick::New => "pAGe", "abcxy";
        Fault::FailAt(1), Pick::New => "pAGe", "ab";
        Fault::FailAt(2), Pick::New => "pAGe", "abcxy";
        Fault::FailAt(2), Pick::Old => "page", "ab";
        Fault::FailAt(3), Pick::New => "pAGe", "abcd";
        Fault::FailAt(4), Pick::New => "pAGe", "abcxyz";
        Fault::FailAt(5), Pick::New => "page", "abcxy";
        Fault::FailAt(5), Pick::Old => "page", "abcd";
        Fault::FailAt(5), Pick::Torn(b'?') => "page", "abc??";
    } {
        let left = left_by(rt.alloc(), row.fault, row.pick)?;
        let fault = row.fault;
        assert_eq!(rt;
            left.extent.as_slice(),
            row.extent.as_bytes(),
            "at {fault:?}"
        );
        assert_eq!(rt; left.log.as_slice(), row.log.as_bytes(), "at {fault:?}");
    }
    Ok(())
}

#[test]
fn reads_what_was_written(rt: HostRuntime) -> Result<(), Fail> {
    let mut disk = start(rt.alloc())?;
    write(&mut disk, Which::Log, 1, b"XYZ")?;
    assert_eq!(rt; read_four(&mut disk), Ok(*b"aXYZ"));
    cut(&mut disk, Which::Log, 3)?;
    assert_eq!(rt; read_four(&mut disk), Err(Failed));
    assert_eq!(rt; disk.length(Which::Extent), Ok(4));
    disk.stop_after(1);
    assert_eq!(rt; disk.length(Which::Log), Ok(3));
    assert_eq!(rt; disk.sync(Which::Log), Err(Failed));
    assert_eq!(rt; disk.starved(), 0);
    Ok(())
}

fn read_four(disk: &mut MemDisk) -> Result<[u8; 4], Failed> {
    let mut out = [0u8; 4];
    if disk.length(Which::Log)? < 4 {
        return Err(Failed);
    }
    disk.read(Which::Log, 0, &mut out)?;
    Ok(out)
}
