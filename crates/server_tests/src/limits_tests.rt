// A store whose log is full, and one that has no serials left. Expected values are worked by hand.
use crate::store_tests::{done, empty};
use gem_disk::MemDisk;
use gem_server::Status;
use std::alloc::{AllocError, Global};
use std::test::Fail;

// A log with one record, of a commit that made a counter of 20, whose name has the serial but one to
// the last.
const LAST_BUT_ONE: &[u8] = b"\x01\x26\0\0\x80\x01\0\0\0\0\0\0\0\0\
    \x01\0\0\0\x01\0\0\xfe\xff\xff\0\0\
    \x13\0\0\0\0\0\0\0\x1e\0\0\0\0\0\0\0\x06\x14\0\0\0\0\0\0\0\0";

fn last_but_one(alloc: Global) -> Result<MemDisk, AllocError> {
    Ok(MemDisk::new(Vec::new(alloc), LAST_BUT_ONE.to_vec(alloc)?))
}

#[test]
fn no_serials_for_two_sessions(rt: HostRuntime) -> Result<(), Fail> {
    let alloc = rt.alloc();
    let script = b"session DataCurator\nsession DataCurator\n";
    let left = done(&rt, alloc, "serve", script, last_but_one(alloc)?)?;
    assert_eq!(rt;
        left.status,
        Status::SerialsUsed {
            base: 16_777_215,
            sessions: 2
        }
    );
    assert!(rt; left.written.is_empty());
    let looked = done(&rt, alloc, "check", b"", left.disk)?;
    assert_eq!(rt;
        looked.written.as_slice(),
        b"store number 1 objects 36\n".as_slice()
    );
    Ok(())
}

const ONE_NAME: &[u8] = b"session DataCurator\nrun\nGlobals at: #Z put: Object new\n%\n\
    lock read Z\ncommit\n";

const NAMED: &[u8] = b"session 1 DataCurator\n[0] login view 1\n[1] ok\n\
    [2] not committed 16777215:1\n[3] committed 2 view 2\n[4] logout\ncommits 1\n\
    2 session 1 transaction 1 view 1\n";

#[test]
fn last_serial_for_one_session(rt: HostRuntime) -> Result<(), Fail> {
    let alloc = rt.alloc();
    let left = done(&rt, alloc, "serve", ONE_NAME, last_but_one(alloc)?)?;
    assert_eq!(rt; left.status, Status::Done);
    assert_eq!(rt; left.written.as_slice(), NAMED);
    let next = done(&rt, alloc, "serve", ONE_NAME, left.disk)?;
    assert_eq!(rt;
        next.status,
        Status::SerialsUsed {
            base: 16_777_216,
            sessions: 1
        }
    );
    assert!(rt; next.written.is_empty());
    Ok(())
}

// The first commit has two Strings, 66 more have the long one anew, and one the short one: then the
// log is as long as a log may be, and the next commit of the short one doesn't fit.
fn filling(alloc: Global) -> Result<String, AllocError> {
    let mut script = String::from_str(
        alloc,
        "session DataCurator\nrun\n\
        Globals at: #Text put: (String new: 1000000); at: #Parts put: (String new: 52441)\n\
        %\ncommit\n",
    )?;
    for _ in 0..66 {
        script.push_str("run\nText at: 1 put: $a\n%\ncommit\n")?;
    }
    script.push_str("run\nParts at: 1 put: $a\n%\ncommit\nrun\nParts at: 1 put: $b\n%\ncommit\n")?;
    Ok(script)
}

const FILLED: &[u8] = b"\n[136] committed 68 view 68\n[137] ok\n\
    [138] log full at 67108864 by 52488\n[139] logout\ncommits 68\n";

// Whether a report ends so, before the lines of its commits.
fn is_filled(report: &[u8]) -> bool {
    report.windows(97).filter(|piece| *piece == FILLED).count() == 1
}

#[test]
fn full_log(rt: HostRuntime) -> Result<(), Fail> {
    let alloc = rt.alloc();
    let script = filling(alloc)?;
    let left = done(&rt, alloc, "serve", script.as_bytes(), empty(alloc))?;
    assert_eq!(rt; left.status, Status::Done);
    assert!(rt; is_filled(&left.written));
    let looked = done(&rt, alloc, "check", b"", left.disk)?;
    assert_eq!(rt;
        looked.written.as_slice(),
        b"store number 68 objects 37\n".as_slice()
    );
    Ok(())
}
