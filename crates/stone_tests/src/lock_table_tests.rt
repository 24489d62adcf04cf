// Requests in order, and locks that are given back.
use lock_table::{Asked, LockKind, Locks};
use std::process::Abort;

// Object 1:1, the first that session 1 made, and 1:2.
const BOX: u64 = 16_777_217;

const OTHER: u64 = 16_777_218;

const fn denied(holder: u32, kind: LockKind) -> Asked {
    Asked::Denied { holder, kind }
}

const READ: LockKind = LockKind::Read;

const WRITE: LockKind = LockKind::Write;

// Whether a session's request is answered so.
fn asks(locks: &mut Locks, session: u32, oid: u64, kind: LockKind, answer: Asked) -> bool {
    locks.request(session, oid, kind) == answer
}

fn check_box<R: Abort>(rt: &R, locks: &mut Locks) {
    // Two that read.
    assert!(rt; asks(locks, 3, BOX, READ, Asked::Granted(READ)));
    assert!(rt; asks(locks, 2, BOX, READ, Asked::Granted(READ)));
    // A write against two readers names the lowest of them, and not the session itself.
    assert!(rt; asks(locks, 1, BOX, WRITE, denied(2, READ)));
    assert!(rt; asks(locks, 2, BOX, WRITE, denied(3, READ)));
    assert!(rt; asks(locks, 3, BOX, WRITE, denied(2, READ)));
}

fn check_other<R: Abort>(rt: &R, locks: &mut Locks) {
    // Another object is free. Its session raises its kind and does not lower it.
    assert!(rt; asks(locks, 2, OTHER, READ, Asked::Granted(READ)));
    assert!(rt; asks(locks, 2, OTHER, WRITE, Asked::Granted(WRITE)));
    assert!(rt; asks(locks, 2, OTHER, READ, Asked::Granted(WRITE)));
    // Nobody else reads or writes it.
    assert!(rt; asks(locks, 1, OTHER, READ, denied(2, WRITE)));
    assert!(rt; asks(locks, 3, OTHER, WRITE, denied(2, WRITE)));
}

fn check_ends<R: Abort>(rt: &R, locks: &mut Locks) {
    // The ends of the ranges.
    assert!(rt; asks(locks, 0, u64::MAX, READ, Asked::Granted(READ)));
    assert!(rt; asks(locks, u32::MAX, u64::MAX, READ, Asked::Granted(READ)));
    assert!(rt; asks(locks, u32::MAX, u64::MAX, WRITE, denied(0, READ)));
    assert!(rt; asks(locks, 0, u64::MAX, WRITE, denied(u32::MAX, READ)));
}

// From these calls a caller's proof learns nothing of the locks, so it stays short.
fn denies(locks: &Locks, session: u32, oid: u64, kind: LockKind) -> Option<(u32, LockKind)> {
    locks.denies(session, oid, kind)
}

fn blocks(locks: &Locks, session: u32, oid: u64) -> Option<(u32, LockKind)> {
    locks.blocks(session, oid)
}

// Who stands in the way of a request, and how many locks there are.
fn check_held<R: Abort>(rt: &R, locks: &Locks) {
    assert_eq!(rt; denies(locks, 1, OTHER, READ), Some((2, WRITE)));
    assert_eq!(rt; denies(locks, 2, BOX, WRITE), Some((3, READ)));
    assert_eq!(rt; denies(locks, 1, BOX, READ), None);
    assert_eq!(rt; locks.count(), 5);
    assert_eq!(rt; blocks(locks, 1, BOX), Some((2, READ)));
    assert_eq!(rt; blocks(locks, 2, BOX), Some((3, READ)));
    assert_eq!(rt; blocks(locks, 2, OTHER), None);
    assert_eq!(rt; blocks(locks, 3, OTHER), Some((2, WRITE)));
}

// Gives a session's lock on an object back, and all of them.
fn release(locks: &mut Locks, session: u32, oid: u64) -> bool {
    locks.release(session, oid)
}

fn release_all(locks: &mut Locks, session: u32) -> bool {
    locks.release_all(session)
}

#[test]
fn answers_requests(rt: HostRuntime) {
    let mut locks = Locks::new(rt.alloc());
    check_box(&rt, &mut locks);
    check_other(&rt, &mut locks);
    check_ends(&rt, &mut locks);
    check_held(&rt, &locks);
}

// The second session writes, and the first is denied until it has left.
fn check_writer<R: Abort>(rt: &R, locks: &mut Locks) {
    assert!(rt; asks(locks, 2, BOX, WRITE, Asked::Granted(WRITE)));
    assert!(rt; asks(locks, 1, BOX, READ, denied(2, WRITE)));
    assert!(rt; !release(locks, 1, BOX));
    assert!(rt; !release_all(locks, 1));
    assert!(rt; asks(locks, 1, BOX, READ, denied(2, WRITE)));
    assert!(rt; release_all(locks, 2));
    assert!(rt; !release_all(locks, 2));
    assert!(rt; asks(locks, 1, BOX, READ, Asked::Granted(READ)));
}

// One session's lock goes, and then all of one's; the others' stay.
fn check_readers<R: Abort>(rt: &R, locks: &mut Locks) {
    assert!(rt; asks(locks, 2, BOX, READ, Asked::Granted(READ)));
    assert!(rt; asks(locks, 3, BOX, READ, Asked::Granted(READ)));
    assert!(rt; release(locks, 1, BOX));
    assert!(rt; !release(locks, 1, BOX));
    assert_eq!(rt; blocks(locks, 1, BOX), Some((2, READ)));
    assert!(rt; release_all(locks, 2));
    assert_eq!(rt; blocks(locks, 1, BOX), Some((3, READ)));
}

#[test]
fn gives_locks_back(rt: HostRuntime) {
    let mut locks = Locks::new(rt.alloc());
    check_writer(&rt, &mut locks);
    check_readers(&rt, &mut locks);
}
