// Locks of two sessions: what each call answers, and the events that it leaves.
ghost use Rattle.std.specs.Prelude.{◌≡◌, ◌<◌};
ghost use Rattle.stone_tests.specs.Setting.{IsReady};

use crate::setting::{BOX, CUP, checkpoint, lock, logout, name, opened, unlock};
use gem_keeper::MemKeeper;
use gem_meaning::What;
use lock_table::LockKind;
use radix_pages::Steps;
use std::alloc::Global;
use std::marker::Brand;
use std::process::Abort;
use std::sync::ledger::{Blank, Ledger};
use std::test::Fail;
use stone_core::{CheckAnswer, LockAnswer, Stone};

const READ: LockKind = LockKind::Read;

const WRITE: LockKind = LockKind::Write;

fn granted(kind: LockKind, changed: u64) -> LockAnswer {
    LockAnswer::Granted { kind, changed }
}

fn denied(holder: u32, kind: LockKind) -> LockAnswer {
    LockAnswer::Denied { holder, kind }
}

// Both may read, so neither may write while the other reads.
fn check_readers<R: Abort>(rt: &R, stone: &mut Stone<MemKeeper>)
    requires { IsReady stone.old.told }
    ensures { IsReady stone.new.told }
{
    assert_eq!(rt; lock(stone, 1, BOX, READ), granted(READ, 4));
    assert_eq!(rt; lock(stone, 2, BOX, WRITE), denied(1, READ));
    assert_eq!(rt; lock(stone, 2, BOX, READ), granted(READ, 4));
    assert_eq!(rt; lock(stone, 1, BOX, WRITE), denied(2, READ));
}

// Who gave a lock back holds it no longer; the other may write, and reads no less.
fn check_writer<R: Abort>(rt: &R, stone: &mut Stone<MemKeeper>)
    requires { IsReady stone.old.told }
    ensures { IsReady stone.new.told }
{
    assert!(rt; unlock(stone, 2, BOX));
    assert!(rt; !unlock(stone, 2, BOX));
    assert_eq!(rt; lock(stone, 1, BOX, WRITE), granted(WRITE, 4));
    assert_eq!(rt; lock(stone, 1, BOX, READ), granted(WRITE, 4));
    assert_eq!(rt; lock(stone, 2, BOX, READ), denied(1, WRITE));
}

// A session that ends gives all its locks back, once.
fn check_end<R: Abort>(rt: &R, stone: &mut Stone<MemKeeper>)
    requires { IsReady stone.old.told }
    ensures { IsReady stone.new.told }
{
    assert_eq!(rt; lock(stone, 1, CUP, READ), granted(READ, 4));
    assert!(rt; logout(stone, 1));
    assert!(rt; !logout(stone, 1));
    assert_eq!(rt; lock(stone, 2, CUP, WRITE), granted(WRITE, 4));
    assert_eq!(rt; lock(stone, 2, BOX, WRITE), granted(WRITE, 4));
}

// Each grant, each lock that was given back and the end of a session that held some is an event,
// and nothing else is.
fn check_events<R: Abort>(rt: &R, events: &[(u32, What)]) {
    let want = [
        (1, What::Held(name(BOX), READ)),
        (2, What::Held(name(BOX), READ)),
        (2, What::Dropped(name(BOX))),
        (1, What::Held(name(BOX), WRITE)),
        (1, What::Held(name(BOX), WRITE)),
        (1, What::Held(name(CUP), READ)),
        (1, What::Left),
        (2, What::Held(name(CUP), WRITE)),
        (2, What::Held(name(BOX), WRITE)),
    ];
    assert!(rt; events == &want[..]);
}

fn check_locks<R: Abort, L: Ledger>(rt: &R, alloc: Global, blank: Blank) -> Result<(), Fail>
    requires name { blank.name ≡ L.name }
    requires parts { blank.parts ≡ L.parts }
    requires some_parts { 0 < L.parts }
{
    let mut steps = Steps::<L>::start(blank);
    let mut stone = opened(alloc, 4, MemKeeper::new(), &mut steps)?;
    check_readers(rt, &mut stone);
    check_writer(rt, &mut stone);
    check_end(rt, &mut stone);
    let begun = stone.begin()?;
    assert_eq!(rt; begun.number, 4);
    assert_eq!(rt; begun.image.count(), 37);
    let closed = stone.close();
    check_events(rt, &closed.events);
    assert_eq!(rt; closed.history.len(), 0);
    Ok(())
}

#[test]
fn locks(rt: HostRuntime) -> Result<(), Fail> {
    check_locks::<HostRuntime, Brand>(&rt, rt.alloc(), Blank::new(1))
}

// Commit 1 made the box. Both sessions, whose views are at it, may read it.
fn check_both_read<R: Abort, L: Ledger>(
    rt: &R,
    alloc: Global,
    steps: &mut Steps<L>,
) -> Result<(), Fail> {
    let mut stone = opened(alloc, 1, MemKeeper::new(), steps)?;
    assert_eq!(rt; lock(&mut stone, 1, BOX, READ), granted(READ, 1));
    assert_eq!(rt; lock(&mut stone, 2, BOX, READ), granted(READ, 1));
    Ok(())
}

// Session 1 has changed the box by commit 2. Session 2, whose view is at commit 1, is told so when
// it locks it, and it holds the box until it ends.
fn check_dirty<R: Abort, L: Ledger>(
    rt: &R,
    alloc: Global,
    steps: &mut Steps<L>,
) -> Result<(), Fail> {
    let mut stone = opened(alloc, 2, MemKeeper::new(), steps)?;
    assert_eq!(rt; lock(&mut stone, 2, BOX, WRITE), granted(WRITE, 2));
    assert_eq!(rt; lock(&mut stone, 1, BOX, READ), denied(2, WRITE));
    assert!(rt; logout(&mut stone, 2));
    assert_eq!(rt; lock(&mut stone, 1, BOX, READ), granted(READ, 2));
    assert!(rt; unlock(&mut stone, 1, BOX));
    Ok(())
}

fn check_views<R: Abort, L: Ledger>(rt: &R, alloc: Global, blank: Blank) -> Result<(), Fail>
    requires name { blank.name ≡ L.name }
    requires parts { blank.parts ≡ L.parts }
    requires some_parts { 0 < L.parts }
{
    let mut steps = Steps::<L>::start(blank);
    check_both_read(rt, alloc, &mut steps)?;
    check_dirty(rt, alloc, &mut steps)
}

#[test]
fn locks_by_views(rt: HostRuntime) -> Result<(), Fail> {
    check_views::<HostRuntime, Brand>(&rt, rt.alloc(), Blank::new(1))
}

// A checkpoint stores the number that stands, as often as it is asked for, and leaves the locks.
fn check_checkpoints<R: Abort, L: Ledger>(rt: &R, alloc: Global, blank: Blank) -> Result<(), Fail>
    requires name { blank.name ≡ L.name }
    requires parts { blank.parts ≡ L.parts }
    requires some_parts { 0 < L.parts }
{
    let mut steps = Steps::<L>::start(blank);
    let mut stone = opened(alloc, 4, MemKeeper::new(), &mut steps)?;
    assert_eq!(rt; checkpoint(&mut stone, alloc, 2), CheckAnswer::Made(4));
    assert_eq!(rt; lock(&mut stone, 1, BOX, WRITE), granted(WRITE, 4));
    assert_eq!(rt; checkpoint(&mut stone, alloc, 2), CheckAnswer::Made(4));
    assert_eq!(rt; lock(&mut stone, 2, BOX, READ), denied(1, WRITE));
    let want = [
        (2, What::Checked),
        (1, What::Held(name(BOX), WRITE)),
        (2, What::Checked),
    ];
    assert!(rt; &stone.close().events[..] == &want[..]);
    Ok(())
}

#[test]
fn checkpoints(rt: HostRuntime) -> Result<(), Fail> {
    check_checkpoints::<HostRuntime, Brand>(&rt, rt.alloc(), Blank::new(1))
}
