// A Stone whose keeper's disk fails.
ghost use Rattle.std.specs.Prelude.{◌≡◌, ◌<◌};
ghost use Rattle.stone_tests.specs.Setting.{IsReady};

use crate::setting::{BOX, CUP, checkpoint, lock, logout, opened, unlock};
use gem_keeper::FailingKeeper;
use gem_meaning::What;
use lock_table::LockKind;
use radix_pages::Steps;
use std::alloc::Global;
use std::marker::Brand;
use std::process::Abort;
use std::sync::ledger::{Blank, Ledger};
use std::test::Fail;
use stone_core::{CheckAnswer, LockAnswer, Stone};

const READ: LockKind = LockKind::Read;

// The first checkpoint goes well, the second meets the failure, and then all are told of it.
fn check_checkpoints<R: Abort>(rt: &R, alloc: Global, stone: &mut Stone<FailingKeeper>)
    requires { IsReady stone.old.told }
    ensures { IsReady stone.new.told }
{
    assert_eq!(rt; checkpoint(stone, alloc, 1), CheckAnswer::Made(4));
    assert_eq!(rt; checkpoint(stone, alloc, 2), CheckAnswer::DiskFault);
    assert_eq!(rt; checkpoint(stone, alloc, 1), CheckAnswer::Halted(4));
    assert_eq!(rt; checkpoint(stone, alloc, 2), CheckAnswer::Halted(4));
}

// Locks go on, and so do reads.
fn check_others<R: Abort>(rt: &R, stone: &mut Stone<FailingKeeper>)
    requires { IsReady stone.old.told }
    ensures { IsReady stone.new.told }
{
    let granted = LockAnswer::Granted {
        kind: READ,
        changed: 4,
    };
    assert_eq!(rt; lock(stone, 1, BOX, READ), granted);
    assert_eq!(rt; lock(stone, 2, CUP, READ), granted);
    assert!(rt; unlock(stone, 1, BOX));
    assert!(rt; logout(stone, 2));
}

fn check_failing<R: Abort, L: Ledger>(rt: &R, alloc: Global, blank: Blank) -> Result<(), Fail>
    requires name { blank.name ≡ L.name }
    requires parts { blank.parts ≡ L.parts }
    requires some_parts { 0 < L.parts }
{
    let mut steps = Steps::<L>::start(blank);
    let mut stone = opened(alloc, 4, FailingKeeper::after(1), &mut steps)?;
    check_checkpoints(rt, alloc, &mut stone);
    check_others(rt, &mut stone);
    assert_eq!(rt; stone.begin()?.number, 4);
    let events = stone.close().events;
    assert_eq!(rt; events.len(), 6);
    assert!(rt; events[0] == (1, What::Checked));
    assert!(rt; events[1] == (2, What::Halted(4, None)));
    Ok(())
}

#[test]
fn failing_disk(rt: HostRuntime) -> Result<(), Fail> {
    check_failing::<HostRuntime, Brand>(&rt, rt.alloc(), Blank::new(1))
}
