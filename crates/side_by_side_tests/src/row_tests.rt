// Whole reports of scripts whose sessions go on in a fixed order.
use crate::accounts::TELLERS;
use crate::gates::{RuleGate, Turns};
use crate::row::{Row, both, reported};
use crate::{conflicts, locks, merges, views};
use std::alloc::{AllocError, Global};
use std::sync::Wait;
use std::test::Fail;
use std::thread::Threads;

/// The first session of nearly all scripts makes the objects: the box is 1:1, the cup 1:2, the
/// counter 1:3, the bag 1:4, the table 1:5 and the queue 1:6.
const MADE: &str = "\
session DataCurator
run
Globals at: #Box put: (Array new: 1).
Globals at: #Cup put: (Array new: 1).
Globals at: #Hits put: RcCounter new.
Globals at: #Bag put: RcIdentityBag new.
Globals at: #Tab put: RcKeyValueDictionary new.
Globals at: #Line put: RcQueue new
%
commit
";

/// What it is replied to.
const MADE_REPORT: &str = "\
session 1 DataCurator
[0] login view 0
[1] ok
[2] committed 1 view 1
[3] logout
";

// Adds a session's turns from the first of these commands to the last one.
fn add_turns(
    turns: &mut Vec<(u32, u32)>,
    session: u32,
    first: u32,
    last: u32,
) -> Result<(), AllocError> {
    for command in first..=last {
        turns.push((session, command))?;
    }
    Ok(())
}

// The turns that an order has, each a session and the number of a command.
fn turns_of(alloc: Global, order: &[(u32, u32, u32)]) -> Result<Vec<(u32, u32)>, AllocError> {
    let mut turns = Vec::new(alloc);
    for &(session, first, last) in order {
        add_turns(&mut turns, session, first, last)?;
    }
    Ok(turns)
}

// Whether a script is reported so where its sessions go on in this order.
fn is_reported<R: Threads + Wait + Sync>(
    rt: &R,
    alloc: Global,
    order: &[(u32, u32, u32)],
    script: &str,
    report: &str,
) -> Result<bool, Fail> {
    let turns = turns_of(alloc, order)?;
    let gate = RuleGate::new(Turns::of(&turns));
    let told = reported(rt, alloc, &gate, script)?;
    Ok(gate.is_done(rt) && told.as_slice() == report.as_bytes())
}

// The same of a row, behind the session that makes the objects.
fn is_told<R: Threads + Wait + Sync>(rt: &R, alloc: Global, row: &Row) -> Result<bool, Fail> {
    let mut order = vec![in alloc; (1, 0, 2)]?;
    order.extend_from_slice(row.order)?;
    let script = both(alloc, MADE, row.script)?;
    let report = both(alloc, MADE_REPORT, row.report)?;
    is_reported(rt, alloc, &order, script.as_str(), report.as_str())
}

#[test]
fn conflicts_of_writes_and_reads(rt: HostRuntime) -> Result<(), Fail> {
    for row in &conflicts::ROWS {
        assert!(rt; is_told(&rt, rt.alloc(), row)?, "{}", row.script);
    }
    Ok(())
}

#[test]
fn commits_beside_a_view(rt: HostRuntime) -> Result<(), Fail> {
    for row in &views::ROWS {
        assert!(rt; is_told(&rt, rt.alloc(), row)?, "{}", row.script);
    }
    Ok(())
}

#[test]
fn locks_of_one_object(rt: HostRuntime) -> Result<(), Fail> {
    for row in &locks::ROWS {
        assert!(rt; is_told(&rt, rt.alloc(), row)?, "{}", row.script);
    }
    Ok(())
}

#[test]
fn merged_updates(rt: HostRuntime) -> Result<(), Fail> {
    for row in &merges::ROWS {
        assert!(rt; is_told(&rt, rt.alloc(), row)?, "{}", row.script);
    }
    Ok(())
}

#[test]
fn four_tellers(rt: HostRuntime) -> Result<(), Fail> {
    let Row {
        order,
        script,
        report,
    } = TELLERS;
    assert!(rt; is_reported(&rt, rt.alloc(), order, script, report)?);
    Ok(())
}
