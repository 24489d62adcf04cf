// Sessions that are at work at one time: none begins its second command before all have replied to
// their first one.
use crate::gates::{AllHere, RuleGate};
use crate::row::reported;
use std::alloc::{AllocError, Global};
use std::sync::Wait;
use std::test::Fail;
use std::thread::Threads;

// The same commands for each of so many sessions.
fn script_of(alloc: Global, count: u32, commands: &str) -> Result<String, AllocError> {
    let mut script = String::new(alloc);
    for _ in 0..count {
        script.push_str("session DataCurator\n")?;
        script.push_str(commands)?;
    }
    Ok(script)
}

// A report in which each of so many sessions is replied to so, behind its login, and nothing is
// committed.
fn report_of(alloc: Global, count: u32, replies: &str) -> Result<String, AllocError> {
    let mut report = String::new(alloc);
    for index in 0..count {
        let session = u64::from(index) + 1;
        let head = format!(in alloc; "session {session} DataCurator\n[0] login view 0\n")?;
        report.push_str(head.as_str())?;
        report.push_str(replies)?;
    }
    report.push_str("commits 0\n")?;
    Ok(report)
}

// Whether so many sessions of these commands are all at work before one goes on to its second
// command, and are replied to so.
fn are_together<R: Threads + Wait + Sync>(
    rt: &R,
    alloc: Global,
    count: u32,
    commands: &str,
    replies: &str,
) -> Result<bool, Fail> {
    let script = script_of(alloc, count, commands)?;
    let report = report_of(alloc, count, replies)?;
    let gate = RuleGate::new(AllHere { count, come: 0 });
    let told = reported(rt, alloc, &gate, script.as_str())?;
    Ok(gate.is_done(rt) && told.as_slice() == report.as_bytes())
}

const TWO_CHUNKS: &str = "printit\n3\n%\nprintit\n4\n%\n";

const TWO_VALUES: &str = "[1] 3\n[2] 4\n[3] logout\n";

#[test]
fn sessions_overlap(rt: HostRuntime) -> Result<(), Fail> {
    assert!(rt; are_together(&rt, rt.alloc(), 2, TWO_CHUNKS, TWO_VALUES)?);
    Ok(())
}

#[test]
fn sixteen_sessions_overlap(rt: HostRuntime) -> Result<(), Fail> {
    assert!(rt; are_together(&rt, rt.alloc(), 16, TWO_CHUNKS, TWO_VALUES)?);
    Ok(())
}

/// A chunk that is 1,990 activations deep: itself, and 1,989 of the method. At the ground it counts
/// for a while, so that the others come down meanwhile.
const DIVE: &str = "\
run
Object subclass: #Diver instVarNames: #() inDictionary: UserGlobals
%
method: Diver
dive: n
^n = 0 ifTrue: [1 to: 50000 do: [:i | i]. 'the ground'] ifFalse: [self dive: n - 1]
%
printit
Diver new dive: 1988
%
";

const DIVED: &str = "[1] ok\n[2] method dive:\n[3] 'the ground'\n[4] logout\n";

#[test]
fn sixteen_sessions_dive(rt: HostRuntime) -> Result<(), Fail> {
    assert!(rt; are_together(&rt, rt.alloc(), 16, DIVE, DIVED)?);
    Ok(())
}
