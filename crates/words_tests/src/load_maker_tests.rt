//! The scripts of a load, whole, and that each of them is a script.
use load_maker::{
    LOAD_ROUND_LIMIT, LOAD_SEED_LIMIT, LOAD_SESSION_LIMIT, load_script, load_sum, setup_script,
    tally_script,
};
use shell_words::{Script, ScriptFault, read_script};
use std::alloc::{AllocError, Global};
use std::test::Fail;

// The load of seed 7 with two sessions of two rounds, whose numbers were computed by hand.
const LOAD: &[u8] = b"session DataCurator\n\
run\nHits incrementBy: 8. Names add: #n8\n%\ncommit\n\
run\nHits incrementBy: 6. Names add: #n6\n%\ncommit\n\
session DataCurator\n\
run\nHits incrementBy: 6. Names add: #n6\n%\ncommit\n\
run\nHits incrementBy: 4. Names add: #n4\n%\ncommit\n";

const SETUP: &[u8] = b"session DataCurator\nrun\n\
Globals at: #Hits put: RcCounter new. Globals at: #Names put: RcIdentityBag new\n%\ncommit\n";

const TALLY: &[u8] = b"session DataCurator\nprintit\nHits value\n%\nprintit\nNames size\n%\n";

fn is_load(alloc: Global) -> Result<bool, AllocError> {
    Ok(load_script(alloc, 7, 2, 2)?.as_slice() == LOAD)
}

fn are_setup_and_tally(alloc: Global) -> Result<bool, AllocError> {
    let setup = setup_script(alloc)?;
    let tally = tally_script(alloc)?;
    Ok(setup.as_slice() == SETUP && tally.as_slice() == TALLY)
}

#[test]
fn makes_the_whole_scripts(rt: HostRuntime) -> Result<(), Fail> {
    let alloc = rt.alloc();
    assert!(rt; is_load(alloc)?);
    assert!(rt; are_setup_and_tally(alloc)?);
    Ok(())
}

// The numbers of seed 1, of two sessions of four rounds each. They were computed outside, from the
// generator's rule.
const NUMBERS: [[u8; 4]; 2] = [*b"9872", *b"2374"];

fn push_round(text: &mut Vec<u8>, digit: u8) -> Result<(), AllocError> {
    text.extend_from_slice(b"run\nHits incrementBy: ")?;
    text.push(digit)?;
    text.extend_from_slice(b". Names add: #n")?;
    text.push(digit)?;
    text.extend_from_slice(b"\n%\ncommit\n")
}

fn script_of_numbers(alloc: Global) -> Result<Vec<u8>, AllocError> {
    let mut text = Vec::new(alloc);
    for session in &NUMBERS {
        text.extend_from_slice(b"session DataCurator\n")?;
        for digit in session {
            push_round(&mut text, *digit)?;
        }
    }
    Ok(text)
}

#[test]
fn numbers_in_their_order(rt: HostRuntime) -> Result<(), Fail> {
    let alloc = rt.alloc();
    let load = load_script(alloc, 1, 2, 4)?;
    let expected = script_of_numbers(alloc)?;
    assert!(rt; load.as_slice() == expected.as_slice());
    Ok(())
}

// The numbers were computed outside, from the generator's rule.
#[test]
fn sums_of_loads(rt: HostRuntime) -> Result<(), Fail> {
    assert_eq!(rt; load_sum(1, 2, 4), 42);
    assert_eq!(rt; load_sum(7, 16, 50), 4047);
    assert_eq!(rt; load_sum(LOAD_SEED_LIMIT, 1, 1), 9);
    Ok(())
}

// Whether the script has so many sessions, each of so many commands.
fn has_sessions(script: &Script, sessions: usize, commands: usize) -> bool {
    script.sessions().len() == sessions
        && script
            .sessions()
            .iter()
            .all(|session| session.commands().len() == commands)
}

fn is_read(
    alloc: Global,
    text: &[u8],
    sessions: usize,
    commands: usize,
) -> Result<bool, ScriptFault> {
    let script = read_script(alloc, text)?;
    Ok(has_sessions(&script, sessions, commands))
}

fn is_setup_read(alloc: Global) -> Result<bool, ScriptFault> {
    is_read(alloc, setup_script(alloc)?.as_slice(), 1, 2)
}

fn is_tally_read(alloc: Global) -> Result<bool, ScriptFault> {
    is_read(alloc, tally_script(alloc)?.as_slice(), 1, 2)
}

fn is_small_load_read(alloc: Global) -> Result<bool, ScriptFault> {
    is_read(alloc, load_script(alloc, 0, 1, 1)?.as_slice(), 1, 2)
}

fn is_largest_load_read(alloc: Global) -> Result<bool, ScriptFault> {
    let script = load_script(alloc, LOAD_SEED_LIMIT, LOAD_SESSION_LIMIT, LOAD_ROUND_LIMIT)?;
    is_read(alloc, script.as_slice(), 16, 2_000)
}

#[test]
fn makes_scripts_that_are_read(rt: HostRuntime) -> Result<(), Fail> {
    let alloc = rt.alloc();
    assert!(rt; is_setup_read(alloc)?);
    assert!(rt; is_tally_read(alloc)?);
    assert!(rt; is_small_load_read(alloc)?);
    Ok(())
}

// Without the optimizer, as `rt try` runs it, this takes minutes.
#[test]
fn makes_a_largest_load_that_is_read(rt: HostRuntime) -> Result<(), Fail> {
    assert!(rt; is_largest_load_read(rt.alloc())?);
    Ok(())
}
