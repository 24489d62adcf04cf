// What commands are replied to, on the image of the kernel.
ghost use Rattle.std.specs.Prelude.{◌≡◌, ◌<◌, ◌≤◌, ◌^◌};

use chunk_tables::{
    ANY, BLOCKS, CLASSES, DICTIONARIES, FORMS, LIMITS, NAMES_LEFT, NUMBERS, RIGHTS, SCRIPTS,
    SEQUENCES, SHARED, STRINGS, note, told,
};
use gem_object::Text;
use kernel_state::{Begins, begin};
use plain_state::PlainState;
use radix_pages::Steps;
use st_commands::install_source;
use st_plain::run_text;
use std::alloc::{AllocError, Global};
use std::marker::Brand;
use std::sync::ledger::{Blank, Ledger};
use std::test::Fail;
use std::thread;
use std::thread::Builder;

/// The bytes of stack of a thread that runs chunks: 2,000 activations fill 14 to 34 MiB.
const STACK: usize = 256 << 20;

/// What a chunk is replied to whose value is printed.
fn reply_to<S: Begins>(alloc: Global, state: &mut S, chunk: &str) -> Result<Vec<u8>, AllocError> {
    state.begin_chunk();
    let text = Text::copy_of(alloc, chunk.as_bytes())?;
    let reply = run_text(alloc, state, true, &text)?;
    told(alloc, &reply)
}

/// Whether the chunk is replied to so, on a state of its own.
fn replies<S: Begins, L: Ledger>(
    alloc: Global,
    chunk: &str,
    wanted: &str,
    steps: &mut Steps<L>,
) -> Result<bool, AllocError> {
    let mut state = begin::<S, L>(alloc, 1, steps)?;
    Ok(reply_to(alloc, &mut state, chunk)?.as_slice() == wanted.as_bytes())
}

/// Whether a row, a chunk and what is wanted, is replied to so.
fn row_replies<S: Begins, L: Ledger>(
    alloc: Global,
    row: &str,
    steps: &mut Steps<L>,
) -> Result<bool, AllocError> {
    match row.split_once(" => ") {
        Some((chunk, wanted)) => replies::<S, L>(alloc, chunk, wanted, steps),
        None => Ok(false),
    }
}

/// Runs each of these chunks on a state of its own. Those that aren't replied to as they should be
/// are noted.
fn check_rows<S: Begins, L: Ledger>(
    alloc: Global,
    rows: &str,
    steps: &mut Steps<L>,
    wrong: &mut String,
) -> Result<(), AllocError> {
    for row in rows.lines() {
        if !row_replies::<S, L>(alloc, row, steps)? {
            note(wrong, row)?;
        }
    }
    Ok(())
}

/// What one command of a script is replied to.
fn reply_to_command<S: Begins>(
    alloc: Global,
    state: &mut S,
    word: &str,
    rest: &str,
) -> Result<Vec<u8>, AllocError> {
    if word == "print" {
        return reply_to(alloc, state, rest);
    }
    state.begin_chunk();
    if word == "run" {
        let text = Text::copy_of(alloc, rest.as_bytes())?;
        let reply = run_text(alloc, state, false, &text)?;
        return told(alloc, &reply);
    }
    install(alloc, state, word == "class", rest)
}

/// What the installation of a method is replied to, of which class and source are given.
fn install<S: Begins>(
    alloc: Global,
    state: &mut S,
    class_side: bool,
    method: &str,
) -> Result<Vec<u8>, AllocError> {
    let Some((class, source)) = method.split_once(' ') else {
        return Vec::from_slice(alloc, b"no method");
    };
    let class = Text::copy_of(alloc, class.as_bytes())?;
    let source = Text::copy_of(alloc, source.as_bytes())?;
    let reply = install_source(alloc, state, class_side, &class, &source)?;
    told(alloc, &reply)
}

/// Whether a line of a script, a command and what is wanted, is replied to so.
fn line_replies<S: Begins>(alloc: Global, state: &mut S, line: &str) -> Result<bool, AllocError> {
    let Some((command, wanted)) = line.split_once(" => ") else {
        return Ok(false);
    };
    let Some((word, rest)) = command.split_once(' ') else {
        return Ok(false);
    };
    Ok(reply_to_command(alloc, state, word, rest)?.as_slice() == wanted.as_bytes())
}

/// Runs scripts: each begins after an empty line.
fn check_scripts<S: Begins, L: Ledger>(
    alloc: Global,
    scripts: &str,
    steps: &mut Steps<L>,
    wrong: &mut String,
) -> Result<(), AllocError> {
    let mut state = begin::<S, L>(alloc, 1, steps)?;
    for line in scripts.lines() {
        if line.is_empty() {
            state = begin::<S, L>(alloc, 1, steps)?;
            continue;
        }
        if !line_replies(alloc, &mut state, line)? {
            note(wrong, line)?;
        }
    }
    Ok(())
}

/// What is written on the transcript.
fn check_transcript<S: Begins, L: Ledger>(
    alloc: Global,
    steps: &mut Steps<L>,
    wrong: &mut String,
) -> Result<(), AllocError> {
    let mut state = begin::<S, L>(alloc, 1, steps)?;
    let chunk = "Transcript show: 'ab' , 'c'; cr; show: 3 printString. 7";
    let reply = reply_to(alloc, &mut state, chunk)?;
    if reply.as_slice() == b"7".as_slice() && state.transcript() == b"abc\n3".as_slice() {
        return Ok(());
    }
    note(wrong, chunk)
}

/// What was written on the transcript stays there after an error.
fn check_kept_transcript<S: Begins, L: Ledger>(
    alloc: Global,
    steps: &mut Steps<L>,
    wrong: &mut String,
) -> Result<(), AllocError> {
    let mut state = begin::<S, L>(alloc, 1, steps)?;
    let chunk = "Transcript show: 'a'. 3 foo";
    let reply = reply_to(alloc, &mut state, chunk)?;
    let wanted = b"error E1 not understood: foo";
    if reply.as_slice() == wanted.as_slice() && state.transcript() == b"a".as_slice() {
        return Ok(());
    }
    note(wrong, chunk)
}

/// What is made where no more than two names are left.
fn check_names<S: Begins, L: Ledger>(
    alloc: Global,
    steps: &mut Steps<L>,
    wrong: &mut String,
) -> Result<(), AllocError> {
    let mut state = begin::<S, L>(alloc, (1 << 24) - 2, steps)?;
    for line in NAMES_LEFT.lines() {
        if !line_replies(alloc, &mut state, line)? {
            note(wrong, line)?;
        }
    }
    Ok(())
}

/// Runs the rows on what most chunks are about.
fn check_values<S: Begins, L: Ledger>(
    alloc: Global,
    steps: &mut Steps<L>,
    wrong: &mut String,
) -> Result<(), AllocError> {
    check_rows::<S, L>(alloc, ANY, steps, wrong)?;
    check_rows::<S, L>(alloc, NUMBERS, steps, wrong)?;
    check_rows::<S, L>(alloc, BLOCKS, steps, wrong)?;
    check_rows::<S, L>(alloc, SEQUENCES, steps, wrong)?;
    check_rows::<S, L>(alloc, STRINGS, steps, wrong)?;
    check_rows::<S, L>(alloc, FORMS, steps, wrong)
}

/// Runs the rows on the other objects, on rights and on limits.
fn check_objects<S: Begins, L: Ledger>(
    alloc: Global,
    steps: &mut Steps<L>,
    wrong: &mut String,
) -> Result<(), AllocError> {
    check_rows::<S, L>(alloc, CLASSES, steps, wrong)?;
    check_rows::<S, L>(alloc, DICTIONARIES, steps, wrong)?;
    check_rows::<S, L>(alloc, SHARED, steps, wrong)?;
    check_rows::<S, L>(alloc, RIGHTS, steps, wrong)?;
    check_rows::<S, L>(alloc, LIMITS, steps, wrong)
}

/// The rows that aren't replied to as they should be.
fn wrong_rows<S: Begins, L: Ledger>(alloc: Global, blank: Blank) -> Result<String, AllocError>
    requires name { blank.name ≡ L.name }
    requires parts { blank.parts ≡ L.parts }
    requires some_parts { 0 < L.parts }
{
    let mut steps = Steps::<L>::start(blank);
    let mut wrong = String::new(alloc);
    check_values::<S, L>(alloc, &mut steps, &mut wrong)?;
    check_objects::<S, L>(alloc, &mut steps, &mut wrong)?;
    Ok(wrong)
}

/// The lines of scripts that aren't replied to as they should be.
fn wrong_lines<S: Begins, L: Ledger>(alloc: Global, blank: Blank) -> Result<String, AllocError>
    requires name { blank.name ≡ L.name }
    requires parts { blank.parts ≡ L.parts }
    requires some_parts { 0 < L.parts }
{
    let mut steps = Steps::<L>::start(blank);
    let mut wrong = String::new(alloc);
    check_scripts::<S, L>(alloc, SCRIPTS, &mut steps, &mut wrong)?;
    check_transcript::<S, L>(alloc, &mut steps, &mut wrong)?;
    check_kept_transcript::<S, L>(alloc, &mut steps, &mut wrong)?;
    check_names::<S, L>(alloc, &mut steps, &mut wrong)?;
    Ok(wrong)
}

/// `wrong_rows` with steps that no other call counts.
fn rows_by_brand<S: Begins>(alloc: Global) -> Result<String, AllocError> {
    wrong_rows::<S, Brand>(alloc, Blank::new(1))
}

/// `wrong_lines` with steps that no other call counts.
fn lines_by_brand<S: Begins>(alloc: Global) -> Result<String, AllocError> {
    wrong_lines::<S, Brand>(alloc, Blank::new(1))
}

#[test]
fn rows(rt: HostRuntime) -> Result<(), Fail> {
    let wrong = thread::scope(thread::scope_env(), &rt, |scope| {
        let work = || rows_by_brand::<PlainState>(rt.alloc());
        match Builder::new().stack_size(STACK).spawn_scoped(scope, work) {
            Ok(child) => child.join(&rt),
            Err(_) => Err(AllocError),
        }
    })?;
    assert_eq!(rt; wrong.as_str(), "");
    Ok(())
}

#[test]
fn scripts(rt: HostRuntime) -> Result<(), Fail> {
    let wrong = thread::scope(thread::scope_env(), &rt, |scope| {
        let work = || lines_by_brand::<PlainState>(rt.alloc());
        match Builder::new().stack_size(STACK).spawn_scoped(scope, work) {
            Ok(child) => child.join(&rt),
            Err(_) => Err(AllocError),
        }
    })?;
    assert_eq!(rt; wrong.as_str(), "");
    Ok(())
}
