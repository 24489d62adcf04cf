// Sessions whose order nobody fixes. What a run committed is done once more, by a single session
// and in the order of the commits: each transaction has to reply the same, and at the end the same
// has to stand.
use crate::gates::{AfterFirst, RuleGate};
use crate::row::served;
use gem_io::OpenGate;
use gem_replies::{Line, Reply, RunBook};
use std::alloc::{AllocError, Global};
use std::sync::Wait;
use std::test::Fail;
use std::thread::Threads;

const RUNS: u32 = 1_000;

/// The first session makes the objects, and the others work. Then each looks at what stands. Who
/// aborts last sees all that was committed.
const SESSIONS: u32 = 5;

const MAKING: [&str; 2] = [
    "run\n| box cup bag line |\n\
    box := Array new: 1. box at: 1 put: 0. Globals at: #Box put: box.\n\
    cup := Array new: 1. cup at: 1 put: 0. Globals at: #Cup put: cup.\n\
    bag := RcIdentityBag new. bag add: #y; add: #y. Globals at: #Bag put: bag.\n\
    line := RcQueue new. 1 to: 9 do: [:i | line add: i]. Globals at: #Line put: line.\n\
    Globals at: #Hits put: RcCounter new\n%\n",
    "commit\n",
];

/// How many commands a session works with. The last one is an abort.
const WORK: u32 = 20;

/// Those who work all begin with the box, so that all but one are refused. What was refused is
/// aborted.
const EVEN: [&str; 20] = [
    "printit\nBox at: 1 put: (Box at: 1) + 1\n%\n",
    "commit\n",
    "abort\n",
    "run\nHits increment. Bag add: #x. Line add: #even\n%\n",
    "commit\n",
    "abort\n",
    "printit\nLine remove\n%\n",
    "commit\n",
    "abort\n",
    "printit\nCup at: 1 put: (Box at: 1)\n%\n",
    "commit\n",
    "abort\n",
    "printit\nBag remove: #y\n%\n",
    "commit\n",
    "abort\n",
    "lock write Cup\n",
    "printit\nCup at: 1 put: (Cup at: 1) + 1\n%\n",
    "commit\n",
    "unlock Cup\n",
    "abort\n",
];

const ODD: [&str; 20] = [
    "printit\nBox at: 1 put: (Box at: 1) + 10\n%\n",
    "commit\n",
    "abort\n",
    "printit\nLine remove\n%\n",
    "commit\n",
    "abort\n",
    "lock read Box\n",
    "printit\nCup at: 1 put: (Box at: 1) + (Cup at: 1)\n%\n",
    "commit\n",
    "unlock Box\n",
    "abort\n",
    "run\nHits incrementBy: 5. Line add: #odd. Bag add: #x\n%\n",
    "commit\n",
    "abort\n",
    "printit\nBox at: 1 put: (Box at: 1) + 100\n%\n",
    "commit\n",
    "abort\n",
    "printit\nBag remove: #y\n%\n",
    "commit\n",
    "abort\n",
];

const LOOKING: [&str; 5] = [
    "printit\nBox at: 1\n%\n",
    "printit\nCup at: 1\n%\n",
    "printit\nHits value\n%\n",
    "printit\nBag asArray\n%\n",
    "printit\nLine asArray\n%\n",
];

const LOGIN: &str = "session DataCurator\n";

// What the session with this number does before it looks.
fn work_of(session: u32) -> &'static [&'static str] {
    match session {
        1 => &MAKING,
        _ if session % 2 == 0 => &EVEN,
        _ => &ODD,
    }
}

// Adds the session's commands from the first of these numbers to the last one.
fn add_commands(
    script: &mut String,
    session: u32,
    first: u32,
    last: u32,
) -> Result<(), AllocError> {
    let commands = work_of(session).iter().chain(&LOOKING);
    for (number, command) in (1..=last).zip(commands) {
        if number >= first {
            script.push_str(command)?;
        }
    }
    Ok(())
}

// The script of all sessions.
fn whole_script(alloc: Global) -> Result<String, AllocError> {
    let mut script = String::new(alloc);
    for session in 1..=SESSIONS {
        script.push_str(LOGIN)?;
        add_commands(&mut script, session, 1, u32::MAX)?;
    }
    Ok(script)
}

// The script of one session that does what was committed, in order, and then looks.
fn committed_script(alloc: Global, book: &RunBook) -> Result<String, AllocError> {
    let mut script = String::from_str(alloc, LOGIN)?;
    for entry in book.history.as_slice() {
        add_commands(
            &mut script,
            entry.session,
            entry.first_command,
            entry.last_command,
        )?;
    }
    add_commands(&mut script, 2, WORK + 1, u32::MAX)?;
    Ok(script)
}

// What a session replied, with its login and its logout.
fn replies_of(book: &RunBook, session: u32) -> &[Reply] {
    let index = (session as usize).saturating_sub(1);
    match book.transcripts.as_slice().get(index) {
        Some(transcript) => transcript.replies.as_slice(),
        None => &[],
    }
}

fn is_printed(line: &Line, text: &[u8]) -> bool {
    match line {
        Line::Printed(printed) => printed.bytes() == text,
        _ => false,
    }
}

fn is_commit(line: &Line, commit: u64) -> bool {
    match line {
        Line::Committed { number, .. } => *number == commit,
        _ => false,
    }
}

// Whether a command of a committed transaction was replied to so once more. Nobody else was there
// then, so a lock that was denied is granted.
fn is_same(told: &Line, again: &Line) -> bool {
    match told {
        Line::Ran => matches!(again, Line::Ran),
        Line::Printed(text) => is_printed(again, text.bytes()),
        Line::Committed { number, view } => view >= number && is_commit(again, *number),
        Line::Locked { .. } | Line::Denied { .. } => matches!(again, Line::Locked { .. }),
        Line::Logout => matches!(again, Line::Logout),
        _ => false,
    }
}

// The place behind the replies from this place on that say once more what was said to the commands
// from this first to this last one.
fn place_behind(
    again: &[Reply],
    place: usize,
    told: &[Reply],
    first: u32,
    last: u32,
) -> Option<usize> {
    let mut place = place;
    for reply in told {
        if first <= reply.command && reply.command <= last {
            let same = again.get(place)?;
            if !is_same(&reply.line, &same.line) {
                return None;
            }
            place = place.saturating_add(1);
        }
    }
    Some(place)
}

// The place behind those replies of the single session that say once more what was said to all that
// was committed.
fn place_behind_all(book: &RunBook, again: &[Reply]) -> Option<usize> {
    let mut place = 1;
    for entry in book.history.as_slice() {
        let told = replies_of(book, entry.session);
        let (first, last) = (entry.first_command, entry.last_command);
        place = place_behind(again, place, told, first, last)?;
    }
    Some(place)
}

// Whether the session had so many commits in its view when it had worked.
fn saw_all(replies: &[Reply], commits: usize) -> bool {
    replies.iter().any(|reply| match reply.line {
        Line::Aborted(view) => reply.command == WORK && view == commits as u64,
        _ => false,
    })
}

// Whether the single session replied to what was committed as those did who committed it, and found
// at the end what somebody found who saw all of it.
fn is_repeated(book: &RunBook, again: &[Reply]) -> bool {
    let Some(place) = place_behind_all(book, again) else {
        return false;
    };
    for session in 2..=SESSIONS {
        let told = replies_of(book, session);
        if saw_all(told, book.history.len()) {
            return place_behind(again, place, told, WORK + 1, u32::MAX) == Some(again.len());
        }
    }
    false
}

// How many replies say that a transaction was committed, and how many that it was refused.
fn count_commits(replies: &[Reply]) -> (usize, usize) {
    let committed = replies
        .iter()
        .filter(|reply| matches!(reply.line, Line::Committed { .. }))
        .count();
    let refused = replies
        .iter()
        .filter(|reply| matches!(reply.line, Line::Refused(_)))
        .count();
    (committed, refused)
}

// Whether all that was replied to as committed is in the history, and all but one were refused who
// wrote the box first.
fn is_counted(book: &RunBook) -> bool {
    let mut committed = 0usize;
    let mut refused = 0usize;
    for transcript in book.transcripts.as_slice() {
        let (more, worse) = count_commits(transcript.replies.as_slice());
        committed = committed.saturating_add(more);
        refused = refused.saturating_add(worse);
    }
    committed == book.history.len() && refused.saturating_add(2) >= SESSIONS as usize
}

// Whether a run is as it should be.
fn is_legal<R: Threads + Wait + Sync>(rt: &R, alloc: Global, script: &str) -> Result<bool, Fail> {
    let gate = RuleGate::new(AfterFirst {
        count: SESSIONS,
        come: 0,
        left: 0,
    });
    let run = served(rt, alloc, &gate, script)?;
    let committed = committed_script(alloc, &run.book)?;
    let again = served(rt, alloc, &OpenGate, committed.as_str())?;
    let is_repeated = is_repeated(&run.book, replies_of(&again.book, 1));
    Ok(gate.is_done(rt) && is_counted(&run.book) && is_repeated)
}

#[test]
fn runs_in_any_order(rt: HostRuntime) -> Result<(), Fail> {
    let alloc = rt.alloc();
    let script = whole_script(alloc)?;
    for run in 0..RUNS {
        assert!(rt; is_legal(&rt, alloc, script.as_str())?, "run {run}");
    }
    Ok(())
}
