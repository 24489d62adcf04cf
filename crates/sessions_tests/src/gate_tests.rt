// What a session tells its gate, and when: before and behind what it asks of its Stone.
use crate::keepers::opened;
use gem_io::Gate;
use gem_keeper::MemKeeper;
use gem_object::Oid;
use gem_record::TxnRecord;
use gem_session::run_session;
use lock_table::LockKind;
use shell_words::{Script, read_script};
use std::alloc::{AllocError, Global};
use std::marker::Brand;
use std::sync::ledger::Blank;
use std::sync::{Arc, Mutex, Wait};
use std::test::Fail;
use stone_core::{Begun, CheckAnswer, CommitAnswer, LockAnswer, StonePort};

// A call of the gate or of the Stone, with the session for which it is made.
#[derive(Clone, Copy, Debug, PartialEq, Eq)]
enum Step {
    // The gate is passed with this command.
    Pass(u32, u32),
    // The gate is told that the session has left.
    Left(u32),
    // A transaction begins, or would.
    Begin(u32),
    Commit(u32),
    Lock(u32),
    Unlock(u32),
    Checkpoint(u32),
    Logout(u32),
}

use Step::{Begin, Checkpoint, Commit, Left, Lock, Logout, Pass, Unlock};

// A gate that holds nobody, and notes how it is called, beside the calls of the Stone.
#[derive(Drop)]
struct Notes {
    steps: Mutex<Vec<Step>>,
}

impl Notes {
    fn new(alloc: Global) -> Notes {
        Notes {
            steps: Mutex::new(Vec::new(alloc)),
        }
    }

    // A step for which there is no memory is missed when all are compared.
    fn add<R: Wait>(&self, rt: &R, step: Step) {
        let _ = self.steps.lock(rt).push(step);
    }

    fn are<R: Wait>(&self, rt: &R, steps: &[Step]) -> bool {
        self.steps.lock(rt).as_slice() == steps
    }
}

impl Gate for Notes {
    fn pass<R: Wait>(&self, rt: &R, session: u32, command: u32) {
        self.add(rt, Pass(session, command));
    }

    fn left<R: Wait>(&self, rt: &R, session: u32) {
        self.add(rt, Left(session));
    }
}

// A port whose calls are noted, and for which memory runs out once so many transactions have begun.
#[derive(Drop)]
struct Noted<'a, R: Wait, P: StonePort + Drop> {
    port: P,
    rt: &'a R,
    notes: &'a Notes,
    begins: u32,
}

impl<'a, R: Wait, P: StonePort + Drop> StonePort for Noted<'a, R, P> {
    ghost state = { λ noted. P.state noted.port };

    fn begin(&mut self, session: u32) -> Result<Begun, AllocError> {
        self.notes.add(self.rt, Begin(session));
        let begun = self.port.begin(session);
        if self.begins == 0 {
            return Err(AllocError);
        }
        self.begins -= 1;
        begun
    }

    fn commit(&mut self, alloc: Global, done: &TxnRecord) -> CommitAnswer {
        self.notes.add(self.rt, Commit(done.session));
        self.port.commit(alloc, done)
    }

    fn lock(&mut self, session: u32, oid: Oid, kind: LockKind) -> LockAnswer {
        self.notes.add(self.rt, Lock(session));
        self.port.lock(session, oid, kind)
    }

    fn unlock(&mut self, session: u32, oid: Oid) -> bool {
        self.notes.add(self.rt, Unlock(session));
        self.port.unlock(session, oid)
    }

    fn checkpoint(&mut self, alloc: Global, session: u32) -> CheckAnswer {
        self.notes.add(self.rt, Checkpoint(session));
        self.port.checkpoint(alloc, session)
    }

    fn logout(&mut self, session: u32) {
        self.notes.add(self.rt, Logout(session));
        self.port.logout(session);
    }
}

// A script whose second session is run, and what is noted of it.
type Row = (&'static str, &'static [Step]);

const WITH_LOGOUT: Row = (
    "\
session DataCurator
session DataCurator
lock read Globals
run
3
%
unlock Globals
checkpoint
mode no_rw_checks
commit
abort
logout
",
    &[
        Pass(2, 0),
        Begin(2),
        Pass(2, 1),
        Lock(2),
        Pass(2, 2),
        Pass(2, 3),
        Unlock(2),
        Pass(2, 4),
        Checkpoint(2),
        Pass(2, 5),
        Pass(2, 6),
        Commit(2),
        Begin(2),
        Pass(2, 7),
        Begin(2),
        Pass(2, 8),
        Logout(2),
        Left(2),
    ],
);

const WITHOUT_LOGOUT: Row = (
    "\
session DataCurator
session DataCurator
run
3
%
commit
",
    &[
        Pass(2, 0),
        Begin(2),
        Pass(2, 1),
        Pass(2, 2),
        Commit(2),
        Begin(2),
        Pass(2, 3),
        Logout(2),
        Left(2),
    ],
);

const WITHOUT_COMMANDS: Row = (
    "\
session DataCurator
session DataCurator
",
    &[Pass(2, 0), Begin(2), Pass(2, 1), Logout(2), Left(2)],
);

const NOBODY: Row = (
    "\
session DataCurator
session Nobody
commit
lock read Globals
",
    &[
        Pass(2, 0),
        Begin(2),
        Pass(2, 1),
        Pass(2, 2),
        Pass(2, 3),
        Left(2),
    ],
);

const NOBODY_WITH_LOGOUT: Row = (
    "\
session DataCurator
session Nobody
commit
logout
",
    &[Pass(2, 0), Begin(2), Pass(2, 1), Pass(2, 2), Left(2)],
);

const SERVED: [Row; 5] = [
    WITH_LOGOUT,
    WITHOUT_LOGOUT,
    WITHOUT_COMMANDS,
    NOBODY,
    NOBODY_WITH_LOGOUT,
];

// A session that begins three transactions.
const THREE_BEGINS: &str = "\
session DataCurator
session DataCurator
run
3
%
abort
commit
";

// What is noted of it where none of them begins, where one does, and where two do.
const STARVED: [&[Step]; 3] = [
    &[Pass(2, 0), Begin(2), Logout(2), Left(2)],
    &[
        Pass(2, 0),
        Begin(2),
        Pass(2, 1),
        Pass(2, 2),
        Begin(2),
        Logout(2),
        Left(2),
    ],
    &[
        Pass(2, 0),
        Begin(2),
        Pass(2, 1),
        Pass(2, 2),
        Begin(2),
        Pass(2, 3),
        Commit(2),
        Begin(2),
        Logout(2),
        Left(2),
    ],
];

// Runs the second session of the script, of which so many transactions may begin; whether it came
// to its end.
fn ends<R: Wait>(
    rt: &R,
    alloc: Global,
    script: Script,
    notes: &Notes,
    begins: u32,
) -> Result<bool, AllocError> {
    let script = Arc::new(alloc, script)?;
    let sessions = script.sessions();
    let keeper = MemKeeper::new();
    let stone = opened::<MemKeeper, Brand>(alloc, script.clone()?, keeper, Blank::new(1))?;
    if sessions.len() < 2 {
        return Ok(false);
    }
    let mut port = Noted {
        port: stone,
        rt,
        notes,
        begins,
    };
    Ok(run_session(rt, alloc, &mut port, notes, 2, 2, &sessions[1]).is_ok())
}

// Whether just these steps are noted of the script's second session, and whether it came to its
// end.
fn is_noted<R: Wait>(
    rt: &R,
    alloc: Global,
    script: &str,
    begins: u32,
    steps: &[Step],
) -> Result<(bool, bool), Fail> {
    let Ok(script) = read_script(alloc, script.as_bytes()) else {
        return Err(Fail::new("it is no script"));
    };
    let notes = Notes::new(alloc);
    let ended = ends(rt, alloc, script, &notes, begins)?;
    Ok((notes.are(rt, steps), ended))
}

#[test]
fn gate_calls(rt: HostRuntime) -> Result<(), Fail> {
    let alloc = rt.alloc();
    for (script, steps) in SERVED {
        assert!(rt;
            is_noted(&rt, alloc, script, 9, steps)? == (true, true),
            "{script}"
        );
    }
    Ok(())
}

// Where memory runs out the gate isn't passed once more.
#[test]
fn gate_calls_without_memory(rt: HostRuntime) -> Result<(), Fail> {
    let alloc = rt.alloc();
    for (begins, steps) in STARVED.iter().enumerate() {
        let begins = begins as u32;
        let noted = is_noted(&rt, alloc, THREE_BEGINS, begins, steps)?;
        assert!(rt; noted == (true, false), "{begins}");
    }
    Ok(())
}
