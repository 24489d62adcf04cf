//! Runs one session in a thread of its own.
ghost use Rattle.std.specs.Prelude.{◌≡◌};
ghost use Rattle.shell_words.specs.Script.{SessionCommands};
ghost use Rattle.gem_clock.specs.Shown.{first_stamp};
ghost use Rattle.gem_session.specs.Running.{Arrives};
ghost use Rattle.stone_shared.specs.Shared.{port_at};
ghost use Rattle.script_run.specs.Workers.{HasEnded, IsStarted};

use core::thread::Stack;
use gem_clock::Stamp;
use gem_io::Gate;
use gem_keeper::Keeper;
use gem_meaning::What;
use gem_replies::Transcript;
use gem_session::run_session;
use shell_words::SessionScript;
use std::alloc::{AllocError, Global};
use std::marker::PhantomData;
use std::snapshot::Snapshot;
use std::sync::Wait;
use std::thread::{Promise, PromisedHandle, Scope, Threads};
use stone_shared::{Named, SharedStone};

// The bytes of stack of a thread in which a session runs. They take memory only as they are used. No
// script was found that takes more than 20 MB; which text takes most isn't known.
const STACK: usize = 256 << 20;

/// What a session leaves: its stamp, with all that it had seen, and what it replied, or that memory
/// ran out.
#[derive(Drop)]
pub(crate) struct SessionEnd {
    pub stamp: Stamp<What>,
    pub transcript: Result<Transcript, AllocError>,
}

/// What the thread of the session with this number and this script gives.
#[derive(Drop)]
pub(crate) struct RunsSession<K, N: Named<K>> {
    session: u32,
    script: Snapshot<SessionScript>,
    of: PhantomData<(K, N)>,
}

impl<K, N: Named<K>> Promise<SessionEnd> for RunsSession<K, N> {
    ghost use Rattle.script_run.specs.Workers.{HasEnded};

    ghost kept_by = { λ promise end.
        HasEnded N.clock N.opened promise.session promise.script.value end };
}

/// A session that was started: it runs in a thread, or, where none could be made, it has run in the
/// calling one.
#[derive(Drop)]
pub(crate) enum Started<K, N: Named<K>> {
    Running(PromisedHandle<SessionEnd, RunsSession<K, N>>),
    Here(SessionEnd),
}

// Runs the session of the stamp to its end.
fn work<R: Wait, K: Keeper + Drop, N: Named<K>, G: Gate>(
    rt: &R,
    alloc: Global,
    shared: &SharedStone<K, N>,
    gate: &G,
    session: u32,
    serial: u32,
    script: &SessionScript,
    stamp: Stamp<What>,
) -> SessionEnd
    requires stamp { stamp ≡ first_stamp N.clock session }
    requires arrives { Arrives (port_at N.opened stamp) session serial script.now }
    ensures { HasEnded N.clock N.opened session script.now result }
{
    let mut port = shared.port(rt, stamp);
    let transcript = run_session(rt, alloc, &mut port, gate, session, serial, script);
    SessionEnd {
        stamp: port.end(),
        transcript,
    }
}

/// Starts the session of the stamp in a thread of the scope.
pub(crate) fn start<
    's,
    E,
    R: Wait + Sync,
    K: Keeper + Send + Drop + 'static,
    N: Named<K> + Send + Sync + 'static,
    G: Gate + Sync,
>(
    scope: &Scope<'s, E>,
    rt: &'s R,
    alloc: Global,
    shared: &'s SharedStone<K, N>,
    gate: &'s G,
    session: u32,
    serial: u32,
    script: &'s SessionScript,
    stamp: Stamp<What>,
) -> Started<K, N>
    requires stamp { stamp ≡ first_stamp N.clock session }
    requires arrives { Arrives (port_at N.opened stamp) session serial script.now }
    ensures { IsStarted N.clock N.opened session script.entry.now result }
{
    let promise = RunsSession::<K, N> {
        session,
        script: Snapshot::of(script),
        of: PhantomData,
    };
    let job = move || -> SessionEnd
        requires { (stamp ≡ first_stamp N.clock session)
            × Arrives (port_at N.opened stamp) session serial script.now }
        ensures { HasEnded N.clock N.opened session script.entry.now result }
    { work(rt, alloc, shared, gate, session, serial, script, stamp) };
    let stack = Stack::new().stack_size(STACK);
    match stack.spawn_scoped_with(scope, promise, job) {
        Ok(child) => Started::Running(child),
        Err(refused) => Started::Here((refused.value)()),
    }
}

/// Waits for the session's end.
pub(crate) fn end<R: Threads + Wait, K, N: Named<K>>(rt: &R, started: Started<K, N>) -> SessionEnd
    ensures { (session : _) (script : SessionCommands) →
        IsStarted N.clock N.opened session script started →
        HasEnded N.clock N.opened session script result }
{
    match started {
        Started::Running(child) => child.join(rt),
        Started::Here(end) => end,
    }
}
