//! Runs all sessions of a script side by side.
ghost use Rattle.std.specs.Prelude.{◌≡◌, ◌≤◌, ◌+◌, ◌-◌, [], Some, IfOk, length};
ghost use Rattle.std.specs.List.{slice_get};
ghost use Rattle.std.specs.Vec.{vec_capacity};
ghost use Rattle.gem_clock.specs.Shown.{AreFirst, first_stamp};
ghost use Rattle.gem_meaning.specs.Legal.{AreTranscripts};
ghost use Rattle.script_run.specs.Workers.{Serves, IsStartedAt, HasEndedAt, HasToldAt, Each, told_all};

use crate::session::{SessionEnd, Started, end, start};
use gem_clock::Stamp;
use gem_io::Gate;
use gem_keeper::Keeper;
use gem_meaning::What;
use gem_replies::Transcript;
use shell_words::SessionScript;
use std::alloc::{AllocError, Global};
use std::sync::Wait;
use std::thread;
use std::thread::{Scope, Threads, scope_env};
use stone_shared::{Named, Settled, SharedStone};

// Starts the session of the stamp.
fn start_at<
    's,
    E,
    R: Wait + Sync,
    K: Keeper + Send + Drop + 'static,
    N: Named<K> + Send + Sync + 'static,
    G: Gate + Sync,
>(
    scope: &Scope<'s, E>,
    rt: &'s R,
    alloc: Global,
    shared: &'s SharedStone<K, N>,
    gate: &'s G,
    base: u32,
    sessions: &'s [SessionScript],
    index: usize,
    stamp: Stamp<What>,
) -> Started<K, N>
    requires serves { Serves N.opened base sessions.now }
    requires within { index + 1 ≤ length sessions.now }
    requires stamp { stamp ≡ first_stamp N.clock (index + 1) }
    ensures { IsStartedAt N.clock N.opened sessions.entry.now index result }
{
    let session = index as u32 + 1;
    let serial = base + index as u32;
    let script = &sessions[index];
    start(
        scope, rt, alloc, shared, gate, session, serial, script, stamp,
    )
}

// Starts the sessions of the stamps.
fn start_all<
    's,
    E,
    R: Wait + Sync,
    K: Keeper + Send + Drop + 'static,
    N: Named<K> + Send + Sync + 'static,
    G: Gate + Sync,
>(
    scope: &Scope<'s, E>,
    rt: &'s R,
    alloc: Global,
    shared: &'s SharedStone<K, N>,
    gate: &'s G,
    base: u32,
    sessions: &'s [SessionScript],
    stamps: Vec<Stamp<What>>,
    all: Vec<Started<K, N>>,
) -> Vec<Started<K, N>>
    requires serves { Serves N.opened base sessions.now }
    requires stamps { AreFirst N.clock (length sessions.now) stamps.items }
    requires empty { all.items ≡ [] }
    requires room { length sessions.now ≤ vec_capacity all }
    ensures count { length result.items ≡ length sessions.entry.now }
    ensures started { Each (IsStartedAt N.clock N.opened sessions.entry.now) result.items }
{
    let mut all = all;
    for stamp in stamps {
        let index = all.len();
        let started = start_at(scope, rt, alloc, shared, gate, base, sessions, index, stamp);
        let Ok(()) = all.push(started) else {
            unreachable!()
        };
    }
    all
}

// Waits for the ends of all sessions.
fn end_all<R: Threads + Wait, K: Keeper + Drop, N: Named<K>>(
    rt: &R,
    all: Vec<Started<K, N>>,
    ended: Vec<SessionEnd>,
    sessions: &[SessionScript],
) -> Vec<SessionEnd>
    requires count { length all.items ≡ length sessions.now }
    requires started { Each (IsStartedAt N.clock N.opened sessions.now) all.items }
    requires empty { ended.items ≡ [] }
    requires room { length sessions.now ≤ vec_capacity ended }
    ensures count { length result.items ≡ length sessions.now }
    ensures ended { Each (HasEndedAt N.clock N.opened sessions.now) result.items }
{
    let mut ended = ended;
    for started in all {
        let Ok(()) = ended.push(end(rt, started)) else {
            unreachable!()
        };
    }
    ended
}

/// Runs the sessions, each with the stamp that has its number, and waits for their ends.
pub(crate) fn run_all<
    R: Threads + Wait + Sync,
    K: Keeper + Send + Drop + 'static,
    N: Named<K> + Send + Sync + 'static,
    G: Gate + Sync,
>(
    rt: &R,
    alloc: Global,
    shared: &SharedStone<K, N>,
    gate: &G,
    base: u32,
    sessions: &[SessionScript],
    stamps: Vec<Stamp<What>>,
    all: Vec<Started<K, N>>,
    ended: Vec<SessionEnd>,
) -> Vec<SessionEnd>
    requires serves { Serves N.opened base sessions.now }
    requires stamps { AreFirst N.clock (length sessions.now) stamps.items }
    requires none_started { all.items ≡ [] }
    requires room_to_start { length sessions.now ≤ vec_capacity all }
    requires none_ended { ended.items ≡ [] }
    requires room_to_end { length sessions.now ≤ vec_capacity ended }
    ensures count { length result.items ≡ length sessions.now }
    ensures ended { Each (HasEndedAt N.clock N.opened sessions.now) result.items }
{
    thread::scope(
        scope_env(),
        rt,
        |scope| -> Vec<SessionEnd>
            requires { Serves N.opened base sessions.now
                × AreFirst N.clock (length sessions.now) stamps.items
                × (all.items ≡ []) × (length sessions.now ≤ vec_capacity all)
                × (ended.items ≡ []) × (length sessions.now ≤ vec_capacity ended) }
            ensures { (length result.items ≡ length sessions.entry.now)
                × Each (HasEndedAt N.clock N.opened sessions.entry.now) result.items }
        {
            let all = start_all(scope, rt, alloc, shared, gate, base, sessions, stamps, all);
            end_all(rt, all, ended, sessions)
        },
    )
}

// The session's stamp goes back to the Stone, and its transcript is judged by all events.
fn tell<K: Keeper + Drop, N: Named<K>>(
    settled: &mut Settled<K, N>,
    end: SessionEnd,
) -> Result<Transcript, AllocError>
    requires { end.stamp.clock ≡ N.clock }
    ensures same { settled.new ≡ settled.old }
    ensures told { (place : _) (sessions : _) →
        HasEndedAt N.clock N.opened sessions place end →
        IfOk result (HasToldAt (told_all N.opened settled.old) sessions place) }
{
    settled.meet(end.stamp);
    end.transcript
}

/// The transcripts of the sessions, judged by all events of the Stone.
pub(crate) fn gather<K: Keeper + Drop, N: Named<K>>(
    settled: &mut Settled<K, N>,
    ended: Vec<SessionEnd>,
    transcripts: Vec<Transcript>,
    sessions: &[SessionScript],
) -> Result<Vec<Transcript>, AllocError>
    requires serves { N.opened.script ≡ sessions.now }
    requires count { length ended.items ≡ length sessions.now }
    requires ended { Each (HasEndedAt N.clock N.opened sessions.now) ended.items }
    requires empty { transcripts.items ≡ [] }
    requires room { length sessions.now ≤ vec_capacity transcripts }
    ensures same { settled.new ≡ settled.old }
    ensures told { IfOk result (λ transcripts.
        AreTranscripts (told_all N.opened settled.old) 1 sessions.now transcripts.items) }
{
    let mut transcripts = transcripts;
    for end in ended {
        let transcript = tell(settled, end)?;
        let Ok(()) = transcripts.push(transcript) else {
            unreachable!()
        };
    }
    Ok(transcripts)
}
