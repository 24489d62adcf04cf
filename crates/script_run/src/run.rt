//! Runs the sessions of a script over an image and a keeper.
ghost use Rattle.std.specs.Prelude.{◌≡◌, ◌≤◌, [], Some, None, IsErr, IfOk, length};
ghost use Rattle.std.specs.Vec.{vec_capacity};
ghost use Rattle.gem_clock.specs.Shown.{AreFirst, first_pen};
ghost use Rattle.script_run.specs.Run.{opened_by, CanRun, HasRunOver};
ghost use Rattle.script_run.specs.Workers.{Serves};

use crate::session::{SessionEnd, Started};
use crate::together::{gather, run_all};
use gem_clock::{Clock, Pen, Stamp};
use gem_image::Image;
use gem_io::Gate;
use gem_keeper::Keeper;
use gem_meaning::What;
use gem_replies::Transcript;
use shell_words::{Script, SessionScript};
use std::alloc::{AllocError, Global};
use std::marker::Brand;
use std::sync::{Arc, Wait};
use std::thread::Threads;
use stone_core::{Closed, Stone};
use stone_shared::{Named, SharedStone};

/// What the sessions of a script start with.
#[derive(Drop)]
pub struct Start<K: Drop> {
    /// The image.
    pub image: Image,
    /// The number of commits in it.
    pub number: u64,
    /// The serial in the names that the first session draws. Each further session has the next one.
    pub base: u32,
    /// What commits are stored with.
    pub keeper: K,
}

/// What the sessions of a script leave.
#[derive(Drop)]
pub struct Ran<K: Drop> {
    /// What they replied, in the order of the script; or that memory ran out.
    pub transcripts: Result<Vec<Transcript>, AllocError>,
    /// The keeper, the commits and the events.
    pub closed: Closed<K>,
}

/// Runs the sessions of the script side by side, each in a thread that has stack for the deepest
/// chunks. Where none can be started for a session, it runs in the calling thread, before the next
/// ones are started.
///
/// The keeper always comes back, with what the Stone did; where memory ran out, without the
/// transcripts.
pub fn run_script<R: Threads + Wait + Sync, K: Keeper + Send + Drop + 'static, G: Gate + Sync>(
    rt: &R,
    alloc: Global,
    gate: &G,
    start: Start<K>,
    script: Script,
) -> Ran<K>
    requires { CanRun K.counts_pages K.stored K.ready K.tells K.moment K.stands K.left_since
        start script }
    ensures { HasRunOver K.stored K.ready K.faults K.tells K.moment K.stands K.left_since
        (opened_by K.counts_pages K.stored start script) start.keeper result }
{
    let Start {
        image,
        number,
        base,
        keeper,
    } = start;
    let Ok((script, shared)) = shared(alloc, script) else {
        return not_run(alloc, keeper);
    };
    match Stone::start(alloc, image, number, shared, keeper) {
        Ok(stone) => run_stone(rt, alloc, gate, stone, base, script.sessions()),
        Err(keeper) => not_run(alloc, keeper),
    }
}

// The script twice, without a copy.
fn shared(alloc: Global, script: Script) -> Result<(Arc<Script>, Arc<Script>), AllocError>
    ensures { IfOk result (λ both. (both.0.value ≡ script) × (both.1.value ≡ script)) }
{
    let script = Arc::new(alloc, script)?;
    let shared = script.clone()?;
    Ok((script, shared))
}

// What is left where memory ran out before there was a Stone.
fn not_run<K: Drop>(alloc: Global, keeper: K) -> Ran<K>
    ensures transcripts { IsErr result.transcripts }
    ensures keeper { result.closed.keeper ≡ keeper }
    ensures history { result.closed.history.items ≡ [] }
    ensures events { result.closed.events.items ≡ [] }
    ensures halted { result.closed.halted ≡ None }
{
    Ran {
        transcripts: Err(AllocError),
        closed: Closed {
            keeper,
            history: Vec::new(alloc),
            events: Vec::new(alloc),
            halted: None,
        },
    }
}

// What is left where memory ran out before the first session.
fn not_begun<K: Keeper + Drop>(stone: Stone<K>) -> Ran<K>
    ensures { HasRunOver K.stored K.ready K.faults K.tells K.moment K.stands K.left_since
        stone.told.opened stone.started result }
{
    Ran {
        transcripts: Err(AllocError),
        closed: stone.close(),
    }
}

// Runs the sessions of the Stone's script, and closes it.
fn run_stone<R: Threads + Wait + Sync, K: Keeper + Send + Drop + 'static, G: Gate + Sync>(
    rt: &R,
    alloc: Global,
    gate: &G,
    stone: Stone<K>,
    base: u32,
    sessions: &[SessionScript],
) -> Ran<K>
    requires serves { Serves stone.told.opened base sessions.now }
    requires begun { stone.told.events ≡ [] }
    ensures { HasRunOver K.stored K.ready K.faults K.tells K.moment K.stands K.left_since
        stone.told.opened stone.started result }
{
    let Ok((clock, pen, stamps)) = Clock::make(alloc, sessions.len() as u32) else {
        return not_begun(stone);
    };
    run_named::<R, K, Brand, G>(rt, alloc, gate, stone, clock, pen, stamps, base, sessions)
}

// The same, where the Stone and the clock have a name.
fn run_named<
    R: Threads + Wait + Sync,
    K: Keeper + Send + Drop + 'static,
    N: Named<K> + Send + Sync + 'static,
    G: Gate + Sync,
>(
    rt: &R,
    alloc: Global,
    gate: &G,
    stone: Stone<K>,
    clock: Clock<What>,
    pen: Pen<What>,
    stamps: Vec<Stamp<What>>,
    base: u32,
    sessions: &[SessionScript],
) -> Ran<K>
    requires opened { stone.told.opened ≡ N.opened }
    requires started { N.keeper ≡ Some stone.started }
    requires clock { clock ≡ N.clock }
    requires pen { pen ≡ first_pen N.clock }
    requires stamps { AreFirst N.clock (length sessions.now) stamps.items }
    requires serves { Serves N.opened base sessions.now }
    requires begun { stone.told.events ≡ [] }
    ensures { HasRunOver K.stored K.ready K.faults K.tells K.moment K.stands K.left_since
        stone.told.opened stone.started result }
{
    let Ok((all, ended, transcripts)) = reserve::<K, N>(alloc, sessions.len()) else {
        return not_begun(stone);
    };
    let shared = SharedStone::<K, N>::make(stone, clock, pen);
    let ended = run_all(rt, alloc, &shared, gate, base, sessions, stamps, all, ended);
    let mut settled = shared.settle();
    let transcripts = gather(&mut settled, ended, transcripts, sessions);
    Ran {
        transcripts,
        closed: settled.into_stone().close(),
    }
}

// Room for what so many sessions are and leave, so that no memory is taken for it once they run.
fn reserve<K: Keeper + Send + Drop + 'static, N: Named<K>>(
    alloc: Global,
    count: usize,
) -> Result<(Vec<Started<K, N>>, Vec<SessionEnd>, Vec<Transcript>), AllocError>
    ensures none { IfOk result (λ room. (room.0.items ≡ []) × (room.1.items ≡ []) × (room.2.items ≡ [])) }
    ensures room { IfOk result (λ room. (count ≤ vec_capacity room.0)
        × (count ≤ vec_capacity room.1) × (count ≤ vec_capacity room.2)) }
{
    Ok((
        Vec::with_capacity(alloc, count)?,
        Vec::with_capacity(alloc, count)?,
        Vec::with_capacity(alloc, count)?,
    ))
}
