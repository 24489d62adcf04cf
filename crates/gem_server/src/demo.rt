//! Serves a generated load over a disk of its own.
ghost use Rattle.std.specs.Prelude.{◌≡◌, ◌+◌, ◌*◌, ◌≤◌, [], string_bytes, IfOk};
ghost use Rattle.gem_disk.specs.Disk.{as_read};
ghost use Rattle.load_maker.specs.Numbers.{load_sum};
ghost use Rattle.load_maker.specs.Scripts.{setup_text, load_text};
ghost use Rattle.gem_server.specs.Devices.{seen};
ghost use Rattle.gem_server.specs.Demo.{IsLoad, demo_lines, IsServedLoad, Demos};
ghost use Rattle.std.specs.List.{list_all};
ghost use Rattle.gem_meaning.specs.Legal.{AlwaysServed};
ghost use Rattle.gem_server.specs.DemoParts.{IsPart, is_served_line, are_served};

use crate::output::write_out;
use crate::serving::serve_store;
use crate::status::{Ended, Events, Status};
use gem_disk::MemDisk;
use gem_io::{Gate, MemSink, MemSource, OpenGate, Sink};
use gem_replies::{Line, Reply, RunBook, Transcript};
use load_maker::{load_script, load_sum, setup_script, tally_script};
use std::alloc::{AllocError, Global};
use std::sync::Wait;
use std::thread::Threads;

/// Which load is to be served.
#[derive(Clone, Copy, Debug)]
pub(crate) struct Load {
    /// What its numbers come from.
    pub seed: u32,
    /// How many sessions it has.
    pub sessions: u32,
    /// How many rounds each of these has.
    pub rounds: u32,
}

// What a script leaves that was served whole.
#[derive(Drop)]
struct Part {
    book: RunBook,
    events: Events,
    disk: MemDisk,
}

/// Serves the load between its set-up and its tally, all three over one disk in memory, and writes to
/// the sink what came of it. The disk that is handed in is only handed back.
///
/// Where a session or a disk in memory found no memory, or there was none for a script, a report or the
/// lines, the status is `NoMemory`. That the set-up commits once, the load once in each round, and that
/// the tally prints what is written, follows from what their chunks mean.
pub(crate) fn serve_demo<R: Threads + Wait + Sync, K: Sink, D: Drop, G: Gate + Sync>(
    rt: &R,
    alloc: Global,
    load: Load,
    disk: D,
    gate: &G,
    sink: &mut K,
) -> Ended<D>
    requires { IsLoad load.seed load.sessions load.rounds }
    ensures demos { Demos load.seed load.sessions load.rounds
        (seen K.written K.faults sink.old sink.new)
        result.status result.events result.book }
    ensures disk { result.disk ≡ disk }
{
    let Ok((book, events)) = serve_parts(rt, alloc, load, gate) else {
        return Ended::blank(alloc, Status::NoMemory, disk);
    };
    let Ok(lines) = lines_of(alloc, load) else {
        return Ended::blank(alloc, Status::NoMemory, disk);
    };
    Ended {
        status: write_out(sink, lines.as_bytes()),
        book,
        events,
        disk,
    }
}

// Serves the set-up, the load and the tally, and gives the book and the events of the load.
fn serve_parts<R: Threads + Wait + Sync, G: Gate + Sync>(
    rt: &R,
    alloc: Global,
    load: Load,
    gate: &G,
) -> Result<(RunBook, Events), AllocError>
    requires { IsLoad load.seed load.sessions load.rounds }
    ensures { IfOk result (λ run. IsServedLoad load.seed load.sessions load.rounds
        run.1 run.0) }
{
    let setup = serve_setup(rt, alloc)?;
    let loaded = serve_load(rt, alloc, load, setup.disk, gate)?;
    let script = tally_script(alloc)?;
    serve_part(rt, alloc, script, loaded.disk, &OpenGate)?;
    Ok((loaded.book, loaded.events))
}

// Serves the set-up over an empty disk. It has one session, which no gate has to hold.
fn serve_setup<R: Threads + Wait + Sync>(rt: &R, alloc: Global) -> Result<Part, AllocError>
    ensures { IfOk result (IsPart setup_text (record { extent = []; log = [] })) }
{
    let script = setup_script(alloc)?;
    let disk = MemDisk::new(Vec::new(alloc), Vec::new(alloc));
    serve_part(rt, alloc, script, disk, &OpenGate)
}

// Serves the load over what the set-up left.
fn serve_load<R: Threads + Wait + Sync, G: Gate + Sync>(
    rt: &R,
    alloc: Global,
    load: Load,
    disk: MemDisk,
    gate: &G,
) -> Result<Part, AllocError>
    requires { IsLoad load.seed load.sessions load.rounds }
    ensures { IfOk result
        (IsPart (load_text load.seed load.sessions load.rounds) (as_read disk.past)) }
{
    let script = load_script(alloc, load.seed, load.sessions, load.rounds)?;
    serve_part(rt, alloc, script, disk, gate)
}

// Serves one script over a disk in memory.
fn serve_part<R: Threads + Wait + Sync, G: Gate + Sync>(
    rt: &R,
    alloc: Global,
    script: Vec<u8>,
    disk: MemDisk,
    gate: &G,
) -> Result<Part, AllocError>
    ensures { IfOk result (IsPart script.items (as_read disk.past)) }
{
    let mut source = MemSource::new(script, Vec::new(alloc));
    let mut report = MemSink::new(Vec::new(alloc));
    let ended = serve_store(rt, alloc, &mut source, disk, gate, &mut report);
    match ended.status {
        Status::Done => served_whole(Part {
            book: ended.book,
            events: ended.events,
            disk: ended.disk,
        }),
        _ => Err(AllocError),
    }
}

// The part, where no session found too little memory, and no disk in memory did.
fn served_whole(part: Part) -> Result<Part, AllocError>
    ensures same { IfOk result (λ it. it ≡ part) }
    ensures served { IfOk result (λ it. AlwaysServed it.book) }
{
    if !are_served(part.book.transcripts.as_slice()) {
        return Err(AllocError);
    }
    Ok(part)
}

fn are_served(transcripts: &[Transcript]) -> bool
    ensures { result ≡ are_served transcripts.now }
{
    transcripts
        .iter()
        .all(|transcript| are_done(transcript.replies.as_slice()))
}

fn are_done(replies: &[Reply]) -> bool
    ensures { result ≡ list_all (λ reply. is_served_line reply.line) replies.now }
{
    replies.iter().all(|reply| is_served(&reply.line))
}

fn is_served(line: &Line) -> bool
    ensures { result ≡ is_served_line line.now }
{
    !matches!(line, Line::NoMemory | Line::DiskFault)
}

// How often the load commits: once in each round.
fn load_commits(load: Load) -> u32
    requires { IsLoad load.seed load.sessions load.rounds }
    ensures is { result ≡ load.sessions * load.rounds }
    ensures bound { result ≤ 16000 }
{
    load.sessions * load.rounds
}

// What is written of the load.
fn lines_of(alloc: Global, load: Load) -> Result<String, AllocError>
    requires { IsLoad load.seed load.sessions load.rounds }
    ensures { IfOk result (λ lines. string_bytes lines ≡
        demo_lines load.seed load.sessions load.rounds) }
{
    let Load {
        seed,
        sessions,
        rounds,
    } = load;
    let bag = load_commits(load);
    let commits = 1 + bag;
    let counter = load_sum(seed, sessions, rounds);
    format!(in alloc;
        "demo seed {seed} sessions {sessions} rounds {rounds}\ncommits {commits}\n\
         counter {counter}\nbag {bag}\n"
    )
}
