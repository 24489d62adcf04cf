//! The top call.
ghost use Rattle.std.specs.Prelude.{◌≡◌, ◌↔◌, ◌⊎◌, ℕ, map, string_bytes};
ghost use Rattle.gem_server.specs.Devices.{seen};
ghost use Rattle.gem_server.specs.Server.{AsksAlone, AsksStore, AsksInit, AsksCheck, AsksDemo, AsksSome, IsBlank};
ghost use Rattle.gem_server.specs.Alone.{ServesAlone};
ghost use Rattle.gem_server.specs.Serving.{ServesStore};
ghost use Rattle.gem_server.specs.Looking.{Checks, Inits};
ghost use Rattle.gem_server.specs.Demo.{Demos};

use crate::alone::serve_alone;
use crate::demo::{Load, serve_demo};
use crate::looking::{check_store, init_store};
use crate::serving::serve_store;
use crate::status::{Ended, Status};
use gem_disk::Disk;
use gem_io::{Gate, Sink, Source};
use program_words::{Usage, Words, read_words};
use std::alloc::Global;
use std::sync::Wait;
use std::thread::Threads;

/// Does what the words of the command line ask for, which come without the program's own name. The
/// disk is that of the two files that they name; where they name none, it is only handed back. It
/// comes back whatever the status is.
///
/// - `serve`: serves the script that the source gives, over the kernel's image, and writes its
///   report to the sink. Nothing is stored.
/// - `serve EXTENT LOG`: the same over the store on the disk. Each commit is on the disk before its
///   session replies to it.
/// - `init EXTENT LOG`: makes a store of two empty files.
/// - `check EXTENT LOG`: opens the store. This and `init` write one line, which tells of the store.
/// - `demo --seed N --sessions S --rounds R`: serves a generated load over a disk in memory of its own,
///   between a set-up and a tally, and writes four lines: the load, how often it and its set-up
///   committed, the counter that it counted up, and the size of the bag that it filled. Neither the
///   source nor the disk is used.
///
/// The status says how it ended. It is tried in this order: the words, the script, the store, its
/// room for the sessions, the run, the sink.
///
/// - `Done`: the whole report, or the line or lines, were written.
/// - `Usage`: the words are none of these.
/// - `Script`: the text is no script. `line` is the first line that breaks a rule, counted from 1
///   (0: the text as a whole); `rule` is that rule.
/// - `NotStore`: the files are no store, for the first flaw of them. `init` says so only of files
///   that somebody else wrote meanwhile.
/// - `SerialsUsed`: the image of the store has no room for the sessions.
/// - `NotEmpty`: a store was to be made of files that aren't empty.
/// - `ReadFault`: the source failed.
/// - `DiskFault`: the disk failed. Where the sessions had run, the report was written, or a part of
///   it from the front where the sink failed, too.
/// - `WriteFault`: the sink failed, after a part of the report or the lines from the front.
/// - `NoMemory`: memory ran out before the first byte was written. With `demo` it is also the status
///   where a session replied `no memory`, or the disk in memory found none: where what was committed
///   or printed isn't what the lines would say.
///
/// Where sessions ran, the book has their transcripts and the commits, and the events are what
/// happened to the Stone; with `NoMemory` over a store the transcripts are missing, and without one
/// both are blank. Of a demo they are those of the load, with `Done` and `WriteFault`. Else both are
/// blank, but that with `SerialsUsed` the book of `serve` has the number and the base of the store.
///
/// The sessions of a script, or of a load, run side by side, each in a thread of its own, and pass the
/// gate: before the login, before each command, and before the logout. It may hold them, and so fix their order;
/// every order gives a legal run. Which of them comes to pass with an open gate isn't fixed.
///
/// Clauses on contents hold where source, sink and disk tell their contents to contracts; standard
/// input and output and real files don't.
pub fn gemstone<
    R: Threads + Wait + Sync,
    S: Source,
    K: Sink,
    D: Disk + Send + Drop + 'static,
    G: Gate + Sync,
>(
    rt: &R,
    alloc: Global,
    words: &[String],
    source: &mut S,
    disk: D,
    gate: &G,
    sink: &mut K,
) -> Ended<D>
    // The words.
    ensures usage { (result.status ≡ Status.Usage) ↔ (AsksSome (map string_bytes words.now) → ⊥) }
    ensures unused { (AsksSome (map string_bytes words.now) → ⊥) →
        (source.new ≡ source.old) × (sink.new ≡ sink.old) × (result.disk ≡ disk)
        × IsBlank result.events result.book }

    // What was asked for.
    ensures alone { AsksAlone (map string_bytes words.now) →
        ServesAlone (seen S.left S.faults source.old source.new)
        (seen K.written K.faults sink.old sink.new) result.status result.events result.book
        × (result.disk ≡ disk) }
    ensures store { AsksStore (map string_bytes words.now) →
        ServesStore D.tells (seen S.left S.faults source.old source.new)
        (seen K.written K.faults sink.old sink.new) (seen D.past D.faults disk result.disk)
        result.status result.events result.book }
    ensures init { AsksInit (map string_bytes words.now) →
        Inits D.tells (seen K.written K.faults sink.old sink.new)
        (seen D.past D.faults disk result.disk) result.status
        × (source.new ≡ source.old) × IsBlank result.events result.book }
    ensures check { AsksCheck (map string_bytes words.now) →
        Checks D.tells (seen K.written K.faults sink.old sink.new)
        (seen D.past D.faults disk result.disk) result.status
        × (source.new ≡ source.old) × IsBlank result.events result.book }
    ensures demo { (seed sessions rounds : ℕ) →
        AsksDemo (map string_bytes words.now) seed sessions rounds →
        Demos seed sessions rounds (seen K.written K.faults sink.old sink.new)
        result.status result.events result.book
        × (source.new ≡ source.old) × (result.disk ≡ disk) }
{
    match read_words(words) {
        Ok(Words::Serve(None)) => serve_alone(rt, alloc, source, disk, gate, sink),
        Ok(Words::Serve(Some(_))) => serve_store(rt, alloc, source, disk, gate, sink),
        Ok(Words::Init(_)) => init_store(alloc, disk, sink),
        Ok(Words::Check(_)) => check_store(alloc, disk, sink),
        Ok(
            Words::Demo {
                seed,
                sessions,
                rounds,
            },
        ) => {
            let load = Load {
                seed,
                sessions,
                rounds,
            };
            serve_demo(rt, alloc, load, disk, gate, sink)
        }
        Err(Usage) => Ended::blank(alloc, Status::Usage, disk),
    }
}
