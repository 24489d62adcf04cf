//! Serves a script over a store.
ghost use Rattle.std.specs.Prelude.{◌≡◌, [], IsTrue};
ghost use Rattle.gem_disk.specs.Disk.{as_read};
ghost use Rattle.stone_store.specs.Whole.{StoresBy};
ghost use Rattle.gem_server.specs.Devices.{seen};
ghost use Rattle.gem_server.specs.Server.{IsBlankOver};
ghost use Rattle.gem_server.specs.Serving.{ServesStore};
ghost use Rattle.gem_server.specs.Finishing.{IsFinished, TellsRun};

use crate::intake::take_script;
use crate::opening::{Refused, open_for};
use crate::output::write_out;
use crate::status::{Ended, Events, Status};
use gem_disk::Disk;
use gem_io::{Gate, Sink, Source};
use gem_replies::{History, RunBook, Transcript, Transcripts, report_text};
use script_run::{Ran, run_script};
use std::alloc::Global;
use std::sync::Wait;
use std::thread::Threads;
use stone_core::Closed;
use stone_store::Store;

/// Serves the script that the source gives over the store on the disk, and writes its report to the
/// sink. The sessions pass the gate. It makes no checkpoint by itself.
pub(crate) fn serve_store<
    R: Threads + Wait + Sync,
    S: Source,
    K: Sink,
    D: Disk + Send + Drop + 'static,
    G: Gate + Sync,
>(rt: &R, alloc: Global, source: &mut S, disk: D, gate: &G, sink: &mut K) -> Ended<D>
    ensures { ServesStore D.tells (seen S.left S.faults source.old source.new)
        (seen K.written K.faults sink.old sink.new) (seen D.past D.faults disk result.disk)
        result.status result.events result.book }
{
    let script = match take_script(alloc, source) {
        Ok(script) => script,
        Err(status) => return Ended::blank(alloc, status, disk),
    };
    let start = match open_for(alloc, disk, &script) {
        Ok(start) => start,
        Err(refused) => return unserved(alloc, refused),
    };
    let (first, base) = (start.number, start.base);
    let ran = run_script(rt, alloc, gate, start, script);
    finish(alloc, first, base, ran, sink)
}

// The end where no session ran. The book tells of the store where it was opened.
fn unserved<D: Disk + Drop>(alloc: Global, refused: Refused<D>) -> Ended<D>
    ensures status { result.status ≡ refused.status }
    ensures blank { IsBlankOver refused.first refused.base result.events result.book }
    ensures disk { result.disk ≡ refused.disk }
{
    let Refused {
        status,
        first,
        base,
        disk,
    } = refused;
    Ended::blank_over(alloc, status, first, base, disk)
}

// Writes the report of a run, and gives back the disk.
fn finish<K: Sink, D: Disk + Drop>(
    alloc: Global,
    first: u64,
    base: u32,
    ran: Ran<Store<D>>,
    sink: &mut K,
) -> Ended<D>
    ensures finished { IsFinished first base ran (seen K.written K.faults sink.old sink.new) result }
    ensures stored { IsTrue D.tells → StoresBy (as_read (D.past ran.closed.keeper.disk))
        ran.closed.keeper.parts }
{
    let Ran {
        transcripts,
        closed,
    } = ran;
    let Closed {
        keeper,
        history,
        events,
        halted,
    } = closed;
    keeper.invariant();
    let disk = keeper.close();
    let events = Events::of(events);
    let book = RunBook {
        first,
        base,
        transcripts: Transcripts::of(Vec::new(alloc)),
        history: History::of(history),
    };
    let (status, book) = match transcripts {
        Ok(transcripts) => tell_run(alloc, book, transcripts, halted, sink),
        Err(_) => (Status::NoMemory, book),
    };
    Ended {
        status,
        book,
        events,
        disk,
    }
}

// Writes the report of the book with these transcripts. Where there is no memory for it, the book
// stays as it is.
fn tell_run<K: Sink>(
    alloc: Global,
    book: RunBook,
    transcripts: Vec<Transcript>,
    halted: Option<u64>,
    sink: &mut K,
) -> (Status, RunBook)
    requires { book.transcripts ≡ [] }
    ensures { TellsRun book transcripts.items halted (seen K.written K.faults sink.old sink.new)
        result.0 result.1 }
{
    let told = RunBook {
        transcripts: Transcripts::of(transcripts),
        ..book
    };
    let Ok(report) = report_text(alloc, &told) else {
        let without = RunBook {
            transcripts: Transcripts::of(Vec::new(alloc)),
            ..told
        };
        return (Status::NoMemory, without);
    };
    let written = write_out(sink, &report);
    if halted.is_some() {
        return (Status::DiskFault, told);
    }
    (written, told)
}
