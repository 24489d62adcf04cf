//! Serves a script without a store.
ghost use Rattle.std.specs.Prelude.{◌≡◌, ◌<◌, IfOk, IfErr};
ghost use Rattle.shell_words.specs.Rules.{IsScriptFault};
ghost use Rattle.kernel_image.specs.Objects.{kernel_image};
ghost use Rattle.gem_replies.specs.Report.{report_of};
ghost use Rattle.gem_server.specs.Devices.{seen};
ghost use Rattle.gem_server.specs.Alone.{IsKernelStart, IsRunOf, IsRunOfScript, ServesAlone};

use crate::intake::take_script;
use crate::output::write_out;
use crate::status::{Ended, Events, Served, Status};
use gem_image::Image;
use gem_io::{Gate, Sink, Source};
use gem_keeper::MemKeeper;
use gem_replies::{History, RunBook, Transcripts, report_text};
use kernel_image::kernel;
use radix_pages::Steps;
use script_run::{Ran, Start, run_script};
use shell_words::{Script, ScriptFault, read_script};
use std::alloc::{AllocError, Global};
use std::marker::Brand;
use std::sync::Wait;
use std::sync::ledger::{Blank, Ledger};
use std::thread::Threads;
use stone_core::largest_serial;

/// Serves the script that this text is, and gives the report. The sessions run side by side, as far as
/// the gate lets them, over an image that begins as the kernel's. No device is used, and nothing is
/// stored.
///
/// # Errors
///
/// `Rule` exactly where the text is no script, with the first line that breaks a rule, and that
/// rule; `NoMemory`, which may also stand in place of the other answers, where memory ran out.
pub fn serve_text<R: Threads + Wait + Sync, G: Gate + Sync>(
    rt: &R,
    alloc: Global,
    gate: &G,
    text: &[u8],
) -> Result<Served, ScriptFault>
    ensures legal_run { IfOk result (λ served. IsRunOf text.now served.events served.book) }
    ensures report_written { IfOk result (λ served. served.report.items ≡ report_of served.book) }
    ensures script { IfErr result (IsScriptFault text.now) }
{
    let script = read_script(alloc, text)?;
    let served = serve_script(rt, alloc, gate, script)?;
    Ok(served)
}

/// Serves the script that the source gives, and writes its report to the sink. The disk is only
/// handed back.
pub(crate) fn serve_alone<R: Threads + Wait + Sync, S: Source, K: Sink, D: Drop, G: Gate + Sync>(
    rt: &R,
    alloc: Global,
    source: &mut S,
    disk: D,
    gate: &G,
    sink: &mut K,
) -> Ended<D>
    ensures serves { ServesAlone (seen S.left S.faults source.old source.new)
        (seen K.written K.faults sink.old sink.new) result.status result.events result.book }
    ensures disk { result.disk ≡ disk }
{
    let script = match take_script(alloc, source) {
        Ok(script) => script,
        Err(status) => return Ended::blank(alloc, status, disk),
    };
    let Ok(served) = serve_script(rt, alloc, gate, script) else {
        return Ended::blank(alloc, Status::NoMemory, disk);
    };
    Ended {
        status: write_out(sink, &served.report),
        book: served.book,
        events: served.events,
        disk,
    }
}

// Runs the script, and prints its report.
fn serve_script<R: Threads + Wait + Sync, G: Gate + Sync>(
    rt: &R,
    alloc: Global,
    gate: &G,
    script: Script,
) -> Result<Served, AllocError>
    ensures run { IfOk result (λ served. IsRunOfScript script served.events served.book) }
    ensures report { IfOk result (λ served. served.report.items ≡ report_of served.book) }
{
    let (book, events) = run_alone(rt, alloc, gate, script)?;
    let report = report_text(alloc, &book)?;
    Ok(Served {
        report,
        book,
        events,
    })
}

// Runs the script over the kernel's image. No disk can fail.
fn run_alone<R: Threads + Wait + Sync, G: Gate + Sync>(
    rt: &R,
    alloc: Global,
    gate: &G,
    script: Script,
) -> Result<(RunBook, Events), AllocError>
    ensures { IfOk result (λ run. IsRunOfScript script run.1 run.0) }
{
    let start = kernel_start(alloc)?;
    let base = start.base;
    let _sessions = script.sessions();
    let Ran {
        transcripts,
        closed,
    } = run_script(rt, alloc, gate, start, script);
    let book = RunBook {
        first: 0,
        base,
        transcripts: Transcripts::of(transcripts?),
        history: History::of(closed.history),
    };
    Ok((book, Events::of(closed.events)))
}

// The kernel's image, with nothing stored.
fn kernel_start(alloc: Global) -> Result<Start<MemKeeper>, AllocError>
    ensures { IfOk result IsKernelStart }
{
    let image = first_image(alloc)?;
    image.invariant();
    Ok(Start {
        base: largest_serial(&image) + 1,
        image,
        number: 0,
        keeper: MemKeeper::new(),
    })
}

// The kernel's image, with which a Stone may be opened.
fn first_image(alloc: Global) -> Result<Image, AllocError>
    ensures { IfOk result (λ image. image ≡ kernel_image) }
{
    built_image::<Brand>(alloc, Blank::new(1))
}

// The same, where nobody counts the nodes.
fn built_image<L: Ledger>(alloc: Global, blank: Blank) -> Result<Image, AllocError>
    requires name { blank.name ≡ L.name }
    requires parts { blank.parts ≡ L.parts }
    requires some_parts { 0 < L.parts }
    ensures { IfOk result (λ image. image ≡ kernel_image) }
{
    let mut steps = Steps::<L>::start(blank);
    kernel(alloc, &mut steps)
}
