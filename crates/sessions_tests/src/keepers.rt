// Runs scripts over Stones with keepers of the tests.
ghost use Rattle.std.specs.Prelude.{◌≡◌, ◌<◌, ◌≤◌, true, false, [], IfOk, length};
ghost use Rattle.shell_words.specs.declared.limits.TheConstants.{SESSION_LIMIT};
ghost use Rattle.kernel_image.specs.Objects.{kernel_image};
ghost use Rattle.gem_meaning.specs.Opened.{base_serial};
ghost use Rattle.gem_meaning.specs.Serial.{CanServe};

use gem_io::OpenGate;
use gem_keeper::Keeper;
use gem_replies::{History, RunBook, Transcript, Transcripts, report_text};
use gem_session::run_session;
use kernel_image::kernel;
use radix_pages::Steps;
use shell_words::{Script, SessionScript, read_script};
use std::alloc::{AllocError, Global};
use std::marker::Brand;
use std::sync::ledger::{Blank, Ledger};
use std::sync::{Arc, Wait};
use std::test::Fail;
use stone_core::Stone;

/// A Stone over the kernel's image for the script, with this keeper.
pub(crate) fn opened<K: Keeper + Drop, L: Ledger>(
    alloc: Global,
    script: Arc<Script>,
    keeper: K,
    blank: Blank,
) -> Result<Stone<K>, AllocError>
    requires name { blank.name ≡ L.name }
    requires parts { blank.parts ≡ L.parts }
    requires some_parts { 0 < L.parts }
    requires limit { length script.value ≤ SESSION_LIMIT }
    requires ready { K.ready keeper ≡ true }
    requires silent { K.tells ≡ false }
    ensures script { IfOk result (λ stone. stone.told.opened.script ≡ script.value) }
    ensures image { IfOk result (λ stone. stone.told.opened.image ≡ kernel_image) }
    ensures serves { IfOk result (λ stone. CanServe stone.told.opened) }
    ensures base { IfOk result (λ stone. base_serial stone.told.opened ≡ 1) }
    ensures begun { IfOk result (λ stone. stone.told.events ≡ []) }
{
    let mut steps = Steps::<L>::start(blank);
    let image = kernel(alloc, &mut steps)?;
    image.invariant();
    let Ok(stone) = Stone::start(alloc, image, 0, script, keeper) else {
        return Err(AllocError);
    };
    Ok(stone)
}

// What the sessions of the Stone's script reply, one after another.
fn run_all<R: Wait, K: Keeper + Drop>(
    rt: &R,
    alloc: Global,
    stone: &mut Stone<K>,
    sessions: &[SessionScript],
) -> Result<Vec<Transcript>, AllocError>
    requires script { stone.old.told.opened.script ≡ sessions.now }
    requires serves { CanServe stone.old.told.opened }
    requires begun { stone.old.told.events ≡ [] }
    requires base { base_serial stone.old.told.opened ≡ 1 }
    requires limit { length sessions.now ≤ SESSION_LIMIT }
{
    let mut transcripts = Vec::new(alloc);
    for (index, session) in sessions.iter().enumerate() {
        let number = index as u32 + 1;
        transcripts.push(run_session(rt, alloc, stone, &OpenGate, number, number, session)?)?;
    }
    Ok(transcripts)
}

// The book of a run of the script.
fn book_of<R: Wait, K: Keeper + Drop>(
    rt: &R,
    alloc: Global,
    script: Script,
    keeper: K,
) -> Result<RunBook, AllocError>
    requires ready { K.ready keeper ≡ true }
    requires silent { K.tells ≡ false }
{
    let script = Arc::new(alloc, script)?;
    let sessions = script.sessions();
    let mut stone = opened::<K, Brand>(alloc, script.clone()?, keeper, Blank::new(1))?;
    let transcripts = run_all(rt, alloc, &mut stone, sessions)?;
    Ok(RunBook {
        first: 0,
        base: 1,
        transcripts: Transcripts::of(transcripts),
        history: History::of(stone.close().history),
    })
}

/// The report of a script whose sessions run one after another on a Stone with this keeper.
pub(crate) fn reported<R: Wait, K: Keeper + Drop>(
    rt: &R,
    alloc: Global,
    script: &str,
    keeper: K,
) -> Result<Vec<u8>, Fail>
    requires ready { K.ready keeper ≡ true }
    requires silent { K.tells ≡ false }
{
    let Ok(script) = read_script(alloc, script.as_bytes()) else {
        return Err(Fail::new("it is no script"));
    };
    let book = book_of(rt, alloc, script, keeper)?;
    Ok(report_text(alloc, &book)?)
}
