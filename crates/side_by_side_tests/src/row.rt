//! Scripts of sessions whose order is fixed, and how they are served.
use gem_io::Gate;
use gem_server::{Served, serve_text};
use std::alloc::{AllocError, Global};
use std::sync::Wait;
use std::test::Fail;
use std::thread::Threads;

/// A script, and what it reports.
#[derive(Clone, Copy)]
pub(crate) struct Row {
    /// Which commands come after which: a session, and the first and the last of its commands that
    /// come here. 0 is its login, and the number after the last command its logout.
    pub(crate) order: &'static [(u32, u32, u32)],
    pub(crate) script: &'static str,
    pub(crate) report: &'static str,
}

/// The report of a script past a gate. From this call a caller's proof learns nothing, so it stays
/// short.
pub(crate) fn reported<R: Threads + Wait + Sync, G: Gate + Sync>(
    rt: &R,
    alloc: Global,
    gate: &G,
    script: &str,
) -> Result<Vec<u8>, Fail> {
    let Served { report, .. } = served(rt, alloc, gate, script)?;
    Ok(report)
}

/// All that serving a script past a gate gives.
pub(crate) fn served<R: Threads + Wait + Sync, G: Gate + Sync>(
    rt: &R,
    alloc: Global,
    gate: &G,
    script: &str,
) -> Result<Served, Fail> {
    match serve_text(rt, alloc, gate, script.as_bytes()) {
        Ok(served) => Ok(served),
        Err(_) => Err(Fail::new("it was not served")),
    }
}

/// Two texts, one after the other.
pub(crate) fn both(alloc: Global, first: &str, second: &str) -> Result<String, AllocError> {
    let mut text = String::from_str(alloc, first)?;
    text.push_str(second)?;
    Ok(text)
}
