//! Replies in words, and lines that are noted.

use st_commands::Reply;
use std::alloc::{AllocError, Global};

/// The reply in the words of a report.
pub fn told(alloc: Global, reply: &Reply) -> Result<Vec<u8>, AllocError> {
    match reply {
        Reply::NotRead { at, rule } => {
            Ok(format!(in alloc; "parse P{} at {}", *rule, *at)?.into_bytes())
        }
        Reply::Failed(fault) => {
            Ok(format!(in alloc; "error E{} {fault}", fault.number())?.into_bytes())
        }
        Reply::Ran => behind(alloc, b"ok", b""),
        Reply::Printed(text) => behind(alloc, b"", text.bytes()),
        Reply::Installed(selector) => behind(alloc, b"method ", selector.bytes()),
    }
}

/// A text and another behind it.
fn behind(alloc: Global, front: &[u8], text: &[u8]) -> Result<Vec<u8>, AllocError> {
    let mut both = Vec::new(alloc);
    both.extend_from_slice(front)?;
    both.extend_from_slice(text)?;
    Ok(both)
}

/// Notes a line.
pub fn note(wrong: &mut String, line: &str) -> Result<(), AllocError> {
    wrong.push_str(line)?;
    wrong.push('\n')
}
