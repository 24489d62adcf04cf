//! Where sessions may be held.
use std::sync::Wait;

/// Where a session may be held before each of its steps, as a test does that fixes the order in
/// which sessions go on. It may wait, and promises nothing.
pub trait Gate {
    /// The session is about to log in, where the command is 0; to begin this command, which counts
    /// from 1; or to log out, where the command is the one after its last.
    fn pass<R: Wait>(&self, rt: &R, session: u32, command: u32);

    /// The session has logged out.
    fn left<R: Wait>(&self, rt: &R, session: u32);
}

/// A gate that holds nobody.
pub struct OpenGate;

impl Gate for OpenGate {
    fn pass<R: Wait>(&self, _rt: &R, _session: u32, _command: u32) {}

    fn left<R: Wait>(&self, _rt: &R, _session: u32) {}
}
