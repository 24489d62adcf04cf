//! Devices that never fail.
ghost use Rattle.std.specs.Prelude.{◌≡◌, ◌<◌, length, min, take, Some, None, IfOk, Ok};
ghost use Rattle.std.specs.Io.{ReadsAtMost, WritesAtMost};
ghost use Rattle.std.specs.Io.KnownBytes.{ReadConsumes, WriteAppends};
ghost use Rattle.gem_io.specs.Faults.{HasCause};

use crate::{Failed, Sink, Source};
use std::marker::Model;

// Copies as many bytes to the front of `out` as there are and as there is room for, and says how
// many.
pub(crate) fn fill(out: &mut [u8], bytes: &[u8]) -> usize
    ensures count { result ≡ min (length out.old) (length bytes.now) }
    ensures moved { take result out.new ≡ take result bytes.now }
{
    let count = out.len().min(bytes.len());
    out[..count].copy_from_slice(&bytes[..count]);
    count
}

/// A source that gives bytes of memory and never fails.
#[derive(Debug, Drop)]
pub struct SureSource {
    bytes: Vec<u8>,
    at: usize,
}

impl Model for SureSource {
    ghost use Rattle.std.specs.Prelude.{ℕ, List, ◌≤◌, length, drop};

    ghost Value = { List ℕ };

    ghost view = { λ s. drop s.at s.bytes.items };

    ghost invariant = { λ s. s.at ≤ length s.bytes.items };
}

impl SureSource {
    /// A source of these bytes.
    pub fn new(bytes: Vec<u8>) -> SureSource
        ensures { result ≡ bytes.items }
    {
        SureSource { bytes, at: 0 }
    }
}

impl Source for SureSource {
    ghost left = { λ s. Some s };

    ghost faults = { λ _. 0 };

    fn pull(&mut self, out: &mut [u8]) -> Result<usize, Failed>
        requires { 0 < length out.old }
        ensures bound { ReadsAtMost result out.new }
        ensures bytes { ReadConsumes (Some self.old) (Some self.new) result out.new }
        ensures faults { HasCause 0 0 result }
        ensures count { result ≡ Ok (min (length out.old) (length self.old)) }
    {
        let count = fill(out, &self.bytes[self.at..]);
        self.at += count;
        Ok(count)
    }
}

/// A sink that never fails. It drops what it takes, and tells no bytes.
#[derive(Clone, Copy, Debug, Default)]
pub struct SureSink;

impl SureSink {
    /// A sink for bytes that nobody wants.
    pub fn new() -> SureSink {
        SureSink
    }
}

impl Sink for SureSink {
    ghost written = { λ _. None };

    ghost faults = { λ _. 0 };

    fn put(&mut self, piece: &[u8]) -> Result<usize, Failed>
        requires { 0 < length piece.now }
        ensures bound { WritesAtMost result piece.now }
        ensures some { IfOk result (λ n. 0 < n) }
        ensures bytes { WriteAppends None None result piece.now }
        ensures faults { HasCause 0 0 result }
        ensures whole { result ≡ Ok (length piece.now) }
    {
        Ok(piece.len())
    }
}
