//! Devices in memory, which fail in the calls that one chooses.
ghost use Rattle.std.specs.Prelude.{◌≡◌, ◌<◌, [], length, Some, IfOk};
ghost use Rattle.std.specs.Io.{ReadsAtMost, WritesAtMost};
ghost use Rattle.std.specs.Io.KnownBytes.{ReadConsumes, WriteAppends};
ghost use Rattle.gem_io.specs.Faults.{HasCause};
ghost use Rattle.gem_io.specs.Memory.{Pulls, Puts, failures_of};

use crate::sure::fill;
use crate::{Failed, Sink, Source};
use std::marker::Model;

/// A source that gives bytes of memory, and fails in chosen calls. A call gives as many bytes as
/// there are and as there is room for.
#[derive(Debug, Drop)]
pub struct MemSource {
    bytes: Vec<u8>,
    at: usize,
    fails: Vec<u64>,
    calls: u64,
    failures: u64,
}

impl Model for MemSource {
    ghost use Rattle.std.specs.Prelude.{◌≤◌, length, drop};
    ghost use Rattle.gem_io.specs.Memory.{Reading};

    ghost Value = { Reading };

    ghost view = { λ s. record {
      left = drop s.at s.bytes.items;
      calls = s.calls;
      fails = s.fails.items;
      failures = s.failures;
    } };

    ghost invariant = { λ s. s.at ≤ length s.bytes.items };
}

impl MemSource {
    /// A source of these bytes whose calls with these numbers fail. The first call is number 1.
    pub fn new(bytes: Vec<u8>, fails: Vec<u64>) -> MemSource
        ensures { result
            ≡ record { left = bytes.items; calls = 0; fails = fails.items; failures = 0 } }
    {
        MemSource {
            bytes,
            at: 0,
            fails,
            calls: 0,
            failures: 0,
        }
    }
}

impl Source for MemSource {
    ghost left = { λ s. Some s.left };

    ghost faults = { λ s. s.failures };

    fn pull(&mut self, out: &mut [u8]) -> Result<usize, Failed>
        requires { 0 < length out.old }
        ensures bound { ReadsAtMost result out.new }
        ensures bytes { ReadConsumes (Some self.old.left) (Some self.new.left) result out.new }
        ensures faults { HasCause self.old.failures self.new.failures result }
        ensures pulls { Pulls self.old (length out.old) result self.new }
    {
        self.calls = self.calls.saturating_add(1);
        if self.fails.contains(&self.calls) {
            self.failures = self.failures.saturating_add(1);
            return Err(Failed);
        }
        let count = fill(out, &self.bytes[self.at..]);
        self.at += count;
        Ok(count)
    }
}

/// A sink that keeps the bytes that it takes in memory, and fails in chosen calls. It takes a piece
/// whole.
#[derive(Debug, Drop)]
pub struct MemSink {
    written: Vec<u8>,
    fails: Vec<u64>,
    calls: u64,
    refused: u64,
    starved: u64,
}

impl Model for MemSink {
    ghost use Rattle.gem_io.specs.Memory.{Writing};

    ghost Value = { Writing };

    ghost view = { λ s. record {
      written = s.written.items;
      calls = s.calls;
      fails = s.fails.items;
      refused = s.refused;
      starved = s.starved;
    } };
}

impl MemSink {
    /// A sink that has taken nothing, whose calls with these numbers fail. The first call is number
    /// 1. The bytes that it takes will stand in the allocator of `fails`.
    pub fn new(fails: Vec<u64>) -> MemSink
        ensures { result
            ≡ record { written = []; calls = 0; fails = fails.items; refused = 0; starved = 0 } }
    {
        MemSink {
            written: Vec::new(*fails.allocator()),
            fails,
            calls: 0,
            refused: 0,
            starved: 0,
        }
    }

    /// How often a piece found no memory, 2^64 - 1 at most.
    pub fn starved(&self) -> u64
        ensures { result ≡ self.now.starved }
    {
        self.starved
    }

    /// The bytes that the sink has taken.
    pub fn written(&self) -> &[u8]
        ensures { result.now ≡ self.now.written }
    {
        &self.written
    }
}

impl Sink for MemSink {
    ghost written = { λ s. Some s.written };

    ghost faults = { failures_of };

    fn put(&mut self, piece: &[u8]) -> Result<usize, Failed>
        requires { 0 < length piece.now }
        ensures bound { WritesAtMost result piece.now }
        ensures some { IfOk result (λ n. 0 < n) }
        ensures bytes { WriteAppends (Some self.old.written) (Some self.new.written) result
            piece.now }
        ensures faults { HasCause (failures_of self.old) (failures_of self.new) result }
        ensures puts { Puts self.old piece.now result self.new }
    {
        self.calls = self.calls.saturating_add(1);
        if self.fails.contains(&self.calls) {
            self.refused = self.refused.saturating_add(1);
            return Err(Failed);
        }
        if self.written.extend_from_slice(piece).is_err() {
            self.starved = self.starved.saturating_add(1);
            return Err(Failed);
        }
        Ok(piece.len())
    }
}
