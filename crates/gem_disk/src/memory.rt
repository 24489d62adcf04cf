//! A disk in memory, which fails in the calls that one chooses.
ghost use Rattle.std.specs.Prelude.{◌≡◌, ◌+◌, ◌-◌, ◌≤◌, [], true, Some, None, length, take, drop, IsTrue, IfOk, OnOk};
ghost use Rattle.gem_io.specs.Faults.{HasCause};
ghost use Rattle.gem_disk.specs.Disk.{Wrote, CutTo, Synced, reads, stepped, placed, Writes, Cuts, Syncs, CrashImages};
ghost use Rattle.gem_disk.specs.Picked.{picked};
ghost use Rattle.gem_disk.specs.Recorded.{change_by, made};
ghost use Rattle.gem_disk.specs.Memory.{fails_next, one_less, failures_of, Answers, Changes};

use crate::recorded::{Kind, Recorded};
use crate::{Disk, Images, Pick, Which};
use gem_io::Failed;
use std::alloc::AllocError;
use std::marker::Model;

/// A disk in memory. It fails in the calls that `stop_after` and `fail_at` choose, and in a call
/// that changes a file also where memory runs out for its record. What a failed call was to change
/// stays as it was. It keeps all that was done to it.
#[derive(Debug, Drop)]
pub struct MemDisk {
    recorded: Recorded,
    passes: Option<u64>,
    fails_in: u64,
    refused: u64,
    starved: u64,
}

impl Model for MemDisk {
    ghost use Rattle.gem_disk.specs.Memory.{Memory};

    ghost Value = { Memory };

    ghost view = { λ s. record {
      past = s.recorded;
      passes = s.passes;
      fails_in = s.fails_in;
      refused = s.refused;
      starved = s.starved;
    } };
}

// Counts a call, and says whether it is to fail.
fn is_to_fail(passes: &mut Option<u64>, fails_in: &mut u64) -> bool
    ensures answer { result ≡ fails_next passes.old fails_in.old }
    ensures passes { passes.new ≡ one_less passes.old }
    ensures fails_in { fails_in.new ≡ fails_in.old - 1 }
{
    let is_chosen = *fails_in == 1;
    *fails_in = fails_in.saturating_sub(1);
    match passes {
        Some(0) => true,
        Some(left) => {
            *left -= 1;
            is_chosen
        }
        None => is_chosen,
    }
}

impl MemDisk {
    /// A disk of these bytes, all of them on the disk, which never fails by itself. It records its
    /// calls in the allocator of `log`.
    pub fn new(extent: Vec<u8>, log: Vec<u8>) -> MemDisk
        ensures { result ≡ record {
          past = record { first = record { extent = extent.items; log = log.items }; steps = [] };
          passes = None;
          fails_in = 0;
          refused = 0;
          starved = 0;
        } }
    {
        MemDisk {
            recorded: Recorded::new(extent, log),
            passes: None,
            fails_in: 0,
            refused: 0,
            starved: 0,
        }
    }

    /// Lets this number of calls pass from now on, and then fails every call. It takes the place of
    /// an earlier `stop_after`.
    pub fn stop_after(&mut self, calls: u64)
        ensures { self.new ≡ record self.old { passes = Some calls } }
    {
        self.passes = Some(calls);
    }

    /// Fails the call of this number from now on, and no other; the next call is number 1, and 0 is
    /// none. It takes the place of an earlier `fail_at`.
    pub fn fail_at(&mut self, call: u64)
        ensures { self.new ≡ record self.old { fails_in = call } }
    {
        self.fails_in = call;
    }

    /// How often a call failed for want of memory, 2^64 - 1 at most.
    pub fn starved(&self) -> u64
        ensures { result ≡ self.now.starved }
    {
        self.starved
    }

    /// What a crash leaves at this moment: of all that it may leave, what `pick` says. The error is
    /// that memory ran out.
    pub fn crash(self, pick: Pick) -> Result<Images, AllocError>
        ensures picked { IfOk result (λ images. images ≡ picked pick self.past) }
        ensures left { IfOk result (λ images. CrashImages self.past images) }
    {
        self.recorded.crash(pick)
    }

    // Changes a file: where it fails, nothing is changed.
    fn change(&mut self, file: Which, kind: Kind, at: usize, bytes: &[u8]) -> Result<(), Failed>
        requires { at ≤ length (reads self.old.past file) }
        ensures { Changes self.old result (stepped self.old.past file
            (change_by kind at (length bytes.now))
            (made kind at bytes.now (reads self.old.past file))) self.new }
    {
        if is_to_fail(&mut self.passes, &mut self.fails_in) {
            self.refused = self.refused.saturating_add(1);
            return Err(Failed);
        }
        if self.recorded.change(file, kind, at, bytes).is_err() {
            self.starved = self.starved.saturating_add(1);
            return Err(Failed);
        }
        Ok(())
    }
}

impl Disk for MemDisk {
    ghost tells = { true };

    ghost past = { λ s. s.past };

    ghost faults = { failures_of };

    fn length(&mut self, file: Which) -> Result<u64, Failed>
        ensures bytes { IsTrue true → IfOk result (λ n. n ≡ length (reads self.old.past file)) }
        ensures past { IsTrue true → self.new.past ≡ self.old.past }
        ensures faults { HasCause (failures_of self.old) (failures_of self.new) result }
        ensures answers { Answers self.old result self.new }
    {
        if is_to_fail(&mut self.passes, &mut self.fails_in) {
            self.refused = self.refused.saturating_add(1);
            return Err(Failed);
        }
        Ok(self.recorded.bytes(file).len() as u64)
    }

    fn read(&mut self, file: Which, at: u64, out: &mut [u8]) -> Result<(), Failed>
        requires { IsTrue true → at + length out.old ≤ length (reads self.old.past file) }
        ensures bytes { IsTrue true → OnOk result
            (out.new ≡ take (length out.old) (drop at (reads self.old.past file))) }
        ensures past { IsTrue true → self.new.past ≡ self.old.past }
        ensures faults { HasCause (failures_of self.old) (failures_of self.new) result }
        ensures answers { Answers self.old result self.new }
    {
        if is_to_fail(&mut self.passes, &mut self.fails_in) {
            self.refused = self.refused.saturating_add(1);
            return Err(Failed);
        }
        let behind = &self.recorded.bytes(file)[at as usize..];
        out.copy_from_slice(&behind[..out.len()]);
        Ok(())
    }

    fn write_at(&mut self, file: Which, at: u64, bytes: &[u8]) -> Result<(), Failed>
        requires { IsTrue true → at ≤ length (reads self.old.past file) }
        ensures past { IsTrue true →
            Writes file at bytes.now self.old.past result self.new.past }
        ensures faults { HasCause (failures_of self.old) (failures_of self.new) result }
        ensures changes { Changes self.old result (stepped self.old.past file
            (Wrote at (length bytes.now)) (placed at bytes.now (reads self.old.past file)))
            self.new }
    {
        self.change(file, Kind::Write, at as usize, bytes)
    }

    fn cut(&mut self, file: Which, size: u64) -> Result<(), Failed>
        requires { IsTrue true → size ≤ length (reads self.old.past file) }
        ensures past { IsTrue true → Cuts file size self.old.past result self.new.past }
        ensures faults { HasCause (failures_of self.old) (failures_of self.new) result }
        ensures changes { Changes self.old result (stepped self.old.past file (CutTo size)
            (take size (reads self.old.past file))) self.new }
    {
        self.change(file, Kind::Truncation, size as usize, &[])
    }

    fn sync(&mut self, file: Which) -> Result<(), Failed>
        ensures past { IsTrue true → Syncs file self.old.past result self.new.past }
        ensures faults { HasCause (failures_of self.old) (failures_of self.new) result }
        ensures changes { Changes self.old result (stepped self.old.past file Synced
            (reads self.old.past file)) self.new }
    {
        self.change(file, Kind::Sync, 0, &[])
    }
}
