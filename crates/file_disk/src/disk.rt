//! A disk of two files.
ghost use Rattle.std.specs.Prelude.{◌≡◌, ◌+◌, ◌≤◌, false, length, take, drop, IsTrue, IfOk, OnOk};
ghost use Rattle.std.specs.Result.{is_ok, result_ok};
ghost use Rattle.gem_io.specs.Faults.{HasCause};
ghost use Rattle.gem_disk.specs.Disk.{untold, reads, Writes, Cuts, Syncs};
ghost use Rattle.file_disk.specs.Calls.{LengthOf, Reading, Writing, Cutting, Sync, Makes};

use crate::late_file::LateFile;
use crate::{FileCalls, HostFiles};
use gem_disk::{Disk, Which};
use gem_io::Failed;
use std::alloc::{AllocError, Global};
use std::io;
use std::marker::Model;
use std::rt::Files;

/// A disk of two files of a file system. It tells no contents: that the files hold what was
/// written, and after a crash what was synced, is trusted, and so is that nobody else writes them.
///
/// Each file is opened at the first call on it, made where it is absent, and its folder is synced
/// then. An error of the file system is a failure; nothing is tried again.
#[derive(Drop)]
pub struct FileDisk<C: FileCalls> {
    calls: C,
    extent: LateFile<C>,
    log: LateFile<C>,
    faults: u64,
}

impl<C: FileCalls> Model for FileDisk<C> {
    ghost use Rattle.file_disk.specs.Calls.{DiskOfFiles};

    ghost Value = { DiskOfFiles };

    ghost view = { λ s. record {
      extent = s.extent;
      log = s.log;
      calls = C.calls s.calls;
      faults = s.faults;
    } };
}

impl<R: Files + Clone + Drop> FileDisk<HostFiles<R>> {
    /// A disk of the host's files at these paths, of which none is opened yet. The error is that
    /// memory ran out.
    pub fn at(
        rt: &R,
        alloc: Global,
        extent: &str,
        log: &str,
    ) -> Result<FileDisk<HostFiles<R>>, AllocError>
        ensures extent { IfOk result (λ disk. disk.extent
            ≡ record { path = extent.now; is_open = false }) }
        ensures log { IfOk result (λ disk. disk.log
            ≡ record { path = log.now; is_open = false }) }
        ensures faults { IfOk result (λ disk. disk.faults ≡ 0) }
    {
        FileDisk::over(HostFiles::new(rt.clone()?), alloc, extent, log)
    }
}

impl<C: FileCalls + Drop> FileDisk<C> {
    /// A disk of the files at these paths, of which none is opened yet, over these calls. The error
    /// is that memory ran out.
    pub fn over(calls: C, alloc: Global, extent: &str, log: &str) -> Result<FileDisk<C>, AllocError>
        ensures { IfOk result (λ disk. disk ≡ record {
          extent = record { path = extent.now; is_open = false };
          log = record { path = log.now; is_open = false };
          calls = C.calls calls;
          faults = 0;
        }) }
    {
        Ok(FileDisk {
            calls,
            extent: LateFile::at(alloc, extent)?,
            log: LateFile::at(alloc, log)?,
            faults: 0,
        })
    }
}

impl<C: FileCalls> FileDisk<C> {
    /// What it makes its calls of.
    pub fn calls(&self) -> &C
        ensures { C.calls result.now ≡ self.now.calls }
    {
        &self.calls
    }
}

// Counts an error, of which nothing is told but that the count rose.
fn counted<T>(faults: &mut u64, outcome: io::Result<T>) -> Result<T, Failed>
    ensures cause { HasCause faults.old faults.new result }
    ensures value { result_ok result ≡ result_ok outcome }
    ensures done { is_ok result ≡ is_ok outcome }
{
    match outcome {
        Ok(value) => Ok(value),
        Err(_) => {
            *faults = faults.saturating_add(1);
            Err(Failed)
        }
    }
}

impl<C: FileCalls> Disk for FileDisk<C> {
    ghost tells = { false };

    ghost past = { λ _. untold };

    ghost faults = { λ s. s.faults };

    fn length(&mut self, file: Which) -> Result<u64, Failed>
        ensures bytes { IsTrue false → IfOk result (λ n. n ≡ length (reads untold file)) }
        ensures past { IsTrue false → untold ≡ untold }
        ensures faults { HasCause self.old.faults self.new.faults result }
        ensures calls { IsTrue C.tells → Makes file (λ path. LengthOf path (result_ok result))
            (is_ok result) self.old self.new }
    {
        match file {
            Which::Extent => counted(&mut self.faults, self.extent.length(&mut self.calls)),
            Which::Log => counted(&mut self.faults, self.log.length(&mut self.calls)),
        }
    }

    fn read(&mut self, file: Which, at: u64, out: &mut [u8]) -> Result<(), Failed>
        ensures bytes { IsTrue false → OnOk result
            (out.new ≡ take (length out.old) (drop at (reads untold file))) }
        ensures past { IsTrue false → untold ≡ untold }
        ensures faults { HasCause self.old.faults self.new.faults result }
        ensures calls { IsTrue C.tells → Makes file
            (λ path. Reading path at out.new (is_ok result)) (is_ok result) self.old self.new }
    {
        match file {
            Which::Extent => counted(&mut self.faults, self.extent.read(&mut self.calls, at, out)),
            Which::Log => counted(&mut self.faults, self.log.read(&mut self.calls, at, out)),
        }
    }

    fn write_at(&mut self, file: Which, at: u64, bytes: &[u8]) -> Result<(), Failed>
        ensures past { IsTrue false → Writes file at bytes.now untold result untold }
        ensures faults { HasCause self.old.faults self.new.faults result }
        ensures calls { IsTrue C.tells → Makes file
            (λ path. Writing path at bytes.now (is_ok result)) (is_ok result) self.old self.new }
    {
        match file {
            Which::Extent => counted(
                &mut self.faults,
                self.extent.write(&mut self.calls, at, bytes),
            ),
            Which::Log => counted(&mut self.faults, self.log.write(&mut self.calls, at, bytes)),
        }
    }

    fn cut(&mut self, file: Which, size: u64) -> Result<(), Failed>
        ensures past { IsTrue false → Cuts file size untold result untold }
        ensures faults { HasCause self.old.faults self.new.faults result }
        ensures calls { IsTrue C.tells → Makes file (λ path. Cutting path size (is_ok result))
            (is_ok result) self.old self.new }
    {
        match file {
            Which::Extent => counted(&mut self.faults, self.extent.cut(&mut self.calls, size)),
            Which::Log => counted(&mut self.faults, self.log.cut(&mut self.calls, size)),
        }
    }

    fn sync(&mut self, file: Which) -> Result<(), Failed>
        ensures past { IsTrue false → Syncs file untold result untold }
        ensures faults { HasCause self.old.faults self.new.faults result }
        ensures calls { IsTrue C.tells → Makes file (λ path. Sync path (is_ok result))
            (is_ok result) self.old self.new }
    {
        match file {
            Which::Extent => counted(&mut self.faults, self.extent.sync(&mut self.calls)),
            Which::Log => counted(&mut self.faults, self.log.sync(&mut self.calls)),
        }
    }
}
