//! A disk in memory that tells nothing of its contents, so that nothing has to be known of them
//! before a call. Where a call isn't inside the file, it fails.
ghost use Rattle.std.specs.Prelude.{◌≡◌, false};
ghost use Rattle.gem_io.specs.Faults.{HasCause};
ghost use Rattle.gem_disk.specs.Disk.{untold};

use gem_disk::{Disk, Images, MemDisk, Pick, Which};
use gem_io::Failed;
use std::alloc::AllocError;

// It makes two calls of its disk for each of its own.
#[derive(Drop)]
pub(crate) struct Untold {
    disk: MemDisk,
    failures: u64,
}

impl Untold {
    pub(crate) fn new(log: Vec<u8>, extent: Vec<u8>) -> Untold {
        Untold {
            disk: MemDisk::new(extent, log),
            failures: 0,
        }
    }

    // Lets this number of calls pass from now on.
    pub(crate) fn stop_after(&mut self, calls: u64) {
        self.disk.stop_after(calls.saturating_mul(2));
    }

    // Makes the call with this number, from now on, fail with nothing done.
    pub(crate) fn fail_at(&mut self, call: u64) {
        self.disk.fail_at(call.saturating_mul(2));
    }

    pub(crate) fn crash(self, pick: Pick) -> Result<Images, AllocError> {
        self.disk.crash(pick)
    }
}

// Counts a failure.
fn count<T>(failures: &mut u64, answer: Result<T, Failed>) -> Result<T, Failed>
    ensures cause { HasCause failures.old failures.new result }
    ensures same { result ≡ answer }
{
    if answer.is_err() {
        *failures = failures.saturating_add(1);
    }
    answer
}

fn read(disk: &mut MemDisk, file: Which, at: u64, out: &mut [u8]) -> Result<(), Failed> {
    let size = disk.length(file)?;
    let count = out.len() as u64;
    if at > size || count > size - at {
        return Err(Failed);
    }
    disk.read(file, at, out)
}

fn write(disk: &mut MemDisk, file: Which, at: u64, bytes: &[u8]) -> Result<(), Failed> {
    if at > disk.length(file)? {
        return Err(Failed);
    }
    disk.write_at(file, at, bytes)
}

fn cut(disk: &mut MemDisk, file: Which, size: u64) -> Result<(), Failed> {
    if size > disk.length(file)? {
        return Err(Failed);
    }
    disk.cut(file, size)
}

fn length(disk: &mut MemDisk, file: Which) -> Result<u64, Failed> {
    disk.length(file)?;
    disk.length(file)
}

fn sync(disk: &mut MemDisk, file: Which) -> Result<(), Failed> {
    disk.length(file)?;
    disk.sync(file)
}

impl Disk for Untold {
    ghost tells = { false };

    ghost past = { λ _. untold };

    ghost faults = { λ s. s.failures };

    fn length(&mut self, file: Which) -> Result<u64, Failed> {
        let answer = length(&mut self.disk, file);
        count(&mut self.failures, answer)
    }

    fn read(&mut self, file: Which, at: u64, out: &mut [u8]) -> Result<(), Failed> {
        let answer = read(&mut self.disk, file, at, out);
        count(&mut self.failures, answer)
    }

    fn write_at(&mut self, file: Which, at: u64, bytes: &[u8]) -> Result<(), Failed> {
        let answer = write(&mut self.disk, file, at, bytes);
        count(&mut self.failures, answer)
    }

    fn cut(&mut self, file: Which, size: u64) -> Result<(), Failed> {
        let answer = cut(&mut self.disk, file, size);
        count(&mut self.failures, answer)
    }

    fn sync(&mut self, file: Which) -> Result<(), Failed> {
        let answer = sync(&mut self.disk, file);
        count(&mut self.failures, answer)
    }
}
