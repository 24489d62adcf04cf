//! A disk whose extent has fixed bytes, and which tells nothing of them, so that nothing has to be
//! known of them before a call. Where a read isn't inside the file, it fails.
ghost use Rattle.std.specs.Prelude.{false};
ghost use Rattle.gem_disk.specs.Disk.{untold};

use gem_disk::{Disk, Which};
use gem_io::Failed;

#[derive(Drop)]
pub(crate) struct Fixed {
    pub extent: Vec<u8>,
    pub failures: u64,
}

// Copies the bytes from an offset on, where there are so many.
fn copy(bytes: &[u8], at: usize, out: &mut [u8]) -> bool {
    match bytes.get(at..) {
        Some(behind) if behind.len() >= out.len() => {
            let (front, _) = behind.split_at(out.len());
            out.copy_from_slice(front);
            true
        }
        _ => false,
    }
}

impl Disk for Fixed {
    ghost tells = { false };

    ghost past = { λ _. untold };

    ghost faults = { λ disk. disk.failures };

    fn length(&mut self, _file: Which) -> Result<u64, Failed> {
        Ok(self.extent.len() as u64)
    }

    fn read(&mut self, _file: Which, at: u64, out: &mut [u8]) -> Result<(), Failed> {
        if copy(&self.extent, at as usize, out) {
            return Ok(());
        }
        self.failures = self.failures.saturating_add(1);
        Err(Failed)
    }

    fn write_at(&mut self, _file: Which, _at: u64, _bytes: &[u8]) -> Result<(), Failed> {
        Ok(())
    }

    fn cut(&mut self, _file: Which, _size: u64) -> Result<(), Failed> {
        Ok(())
    }

    fn sync(&mut self, _file: Which) -> Result<(), Failed> {
        Ok(())
    }
}
