//! A disk that takes each write and keeps nothing, so that a log on it gets long at once.
ghost use Rattle.std.specs.Prelude.{false};
ghost use Rattle.gem_disk.specs.Disk.{untold};

use gem_disk::{Disk, Which};
use gem_io::Failed;

#[derive(Drop)]
pub(crate) struct Sink;

impl Disk for Sink {
    ghost tells = { false };

    ghost past = { λ _. untold };

    ghost faults = { λ _. 0 };

    fn length(&mut self, _file: Which) -> Result<u64, Failed> {
        Ok(0)
    }

    fn read(&mut self, _file: Which, _at: u64, _out: &mut [u8]) -> Result<(), Failed> {
        Ok(())
    }

    fn write_at(&mut self, _file: Which, _at: u64, _bytes: &[u8]) -> Result<(), Failed> {
        Ok(())
    }

    fn cut(&mut self, _file: Which, _size: u64) -> Result<(), Failed> {
        Ok(())
    }

    fn sync(&mut self, _file: Which) -> Result<(), Failed> {
        Ok(())
    }
}
