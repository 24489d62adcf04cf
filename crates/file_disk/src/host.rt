//! The file system of the host.
ghost use Rattle.std.specs.Prelude.{◌≡◌, false, []};

use crate::FileCalls;
use std::fs::{File, OpenFile, OpenOptions};
use std::io;
use std::io::{Read, Seek, SeekFrom, Write};
use std::rt::Files;

/// The calls of the host's file system. It tells none of them: that it does what it is asked is
/// trusted.
#[derive(Drop)]
pub struct HostFiles<R> {
    rt: R,
}

impl<R: Files> HostFiles<R> {
    /// The file system of `rt`.
    pub fn new(rt: R) -> HostFiles<R>
        ensures { result.rt ≡ rt }
    {
        HostFiles { rt }
    }
}

impl<R: Files> FileCalls for HostFiles<R> {
    type File = R::File;

    ghost tells = { false };

    ghost calls = { λ _. [] };

    ghost path_of = { λ _. [] };

    fn open(&mut self, path: &str) -> io::Result<R::File> {
        OpenOptions::new()
            .read(true)
            .write(true)
            .create(true)
            .open(&self.rt, path)
    }

    fn sync_folder(&mut self, folder: &str) -> io::Result<()> {
        File::open(&self.rt, folder)?.sync_all()
    }

    fn length(&mut self, file: &R::File) -> io::Result<u64> {
        Ok(file.metadata()?.len())
    }

    fn read(&mut self, file: &mut R::File, at: u64, out: &mut [u8]) -> io::Result<()> {
        file.seek(SeekFrom::Start(at))?;
        file.read_exact(out)
    }

    fn write(&mut self, file: &mut R::File, at: u64, bytes: &[u8]) -> io::Result<()> {
        file.seek(SeekFrom::Start(at))?;
        file.write_all(bytes)
    }

    fn cut(&mut self, file: &R::File, size: u64) -> io::Result<()> {
        file.set_len(size)
    }

    fn sync(&mut self, file: &R::File) -> io::Result<()> {
        file.sync_all()
    }
}
