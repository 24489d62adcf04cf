//! A file system without files, which tells each call that is made of it.
ghost use Rattle.std.specs.Prelude.{◌≡◌, if◌then◌else◌, ℕ, Bool, true, Some, None, List, [], ◌∷◌, ◌++◌, IfOk, string_bytes};
ghost use Rattle.std.specs.Result.{is_ok};
ghost use Rattle.file_disk.specs.Calls.{Call, Opening, FolderSync, LengthOf, Reading, Writing, Cutting, Sync};
ghost use Rattle.shelves_tests.specs.declared.recorded_calls.Asked.{Asked};
ghost use Rattle.shelves_tests.specs.declared.recorded_calls.Asked.TheVariants.{Open, SyncFolder, Length, Read, Write, Cut, SyncFile};

use file_disk::FileCalls;
use std::alloc::Global;
use std::marker::Model;
use std::process::Abort;
use std::{fmt, io};

#[derive(Clone, Copy)]
pub(crate) enum Asked {
    Open,
    SyncFolder,
    Length,
    Read,
    Write,
    Cut,
    SyncFile,
}

// A call: what was asked of which path, an offset or a size, the bytes, and whether it was done.
#[derive(Drop)]
pub(crate) struct Made {
    asked: Asked,
    path: String,
    at: u64,
    bytes: Vec<u8>,
    done: bool,
}

impl Model for Made {
    ghost Value = { Call };

    ghost view = { λ s. elim s.asked [
      | Open ↦ Opening (string_bytes s.path) s.done
      | SyncFolder ↦ FolderSync (string_bytes s.path) s.done
      | Length ↦ LengthOf (string_bytes s.path) (if s.done then Some s.at else None)
      | Read ↦ Reading (string_bytes s.path) s.at s.bytes.items s.done
      | Write ↦ Writing (string_bytes s.path) s.at s.bytes.items s.done
      | Cut ↦ Cutting (string_bytes s.path) s.at s.done
      | SyncFile ↦ Sync (string_bytes s.path) s.done
    ] };
}

impl fmt::Display for Made {
    fn fmt<W: fmt::Write>(&self, f: &mut fmt::Formatter<W>) -> fmt::Result {
        match self.asked {
            Asked::Open => write!(f, "open {}", self.path)?,
            Asked::SyncFolder => write!(f, "sync folder {}", self.path)?,
            Asked::Length => write!(f, "length {}", self.path)?,
            Asked::Read => write!(f, "read {} at {} {}", self.path, self.at, self.bytes.len())?,
            Asked::Write => write!(f, "write {} at {} {}", self.path, self.at, self.bytes.len())?,
            Asked::Cut => write!(f, "cut {} to {}", self.path, self.at)?,
            Asked::SyncFile => write!(f, "sync {}", self.path)?,
        }
        f.write_str(if self.done { ";" } else { " failed;" })
    }
}

#[derive(Drop)]
pub(crate) struct Opened {
    path: String,
}

// It fails in the call of this number, of which the first is 0. Each file has this size, and each
// read gives zeros.
#[derive(Drop)]
pub(crate) struct Recorder<R> {
    rt: R,
    alloc: Global,
    fails_in: usize,
    size: u64,
    made: Vec<Made>,
}

impl<R: Abort> Recorder<R> {
    pub(crate) fn new(rt: R, alloc: Global, fails_in: usize, size: u64) -> Recorder<R> {
        Recorder {
            rt,
            alloc,
            fails_in,
            size,
            made: Vec::new(alloc),
        }
    }

    // All calls, each with a semicolon behind it.
    pub(crate) fn told(&self) -> String {
        let mut text = String::new(self.alloc);
        for made in &self.made {
            fmt::Write::write_fmt(&mut text, format_args!("{made}")).expect(&self.rt, "memory");
        }
        text
    }

    fn text(&self, text: &str) -> String
        ensures { string_bytes result ≡ text.now }
    {
        String::from_str(self.alloc, text).expect(&self.rt, "memory")
    }

    // Records a call, and says whether it is done.
    fn make(&mut self, asked: Asked, path: &str, at: u64, bytes: &[u8]) -> bool
        ensures { self.new.made.items ≡ self.old.made.items ++ elim asked [
          | Open ↦ Opening path.now result
          | SyncFolder ↦ FolderSync path.now result
          | Length ↦ LengthOf path.now (if result then Some at else None)
          | Read ↦ Reading path.now at bytes.now result
          | Write ↦ Writing path.now at bytes.now result
          | Cut ↦ Cutting path.now at result
          | SyncFile ↦ Sync path.now result
        ] ∷ [] }
    {
        let done = self.made.len() != self.fails_in;
        let made = Made {
            asked,
            path: self.text(path),
            at,
            bytes: bytes.to_vec(self.alloc).expect(&self.rt, "memory"),
            done,
        };
        self.made.push(made).expect(&self.rt, "memory");
        done
    }
}

fn answer<T: Drop>(done: bool, value: T) -> io::Result<T>
    ensures done { is_ok result ≡ done }
    ensures value { IfOk result (λ answer. answer ≡ value) }
{
    if done {
        Ok(value)
    } else {
        Err(io::Error::from(io::ErrorKind::Other))
    }
}

impl<R: Abort> FileCalls for Recorder<R> {
    type File = Opened;

    ghost tells = { true };

    ghost calls = { λ s. s.made.items };

    ghost path_of = { λ file. string_bytes file.path };

    fn open(&mut self, path: &str) -> io::Result<Opened> {
        let file = Opened {
            path: self.text(path),
        };
        answer(self.make(Asked::Open, path, 0, &[]), file)
    }

    fn sync_folder(&mut self, folder: &str) -> io::Result<()> {
        answer(self.make(Asked::SyncFolder, folder, 0, &[]), ())
    }

    fn length(&mut self, file: &Opened) -> io::Result<u64> {
        let size = self.size;
        answer(
            self.make(Asked::Length, file.path.as_str(), size, &[]),
            size,
        )
    }

    fn read(&mut self, file: &mut Opened, at: u64, out: &mut [u8]) -> io::Result<()> {
        out.fill(0);
        answer(self.make(Asked::Read, file.path.as_str(), at, out), ())
    }

    fn write(&mut self, file: &mut Opened, at: u64, bytes: &[u8]) -> io::Result<()> {
        answer(self.make(Asked::Write, file.path.as_str(), at, bytes), ())
    }

    fn cut(&mut self, file: &Opened, size: u64) -> io::Result<()> {
        answer(self.make(Asked::Cut, file.path.as_str(), size, &[]), ())
    }

    fn sync(&mut self, file: &Opened) -> io::Result<()> {
        answer(self.make(Asked::SyncFile, file.path.as_str(), 0, &[]), ())
    }
}
