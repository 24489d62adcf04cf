//! A file that is opened at the first call on it.
ghost use Rattle.std.specs.Prelude.{◌≡◌, true, false, List, [], ◌∷◌, ◌++◌, IsTrue, IfOk, IfSome, MatchResult};
ghost use Rattle.std.specs.Option.{is_some};
ghost use Rattle.std.specs.Result.{is_ok, result_ok};
ghost use Rattle.file_disk.specs.Calls.{LengthOf, Reading, Writing, Cutting, Sync, folder_of, opening, StaysClosed, Asks};

use crate::FileCalls;
use std::alloc::{AllocError, Global};
use std::io;
use std::marker::Model;
use std::path::Path;

// A file by its path, and the open file once there was a call on it.
#[derive(Drop)]
pub(crate) struct LateFile<C: FileCalls> {
    path: String,
    file: Option<C::File>,
}

impl<C: FileCalls> Model for LateFile<C> {
    ghost use Rattle.std.specs.Prelude.{◌≡◌, IsTrue, IfSome, string_bytes};
    ghost use Rattle.std.specs.Option.{is_some};
    ghost use Rattle.file_disk.specs.Calls.{DiskFile};

    ghost Value = { DiskFile };

    ghost view = { λ s. record { path = string_bytes s.path; is_open = is_some s.file } };

    ghost invariant = { λ s.
        IsTrue C.tells → IfSome s.file (λ file. C.path_of file ≡ string_bytes s.path) };
}

impl<C: FileCalls> LateFile<C> {
    pub(crate) fn at(alloc: Global, path: &str) -> Result<LateFile<C>, AllocError>
        ensures { IfOk result (λ late. late ≡ record { path = path.now; is_open = false }) }
    {
        Ok(LateFile {
            path: String::from_str(alloc, path)?,
            file: None,
        })
    }

    pub(crate) fn length(&mut self, calls: &mut C) -> io::Result<u64>
        ensures { IsTrue C.tells → Asks (LengthOf self.old.path (result_ok result))
            (is_ok result) self.old self.new (C.calls calls.old) (C.calls calls.new) }
    {
        let file = opened(calls, self.path.as_str(), self.file.take())?;
        let outcome = calls.length(&file);
        self.file = Some(file);
        outcome
    }

    pub(crate) fn read(&mut self, calls: &mut C, at: u64, out: &mut [u8]) -> io::Result<()>
        ensures { IsTrue C.tells → Asks (Reading self.old.path at out.new (is_ok result))
            (is_ok result) self.old self.new (C.calls calls.old) (C.calls calls.new) }
    {
        let mut file = opened(calls, self.path.as_str(), self.file.take())?;
        let outcome = calls.read(&mut file, at, out);
        self.file = Some(file);
        outcome
    }

    pub(crate) fn write(&mut self, calls: &mut C, at: u64, bytes: &[u8]) -> io::Result<()>
        ensures { IsTrue C.tells → Asks (Writing self.old.path at bytes.now (is_ok result))
            (is_ok result) self.old self.new (C.calls calls.old) (C.calls calls.new) }
    {
        let mut file = opened(calls, self.path.as_str(), self.file.take())?;
        let outcome = calls.write(&mut file, at, bytes);
        self.file = Some(file);
        outcome
    }

    pub(crate) fn cut(&mut self, calls: &mut C, size: u64) -> io::Result<()>
        ensures { IsTrue C.tells → Asks (Cutting self.old.path size (is_ok result))
            (is_ok result) self.old self.new (C.calls calls.old) (C.calls calls.new) }
    {
        let file = opened(calls, self.path.as_str(), self.file.take())?;
        let outcome = calls.cut(&file, size);
        self.file = Some(file);
        outcome
    }

    pub(crate) fn sync(&mut self, calls: &mut C) -> io::Result<()>
        ensures { IsTrue C.tells → Asks (Sync self.old.path (is_ok result))
            (is_ok result) self.old self.new (C.calls calls.old) (C.calls calls.new) }
    {
        let file = opened(calls, self.path.as_str(), self.file.take())?;
        let outcome = calls.sync(&file);
        self.file = Some(file);
        outcome
    }
}

// The file that was kept, or the one at this path, opened now. Its folder is synced then, since
// opening may have made it.
fn opened<C: FileCalls>(calls: &mut C, path: &str, kept: Option<C::File>) -> io::Result<C::File>
    requires { IsTrue C.tells → IfSome kept (λ file. C.path_of file ≡ path.now) }
    ensures path { IsTrue C.tells → IfOk result (λ file. C.path_of file ≡ path.now) }
    ensures calls { IsTrue C.tells → MatchResult result
        (λ _. C.calls calls.new ≡ C.calls calls.old ++ opening (is_some kept) path.now)
        (λ _. StaysClosed (record { path = path.now; is_open = is_some kept })
        (C.calls calls.old) (C.calls calls.new)) }
{
    match kept {
        Some(file) => Ok(file),
        None => {
            let file = calls.open(path)?;
            calls.sync_folder(folder_of(path))?;
            Ok(file)
        }
    }
}

// The folder in which a file stands.
fn folder_of(path: &str) -> &str
    ensures { result.now ≡ folder_of path.now }
{
    match Path::new(path).parent() {
        Some(folder) if !folder.as_str().is_empty() => folder.as_str(),
        _ => ".",
    }
}
