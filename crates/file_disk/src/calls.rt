//! What a disk of two files asks of a file system.
ghost use Rattle.std.specs.Prelude.{◌≡◌, ℕ, Bool, List, [], ◌∷◌, ◌++◌, IsTrue, IfOk};
ghost use Rattle.std.specs.Result.{is_ok, result_ok};
ghost use Rattle.file_disk.specs.Calls.{Call, Opening, FolderSync, LengthOf, Reading, Writing, Cutting, Sync};

use std::io;

/// The calls that a disk of two files makes of a file system.
///
/// Each one may fail. What stands in a file then is left open.
pub trait FileCalls {
    /// A file that is open.
    type File: Drop;

    /// Whether the calls are told. Where they aren't, no clause speaks of them.
    ghost tells: { Bool };

    /// The calls that were made, the oldest first.
    ghost calls: { Self → List Call };

    /// The path at which a file was opened.
    ghost path_of: { Self.File → List ℕ };

    /// Opens a file to read and to write it, and makes it where it is absent.
    fn open(&mut self, path: &str) -> io::Result<Self::File>
        ensures call { IsTrue tells →
            calls self.new ≡ calls self.old ++ Opening path.now (is_ok result) ∷ [] }
        ensures path { IsTrue tells → IfOk result (λ file. path_of file ≡ path.now) };

    /// Brings the names in a folder to the disk, so that a file that was made is found again.
    fn sync_folder(&mut self, folder: &str) -> io::Result<()>
        ensures call { IsTrue tells →
            calls self.new ≡ calls self.old ++ FolderSync folder.now (is_ok result) ∷ [] };

    /// How many bytes the file has.
    fn length(&mut self, file: &Self::File) -> io::Result<u64>
        ensures call { IsTrue tells → calls self.new
            ≡ calls self.old ++ LengthOf (path_of file.now) (result_ok result) ∷ [] };

    /// Fills `out` with the bytes from an offset on. It is an error if there are fewer.
    fn read(&mut self, file: &mut Self::File, at: u64, out: &mut [u8]) -> io::Result<()>
        ensures call { IsTrue tells → calls self.new
            ≡ calls self.old ++ Reading (path_of file.old) at out.new (is_ok result) ∷ [] }
        ensures path { IsTrue tells → path_of file.new ≡ path_of file.old };

    /// Writes all the bytes from an offset on.
    fn write(&mut self, file: &mut Self::File, at: u64, bytes: &[u8]) -> io::Result<()>
        ensures call { IsTrue tells → calls self.new
            ≡ calls self.old ++ Writing (path_of file.old) at bytes.now (is_ok result) ∷ [] }
        ensures path { IsTrue tells → path_of file.new ≡ path_of file.old };

    /// Cuts the file to a number of bytes.
    fn cut(&mut self, file: &Self::File, size: u64) -> io::Result<()>
        ensures call { IsTrue tells → calls self.new
            ≡ calls self.old ++ Cutting (path_of file.now) size (is_ok result) ∷ [] };

    /// Brings the file to the disk.
    fn sync(&mut self, file: &Self::File) -> io::Result<()>
        ensures call { IsTrue tells → calls self.new
            ≡ calls self.old ++ Sync (path_of file.now) (is_ok result) ∷ [] };
}
