//! What a disk is: two files, what they read as, and what a crash may leave of them.
ghost use Rattle.std.specs.Prelude.{◌≡◌, ℕ, ◌+◌, ◌≤◌, Bool, length, take, drop, IsTrue, IfOk, OnOk};
ghost use Rattle.gem_io.specs.Faults.{HasCause};
ghost use Rattle.gem_disk.specs.Disk.{Past, reads, Writes, Cuts, Syncs};

use gem_io::Failed;

/// One of the two files of a disk.
#[derive(Clone, Copy, Debug, PartialEq, Eq)]
pub enum Which {
    /// The pages of the store.
    Extent,
    /// The records since.
    Log,
}

/// A device of two files. A call on one of them leaves the other as it is, and what a crash may
/// leave of it. A crash takes both files at one moment, and leaves of each what it may, whatever it
/// leaves of the other.
///
/// Each call may fail. `Failed` tells only that the count of faults rose in the call.
pub trait Disk {
    /// Whether the disk tells its contents. Where it doesn't, no clause speaks of them, and nothing
    /// has to be known of them before a call.
    ghost tells: { Bool };

    /// What became of the disk: what each file reads as, and what a crash may leave at this moment
    /// and at each one before.
    ghost past: { Self → Past };

    /// How often the disk has failed. The count stays at 2^64 - 1, and then counts as risen in each
    /// call.
    ghost faults: { Self → ℕ };

    /// How many bytes the file has.
    fn length(&mut self, file: Which) -> Result<u64, Failed>
        ensures bytes { IsTrue tells → IfOk result (λ n. n ≡ length (reads (past self.old) file)) }
        ensures past { IsTrue tells → past self.new ≡ past self.old }
        ensures faults { HasCause (faults self.old) (faults self.new) result };

    /// Fills `out` with the bytes from an offset on. The range is inside the file.
    fn read(&mut self, file: Which, at: u64, out: &mut [u8]) -> Result<(), Failed>
        requires { IsTrue tells → at + length out.old ≤ length (reads (past self.old) file) }
        ensures bytes { IsTrue tells → OnOk result
            (out.new ≡ take (length out.old) (drop at (reads (past self.old) file))) }
        ensures past { IsTrue tells → past self.new ≡ past self.old }
        ensures faults { HasCause (faults self.old) (faults self.new) result };

    /// Writes the bytes from an offset on, which is at most the file's length. Until a sync a crash
    /// may leave any bytes in the range. Where it fails, the file reads as before, or as anything
    /// that a crash may leave of the write.
    fn write_at(&mut self, file: Which, at: u64, bytes: &[u8]) -> Result<(), Failed>
        requires { IsTrue tells → at ≤ length (reads (past self.old) file) }
        ensures past { IsTrue tells →
            Writes file at bytes.now (past self.old) result (past self.new) }
        ensures faults { HasCause (faults self.old) (faults self.new) result };

    /// Cuts the file to a number of bytes, which is at most its length. Until a sync a crash may
    /// leave any length between. Where it fails, the file has a length between.
    fn cut(&mut self, file: Which, size: u64) -> Result<(), Failed>
        requires { IsTrue tells → size ≤ length (reads (past self.old) file) }
        ensures past { IsTrue tells → Cuts file size (past self.old) result (past self.new) }
        ensures faults { HasCause (faults self.old) (faults self.new) result };

    /// Brings the file to the disk: a crash leaves what a read gives, until the next change. Where
    /// it fails, all stays as it was.
    fn sync(&mut self, file: Which) -> Result<(), Failed>
        ensures past { IsTrue tells → Syncs file (past self.old) result (past self.new) }
        ensures faults { HasCause (faults self.old) (faults self.new) result };
}
