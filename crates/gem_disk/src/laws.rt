//! What follows from the definitions alone. Each law is the contract of a function that does
//! nothing.
ghost use Rattle.std.specs.Prelude.{◌≡◌, ◌≢◌, ℕ, ◌+◌, ◌≤◌, List, [], Result, length, take, drop};
ghost use Rattle.gem_io.specs.declared.device.Failed.{Failed};
ghost use Rattle.gem_disk.specs.declared.disk.Which.{Which};
ghost use Rattle.gem_disk.specs.declared.images.Pick.{Pick};
ghost use Rattle.gem_disk.specs.Disk.{Files, Change, Synced, Past, moment, reads, as_read, file_of, stepped, placed, FileImages, CrashImages, CrashImagesSince, Writes, Cuts, Syncs};
ghost use Rattle.gem_disk.specs.Picked.{picked, IsExact};

/// What was written reads back, and what was there before and behind it reads as before.
pub fn written_reads_back()
    ensures written { (at : ℕ) (bytes old : List ℕ) → at ≤ length old →
        take (length bytes) (drop at (placed at bytes old)) ≡ bytes }
    ensures before { (at : ℕ) (bytes old : List ℕ) → at ≤ length old →
        take at (placed at bytes old) ≡ take at old }
    ensures behind { (at : ℕ) (bytes old : List ℕ) → at ≤ length old →
        drop (at + length bytes) (placed at bytes old) ≡ drop (at + length bytes) old }
{}

/// A disk as it reads is one of its crash images: at first, and after each call on a disk of which
/// it holds, done or failed.
pub fn reads_as_an_image()
    ensures at_first { (files : Files) →
        CrashImages (record { first = files; steps = [] }) files }
    ensures after_write { (file : Which) (at : ℕ) (bytes : List ℕ) (old new : Past)
        (outcome : Result (Unit {0}) Failed) → at ≤ length (reads old file) →
        Writes file at bytes old outcome new → CrashImages old (as_read old) →
        CrashImages new (as_read new) }
    ensures after_cut { (file : Which) (n : ℕ) (old new : Past)
        (outcome : Result (Unit {0}) Failed) →
        Cuts file n old outcome new → CrashImages old (as_read old) →
        CrashImages new (as_read new) }
    ensures after_sync { (file : Which) (old new : Past) (outcome : Result (Unit {0}) Failed) →
        Syncs file old outcome new → CrashImages old (as_read old) →
        CrashImages new (as_read new) }
{}

/// After a sync that succeeds a crash leaves of the file what a read gives.
pub fn synced_is_left()
    ensures { (file : Which) (old new : Past) (images : Files) →
        new ≡ stepped old file Synced (reads old file) → CrashImages new images →
        file_of images file ≡ reads new file }
{}

/// A step on one file leaves what the other reads as, and what a crash may leave of it.
pub fn other_file_stays()
    ensures reads { (past : Past) (file other : Which) (change : Change) (bytes : List ℕ) →
        file ≢ other → reads (stepped past file change bytes) other ≡ reads past other }
    ensures images { (past : Past) (file other : Which) (change : Change)
        (bytes image : List ℕ) → file ≢ other →
        (FileImages (stepped past file change bytes).first
        (stepped past file change bytes).steps other image →
        FileImages past.first past.steps other image)
        × (FileImages past.first past.steps other image →
        FileImages (stepped past file change bytes).first
        (stepped past file change bytes).steps other image) }
{}

/// A crash at this moment is one of those since an earlier moment, and the only one since this
/// moment.
pub fn now_is_since()
    ensures now_counts { (since : ℕ) (past : Past) (images : Files) →
        CrashImages past images → CrashImagesSince since past images }
    ensures only_now { (past : Past) (images : Files) →
        CrashImagesSince (moment past) past images → CrashImages past images }
{}

/// Each image that may be picked is one that a crash may leave, where each step did what it says.
pub fn picked_is_left()
    ensures { (pick : Pick) (past : Past) → IsExact past → CrashImages past (picked pick past) }
{}
