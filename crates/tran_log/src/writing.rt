//! Writes into the log that are brought to the disk.
ghost use Rattle.std.specs.Prelude.{◌≡◌, ◌≤◌, length, IsTrue, OnOk};
ghost use Rattle.gem_io.specs.Faults.{HasCause};
ghost use Rattle.gem_disk.specs.declared.disk.Which.TheVariants as which;
ghost use Rattle.gem_disk.specs.Disk.{reads, Torn};
ghost use Rattle.gem_disk.specs.Runs.{LeavesOnly};
ghost use Rattle.tran_log.specs.Resting.{SameExtent, StaysHonest, IsDurable, IsTornAt, IsWritten};

use gem_disk::{Disk, Which};
use gem_io::Failed;

// Writes the bytes from an offset on, and brings them to the disk.
pub(crate) fn write_through<D: Disk>(disk: &mut D, at: u64, bytes: &[u8]) -> Result<(), Failed>
    requires { IsTrue D.tells → at ≤ length (reads (D.past disk.old) which.Log) }
    ensures any_moment { IsTrue D.tells → IsDurable (D.past disk.old)
        → LeavesOnly (D.past disk.old) (D.past disk.new)
        (IsTornAt (D.past disk.old) at (length bytes.now)) }
    ensures written { IsTrue D.tells → OnOk result
        (IsWritten at bytes.now (D.past disk.old) (D.past disk.new)) }
    ensures torn { IsTrue D.tells → Torn at (length bytes.now)
        (reads (D.past disk.old) which.Log) (reads (D.past disk.new) which.Log) }
    ensures extent { IsTrue D.tells → SameExtent (D.past disk.old) (D.past disk.new) }
    ensures honest { IsTrue D.tells → StaysHonest (D.past disk.old) (D.past disk.new) }
    ensures faults { HasCause (D.faults disk.old) (D.faults disk.new) result }
{
    disk.write_at(Which::Log, at, bytes)?;
    disk.sync(Which::Log)
}
