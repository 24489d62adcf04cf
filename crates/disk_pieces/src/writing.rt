//! Writes pieces into the extent of a disk, and one byte behind them.
ghost use Rattle.std.specs.Prelude.{◌≡◌, ◌⊎◌, ℕ, ◌≤◌, List, [], ◌∷◌, length, IsTrue, OnOk};
ghost use Rattle.gem_io.specs.Faults.{HasCause};
ghost use Rattle.gem_disk.specs.declared.disk.Which.TheVariants as which;
ghost use Rattle.gem_disk.specs.Disk.{Past, reads, placed, Torn, Writes};
ghost use Rattle.disk_pieces.specs.Pieces.{Reach, Ascend, Kept, AllMiss, Keeps, Stand, IsBrought, IsEither, IsSwitched};
ghost use Rattle.disk_pieces.specs.Crashes.{IsDurable, IsLonger, OnlyLeaves, MayWrite, ByteWritten, SwitchesLast};

use crate::Piece;
use gem_disk::{Disk, Which};
use gem_io::Failed;

// Writes one piece.
fn write_piece<D: Disk>(disk: &mut D, piece: &Piece) -> Result<(), Failed>
    requires { IsTrue D.tells →
        piece.now.at ≤ length (reads (D.past disk.old) which.Extent) }
    ensures past { IsTrue D.tells → Writes which.Extent piece.now.at piece.now.bytes
        (D.past disk.old) result (D.past disk.new) }
    ensures faults { HasCause (D.faults disk.old) (D.faults disk.new) result }
{
    disk.write_at(Which::Extent, piece.at(), piece.bytes())
}

// Writes the pieces in their order. Nothing is brought to the disk.
fn write_pieces<D: Disk>(disk: &mut D, pieces: &[Piece]) -> Result<(), Failed>
    requires { IsTrue D.tells →
        Reach (length (reads (D.past disk.old) which.Extent)) pieces.now }
    ensures kept { (kept : Kept) (file : List ℕ) (before : Past) → IsTrue D.tells →
        AllMiss kept pieces.now → OnlyLeaves (Keeps kept file) before (D.past disk.old) →
        OnlyLeaves (Keeps kept file) before (D.past disk.new) }
    ensures stand { (from : ℕ) → IsTrue D.tells → Ascend from pieces.now →
        OnOk result (Stand (reads (D.past disk.new) which.Extent) pieces.now) }
    ensures longer { IsTrue D.tells → IsLonger (D.past disk.old) (D.past disk.new) }
    ensures faults { HasCause (D.faults disk.old) (D.faults disk.new) result }
{
    let mut rest = pieces;
    while let Some((piece, behind)) = rest.split_first() {
        write_piece(disk, piece)?;
        rest = behind;
    }
    Ok(())
}

/// Writes the pieces in their order, and brings them to the disk. Each begins inside the file or at
/// its end.
///
/// Until it has answered, a crash leaves a file that has what has to stay. The error is that the
/// disk's count of faults rose; some pieces may stand then.
pub fn bring<D: Disk>(disk: &mut D, pieces: &[Piece]) -> Result<(), Failed>
    requires { IsTrue D.tells →
        Reach (length (reads (D.past disk.old) which.Extent)) pieces.now }
    ensures any_moment { (kept : Kept) → IsTrue D.tells →
        MayWrite (D.past disk.old) kept pieces.now →
        OnlyLeaves (Keeps kept (reads (D.past disk.old) which.Extent)) (D.past disk.old)
        (D.past disk.new) }
    ensures done { (kept : Kept) → IsTrue D.tells →
        MayWrite (D.past disk.old) kept pieces.now → OnOk result
        (IsBrought kept pieces.now (reads (D.past disk.old) which.Extent)
        (reads (D.past disk.new) which.Extent)) }
    ensures longer { IsTrue D.tells → IsLonger (D.past disk.old) (D.past disk.new) }
    ensures durable { IsTrue D.tells → OnOk result (IsDurable (D.past disk.new)) }
    ensures faults { HasCause (D.faults disk.old) (D.faults disk.new) result }
{
    write_pieces(disk, pieces)?;
    disk.sync(Which::Extent)
}

/// Writes one byte, and brings it to the disk. Its offset is at most the file's length.
///
/// Until it has answered, a crash leaves any byte there, and all else as it was. The error is that
/// the disk's count of faults rose; the byte may be any then.
pub fn switch<D: Disk>(disk: &mut D, at: u64, byte: u8) -> Result<(), Failed>
    requires { IsTrue D.tells → at ≤ length (reads (D.past disk.old) which.Extent) }
    ensures any_moment { IsTrue D.tells → IsDurable (D.past disk.old) →
        OnlyLeaves (Torn at 1 (reads (D.past disk.old) which.Extent)) (D.past disk.old)
        (D.past disk.new) }
    ensures steps { IsTrue D.tells → (D.past disk.new ≡ D.past disk.old)
        ⊎ ByteWritten at (D.past disk.old) (D.past disk.new) }
    ensures done { IsTrue D.tells → OnOk result (reads (D.past disk.new) which.Extent
        ≡ placed at (byte ∷ []) (reads (D.past disk.old) which.Extent)) }
    ensures durable { IsTrue D.tells → OnOk result (IsDurable (D.past disk.new)) }
    ensures faults { HasCause (D.faults disk.old) (D.faults disk.new) result }
{
    disk.write_at(Which::Extent, at, &[byte])?;
    disk.sync(Which::Extent)
}

/// Writes the pieces and brings them to the disk; then one byte, at an offset of at most the file's
/// length, and brings it to the disk.
///
/// Until it has answered, a crash leaves a file that has what has to stay, or one in which all
/// pieces stand, with any byte at the offset. The second may come only once all pieces are on the
/// disk; from then on nothing is done but the write of the byte and its sync. The error is that the disk's count of faults rose; the
/// file reads as one of the two then.
pub fn bring_and_switch<D: Disk>(
    disk: &mut D,
    pieces: &[Piece],
    at: u64,
    byte: u8,
) -> Result<(), Failed>
    requires reach { IsTrue D.tells →
        Reach (length (reads (D.past disk.old) which.Extent)) pieces.now }
    requires inside { IsTrue D.tells → at ≤ length (reads (D.past disk.old) which.Extent) }
    ensures any_moment { (kept : Kept) → IsTrue D.tells →
        MayWrite (D.past disk.old) kept pieces.now →
        OnlyLeaves (IsEither kept pieces.now at (reads (D.past disk.old) which.Extent))
        (D.past disk.old) (D.past disk.new) }
    ensures switches { (kept : Kept) → IsTrue D.tells →
        MayWrite (D.past disk.old) kept pieces.now →
        SwitchesLast (Keeps kept (reads (D.past disk.old) which.Extent)) at (D.past disk.old)
        (D.past disk.new) }
    ensures done { (kept : Kept) → IsTrue D.tells →
        MayWrite (D.past disk.old) kept pieces.now → OnOk result
        (IsSwitched kept pieces.now at byte (reads (D.past disk.old) which.Extent)
        (reads (D.past disk.new) which.Extent)) }
    ensures durable { IsTrue D.tells → OnOk result (IsDurable (D.past disk.new)) }
    ensures faults { HasCause (D.faults disk.old) (D.faults disk.new) result }
{
    bring(disk, pieces)?;
    switch(disk, at, byte)
}
