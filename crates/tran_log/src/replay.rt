//! The records of a log on a disk, handed on one after the other.
ghost use Rattle.std.specs.Prelude.{◌≡◌, ◌≤◌, ◌<◌, ◌+◌, length, None, IsTrue, IfOk, IfErr, IfSome, OnOk, IsErrOf};
ghost use Rattle.gem_io.specs.Faults.{HasRisen};
ghost use Rattle.gem_disk.specs.declared.disk.Which.TheVariants as which;
ghost use Rattle.gem_disk.specs.Disk.{reads};
ghost use Rattle.body_codec.specs.Stored.{IsStoredEffect};
ghost use Rattle.tran_log.specs.Log.{walk};
ghost use Rattle.tran_log.specs.Reads.{IsPiece, IsOpenAt, IsNextAt, IsAt, BreaksAt, LogFails, IsReplayed};

use crate::fault::{LogFault, LogRule};
use crate::logged::Logged;
use crate::piece::Piece;
use crate::read::{Next, bytes_due, read_front};
use gem_disk::Disk;
use std::alloc::{AllocError, Global};

/// What takes the records of a log, one after the other, while it is read.
pub trait Replay {
    ghost use Rattle.tran_log.specs.declared.logged.Logged.{Logged};

    /// What one record makes of it.
    ghost takes: { Self → Logged → Self → Type 0 };

    /// Takes the next record. Where memory runs out, no more are read.
    fn take(&mut self, alloc: Global, one: Logged) -> Result<(), AllocError>
        requires { IsStoredEffect one.effect.number one.effect }
        ensures { OnOk result (takes self.old one self.new) };
}

impl Replay for Vec<Logged> {
    ghost use Rattle.std.specs.Prelude.{◌≡◌, [], ◌∷◌, ◌++◌};

    ghost takes = { λ old one new. new.items ≡ old.items ++ one ∷ [] };

    fn take(&mut self, _alloc: Global, one: Logged) -> Result<(), AllocError> {
        self.push(one)?;
        Ok(())
    }
}

// The record at this offset, which takes so many bytes with its gate. The piece begins with it, and
// then behind it.
fn take_front<D: Disk>(
    alloc: Global,
    disk: &mut D,
    piece: &mut Piece,
    size: u64,
    at: u64,
    last: Option<u64>,
    due: u64,
) -> Result<Next, LogFault>
    requires due { 13 ≤ due }
    requires inside { at + due ≤ size }
    requires size { IsTrue D.tells → size ≡ length (reads (D.past disk.old) which.Log) }
    requires piece { IsPiece D.tells (reads (D.past disk.old) which.Log) size at piece.old }
    requires open_gate { IsTrue D.tells → IsOpenAt (reads (D.past disk.old) which.Log) at due }
    ensures next { IfOk result
        (IsNextAt D.tells (reads (D.past disk.old) which.Log) at last) }
    ensures piece { IfOk result (λ next. IsPiece D.tells (reads (D.past disk.old) which.Log) size
        (at + next.bytes) piece.new) }
    ensures broken { IsTrue D.tells → IfErr result
        (BreaksAt (reads (D.past disk.old) which.Log) at last) }
    ensures past { IsTrue D.tells → D.past disk.new ≡ D.past disk.old }
    ensures failed { IsErrOf result LogFault.Disk → HasRisen (D.faults disk.old) (D.faults disk.new) }
    ensures quiet { OnOk result (D.faults disk.new ≡ D.faults disk.old) }
    ensures later { D.faults disk.old ≤ D.faults disk.new }
{
    piece.fill(alloc, disk, size, at, due)?;
    let next = read_front(alloc, at, last, piece.behind_gate())?;
    piece.skip(next.bytes);
    Ok(next)
}

// What stands at this offset of a log of so many bytes, where a gate is due: a record behind an open
// gate, or no open gate. The piece begins there, and then behind the record.
fn read_next<D: Disk>(
    alloc: Global,
    disk: &mut D,
    piece: &mut Piece,
    size: u64,
    at: u64,
    last: Option<u64>,
) -> Result<Option<Next>, LogFault>
    requires inside { at < size }
    requires size { IsTrue D.tells → size ≡ length (reads (D.past disk.old) which.Log) }
    requires piece { IsPiece D.tells (reads (D.past disk.old) which.Log) size at piece.old }
    ensures next { IfOk result (IsAt D.tells (reads (D.past disk.old) which.Log) at last) }
    ensures piece { IfOk result (λ next. IfSome next (λ next.
        IsPiece D.tells (reads (D.past disk.old) which.Log) size (at + next.bytes) piece.new)) }
    ensures broken { IsTrue D.tells → IfErr result
        (BreaksAt (reads (D.past disk.old) which.Log) at last) }
    ensures past { IsTrue D.tells → D.past disk.new ≡ D.past disk.old }
    ensures failed { IsErrOf result LogFault.Disk → HasRisen (D.faults disk.old) (D.faults disk.new) }
    ensures quiet { OnOk result (D.faults disk.new ≡ D.faults disk.old) }
    ensures later { D.faults disk.old ≤ D.faults disk.new }
{
    piece.fill(alloc, disk, size, at, 13)?;
    let due = bytes_due(piece.front());
    let Some(due) = due else {
        return Ok(None);
    };
    let left = size - at;
    if left < due {
        let rule = LogRule::Length;
        return Err(LogFault::NotLog { at, rule });
    }
    let next = take_front(alloc, disk, piece, size, at, last, due)?;
    Ok(Some(next))
}

// Hands on the records of a log of so many bytes, and gives the offset of the gate at which it ends.
pub(crate) fn replay_chain<D: Disk, R: Replay>(
    alloc: Global,
    disk: &mut D,
    size: u64,
    replay: &mut R,
) -> Result<u64, LogFault>
    requires { IsTrue D.tells → size ≡ length (reads (D.past disk.old) which.Log) }
    ensures replayed { IfOk result (IsReplayed R.takes replay.old replay.new D.tells
        (reads (D.past disk.old) which.Log)) }
    ensures short { IfOk result (λ end. end < size) }
    ensures broken { IsTrue D.tells → IfErr result
        (LogFails (walk 0 0 None (reads (D.past disk.old) which.Log))) }
    ensures past { IsTrue D.tells → D.past disk.new ≡ D.past disk.old }
    ensures failed { IsErrOf result LogFault.Disk → HasRisen (D.faults disk.old) (D.faults disk.new) }
    ensures quiet { OnOk result (D.faults disk.new ≡ D.faults disk.old) }
    ensures later { D.faults disk.old ≤ D.faults disk.new }
{
    let mut piece = Piece::new(alloc);
    let mut at = 0;
    let mut last = None;
    while at < size {
        let found = read_next(alloc, disk, &mut piece, size, at, last)?;
        let Some(next) = found else {
            return Ok(at);
        };
        let Next { one, bytes } = next;
        last = Some(one.effect.number);
        replay.take(alloc, one)?;
        at += bytes;
    }
    let rule = LogRule::Gate;
    Err(LogFault::NotLog { at: size, rule })
}
