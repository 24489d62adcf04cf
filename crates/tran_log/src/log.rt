//! A log on a disk, and how it is opened.
ghost use Rattle.std.specs.Prelude.{◌≡◌, ◌↔◌, ◌⊎◌, ◌+◌, ◌<◌, ◌≤◌, ℕ, List, [], ◌∷◌, ◌++◌, length, Ok, Err, IsTrue, IfOk, IfErr, OnOk, OnErr, IsErrOf};
ghost use Rattle.gem_io.specs.Faults.{HasRisen, HasCause};
ghost use Rattle.gem_record.specs.declared.mode.Mode.{Mode};
ghost use Rattle.gem_record.specs.declared.effect.Effect.{Effect};
ghost use Rattle.gem_disk.specs.declared.disk.Which.TheVariants as which;
ghost use Rattle.gem_disk.specs.Disk.{reads};
ghost use Rattle.gem_disk.specs.Runs.{LeavesOnly};
ghost use Rattle.tran_log.specs.declared.logged.Logged.{Logged};
ghost use Rattle.tran_log.specs.Log.{log_of, logged_as};
ghost use Rattle.tran_log.specs.Reads.{GivesLog, LogFails, AreRead};
ghost use Rattle.tran_log.specs.Resting.{SameExtent, StaysHonest, IsAtRest, Holds, IsOldOrRead, AllHold, HasReplayed, MayAppend, MayChain, added, HoldsEither, ReadsEither, HoldsOrNone, ReadsOrNone};

use crate::fault::LogFault;
use crate::logged::Logged;
use crate::replay::{Replay, replay_chain};
use crate::writing::write_through;
use gem_disk::{Disk, Which};
use gem_io::Failed;
use std::alloc::Global;
use std::error::Error;
use std::fmt;
use std::marker::Model;

/// A log on a disk. Its records stand on the disk alone; it knows where they end.
///
/// Contracts see it as the offset of the gate at which it ends.
#[derive(Debug, Drop)]
pub struct Log {
    end: usize,
}

impl Model for Log {
    ghost use Rattle.std.specs.Prelude.{ℕ, ◌+◌, ◌<◌, ◌^◌};

    ghost Value = { ℕ };

    ghost view = { λ log. log.end };

    ghost invariant = { λ log. log.end + 1 < 2 ^ 64 };
}

// A gate that is closed, and one that is open.
const CLOSED: &[u8] = &[0];

const OPEN: &[u8] = &[1];

/// Opens the log of a disk: hands on its records, of either format, one after the other, and holds
/// no more than one of them, and the piece of the log in which it stands. It begins with a sync, and
/// brings a log of one byte at most to the state of one without records. A longer log is read once,
/// in pieces, and reads as before, whatever the answer is.
///
/// A crash meanwhile leaves what it might have left before, or a log that holds what this one read
/// as.
///
/// `NotLog`: the bytes are no log; the place and the rule are those of its first fault. `Disk`: the
/// count of faults rose in this call. `NoMemory` may come in place of any answer. What was handed on
/// before a fault isn't told.
pub fn replay_log<D: Disk, R: Replay>(
    alloc: Global,
    disk: &mut D,
    replay: &mut R,
) -> Result<Log, LogFault>
    ensures replayed { IfOk result (HasReplayed R.takes replay.old replay.new D.tells
        (reads (D.past disk.old) which.Log) (D.past disk.new)) }
    ensures broken { IsTrue D.tells → IfErr result
        (LogFails (log_of (reads (D.past disk.old) which.Log))) }
    ensures any_moment { (logged : List Logged) → IsTrue D.tells
        → log_of (reads (D.past disk.old) which.Log) ≡ Ok logged
        → AllHold (D.past disk.old) logged
        → LeavesOnly (D.past disk.old) (D.past disk.new) (Holds (D.past disk.old) logged) }
    ensures each_image { IsTrue D.tells → LeavesOnly (D.past disk.old) (D.past disk.new)
        (IsOldOrRead (D.past disk.old)) }
    ensures kept { IsTrue D.tells → 1 < length (reads (D.past disk.old) which.Log)
        → reads (D.past disk.new) which.Log ≡ reads (D.past disk.old) which.Log }
    ensures short { IsTrue D.tells → length (reads (D.past disk.old) which.Log) ≤ 1
        → length (reads (D.past disk.new) which.Log) ≤ 1 }
    ensures closed { IsTrue D.tells → length (reads (D.past disk.old) which.Log) ≤ 1
        → OnOk result (reads (D.past disk.new) which.Log ≡ 0 ∷ []) }
    ensures extent { IsTrue D.tells → SameExtent (D.past disk.old) (D.past disk.new) }
    ensures honest { IsTrue D.tells → StaysHonest (D.past disk.old) (D.past disk.new) }
    ensures failed { IsErrOf result LogFault.Disk
        → HasRisen (D.faults disk.old) (D.faults disk.new) }
    ensures quiet { OnOk result (D.faults disk.new ≡ D.faults disk.old) }
    ensures later { D.faults disk.old ≤ D.faults disk.new }
{
    disk.sync(Which::Log)?;
    let size = disk.length(Which::Log)?;
    if size > 1 {
        let end = replay_chain(alloc, disk, size, replay)?;
        return Ok(Log { end: end as usize });
    }
    write_through(disk, 0, CLOSED)?;
    Ok(Log { end: 0 })
}

/// Opens the log of a disk as `replay_log` does, and gives all its records at once, in their order.
pub fn open_log<D: Disk>(alloc: Global, disk: &mut D) -> Result<(Log, Vec<Logged>), LogFault>
    ensures records { IsTrue D.tells → GivesLog (λ x. x.1.items)
        (log_of (reads (D.past disk.old) which.Log)) result }
    ensures whole { IfOk result (λ x. AreRead x.1.items) }
    ensures at_rest { IsTrue D.tells → IfOk result (λ x.
        IsAtRest (D.past disk.new) x.1.items x.0) }
    ensures any_moment { (logged : List Logged) → IsTrue D.tells
        → log_of (reads (D.past disk.old) which.Log) ≡ Ok logged
        → AllHold (D.past disk.old) logged
        → LeavesOnly (D.past disk.old) (D.past disk.new) (Holds (D.past disk.old) logged) }
    ensures each_image { IsTrue D.tells → LeavesOnly (D.past disk.old) (D.past disk.new)
        (IsOldOrRead (D.past disk.old)) }
    ensures kept { IsTrue D.tells → 1 < length (reads (D.past disk.old) which.Log)
        → reads (D.past disk.new) which.Log ≡ reads (D.past disk.old) which.Log }
    ensures short { IsTrue D.tells → length (reads (D.past disk.old) which.Log) ≤ 1
        → length (reads (D.past disk.new) which.Log) ≤ 1 }
    ensures closed { IsTrue D.tells → length (reads (D.past disk.old) which.Log) ≤ 1
        → OnOk result (reads (D.past disk.new) which.Log ≡ 0 ∷ []) }
    ensures extent { IsTrue D.tells → SameExtent (D.past disk.old) (D.past disk.new) }
    ensures honest { IsTrue D.tells → StaysHonest (D.past disk.old) (D.past disk.new) }
    ensures failed { IsErrOf result LogFault.Disk
        → HasRisen (D.faults disk.old) (D.faults disk.new) }
    ensures quiet { OnOk result (D.faults disk.new ≡ D.faults disk.old) }
    ensures later { D.faults disk.old ≤ D.faults disk.new }
{
    let mut logged = Vec::new(alloc);
    let log = replay_log(alloc, disk, &mut logged)?;
    Ok((log, logged))
}

/// The greatest length of a log: that of its records and of the gate behind them.
pub const LOG_LIMIT: u64 = 67_108_864;

/// Why a record wasn't added.
#[derive(Clone, Copy, Debug, PartialEq, Eq)]
pub enum AppendFault {
    /// The log would be longer than `LOG_LIMIT`. Nothing was done.
    Full {
        /// The log's length: the offset of the gate at which it ends, and one more.
        length: u64,
        /// The record's size.
        size: u64,
    },
    /// The disk failed. The record is in the log or isn't; the log has to be opened again.
    Disk,
}

impl fmt::Display for AppendFault {
    ghost use Rattle.std.specs.Prelude.{Some};
    ghost use Rattle.tran_log.specs.FaultText.{append_text};

    ghost output = { λ fault. Some (append_text fault) };

    fn fmt<W: fmt::Write>(&self, f: &mut fmt::Formatter<W>) -> fmt::Result {
        match *self {
            AppendFault::Full { length, size } => {
                write!(f, "the log of {length} bytes has no room for {size}")
            }
            AppendFault::Disk => f.write_str("disk fault"),
        }
    }
}

impl Error for AppendFault {}

impl From<Failed> for AppendFault {
    ghost use Rattle.tran_log.specs.declared.log.AppendFault.TheVariants as faults;

    ghost from_gives = { λ _ e. e ≡ faults.Disk };

    fn from(_e: Failed) -> AppendFault {
        AppendFault::Disk
    }
}

impl Log {
    /// How long the log is: the offset of the gate at which it ends, and one more.
    pub fn length(&self) -> u64
        ensures { result ≡ self.now + 1 }
    {
        self.end as u64 + 1
    }

    /// Adds the record of this body, which `spell_body` gives for the next number; a body that is
    /// too long for any log may be of anything. It takes no memory, and makes four calls of the
    /// disk where none fails (no clause counts them).
    ///
    /// A crash meanwhile leaves the records that were there, or these and the new one, and so does
    /// a failure in what the log reads as.
    ///
    /// `Full`: exactly where the log's length and the body's exceed `LOG_LIMIT`; no call was made.
    /// `Disk`: the count of faults rose in this call; the log is opened anew before it is used, since
    /// its end is where it was, and the record may be in it.
    pub fn append<D: Disk>(&mut self, disk: &mut D, body: &[u8]) -> Result<(), AppendFault>
        requires { IsTrue D.tells → (LOG_LIMIT < self.old + 1 + length body.now)
            ⊎ ((logged : List Logged) × (mode : Mode) × (effect : Effect)
            × MayAppend (D.past disk.old) self.old body.now logged mode effect) }
        ensures any_moment { (logged : List Logged) (mode : Mode) (effect : Effect)
            → IsTrue D.tells
            → MayAppend (D.past disk.old) self.old body.now logged mode effect
            → LeavesOnly (D.past disk.old) (D.past disk.new) (HoldsEither (D.past disk.old) logged
            (logged_as self.old mode effect ∷ [])) }
        ensures acknowledged { (logged : List Logged) (mode : Mode) (effect : Effect)
            → IsTrue D.tells
            → MayAppend (D.past disk.old) self.old body.now logged mode effect
            → OnOk result (IsAtRest (D.past disk.new)
            (logged ++ logged_as self.old mode effect ∷ []) self.new) }
        ensures reads { (logged : List Logged) (mode : Mode) (effect : Effect) → IsTrue D.tells
            → MayAppend (D.past disk.old) self.old body.now logged mode effect
            → ReadsEither (D.past disk.new) logged (logged_as self.old mode effect ∷ []) }
        ensures extent { IsTrue D.tells
            → SameExtent (D.past disk.old) (D.past disk.new) }
        ensures honest { IsTrue D.tells
            → StaysHonest (D.past disk.old) (D.past disk.new) }
        ensures full { (size : ℕ) (bytes : ℕ) → IsErrOf result (AppendFault.Full size bytes)
            ↔ ((LOG_LIMIT < self.old + 1 + length body.now) × (size ≡ self.old + 1)
            × (bytes ≡ length body.now)) }
        ensures untouched { (size : ℕ) (bytes : ℕ) → IsErrOf result (AppendFault.Full size bytes)
            → disk.new ≡ disk.old }
        ensures longer { OnOk result (self.new ≡ self.old + length body.now) }
        ensures kept { OnErr result (self.new ≡ self.old) }
        ensures failed { IsErrOf result AppendFault.Disk
            → HasRisen (D.faults disk.old) (D.faults disk.new) }
        ensures quiet { OnOk result (D.faults disk.new ≡ D.faults disk.old) }
        ensures later { D.faults disk.old ≤ D.faults disk.new }
    {
        let length = self.length();
        let size = body.len() as u64;
        if length.saturating_add(size) > LOG_LIMIT {
            return Err(AppendFault::Full { length, size });
        }
        self.append_chain(disk, body)?;
        Ok(())
    }

    /// Adds one or more records at once: the bodies that `spell_body` gives for the next numbers,
    /// one behind the other as `add_body` puts them. They fit into the log. It takes no memory, and
    /// makes four calls of the disk where none fails (no clause counts them).
    ///
    /// A crash meanwhile leaves the records that were there, or these and all of the new ones, and
    /// so does a failure in what the log reads as.
    ///
    /// `Failed` tells only that the count of faults rose in this call; the log is opened anew before
    /// it is used, since its end is where it was, and the new records may be in it.
    pub fn append_chain<D: Disk>(&mut self, disk: &mut D, chain: &[u8]) -> Result<(), Failed>
        requires fits { self.old + 1 + length chain.now ≤ LOG_LIMIT }
        requires bodies { IsTrue D.tells → (logged : List Logged) × (more : List (Mode × Effect))
            × MayChain (D.past disk.old) self.old chain.now logged more }
        ensures any_moment { (logged : List Logged) (more : List (Mode × Effect)) → IsTrue D.tells
            → MayChain (D.past disk.old) self.old chain.now logged more
            → LeavesOnly (D.past disk.old) (D.past disk.new)
            (HoldsEither (D.past disk.old) logged (added self.old more)) }
        ensures acknowledged { (logged : List Logged) (more : List (Mode × Effect))
            → IsTrue D.tells → MayChain (D.past disk.old) self.old chain.now logged more
            → OnOk result (IsAtRest (D.past disk.new) (logged ++ added self.old more) self.new) }
        ensures reads { (logged : List Logged) (more : List (Mode × Effect)) → IsTrue D.tells
            → MayChain (D.past disk.old) self.old chain.now logged more
            → ReadsEither (D.past disk.new) logged (added self.old more) }
        ensures extent { IsTrue D.tells
            → SameExtent (D.past disk.old) (D.past disk.new) }
        ensures honest { IsTrue D.tells
            → StaysHonest (D.past disk.old) (D.past disk.new) }
        ensures longer { OnOk result (self.new ≡ self.old + length chain.now) }
        ensures kept { OnErr result (self.new ≡ self.old) }
        ensures faults { HasCause (D.faults disk.old) (D.faults disk.new) result }
    {
        write_through(disk, self.end as u64 + 1, chain)?;
        write_through(disk, self.end as u64, OPEN)?;
        self.end += chain.len();
        Ok(())
    }

    /// Empties the log: no record is left in it. Of a log without records it makes no call of the
    /// disk, since bytes that are no record may stand behind its gate. It takes no memory.
    ///
    /// `Failed` tells only that the count of faults rose in this call; the log is opened anew before
    /// it is used, since its end is where it was, and its records may be gone.
    pub fn restart_empty<D: Disk>(&mut self, disk: &mut D) -> Result<(), Failed>
        requires { IsTrue D.tells → (logged : List Logged)
            × IsAtRest (D.past disk.old) logged self.old }
        ensures any_moment { (logged : List Logged) → IsTrue D.tells
            → IsAtRest (D.past disk.old) logged self.old
            → LeavesOnly (D.past disk.old) (D.past disk.new)
            (HoldsOrNone (D.past disk.old) logged) }
        ensures emptied { (logged : List Logged) → IsTrue D.tells
            → IsAtRest (D.past disk.old) logged self.old
            → OnOk result (IsAtRest (D.past disk.new) [] self.new) }
        ensures reads { (logged : List Logged) → IsTrue D.tells
            → IsAtRest (D.past disk.old) logged self.old
            → ReadsOrNone (D.past disk.new) logged }
        ensures extent { IsTrue D.tells
            → SameExtent (D.past disk.old) (D.past disk.new) }
        ensures honest { IsTrue D.tells
            → StaysHonest (D.past disk.old) (D.past disk.new) }
        ensures untouched { self.old ≡ 0 → disk.new ≡ disk.old }
        ensures empty { OnOk result (self.new ≡ 0) }
        ensures kept { OnErr result (self.new ≡ self.old) }
        ensures faults { HasCause (D.faults disk.old) (D.faults disk.new) result }
    {
        if self.end == 0 {
            return Ok(());
        }
        write_through(disk, 0, CLOSED)?;
        self.end = 0;
        Ok(())
    }
}
