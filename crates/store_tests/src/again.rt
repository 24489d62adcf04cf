//! What a log promises, taken together: it is opened, records are added, one by one or at once, and
//! it is opened again.
ghost use Rattle.std.specs.Prelude.{◌≡◌, ℕ, List, [], ◌∷◌, ◌++◌, None, Ok, IsTrue, IfOk, OnOk, IsErrOf};
ghost use Rattle.gem_record.specs.declared.mode.Mode.{Mode};
ghost use Rattle.gem_record.specs.declared.effect.Effect.{Effect};
ghost use Rattle.gem_disk.specs.declared.disk.Which.TheVariants as which;
ghost use Rattle.gem_disk.specs.Disk.{reads};
ghost use Rattle.tran_log.specs.declared.logged.Logged.{Logged};
ghost use Rattle.tran_log.specs.Log.{Format2, log_of, logged_as, logged_from, last_number, spelled_record, IsNext, AreRecords, AreBodies};
ghost use Rattle.tran_log.specs.Resting.{IsAtRest};

use body_codec::write_effect;
use gem_disk::Disk;
use gem_io::Failed;
use gem_record::{Effect, Mode};
use std::alloc::{AllocError, Global};
use tran_log::{AppendFault, LOG_LIMIT, Log, LogFault, Logged, add_body, open_log, spell_body};

/// Why it went no further.
#[derive(Clone, Copy, Debug, PartialEq, Eq)]
pub enum Trouble {
    /// The log has no room for the record.
    Full,
    /// The bytes are no log, or the disk failed.
    Failed,
    /// Memory ran out.
    NoMemory,
}

impl From<AllocError> for Trouble {
    ghost use Rattle.store_tests.specs.declared.again.Trouble.TheVariants as troubles;

    ghost from_gives = { λ _ e. e ≡ troubles.NoMemory };

    fn from(_e: AllocError) -> Trouble {
        Trouble::NoMemory
    }
}

impl From<Failed> for Trouble {
    ghost use Rattle.store_tests.specs.declared.again.Trouble.TheVariants as troubles;

    ghost from_gives = { λ _ e. e ≡ troubles.Failed };

    fn from(_e: Failed) -> Trouble {
        Trouble::Failed
    }
}

impl From<LogFault> for Trouble {
    fn from(fault: LogFault) -> Trouble {
        match fault {
            LogFault::NoMemory => Trouble::NoMemory,
            LogFault::Disk | LogFault::NotLog { .. } => Trouble::Failed,
        }
    }
}

// The body of a record.
pub(crate) fn body_of(alloc: Global, mode: Mode, effect: &Effect) -> Result<Vec<u8>, AllocError>
    ensures { IfOk result (λ body. body.items ≡ spelled_record mode effect.now ++ (0 ∷ [])) }
{
    let bytes = write_effect(alloc, effect)?;
    spell_body(alloc, effect.number, mode, &bytes)
}

/// Adds the record of the next effect to a log at rest. Where it is full, the log rests as before,
/// so that one can go on.
pub fn add<D: Disk>(
    alloc: Global,
    disk: &mut D,
    log: &mut Log,
    mode: Mode,
    effect: &Effect,
) -> Result<(), Trouble>
    requires { IsTrue D.tells → (logged : List Logged)
        × IsAtRest (D.past disk.old) logged log.old
        × IsNext (last_number None logged) (Format2 mode effect.now) }
    ensures added { IsTrue D.tells → (logged : List Logged)
        → IsAtRest (D.past disk.old) logged log.old
        → IsNext (last_number None logged) (Format2 mode effect.now)
        → OnOk result (IsAtRest (D.past disk.new)
        (logged ++ logged_as log.old mode effect.now ∷ []) log.new) }
    ensures full { IsTrue D.tells → (logged : List Logged)
        → IsAtRest (D.past disk.old) logged log.old
        → IsErrOf result Trouble.Full → IsAtRest (D.past disk.new) logged log.new }
{
    let body = body_of(alloc, mode, effect)?;
    match log.append(disk, &body) {
        Ok(()) => Ok(()),
        Err(AppendFault::Full { .. }) => Err(Trouble::Full),
        Err(AppendFault::Disk) => Err(Trouble::Failed),
    }
}

// The bodies of two records, one behind the other.
fn chain_of(alloc: Global, mode: Mode, one: &Effect, two: &Effect) -> Result<Vec<u8>, AllocError>
    ensures { IfOk result (λ chain.
        AreBodies ((mode, one.now) ∷ (mode, two.now) ∷ []) chain.items) }
{
    let first = body_of(alloc, mode, one)?;
    let second = body_of(alloc, mode, two)?;
    let mut chain = Vec::new(alloc);
    add_body(&mut chain, &first)?;
    add_body(&mut chain, &second)?;
    Ok(chain)
}

/// Adds the records of the next two effects to a log at rest, at once.
pub fn add_chain<D: Disk>(
    alloc: Global,
    disk: &mut D,
    log: &mut Log,
    mode: Mode,
    one: &Effect,
    two: &Effect,
) -> Result<(), Trouble>
    requires { IsTrue D.tells → (logged : List Logged)
        × IsAtRest (D.past disk.old) logged log.old
        × AreRecords (last_number None logged)
        (Format2 mode one.now ∷ Format2 mode two.now ∷ []) }
    ensures { IsTrue D.tells → (logged : List Logged)
        → IsAtRest (D.past disk.old) logged log.old
        → AreRecords (last_number None logged)
        (Format2 mode one.now ∷ Format2 mode two.now ∷ [])
        → OnOk result (IsAtRest (D.past disk.new) (logged ++ logged_from log.old
        (Format2 mode one.now ∷ Format2 mode two.now ∷ [])) log.new) }
{
    let chain = chain_of(alloc, mode, one, two)?;
    if log.length().saturating_add(chain.len() as u64) > LOG_LIMIT {
        return Err(Trouble::Full);
    }
    log.append_chain(disk, &chain)?;
    Ok(())
}

/// Opens a log, adds two records, and opens it again: it holds what it held, and the two.
pub fn add_two<D: Disk>(
    alloc: Global,
    disk: &mut D,
    mode: Mode,
    one: &Effect,
    two: &Effect,
) -> Result<Vec<Logged>, Trouble>
    requires { IsTrue D.tells → (logged : List Logged)
        → log_of (reads (D.past disk.old) which.Log) ≡ Ok logged
        → AreRecords (last_number None logged)
        (Format2 mode one.now ∷ Format2 mode two.now ∷ []) }
    ensures { IsTrue D.tells → (logged : List Logged)
        → log_of (reads (D.past disk.old) which.Log) ≡ Ok logged
        → IfOk result (λ found. (end : ℕ) × (next : ℕ) × (found.items ≡ logged
        ++ (logged_as end mode one.now ∷ logged_as next mode two.now ∷ []))) }
{
    let opened = open_log(alloc, disk)?;
    let mut log = opened.0;
    add(alloc, disk, &mut log, mode, one)?;
    add(alloc, disk, &mut log, mode, two)?;
    let found = open_log(alloc, disk)?;
    Ok(found.1)
}
