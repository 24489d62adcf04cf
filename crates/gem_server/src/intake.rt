//! Reads the script.
ghost use Rattle.std.specs.Prelude.{◌≡◌, ◌<◌, ◌≤◌, ◌↔◌, List, ℕ, length, IfOk, IfErr, IsErrOf};
ghost use Rattle.std.specs.Io.KnownBytes.{Consumes, IsAtEnd};
ghost use Rattle.gem_io.specs.Faults.{HasRisen};
ghost use Rattle.gem_server.specs.declared.intake.IntakeError.TheVariants.{Failed as SourceFailed, NoMemory};
ghost use Rattle.gem_server.specs.Devices.{seen};
ghost use Rattle.gem_server.specs.Server.{GivesScript, GivesNone};

use crate::status::Status;
use gem_io::{Failed, Source};
use shell_words::{SCRIPT_LIMIT, Script, ScriptFault, read_script};
use std::alloc::{AllocError, Global};

// Why a script wasn't read.
#[derive(Clone, Copy, Debug, PartialEq, Eq)]
enum IntakeError {
    // The source gave more bytes than a script has.
    TooLong,
    // The source failed.
    Failed,
    // There was no memory.
    NoMemory,
}

impl From<Failed> for IntakeError {
    ghost from_gives = { λ _ error. error ≡ SourceFailed };

    fn from(_: Failed) -> IntakeError {
        IntakeError::Failed
    }
}

impl From<AllocError> for IntakeError {
    ghost from_gives = { λ _ error. error ≡ NoMemory };

    fn from(_: AllocError) -> IntakeError {
        IntakeError::NoMemory
    }
}

// Reads the source to its end, or past the limit of a script.
fn read_text<S: Source>(alloc: Global, source: &mut S) -> Result<Vec<u8>, IntakeError>
    // The source gave these bytes, and more than the limit exactly where that is the answer.
    ensures gave { (given : List ℕ) × Consumes (S.left source.old) (S.left source.new) given
        × (IsErrOf result IntakeError.TooLong ↔ (SCRIPT_LIMIT < length given))
        × IfOk result (λ text. text.items ≡ given) }
    ensures end { IfOk result (λ _. IsAtEnd (S.left source.new)) }
    ensures later { S.faults source.old ≤ S.faults source.new }
    ensures failed { IsErrOf result IntakeError.Failed →
        HasRisen (S.faults source.old) (S.faults source.new) }
    ensures quiet { (IsErrOf result IntakeError.Failed → ⊥) →
        S.faults source.new ≡ S.faults source.old }
{
    let mut text = Vec::new(alloc);
    let mut piece = [0u8; 4096];
    loop {
        let count = source.pull(&mut piece)?;
        if count == 0 {
            return Ok(text);
        }
        if count > SCRIPT_LIMIT - text.len() {
            return Err(IntakeError::TooLong);
        }
        text.extend_from_slice(&piece[..count])?;
    }
}

/// Reads a script from the source, or says by the status why there is none.
pub(crate) fn take_script<S: Source>(alloc: Global, source: &mut S) -> Result<Script, Status>
    ensures ok { IfOk result (GivesScript (seen S.left S.faults source.old source.new)) }
    ensures err { IfErr result (GivesNone (seen S.left S.faults source.old source.new)) }
{
    match read_text(alloc, source) {
        Ok(text) => match read_script(alloc, &text) {
            Ok(script) => Ok(script),
            Err(fault) => Err(Status::of_script(fault)),
        },
        Err(IntakeError::TooLong) => Err(Status::of_script(ScriptFault::too_long())),
        Err(IntakeError::Failed) => Err(Status::ReadFault),
        Err(IntakeError::NoMemory) => Err(Status::NoMemory),
    }
}
