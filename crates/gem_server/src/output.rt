//! Writes what is told.
ghost use Rattle.std.specs.Prelude.{ℕ, ◌≤◌, take, OnOk, OnErr};
ghost use Rattle.std.specs.Io.KnownBytes.{Appends};
ghost use Rattle.gem_io.specs.Faults.{HasCause};
ghost use Rattle.gem_server.specs.Devices.{seen};
ghost use Rattle.gem_server.specs.Writing.{HasWritten};

use crate::status::Status;
use gem_io::{Failed, Sink};

// Writes all the bytes, or a part from the front where the sink fails.
fn write_all<K: Sink>(sink: &mut K, bytes: &[u8]) -> Result<(), Failed>
    ensures ok { OnOk result (Appends (K.written sink.old) (K.written sink.new) bytes.now) }
    ensures err { OnErr result
        ((n : ℕ) × Appends (K.written sink.old) (K.written sink.new) (take n bytes.now)) }
    ensures faults { HasCause (K.faults sink.old) (K.faults sink.new) result }
{
    let mut rest = bytes;
    while !rest.is_empty() {
        let count = sink.put(rest)?;
        rest = &rest[count..];
    }
    Ok(())
}

/// Writes all the bytes, and says how that ended: `Done`, or `WriteFault` after a part of them from
/// the front.
pub(crate) fn write_out<K: Sink>(sink: &mut K, bytes: &[u8]) -> Status
    ensures { HasWritten (seen K.written K.faults sink.old sink.new) bytes.now result }
{
    match write_all(sink, bytes) {
        Ok(()) => Status::Done,
        Err(Failed) => Status::WriteFault,
    }
}
