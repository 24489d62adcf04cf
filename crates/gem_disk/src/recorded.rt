//! Two files in memory, with a record of the calls that changed them.
ghost use Rattle.std.specs.Prelude.{◌≡◌, ℕ, ◌+◌, ◌≤◌, ◌&&◌, List, [], length, take, drop, reverse, OnOk, OnErr, IfOk, if◌then◌else◌};
ghost use Rattle.gem_disk.specs.Disk.{Change, reads, stepped, placed, is_same, CrashImages};
ghost use Rattle.gem_disk.specs.Picked.{picked, torn_to};
ghost use Rattle.gem_disk.specs.Recorded.{change_by, made, change_of, undone, OneCall, is_sync, back, done_anew, image_back};

use crate::{Images, Pick, Which};
use std::alloc::AllocError;
use std::marker::Model;

#[derive(Clone, Copy, Debug)]
pub(crate) enum Kind {
    Write,
    Truncation,
    Sync,
}

// A call that changed a file: where the change begins, how many bytes were written, which bytes it
// took away, and the file's length before. So the file before it can be told from the file after.
#[derive(Debug, Drop)]
struct Call {
    file: Which,
    kind: Kind,
    at: usize,
    count: usize,
    lost: Vec<u8>,
    size: usize,
}

impl Call {
    fn is_on(&self, file: Which) -> bool
        ensures { result ≡ is_same self.now.file file }
    {
        match (self.file, file) {
            (Which::Extent, Which::Extent) | (Which::Log, Which::Log) => true,
            (Which::Extent, Which::Log) | (Which::Log, Which::Extent) => false,
        }
    }

    fn is_sync_of(&self, file: Which) -> bool
        ensures { result ≡ (is_same self.now.file file && is_sync self.now.kind) }
    {
        self.is_on(file) && matches!(self.kind, Kind::Sync)
    }
}

// Two files, and the calls that changed them, the newest last.
#[derive(Debug, Drop)]
pub(crate) struct Recorded {
    extent: Vec<u8>,
    log: Vec<u8>,
    calls: Vec<Call>,
}

impl Model for Recorded {
    ghost use Rattle.std.specs.Prelude.{reverse};
    ghost use Rattle.gem_disk.specs.Disk.{Past};

    ghost Value = { Past };

    ghost use Rattle.gem_disk.specs.Picked.{IsExact};
    ghost use Rattle.gem_disk.specs.Recorded.{history};

    ghost view = { λ s. history (record { extent = s.extent.items; log = s.log.items })
        (reverse s.calls.items) };

    ghost invariant = { λ s. IsExact (history
        (record { extent = s.extent.items; log = s.log.items }) (reverse s.calls.items)) };
}

impl Recorded {
    // All of both files is on the disk.
    pub(crate) fn new(extent: Vec<u8>, log: Vec<u8>) -> Recorded
        ensures { result
            ≡ record { first = record { extent = extent.items; log = log.items }; steps = [] } }
    {
        let calls = Vec::new(*log.allocator());
        Recorded { extent, log, calls }
    }

    pub(crate) fn bytes(&self, file: Which) -> &[u8]
        ensures { result.now ≡ reads self.now file }
    {
        match file {
            Which::Extent => &self.extent,
            Which::Log => &self.log,
        }
    }

    // Changes a file. Only a write has bytes, and only a sync begins nowhere.
    pub(crate) fn change(
        &mut self,
        file: Which,
        kind: Kind,
        at: usize,
        bytes: &[u8],
    ) -> Result<(), AllocError>
        requires { at ≤ length (reads self.old file) }
        ensures ok { OnOk result (self.new
            ≡ stepped self.old file (change_by kind at (length bytes.now))
            (made kind at bytes.now (reads self.old file))) }
        ensures err { OnErr result (self.new ≡ self.old) }
    {
        match file {
            Which::Extent => change(&mut self.extent, &mut self.calls, file, kind, at, bytes),
            Which::Log => change(&mut self.log, &mut self.calls, file, kind, at, bytes),
        }
    }

    // What a crash leaves.
    pub(crate) fn crash(self, pick: Pick) -> Result<Images, AllocError>
        ensures picked { IfOk result (λ images. images ≡ picked pick self) }
        ensures left { IfOk result (λ images. CrashImages self images) }
    {
        let Recorded { extent, log, calls } = self;
        let extent = image(Which::Extent, extent, &calls, pick)?;
        let log = image(Which::Log, log, &calls, pick)?;
        Ok(Images { extent, log })
    }
}

// Writes the bytes over what is there, and past the end. An offset past the end counts as the end.
fn put(held: &mut Vec<u8>, at: usize, bytes: &[u8]) -> Result<(), AllocError>
    ensures ok { OnOk result (held.new.items ≡ placed at bytes.now held.old.items) }
    ensures err { OnErr result (held.new.items ≡ held.old.items) }
{
    let start = at.min(held.len());
    let inside = bytes.len().min(held.len() - start);
    let (over, past_end) = bytes.split_at(inside);
    held.extend_from_slice(past_end)?;
    held[start..start + inside].copy_from_slice(over);
    Ok(())
}

// Changes a file, and records the call.
fn change(
    held: &mut Vec<u8>,
    calls: &mut Vec<Call>,
    file: Which,
    kind: Kind,
    at: usize,
    bytes: &[u8],
) -> Result<(), AllocError>
    requires { at ≤ length held.old.items }
    ensures call { OnOk result (OneCall file kind at bytes.now held.old.items held.new.items
        calls.old.items calls.new.items) }
    ensures err { OnErr result ((held.new.items ≡ held.old.items)
        × (calls.new.items ≡ calls.old.items)) }
{
    calls.reserve(1)?;
    let size = held.len();
    let lost = make(held, kind, at, bytes)?;
    let count = bytes.len();
    let call = Call {
        file,
        kind,
        at,
        count,
        lost,
        size,
    };
    let Ok(()) = calls.push(call) else {
        unreachable!()
    };
    Ok(())
}

// Changes a file, and gives the bytes that the change took away.
fn make(held: &mut Vec<u8>, kind: Kind, at: usize, bytes: &[u8]) -> Result<Vec<u8>, AllocError>
    requires { at ≤ length held.old.items }
    ensures held { OnOk result (held.new.items ≡ made kind at bytes.now held.old.items) }
    ensures lost { IfOk result (λ lost. take (length held.old.items)
        (placed at lost.items held.new.items) ≡ held.old.items) }
    ensures err { OnErr result (held.new.items ≡ held.old.items) }
{
    let alloc = *held.allocator();
    match kind {
        Kind::Write => {
            let behind = &held[at..];
            let lost = Vec::from_slice(alloc, &behind[..bytes.len().min(behind.len())])?;
            put(held, at, bytes)?;
            Ok(lost)
        }
        Kind::Truncation => {
            let lost = Vec::from_slice(alloc, &held[at..])?;
            held.truncate(at);
            Ok(lost)
        }
        Kind::Sync => Ok(Vec::new(alloc)),
    }
}

// What a crash leaves of a file that holds these bytes.
fn image(file: Which, mut bytes: Vec<u8>, calls: &[Call], pick: Pick) -> Result<Vec<u8>, AllocError>
    ensures { IfOk result (λ image. image.items
        ≡ image_back pick file (reverse calls.now) bytes.items) }
{
    match pick {
        Pick::New => Ok(bytes),
        Pick::Old => {
            undo(file, &mut bytes, calls)?;
            Ok(bytes)
        }
        Pick::Torn(byte) => {
            let first = undo(file, &mut bytes, calls)?;
            tear(file, &mut bytes, &calls[first..], byte)?;
            Ok(bytes)
        }
    }
}

// Takes back what was done to a file since its last sync, and says how many calls were before that.
fn undo(file: Which, bytes: &mut Vec<u8>, calls: &[Call]) -> Result<usize, AllocError>
    ensures within { IfOk result (λ first. first ≤ length calls.now) }
    ensures back { IfOk result (λ first. (anew : Change → List ℕ → List ℕ) →
        back anew file (reverse calls.now) bytes.old.items
        ≡ done_anew anew file (drop first calls.now) bytes.new.items) }
{
    let mut rest = calls;
    while let Some((call, older)) = rest.split_last() {
        if call.is_sync_of(file) {
            return Ok(rest.len());
        }
        undo_one(file, bytes, call)?;
        rest = older;
    }
    Ok(rest.len())
}

// Takes back what a call did where it was on this file.
fn undo_one(file: Which, bytes: &mut Vec<u8>, call: &Call) -> Result<(), AllocError>
    ensures { OnOk result (bytes.new.items ≡ (if is_same call.now.file file
        then undone call.now bytes.old.items else bytes.old.items)) }
{
    if !call.is_on(file) {
        return Ok(());
    }
    put(bytes, call.at, &call.lost)?;
    bytes.truncate(call.size);
    Ok(())
}

// Does these calls on a file anew, with the byte all over what they write.
fn tear(file: Which, bytes: &mut Vec<u8>, calls: &[Call], byte: u8) -> Result<(), AllocError>
    ensures { OnOk result (bytes.new.items
        ≡ done_anew (torn_to byte) file calls.now bytes.old.items) }
{
    for call in calls {
        tear_one(file, bytes, call, byte)?;
    }
    Ok(())
}

// Does a call anew where it was on this file.
fn tear_one(file: Which, bytes: &mut Vec<u8>, call: &Call, byte: u8) -> Result<(), AllocError>
    ensures { OnOk result (bytes.new.items ≡ (if is_same call.now.file file
        then torn_to byte (change_of call.now) bytes.old.items else bytes.old.items)) }
{
    if !call.is_on(file) {
        return Ok(());
    }
    match call.kind {
        Kind::Write => {
            let torn = vec![in *bytes.allocator(); byte; call.count]?;
            put(bytes, call.at, &torn)
        }
        Kind::Truncation => {
            bytes.truncate(call.at);
            Ok(())
        }
        Kind::Sync => Ok(()),
    }
}
