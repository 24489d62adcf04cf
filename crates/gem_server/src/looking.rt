//! Looks at a store, and makes one.
ghost use Rattle.std.specs.Prelude.{◌≡◌, ◌≤◌, true, length, string_bytes, is_some, IfOk, IfErr, OnOk, OnErr, IsTrue};
ghost use Rattle.gem_io.specs.Faults.{HasRisen};
ghost use Rattle.gem_disk.specs.Disk.{as_read};
ghost use Rattle.gem_record.specs.Stored.{after_checkpoint};
ghost use Rattle.gem_keeper.specs.Found.{StandsFor};
ghost use Rattle.gem_keeper.specs.Crashes.{FitsNow, KeepsOnly};
ghost use Rattle.stone_store.specs.Resting.{stored_by};
ghost use Rattle.stone_store.specs.Whole.{store_moment, store_stands, store_left};
ghost use Rattle.gem_server.specs.Devices.{seen};
ghost use Rattle.gem_server.specs.Writing.{HasWrittenOrNot};
ghost use Rattle.gem_server.specs.Server.{IsBlank};
ghost use Rattle.gem_server.specs.Looking.{line_with, store_line, AreEmpty, IsWhyNotEmpty, IsWhyNotStored, Checks, Inits};

use crate::opening::NUMBER_LIMIT;
use crate::output::write_out;
use crate::status::{Ended, Status};
use gem_disk::{Disk, Which};
use gem_io::{Failed, Sink};
use gem_keeper::{CheckFault, Keeper};
use std::alloc::{AllocError, Global};
use stone_core::largest_serial;
use stone_store::{FoundImage, Opened, Store, open_store};

/// Opens the store on the disk, and writes a line that tells of it.
pub(crate) fn check_store<K: Sink, D: Disk + Drop>(alloc: Global, disk: D, sink: &mut K) -> Ended<D>
    ensures checks { Checks D.tells (seen K.written K.faults sink.old sink.new)
        (seen D.past D.faults disk result.disk) result.status }
    ensures blank { IsBlank result.events result.book }
{
    let Opened { result, store } = open_store(alloc, disk);
    let found = match result {
        Ok(found) => found,
        Err(fault) => return Ended::blank(alloc, Status::of_store(fault), store.close()),
    };
    let status = write_line(alloc, &found, sink);
    Ended::blank(alloc, status, store.close())
}

/// Makes a store of two empty files, with a checkpoint of the kernel's image, and writes a line that
/// tells of it.
pub(crate) fn init_store<K: Sink, D: Disk + Drop>(alloc: Global, disk: D, sink: &mut K) -> Ended<D>
    ensures inits { Inits D.tells (seen K.written K.faults sink.old sink.new)
        (seen D.past D.faults disk result.disk) result.status }
    ensures blank { IsBlank result.events result.book }
{
    let mut disk = disk;
    if let Err(status) = see_empty(&mut disk) {
        return Ended::blank(alloc, status, disk);
    }
    let Opened { result, mut store } = open_store(alloc, disk);
    let found = match result {
        Ok(found) => found,
        Err(fault) => return Ended::blank(alloc, Status::of_store(fault), store.close()),
    };
    if let Err(status) = first_checkpoint(alloc, &mut store, &found) {
        return Ended::blank(alloc, status, store.close());
    }
    store.invariant();
    let status = write_line(alloc, &found, sink);
    Ended::blank(alloc, status, store.close())
}

// Whether both files are empty, or else why not. Nothing is done to them.
fn see_empty<D: Disk>(disk: &mut D) -> Result<(), Status>
    ensures empty { OnOk result (IsTrue D.tells → AreEmpty (as_read (D.past disk.old))) }
    ensures why { IfErr result (IsWhyNotEmpty D.tells (seen D.past D.faults disk.old disk.new)) }
    ensures same { IsTrue D.tells → D.past disk.new ≡ D.past disk.old }
    ensures later { D.faults disk.old ≤ D.faults disk.new }
{
    match lengths_of(disk) {
        Ok((0, 0)) => Ok(()),
        Ok((extent, log)) => Err(Status::NotEmpty { extent, log }),
        Err(Failed) => Err(Status::DiskFault),
    }
}

// The lengths of the extent and of the log.
fn lengths_of<D: Disk>(disk: &mut D) -> Result<(u64, u64), Failed>
    ensures extent { IsTrue D.tells → IfOk result (λ both.
        both.0 ≡ length (as_read (D.past disk.old)).extent) }
    ensures log { IsTrue D.tells → IfOk result (λ both.
        both.1 ≡ length (as_read (D.past disk.old)).log) }
    ensures same { IsTrue D.tells → D.past disk.new ≡ D.past disk.old }
    ensures failed { OnErr result (HasRisen (D.faults disk.old) (D.faults disk.new)) }
    ensures later { D.faults disk.old ≤ D.faults disk.new }
{
    let extent = disk.length(Which::Extent)?;
    let log = disk.length(Which::Log)?;
    Ok((extent, log))
}

// Stores the image that was found.
fn first_checkpoint<D: Disk + Drop>(
    alloc: Global,
    store: &mut Store<D>,
    found: &FoundImage,
) -> Result<(), Status>
    requires ready { is_some store.old.parts ≡ true }
    requires stands { IsTrue D.tells →
        FitsNow (store_moment D.past) (store_stands D.past) (store_left D.past) store.old
        (StandsFor found.now.image found.now.number) }
    ensures stored { OnOk result (stored_by store.new.parts
        ≡ after_checkpoint true found.now.image found.now.number) }
    ensures stands { IsTrue D.tells → OnOk result
        (FitsNow (store_moment D.past) (store_stands D.past) (store_left D.past) store.new
        (StandsFor found.now.image found.now.number)) }
    ensures any_moment { IsTrue D.tells →
        KeepsOnly (store_moment D.past) (store_left D.past) store.old store.new
        (StandsFor found.now.image found.now.number) }
    ensures why { IfErr result (IsWhyNotStored found.now.number
        (D.faults store.old.disk) (D.faults store.new.disk)) }
    ensures later { D.faults store.old.disk ≤ D.faults store.new.disk }
{
    if found.number > NUMBER_LIMIT {
        let base = largest_serial(&found.image) + 1;
        return Err(Status::SerialsUsed { base, sessions: 0 });
    }
    match store.checkpoint(alloc, &found.image, found.number) {
        Ok(()) => Ok(()),
        Err(CheckFault::Disk) => Err(Status::DiskFault),
        // It would be full, but an image of the kernel takes a few pages.
        Err(CheckFault::Full { .. } | CheckFault::NoMemory) => Err(Status::NoMemory),
    }
}

// Writes the line that tells of a store, and says how that ended.
fn write_line<K: Sink>(alloc: Global, found: &FoundImage, sink: &mut K) -> Status
    ensures { HasWrittenOrNot (seen K.written K.faults sink.old sink.new) (store_line found.now)
        result }
{
    match line_of(alloc, found.number, found.image.count()) {
        Ok(line) => write_out(sink, line.as_bytes()),
        Err(AllocError) => Status::NoMemory,
    }
}

// The line, by the number of commits and of objects.
fn line_of(alloc: Global, number: u64, count: u64) -> Result<String, AllocError>
    ensures { IfOk result (λ line. string_bytes line ≡ line_with number count) }
{
    format!(in alloc; "store number {number} objects {count}\n")
}
