//! Makes a checkpoint of a store.
ghost use Rattle.std.specs.Prelude.{◌≡◌, ◌≢◌, ◌≤◌, ◌<◌, ◌^◌, true, is_some, IsTrue, IfErr, OnOk, IsErrOf};
ghost use Rattle.gem_io.specs.Faults.{HasRisen};
ghost use Rattle.gem_disk.specs.Disk.{as_read};
ghost use Rattle.gem_disk.specs.Runs.{LeavesOnly};
ghost use Rattle.gem_record.specs.declared.limits.TheConstants.{PAGE_LIMIT};
ghost use Rattle.gem_record.specs.Stored.{pages_needed, after_checkpoint};
ghost use Rattle.gem_keeper.specs.Keeper.{CheckFails};
ghost use Rattle.stone_store.specs.Counted.{since_root, AreListed};
ghost use Rattle.stone_store.specs.Left.{FilesStandFor};
ghost use Rattle.stone_store.specs.Resting.{stored_by, BothRest, IsEmptied};
ghost use Rattle.stone_store.specs.Whole.{RestsBy};

use crate::count::counted;
use crate::parts::{Parts, Root};
use gem_disk::Disk;
use gem_image::Image;
use gem_keeper::CheckFault;
use page_file::CheckFault as PageFault;
use page_file::laws::pages_are_those_of_the_image;
use std::alloc::Global;

// Writes a checkpoint into the extent, and then empties the log.
fn write_checkpoint<D: Disk>(
    alloc: Global,
    disk: &mut D,
    parts: &mut Parts,
    image: &Image,
    number: u64,
    changed: &[u64],
) -> Result<(), PageFault>
    requires small { number < 2 ^ 63 }
    requires changed { AreListed (since_root parts.old.root) image.now changed.now }
    requires rests { IsTrue D.tells → BothRest (D.past disk.old) parts.old }
    requires stands { IsTrue D.tells →
        FilesStandFor image.now number (as_read (D.past disk.old)) }
    ensures any_moment { IsTrue D.tells →
        LeavesOnly (D.past disk.old) (D.past disk.new) (FilesStandFor image.now number) }
    ensures made { IsTrue D.tells →
        OnOk result (IsEmptied (D.past disk.new) parts.new image.now number) }
    ensures reads { IsTrue D.tells →
        OnOk result (FilesStandFor image.now number (as_read (D.past disk.new))) }
    ensures emptied { OnOk result (parts.new.log ≡ 0) }
    ensures unchanged { IfErr result (λ fault. fault ≢ PageFault.Disk →
        (disk.new ≡ disk.old) × (parts.new ≡ parts.old)) }
    ensures failed { IsErrOf result PageFault.Disk →
        HasRisen (D.faults disk.old) (D.faults disk.new) }
    ensures quiet { OnOk result (D.faults disk.new ≡ D.faults disk.old) }
    ensures later { D.faults disk.old ≤ D.faults disk.new }
{
    pages_are_those_of_the_image();
    parts
        .pages
        .write_changed(alloc, disk, image, number, changed)?;
    match parts.log.restart_empty(disk) {
        Ok(()) => Ok(()),
        Err(_) => Err(PageFault::Disk),
    }
}

/// Stores an image in the extent, and empties the log. Where the disk fails, the parts are gone.
pub(crate) fn checkpoint_to<D: Disk>(
    alloc: Global,
    disk: &mut D,
    parts: &mut Option<Parts>,
    image: &Image,
    number: u64,
) -> Result<(), CheckFault>
    requires ready { is_some parts.old ≡ true }
    requires small { number < 2 ^ 63 }
    requires rests { IsTrue D.tells → RestsBy (D.past disk.old) parts.old }
    requires stands { IsTrue D.tells →
        FilesStandFor image.now number (as_read (D.past disk.old)) }
    ensures rests { IsTrue D.tells → RestsBy (D.past disk.new) parts.new }
    ensures stored { OnOk result (stored_by parts.new ≡ after_checkpoint true image.now number) }
    ensures fits { OnOk result
        (pages_needed true (stored_by parts.old) image.now ≤ PAGE_LIMIT) }
    ensures ready { OnOk result (is_some parts.new ≡ true) }
    ensures fault { IfErr result
        (CheckFails (pages_needed true (stored_by parts.old) image.now)
        ((disk.new ≡ disk.old) × (parts.new ≡ parts.old))
        (HasRisen (D.faults disk.old) (D.faults disk.new))) }
    ensures any_moment { IsTrue D.tells →
        LeavesOnly (D.past disk.old) (D.past disk.new) (FilesStandFor image.now number) }
    ensures acknowledged { IsTrue D.tells →
        OnOk result (FilesStandFor image.now number (as_read (D.past disk.new))) }
    ensures quiet { OnOk result (D.faults disk.new ≡ D.faults disk.old) }
    ensures later { D.faults disk.old ≤ D.faults disk.new }
{
    let Some(mut kept) = parts.take() else {
        unreachable!()
    };
    let (counts, changed) = match counted(alloc, image, kept.root) {
        Ok(found) => found,
        Err(fault) => {
            *parts = Some(kept);
            return Err(fault);
        }
    };
    match write_checkpoint(alloc, disk, &mut kept, image, number, &changed) {
        Ok(()) => {
            let pages = counts.all;
            kept.root = Some(Root { number, pages });
            *parts = Some(kept);
            Ok(())
        }
        Err(PageFault::Disk) => Err(CheckFault::Disk),
        Err(_) => {
            *parts = Some(kept);
            Err(CheckFault::NoMemory)
        }
    }
}
