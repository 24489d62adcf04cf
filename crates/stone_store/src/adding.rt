//! Adds a record to the log of a store.
ghost use Rattle.std.specs.Prelude.{◌≡◌, ◌+◌, ◌≤◌, ℕ, true, is_some, length, IsTrue, IfErr, OnOk};
ghost use Rattle.gem_io.specs.Faults.{HasRisen};
ghost use Rattle.gem_disk.specs.Disk.{as_read};
ghost use Rattle.gem_disk.specs.Runs.{LeavesOnly};
ghost use Rattle.gem_image.specs.Image.{Image, with_objects};
ghost use Rattle.gem_record.specs.declared.effect.Effect.{Effect};
ghost use Rattle.gem_record.specs.declared.limits.TheConstants.{LOG_LIMIT};
ghost use Rattle.gem_record.specs.Stored.{longer_by};
ghost use Rattle.gem_keeper.specs.Keeper.{AppendFails};
ghost use Rattle.gem_keeper.specs.Crashes.{IsNextBody, StandsForEither};
ghost use Rattle.stone_store.specs.Store.{found_of};
ghost use Rattle.stone_store.specs.Left.{FilesStandFor};
ghost use Rattle.stone_store.specs.Resting.{stored_by};
ghost use Rattle.stone_store.specs.Whole.{RestsBy};

use crate::parts::Parts;
use gem_disk::Disk;
use tran_log::AppendFault;

/// Adds a record to the log. Where the disk fails, the parts are gone.
pub(crate) fn append_to<D: Disk>(
    disk: &mut D,
    parts: &mut Option<Parts>,
    body: &[u8],
) -> Result<(), AppendFault>
    requires ready { is_some parts.old ≡ true }
    requires rests { IsTrue D.tells → RestsBy (D.past disk.old) parts.old }
    requires next { IsTrue D.tells → (image : Image) × (number : ℕ) × (effect : Effect)
        × FilesStandFor image number (as_read (D.past disk.old))
        × IsNextBody number effect body.now }
    ensures rests { IsTrue D.tells → RestsBy (D.past disk.new) parts.new }
    ensures stored { OnOk result
        (stored_by parts.new ≡ longer_by (length body.now) (stored_by parts.old)) }
    ensures fits { OnOk result
        ((stored_by parts.old).log_length + length body.now ≤ LOG_LIMIT) }
    ensures ready { OnOk result (is_some parts.new ≡ true) }
    ensures fault { IfErr result (AppendFails (stored_by parts.old) (length body.now)
        ((disk.new ≡ disk.old) × (parts.new ≡ parts.old))
        (HasRisen (D.faults disk.old) (D.faults disk.new))) }
    ensures any_moment { (image : Image) (number : ℕ) (effect : Effect) → IsTrue D.tells →
        FilesStandFor image number (as_read (D.past disk.old)) →
        IsNextBody number effect body.now →
        LeavesOnly (D.past disk.old) (D.past disk.new)
        (λ files. StandsForEither image number effect (found_of files)) }
    ensures acknowledged { (image : Image) (number : ℕ) (effect : Effect) → IsTrue D.tells →
        FilesStandFor image number (as_read (D.past disk.old)) →
        IsNextBody number effect body.now → OnOk result
        (FilesStandFor (with_objects image effect.objects) (number + 1)
        (as_read (D.past disk.new))) }
    ensures quiet { OnOk result (D.faults disk.new ≡ D.faults disk.old) }
    ensures later { D.faults disk.old ≤ D.faults disk.new }
{
    let Some(mut kept) = parts.take() else {
        unreachable!()
    };
    match kept.log.append(disk, body) {
        Ok(()) => {
            *parts = Some(kept);
            Ok(())
        }
        Err(AppendFault::Disk) => Err(AppendFault::Disk),
        Err(AppendFault::Full { length, size }) => {
            *parts = Some(kept);
            Err(AppendFault::Full { length, size })
        }
    }
}
