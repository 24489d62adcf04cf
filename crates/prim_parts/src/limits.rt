//! Whether a body is within the limits of objects after a change.
ghost use Rattle.std.specs.Prelude.{◌≡◌, ◌&&◌, ◌+◌, ◌-◌, nat_le};
ghost use Rattle.body_growth.specs.Changes.{counted};
ghost use Rattle.object_programs.specs.declared.limits.TheConstants.{BYTES_LIMIT, SLOTS_LIMIT};

use body_growth::Change;
use running_objects::is_small_with;

// Whether a body is within the limits after the change that has so many slots and bytes before.
pub(crate) fn stays_within(change: Change, slots: u64, bytes: u64) -> bool
    ensures { result
        ≡ (nat_le (counted (slots - change.slots_freed + change.slots_taken)) SLOTS_LIMIT
        && nat_le (17 + counted (bytes - change.bytes_freed + change.bytes_taken)) BYTES_LIMIT) }
{
    is_small_with(change.slots_after(slots), change.bytes_after(bytes))
}
