//! The limits of objects, where what an object holds was counted before.
ghost use Rattle.std.specs.Prelude.{◌≡◌, ◌&&◌, ◌+◌, nat_le};
ghost use Rattle.object_programs.specs.declared.limits.TheConstants.{BYTES_LIMIT, SLOTS_LIMIT};

use object_programs::{BYTES_LIMIT, SLOTS_LIMIT};

/// Whether an object with so many slots, and so many bytes in its fields where it is stored, is
/// within the limits of objects.
pub fn is_small_with(slots: u64, bytes: u64) -> bool
    ensures { result ≡ (nat_le slots SLOTS_LIMIT && nat_le (17 + bytes) BYTES_LIMIT) }
{
    slots <= SLOTS_LIMIT && bytes.saturating_add(17) <= BYTES_LIMIT
}
