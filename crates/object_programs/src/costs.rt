//! What objects take, and how large they may be.
ghost use Rattle.std.specs.Prelude.{◌≡◌};
ghost use Rattle.object_programs.specs.Budget.{bytes_cost, is_small};

use crate::limits::{BYTES_LIMIT, SLOTS_LIMIT};
use gem_object::Body;

/// The space that so many bytes take, in slots: one for each 8 bytes that are begun.
pub fn bytes_cost(bytes: u64) -> u64
    ensures { result ≡ bytes_cost bytes }
{
    bytes / 8 + u64::from(bytes % 8 > 0)
}

/// Whether an object with this body is within the limits of objects: its slots, and its bytes where
/// it is stored. It takes no memory; the time is that of the body's size.
pub fn is_small(body: &Body) -> bool
    ensures { result ≡ is_small body.now }
{
    body.slots() <= SLOTS_LIMIT && body.size() <= BYTES_LIMIT - 17
}
