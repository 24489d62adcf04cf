//! Why a call of a view has no answer.
ghost use Rattle.std.specs.Prelude.{◌≡◌};
ghost use Rattle.session_view.specs.declared.fault.ViewFault.TheVariants as fault;

use gem_object::Oid;
use std::alloc::AllocError;

/// Why a call of a view has no answer. Bodies, names and updates are then as before; touches that
/// were made before it stay.
#[derive(Clone, Copy, Debug, PartialEq, Eq)]
pub enum ViewFault {
    /// The user may not read the object of this name.
    NoRead(Oid),
    /// The user may not write the object of this name, or, of a segment, the objects in it.
    NoWrite(Oid),
    /// No name is left: the counter would be 2^24.
    NamesUsed,
    /// The object would have more than 65,000 slots, or take more than 1,048,576 bytes where it is
    /// stored.
    TooLarge,
    /// Memory ran out.
    NoMemory,
}

impl From<AllocError> for ViewFault {
    ghost from_gives = { λ _ given. given ≡ fault.NoMemory };

    fn from(_: AllocError) -> ViewFault {
        ViewFault::NoMemory
    }
}
