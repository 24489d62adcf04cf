//! How a run stops before it has its answer.
ghost use Rattle.std.specs.Prelude.{◌≡◌};
ghost use Rattle.running_objects.specs.declared.stop.Stop.TheVariants as stop;

use gem_object::Value;
use object_programs::Fault;
use std::alloc::{AllocError, AllocFailed};

/// Why a run has no answer of its own.
#[derive(Debug, Drop)]
pub enum Stop {
    /// An error of the language ends the chunk.
    Fails(Fault),
    /// The value returns to the activation of this number, which ends with it.
    Returns(Value, u64),
    /// Memory ran out. What the run would have come to isn't known then.
    NoMemory,
}

impl From<Fault> for Stop {
    ghost from_gives = { λ fault given. given ≡ stop.Fails fault };

    fn from(fault: Fault) -> Stop {
        Stop::Fails(fault)
    }
}

impl From<AllocError> for Stop {
    ghost from_gives = { λ _ given. given ≡ stop.NoMemory };

    fn from(_: AllocError) -> Stop {
        Stop::NoMemory
    }
}

impl<T: Drop> From<AllocFailed<T>> for Stop {
    ghost from_gives = { λ _ given. given ≡ stop.NoMemory };

    fn from(_: AllocFailed<T>) -> Stop {
        Stop::NoMemory
    }
}
