//! Units of the budget, which messages and loops take.
ghost use Rattle.std.specs.Prelude.{◌≡◌, IfOk};
ghost use Rattle.running_objects.specs.Seen.{Keeps};
ghost use Rattle.st_machine.specs.Led.{TurnsForward, UnitTurned};

use crate::flow::Turn;
use crate::places::next_of;
use running_objects::{Objects, Stop};
use std::alloc::AllocError;

/// Takes a unit, and goes on with the next instruction: E13 where none is left.
pub(crate) fn spend_unit<O: Objects>(objects: &mut O, place: usize) -> Result<Turn, AllocError>
    ensures keeps { Keeps (O.seen objects.old) (O.seen objects.new) }
    ensures turned { UnitTurned place (O.seen objects.old) result (O.seen objects.new) }
    ensures forward { IfOk result (TurnsForward place) }
{
    match objects.tick() {
        Ok(()) => Ok(Turn::Goes(next_of(place)?)),
        Err(Stop::Fails(_)) => Ok(Turn::NoUnit),
        Err(Stop::Returns(_, _)) => unreachable!(),
        Err(Stop::NoMemory) => Err(AllocError),
    }
}
