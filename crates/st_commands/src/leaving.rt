//! The ends of activations.
ghost use Rattle.tree_meaning.specs.Scopes.{leave_method, leave_block};
ghost use Rattle.st_commands.specs.Leaving.{LeftSo};

use gem_object::Value;
use running_objects::{Objects, Stop};
use st_locals::Activations;
use tree_meaning::Mark;

/// A method's end: its activation lives no more, and what came since it began is given back. A
/// value that returns to it is its answer.
#[inline(always)]
pub fn leave_method<O: Objects, L: Activations>(
    objects: &O,
    locals: &mut L,
    mark: Mark,
    ended: Result<Value, Stop>,
) -> Result<Value, Stop>
    ensures { LeftSo (leave_method mark) ended (O.seen objects.now) (L.local locals.old) result
        (L.local locals.new) }
{
    locals.end_living(mark.living);
    locals.give_back(mark);
    match ended {
        Ok(answer) => Ok(answer),
        Err(Stop::Fails(fault)) => Err(Stop::Fails(fault)),
        Err(Stop::Returns(answer, home)) => {
            if home == mark.living {
                return Ok(answer);
            }
            Err(Stop::Returns(answer, home))
        }
        Err(Stop::NoMemory) => Err(Stop::NoMemory),
    }
}

/// A block's end: its scope is given back.
#[inline(always)]
pub fn leave_block<O: Objects, L: Activations>(
    objects: &O,
    locals: &mut L,
    mark: Mark,
    ended: Result<Value, Stop>,
) -> Result<Value, Stop>
    ensures { LeftSo (leave_block mark) ended (O.seen objects.now) (L.local locals.old) result
        (L.local locals.new) }
{
    locals.give_back(mark);
    match ended {
        Ok(answer) => Ok(answer),
        Err(Stop::Fails(fault)) => Err(Stop::Fails(fault)),
        Err(Stop::Returns(answer, home)) => Err(Stop::Returns(answer, home)),
        Err(Stop::NoMemory) => Err(Stop::NoMemory),
    }
}
