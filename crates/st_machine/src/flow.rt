//! What an instruction leads to.
ghost use Rattle.std.specs.Prelude.{◌≡◌};
ghost use Rattle.st_machine.specs.Led.{FlowOf};

use running_objects::Stop;
use std::alloc::AllocError;

/// What an instruction leads to that makes an object or a block or asks for a name, where it
/// doesn't stop the run.
#[derive(Clone, Copy, Debug)]
pub(crate) enum Asked {
    /// The instruction at this place, further on.
    Goes(usize),
    /// It couldn't be carried out. No code that was compiled comes to this.
    Stuck,
}

/// What an instruction leads to that `turn` leaves.
#[derive(Clone, Copy, Debug)]
pub(crate) enum Flow {
    /// The instruction at this place, further on.
    Goes(usize),
    /// The part answers the only value on the stack.
    Answers,
    /// The only value on the stack returns to the home of the activation.
    Returns,
    /// The run stops. Why is told beside it.
    Stopped,
    /// It couldn't be carried out. No code that was compiled comes to this.
    Stuck,
}

/// What an instruction leads to that needs no more than the receiver, the stack, the scopes with
/// their variables, units and what is remembered. It is small, so that the loop of the machine goes
/// on at once.
#[derive(Clone, Copy, Debug)]
pub(crate) enum Turn {
    /// The instruction at this place, further on.
    Goes(usize),
    /// The same after a jump back.
    Jumps(usize),
    /// The run fails: E3.
    NotBoolean,
    /// The run fails: E5.
    ArgumentKind,
    /// The run fails: E13.
    NoUnit,
    /// The run fails: E17.
    TooLarge,
    /// It couldn't be carried out. No code that was compiled comes to this.
    Stuck,
}

/// What came of an instruction that was tried.
#[derive(Debug)]
pub(crate) enum Turned {
    /// It was carried out, or no memory was found for it.
    Done(Result<Turn, AllocError>),
    /// It wasn't, and all is as before. Of a message there is the place at which what answers it
    /// stands, where that is known.
    Left(Option<usize>),
}

/// What an instruction leads to that came to this, and why it stops.
#[inline(always)]
pub(crate) fn flow_of(why: &mut Stop, asked: Result<Asked, Stop>) -> Flow
    ensures { FlowOf asked result why.new }
{
    match asked {
        Ok(Asked::Goes(place)) => Flow::Goes(place),
        Ok(Asked::Stuck) => Flow::Stuck,
        Err(stop) => {
            *why = stop;
            Flow::Stopped
        }
    }
}
