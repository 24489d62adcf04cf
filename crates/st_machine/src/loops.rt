//! Counting loops: a counter, and above it its limit.
ghost use Rattle.std.specs.Prelude.{◌≡◌, IfOk};
ghost use Rattle.gem_language.specs.Sends.{outside};
ghost use Rattle.st_compiler.specs.Instruction.{LoopStart, LoopNext, LoopStep};
ghost use Rattle.st_machine.specs.Led.{TurnedBy, TurnsForward};
ghost use Rattle.st_machine.specs.Parts.{table_of};

use crate::flow::Turn;
use crate::layers::Layers;
use crate::locals::Locals;
use crate::outline::Outline;
use crate::places::{ahead_of, behind, next_of};
use crate::shared_code::SharedCode;
use gem_object::{LARGEST_INTEGER, Value};
use running_objects::Objects;
use st_locals::int_pair;
use std::alloc::AllocError;
use tree_meaning::{Mark, Pair};

/// Begins a loop: E5 unless both are integers.
pub(crate) fn loop_start<O: Objects>(
    objects: &O,
    locals: &Locals,
    stack: &Layers<Value>,
    chain: &Layers<Mark>,
    frame: &Outline,
    code: &SharedCode,
    place: usize,
    depth: u32,
) -> Result<Turn, AllocError>
    ensures led { TurnedBy (outside depth) (table_of code.now) LoopStart place stack.now.own
        chain.now.own frame.now (O.seen objects.now) locals.now result stack.now.own chain.now.own
        (O.seen objects.now) locals.now }
    ensures forward { IfOk result (TurnsForward place) }
{
    let (Some(limit), Some(counter)) = (stack.item(0), stack.item(1)) else {
        return Ok(Turn::Stuck);
    };
    match int_pair(counter, limit) {
        Pair::Ints(_, _) => Ok(Turn::Goes(next_of(place)?)),
        Pair::Others => Ok(Turn::ArgumentKind),
    }
}

/// Puts the counter, or drops both and passes so many instructions where it is past the limit.
pub(crate) fn loop_next<O: Objects>(
    objects: &O,
    locals: &Locals,
    stack: &mut Layers<Value>,
    chain: &Layers<Mark>,
    frame: &Outline,
    code: &SharedCode,
    ahead: usize,
    place: usize,
    depth: u32,
) -> Result<Turn, AllocError>
    ensures led { TurnedBy (outside depth) (table_of code.now) (LoopNext ahead) place stack.old.own
        chain.now.own frame.now (O.seen objects.now) locals.now result stack.new.own chain.now.own
        (O.seen objects.now) locals.now }
    ensures forward { IfOk result (TurnsForward place) }
    ensures stack { stack.new.below ≡ stack.old.below }
{
    let (Some(limit), Some(counter)) = (stack.item(0), stack.item(1)) else {
        return Ok(Turn::Stuck);
    };
    let Pair::Ints(number, last) = int_pair(counter, limit) else {
        return Ok(Turn::Stuck);
    };
    if number <= last {
        stack.push(Value::Int(number))?;
        return Ok(Turn::Goes(next_of(place)?));
    }
    stack.drop_upper(2);
    Ok(Turn::Goes(ahead_of(place, ahead)?))
}

/// Adds one to the counter and goes back by so many, or drops both where there is no next
/// integer.
pub(crate) fn loop_step<O: Objects>(
    objects: &O,
    locals: &Locals,
    stack: &mut Layers<Value>,
    chain: &Layers<Mark>,
    frame: &Outline,
    code: &SharedCode,
    back: usize,
    place: usize,
    depth: u32,
) -> Result<Turn, AllocError>
    ensures led { TurnedBy (outside depth) (table_of code.now) (LoopStep back) place stack.old.own
        chain.now.own frame.now (O.seen objects.now) locals.now result stack.new.own chain.now.own
        (O.seen objects.now) locals.now }
    ensures forward { IfOk result (TurnsForward place) }
    ensures stack { stack.new.below ≡ stack.old.below }
{
    let (Some(limit), Some(counter)) = (stack.item(0), stack.item(1)) else {
        return Ok(Turn::Stuck);
    };
    let Pair::Ints(number, _) = int_pair(counter, limit) else {
        return Ok(Turn::Stuck);
    };
    if number >= LARGEST_INTEGER {
        stack.drop_upper(2);
        return Ok(Turn::Goes(next_of(place)?));
    }
    stack.put(1, Value::Int(number + 1));
    Ok(Turn::Jumps(behind(place, back)))
}
