//! Jumps by a truth value.
ghost use Rattle.std.specs.Prelude.{◌≡◌, IfOk};
ghost use Rattle.gem_language.specs.Sends.{outside};
ghost use Rattle.st_compiler.specs.Code.{jump_unless};
ghost use Rattle.st_machine.specs.Led.{TurnedBy, TurnsForward};
ghost use Rattle.st_machine.specs.Parts.{table_of};

use crate::flow::Turn;
use crate::layers::Layers;
use crate::locals::Locals;
use crate::outline::Outline;
use crate::places::{ahead_of, next_of};
use crate::shared_code::SharedCode;
use gem_object::Value;
use running_objects::Objects;
use st_locals::truth_of;
use std::alloc::AllocError;
use tree_meaning::{Mark, Truth};

/// Takes a Boolean, and passes so many instructions unless it is this one; E3 where it is none.
pub(crate) fn jump_unless<O: Objects>(
    objects: &O,
    locals: &Locals,
    stack: &mut Layers<Value>,
    chain: &Layers<Mark>,
    frame: &Outline,
    code: &SharedCode,
    when: bool,
    ahead: usize,
    place: usize,
    depth: u32,
) -> Result<Turn, AllocError>
    ensures led { TurnedBy (outside depth) (table_of code.now) (jump_unless when ahead) place
        stack.old.own chain.now.own frame.now (O.seen objects.now) locals.now result stack.new.own
        chain.now.own (O.seen objects.now) locals.now }
    ensures forward { IfOk result (TurnsForward place) }
    ensures stack { stack.new.below ≡ stack.old.below }
{
    let Some(value) = stack.pop() else {
        return Ok(Turn::Stuck);
    };
    match (truth_of(&value), when) {
        (Truth::True, true) | (Truth::False, false) => Ok(Turn::Goes(next_of(place)?)),
        (Truth::True, false) | (Truth::False, true) => Ok(Turn::Goes(ahead_of(place, ahead)?)),
        (Truth::Neither, _) => Ok(Turn::NotBoolean),
    }
}
