//! Instructions that put values on the stack and drop them.
ghost use Rattle.std.specs.Prelude.{◌≡◌, ◌∷◌, IfOk, OnOk};
ghost use Rattle.gem_language.specs.Sends.{outside};
ghost use Rattle.running_objects.specs.Seen.{Keeps};
ghost use Rattle.st_compiler.specs.Instruction.{PushSelf, PushLit, MakeLit, Pop, Dup};
ghost use Rattle.st_compiler.specs.TreeCode.{singleton_op};
ghost use Rattle.st_machine.specs.Led.{AskedBy, IsAhead, TurnedBy, TurnsForward};
ghost use Rattle.st_machine.specs.Parts.{table_of};
ghost use Rattle.st_tree.specs.Views.{constant_of};

use crate::flow::{Asked, Turn};
use crate::layers::Layers;
use crate::locals::Locals;
use crate::outline::Outline;
use crate::places::next_of;
use crate::shared_code::SharedCode;
use gem_object::Value;
use running_objects::{Objects, Stop};
use st_commands::literal;
use st_locals::singleton_value;
use st_tree::Literal;
use std::alloc::{AllocError, Global};
use tree_meaning::{Mark, Singleton};

/// Puts the receiver.
pub(crate) fn push_self<O: Objects>(
    objects: &O,
    locals: &Locals,
    stack: &mut Layers<Value>,
    chain: &Layers<Mark>,
    frame: &Outline,
    code: &SharedCode,
    place: usize,
    depth: u32,
) -> Result<Turn, AllocError>
    ensures led { TurnedBy (outside depth) (table_of code.now) PushSelf place stack.old.own
        chain.now.own frame.now (O.seen objects.now) locals.now result stack.new.own chain.now.own
        (O.seen objects.now) locals.now }
    ensures forward { IfOk result (TurnsForward place) }
    ensures stack { stack.new.below ≡ stack.old.below }
{
    match frame.receiver() {
        Value::Ref(oid) => stack.push(Value::Ref(*oid))?,
        receiver => push_clone(stack, receiver)?,
    }
    Ok(Turn::Goes(next_of(place)?))
}

/// Puts nil, true or false.
pub(crate) fn push_singleton<O: Objects>(
    objects: &O,
    locals: &Locals,
    stack: &mut Layers<Value>,
    chain: &Layers<Mark>,
    frame: &Outline,
    code: &SharedCode,
    singleton: Singleton,
    place: usize,
    depth: u32,
) -> Result<Turn, AllocError>
    ensures led { TurnedBy (outside depth) (table_of code.now) (singleton_op singleton) place
        stack.old.own chain.now.own frame.now (O.seen objects.now) locals.now result stack.new.own
        chain.now.own (O.seen objects.now) locals.now }
    ensures forward { IfOk result (TurnsForward place) }
    ensures stack { stack.new.below ≡ stack.old.below }
{
    stack.push(singleton_value(singleton))?;
    Ok(Turn::Goes(next_of(place)?))
}

/// Puts a value.
pub(crate) fn push_value<O: Objects>(
    objects: &O,
    locals: &Locals,
    stack: &mut Layers<Value>,
    chain: &Layers<Mark>,
    frame: &Outline,
    code: &SharedCode,
    value: &Value,
    place: usize,
    depth: u32,
) -> Result<Turn, AllocError>
    ensures led { TurnedBy (outside depth) (table_of code.now) (PushLit value.now) place
        stack.old.own chain.now.own frame.now (O.seen objects.now) locals.now result stack.new.own
        chain.now.own (O.seen objects.now) locals.now }
    ensures forward { IfOk result (TurnsForward place) }
    ensures stack { stack.new.below ≡ stack.old.below }
{
    match value {
        Value::Int(number) => stack.push(Value::Int(*number))?,
        _ => push_clone(stack, value)?,
    }
    Ok(Turn::Goes(next_of(place)?))
}

/// Puts the new object of a string or an array.
#[inline(never)]
pub(crate) fn make_literal<O: Objects>(
    alloc: Global,
    objects: &mut O,
    locals: &Locals,
    stack: &mut Layers<Value>,
    chain: &Layers<Mark>,
    frame: &Outline,
    code: &SharedCode,
    tree: &Literal,
    place: usize,
    depth: u32,
) -> Result<Asked, Stop>
    ensures keeps { Keeps (O.seen objects.old) (O.seen objects.new) }
    ensures led { AskedBy (outside depth) (table_of code.now) (MakeLit (constant_of tree.now)) place
        stack.old.own chain.now.own frame.now (O.seen objects.old) locals.now result stack.new.own
        chain.now.own (O.seen objects.new) locals.now }
    ensures forward { IfOk result (IsAhead place) }
    ensures stack { stack.new.below ≡ stack.old.below }
{
    let value = literal(alloc, objects, locals, tree)?;
    stack.push(value)?;
    Ok(Asked::Goes(next_of(place)?))
}

/// Drops the uppermost value.
pub(crate) fn pop<O: Objects>(
    objects: &O,
    locals: &Locals,
    stack: &mut Layers<Value>,
    chain: &Layers<Mark>,
    frame: &Outline,
    code: &SharedCode,
    place: usize,
    depth: u32,
) -> Result<Turn, AllocError>
    ensures led { TurnedBy (outside depth) (table_of code.now) Pop place stack.old.own chain.now.own
        frame.now (O.seen objects.now) locals.now result stack.new.own chain.now.own (O.seen
        objects.now) locals.now }
    ensures forward { IfOk result (TurnsForward place) }
    ensures stack { stack.new.below ≡ stack.old.below }
{
    let Some(_) = stack.pop() else {
        return Ok(Turn::Stuck);
    };
    Ok(Turn::Goes(next_of(place)?))
}

/// Puts the uppermost value again.
pub(crate) fn duplicate<O: Objects>(
    objects: &O,
    locals: &Locals,
    stack: &mut Layers<Value>,
    chain: &Layers<Mark>,
    frame: &Outline,
    code: &SharedCode,
    place: usize,
    depth: u32,
) -> Result<Turn, AllocError>
    ensures led { TurnedBy (outside depth) (table_of code.now) Dup place stack.old.own chain.now.own
        frame.now (O.seen objects.now) locals.now result stack.new.own chain.now.own (O.seen
        objects.now) locals.now }
    ensures forward { IfOk result (TurnsForward place) }
    ensures stack { stack.new.below ≡ stack.old.below }
{
    let Some(top) = stack.item(0) else {
        return Ok(Turn::Stuck);
    };
    let copy = top.clone()?;
    stack.push(copy)?;
    Ok(Turn::Goes(next_of(place)?))
}

/// Puts a copy of a value. Those that are most frequent are copied without a call.
#[inline(always)]
pub(crate) fn push_copy(stack: &mut Layers<Value>, value: &Value) -> Result<(), AllocError>
    ensures pushed { OnOk result (stack.new.own ≡ value.now ∷ stack.old.own) }
    ensures below { stack.new.below ≡ stack.old.below }
{
    match value {
        Value::Int(number) => stack.push(Value::Int(*number)),
        Value::Ref(oid) => stack.push(Value::Ref(*oid)),
        _ => push_clone(stack, value),
    }
}

/// The same of any value.
#[inline(never)]
fn push_clone(stack: &mut Layers<Value>, value: &Value) -> Result<(), AllocError>
    ensures pushed { OnOk result (stack.new.own ≡ value.now ∷ stack.old.own) }
    ensures below { stack.new.below ≡ stack.old.below }
{
    stack.push(value.clone()?)
}
