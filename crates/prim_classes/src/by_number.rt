//! The primitives of this crate by their numbers.
ghost use Rattle.std.specs.Prelude.{◌≡◌, ◌≤◌, true};
ghost use Rattle.prim_rules.specs.Rules.{rule_of};
ghost use Rattle.prim_parts.specs.Does.{Does};
ghost use Rattle.prim_classes.specs.Numbers.{is_own};

use crate::any::{row_3, row_4, row_5, row_7, same_row};
use crate::blocks::{row_32, value_row};
use crate::classes::{ClassFact, ClassList, list, row_54, row_59, row_60, tell};
use crate::creation::{row_52, row_53};
use crate::kind_of::row_6;
use crate::segments::{row_8, row_9};
use gem_object::Value;
use prim_rules::PrimitiveAnswer;
use running_objects::{Objects, Stop};
use std::alloc::Global;

/// Performs a primitive of this crate: 1 to 9, 28 to 32, or 52 to 60. It does what the rule of its
/// number says, and stops with `NoMemory` where memory runs out.
pub fn call<O: Objects>(
    alloc: Global,
    objects: &mut O,
    number: u8,
    receiver: &Value,
    arguments: &[Value],
) -> Result<PrimitiveAnswer, Stop>
    requires { is_own number ≡ true }
    ensures { Does (rule_of number receiver.now arguments.now) (O.seen objects.old) result
        (O.seen objects.new) }
{
    if number <= 9 {
        return call_any(alloc, objects, number, receiver, arguments);
    }
    if number <= 32 {
        return call_block(alloc, objects, number, receiver, arguments);
    }
    call_class(alloc, objects, number, receiver, arguments)
}

// The primitives that any receiver understands.
fn call_any<O: Objects>(
    alloc: Global,
    objects: &mut O,
    number: u8,
    receiver: &Value,
    arguments: &[Value],
) -> Result<PrimitiveAnswer, Stop>
    requires first { 1 ≤ number }
    requires last { number ≤ 9 }
    ensures { Does (rule_of number receiver.now arguments.now) (O.seen objects.old) result
        (O.seen objects.new) }
{
    match number {
        1 => same_row(receiver, arguments),
        2 => same_row(receiver, arguments),
        3 => row_3(objects, receiver, arguments),
        4 => row_4(alloc, objects, receiver, arguments),
        5 => row_5(alloc, objects, receiver, arguments),
        6 => row_6(objects, receiver, arguments),
        7 => row_7(alloc, objects, receiver, arguments),
        8 => row_8(objects, receiver, arguments),
        9 => row_9(objects, receiver, arguments),
        _ => unreachable!(),
    }
}

// The primitives of blocks.
fn call_block<O: Objects>(
    alloc: Global,
    objects: &mut O,
    number: u8,
    receiver: &Value,
    arguments: &[Value],
) -> Result<PrimitiveAnswer, Stop>
    requires first { 28 ≤ number }
    requires last { number ≤ 32 }
    ensures { Does (rule_of number receiver.now arguments.now) (O.seen objects.old) result
        (O.seen objects.new) }
{
    match number {
        28 => value_row(alloc, 0, receiver, arguments),
        29 => value_row(alloc, 1, receiver, arguments),
        30 => value_row(alloc, 2, receiver, arguments),
        31 => value_row(alloc, 3, receiver, arguments),
        32 => row_32(receiver, arguments),
        _ => unreachable!(),
    }
}

// The primitives of classes and of new objects.
fn call_class<O: Objects>(
    alloc: Global,
    objects: &mut O,
    number: u8,
    receiver: &Value,
    arguments: &[Value],
) -> Result<PrimitiveAnswer, Stop>
    requires first { 52 ≤ number }
    requires last { number ≤ 60 }
    ensures { Does (rule_of number receiver.now arguments.now) (O.seen objects.old) result
        (O.seen objects.new) }
{
    match number {
        52 => row_52(alloc, objects, receiver, arguments),
        53 => row_53(alloc, objects, receiver, arguments),
        54 => row_54(alloc, objects, receiver, arguments),
        55 => tell(objects, ClassFact::Name, receiver, arguments),
        56 => tell(objects, ClassFact::Superclass, receiver, arguments),
        57 => list(alloc, objects, ClassList::Names, receiver, arguments),
        58 => list(alloc, objects, ClassList::Selectors, receiver, arguments),
        59 => row_59(objects, receiver, arguments),
        60 => row_60(alloc, objects, receiver, arguments),
        _ => unreachable!(),
    }
}
