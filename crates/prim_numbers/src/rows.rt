//! The primitives by their numbers.
ghost use Rattle.std.specs.Prelude.{◌≤◌, pos};
ghost use Rattle.prim_rules.specs.Numbers.{integers_row, row_25, row_26, row_27, character_rule, radix_rule};
ghost use Rattle.prim_rules.specs.Rules.{rule_of};
ghost use Rattle.prim_parts.specs.Does.{Does, Computes};
ghost use Rattle.prim_numbers.specs.Operations.{operation_rule};

use crate::arithmetic::operate;
use crate::operation::{Bitwise, Comparison, Division, Operation};
use crate::radix::radix_text;
use gem_object::Value;
use object_programs::Fault;
use prim_parts::{character_in, int_in, new_string, no_arguments, one_of};
use prim_rules::PrimitiveAnswer;
use running_objects::{Objects, Stop};
use std::alloc::Global;

/// Does what the primitive of this number does, from 10 to 27, for a receiver and arguments. A
/// number of 26 makes a String; the others touch nothing.
pub fn call<O: Objects>(
    alloc: Global,
    objects: &mut O,
    number: u8,
    receiver: &Value,
    arguments: &[Value],
) -> Result<PrimitiveAnswer, Stop>
    requires least { 10 ≤ number }
    requires most { number ≤ 27 }
    ensures { Does (rule_of number receiver.now arguments.now) (O.seen objects.old) result
        (O.seen objects.new) }
{
    match number {
        10 => call_operation(Operation::Add, receiver, arguments),
        11 => call_operation(Operation::Subtract, receiver, arguments),
        12 => call_operation(Operation::Multiply, receiver, arguments),
        13 => call_operation(
            Operation::Divide(Division::FloorQuotient),
            receiver,
            arguments,
        ),
        14 => call_operation(
            Operation::Divide(Division::FloorRemainder),
            receiver,
            arguments,
        ),
        15 => call_operation(Operation::Divide(Division::Quotient), receiver, arguments),
        16 => call_operation(Operation::Divide(Division::Remainder), receiver, arguments),
        17 => call_operation(Operation::Compare(Comparison::Less), receiver, arguments),
        18 => call_operation(Operation::Compare(Comparison::Greater), receiver, arguments),
        19 => call_operation(
            Operation::Compare(Comparison::LessOrEqual),
            receiver,
            arguments,
        ),
        20 => call_operation(
            Operation::Compare(Comparison::GreaterOrEqual),
            receiver,
            arguments,
        ),
        21 => call_operation(Operation::CombineBits(Bitwise::And), receiver, arguments),
        22 => call_operation(Operation::CombineBits(Bitwise::Or), receiver, arguments),
        23 => call_operation(Operation::CombineBits(Bitwise::Xor), receiver, arguments),
        24 => call_operation(Operation::Shift, receiver, arguments),
        25 => as_character(receiver, arguments),
        26 => print_to_base(alloc, objects, receiver, arguments),
        27 => as_integer(receiver, arguments),
        _ => unreachable!(),
    }
}

// An operation on the receiver and the one argument; E5 unless both are integers.
fn call_operation(
    operation: Operation,
    receiver: &Value,
    arguments: &[Value],
) -> Result<PrimitiveAnswer, Stop>
    ensures { Computes (integers_row (operation_rule operation) receiver.now arguments.now)
        result }
{
    let number = int_in(receiver)?;
    let argument = one_of(arguments)?;
    let other = int_in(argument)?;
    let value = operate(operation, number, other)?;
    Ok(PrimitiveAnswer::Gives(value))
}

// `asCharacter`
fn as_character(receiver: &Value, arguments: &[Value]) -> Result<PrimitiveAnswer, Stop>
    ensures { Computes (row_25 receiver.now arguments.now) result }
{
    let number = int_in(receiver)?;
    no_arguments(arguments)?;
    let value = character_of(number)?;
    Ok(PrimitiveAnswer::Gives(value))
}

// The character with this code; E6 where there is none.
fn character_of(number: i64) -> Result<Value, Stop>
    ensures { Computes (character_rule number) result }
{
    if 0 <= number && number <= 127 {
        return Ok(Value::Char(number as u8));
    }
    Err(Stop::Fails(Fault::IntegerRange))
}

// `printString:`
fn print_to_base<O: Objects>(
    alloc: Global,
    objects: &mut O,
    receiver: &Value,
    arguments: &[Value],
) -> Result<PrimitiveAnswer, Stop>
    ensures { Does (row_26 receiver.now arguments.now) (O.seen objects.old) result
        (O.seen objects.new) }
{
    let number = int_in(receiver)?;
    let argument = one_of(arguments)?;
    let base = int_in(argument)?;
    let value = text_to_base(alloc, objects, number, base)?;
    Ok(PrimitiveAnswer::Gives(value))
}

// A new String of the number to a base; E6 where that isn't a base.
fn text_to_base<O: Objects>(
    alloc: Global,
    objects: &mut O,
    number: i64,
    base: i64,
) -> Result<Value, Stop>
    ensures { Does (radix_rule number base) (O.seen objects.old) result (O.seen objects.new) }
{
    if 2 <= base && base <= 36 {
        let text = radix_text(alloc, base as u64, number)?;
        return new_string(alloc, objects, text);
    }
    Err(Stop::Fails(Fault::IntegerRange))
}

// `asInteger` of a character: its code.
fn as_integer(receiver: &Value, arguments: &[Value]) -> Result<PrimitiveAnswer, Stop>
    ensures { Computes (row_27 receiver.now arguments.now) result }
{
    let code = character_in(receiver)?;
    no_arguments(arguments)?;
    Ok(PrimitiveAnswer::Gives(Value::Int(i64::from(code))))
}
