//! The answers of primitives of two integers that need nothing else.
ghost use Rattle.std.specs.Prelude.{[], ◌∷◌, Ok, IfSome};
ghost use Rattle.gem_object.specs.declared.value.Value.TheVariants.{Int};
ghost use Rattle.prim_rules.specs.Any.{same_rule};
ghost use Rattle.prim_rules.specs.Rules.{rule_of};
ghost use Rattle.prim_rules.specs.declared.answer.PrimitiveAnswer.TheVariants.{Gives};
ghost use Rattle.prim_parts.specs.Does.{Computes};
ghost use Rattle.prim_numbers.specs.Operations.{operation_rule};
ghost use Rattle.prim_numbers.specs.declared.operation.Bitwise.TheVariants.{And};
ghost use Rattle.prim_numbers.specs.declared.operation.Operation.TheVariants.{Add, Subtract, Multiply, Divide, Compare, CombineBits};

use crate::arithmetic::{add, compares, divide, multiply, subtract};
use crate::bits::combine_bits;
use crate::operation::{Bitwise, Comparison, Division};
use gem_object::Value;
use prim_parts::truth;

/// The answer of the primitive of this number, where it is one of `==`, `=`, `+`, `-`, `*`, `//`,
/// `\\`, `<`, `>`, `<=`, `>=` and `bitAnd:` of two integers, and ends without an error. It looks at
/// nothing else, and takes no memory. None anywhere else; of None the contract says nothing.
#[inline(always)]
pub fn ready(number: u8, receiver: &Value, arguments: &[Value]) -> Option<Value>
    ensures { IfSome result (λ value.
        Computes (rule_of number receiver.now arguments.now) (Ok (Gives value))) }
{
    let [argument] = arguments else {
        return None;
    };
    match (receiver, argument) {
        (Value::Int(first), Value::Int(second)) => ready_answer(number, *first, *second),
        _ => None,
    }
}

// The same of these two integers. It is short, so that it can be part of the machine's loop.
#[inline(always)]
fn ready_answer(number: u8, first: i64, second: i64) -> Option<Value>
    ensures { IfSome result (λ value.
        Computes (rule_of number (Int first) (Int second ∷ [])) (Ok (Gives value))) }
{
    match number {
        1 => Some(same(first, second)),
        2 => Some(same(first, second)),
        10 => sum(first, second),
        11 => difference(first, second),
        12 => product(first, second),
        13 => divided(Division::FloorQuotient, first, second),
        14 => divided(Division::FloorRemainder, first, second),
        17 => Some(compared(Comparison::Less, first, second)),
        18 => Some(compared(Comparison::Greater, first, second)),
        19 => Some(compared(Comparison::LessOrEqual, first, second)),
        20 => Some(compared(Comparison::GreaterOrEqual, first, second)),
        21 => Some(common_bits(first, second)),
        _ => None,
    }
}

// Whether both are the same integer.
#[inline(always)]
fn same(first: i64, second: i64) -> Value
    ensures { Computes (same_rule (Int first) (Int second)) (Ok result) }
{
    truth(first == second)
}

// The sum, where it is an integer of the language.
#[inline(always)]
fn sum(first: i64, second: i64) -> Option<Value>
    ensures { IfSome result (λ value. Computes (operation_rule Add first second) (Ok value)) }
{
    match add(first, second) {
        Ok(value) => Some(value),
        Err(_) => None,
    }
}

// The difference, where it is an integer of the language.
#[inline(always)]
fn difference(first: i64, second: i64) -> Option<Value>
    ensures { IfSome result (λ value. Computes (operation_rule Subtract first second) (Ok value)) }
{
    match subtract(first, second) {
        Ok(value) => Some(value),
        Err(_) => None,
    }
}

// The product, where it is an integer of the language.
#[inline(always)]
fn product(first: i64, second: i64) -> Option<Value>
    ensures { IfSome result (λ value. Computes (operation_rule Multiply first second) (Ok value)) }
{
    match multiply(first, second) {
        Ok(value) => Some(value),
        Err(_) => None,
    }
}

// What the division comes to, where that is no error.
#[inline(always)]
fn divided(division: Division, first: i64, second: i64) -> Option<Value>
    ensures { IfSome result (λ value.
        Computes (operation_rule (Divide division) first second) (Ok value)) }
{
    match divide(division, first, second) {
        Ok(value) => Some(value),
        Err(_) => None,
    }
}

// What the comparison comes to.
#[inline(always)]
fn compared(comparison: Comparison, first: i64, second: i64) -> Value
    ensures { Computes (operation_rule (Compare comparison) first second) (Ok result) }
{
    truth(compares(comparison, first, second))
}

// The bits that both have.
#[inline(always)]
fn common_bits(first: i64, second: i64) -> Value
    ensures { Computes (operation_rule (CombineBits And) first second) (Ok result) }
{
    Value::Int(combine_bits(Bitwise::And, first, second))
}
