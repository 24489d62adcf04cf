//! Room: running. Gives the call of a primitive by its number. Knows nothing of trees, of the Stone
//! and of other sessions. Its tests stand in `running_tests`.
#![tactic(auto)]

ghost use Rattle.std.specs.Prelude.{◌≡◌, ◌||◌, Ok, IfSome};
ghost use Rattle.prim_rules.specs.Rules.{rule_of};
ghost use Rattle.prim_rules.specs.declared.answer.PrimitiveAnswer.TheVariants.{Gives};
ghost use Rattle.prim_parts.specs.Does.{Does, Computes};
ghost use Rattle.prim_classes.specs.Numbers.{is_between, is_own};

use gem_object::Value;
use object_programs::Fault;
use prim_rules::PrimitiveAnswer;
use running_objects::{Objects, Stop};
use std::alloc::Global;

/// Does what the primitive of this number does, for a receiver and arguments, the first one first;
/// E5 where there is no primitive of this number. A block that is to be evaluated is answered, and
/// not yet evaluated.
///
/// # Errors
///
/// `Fails` with the error by which the primitive ends. `NoMemory` where memory ran out; then only
/// what every run keeps is known.
pub fn call<O: Objects>(
    alloc: Global,
    objects: &mut O,
    number: u8,
    receiver: &Value,
    arguments: &[Value],
) -> Result<PrimitiveAnswer, Stop>
    ensures { Does (rule_of number receiver.now arguments.now) (O.seen objects.old) result
        (O.seen objects.new) }
{
    if is_of_numbers(number) {
        return prim_numbers::call(alloc, objects, number, receiver, arguments);
    }
    if is_of_collections(number) {
        return prim_collections::call(alloc, objects, number, receiver, arguments);
    }
    if is_of_classes(number) {
        return prim_classes::call(alloc, objects, number, receiver, arguments);
    }
    if is_of_shared(number) {
        return prim_shared::call(alloc, objects, number, receiver, arguments);
    }
    Err(Stop::Fails(Fault::ArgumentKind))
}

/// The answer of the primitive of this number, where it is known from the receiver and the arguments
/// alone: where both are integers, and it is one of `==`, `=`, `+`, `-`, `*`, `//`, `\\`, `<`, `>`,
/// `<=`, `>=` and `bitAnd:` and ends without an error. It takes no memory. None anywhere else; of
/// None the contract says nothing.
#[inline(always)]
pub fn ready(number: u8, receiver: &Value, arguments: &[Value]) -> Option<Value>
    ensures { IfSome result (λ value.
        Computes (rule_of number receiver.now arguments.now) (Ok (Gives value))) }
{
    prim_numbers::ready(number, receiver, arguments)
}

// Whether the primitive of this number is one of integers and characters.
fn is_of_numbers(number: u8) -> bool
    ensures { result ≡ is_between 10 27 number }
{
    10 <= number && number <= 27
}

// Whether the primitive of this number is one of collections and strings, or of dictionaries.
fn is_of_collections(number: u8) -> bool
    ensures { result ≡ is_between 33 51 number || is_between 61 67 number }
{
    (33 <= number && number <= 51) || (61 <= number && number <= 67)
}

// Whether the primitive of this number is one of all objects, of blocks, or of classes.
fn is_of_classes(number: u8) -> bool
    ensures { result ≡ is_own number }
{
    (1 <= number && number <= 9) || (28 <= number && number <= 32) || (52 <= number && number <= 60)
}

// Whether the primitive of this number is one of segments, users, the transcript, or
// reduced-conflict objects.
fn is_of_shared(number: u8) -> bool
    ensures { result ≡ is_between 68 96 number }
{
    68 <= number && number <= 96
}
