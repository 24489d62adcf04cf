//! The primitives by their numbers.
ghost use Rattle.std.specs.Prelude.{◌≤◌, ◌⊎◌};
ghost use Rattle.prim_rules.specs.Rules.{rule_of};
ghost use Rattle.prim_parts.specs.Does.{Does};

use crate::copies::{copy_part, join_sequences};
use crate::dictionaries::{
    includes_key, keys, pairs_size, put_at_key, remove_key, value_at_key, values,
};
use crate::sequences::{
    add_first, add_last, element, put_element, remove_first, remove_last, size,
};
use crate::strings::{
    as_integer, as_string, as_symbol, character, copy_text, equals, is_before, join, put_character,
    text_size,
};
use gem_object::Value;
use prim_rules::PrimitiveAnswer;
use running_objects::{Objects, Stop};
use std::alloc::Global;

/// Does what the primitive of this number does, from 33 to 51 or from 61 to 67, for a receiver and
/// arguments, the first one first. A change of one place takes constant time, but for elements
/// that move up or down and pairs that come after a removed one.
pub fn call<O: Objects>(
    alloc: Global,
    objects: &mut O,
    number: u8,
    receiver: &Value,
    arguments: &[Value],
) -> Result<PrimitiveAnswer, Stop>
    requires { ((33 ≤ number) × (number ≤ 51)) ⊎ ((61 ≤ number) × (number ≤ 67)) }
    ensures { Does (rule_of number receiver.now arguments.now) (O.seen objects.old) result
        (O.seen objects.new) }
{
    if number <= 41 {
        return call_sequence(alloc, objects, number, receiver, arguments);
    }
    if number <= 51 {
        return call_text(alloc, objects, number, receiver, arguments);
    }
    call_dictionary(alloc, objects, number, receiver, arguments)
}

// Those of Arrays and OrderedCollections.
fn call_sequence<O: Objects>(
    alloc: Global,
    objects: &mut O,
    number: u8,
    receiver: &Value,
    arguments: &[Value],
) -> Result<PrimitiveAnswer, Stop>
    requires least { 33 ≤ number }
    requires most { number ≤ 41 }
    ensures { Does (rule_of number receiver.now arguments.now) (O.seen objects.old) result
        (O.seen objects.new) }
{
    match number {
        33 => size(objects, receiver, arguments),
        34 => element(objects, receiver, arguments),
        35 => put_element(objects, receiver, arguments),
        36 => add_last(objects, receiver, arguments),
        37 => add_first(objects, receiver, arguments),
        38 => remove_first(objects, receiver, arguments),
        39 => remove_last(objects, receiver, arguments),
        40 => copy_part(alloc, objects, receiver, arguments),
        41 => join_sequences(alloc, objects, receiver, arguments),
        _ => unreachable!(),
    }
}

// Those of Strings and Symbols.
fn call_text<O: Objects>(
    alloc: Global,
    objects: &mut O,
    number: u8,
    receiver: &Value,
    arguments: &[Value],
) -> Result<PrimitiveAnswer, Stop>
    requires least { 42 ≤ number }
    requires most { number ≤ 51 }
    ensures { Does (rule_of number receiver.now arguments.now) (O.seen objects.old) result
        (O.seen objects.new) }
{
    match number {
        42 => text_size(objects, receiver, arguments),
        43 => character(objects, receiver, arguments),
        44 => put_character(objects, receiver, arguments),
        45 => join(alloc, objects, receiver, arguments),
        46 => copy_text(alloc, objects, receiver, arguments),
        47 => as_symbol(alloc, objects, receiver, arguments),
        48 => as_string(alloc, objects, receiver, arguments),
        49 => equals(objects, receiver, arguments),
        50 => is_before(objects, receiver, arguments),
        51 => as_integer(alloc, objects, receiver, arguments),
        _ => unreachable!(),
    }
}

// Those of IdentityDictionaries.
fn call_dictionary<O: Objects>(
    alloc: Global,
    objects: &mut O,
    number: u8,
    receiver: &Value,
    arguments: &[Value],
) -> Result<PrimitiveAnswer, Stop>
    requires least { 61 ≤ number }
    requires most { number ≤ 67 }
    ensures { Does (rule_of number receiver.now arguments.now) (O.seen objects.old) result
        (O.seen objects.new) }
{
    match number {
        61 => value_at_key(objects, receiver, arguments),
        62 => put_at_key(objects, receiver, arguments),
        63 => includes_key(objects, receiver, arguments),
        64 => remove_key(objects, receiver, arguments),
        65 => pairs_size(objects, receiver, arguments),
        66 => keys(alloc, objects, receiver, arguments),
        67 => values(alloc, objects, receiver, arguments),
        _ => unreachable!(),
    }
}
