//! The primitives 42 to 51, of Strings and Symbols.
ghost use Rattle.std.specs.Prelude.{◌≡◌, ◌++◌, ℕ, List, bytes_eq, slice_get, Ok, IfOk};
ghost use Rattle.gem_object.specs.declared.value.Value.TheVariants as value;
ghost use Rattle.object_programs.specs.Run.{and_then};
ghost use Rattle.prim_rules.specs.Parts.{truth};
ghost use Rattle.prim_rules.specs.Texts.{integer_in};
ghost use Rattle.prim_rules.specs.Strings.{is_symbol, is_before, number_or_nil, character_at_rule, character_put_rule, copy_text_rule, symbol_rule, has_bytes, equal_string, equal_rule, row_42, row_43, row_44, row_45, row_46, row_47, row_48, row_49, row_50, row_51};
ghost use Rattle.prim_parts.specs.Does.{Computes, Does};
ghost use Rattle.prim_collections.specs.Texts.{join_rule, before_rule};
ghost use Rattle.prim_collections.specs.TextsSeen.{text_seen, text_or_fault};

use crate::bodies::bytes_at;
use crate::indexes::{part_of, place_in, size_of};
use crate::integers::integer_in;
use crate::seen_texts::{
    is_string, new_string_of, read_argument, read_receiver, string_at, text_at,
};
use gem_object::{Oid, SYMBOL_LIMIT, Text, Value};
use object_programs::Fault;
use prim_parts::{
    character_in, int_in, need, no_arguments, one_of, reference_in, replace_byte, string_bytes,
    text_of_receiver, truth, two_of,
};
use prim_rules::PrimitiveAnswer;
use running_objects::{Objects, Stop};
use std::alloc::{AllocError, Global};
use std::cmp::Ordering;

/// 42, `size`.
pub fn text_size<O: Objects>(
    objects: &mut O,
    receiver: &Value,
    arguments: &[Value],
) -> Result<PrimitiveAnswer, Stop>
    ensures { Does (row_42 receiver.now arguments.now) (O.seen objects.old) result
        (O.seen objects.new) }
{
    no_arguments(arguments)?;
    read_receiver(objects, receiver)?;
    let text = text_at(objects, receiver)?;
    Ok(PrimitiveAnswer::Gives(size_of(text.len())?))
}

/// 43, `at:`: the Character at an index.
pub fn character<O: Objects>(
    objects: &mut O,
    receiver: &Value,
    arguments: &[Value],
) -> Result<PrimitiveAnswer, Stop>
    ensures { Does (row_43 receiver.now arguments.now) (O.seen objects.old) result
        (O.seen objects.new) }
{
    let index = one_of(arguments)?;
    read_receiver(objects, receiver)?;
    let text = text_at(objects, receiver)?;
    Ok(PrimitiveAnswer::Gives(character_at(text, index)?))
}

// The Character at an index of a text.
fn character_at(text: &[u8], index: &Value) -> Result<Value, Stop>
    ensures { Computes (character_at_rule text.now index.now) result }
{
    let number = int_in(index)?;
    let place = place_in(text.len(), number)?;
    let byte = need(Fault::Index, byte_at(text, place))?;
    Ok(Value::Char(byte))
}

fn byte_at(text: &[u8], place: usize) -> Option<u8>
    ensures { result ≡ slice_get text.now place }
{
    text.get(place).copied()
}

/// 44, `at:put:` of a String: the Character, which comes at an index.
pub fn put_character<O: Objects>(
    objects: &mut O,
    receiver: &Value,
    arguments: &[Value],
) -> Result<PrimitiveAnswer, Stop>
    ensures { Does (row_44 receiver.now arguments.now) (O.seen objects.old) result
        (O.seen objects.new) }
{
    let name = reference_in(receiver)?;
    let (index, value) = two_of(arguments)?;
    Ok(PrimitiveAnswer::Gives(character_put(objects, name, index, value)?))
}

fn character_put<O: Objects>(
    objects: &mut O,
    name: Oid,
    index: &Value,
    value: &Value,
) -> Result<Value, Stop>
    ensures { Does (character_put_rule name index.now value.now) (O.seen objects.old) result
        (O.seen objects.new) }
{
    objects.write(name)?;
    let size = bytes_at(objects, name)?.len();
    let number = int_in(index)?;
    let code = character_in(value)?;
    let place = place_in(size, number)?;
    replace_byte(objects, name, place, code)?;
    Ok(Value::Char(code))
}

/// 45, `,`: a new String of both texts.
pub fn join<O: Objects>(
    alloc: Global,
    objects: &mut O,
    receiver: &Value,
    arguments: &[Value],
) -> Result<PrimitiveAnswer, Stop>
    ensures { Does (row_45 receiver.now arguments.now) (O.seen objects.old) result
        (O.seen objects.new) }
{
    let argument = one_of(arguments)?;
    read_receiver(objects, receiver)?;
    text_at(objects, receiver)?;
    Ok(PrimitiveAnswer::Gives(joined(alloc, objects, receiver, argument)?))
}

// A new String of the text of the receiver, which was read, and of that of the argument.
fn joined<O: Objects>(
    alloc: Global,
    objects: &mut O,
    receiver: &Value,
    argument: &Value,
) -> Result<Value, Stop>
    ensures { (text : List ℕ)
        → Ok text ≡ text_or_fault (text_seen receiver.now (O.seen objects.old))
        → Does (join_rule text argument.now) (O.seen objects.old) result (O.seen objects.new) }
{
    read_argument(objects, argument)?;
    let first = text_at(objects, receiver)?;
    let second = text_at(objects, argument)?;
    let both = joined_bytes(alloc, first, second)?;
    new_string_of(alloc, objects, both)
}

// The first bytes and then the second ones, in a list of just their size.
fn joined_bytes(alloc: Global, first: &[u8], second: &[u8]) -> Result<Vec<u8>, AllocError>
    ensures { IfOk result (λ bytes. bytes.items ≡ first.now ++ second.now) }
{
    let mut bytes = Vec::with_capacity(alloc, first.len() + second.len())?;
    bytes.extend_from_slice(first)?;
    bytes.extend_from_slice(second)?;
    Ok(bytes)
}

/// 46, `copyFrom:to:`: a new String of the Characters from one index to the other.
pub fn copy_text<O: Objects>(
    alloc: Global,
    objects: &mut O,
    receiver: &Value,
    arguments: &[Value],
) -> Result<PrimitiveAnswer, Stop>
    ensures { Does (row_46 receiver.now arguments.now) (O.seen objects.old) result
        (O.seen objects.new) }
{
    let (from, to) = two_of(arguments)?;
    read_receiver(objects, receiver)?;
    text_at(objects, receiver)?;
    Ok(PrimitiveAnswer::Gives(part_copied(alloc, objects, receiver, from, to)?))
}

// A new String of the part of the text of the receiver, which was read.
fn part_copied<O: Objects>(
    alloc: Global,
    objects: &mut O,
    receiver: &Value,
    from: &Value,
    to: &Value,
) -> Result<Value, Stop>
    ensures { (text : List ℕ)
        → Ok text ≡ text_or_fault (text_seen receiver.now (O.seen objects.old))
        → Does (copy_text_rule text from.now to.now) (O.seen objects.old) result
        (O.seen objects.new) }
{
    let first = int_in(from)?;
    let last = int_in(to)?;
    let text = text_at(objects, receiver)?;
    let part = part_of(text, first, last)?;
    let bytes = copy_of(alloc, part)?;
    new_string_of(alloc, objects, bytes)
}

fn copy_of(alloc: Global, text: &[u8]) -> Result<Vec<u8>, AllocError>
    ensures { IfOk result (λ bytes. bytes.items ≡ text.now) }
{
    text.to_vec(alloc)
}

/// 47, `asSymbol`: E5 where the text is too long for a Symbol.
pub fn as_symbol<O: Objects>(
    alloc: Global,
    objects: &mut O,
    receiver: &Value,
    arguments: &[Value],
) -> Result<PrimitiveAnswer, Stop>
    ensures { Does (row_47 receiver.now arguments.now) (O.seen objects.old) result
        (O.seen objects.new) }
{
    no_arguments(arguments)?;
    let text = text_of_receiver(alloc, objects, receiver)?;
    Ok(PrimitiveAnswer::Gives(symbol_of(text)?))
}

fn symbol_of(text: Text) -> Result<Value, Stop>
    ensures { Computes (symbol_rule text) result }
{
    if text.bytes().len() <= SYMBOL_LIMIT {
        return Ok(Value::Sym(text));
    }
    Err(Stop::Fails(Fault::ArgumentKind))
}

/// 48, `asString`: a new String.
pub fn as_string<O: Objects>(
    alloc: Global,
    objects: &mut O,
    receiver: &Value,
    arguments: &[Value],
) -> Result<PrimitiveAnswer, Stop>
    ensures { Does (row_48 receiver.now arguments.now) (O.seen objects.old) result
        (O.seen objects.new) }
{
    no_arguments(arguments)?;
    read_receiver(objects, receiver)?;
    let bytes = copy_of(alloc, text_at(objects, receiver)?)?;
    Ok(PrimitiveAnswer::Gives(new_string_of(alloc, objects, bytes)?))
}

/// 49, `=`: for a String a String with the same bytes, for a Symbol the same Symbol.
pub fn equals<O: Objects>(
    objects: &mut O,
    receiver: &Value,
    arguments: &[Value],
) -> Result<PrimitiveAnswer, Stop>
    ensures { Does (row_49 receiver.now arguments.now) (O.seen objects.old) result
        (O.seen objects.new) }
{
    let argument = one_of(arguments)?;
    Ok(PrimitiveAnswer::Gives(is_equal(objects, receiver, argument)?))
}

fn is_equal<O: Objects>(objects: &mut O, receiver: &Value, argument: &Value) -> Result<Value, Stop>
    ensures { Does (equal_rule receiver.now argument.now) (O.seen objects.old) result
        (O.seen objects.new) }
{
    match receiver {
        Value::Sym(name) => Ok(truth(is_symbol(name, argument))),
        Value::Ref(name) => is_equal_string(objects, *name, argument),
        _ => Err(Stop::Fails(Fault::ArgumentKind)),
    }
}

// Whether a value is the Symbol of this text.
fn is_symbol(name: &Text, value: &Value) -> bool
    ensures { result ≡ is_symbol name.now value.now }
{
    match value {
        Value::Sym(other) => same_bytes(name.bytes(), other.bytes()),
        _ => false,
    }
}

fn is_equal_string<O: Objects>(objects: &mut O, name: Oid, argument: &Value) -> Result<Value, Stop>
    ensures { Does (equal_rule (value.Ref name) argument.now) (O.seen objects.old) result
        (O.seen objects.new) }
{
    objects.read(name)?;
    string_at(objects, name)?;
    let Some(other) = argument.reference() else {
        return Ok(Value::False);
    };
    is_string_of(objects, name, other)
}

// Whether the object of the other name is a String with the bytes of this one, which was read. Only
// a String is read.
fn is_string_of<O: Objects>(objects: &mut O, name: Oid, other: Oid) -> Result<Value, Stop>
    ensures { (text : List ℕ)
        → Ok text ≡ text_or_fault (text_seen (value.Ref name) (O.seen objects.old))
        → Does (equal_string text (value.Ref other)) (O.seen objects.old) result
        (O.seen objects.new) }
{
    let is_one = is_string(objects, other)?;
    if is_one {
        return has_bytes(objects, name, other);
    }
    Ok(Value::False)
}

fn has_bytes<O: Objects>(objects: &mut O, name: Oid, other: Oid) -> Result<Value, Stop>
    ensures { (text : List ℕ)
        → Ok text ≡ text_or_fault (text_seen (value.Ref name) (O.seen objects.old))
        → Does (has_bytes text other) (O.seen objects.old) result (O.seen objects.new) }
{
    objects.read(other)?;
    let first = string_at(objects, name)?;
    let second = string_at(objects, other)?;
    Ok(truth(same_bytes(first, second)))
}

fn same_bytes(first: &[u8], second: &[u8]) -> bool
    ensures { result ≡ bytes_eq first.now second.now }
{
    first == second
}

/// 50, `<`: the order by bytes.
pub fn is_before<O: Objects>(
    objects: &mut O,
    receiver: &Value,
    arguments: &[Value],
) -> Result<PrimitiveAnswer, Stop>
    ensures { Does (row_50 receiver.now arguments.now) (O.seen objects.old) result
        (O.seen objects.new) }
{
    let argument = one_of(arguments)?;
    read_receiver(objects, receiver)?;
    text_at(objects, receiver)?;
    Ok(PrimitiveAnswer::Gives(before(objects, receiver, argument)?))
}

// Whether the text of the receiver, which was read, is before that of the argument.
fn before<O: Objects>(objects: &mut O, receiver: &Value, argument: &Value) -> Result<Value, Stop>
    ensures { (text : List ℕ)
        → Ok text ≡ text_or_fault (text_seen receiver.now (O.seen objects.old))
        → Does (before_rule text argument.now) (O.seen objects.old) result
        (O.seen objects.new) }
{
    read_argument(objects, argument)?;
    let first = text_at(objects, receiver)?;
    let second = text_at(objects, argument)?;
    Ok(truth(is_less(first, second)))
}

fn is_less(first: &[u8], second: &[u8]) -> bool
    ensures { result ≡ is_before first.now second.now }
{
    match first.cmp(second) {
        Ordering::Less => true,
        _ => false,
    }
}

/// 51, `asInteger` of a String: nil where it is no integer of the language.
pub fn as_integer<O: Objects>(
    alloc: Global,
    objects: &mut O,
    receiver: &Value,
    arguments: &[Value],
) -> Result<PrimitiveAnswer, Stop>
    ensures { Does (row_51 receiver.now arguments.now) (O.seen objects.old) result
        (O.seen objects.new) }
{
    let name = reference_in(receiver)?;
    no_arguments(arguments)?;
    let text = string_bytes(alloc, objects, name)?;
    Ok(PrimitiveAnswer::Gives(number_or_nil(integer_in(text.bytes()))))
}

// A number, or nil where there is none.
fn number_or_nil(number: Option<i64>) -> Value
    ensures { result ≡ number_or_nil number }
{
    match number {
        Some(number) => Value::Int(number),
        None => Value::Nil,
    }
}
