//! The values of literals.
ghost use Rattle.std.specs.Prelude.{◌≡◌, map};
ghost use Rattle.st_tree.specs.Trees.{str, array, constants};
ghost use Rattle.st_tree.specs.Views.{constant_of};
ghost use Rattle.gem_language.specs.Literals.{has_symbols, have_symbols, constant_value, constant_values, literal_value};
ghost use Rattle.prim_parts.specs.Does.{Does};

use gem_object::{Body, SYMBOL_LIMIT, Sequence, Text, Value, Values};
use gem_sound::names::{ARRAY_CLASS, STRING_CLASS, kernel_name};
use object_programs::Fault;
use prim_parts::{check, new_object};
use running_objects::{Objects, Stop};
use st_tree::Literal;
use std::alloc::Global;

/// The value of a literal: a string and an array are new objects in the user's default segment, an
/// array's elements before it. E17 before anything is made where a symbol has more than 1,000
/// bytes; else the errors of new objects.
pub fn literal<O: Objects>(alloc: Global, objects: &mut O, literal: &Literal) -> Result<Value, Stop>
    ensures { Does (literal_value (constant_of literal.now)) (O.seen objects.old) result
        (O.seen objects.new) }
{
    check(Fault::ObjectTooLarge, has_symbols(literal))?;
    constant_value(alloc, objects, literal)
}

// Whether each symbol in a literal has at most 1,000 bytes, at any depth.
#[cycle(symbols)]
fn has_symbols(literal: &Literal) -> bool
    ensures { result ≡ has_symbols (constant_of literal.now) }
{
    match literal {
        Literal::Sym(bytes) => bytes.bytes().len() <= SYMBOL_LIMIT,
        Literal::Array(items) => have_symbols(&items.items),
        _ => true,
    }
}

#[cycle(symbols)]
fn have_symbols(items: &[Literal]) -> bool
    ensures { result ≡ have_symbols (constants (map constant_of items.now)) }
{
    for item in items {
        if !has_symbols(item) {
            return false;
        }
    }
    true
}

#[cycle(values)]
fn constant_value<O: Objects>(
    alloc: Global,
    objects: &mut O,
    literal: &Literal,
) -> Result<Value, Stop>
    ensures { Does (constant_value (constant_of literal.now)) (O.seen objects.old) result
        (O.seen objects.new) }
{
    match literal {
        Literal::Int(number) => Ok(Value::Int(*number)),
        Literal::Char(code) => Ok(Value::Char(*code)),
        Literal::Str(bytes) => string_value(alloc, objects, bytes),
        Literal::Sym(bytes) => Ok(Value::Sym(bytes.clone()?)),
        Literal::Nil => Ok(Value::Nil),
        Literal::True => Ok(Value::True),
        Literal::False => Ok(Value::False),
        Literal::Array(items) => array_value(alloc, objects, &items.items),
    }
}

// A new String of these bytes.
fn string_value<O: Objects>(alloc: Global, objects: &mut O, text: &Text) -> Result<Value, Stop>
    ensures { Does (constant_value (str text.now)) (O.seen objects.old) result
        (O.seen objects.new) }
{
    let bytes = Sequence::of(text.bytes().to_vec(alloc)?);
    new_object(
        alloc,
        objects,
        kernel_name(STRING_CLASS),
        Body::Bytes(bytes),
    )
}

// A new Array of these elements, which are made before it.
#[cycle(values)]
fn array_value<O: Objects>(alloc: Global, objects: &mut O, items: &[Literal]) -> Result<Value, Stop>
    ensures { Does (constant_value (array (constants (map constant_of items.now))))
        (O.seen objects.old) result (O.seen objects.new) }
{
    let values = constant_values(alloc, objects, items)?;
    new_object(
        alloc,
        objects,
        kernel_name(ARRAY_CLASS),
        Body::Plain(values),
    )
}

#[cycle(values)]
fn constant_values<O: Objects>(
    alloc: Global,
    objects: &mut O,
    items: &[Literal],
) -> Result<Values, Stop>
    ensures { Does (constant_values (constants (map constant_of items.now))) (O.seen objects.old)
        result (O.seen objects.new) }
{
    let mut values = Vec::with_capacity(alloc, items.len())?;
    for item in items {
        let value = constant_value(alloc, objects, item)?;
        values.push(value)?;
    }
    Ok(Sequence::of(values))
}
