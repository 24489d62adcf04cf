//! The primitives 1 to 9, which any receiver understands.
ghost use Rattle.std.specs.Prelude.{◌≡◌, ◌||◌, ℕ, true, not, cond, Some, None, IfOk, IfSome};
ghost use Rattle.gem_object.specs.texts.Bytes.{Bytes};
ghost use Rattle.gem_object.specs.Order.{same_value};
ghost use Rattle.gem_object.specs.declared.value.Value.TheVariants.{Ref};
ghost use Rattle.object_programs.specs.Methods.{methods_fit};
ghost use Rattle.prim_rules.specs.Parts.{is_block};
ghost use Rattle.prim_rules.specs.Any.{is_copied, same_rule, same_row, class_rule, print_string_rule, copy_rule, row_3, row_4, row_5, row_7};
ghost use Rattle.prim_classes.specs.Prints.{short, print_string_of};
ghost use Rattle.prim_parts.specs.Does.{Does, Computes};

use crate::printing::short_text;
use gem_object::{Body, Oid, Sequence, Text, Value};
use gem_sound::names::{STRING_CLASS, kernel_name};
use object_programs::Fault;
use prim_parts::{
    check, class_of_value, default_segment, new_object, new_object_in, no_arguments, one_of,
    text_of_argument, truth,
};
use prim_rules::PrimitiveAnswer;
use running_objects::{Objects, Stop};
use std::alloc::{AllocError, Global};

fn is_block(value: &Value) -> bool
    ensures { result ≡ is_block value.now }
{
    matches!(value, Value::Block(_))
}

#[tactic(auto, using(crate::proofs::Equal::same))]
fn same_value(value: &Value, other: &Value) -> bool
    ensures { result ≡ same_value value.now other.now }
{
    value == other
}

fn are_no_blocks(value: &Value, other: &Value) -> bool
    ensures { result ≡ not (is_block value.now || is_block other.now) }
{
    !is_block(value) && !is_block(other)
}

// Whether both are the same; E5 for a block on either side.
fn same(value: &Value, other: &Value) -> Result<Value, Stop>
    ensures { Computes (same_rule value.now other.now) result }
{
    check(Fault::ArgumentKind, are_no_blocks(value, other))?;
    Ok(truth(same_value(value, other)))
}

/// 1 and 2, `==` and `=`.
pub fn same_row(receiver: &Value, arguments: &[Value]) -> Result<PrimitiveAnswer, Stop>
    ensures { Computes (same_row receiver.now arguments.now) result }
{
    let argument = one_of(arguments)?;
    Ok(PrimitiveAnswer::Gives(same(receiver, argument)?))
}

// The class of a value.
fn class_of<O: Objects>(objects: &mut O, value: &Value) -> Result<Value, Stop>
    ensures { Does (class_rule value.now) (O.seen objects.old) result (O.seen objects.new) }
{
    let class = class_of_value(objects, value)?;
    Ok(Value::Ref(class))
}

/// 3, `class`.
pub fn row_3<O: Objects>(
    objects: &mut O,
    receiver: &Value,
    arguments: &[Value],
) -> Result<PrimitiveAnswer, Stop>
    ensures { Does (row_3 receiver.now arguments.now) (O.seen objects.old) result
        (O.seen objects.new) }
{
    no_arguments(arguments)?;
    Ok(PrimitiveAnswer::Gives(class_of(objects, receiver)?))
}

/// 5, `error:`.
pub fn row_5<O: Objects>(
    alloc: Global,
    objects: &mut O,
    receiver: &Value,
    arguments: &[Value],
) -> Result<PrimitiveAnswer, Stop>
    ensures { Does (row_5 receiver.now arguments.now) (O.seen objects.old) result
        (O.seen objects.new) }
{
    let argument = one_of(arguments)?;
    let text = text_of_argument(alloc, objects, argument)?;
    Err(Stop::Fails(Fault::Raised(text)))
}

// A new String of a value's print text. The text's accesses and the profile come before E17.
fn print_string<O: Objects>(alloc: Global, objects: &mut O, value: &Value) -> Result<Value, Stop>
    ensures { Does (print_string_rule value.now) (O.seen objects.old) result
        (O.seen objects.new) }
{
    let text = short_text(alloc, objects, value)?;
    string_of(alloc, objects, text)
}

// A new String of a text that isn't too long, in the user's default segment; E17 where it is.
fn string_of<O: Objects>(alloc: Global, objects: &mut O, text: Option<Text>) -> Result<Value, Stop>
    ensures { (whole : Bytes) → short whole ≡ text
        → Does (print_string_of whole) (O.seen objects.old) result (O.seen objects.new) }
{
    let segment = default_segment(objects)?;
    let Some(text) = text else {
        return Err(Stop::Fails(Fault::ObjectTooLarge));
    };
    let bytes = Sequence::of(text.bytes().to_vec(alloc)?);
    new_object_in(
        alloc,
        objects,
        segment,
        kernel_name(STRING_CLASS),
        Body::Bytes(bytes),
    )
}

/// 4, `printString`.
pub fn row_4<O: Objects>(
    alloc: Global,
    objects: &mut O,
    receiver: &Value,
    arguments: &[Value],
) -> Result<PrimitiveAnswer, Stop>
    ensures { Does (row_4 receiver.now arguments.now) (O.seen objects.old) result
        (O.seen objects.new) }
{
    no_arguments(arguments)?;
    Ok(PrimitiveAnswer::Gives(print_string(alloc, objects, receiver)?))
}

// A copy of a body; None where objects of such a body aren't copied.
fn copy_of(body: &Body) -> Result<Option<Body>, AllocError>
    ensures copy { IfOk result
        (λ made. made ≡ cond (is_copied body.now) (Some body.now) None) }
    ensures methods { IfOk result (λ made. IfSome made
        (λ copy. (name : ℕ) → methods_fit name copy ≡ true)) }
{
    Ok(match body {
        Body::Plain(slots) => Some(Body::Plain(slots.try_clone()?)),
        Body::Bytes(bytes) => Some(Body::Bytes(bytes.try_clone()?)),
        Body::Dict(pairs) => Some(Body::Dict(pairs.try_clone()?)),
        _ => None,
    })
}

// A copy of the object of this name, which is read, in the user's default segment.
fn copy_of_object<O: Objects>(alloc: Global, objects: &mut O, name: Oid) -> Result<Value, Stop>
    ensures { Does (copy_rule (Ref name)) (O.seen objects.old) result (O.seen objects.new) }
{
    objects.read(name)?;
    let Some(object) = objects.object(name) else {
        unreachable!()
    };
    let class = object.class;
    let Some(body) = copy_of(&object.body)? else {
        return Err(Stop::Fails(Fault::ArgumentKind));
    };
    new_object(alloc, objects, class, body)
}

// A copy of an object; a value answers itself, and a block is E5.
fn copy<O: Objects>(alloc: Global, objects: &mut O, value: &Value) -> Result<Value, Stop>
    ensures { Does (copy_rule value.now) (O.seen objects.old) result (O.seen objects.new) }
{
    match value {
        Value::Ref(name) => copy_of_object(alloc, objects, *name),
        Value::Block(_) => Err(Stop::Fails(Fault::ArgumentKind)),
        _ => Ok(value.clone()?),
    }
}

/// 7, `copy`.
pub fn row_7<O: Objects>(
    alloc: Global,
    objects: &mut O,
    receiver: &Value,
    arguments: &[Value],
) -> Result<PrimitiveAnswer, Stop>
    ensures { Does (row_7 receiver.now arguments.now) (O.seen objects.old) result
        (O.seen objects.new) }
{
    no_arguments(arguments)?;
    Ok(PrimitiveAnswer::Gives(copy(alloc, objects, receiver)?))
}
