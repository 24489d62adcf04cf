//! The texts of receivers and arguments that are Strings or Symbols.
ghost use Rattle.prim_rules.specs.Texts.{string_bytes, text_of_receiver, text_of_argument};
ghost use Rattle.object_programs.specs.Programs.{need};
ghost use Rattle.object_programs.specs.declared.fault.Fault.TheVariants as fault;
ghost use Rattle.gem_object.specs.declared.value.Value.TheVariants as value;
ghost use Rattle.prim_rules.specs.Parts.{bytes_in};
ghost use Rattle.prim_parts.specs.Does.{Does, Computes};

use crate::kinds::check_kind;
use gem_object::{Body, Oid, Text, Value};
use gem_sound::names::{STRING_CLASS, kernel_name};
use object_programs::Fault;
use running_objects::{Objects, Stop};
use std::alloc::Global;

/// The bytes of the String of this name, which is read: E10 where the user may not, E5 where it is
/// no String.
pub fn string_bytes<O: Objects>(alloc: Global, objects: &mut O, name: Oid) -> Result<Text, Stop>
    ensures { Does (string_bytes name) (O.seen objects.old) result (O.seen objects.new) }
{
    objects.read(name)?;
    let Some(object) = objects.object(name) else {
        unreachable!()
    };
    bytes_in(alloc, &object.body)
}

// A copy of the bytes that a body holds; E5 where it is of another kind.
fn bytes_in(alloc: Global, body: &Body) -> Result<Text, Stop>
    ensures { Computes (need fault.ArgumentKind (bytes_in body.now)) result }
{
    match body {
        Body::Bytes(bytes) => Ok(Text::copy_of(alloc, bytes.as_slice())?),
        _ => Err(Stop::Fails(Fault::ArgumentKind)),
    }
}

/// The text of a receiver that is a String, which is read, or a Symbol; E5 where it is neither.
pub fn text_of_receiver<O: Objects>(
    alloc: Global,
    objects: &mut O,
    receiver: &Value,
) -> Result<Text, Stop>
    ensures { Does (text_of_receiver receiver.now) (O.seen objects.old) result
        (O.seen objects.new) }
{
    match receiver {
        Value::Sym(name) => Ok(name.clone()?),
        Value::Ref(name) => string_bytes(alloc, objects, *name),
        _ => Err(Stop::Fails(Fault::ArgumentKind)),
    }
}

/// The text of an argument that is a String or a Symbol, else E5. That is told without a touch,
/// before a String is read.
pub fn text_of_argument<O: Objects>(
    alloc: Global,
    objects: &mut O,
    argument: &Value,
) -> Result<Text, Stop>
    ensures { Does (text_of_argument argument.now) (O.seen objects.old) result
        (O.seen objects.new) }
{
    match argument {
        Value::Sym(name) => Ok(name.clone()?),
        Value::Ref(name) => string_argument(alloc, objects, *name),
        _ => Err(Stop::Fails(Fault::ArgumentKind)),
    }
}

// The text of an argument that refers to this name.
fn string_argument<O: Objects>(alloc: Global, objects: &mut O, name: Oid) -> Result<Text, Stop>
    ensures { Does (text_of_argument (value.Ref name)) (O.seen objects.old) result
        (O.seen objects.new) }
{
    check_kind(objects, &Value::Ref(name), kernel_name(STRING_CLASS))?;
    string_bytes(alloc, objects, name)
}
