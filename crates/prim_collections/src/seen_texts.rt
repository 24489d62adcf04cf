//! Texts of Strings and Symbols, which are read first, and then looked at where they lie.
ghost use Rattle.std.specs.Prelude.{◌≡◌, option_copied, option_and_then, OnOk};
ghost use Rattle.gem_object.specs.declared.value.Value.TheVariants as value;
ghost use Rattle.prim_rules.specs.Parts.{bytes_in, is_kind_of};
ghost use Rattle.prim_rules.specs.Texts.{text_of_receiver, text_of_argument, new_string};
ghost use Rattle.prim_parts.specs.Does.{Does, pointed};
ghost use Rattle.running_objects.specs.Seen.{object_at};
ghost use Rattle.prim_collections.specs.Joins.{Shows};
ghost use Rattle.prim_collections.specs.TextsSeen.{text_seen, text_or_fault, Reads};

use gem_object::{Body, Oid, Sequence, Value};
use gem_sound::names::{STRING_CLASS, kernel_name};
use object_programs::Fault;
use prim_parts::{check, is_under, new_object};
use running_objects::{Objects, Stop};
use std::alloc::Global;

/// Reads a receiver that refers to an object: E10 where the user may not. Whether it has a text is
/// then seen.
pub fn read_receiver<O: Objects>(objects: &mut O, receiver: &Value) -> Result<(), Stop>
    ensures { Reads (text_of_receiver receiver.now) receiver.now (O.seen objects.old) result
        (O.seen objects.new) }
{
    let Some(name) = receiver.reference() else {
        return Ok(());
    };
    objects.read(name)
}

/// Reads an argument that refers to a String, and E5 where it refers to another object: that is told
/// without a touch. Whether any other argument has a text is then seen.
pub fn read_argument<O: Objects>(objects: &mut O, argument: &Value) -> Result<(), Stop>
    ensures { Reads (text_of_argument argument.now) argument.now (O.seen objects.old) result
        (O.seen objects.new) }
{
    let Some(name) = argument.reference() else {
        return Ok(());
    };
    let is_one = is_string(objects, name)?;
    check(Fault::ArgumentKind, is_one)?;
    objects.read(name)
}

/// Whether the object of this name is a String; E5 where there is none. Nothing is touched but a name
/// without an object.
pub fn is_string<O: Objects>(objects: &mut O, name: Oid) -> Result<bool, Stop>
    ensures does { Does (is_kind_of (value.Ref name) STRING_CLASS) (O.seen objects.old) result
        (O.seen objects.new) }
    ensures same { OnOk result (Shows (O.seen objects.old) (O.seen objects.new)) }
{
    objects.know(name)?;
    objects.sound();
    let Some(object) = objects.object(name) else {
        return Err(Stop::Fails(Fault::ArgumentKind));
    };
    let class = object.class;
    Ok(is_under(objects, class, kernel_name(STRING_CLASS)))
}

/// The text of a value that is a Symbol or refers to an object with bytes, as it is now; E5 where it
/// is neither. It takes no memory, and touches nothing.
pub fn text_at<'a, O: Objects>(objects: &'a O, value: &'a Value) -> Result<&'a [u8], Stop>
    ensures { pointed result ≡ text_or_fault (text_seen value.now (O.seen objects.now)) }
{
    match value {
        Value::Sym(name) => Ok(name.bytes()),
        Value::Ref(name) => string_at(objects, *name),
        _ => Err(Stop::Fails(Fault::ArgumentKind)),
    }
}

/// The same of the object of this name.
pub fn string_at<O: Objects>(objects: &O, name: Oid) -> Result<&[u8], Stop>
    ensures { pointed result
        ≡ text_or_fault (text_seen (value.Ref name) (O.seen objects.now)) }
{
    match bytes_seen(objects, name) {
        Some(bytes) => Ok(bytes),
        None => Err(Stop::Fails(Fault::ArgumentKind)),
    }
}

fn bytes_seen<O: Objects>(objects: &O, name: Oid) -> Option<&[u8]>
    ensures { option_copied result ≡ option_and_then (λ object. bytes_in object.body)
        (object_at name (O.seen objects.now)) }
{
    match &objects.object(name)?.body {
        Body::Bytes(bytes) => Some(bytes.as_slice()),
        _ => None,
    }
}

/// A new String with these bytes in the user's default segment. It keeps the vector.
pub fn new_string_of<O: Objects>(
    alloc: Global,
    objects: &mut O,
    bytes: Vec<u8>,
) -> Result<Value, Stop>
    ensures { Does (new_string bytes.items) (O.seen objects.old) result (O.seen objects.new) }
{
    let body = Body::Bytes(Sequence::of(bytes));
    new_object(alloc, objects, kernel_name(STRING_CLASS), body)
}
