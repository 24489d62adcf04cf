//! The primitives 61 to 67, of IdentityDictionaries.
ghost use Rattle.prim_rules.specs.Receivers.{answer_array};
ghost use Rattle.prim_rules.specs.Dictionaries.{row_61, row_62, row_63, row_64, row_65, row_66, row_67};
ghost use Rattle.prim_parts.specs.Does.{Does};
ghost use Rattle.prim_collections.specs.Looks.{GoesOn};
ghost use Rattle.prim_collections.specs.Puts.{pair_put};

use crate::bodies::pairs_at;
use crate::indexes::size_of;
use crate::lists::{keys_of, values_of};
use crate::pairs::{check_key, has_key, key_argument, read_dictionary, value_at, write_dictionary};
use gem_object::{Body, Oid, Value, Values};
use gem_sound::names::{ARRAY_CLASS, kernel_name};
use prim_parts::{check_stored, new_object, no_arguments, put_pair, remove_pair, truth, two_of};
use prim_rules::PrimitiveAnswer;
use running_objects::{Objects, Stop};
use std::alloc::Global;

/// 61, `at:`: the value at a key, E18 where there is none.
pub fn value_at_key<O: Objects>(
    objects: &mut O,
    receiver: &Value,
    arguments: &[Value],
) -> Result<PrimitiveAnswer, Stop>
    ensures { Does (row_61 receiver.now arguments.now) (O.seen objects.old) result
        (O.seen objects.new) }
{
    let name = read_dictionary(objects, receiver)?;
    let key = key_argument(arguments)?;
    let value = value_at(objects, name, key)?;
    Ok(PrimitiveAnswer::Gives(value))
}

/// 62, `at:put:`: the value, which comes at a key.
pub fn put_at_key<O: Objects>(
    objects: &mut O,
    receiver: &Value,
    arguments: &[Value],
) -> Result<PrimitiveAnswer, Stop>
    ensures { Does (row_62 receiver.now arguments.now) (O.seen objects.old) result
        (O.seen objects.new) }
{
    let name = write_dictionary(objects, receiver)?;
    let (key, value) = two_of(arguments)?;
    check_key(key)?;
    check_stored(value)?;
    put(objects, name, key, value)
}

// A value comes at a key of the dictionary of this name, which was written, and is the answer.
fn put<O: Objects>(
    objects: &mut O,
    name: Oid,
    key: &Value,
    value: &Value,
) -> Result<PrimitiveAnswer, Stop>
    ensures { GoesOn (pair_put name key.now value.now) name (O.seen objects.old) result
        (O.seen objects.new) }
{
    let put_key = key.clone()?;
    let put_value = value.clone()?;
    put_pair(objects, name, put_key, put_value)?;
    Ok(PrimitiveAnswer::Gives(value.clone()?))
}

/// 63, `includesKey:`.
pub fn includes_key<O: Objects>(
    objects: &mut O,
    receiver: &Value,
    arguments: &[Value],
) -> Result<PrimitiveAnswer, Stop>
    ensures { Does (row_63 receiver.now arguments.now) (O.seen objects.old) result
        (O.seen objects.new) }
{
    let name = read_dictionary(objects, receiver)?;
    let key = key_argument(arguments)?;
    Ok(PrimitiveAnswer::Gives(truth(has_key(objects, name, key))))
}

/// 64, `removeKey:`: the value that was there, E18 where there was none.
pub fn remove_key<O: Objects>(
    objects: &mut O,
    receiver: &Value,
    arguments: &[Value],
) -> Result<PrimitiveAnswer, Stop>
    ensures { Does (row_64 receiver.now arguments.now) (O.seen objects.old) result
        (O.seen objects.new) }
{
    let name = write_dictionary(objects, receiver)?;
    let key = key_argument(arguments)?;
    let value = value_at(objects, name, key)?;
    remove_pair(objects, name, key)?;
    Ok(PrimitiveAnswer::Gives(value))
}

/// 65, `size`.
pub fn pairs_size<O: Objects>(
    objects: &mut O,
    receiver: &Value,
    arguments: &[Value],
) -> Result<PrimitiveAnswer, Stop>
    ensures { Does (row_65 receiver.now arguments.now) (O.seen objects.old) result
        (O.seen objects.new) }
{
    let name = read_dictionary(objects, receiver)?;
    no_arguments(arguments)?;
    let size = pairs_at(objects, name)?.len();
    Ok(PrimitiveAnswer::Gives(size_of(size)?))
}

/// 66, `keys`: an Array, in the order of the pairs.
pub fn keys<O: Objects>(
    alloc: Global,
    objects: &mut O,
    receiver: &Value,
    arguments: &[Value],
) -> Result<PrimitiveAnswer, Stop>
    ensures { Does (row_66 receiver.now arguments.now) (O.seen objects.old) result
        (O.seen objects.new) }
{
    let name = read_dictionary(objects, receiver)?;
    no_arguments(arguments)?;
    let keys = keys_of(alloc, pairs_at(objects, name)?)?;
    new_array(alloc, objects, keys)
}

/// 67, `values`: an Array, in the order of the pairs.
pub fn values<O: Objects>(
    alloc: Global,
    objects: &mut O,
    receiver: &Value,
    arguments: &[Value],
) -> Result<PrimitiveAnswer, Stop>
    ensures { Does (row_67 receiver.now arguments.now) (O.seen objects.old) result
        (O.seen objects.new) }
{
    let name = read_dictionary(objects, receiver)?;
    no_arguments(arguments)?;
    let values = values_of(alloc, pairs_at(objects, name)?)?;
    new_array(alloc, objects, values)
}

// A new Array of these values is the answer.
fn new_array<O: Objects>(
    alloc: Global,
    objects: &mut O,
    values: Vec<Value>,
) -> Result<PrimitiveAnswer, Stop>
    ensures { Does (answer_array values.items) (O.seen objects.old) result
        (O.seen objects.new) }
{
    let body = Body::Plain(Values::of(values));
    let array = new_object(alloc, objects, kernel_name(ARRAY_CLASS), body)?;
    Ok(PrimitiveAnswer::Gives(array))
}
