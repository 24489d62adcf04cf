//! What the primitives of dictionaries share.
ghost use Rattle.std.specs.Prelude.{is_some};
ghost use Rattle.gem_object.specs.Edits.{value_at};
ghost use Rattle.object_programs.specs.Programs.{need};
ghost use Rattle.object_programs.specs.declared.fault.Fault.TheVariants as fault;
ghost use Rattle.prim_rules.specs.Parts.{pairs_in};
ghost use Rattle.prim_rules.specs.Receivers.{read_receiver, write_receiver};
ghost use Rattle.prim_rules.specs.Dictionaries.{check_key, key_argument};
ghost use Rattle.prim_parts.specs.Does.{Computes, IsThere, pointed};
ghost use Rattle.prim_collections.specs.Looks.{Looks, SaysOf};
ghost use Rattle.prim_parts.specs.Reached.{Receives};

use crate::bodies::pairs_at;
use gem_object::{Oid, Value};
use object_programs::Fault;
use prim_parts::{one_of, reference_in};
use running_objects::{Objects, Stop};

/// E5 where a key is nil, E12 where it is a block.
pub fn check_key(key: &Value) -> Result<(), Stop>
    ensures { Computes (check_key key.now) result }
{
    match key {
        Value::Nil => Err(Stop::Fails(Fault::ArgumentKind)),
        Value::Block(_) => Err(Stop::Fails(Fault::BlockStored)),
        _ => Ok(()),
    }
}

/// The one argument, which is a key.
pub fn key_argument(arguments: &[Value]) -> Result<&Value, Stop>
    ensures { Computes (key_argument arguments.now) (pointed result) }
{
    let key = one_of(arguments)?;
    check_key(key)?;
    Ok(key)
}

/// The name of a dictionary, which is read.
pub fn read_dictionary<O: Objects>(objects: &mut O, receiver: &Value) -> Result<Oid, Stop>
    ensures { Receives pairs_in (read_receiver pairs_in receiver.now) (O.seen objects.old) result
        (O.seen objects.new) }
{
    let name = reference_in(receiver)?;
    objects.read(name)?;
    pairs_at(objects, name)?;
    Ok(name)
}

/// The name of a dictionary, which is written.
pub fn write_dictionary<O: Objects>(objects: &mut O, receiver: &Value) -> Result<Oid, Stop>
    ensures { Receives pairs_in (write_receiver pairs_in receiver.now) (O.seen objects.old)
        result (O.seen objects.new) }
{
    let name = reference_in(receiver)?;
    objects.write(name)?;
    pairs_at(objects, name)?;
    Ok(name)
}

/// The value at a key of the dictionary of this name, which was read or written; E18 where there
/// is none. The time doesn't depend on the number of pairs.
pub fn value_at<O: Objects>(objects: &O, name: Oid, key: &Value) -> Result<Value, Stop>
    requires { IsThere name (O.seen objects.now) }
    ensures { Looks (λ object. need fault.KeyAbsent (value_at key.now object.body)) name
        (O.seen objects.now) result }
{
    let Some(object) = objects.object(name) else {
        unreachable!()
    };
    match object.body.value_at(key) {
        Some(value) => Ok(value.clone()?),
        None => Err(Stop::Fails(Fault::KeyAbsent)),
    }
}

/// Whether the dictionary of this name has a value at a key. The time doesn't depend on the number
/// of pairs.
pub fn has_key<O: Objects>(objects: &O, name: Oid, key: &Value) -> bool
    requires { IsThere name (O.seen objects.now) }
    ensures { SaysOf (λ object. is_some (value_at key.now object.body)) name (O.seen objects.now)
        result }
{
    let Some(object) = objects.object(name) else {
        unreachable!()
    };
    object.body.value_at(key).is_some()
}
