//! The primitive 6, `isKindOf:`.
ghost use Rattle.std.specs.Prelude.{◌≡◌, ◌||◌, nat_eq, false};
ghost use Rattle.object_programs.specs.Run.{and_then, give};
ghost use Rattle.object_programs.specs.Programs.{read, need};
ghost use Rattle.object_programs.specs.declared.fault.Fault.TheVariants as fault;
ghost use Rattle.prim_rules.specs.Parts.{class_in};
ghost use Rattle.prim_rules.specs.Any.{class_argument, reads_up, is_kind_of_rule, row_6};
ghost use Rattle.prim_classes.specs.Superclasses.{superclass_read};
ghost use Rattle.prim_parts.specs.Does.{Does};

use gem_object::{Body, Oid, Value};
use object_programs::{CHAIN_LIMIT, Fault};
use prim_parts::{class_of_value, one_of, reference_in, truth};
use prim_rules::PrimitiveAnswer;
use running_objects::{Objects, Stop};

// The name of the class that an argument is; E5 where it is none. That is told without a touch.
fn class_argument<O: Objects>(objects: &mut O, argument: &Value) -> Result<Oid, Stop>
    ensures { Does (class_argument argument.now) (O.seen objects.old) result
        (O.seen objects.new) }
{
    let name = reference_in(argument)?;
    objects.know(name)?;
    let Some(object) = objects.object(name) else {
        return Err(Stop::Fails(Fault::ArgumentKind));
    };
    let Body::Class(_) = &object.body else {
        return Err(Stop::Fails(Fault::ArgumentKind));
    };
    Ok(name)
}

// The superclass of a class, which is read; E5 where it is none.
fn superclass_read<O: Objects>(objects: &mut O, class: Oid) -> Result<Option<Oid>, Stop>
    ensures { Does (superclass_read class) (O.seen objects.old) result (O.seen objects.new) }
{
    objects.read(class)?;
    let Some(object) = objects.object(class) else {
        unreachable!()
    };
    let Body::Class(found) = &object.body else {
        return Err(Stop::Fails(Fault::ArgumentKind));
    };
    Ok(found.superclass)
}

// Whether the ancestor was found, or is this class.
fn is_found(found: bool, class: Oid, ancestor: Oid) -> bool
    ensures { result ≡ (found || nat_eq class ancestor) }
{
    found || class == ancestor
}

// Whether a class is this one or under it. At most so many classes are read, up to the last one.
fn reads_up<O: Objects>(
    objects: &mut O,
    limit: u64,
    ancestor: Oid,
    class: Oid,
) -> Result<bool, Stop>
    ensures { Does (reads_up limit ancestor false class) (O.seen objects.old) result
        (O.seen objects.new) }
{
    let mut found = false;
    let mut class = class;
    let mut left = limit;
    while left > 0 {
        let superclass = superclass_read(objects, class)?;
        found = is_found(found, class, ancestor);
        let Some(above) = superclass else {
            return Ok(found);
        };
        class = above;
        left -= 1;
    }
    Ok(found)
}

// Whether a value is an instance of a class or of one under it.
fn is_kind_of<O: Objects>(objects: &mut O, value: &Value, argument: &Value) -> Result<Value, Stop>
    ensures { Does (is_kind_of_rule value.now argument.now) (O.seen objects.old) result
        (O.seen objects.new) }
{
    let ancestor = class_argument(objects, argument)?;
    let class = class_of_value(objects, value)?;
    let found = reads_up(objects, CHAIN_LIMIT, ancestor, class)?;
    Ok(truth(found))
}

/// 6, `isKindOf:`.
pub fn row_6<O: Objects>(
    objects: &mut O,
    receiver: &Value,
    arguments: &[Value],
) -> Result<PrimitiveAnswer, Stop>
    ensures { Does (row_6 receiver.now arguments.now) (O.seen objects.old) result
        (O.seen objects.new) }
{
    let argument = one_of(arguments)?;
    Ok(PrimitiveAnswer::Gives(is_kind_of(objects, receiver, argument)?))
}
