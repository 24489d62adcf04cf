//! Instance variables.
ghost use Rattle.std.specs.Prelude.{◌≡◌, ◌≤◌, ◌^◌, ◌*◌, Some, IfSome, length, option_copied};
ghost use Rattle.gem_object.specs.Edits.{plain_slots, slot_at};
ghost use Rattle.gem_sound.specs.gem_image.Image.{Contents};
ghost use Rattle.object_programs.specs.Run.{give, and_then};
ghost use Rattle.object_programs.specs.Programs.{need};
ghost use Rattle.object_programs.specs.declared.fault.Fault.TheVariants as fault;
ghost use Rattle.running_objects.specs.Seen.{object_at};
ghost use Rattle.gem_language.specs.tree_meaning.Names.{index_of};
ghost use Rattle.gem_language.specs.OutOfScope.{instance_names, instance_value, set_instance_value, put_in_slot};
ghost use Rattle.st_outside.specs.Names.{first_in};
ghost use Rattle.prim_parts.specs.Does.{Does, Computes};

use crate::classes::{CHAIN_STEPS, class_at};
use gem_object::{Body, Oid, Text, Value};
use object_programs::Fault;
use prim_parts::{check, check_stored, reference_in, replace_slot};
use running_objects::{Objects, Stop};

/// Where a name stands first among those of the instance variables of a class, the inherited ones
/// first; None where no variable has this name. The classes from this one up are read: E10 where
/// the user may not. It takes no memory.
pub fn variable_index<O: Objects>(
    objects: &mut O,
    class: Oid,
    name: &Text,
) -> Result<Option<usize>, Stop>
    ensures { Does (and_then (instance_names class) (λ names. give (index_of name.now names)))
        (O.seen objects.old) result (O.seen objects.new) }
{
    let mut class = class;
    let mut found = None;
    let mut limit = CHAIN_STEPS;
    while limit > 0 {
        objects.read(class)?;
        objects.sound();
        let Some(body) = class_at(objects, class) else {
            return Ok(found);
        };
        found = first_in(name, body.names.as_slice(), found);
        let Some(superclass) = body.superclass else {
            return Ok(found);
        };
        class = superclass;
        limit -= 1;
    }
    Err(Stop::Fails(Fault::ArgumentKind))
}

// Where a name stands first among these, or else among those after them, where it stands here.
fn first_in(name: &Text, names: &[Text], after: Option<usize>) -> Option<usize>
    requires few { length names.now ≤ 200 }
    requires bound { IfSome after (λ index. index ≤ 2 ^ 63) }
    ensures { result ≡ first_in name.now names.now after }
{
    if let Some(index) = index_of(name, names) {
        return Some(index);
    }
    let index = after?;
    Some(names.len() + index)
}

// Where a name stands first among these.
fn index_of(name: &Text, names: &[Text]) -> Option<usize>
    ensures { result ≡ index_of name.now names.now }
{
    let mut index = 0;
    while index < names.len() {
        if name.bytes() == names[index].bytes() {
            return Some(index);
        }
        index += 1;
    }
    None
}

/// The value in a slot of the receiver, which is read.
#[tactic(auto, using(crate::proofs::Steps::steps))]
pub(crate) fn instance_value<O: Objects>(
    objects: &mut O,
    receiver: &Value,
    slot: usize,
) -> Result<Value, Stop>
    ensures { Does (instance_value receiver.now slot) (O.seen objects.old) result
        (O.seen objects.new) }
{
    let name = reference_in(receiver)?;
    objects.read(name)?;
    let Some(object) = objects.object(name) else {
        unreachable!()
    };
    slot_value(&object.body, slot)
}

// A copy of what a slot holds.
#[tactic(auto, using(crate::proofs::Steps::steps))]
fn slot_value(body: &Body, slot: usize) -> Result<Value, Stop>
    ensures { Computes (need fault.Index (slot_at slot body.now)) result }
{
    match slot_at(body, slot) {
        Some(value) => Ok(value.clone()?),
        None => Err(Stop::Fails(Fault::Index)),
    }
}

fn slot_at(body: &Body, slot: usize) -> Option<&Value>
    ensures { option_copied result ≡ slot_at slot body.now }
{
    match body {
        Body::Plain(values) => values.as_slice().get(slot),
        _ => None,
    }
}

/// A value comes into a slot of the receiver, which is written.
#[tactic(auto, using(crate::proofs::Steps::steps))]
pub(crate) fn set_instance_value<O: Objects>(
    objects: &mut O,
    receiver: &Value,
    slot: usize,
    value: Value,
) -> Result<Value, Stop>
    ensures { Does (set_instance_value receiver.now slot value) (O.seen objects.old) result
        (O.seen objects.new) }
{
    let name = reference_in(receiver)?;
    objects.write(name)?;
    put_in_slot(objects, name, slot, value)
}

// The same, where the object of this name was written.
#[tactic(auto, using(crate::proofs::Steps::steps))]
fn put_in_slot<O: Objects>(
    objects: &mut O,
    name: Oid,
    slot: usize,
    value: Value,
) -> Result<Value, Stop>
    ensures { (object : Contents) → object_at name (O.seen objects.old) ≡ Some object
        → Does (put_in_slot name object slot value) (O.seen objects.old) result
        (O.seen objects.new) }
{
    check_stored(&value)?;
    check(Fault::Index, slot < slots_of(objects, name))?;
    let answer = value.clone()?;
    replace_slot(objects, name, slot, value)?;
    Ok(answer)
}

// How many slots the Plain object of this name has; 0 where there is none.
fn slots_of<O: Objects>(objects: &O, name: Oid) -> usize
    ensures { (object : Contents) → object_at name (O.seen objects.now) ≡ Some object
        → result ≡ plain_slots object.body }
{
    match objects.object(name) {
        Some(object) => object.body.plain_slots(),
        None => 0,
    }
}
