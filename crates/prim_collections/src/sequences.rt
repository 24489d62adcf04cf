//! The primitives 33 to 39, which look at Arrays and OrderedCollections or change them in place.
ghost use Rattle.std.specs.Prelude.{◌≡◌, ◌++◌, ◌∷◌, [], option_copied};
ghost use Rattle.gem_object.specs.Edits.{slot_at};
ghost use Rattle.prim_rules.specs.Sequences.{size_rule, at_rule, at_put_rule, add_rule, remove_rule, without_first, without_last, row_33, row_34, row_35, row_36, row_37, row_38, row_39};
ghost use Rattle.prim_parts.specs.Does.{Does, IsThere};
ghost use Rattle.prim_collections.specs.Looks.{Looks, GoesOn};
ghost use Rattle.prim_collections.specs.Slots.{slot_rule, slot_put, slot_added, slot_taken};

use crate::indexes::{place_in, size_of};
use crate::layout::layout_of;
use gem_object::{Body, Oid, Value};
use object_programs::Fault;
use prim_parts::{
    check_stored, insert_slot, int_in, no_arguments, one_of, reference_in, remove_slot,
    replace_slot, two_of,
};
use prim_rules::PrimitiveAnswer;
use running_objects::{Objects, Stop};

/// 33, `size`.
pub fn size<O: Objects>(
    objects: &mut O,
    receiver: &Value,
    arguments: &[Value],
) -> Result<PrimitiveAnswer, Stop>
    ensures { Does (row_33 receiver.now arguments.now) (O.seen objects.old) result
        (O.seen objects.new) }
{
    let name = reference_in(receiver)?;
    no_arguments(arguments)?;
    Ok(PrimitiveAnswer::Gives(element_count(objects, name)?))
}

fn element_count<O: Objects>(objects: &mut O, name: Oid) -> Result<Value, Stop>
    ensures { Does (size_rule name) (O.seen objects.old) result (O.seen objects.new) }
{
    objects.read(name)?;
    let layout = layout_of(objects, name)?;
    Ok(size_of(layout.size())?)
}

/// 34, `at:`: the element at an index.
pub fn element<O: Objects>(
    objects: &mut O,
    receiver: &Value,
    arguments: &[Value],
) -> Result<PrimitiveAnswer, Stop>
    ensures { Does (row_34 receiver.now arguments.now) (O.seen objects.old) result
        (O.seen objects.new) }
{
    let name = reference_in(receiver)?;
    let index = one_of(arguments)?;
    Ok(PrimitiveAnswer::Gives(element_at(objects, name, index)?))
}

fn element_at<O: Objects>(objects: &mut O, name: Oid, index: &Value) -> Result<Value, Stop>
    ensures { Does (at_rule name index.now) (O.seen objects.old) result (O.seen objects.new) }
{
    objects.read(name)?;
    let layout = layout_of(objects, name)?;
    let number = int_in(index)?;
    let place = place_in(layout.size(), number)?;
    slot_at(objects, name, layout.named + place)
}

// What the slot at a place of the object of this name holds; E4 where there is no such slot.
fn slot_at<O: Objects>(objects: &O, name: Oid, at: usize) -> Result<Value, Stop>
    requires { IsThere name (O.seen objects.now) }
    ensures { Looks (slot_rule at) name (O.seen objects.now) result }
{
    let Some(object) = objects.object(name) else {
        unreachable!()
    };
    match slot_of(&object.body, at) {
        Some(value) => Ok(value.clone()?),
        None => Err(Stop::Fails(Fault::Index)),
    }
}

fn slot_of(body: &Body, at: usize) -> Option<&Value>
    ensures { option_copied result ≡ slot_at at body.now }
{
    match body {
        Body::Plain(slots) => slots.as_slice().get(at),
        _ => None,
    }
}

/// 35, `at:put:`: the value, which comes at an index.
pub fn put_element<O: Objects>(
    objects: &mut O,
    receiver: &Value,
    arguments: &[Value],
) -> Result<PrimitiveAnswer, Stop>
    ensures { Does (row_35 receiver.now arguments.now) (O.seen objects.old) result
        (O.seen objects.new) }
{
    let name = reference_in(receiver)?;
    let (index, value) = two_of(arguments)?;
    Ok(PrimitiveAnswer::Gives(element_put(objects, name, index, value)?))
}

fn element_put<O: Objects>(
    objects: &mut O,
    name: Oid,
    index: &Value,
    value: &Value,
) -> Result<Value, Stop>
    ensures { Does (at_put_rule name index.now value.now) (O.seen objects.old) result
        (O.seen objects.new) }
{
    objects.write(name)?;
    let layout = layout_of(objects, name)?;
    let number = int_in(index)?;
    check_stored(value)?;
    let place = place_in(layout.size(), number)?;
    put_slot(objects, name, layout.named + place, value)
}

// A value comes into the slot at a place of the object of this name, which was written, and is the
// answer.
fn put_slot<O: Objects>(objects: &mut O, name: Oid, at: usize, value: &Value) -> Result<Value, Stop>
    ensures { GoesOn (slot_put at name value.now) name (O.seen objects.old) result
        (O.seen objects.new) }
{
    let copy = value.clone()?;
    replace_slot(objects, name, at, copy)?;
    Ok(value.clone()?)
}

/// 36, `add:`: the value, which comes behind the others.
pub fn add_last<O: Objects>(
    objects: &mut O,
    receiver: &Value,
    arguments: &[Value],
) -> Result<PrimitiveAnswer, Stop>
    ensures { Does (row_36 receiver.now arguments.now) (O.seen objects.old) result
        (O.seen objects.new) }
{
    let name = reference_in(receiver)?;
    let value = one_of(arguments)?;
    Ok(PrimitiveAnswer::Gives(last_added(objects, name, value)?))
}

fn last_added<O: Objects>(objects: &mut O, name: Oid, value: &Value) -> Result<Value, Stop>
    ensures { Does (add_rule (λ elements value. elements ++ value ∷ []) name value.now)
        (O.seen objects.old) result (O.seen objects.new) }
{
    objects.write(name)?;
    let layout = layout_of(objects, name)?;
    check_stored(value)?;
    add_slot(objects, name, layout.slots, value)
}

// A slot with a value comes at a place of the object of this name, which was written; the value is
// the answer.
fn add_slot<O: Objects>(objects: &mut O, name: Oid, at: usize, value: &Value) -> Result<Value, Stop>
    ensures { GoesOn (slot_added at name value.now) name (O.seen objects.old) result
        (O.seen objects.new) }
{
    let copy = value.clone()?;
    insert_slot(objects, name, at, copy)?;
    Ok(value.clone()?)
}

/// 37, `addFirst:`: the value, which comes before the others.
pub fn add_first<O: Objects>(
    objects: &mut O,
    receiver: &Value,
    arguments: &[Value],
) -> Result<PrimitiveAnswer, Stop>
    ensures { Does (row_37 receiver.now arguments.now) (O.seen objects.old) result
        (O.seen objects.new) }
{
    let name = reference_in(receiver)?;
    let value = one_of(arguments)?;
    Ok(PrimitiveAnswer::Gives(first_added(objects, name, value)?))
}

fn first_added<O: Objects>(objects: &mut O, name: Oid, value: &Value) -> Result<Value, Stop>
    ensures { Does (add_rule (λ elements value. value ∷ elements) name value.now)
        (O.seen objects.old) result (O.seen objects.new) }
{
    objects.write(name)?;
    let layout = layout_of(objects, name)?;
    check_stored(value)?;
    add_slot(objects, name, layout.named, value)
}

/// 38, `removeFirst`: the first element, which is taken away; E4 where there is none.
pub fn remove_first<O: Objects>(
    objects: &mut O,
    receiver: &Value,
    arguments: &[Value],
) -> Result<PrimitiveAnswer, Stop>
    ensures { Does (row_38 receiver.now arguments.now) (O.seen objects.old) result
        (O.seen objects.new) }
{
    let name = reference_in(receiver)?;
    no_arguments(arguments)?;
    Ok(PrimitiveAnswer::Gives(first_removed(objects, name)?))
}

fn first_removed<O: Objects>(objects: &mut O, name: Oid) -> Result<Value, Stop>
    ensures { Does (remove_rule without_first name) (O.seen objects.old) result
        (O.seen objects.new) }
{
    objects.write(name)?;
    let layout = layout_of(objects, name)?;
    take_slot(objects, name, layout.named)
}

/// 39, `removeLast`: the last element, which is taken away; E4 where there is none.
pub fn remove_last<O: Objects>(
    objects: &mut O,
    receiver: &Value,
    arguments: &[Value],
) -> Result<PrimitiveAnswer, Stop>
    ensures { Does (row_39 receiver.now arguments.now) (O.seen objects.old) result
        (O.seen objects.new) }
{
    let name = reference_in(receiver)?;
    no_arguments(arguments)?;
    Ok(PrimitiveAnswer::Gives(last_removed(objects, name)?))
}

fn last_removed<O: Objects>(objects: &mut O, name: Oid) -> Result<Value, Stop>
    ensures { Does (remove_rule without_last name) (O.seen objects.old) result
        (O.seen objects.new) }
{
    objects.write(name)?;
    let layout = layout_of(objects, name)?;
    take_slot(objects, name, layout.last())
}

// The slot at a place of the object of this name, which was written, goes away; what it held is
// the answer.
fn take_slot<O: Objects>(objects: &mut O, name: Oid, at: usize) -> Result<Value, Stop>
    requires { IsThere name (O.seen objects.old) }
    ensures { GoesOn (slot_taken at name) name (O.seen objects.old) result (O.seen objects.new) }
{
    let value = slot_at(objects, name, at)?;
    remove_slot(objects, name, at)?;
    Ok(value)
}
