//! The primitives 40 and 41, which make new Arrays and OrderedCollections.
ghost use Rattle.std.specs.Prelude.{◌≡◌, ◌++◌, drop, replicate, IfOk, OnOk};
ghost use Rattle.gem_object.specs.declared.value.Value.TheVariants.{Nil};
ghost use Rattle.object_programs.specs.Fixed.{class_part};
ghost use Rattle.prim_rules.specs.Sequences.{new_sequence, copy_part_rule, sequence_argument, join_rule, row_40, row_41};
ghost use Rattle.prim_parts.specs.Does.{Computes, Does, IsThere};
ghost use Rattle.prim_collections.specs.Joins.{HasElements, Shows, joined_rule, indexed_rule, part_rule};

use crate::indexes::part_of;
use crate::layout::{class_at, layout_of};
use gem_object::{Body, Kind, Oid, Value, Values};
use object_programs::Fault;
use prim_parts::{int_in, named_slots, new_object, one_of, reference_in, two_of};
use prim_rules::PrimitiveAnswer;
use running_objects::{Objects, Stop};
use std::alloc::{AllocError, Global};

/// 40, `copyFrom:to:`: a new object of the receiver's class with the elements from one index to
/// the other.
pub fn copy_part<O: Objects>(
    alloc: Global,
    objects: &mut O,
    receiver: &Value,
    arguments: &[Value],
) -> Result<PrimitiveAnswer, Stop>
    ensures { Does (row_40 receiver.now arguments.now) (O.seen objects.old) result
        (O.seen objects.new) }
{
    let name = reference_in(receiver)?;
    let (from, to) = two_of(arguments)?;
    Ok(PrimitiveAnswer::Gives(part_copied(alloc, objects, name, from, to)?))
}

fn part_copied<O: Objects>(
    alloc: Global,
    objects: &mut O,
    name: Oid,
    from: &Value,
    to: &Value,
) -> Result<Value, Stop>
    ensures { Does (copy_part_rule name from.now to.now) (O.seen objects.old) result
        (O.seen objects.new) }
{
    objects.read(name)?;
    let layout = layout_of(objects, name)?;
    let class = class_at(objects, name);
    let first = int_in(from)?;
    let last = int_in(to)?;
    let part = part_of(elements_at(objects, name, layout.named), first, last)?;
    let elements = copies_of(alloc, part)?;
    new_sequence(alloc, objects, class, elements)
}

/// 41, `,`: a new object of the receiver's class with the elements of both.
pub fn join_sequences<O: Objects>(
    alloc: Global,
    objects: &mut O,
    receiver: &Value,
    arguments: &[Value],
) -> Result<PrimitiveAnswer, Stop>
    ensures { Does (row_41 receiver.now arguments.now) (O.seen objects.old) result
        (O.seen objects.new) }
{
    let name = reference_in(receiver)?;
    let argument = one_of(arguments)?;
    Ok(PrimitiveAnswer::Gives(sequences_joined(alloc, objects, name, argument)?))
}

fn sequences_joined<O: Objects>(
    alloc: Global,
    objects: &mut O,
    name: Oid,
    argument: &Value,
) -> Result<Value, Stop>
    ensures { Does (join_rule name argument.now) (O.seen objects.old) result
        (O.seen objects.new) }
{
    objects.read(name)?;
    let layout = layout_of(objects, name)?;
    let class = class_at(objects, name);
    let elements = copies_of(alloc, elements_at(objects, name, layout.named))?;
    let other = sequence_argument(objects, argument)?;
    joined_with(alloc, objects, class, elements, other)
}

// These elements and those of the sequence of the other name, which is read, are the elements of a
// new object of this class, which is there.
fn joined_with<O: Objects>(
    alloc: Global,
    objects: &mut O,
    class: Oid,
    elements: Vec<Value>,
    other: Oid,
) -> Result<Value, Stop>
    requires { IsThere class (O.seen objects.old) }
    ensures { Does (joined_rule class elements.items other) (O.seen objects.old) result
        (O.seen objects.new) }
{
    objects.read(other)?;
    let layout = layout_of(objects, other)?;
    let mut more = copies_of(alloc, elements_at(objects, other, layout.named))?;
    let mut all = elements;
    all.append(&mut more)?;
    new_sequence(alloc, objects, class, all)
}

// The name of the argument; E5 where it is no instance of a class of kind Indexed.
fn sequence_argument<O: Objects>(objects: &mut O, argument: &Value) -> Result<Oid, Stop>
    ensures does { Does (sequence_argument argument.now) (O.seen objects.old) result
        (O.seen objects.new) }
    ensures same { OnOk result (Shows (O.seen objects.old) (O.seen objects.new)) }
{
    let name = reference_in(argument)?;
    objects.know(name)?;
    let Some(object) = objects.object(name) else {
        return Err(Stop::Fails(Fault::ArgumentKind));
    };
    let class = object.class;
    indexed(objects, class, name)
}

// The name of an instance of this class; E5 where it is no class of kind Indexed.
fn indexed<O: Objects>(objects: &mut O, class: Oid, name: Oid) -> Result<Oid, Stop>
    ensures does { Does (indexed_rule class name) (O.seen objects.old) result
        (O.seen objects.new) }
    ensures same { OnOk result (Shows (O.seen objects.old) (O.seen objects.new)) }
{
    objects.know(class)?;
    let Some(object) = objects.object(class) else {
        return Err(Stop::Fails(Fault::ArgumentKind));
    };
    check_indexed(&object.body, name)
}

fn check_indexed(body: &Body, name: Oid) -> Result<Oid, Stop>
    ensures { Computes (part_rule (class_part body.now) name) result }
{
    let Body::Class(class) = body else {
        return Err(Stop::Fails(Fault::ArgumentKind));
    };
    match class.kind {
        Kind::Indexed => Ok(name),
        _ => Err(Stop::Fails(Fault::ArgumentKind)),
    }
}

// The elements of the sequence of this name, so many of whose slots are named.
fn elements_at<O: Objects>(objects: &O, name: Oid, named: usize) -> &[Value]
    ensures { HasElements named name (O.seen objects.now) result.now }
{
    let Some(object) = objects.object(name) else {
        return &[];
    };
    match &object.body {
        Body::Plain(slots) => elements_after(slots.as_slice(), named),
        _ => &[],
    }
}

fn elements_after(slots: &[Value], named: usize) -> &[Value]
    ensures { result.now ≡ drop named slots.now }
{
    if slots.len() < named {
        return &[];
    }
    &slots[named..]
}

fn copies_of(alloc: Global, items: &[Value]) -> Result<Vec<Value>, AllocError>
    ensures { IfOk result (λ copies. copies.items ≡ items.now) }
{
    let mut copies = Vec::new(alloc);
    for item in items {
        copies.push(item.clone()?)?;
    }
    Ok(copies)
}

// A new object of this class, which is there, with these elements, whose named slots are nil.
fn new_sequence<O: Objects>(
    alloc: Global,
    objects: &mut O,
    class: Oid,
    elements: Vec<Value>,
) -> Result<Value, Stop>
    requires { IsThere class (O.seen objects.old) }
    ensures { Does (new_sequence class elements.items) (O.seen objects.old) result
        (O.seen objects.new) }
{
    let named = named_slots(objects, class);
    let slots = new_slots(alloc, named, elements)?;
    new_object(alloc, objects, class, Body::Plain(Values::of(slots)))
}

// So many slots that are nil, and the elements behind them.
fn new_slots(alloc: Global, named: usize, elements: Vec<Value>) -> Result<Vec<Value>, AllocError>
    ensures { IfOk result (λ slots. slots.items ≡ replicate named Nil ++ elements.items) }
{
    let mut rest = elements;
    let mut slots = vec![in alloc; Value::Nil; named]?;
    slots.append(&mut rest)?;
    Ok(slots)
}
