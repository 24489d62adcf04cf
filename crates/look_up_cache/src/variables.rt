//! What is remembered of instance variables: in which slot each stands, by the class whose method
//! names it. Classes keep their names and superclasses, so it lasts as long as these can be read.
ghost use Rattle.std.specs.Prelude.{◌≡◌, Some, IfSome, not, nat_lt, option_copied};
ghost use Rattle.gem_object.specs.Edits.{plain_slots, slot_at};
ghost use Rattle.running_objects.specs.Seen.{Seen};
ghost use Rattle.gem_language.specs.prim_rules.Parts.{is_block};
ghost use Rattle.gem_language.specs.OutOfScope.{read_out_of_scope};
ghost use Rattle.prim_parts.specs.Does.{IsThere};
ghost use Rattle.look_up_cache.specs.Table.{AllHeld};
ghost use Rattle.look_up_cache.specs.Variables.{Stands, bare_frame, HasVariable, SlotIsLeft};
ghost use Rattle.look_up_cache.specs.Memory.{IsPlaced, Holds};
ghost use Rattle.look_up_cache.specs.Elements.{AlwaysGives};

use crate::elements::Slot;
use crate::finding::{byte_of, is_calm, same_text};
use crate::memory::{Memory, Variable};
use crate::table::{beside, free_place, held_at, put_at};
use crate::writes::is_written;
use gem_object::{Body, Oid, Text, Value};
use running_objects::Objects;
use std::alloc::AllocError;

/// The value of an instance variable, where that is known without a change of anything.
#[inline(always)]
pub(crate) fn known_variable<O: Objects, T>(
    memory: &Memory<T>,
    objects: &O,
    name: &Text,
    receiver: &Value,
    holder: Oid,
    class_side: bool,
) -> Option<Value>
    ensures { Holds memory.now (O.seen objects.now) → IfSome result (λ value. AlwaysGives
        (read_out_of_scope name.now (bare_frame receiver.now holder class_side)) value
        (O.seen objects.now)) }
{
    let at = known_slot(memory, name, holder, class_side)?;
    let oid = receiver.reference()?;
    if !is_calm(&memory.receivers, oid) {
        return None;
    }
    let object = objects.object(oid)?;
    let value = value_in(&object.body, at)?;
    copy_of(value)
}

// What a slot of a body holds.
fn value_in(body: &Body, at: usize) -> Option<&Value>
    ensures { option_copied result ≡ slot_at at body.now }
{
    match body {
        Body::Plain(values) => values.as_slice().get(at),
        _ => None,
    }
}

/// A copy of a value; None where memory ran out.
#[inline(always)]
pub(crate) fn copy_of(value: &Value) -> Option<Value>
    ensures { IfSome result (λ copy. copy ≡ value.now) }
{
    value.clone().ok()
}

/// The slot of the receiver into which an assignment puts this value, where all else of it is known
/// to change nothing.
#[inline(always)]
pub(crate) fn slot_to_set<O: Objects, T>(
    memory: &Memory<T>,
    objects: &O,
    name: &Text,
    receiver: &Value,
    holder: Oid,
    class_side: bool,
    value: &Value,
) -> Option<Slot>
    ensures left { Holds memory.now (O.seen objects.now) → IfSome result (λ slot. SlotIsLeft
        name.now (bare_frame receiver.now holder class_side) value.now slot
        (O.seen objects.now)) }
    ensures there { IfSome result (λ slot. IsThere slot.name (O.seen objects.now)) }
{
    if !is_stored(value) {
        return None;
    }
    let at = known_slot(memory, name, holder, class_side)?;
    let oid = receiver.reference()?;
    if !is_written(&memory.receivers, oid) {
        return None;
    }
    let object = objects.object(oid)?;
    if !has_slot(&object.body, at) {
        return None;
    }
    Some(Slot { name: oid, at })
}

// Whether a value may be stored: it is no block.
fn is_stored(value: &Value) -> bool
    ensures { result ≡ not (is_block value.now) }
{
    !matches!(value, Value::Block(_))
}

fn has_slot(body: &Body, at: usize) -> bool
    ensures { result ≡ nat_lt at (plain_slots body.now) }
{
    at < body.plain_slots()
}

// The slot of the instance variable of this name, in a method of this class and side.
#[inline(always)]
fn known_slot<T>(memory: &Memory<T>, name: &Text, holder: Oid, class_side: bool) -> Option<usize>
    ensures { (seen : Seen) → Holds memory.now seen → IfSome result (λ slot.
        HasVariable name.now holder class_side slot seen) }
{
    if class_side {
        return None;
    }
    known_index(memory, holder, name)?
}

/// In which slot the instance variable of this name of a class stands, or that there is none, where
/// that is remembered.
#[inline(always)]
pub(crate) fn known_index<T>(memory: &Memory<T>, holder: Oid, name: &Text) -> Option<Option<usize>>
    ensures { (seen : Seen) → Holds memory.now seen → IfSome result (λ found.
        Stands holder name.now found seen.setting seen.world) }
{
    let first = variable_place(holder, name);
    match index_at(&memory.variables, first, holder, name) {
        Some(found) => Some(found),
        None => index_at(&memory.variables, beside(first), holder, name),
    }
}

#[inline(always)]
fn index_at(
    variables: &Vec<Option<Variable>>,
    at: usize,
    holder: Oid,
    name: &Text,
) -> Option<Option<usize>>
    ensures { (seen : Seen) → AllHeld (IsPlaced seen) variables.now.items
        → IfSome result (λ found. Stands holder name.now found seen.setting seen.world) }
{
    let variable = held_at(variables, at)?;
    if variable.holder == holder && same_text(&variable.name, name) {
        Some(variable.slot)
    } else {
        None
    }
}

/// Remembers it.
pub(crate) fn remember_variable<T>(
    memory: &mut Memory<T>,
    holder: Oid,
    name: &Text,
    found: Option<usize>,
)
    ensures holds { (seen : Seen) → Stands holder name.now found seen.setting seen.world
        → Holds memory.old seen → Holds memory.new seen }
    ensures methods { memory.new.methods.items ≡ memory.old.methods.items }
{
    let _ = put_variable(&mut memory.variables, holder, name, found);
}

fn put_variable(
    variables: &mut Vec<Option<Variable>>,
    holder: Oid,
    name: &Text,
    found: Option<usize>,
) -> Result<(), AllocError>
    ensures { (seen : Seen) → Stands holder name.now found seen.setting seen.world
        → AllHeld (IsPlaced seen) variables.old.items
        → AllHeld (IsPlaced seen) variables.new.items }
{
    let variable = Variable {
        holder,
        name: name.clone()?,
        slot: found,
    };
    let at = free_place(variables, variable_place(holder, name));
    put_at(variables, at, variable)
}

// The first place at which an instance variable may stand.
fn variable_place(holder: Oid, name: &Text) -> usize {
    let class = holder.number() % 128;
    let bytes = name.bytes();
    let first = byte_of(bytes.first());
    let last = byte_of(bytes.last());
    ((class * 5 + first * 3 + last * 7 + (bytes.len() % 64) as u64 * 11) % 128) as usize
}
