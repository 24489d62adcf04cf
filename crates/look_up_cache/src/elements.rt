//! Elements of Arrays and OrderedCollections, where all that their rules look at is known: the
//! receiver is read, or written, without a change, and each test of the rule passes.
ghost use Rattle.std.specs.Prelude.{◌≡◌, ◌≤◌, ◌<◌, true, [], ◌∷◌, Some, IfSome, option_and_then, codes};
ghost use Rattle.gem_object.specs.declared.body.Body.TheVariants.{Plain};
ghost use Rattle.running_objects.specs.gem_image.Image.{contents_of};
ghost use Rattle.running_objects.specs.Seen.{Seen};
ghost use Rattle.gem_language.specs.prim_rules.Parts.{int_in, is_empty, one_of, two_of};
ghost use Rattle.gem_language.specs.prim_rules.Indexes.{place_in};
ghost use Rattle.gem_language.specs.prim_rules.Rules.{rule_of};
ghost use Rattle.gem_language.specs.prim_rules.declared.answer.PrimitiveAnswer.TheVariants.{Gives};
ghost use Rattle.prim_parts.specs.Does.{IsThere};
ghost use Rattle.look_up_cache.specs.Table.{AllHeld};
ghost use Rattle.look_up_cache.specs.Answering.{AnswersBy};
ghost use Rattle.look_up_cache.specs.Memory.{IsCounted, Holds};
ghost use Rattle.look_up_cache.specs.Elements.{AlwaysGives, IsSeen, IsSequence, HasElement, HasSlot, HasWritten, SizeIs, ElementIs, IsPutOf, PutIsLeft};

use crate::counts::named_of;
use crate::finding::{is_calm, receiver_of};
use crate::memory::{Count, Memory};
use crate::writes::is_written;
use gem_object::{Body, Object, Oid, Value};
use running_objects::Objects;

/// A slot of an object, by its place.
#[derive(Clone, Copy)]
pub(crate) struct Slot {
    pub(crate) name: Oid,
    pub(crate) at: usize,
}

/// A value that comes into a slot.
#[derive(Drop)]
pub(crate) struct Put {
    pub(crate) slot: Slot,
    pub(crate) value: Value,
}

/// What `size` (33) and `at:` (34) answer, where that is known without a change of anything.
#[inline(always)]
pub(crate) fn known_answer<O: Objects, T>(
    memory: &Memory<T>,
    objects: &O,
    number: u8,
    receiver: &Value,
    arguments: &[Value],
) -> Option<Value>
    requires { Holds memory.now (O.seen objects.now) }
    ensures { IfSome result (λ value. AlwaysGives
        (rule_of number receiver.now arguments.now) (Gives value) (O.seen objects.now)) }
{
    if number != 33 && number != 34 {
        return None;
    }
    let name = receiver.reference()?;
    if !is_calm(&memory.receivers, name) {
        return None;
    }
    let object = objects.object(name)?;
    match number {
        33 => size_for(&memory.counts, objects, object, arguments),
        34 => element_for(&memory.counts, objects, object, arguments),
        _ => None,
    }
}

// How many elements a sequence has, where there are no arguments.
fn size_for<O: Objects>(
    counts: &Vec<Option<Count>>,
    objects: &O,
    object: &Object,
    arguments: &[Value],
) -> Option<Value>
    requires counts { AllHeld (IsCounted (O.seen objects.now)) counts.now.items }
    requires seen { IsSeen (contents_of object.now) (O.seen objects.now) }
    ensures { IfSome result (λ value.
        SizeIs (contents_of object.now) arguments.now value (O.seen objects.now)) }
{
    if !arguments.is_empty() {
        return None;
    }
    let slots = slots_in(&object.body)?;
    let named = named_of(counts, objects, object);
    let size = i64::try_from(slots.len().saturating_sub(named)).ok()?;
    Some(Value::Int(size))
}

// A copy of the element of a sequence with the index that the one argument is.
#[inline(always)]
fn element_for<O: Objects>(
    counts: &Vec<Option<Count>>,
    objects: &O,
    object: &Object,
    arguments: &[Value],
) -> Option<Value>
    requires counts { AllHeld (IsCounted (O.seen objects.now)) counts.now.items }
    requires seen { IsSeen (contents_of object.now) (O.seen objects.now) }
    ensures { IfSome result (λ value.
        ElementIs (contents_of object.now) arguments.now value (O.seen objects.now)) }
{
    let index = one_of(arguments)?;
    element_at(counts, objects, object, index)
}

// A copy of the element of a sequence with this index.
#[inline(always)]
fn element_at<O: Objects>(
    counts: &Vec<Option<Count>>,
    objects: &O,
    object: &Object,
    index: &Value,
) -> Option<Value>
    requires counts { AllHeld (IsCounted (O.seen objects.now)) counts.now.items }
    requires seen { IsSeen (contents_of object.now) (O.seen objects.now) }
    ensures { IfSome result (λ value.
        ElementIs (contents_of object.now) (index.now ∷ []) value (O.seen objects.now)) }
{
    let at = element_slot(counts, objects, object, index)?;
    let slots = slots_in(&object.body)?;
    let value = slots.get(at)?;
    value.clone().ok()
}

/// What `at:` (34) answers to an object with which it is remembered that a look-up finds that
/// primitive.
#[inline(always)]
pub(crate) fn known_element<O: Objects, T>(
    memory: &Memory<T>,
    objects: &O,
    receiver: &Value,
    index: &Value,
) -> Option<Value>
    requires { Holds memory.now (O.seen objects.now) }
    ensures answers { IfSome result (λ _.
        AnswersBy 34 receiver.now (codes "at:") (O.seen objects.now)) }
    ensures value { IfSome result (λ value. AlwaysGives
        (rule_of 34 receiver.now (index.now ∷ [])) (Gives value) (O.seen objects.now)) }
{
    let name = receiver.reference()?;
    let known = receiver_of(&memory.receivers, name)?;
    if !known.reads_elements {
        return None;
    }
    let object = objects.object(name)?;
    element_at(&memory.counts, objects, object, index)
}

// The slot in which the element of a sequence with this index stands.
#[inline(always)]
fn element_slot<O: Objects>(
    counts: &Vec<Option<Count>>,
    objects: &O,
    object: &Object,
    index: &Value,
) -> Option<usize>
    requires counts { AllHeld (IsCounted (O.seen objects.now)) counts.now.items }
    requires seen { IsSeen (contents_of object.now) (O.seen objects.now) }
    ensures { IfSome result (λ at.
        HasElement (contents_of object.now) index.now at (O.seen objects.now)) }
{
    let slots = slots_in(&object.body)?;
    let named = named_of(counts, objects, object);
    let place = place_of(slots.len().saturating_sub(named), index)?;
    Some(named + place)
}

// The place of the item with this index among so many.
fn place_of(size: usize, index: &Value) -> Option<usize>
    ensures place { result ≡ option_and_then (place_in size) (int_in index.now) }
    ensures within { IfSome result (λ place. place < size) }
{
    let Value::Int(number) = index else {
        return None;
    };
    if *number < 1 {
        return None;
    }
    let number = *number as usize;
    if number <= size {
        Some(number - 1)
    } else {
        None
    }
}

fn slots_in(body: &Body) -> Option<&[Value]>
    ensures { IfSome result (λ slots. body.now ≡ Plain slots.now) }
{
    match body {
        Body::Plain(slots) => Some(slots.as_slice()),
        _ => None,
    }
}

fn one_of(arguments: &[Value]) -> Option<&Value>
    ensures { IfSome result (λ value. one_of arguments.now ≡ Some value.now) }
{
    match arguments {
        [value] => Some(value),
        _ => None,
    }
}

fn two_of(arguments: &[Value]) -> Option<(&Value, &Value)>
    ensures { IfSome result (λ both. two_of arguments.now ≡ Some (both.0.now, both.1.now)) }
{
    match arguments {
        [first, second] => Some((first, second)),
        _ => None,
    }
}

/// What is left to do of `at:put:` (35), where the receiver is written without a change.
pub(crate) fn element_put<O: Objects, T>(
    memory: &Memory<T>,
    objects: &O,
    number: u8,
    receiver: &Value,
    arguments: &[Value],
) -> Option<Put>
    requires { Holds memory.now (O.seen objects.now) }
    ensures left { IfSome result (λ put. PutIsLeft (rule_of number receiver.now arguments.now)
        put (O.seen objects.now)) }
    ensures there { IfSome result (λ put. IsThere put.slot.name (O.seen objects.now)) }
{
    if number != 35 {
        return None;
    }
    let both = two_of(arguments)?;
    let slot = written_element(memory, objects, receiver, both.0)?;
    put_of(slot, both.1)
}

// The slot of the element with this index, where the receiver is written without a change.
fn written_element<O: Objects, T>(
    memory: &Memory<T>,
    objects: &O,
    receiver: &Value,
    index: &Value,
) -> Option<Slot>
    requires { Holds memory.now (O.seen objects.now) }
    ensures { IfSome result (λ slot. HasWritten receiver.now index.now slot
        (O.seen objects.now)) }
{
    let name = receiver.reference()?;
    if !is_written(&memory.receivers, name) {
        return None;
    }
    slot_in(&memory.counts, objects, name, index)
}

// The slot of the element of an object with this index.
#[inline(always)]
fn slot_in<O: Objects>(
    counts: &Vec<Option<Count>>,
    objects: &O,
    name: Oid,
    index: &Value,
) -> Option<Slot>
    requires { AllHeld (IsCounted (O.seen objects.now)) counts.now.items }
    ensures { IfSome result (λ slot. HasSlot name index.now slot (O.seen objects.now)) }
{
    let object = objects.object(name)?;
    let at = element_slot(counts, objects, object, index)?;
    Some(Slot { name, at })
}

/// What is left to do of `at:put:` (35), where the receiver is written without a change and it is
/// remembered with it that a look-up finds that primitive.
#[inline(always)]
pub(crate) fn known_put<O: Objects, T>(
    memory: &Memory<T>,
    objects: &O,
    receiver: &Value,
    index: &Value,
    value: &Value,
) -> Option<Put>
    requires { Holds memory.now (O.seen objects.now) }
    ensures answers { IfSome result (λ _.
        AnswersBy 35 receiver.now (codes "at:put:") (O.seen objects.now)) }
    ensures left { IfSome result (λ put. PutIsLeft
        (rule_of 35 receiver.now (index.now ∷ value.now ∷ [])) put (O.seen objects.now)) }
    ensures value { IfSome result (λ put. put.value ≡ value.now) }
    ensures there { IfSome result (λ put. IsThere put.slot.name (O.seen objects.now)) }
{
    let name = receiver.reference()?;
    let known = receiver_of(&memory.receivers, name)?;
    if !known.puts_elements {
        return None;
    }
    if !known.written {
        return None;
    }
    let slot = slot_in(&memory.counts, objects, name, index)?;
    put_of(slot, value)
}

// A copy of a value that is no block, for a slot.
#[inline(always)]
fn put_of(slot: Slot, value: &Value) -> Option<Put>
    ensures { IfSome result (λ put. IsPutOf slot value.now put) }
{
    if let Value::Block(_) = value {
        return None;
    }
    let value = value.clone().ok()?;
    Some(Put { slot, value })
}
