//! The primitives 84 to 87, 89 to 92, 94 and 95, of reduced-conflict objects.
ghost use Rattle.std.specs.Prelude.{◌≡◌, pos, is_some, option_copied, option_map, option_and_then, slice_get, IfOk};
ghost use Rattle.gem_object.specs.texts.SmallInteger.{is_small_integer};
ghost use Rattle.gem_object.specs.rc_counter_bag.Bag.{count};
ghost use Rattle.gem_object.specs.rc_dict.Dict.{entry};
ghost use Rattle.gem_object.specs.Order.{value_order};
ghost use Rattle.gem_object.specs.declared.value.Value.TheVariants.{Int};
ghost use Rattle.gem_update.specs.declared.update.Update.TheVariants as change;
ghost use Rattle.object_programs.specs.Programs.{need, check};
ghost use Rattle.object_programs.specs.Run.{and_then};
ghost use Rattle.object_programs.specs.declared.fault.Fault.TheVariants as fault;
ghost use Rattle.running_objects.specs.Seen.{object_at};
ghost use Rattle.prim_rules.specs.Parts.{int_in, truth};
ghost use Rattle.prim_rules.specs.Receivers.{argument_as, answer, occurrences_in, shared_pairs_in, queue_in};
ghost use Rattle.prim_rules.specs.Counters.{row_84};
ghost use Rattle.prim_rules.specs.Bags.{row_85, row_86, row_87};
ghost use Rattle.prim_rules.specs.RcDicts.{entry_growth, shared_key_argument, row_89, row_90, row_91, row_92};
ghost use Rattle.prim_rules.specs.Queues.{front_removed, row_94, row_95};
ghost use Rattle.prim_parts.specs.Does.{Does, Computes, pointed};
ghost use Rattle.prim_shared.specs.Held.{held_of, GoesOn, SaysOf};

use crate::answers::answer_updated;
use crate::bodies::{bag_of, dictionary_of, queue_of};
use crate::receivers::{ReceiverKind, read_receiver, write_receiver};
use gem_object::{BagUpdate, DictUpdate, LARGEST_INTEGER, Oid, QueueUpdate, Value};
use gem_update::Update;
use object_programs::Fault;
use prim_parts::{check, check_stored, int_in, no_arguments, one_of, truth, two_of};
use prim_rules::PrimitiveAnswer;
use running_objects::{Objects, Stop};
use std::alloc::AllocError;

// The integer that the one argument is; E5 where it is none.
fn int_argument(arguments: &[Value]) -> Result<i64, Stop>
    ensures { Computes (argument_as int_in arguments.now) result }
{
    int_in(one_of(arguments)?)
}

// The update that raises a counter by a number.
fn raise(by: i64) -> Update
    ensures { result ≡ change.Counter by }
{
    Update::Counter(by)
}

/// 84, `incrementBy:`: the receiver, which is raised by a number. E6 where the sum isn't an integer
/// of the language.
pub fn row_84<O: Objects>(
    objects: &mut O,
    receiver: &Value,
    arguments: &[Value],
) -> Result<PrimitiveAnswer, Stop>
    ensures { Does (row_84 receiver.now arguments.now) (O.seen objects.old) result
        (O.seen objects.new) }
{
    let name = write_receiver(objects, ReceiverKind::Counter, receiver)?;
    let by = int_argument(arguments)?;
    answer_updated(objects, name, raise(by), Fault::IntegerRange, 0, receiver)
}

/// 85, `add:`: the item, which occurs once more.
pub fn row_85<O: Objects>(
    objects: &mut O,
    receiver: &Value,
    arguments: &[Value],
) -> Result<PrimitiveAnswer, Stop>
    ensures { Does (row_85 receiver.now arguments.now) (O.seen objects.old) result
        (O.seen objects.new) }
{
    let name = write_receiver(objects, ReceiverKind::Bag, receiver)?;
    let item = one_of(arguments)?;
    check_stored(item)?;
    let change = Update::Bag(BagUpdate::Add(item.clone()?));
    answer_updated(objects, name, change, Fault::ArgumentKind, 1, item)
}

/// 86, `remove:`: the item, which occurs once less. E18 where it doesn't occur.
pub fn row_86<O: Objects>(
    objects: &mut O,
    receiver: &Value,
    arguments: &[Value],
) -> Result<PrimitiveAnswer, Stop>
    ensures { Does (row_86 receiver.now arguments.now) (O.seen objects.old) result
        (O.seen objects.new) }
{
    let name = write_receiver(objects, ReceiverKind::Bag, receiver)?;
    let item = one_of(arguments)?;
    let change = Update::Bag(BagUpdate::Remove(item.clone()?));
    answer_updated(objects, name, change, Fault::KeyAbsent, 0, item)
}

/// 87, `occurrencesOf:`: how often the argument occurs. E6 where that isn't an integer of the
/// language.
pub fn row_87<O: Objects>(
    objects: &mut O,
    receiver: &Value,
    arguments: &[Value],
) -> Result<PrimitiveAnswer, Stop>
    ensures { Does (row_87 receiver.now arguments.now) (O.seen objects.old) result
        (O.seen objects.new) }
{
    let name = read_receiver(objects, ReceiverKind::Bag, receiver)?;
    let item = one_of(arguments)?;
    let Some(number) = occurrences_of(objects, name, item) else {
        return Err(Stop::Fails(Fault::ArgumentKind));
    };
    answer_number(number)
}

// How often an item occurs in the bag of this name; None where the object is none.
fn occurrences_of<O: Objects>(objects: &O, name: Oid, item: &Value) -> Option<u64>
    ensures { result ≡ option_map (count value_order item.now)
        (held_of occurrences_in (object_at name (O.seen objects.now))) }
{
    Some(bag_of(objects, name)?.count(item))
}

// The number is the answer; E6 where it isn't an integer of the language.
fn answer_number(number: u64) -> Result<PrimitiveAnswer, Stop>
    ensures { Computes (and_then (check fault.IntegerRange (is_small_integer (pos number)))
        (λ fits. answer (Int (pos number)))) result }
{
    if number <= LARGEST_INTEGER as u64 {
        return Ok(PrimitiveAnswer::Gives(Value::Int(number as i64)));
    }
    Err(Stop::Fails(Fault::IntegerRange))
}

// The one argument, which is a key; E5 where it is none.
fn shared_key_argument(arguments: &[Value]) -> Result<&Value, Stop>
    ensures { Computes (shared_key_argument arguments.now) (pointed result) }
{
    let key = one_of(arguments)?;
    check(Fault::ArgumentKind, key.is_key())?;
    Ok(key)
}

// The value at a key of the dictionary of this name; None where there is none.
fn entry_of<'a, O: Objects>(objects: &'a O, name: Oid, key: &Value) -> Option<&'a Value>
    ensures { option_copied result ≡ option_and_then (entry value_order key.now)
        (held_of shared_pairs_in (object_at name (O.seen objects.now))) }
{
    dictionary_of(objects, name)?.get(key)
}

// The value at a key of the dictionary of this name; E18 where there is none.
fn value_at<O: Objects>(objects: &O, name: Oid, key: &Value) -> Result<Value, Stop>
    ensures { GoesOn shared_pairs_in
        (λ dictionary. need fault.KeyAbsent (entry value_order key.now dictionary.held)) name
        (O.seen objects.now) result (O.seen objects.now) }
{
    match entry_of(objects, name, key) {
        Some(value) => Ok(value.clone()?),
        None => Err(Stop::Fails(Fault::KeyAbsent)),
    }
}

/// 89, `at:`: the value at a key. E18 where there is none.
pub fn row_89<O: Objects>(
    objects: &mut O,
    receiver: &Value,
    arguments: &[Value],
) -> Result<PrimitiveAnswer, Stop>
    ensures { Does (row_89 receiver.now arguments.now) (O.seen objects.old) result
        (O.seen objects.new) }
{
    let name = read_receiver(objects, ReceiverKind::SharedDictionary, receiver)?;
    let key = shared_key_argument(arguments)?;
    let value = value_at(objects, name, key)?;
    Ok(PrimitiveAnswer::Gives(value))
}

// Whether the dictionary of this name has a value at a key.
fn has_entry<O: Objects>(objects: &O, name: Oid, key: &Value) -> bool
    ensures { SaysOf shared_pairs_in (λ pairs. is_some (entry value_order key.now pairs)) name
        (O.seen objects.now) result }
{
    match entry_of(objects, name, key) {
        Some(_) => true,
        None => false,
    }
}

// The space that a put takes in the dictionary of this name.
fn entry_growth<O: Objects>(objects: &O, name: Oid, key: &Value) -> u64
    ensures { SaysOf shared_pairs_in (λ pairs. entry_growth key.now pairs) name
        (O.seen objects.now) result }
{
    match entry_of(objects, name, key) {
        Some(_) => 0,
        None => 2,
    }
}

/// 90, `at:put:`: the value, which comes at a key.
pub fn row_90<O: Objects>(
    objects: &mut O,
    receiver: &Value,
    arguments: &[Value],
) -> Result<PrimitiveAnswer, Stop>
    ensures { Does (row_90 receiver.now arguments.now) (O.seen objects.old) result
        (O.seen objects.new) }
{
    let name = write_receiver(objects, ReceiverKind::SharedDictionary, receiver)?;
    let pair = two_of(arguments)?;
    check(Fault::ArgumentKind, pair.0.is_key())?;
    check_stored(pair.1)?;
    let growth = entry_growth(objects, name, pair.0);
    let change = Update::RcDict(DictUpdate::Put(pair.0.clone()?, pair.1.clone()?));
    answer_updated(objects, name, change, Fault::ArgumentKind, growth, pair.1)
}

/// 91, `removeKey:`: the value that was there. E18 where there was none.
pub fn row_91<O: Objects>(
    objects: &mut O,
    receiver: &Value,
    arguments: &[Value],
) -> Result<PrimitiveAnswer, Stop>
    ensures { Does (row_91 receiver.now arguments.now) (O.seen objects.old) result
        (O.seen objects.new) }
{
    let name = write_receiver(objects, ReceiverKind::SharedDictionary, receiver)?;
    let key = shared_key_argument(arguments)?;
    let value = value_at(objects, name, key)?;
    let change = Update::RcDict(DictUpdate::Remove(key.clone()?));
    answer_updated(objects, name, change, Fault::KeyAbsent, 0, &value)
}

/// 92, `includesKey:`.
pub fn row_92<O: Objects>(
    objects: &mut O,
    receiver: &Value,
    arguments: &[Value],
) -> Result<PrimitiveAnswer, Stop>
    ensures { Does (row_92 receiver.now arguments.now) (O.seen objects.old) result
        (O.seen objects.new) }
{
    let name = read_receiver(objects, ReceiverKind::SharedDictionary, receiver)?;
    let key = shared_key_argument(arguments)?;
    Ok(PrimitiveAnswer::Gives(truth(has_entry(objects, name, key))))
}

/// 94, `add:`: the item, which comes at the back.
pub fn row_94<O: Objects>(
    objects: &mut O,
    receiver: &Value,
    arguments: &[Value],
) -> Result<PrimitiveAnswer, Stop>
    ensures { Does (row_94 receiver.now arguments.now) (O.seen objects.old) result
        (O.seen objects.new) }
{
    let name = write_receiver(objects, ReceiverKind::Queue, receiver)?;
    let item = one_of(arguments)?;
    check_stored(item)?;
    let change = Update::Queue(QueueUpdate::Add(item.clone()?));
    answer_updated(objects, name, change, Fault::ArgumentKind, 1, item)
}

/// 95, `remove`: the front of the queue, which is removed; nil where the queue is empty.
pub fn row_95<O: Objects>(
    objects: &mut O,
    receiver: &Value,
    arguments: &[Value],
) -> Result<PrimitiveAnswer, Stop>
    ensures { Does (row_95 receiver.now arguments.now) (O.seen objects.old) result
        (O.seen objects.new) }
{
    let name = write_receiver(objects, ReceiverKind::Queue, receiver)?;
    no_arguments(arguments)?;
    remove_front(objects, name)
}

// A copy of the front of the queue of this name; None where it is empty.
fn front_of<O: Objects>(objects: &O, name: Oid) -> Result<Option<Value>, AllocError>
    ensures { IfOk result (λ front. front ≡ option_and_then (λ queue. slice_get queue.items 0)
        (held_of queue_in (object_at name (O.seen objects.now)))) }
{
    let Some(queue) = queue_of(objects, name) else {
        return Ok(None);
    };
    match queue.item(0) {
        Some(front) => Ok(Some(front.clone()?)),
        None => Ok(None),
    }
}

// The front of the queue of this name, which was written, is removed.
fn remove_front<O: Objects>(objects: &mut O, name: Oid) -> Result<PrimitiveAnswer, Stop>
    ensures { GoesOn queue_in (λ queue. front_removed queue queue.held.items) name
        (O.seen objects.old) result (O.seen objects.new) }
{
    let Some(front) = front_of(objects, name)? else {
        return Ok(PrimitiveAnswer::Gives(Value::Nil));
    };
    let change = Update::Queue(QueueUpdate::Remove(front.clone()?));
    answer_updated(objects, name, change, Fault::ArgumentKind, 0, &front)
}
