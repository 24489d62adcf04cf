//! How an update changes a reduced-conflict body. None is copied or counted; an item of a bag and a
//! key of a dictionary are searched for among the sorted ones.
ghost use Rattle.std.specs.Prelude.{◌+◌, ◌<◌, ◌≡◌, ◌≤◌};
ghost use Rattle.gem_object.specs.Order.{value_order};
ghost use Rattle.gem_object.specs.Sizes.{value_size};
ghost use Rattle.gem_object.specs.rc_counter_bag.Bag.{one_less, one_more, with_one_more};
ghost use Rattle.gem_object.specs.rc_dict.Dict.{put};
ghost use Rattle.gem_update.specs.Update.{updated};
ghost use Rattle.body_growth.specs.Changes.{Changes, Tells, counted};

use crate::change::Change;
use crate::edits::pair_bytes;
use gem_object::{Bag, BagUpdate, Body, Counter, DictUpdate, KeyDict, Queue, QueueUpdate, Value};
use gem_update::Update;
use sorted_pairs::place;

/// How the update changes the body, before it is made; None where the body's class refuses the
/// update, or isn't that of the update. It takes no memory.
pub fn body_updated(body: &Body, update: &Update) -> Option<Change>
    ensures { Tells result body.now (updated update.now body.now) }
{
    match (body, update) {
        (Body::Counter(counter), Update::Counter(by)) => counter_updated(*counter, *by),
        (Body::Bag(bag), Update::Bag(update)) => bag_updated(bag, update),
        (Body::RcDict(dict), Update::RcDict(update)) => dict_updated(dict, update),
        (Body::Queue(queue), Update::Queue(update)) => queue_updated(queue, update),
        _ => None,
    }
}

// A counter has no slots, and as many bytes whatever its value.
fn counter_updated(counter: Counter, by: i64) -> Option<Change>
    ensures { Tells result (Body.Counter counter)
        (updated (Update.Counter by) (Body.Counter counter)) }
{
    match counter.apply(by) {
        Ok(_) => Some(Change::none()),
        Err(_) => None,
    }
}

fn bag_updated(bag: &Bag<Value>, update: &BagUpdate<Value>) -> Option<Change>
    ensures { Tells result (Body.Bag bag.now) (updated (Update.Bag update.now) (Body.Bag bag.now)) }
{
    match update {
        BagUpdate::Add(item) => Some(item_added(bag, item)),
        BagUpdate::Remove(item) => item_removed(bag, item),
    }
}

fn item_added(bag: &Bag<Value>, item: &Value) -> Change
    ensures { Changes result (Body.Bag bag.now)
        (Body.Bag (with_one_more value_order item.now bag.now)) }
{
    let pairs = bag.pairs();
    match place(pairs, item) {
        Ok(at) => {
            let pair = &pairs[at];
            Change {
                slots_freed: 0,
                slots_taken: step(pair.1),
                bytes_freed: 0,
                bytes_taken: 0,
            }
        }
        Err(_) => Change {
            slots_freed: 0,
            slots_taken: 1,
            bytes_freed: 0,
            bytes_taken: item_bytes(item),
        },
    }
}

fn item_removed(bag: &Bag<Value>, item: &Value) -> Option<Change>
    ensures { Tells result (Body.Bag bag.now)
        (updated (Update.Bag (BagUpdate.Remove item.now)) (Body.Bag bag.now)) }
{
    let pairs = bag.pairs();
    let Ok(at) = place(pairs, item) else {
        return None;
    };
    let pair = &pairs[at];
    if pair.1 == 1 {
        return Some(Change {
            slots_freed: 1,
            slots_taken: 0,
            bytes_freed: item_bytes(&pair.0),
            bytes_taken: 0,
        });
    }
    Some(Change {
        slots_freed: step(pair.1),
        slots_taken: 0,
        bytes_freed: 0,
        bytes_taken: 0,
    })
}

// By how much one occurrence more or less changes this count: by none where it stands at its end.
fn step(occurrences: u64) -> u64
    requires { 0 < occurrences }
    ensures more { one_more occurrences ≡ occurrences + result }
    ensures less { one_less occurrences + result ≡ occurrences }
    ensures small { result ≤ 1 }
{
    if occurrences == u64::MAX { 0 } else { 1 }
}

// The bytes of an item with its count.
fn item_bytes(item: &Value) -> u64
    ensures { result ≡ counted (value_size item.now + 8) }
{
    item.stored_bytes().saturating_add(8)
}

fn dict_updated(dict: &KeyDict<Value, Value>, update: &DictUpdate<Value, Value>) -> Option<Change>
    ensures { Tells result (Body.RcDict dict.now)
        (updated (Update.RcDict update.now) (Body.RcDict dict.now)) }
{
    match update {
        DictUpdate::Put(key, value) => Some(key_put(dict, key, value)),
        DictUpdate::Remove(key) => key_removed(dict, key),
    }
}

fn key_put(dict: &KeyDict<Value, Value>, key: &Value, value: &Value) -> Change
    ensures { Changes result (Body.RcDict dict.now)
        (Body.RcDict (put value_order key.now value.now dict.now)) }
{
    let pairs = dict.pairs();
    match place(pairs, key) {
        Ok(at) => {
            let pair = &pairs[at];
            Change {
                slots_freed: 0,
                slots_taken: 0,
                bytes_freed: pair_bytes(&pair.0, &pair.1),
                bytes_taken: pair_bytes(key, value),
            }
        }
        Err(_) => Change {
            slots_freed: 0,
            slots_taken: 2,
            bytes_freed: 0,
            bytes_taken: pair_bytes(key, value),
        },
    }
}

fn key_removed(dict: &KeyDict<Value, Value>, key: &Value) -> Option<Change>
    ensures { Tells result (Body.RcDict dict.now)
        (updated (Update.RcDict (DictUpdate.Remove key.now)) (Body.RcDict dict.now)) }
{
    let pairs = dict.pairs();
    let Ok(at) = place(pairs, key) else {
        return None;
    };
    let pair = &pairs[at];
    Some(Change {
        slots_freed: 2,
        slots_taken: 0,
        bytes_freed: pair_bytes(&pair.0, &pair.1),
        bytes_taken: 0,
    })
}

fn queue_updated(queue: &Queue<Value>, update: &QueueUpdate<Value>) -> Option<Change>
    ensures { Tells result (Body.Queue queue.now)
        (updated (Update.Queue update.now) (Body.Queue queue.now)) }
{
    match update {
        QueueUpdate::Add(item) => Some(Change {
            slots_freed: 0,
            slots_taken: 1,
            bytes_freed: 0,
            bytes_taken: item.stored_bytes(),
        }),
        QueueUpdate::Remove(item) => front_removed(queue, item),
    }
}

fn front_removed(queue: &Queue<Value>, item: &Value) -> Option<Change>
    ensures { Tells result (Body.Queue queue.now)
        (updated (Update.Queue (QueueUpdate.Remove item.now)) (Body.Queue queue.now)) }
{
    match queue.front() {
        Some(front) if front.cmp(item).is_eq() => Some(Change {
            slots_freed: 1,
            slots_taken: 0,
            bytes_freed: front.stored_bytes(),
            bytes_taken: 0,
        }),
        _ => None,
    }
}
