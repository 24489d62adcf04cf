//! What objects hold that were read or written. Nothing here touches an object.
ghost use Rattle.std.specs.Prelude.{◌≡◌, option_copied};
ghost use Rattle.running_objects.specs.Seen.{object_at};
ghost use Rattle.prim_rules.specs.Parts.{segment_in, user_in};
ghost use Rattle.prim_rules.specs.Receivers.{occurrences_in, shared_pairs_in, queue_in};
ghost use Rattle.prim_shared.specs.Held.{held_of};

use gem_object::{Bag, Body, KeyDict, Oid, Queue, Rights, Text, UserBody, Value};
use running_objects::Objects;

/// The rights that the segment of this name gives; None where the object is no segment.
pub fn rights_of<O: Objects>(objects: &O, name: Oid) -> Option<&Rights<Text>>
    ensures { option_copied result
        ≡ held_of segment_in (object_at name (O.seen objects.now)) }
{
    match &objects.object(name)?.body {
        Body::Segment(rights) => Some(rights),
        _ => None,
    }
}

/// The user of this name; None where the object is none.
pub fn user_of<O: Objects>(objects: &O, name: Oid) -> Option<&UserBody>
    ensures { option_copied result ≡ held_of user_in (object_at name (O.seen objects.now)) }
{
    match &objects.object(name)?.body {
        Body::User(user) => Some(user),
        _ => None,
    }
}

/// The bag of this name; None where the object is none.
pub fn bag_of<O: Objects>(objects: &O, name: Oid) -> Option<&Bag<Value>>
    ensures { option_copied result
        ≡ held_of occurrences_in (object_at name (O.seen objects.now)) }
{
    match &objects.object(name)?.body {
        Body::Bag(bag) => Some(bag),
        _ => None,
    }
}

/// The reduced-conflict dictionary of this name; None where the object is none.
pub fn dictionary_of<O: Objects>(objects: &O, name: Oid) -> Option<&KeyDict<Value, Value>>
    ensures { option_copied result
        ≡ held_of shared_pairs_in (object_at name (O.seen objects.now)) }
{
    match &objects.object(name)?.body {
        Body::RcDict(dictionary) => Some(dictionary),
        _ => None,
    }
}

/// The queue of this name; None where the object is none.
pub fn queue_of<O: Objects>(objects: &O, name: Oid) -> Option<&Queue<Value>>
    ensures { option_copied result ≡ held_of queue_in (object_at name (O.seen objects.now)) }
{
    match &objects.object(name)?.body {
        Body::Queue(queue) => Some(queue),
        _ => None,
    }
}
