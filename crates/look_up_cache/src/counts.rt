//! What is remembered of classes: how many slots each names, with those above it, which stays.
ghost use Rattle.std.specs.Prelude.{◌≡◌, Some, IfSome};
ghost use Rattle.running_objects.specs.gem_image.Image.{contents_of};
ghost use Rattle.running_objects.specs.Seen.{Seen};
ghost use Rattle.gem_language.specs.prim_rules.Parts.{named_slots};
ghost use Rattle.look_up_cache.specs.Table.{AllHeld};
ghost use Rattle.look_up_cache.specs.Memory.{IsCounted, Holds};
ghost use Rattle.look_up_cache.specs.Elements.{AlwaysGives, IsSeen};

use crate::memory::{Count, Entry, Memory};
use crate::table::{held_at, put_at};
use gem_object::{MethodCode, Object, Oid, Value};
use prim_parts::named_slots;
use running_objects::Objects;
use std::alloc::AllocError;

/// How many slots the class of an object that is seen names: as it is remembered, or else as its
/// classes tell.
#[inline(always)]
pub(crate) fn named_of<O: Objects>(
    counts: &Vec<Option<Count>>,
    objects: &O,
    object: &Object,
) -> usize
    requires seen { IsSeen (contents_of object.now) (O.seen objects.now) }
    requires counts { AllHeld (IsCounted (O.seen objects.now)) counts.now.items }
    ensures { AlwaysGives (named_slots object.now.class) result (O.seen objects.now) }
{
    objects.sound();
    match known_count(counts, object.class) {
        Some(named) => named,
        None => named_slots(objects, object.class),
    }
}

fn known_count(counts: &Vec<Option<Count>>, class: Oid) -> Option<usize>
    ensures { (seen : Seen) → AllHeld (IsCounted seen) counts.now.items
        → IfSome result (λ named. IsCounted seen (record { class = class; named = named })) }
{
    let count = held_at(counts, count_place(class))?;
    if count.class == class {
        Some(count.named)
    } else {
        None
    }
}

/// Where a look-up for the receiver found a primitive of sequences, remembers how many slots the
/// receiver's class names. Nothing is touched.
pub(crate) fn remember_count<O: Objects, T>(
    memory: &mut Memory<T>,
    objects: &O,
    receiver: &Value,
    at: usize,
)
    ensures holds { Holds memory.old (O.seen objects.now) → Holds memory.new (O.seen objects.now) }
    ensures methods { memory.new.methods.items ≡ memory.old.methods.items }
{
    if is_of_sequences(&memory.methods, at) {
        count_slots(&mut memory.counts, objects, receiver);
    }
}

// Whether what stands at a place is `size`, `at:` or `at:put:` of a sequence.
fn is_of_sequences<T>(methods: &Vec<Option<Entry<T>>>, at: usize) -> bool {
    let Some(entry) = held_at(methods, at) else {
        return false;
    };
    let Some(found) = &entry.found else {
        return false;
    };
    matches!(found.code, MethodCode::Primitive(33 | 34 | 35))
}

fn count_slots<O: Objects>(counts: &mut Vec<Option<Count>>, objects: &O, receiver: &Value)
    ensures { AllHeld (IsCounted (O.seen objects.now)) counts.old.items
        → AllHeld (IsCounted (O.seen objects.now)) counts.new.items }
{
    let Some(name) = receiver.reference() else {
        return;
    };
    let Some(object) = objects.object(name) else {
        return;
    };
    objects.sound();
    let named = named_slots(objects, object.class);
    let _ = put_count(counts, object.class, named);
}

fn put_count(counts: &mut Vec<Option<Count>>, class: Oid, named: usize) -> Result<(), AllocError>
    ensures { (seen : Seen) → IsCounted seen (record { class = class; named = named })
        → AllHeld (IsCounted seen) counts.old.items → AllHeld (IsCounted seen) counts.new.items }
{
    put_at(counts, count_place(class), Count { class, named })
}

// The place at which a class stands.
fn count_place(class: Oid) -> usize {
    (class.number() % 64) as usize
}
