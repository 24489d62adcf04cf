//! Edits of objects that were written: each tests first that the object stays within the limits of
//! objects (E17), and then takes the space by which it grows (E15). They take constant time, but
//! for `replace_body`, for slots, items and keys that move up or down, and for the search of an item
//! in a bag or a key in a sorted dictionary.
ghost use Rattle.std.specs.Prelude.{◌≡◌, true, Some};
ghost use Rattle.gem_object.specs.Edits.{with_slot, with_slot_more, without_slot, with_byte, with_value_at, without_value_at};
ghost use Rattle.gem_sound.specs.gem_image.Image.{Contents};
ghost use Rattle.object_programs.specs.Methods.{methods_fit};
ghost use Rattle.prim_rules.specs.Dictionaries.{pair_growth};
ghost use Rattle.prim_parts.specs.Does.{Does, Computes};
ghost use Rattle.prim_parts.specs.Edits.{Replaces, Updates};
ghost use Rattle.prim_parts.specs.Limits.{TellsLimits, limits_of_update, room_where};
ghost use Rattle.running_objects.specs.Seen.{object_at};

use crate::limits::stays_within;
use body_growth::{
    Change, body_updated, pair_put, pair_removed, slot_inserted, slot_removed, slot_replaced,
};
use gem_object::{Body, Oid, Value};
use gem_update::Update;
use object_programs::{Fault, is_small};
use running_objects::{Objects, Stop};

/// A value comes into a slot. Where there is no such slot nothing changes.
#[inline(always)]
pub fn replace_slot<O: Objects>(
    objects: &mut O,
    name: Oid,
    at: usize,
    value: Value,
) -> Result<(), Stop>
    ensures { Replaces (λ body. 0) name (with_slot at value) (O.seen objects.old) result
        (O.seen objects.new) }
{
    let Some(object) = objects.object(name) else {
        return Ok(());
    };
    let change = slot_replaced(&object.body, at, &value);
    let small = stays_small(objects, name, change);
    make_room(objects, small, 0)?;
    objects.set_slot(name, at, value)
}

/// A slot with this value comes at a place, and behind the last slot at the end; it takes one of
/// space.
pub fn insert_slot<O: Objects>(
    objects: &mut O,
    name: Oid,
    at: usize,
    value: Value,
) -> Result<(), Stop>
    ensures { Replaces (λ body. 1) name (with_slot_more at value) (O.seen objects.old) result
        (O.seen objects.new) }
{
    let Some(object) = objects.object(name) else {
        return Ok(());
    };
    let change = slot_inserted(&object.body, at, &value);
    let small = stays_small(objects, name, change);
    make_room(objects, small, 1)?;
    objects.insert_slot(name, at, value)
}

/// The slot at a place goes away. Where there is no such slot nothing changes.
pub fn remove_slot<O: Objects>(objects: &mut O, name: Oid, at: usize) -> Result<(), Stop>
    ensures { Replaces (λ body. 0) name (without_slot at) (O.seen objects.old) result
        (O.seen objects.new) }
{
    let Some(object) = objects.object(name) else {
        return Ok(());
    };
    let change = slot_removed(&object.body, at);
    let small = stays_small(objects, name, change);
    make_room(objects, small, 0)?;
    objects.remove_slot(name, at)
}

/// A byte comes at a place. Where there is no such place nothing changes.
pub fn replace_byte<O: Objects>(objects: &mut O, name: Oid, at: usize, byte: u8) -> Result<(), Stop>
    ensures { Replaces (λ body. 0) name (with_byte at byte) (O.seen objects.old) result
        (O.seen objects.new) }
{
    let change = Change::none();
    let small = stays_small(objects, name, change);
    make_room(objects, small, 0)?;
    objects.set_byte(name, at, byte)
}

/// A value comes at a key of a dictionary; a key that wasn't there takes two of space.
pub fn put_pair<O: Objects>(
    objects: &mut O,
    name: Oid,
    key: Value,
    value: Value,
) -> Result<(), Stop>
    ensures { Replaces (pair_growth key) name (with_value_at key value) (O.seen objects.old)
        result (O.seen objects.new) }
{
    let Some(object) = objects.object(name) else {
        return Ok(());
    };
    let growth = pair_growth(&object.body, &key);
    let change = pair_put(&object.body, &key, &value);
    let small = stays_small(objects, name, change);
    make_room(objects, small, growth)?;
    objects.put_at(name, key, value)
}

/// A key's pair goes away from a dictionary.
pub fn remove_pair<O: Objects>(objects: &mut O, name: Oid, key: &Value) -> Result<(), Stop>
    ensures { Replaces (λ body. 0) name (without_value_at key.now) (O.seen objects.old) result
        (O.seen objects.new) }
{
    let Some(object) = objects.object(name) else {
        return Ok(());
    };
    let change = pair_removed(&object.body, key);
    let small = stays_small(objects, name, change);
    make_room(objects, small, 0)?;
    objects.remove_at(name, key)
}

/// A body takes the place of the old one, and takes so much more space. The time is that of the
/// body's size. The methods of a class have to be such as it may have.
pub fn replace_body<O: Objects>(
    objects: &mut O,
    name: Oid,
    body: Body,
    growth: u64,
) -> Result<(), Stop>
    requires { methods_fit name body ≡ true }
    ensures { Replaces (λ old. growth) name (λ old. body) (O.seen objects.old) result
        (O.seen objects.new) }
{
    make_room(objects, is_small(&body), growth)?;
    objects.put(name, body)
}

/// A reduced-conflict object that was written is updated, and the update noted; it takes so much
/// more space. The error where the update is refused, and E17 where the object is above the limits
/// before the update or after it.
pub fn update<O: Objects>(
    objects: &mut O,
    name: Oid,
    change: Update,
    refusal: Fault,
    growth: u64,
) -> Result<(), Stop>
    ensures { Updates refusal growth name change (O.seen objects.old) result
        (O.seen objects.new) }
{
    let small = stays_small_updated(objects, name, &change, refusal)?;
    make_room(objects, small, growth)?;
    objects.note(name, change)
}

// Whether the object of this name is within the limits of objects after the change.
pub(crate) fn stays_small<O: Objects>(objects: &O, name: Oid, change: Change) -> bool
    ensures { TellsLimits change name (O.seen objects.now) result }
{
    objects.sound();
    let Some(object) = objects.object(name) else {
        return true;
    };
    let Some(bytes) = objects.stored_bytes(name) else {
        return true;
    };
    stays_within(change, object.body.slots(), bytes)
}

// E17 unless the object will be small enough, and then takes the space by which it grows (E15).
fn make_room<O: Objects>(objects: &mut O, is_small: bool, growth: u64) -> Result<(), Stop>
    ensures { Does (room_where is_small growth) (O.seen objects.old) result (O.seen objects.new) }
{
    if !is_small {
        return Err(Stop::Fails(Fault::ObjectTooLarge));
    }
    objects.room(growth)
}

// The space that a put at the key takes.
pub(crate) fn pair_growth(body: &Body, key: &Value) -> u64
    ensures { result ≡ pair_growth key.now body.now }
{
    match body.value_at(key) {
        Some(_) => 0,
        None => 2,
    }
}

// Whether the object of this name is within the limits before the update and after it; the error
// where the update is refused.
fn stays_small_updated<O: Objects>(
    objects: &O,
    name: Oid,
    update: &Update,
    refusal: Fault,
) -> Result<bool, Stop>
    ensures { (object : Contents) → object_at name (O.seen objects.now) ≡ Some object
        → Computes (limits_of_update refusal update.now object.body) result }
{
    let Some(object) = objects.object(name) else {
        return Ok(true);
    };
    let Some(change) = body_updated(&object.body, update) else {
        return Err(Stop::Fails(refusal));
    };
    let before = stays_small(objects, name, Change::none());
    let after = stays_small(objects, name, change);
    Ok(before && after)
}
