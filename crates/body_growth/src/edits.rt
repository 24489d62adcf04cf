//! How an edit of one place changes a body. All take constant time but for the search of a key.
ghost use Rattle.std.specs.Prelude.{◌≡◌, option_copied};
ghost use Rattle.gem_object.specs.Edits.{slot_at, with_slot, with_slot_more, with_value_at, without_slot, without_value_at};
ghost use Rattle.gem_object.specs.Sizes.{pair_size};
ghost use Rattle.body_growth.specs.Changes.{Changes, counted};

use crate::change::Change;
use gem_object::{Body, Value};

// What the slot at a place of a Plain body holds.
#[inline(always)]
fn slot(body: &Body, at: usize) -> Option<&Value>
    ensures { option_copied result ≡ slot_at at body.now }
{
    match body {
        Body::Plain(values) => values.as_slice().get(at),
        _ => None,
    }
}

/// A value comes into a slot. Where there is no such slot nothing changes.
#[inline(always)]
pub fn slot_replaced(body: &Body, at: usize, value: &Value) -> Change
    ensures { Changes result body.now (with_slot at value.now body.now) }
{
    let Some(old) = slot(body, at) else {
        return Change::none();
    };
    Change {
        slots_freed: 0,
        slots_taken: 0,
        bytes_freed: old.stored_bytes(),
        bytes_taken: value.stored_bytes(),
    }
}

/// A slot with this value comes at a place of a Plain body. A body of another kind stays as it is.
pub fn slot_inserted(body: &Body, at: usize, value: &Value) -> Change
    ensures { Changes result body.now (with_slot_more at value.now body.now) }
{
    match body {
        Body::Plain(_) => Change {
            slots_freed: 0,
            slots_taken: 1,
            bytes_freed: 0,
            bytes_taken: value.stored_bytes(),
        },
        _ => Change::none(),
    }
}

/// The slot at a place goes away. Where there is no such slot nothing changes.
pub fn slot_removed(body: &Body, at: usize) -> Change
    ensures { Changes result body.now (without_slot at body.now) }
{
    let Some(old) = slot(body, at) else {
        return Change::none();
    };
    Change {
        slots_freed: 1,
        slots_taken: 0,
        bytes_freed: old.stored_bytes(),
        bytes_taken: 0,
    }
}

/// The bytes of a key and a value.
pub(crate) fn pair_bytes(key: &Value, value: &Value) -> u64
    ensures { result ≡ counted (pair_size (key.now, value.now)) }
{
    key.stored_bytes().saturating_add(value.stored_bytes())
}

/// A value comes at a key of a Dict body: a key that is there keeps its place, and a new one comes
/// last. A body of another kind stays as it is.
pub fn pair_put(body: &Body, key: &Value, value: &Value) -> Change
    ensures { Changes result body.now (with_value_at key.now value.now body.now) }
{
    let Body::Dict(_) = body else {
        return Change::none();
    };
    match body.value_at(key) {
        Some(old) => Change {
            slots_freed: 0,
            slots_taken: 0,
            bytes_freed: old.stored_bytes(),
            bytes_taken: value.stored_bytes(),
        },
        None => Change {
            slots_freed: 0,
            slots_taken: 2,
            bytes_freed: 0,
            bytes_taken: pair_bytes(key, value),
        },
    }
}

/// A key's pair goes away from a Dict body. Where there is no such key nothing changes.
pub fn pair_removed(body: &Body, key: &Value) -> Change
    ensures { Changes result body.now (without_value_at key.now body.now) }
{
    let Some(old) = body.value_at(key) else {
        return Change::none();
    };
    Change {
        slots_freed: 2,
        slots_taken: 0,
        bytes_freed: pair_bytes(key, old),
        bytes_taken: 0,
    }
}
