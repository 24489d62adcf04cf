//! Edits of one object.
ghost use Rattle.std.specs.Prelude.{◌≡◌, IfOk, IfSome, OnErr, OnOk};
ghost use Rattle.gem_object.specs.Edits.{plain_slots, body_bytes, with_slot, with_slot_more, without_slot, with_byte, with_value_at, without_value_at};
ghost use Rattle.body_growth.specs.Changes.{Changes};
ghost use Rattle.gem_image.specs.Image.{contents_of};
ghost use Rattle.plain_state.specs.Edit.{edited_by};

use body_growth::{Change, pair_put, pair_removed, slot_inserted, slot_removed, slot_replaced};
use gem_object::{Body, Object, Oid, Value};
use std::alloc::AllocError;

/// A change of one object.
#[derive(Debug, Drop)]
pub(crate) enum Edit {
    /// A slot more comes at a place, or at the end.
    InsertSlot(usize, Value),
    /// A slot goes away, where there is that slot.
    RemoveSlot(usize),
    /// A byte comes at a place, where there is that place.
    SetByte(usize, u8),
    /// A value comes at a key.
    PutAt(Value, Value),
    /// A key goes away.
    RemoveAt(Value),
    /// Another body comes.
    PutBody(Body),
    /// The object comes into a segment.
    MoveTo(Oid),
}

impl Edit {
    /// Edits the object; how its body changed, and None where another body came.
    ///
    /// # Errors
    ///
    /// `AllocError` where memory ran out. The object is as before.
    pub(crate) fn apply(self, object: &mut Object) -> Result<Option<Change>, AllocError>
        ensures edited { OnOk result
            (contents_of object.new ≡ edited_by self (contents_of object.old)) }
        ensures changed { IfOk result (λ told. IfSome told (λ change.
            Changes change object.old.body object.new.body)) }
        ensures unchanged { OnErr result (object.new ≡ object.old) }
    {
        match self {
            Edit::InsertSlot(at, value) => Ok(Some(insert_slot(&mut object.body, at, value)?)),
            Edit::RemoveSlot(at) => Ok(Some(remove_slot(&mut object.body, at))),
            Edit::SetByte(at, byte) => Ok(Some(set_byte(&mut object.body, at, byte))),
            Edit::PutAt(key, value) => Ok(Some(put_at(&mut object.body, key, value)?)),
            Edit::RemoveAt(key) => Ok(Some(remove_at(&mut object.body, &key))),
            Edit::PutBody(body) => {
                object.body = body;
                Ok(None)
            }
            Edit::MoveTo(segment) => {
                object.segment = segment;
                Ok(Some(Change::none()))
            }
        }
    }
}

/// A value comes into a slot, where there is that slot; how the body changed.
#[inline(always)]
pub(crate) fn set_slot(body: &mut Body, at: usize, value: Value) -> Change
    ensures set { body.new ≡ with_slot at value body.old }
    ensures changed { Changes result body.old body.new }
{
    let change = slot_replaced(body, at, &value);
    if at < body.plain_slots() {
        body.set_slot(at, value);
    }
    change
}

fn insert_slot(body: &mut Body, at: usize, value: Value) -> Result<Change, AllocError>
    ensures added { OnOk result (body.new ≡ with_slot_more at value body.old) }
    ensures changed { IfOk result (λ change. Changes change body.old body.new) }
    ensures unchanged { OnErr result (body.new ≡ body.old) }
{
    let at = at.min(body.plain_slots());
    let change = slot_inserted(body, at, &value);
    body.insert_slot(at, value)?;
    Ok(change)
}

fn remove_slot(body: &mut Body, at: usize) -> Change
    ensures removed { body.new ≡ without_slot at body.old }
    ensures changed { Changes result body.old body.new }
{
    let change = slot_removed(body, at);
    if at < body.plain_slots() {
        body.remove_slot(at);
    }
    change
}

fn set_byte(body: &mut Body, at: usize, byte: u8) -> Change
    ensures set { body.new ≡ with_byte at byte body.old }
    ensures changed { Changes result body.old body.new }
{
    if at < body.byte_count() {
        body.set_byte(at, byte);
    }
    Change::none()
}

fn put_at(body: &mut Body, key: Value, value: Value) -> Result<Change, AllocError>
    ensures put { OnOk result (body.new ≡ with_value_at key value body.old) }
    ensures changed { IfOk result (λ change. Changes change body.old body.new) }
    ensures unchanged { OnErr result (body.new ≡ body.old) }
{
    let change = pair_put(body, &key, &value);
    body.put_at(key, value)?;
    Ok(change)
}

fn remove_at(body: &mut Body, key: &Value) -> Change
    ensures removed { body.new ≡ without_value_at key.now body.old }
    ensures changed { Changes result body.old body.new }
{
    let change = pair_removed(body, key);
    body.remove_at(key);
    change
}
