//! An object that a transaction has changed, with its bytes.
ghost use Rattle.std.specs.Prelude.{◌≡◌, ◌<◌, true, IfOk, IfSome, OnErr, OnOk};
ghost use Rattle.gem_object.specs.Edits.{plain_slots};
ghost use Rattle.gem_object.specs.Slots.{slots_of};
ghost use Rattle.std.specs.Result.{IfErr};
ghost use Rattle.body_growth.specs.Changes.{Changes, bytes_of};
ghost use Rattle.gem_object.specs.declared.body.Body.{Body};
ghost use Rattle.gem_image.specs.Image.{contents_of};
ghost use Rattle.plain_state.specs.Edit.{edited_by, with_slot_put, takes_value};
ghost use Rattle.plain_state.specs.Updates.{takes, with_update};

use crate::edit::{Edit, set_slot};
use crate::updates::take_update;
use body_growth::{Change, body_updated, slot_replaced};
use gem_object::{Body, Object, Value};
use gem_update::Update;
use running_objects::is_small_with;
use std::alloc::AllocError;
use std::marker::Model;

/// An object, and the bytes that the fields of its body take where it is stored. Contracts see the
/// object.
#[derive(Drop)]
pub(crate) struct Entry {
    object: Object,
    bytes: u64,
}

impl Model for Entry {
    ghost use Rattle.std.specs.Prelude.{◌≡◌};
    ghost use Rattle.gem_object.specs.contracts.object.Object as objects;
    ghost use Rattle.gem_object.specs.declared.object.Object.{Object};
    ghost use Rattle.body_growth.specs.Changes.{bytes_of};

    ghost Value = { Object };

    ghost coded = { objects.the_row.coded };

    ghost view = { λ entry. entry.object };

    ghost invariant = { λ entry. entry.bytes ≡ bytes_of entry.object.body };
}

impl Entry {
    /// Counts the bytes of the object.
    pub(crate) fn new(object: Object) -> Entry
        ensures { result ≡ object }
    {
        Entry {
            bytes: object.body.size(),
            object,
        }
    }

    /// The object.
    pub(crate) fn object(&self) -> &Object
        ensures { result.now ≡ self.now }
    {
        &self.object
    }

    /// The bytes that the fields of the object's body take where it is stored. The number stays at
    /// 2^64 - 1 once it is there. It is known without a look at the contents.
    pub(crate) fn stored_bytes(&self) -> u64
        ensures { result ≡ bytes_of self.now.body }
    {
        self.bytes
    }

    /// Edits the object. The bytes are known from the place that is edited.
    ///
    /// # Errors
    ///
    /// `AllocError` where memory ran out. The object is as before.
    pub(crate) fn edit(&mut self, edit: Edit) -> Result<(), AllocError>
        ensures edited { OnOk result
            (contents_of self.new ≡ edited_by edit (contents_of self.old)) }
        ensures unchanged { OnErr result (self.new ≡ self.old) }
    {
        let told = edit.apply(&mut self.object)?;
        self.bytes = bytes_after(told, self.bytes, &self.object.body);
        Ok(())
    }

    /// Puts a value into a slot, where there is that slot. The bytes are known from the slot.
    #[inline(always)]
    pub(crate) fn put_slot(&mut self, at: usize, value: Value)
        ensures { contents_of self.new ≡ with_slot_put at value (contents_of self.old) }
    {
        let change = set_slot(&mut self.object.body, at, value);
        self.bytes = bytes_after(Some(change), self.bytes, &self.object.body);
    }

    /// Puts a value into a slot, where there is that slot and the object then is within the limits
    /// of objects. Else it gives the value back, and all is as before.
    #[inline(always)]
    pub(crate) fn put_slot_within(&mut self, at: usize, value: Value) -> Result<(), Value>
        ensures put { OnOk result
            (contents_of self.new ≡ with_slot_put at value (contents_of self.old)) }
        ensures takes { OnOk result (takes_value at value (contents_of self.old) ≡ true) }
        ensures given { IfErr result (λ given. given ≡ value) }
        ensures unchanged { OnErr result (self.new ≡ self.old) }
    {
        let body = &self.object.body;
        let Some(slots) = slots_with(body, at) else {
            return Err(value);
        };
        if self.bytes == u64::MAX {
            return Err(value);
        }
        let change = slot_replaced(body, at, &value);
        let bytes = change.bytes_after(self.bytes);
        if !is_small_with(change.slots_after(slots), bytes) {
            return Err(value);
        }
        self.object.body.set_slot(at, value);
        self.bytes = bytes;
        Ok(())
    }

    /// Updates the object; whether it took the update. The bytes are known from what the update
    /// changes.
    ///
    /// # Errors
    ///
    /// `AllocError` where memory ran out. The object is as before.
    pub(crate) fn update(&mut self, update: Update) -> Result<bool, AllocError>
        ensures taken { IfOk result (λ taken. taken ≡ takes update (contents_of self.old)) }
        ensures updated { OnOk result
            (contents_of self.new ≡ with_update update (contents_of self.old)) }
        ensures unchanged { OnErr result (self.new ≡ self.old) }
    {
        let Some(change) = body_updated(&self.object.body, &update) else {
            return Ok(false);
        };
        let taken = take_update(&mut self.object, update)?;
        self.bytes = bytes_after(Some(change), self.bytes, &self.object.body);
        Ok(taken)
    }
}

// The bytes of the body after a change, where they were so many before. They are counted where
// another body came, and where their number stood at 2^64 - 1.
#[inline(always)]
fn bytes_after(told: Option<Change>, bytes: u64, body: &Body) -> u64
    ensures { (old : Body) → IfSome told (λ change. Changes change old body.now)
        → bytes ≡ bytes_of old → result ≡ bytes_of body.now }
{
    let Some(change) = told else {
        return body.size();
    };
    if bytes == u64::MAX {
        return body.size();
    }
    change.bytes_after(bytes)
}

// How many slots the body has, where the one at this place is among them.
#[inline(always)]
fn slots_with(body: &Body, at: usize) -> Option<u64>
    ensures slots { IfSome result (λ slots. slots ≡ slots_of body.now) }
    ensures within { IfSome result (λ _. at < plain_slots body.now) }
{
    match body {
        Body::Plain(values) if at < values.len() => Some(values.len() as u64),
        _ => None,
    }
}
