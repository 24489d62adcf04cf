//! What the parts of a state do at edits in place.
ghost use Rattle.std.specs.Prelude.{◌≡◌, nat_lt, true, OnOk, OnErr, None};
ghost use Rattle.std.specs.FinMap.{get};
ghost use Rattle.std.specs.Result.{IfErr};
ghost use Rattle.gem_object.specs.Edits.{plain_slots, body_bytes, with_slot, with_slot_more, without_slot, with_byte, without_value_at};
ghost use Rattle.object_programs.specs.Fixed.{fixed_by};
ghost use Rattle.object_programs.specs.Guard.{holds_of};
ghost use Rattle.running_objects.specs.Seen.{object_at, IsSoundState};
ghost use Rattle.running_objects.specs.Acted.{Edited, EditedWithin};
ghost use Rattle.running_objects.specs.Fitting.{may_enter, is_known_value};
ghost use Rattle.plain_state.specs.Parts.{missed_value, edited_in, SameObjects};
ghost use Rattle.plain_state.specs.Edit.{edited_by, with_slot_put, takes_value};
ghost use Rattle.plain_state.specs.Classes.{slots_in, may_insert, has_pairs};
ghost use Rattle.plain_state.specs.declared.edit.Edit.TheVariants as edit;

use crate::classes::is_in_kernel;
use crate::edit::Edit;
use crate::parts::Parts;
use gem_object::{Body, Oid, Value};
use object_guard::is_storable;
use running_objects::Stop;
use std::alloc::AllocError;

impl Parts {
    /// Whether a written object of this name has this slot.
    fn has_slot(&self, oid: Oid, at: usize) -> bool
        ensures { result ≡ holds_of (λ object. nat_lt at (plain_slots object.body))
            (get self.now.seen.world.changes oid) }
    {
        match self.shown.changed(oid.number()) {
            Some(object) => at < object.body.plain_slots(),
            None => false,
        }
    }

    /// Whether the object is there to which the value refers, if it refers to one.
    #[inline(always)]
    pub(crate) fn knows(&self, value: &Value) -> bool
        ensures { result
            ≡ is_known_value (fixed_by self.now.seen.setting self.now.seen.world) value.now }
    {
        match value {
            Value::Ref(oid) => self.is_there(*oid),
            _ => true,
        }
    }

    /// Whether the value may come into a slot.
    #[inline(always)]
    pub(crate) fn may_enter(&self, value: &Value) -> bool
        ensures { result
            ≡ may_enter (fixed_by self.now.seen.setting self.now.seen.world) value.now }
    {
        self.knows(value) && is_storable(value)
    }

    /// Touches the name to which the value refers, where there is no object.
    #[inline(never)]
    pub(crate) fn miss_value(&mut self, value: &Value) -> Result<(), AllocError>
        ensures missed { OnOk result (self.new.seen ≡ missed_value value.now self.old.seen) }
        ensures unchanged { OnErr result (self.new.seen ≡ self.old.seen) }
    {
        let Value::Ref(oid) = value else {
            return Ok(());
        };
        if self.is_there(*oid) {
            return Ok(());
        }
        self.miss(*oid)
    }

    /// Touches the names to which the key and the value refer, where there is no object.
    pub(crate) fn miss_both(&mut self, key: &Value, value: &Value) -> Result<(), AllocError>
        ensures missed { OnOk result
            (self.new.seen ≡ missed_value value.now (missed_value key.now self.old.seen)) }
        ensures same { OnErr result (SameObjects self.old.seen self.new.seen) }
    {
        self.miss_value(key)?;
        self.miss_value(value)
    }

    /// Edits a written object.
    pub(crate) fn change(&mut self, oid: Oid, edit: Edit) -> Result<(), AllocError>
        ensures edited { OnOk result
            (self.new.seen ≡ edited_in oid (edited_by edit) self.old.seen) }
        ensures unchanged { OnErr result (self.new.seen ≡ self.old.seen) }
    {
        self.shown.edit(oid.number(), edit)
    }

    /// Puts a value in a slot.
    pub(crate) fn set_slot(&mut self, oid: Oid, at: usize, value: Value) -> Result<(), Stop>
        requires { IsSoundState self.old.seen }
        ensures edited { Edited oid (with_slot at value) self.old.seen result self.new.seen }
        ensures absent { object_at oid self.old.seen ≡ None → self.new.seen ≡ self.old.seen }
    {
        if self.may_enter(&value) {
            self.put_slot(oid, at, value);
            return Ok(());
        }
        if !self.has_slot(oid, at) {
            return Ok(());
        }
        self.miss_value(&value)?;
        Ok(())
    }

    // Puts a value in a slot of a written object, where there is that slot.
    #[inline(always)]
    fn put_slot(&mut self, oid: Oid, at: usize, value: Value)
        ensures { self.new.seen ≡ edited_in oid (with_slot_put at value) self.old.seen }
    {
        self.shown.put_slot(oid.number(), at, value);
    }

    /// Puts a value in a slot, where all is well with that. Else it gives the value back, and all is
    /// as before.
    #[inline(always)]
    pub(crate) fn set_slot_within(&mut self, oid: Oid, at: usize, value: Value) -> Result<(), Value>
        requires { IsSoundState self.old.seen }
        ensures put { OnOk result
            (EditedWithin oid (with_slot at value) self.old.seen self.new.seen) }
        ensures given { IfErr result (λ given. given ≡ value) }
        ensures unchanged { OnErr result (self.new.seen ≡ self.old.seen) }
    {
        if !self.may_enter(&value) {
            return Err(value);
        }
        self.put_slot_within(oid, at, value)
    }

    // Puts a value in a slot of a written object, where there is that slot and the object then is
    // within the limits of objects. Else it gives the value back.
    #[inline(always)]
    fn put_slot_within(&mut self, oid: Oid, at: usize, value: Value) -> Result<(), Value>
        ensures put { OnOk result
            (self.new.seen ≡ edited_in oid (with_slot_put at value) self.old.seen) }
        ensures takes { OnOk result
            (holds_of (takes_value at value) (get self.old.seen.world.changes oid) ≡ true) }
        ensures given { IfErr result (λ given. given ≡ value) }
        ensures unchanged { OnErr result (self.new.seen ≡ self.old.seen) }
    {
        self.shown.put_slot_within(oid.number(), at, value)
    }

    /// Whether a written object of this name has a byte at this place.
    fn has_byte(&self, oid: Oid, at: usize) -> bool
        ensures { result ≡ holds_of (λ object. nat_lt at (body_bytes object.body))
            (get self.now.seen.world.changes oid) }
    {
        match self.shown.changed(oid.number()) {
            Some(object) => at < object.body.byte_count(),
            None => false,
        }
    }

    /// Puts a byte at a place.
    pub(crate) fn set_byte(&mut self, oid: Oid, at: usize, byte: u8) -> Result<(), Stop>
        requires { IsSoundState self.old.seen }
        ensures edited { Edited oid (with_byte at byte) self.old.seen result self.new.seen }
        ensures absent { object_at oid self.old.seen ≡ None → self.new.seen ≡ self.old.seen }
    {
        if !self.has_byte(oid, at) {
            return Ok(());
        }
        if byte >= 128 {
            return Ok(());
        }
        self.change(oid, Edit::SetByte(at, byte))?;
        Ok(())
    }

    /// The class and the number of slots of a written object of this name, where it has slots.
    fn slots_at(&self, oid: Oid) -> Option<(Oid, usize)>
        ensures { result ≡ slots_in (get self.now.seen.world.changes oid) }
    {
        let object = self.shown.changed(oid.number())?;
        match &object.body {
            Body::Plain(values) => Some((object.class, values.len())),
            _ => None,
        }
    }

    /// Whether an object with so many slots may get one more, with this value.
    fn may_insert(&self, oid: Oid, class: Oid, count: usize, value: &Value) -> bool
        ensures { result ≡ may_insert (fixed_by self.now.seen.setting self.now.seen.world) oid
            class count value.now }
    {
        self.knows(value)
            && count < u32::MAX as usize
            && self.accepts_slots(class, count + 1)
            && (count > 0 || !is_in_kernel(oid))
            && is_storable(value)
    }

    /// Puts a slot at a place.
    pub(crate) fn insert_slot(&mut self, oid: Oid, at: usize, value: Value) -> Result<(), Stop>
        requires { IsSoundState self.old.seen }
        ensures edited { Edited oid (with_slot_more at value) self.old.seen result self.new.seen }
        ensures absent { object_at oid self.old.seen ≡ None → self.new.seen ≡ self.old.seen }
    {
        let Some(slots) = self.slots_at(oid) else {
            return Ok(());
        };
        if self.may_insert(oid, slots.0, slots.1, &value) {
            self.change(oid, Edit::InsertSlot(at, value))?;
            return Ok(());
        }
        self.miss_value(&value)?;
        Ok(())
    }

    /// Takes a slot away.
    pub(crate) fn remove_slot(&mut self, oid: Oid, at: usize) -> Result<(), Stop>
        requires { IsSoundState self.old.seen }
        ensures edited { Edited oid (without_slot at) self.old.seen result self.new.seen }
        ensures absent { object_at oid self.old.seen ≡ None → self.new.seen ≡ self.old.seen }
    {
        let Some(slots) = self.slots_at(oid) else {
            return Ok(());
        };
        if at >= slots.1 {
            return Ok(());
        }
        if !self.accepts_slots(slots.0, slots.1 - 1) {
            return Ok(());
        }
        self.change(oid, Edit::RemoveSlot(at))?;
        Ok(())
    }

    /// Whether there is a written dictionary of this name.
    pub(crate) fn has_pairs(&self, oid: Oid) -> bool
        ensures { result ≡ holds_of (λ object. has_pairs object.body)
            (get self.now.seen.world.changes oid) }
    {
        let Some(object) = self.shown.changed(oid.number()) else {
            return false;
        };
        match &object.body {
            Body::Dict(_) => true,
            _ => false,
        }
    }

    /// Takes a key's pair away.
    pub(crate) fn remove_at(&mut self, oid: Oid, key: &Value) -> Result<(), Stop>
        requires { IsSoundState self.old.seen }
        ensures edited { Edited oid (without_value_at key.now) self.old.seen result self.new.seen }
        ensures absent { object_at oid self.old.seen ≡ None → self.new.seen ≡ self.old.seen }
    {
        if !self.has_pairs(oid) {
            return Ok(());
        }
        let key = key.clone()?;
        self.change(oid, Edit::RemoveAt(key))?;
        Ok(())
    }
}
