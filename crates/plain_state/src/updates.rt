//! What the parts of a state do at updates of reduced-conflict objects.
ghost use Rattle.std.specs.Prelude.{◌≡◌, length, OnOk, OnErr, IfOk};
ghost use Rattle.std.specs.List.{list_all};
ghost use Rattle.gem_object.specs.Order.{value_order};
ghost use Rattle.gem_object.specs.declared.value.Value.{Value};
ghost use Rattle.gem_object.specs.rc_counter_bag.Bag.{with_one_more};
ghost use Rattle.gem_object.specs.rc_dict.Dict.{put as put_key};
ghost use Rattle.gem_image.specs.Image.{contents_of};
ghost use Rattle.gem_update.specs.Update.{fits_update};
ghost use Rattle.object_programs.specs.Atom.{Note};
ghost use Rattle.object_programs.specs.Fixed.{fixed_by};
ghost use Rattle.object_programs.specs.Guard.{holds_of};
ghost use Rattle.running_objects.specs.Seen.{IsSoundState, object_at};
ghost use Rattle.running_objects.specs.Acted.{Acted};
ghost use Rattle.running_objects.specs.Fitting.{may_enter, can_count};
ghost use Rattle.plain_state.specs.Parts.{SameObjects};
ghost use Rattle.plain_state.specs.Updates.{new_values, has_key, has_room, may_update, missed_update, takes, with_update, applied, applied_noted, after_allowed_update};

use crate::parts::Parts;
use gem_object::{Bag, BagUpdate, Body, DictUpdate, KeyDict, Object, Oid, QueueUpdate, Value};
use gem_update::laws::spelling_stays;
use gem_update::{Update, UpdateFault, update_body};
use running_objects::Stop;
use sorted_pairs::place;
use std::alloc::AllocError;

/// The pairs or items that are counted at most where they are stored.
const COUNT_LIMIT: u64 = u32::MAX as u64;

impl Parts {
    /// Updates a reduced-conflict object, where the user may write it.
    pub(crate) fn note(&mut self, oid: Oid, update: Update) -> Result<(), Stop>
        requires { IsSoundState self.old.seen }
        ensures { Acted (Note oid update) self.old.seen result self.new.seen }
    {
        let allowed = self.may_write(oid);
        self.ask(oid)?;
        if !allowed {
            return Ok(());
        }
        self.update(oid, update)?;
        Ok(())
    }

    // Updates the object of this name, if it takes the update and may then stand.
    fn update(&mut self, oid: Oid, update: Update) -> Result<(), AllocError>
        requires { IsSoundState self.old.seen }
        ensures updated { OnOk result
            (self.new.seen ≡ after_allowed_update oid update self.old.seen) }
        ensures same { OnErr result (SameObjects self.old.seen self.new.seen) }
    {
        spelling_stays();
        if !self.fits_update(oid, &update) {
            return Ok(());
        }
        if !self.may_update(oid, &update) {
            return self.miss_update(&update);
        }
        if self.is_made(oid) {
            self.apply(oid, update)?;
            return Ok(());
        }
        self.apply_noted(oid, update)
    }

    // Whether there is an object of this name whose class has such updates.
    fn fits_update(&self, oid: Oid, update: &Update) -> bool
        ensures { result ≡ holds_of (λ object. fits_update update.now object.body)
            (object_at oid self.now.seen) }
    {
        match self.look(oid) {
            Some(object) => fits_update(update, &object.body),
            None => false,
        }
    }

    // Whether the object of this name may stand with the update.
    fn may_update(&self, oid: Oid, update: &Update) -> bool
        ensures { result ≡ holds_of (λ object. may_update
            (fixed_by self.now.seen.setting self.now.seen.world) update.now object.body)
            (object_at oid self.now.seen) }
    {
        let Some(object) = self.look(oid) else {
            return false;
        };
        self.may_bring(update) && has_key(update) && has_room(update, &object.body)
    }

    // Whether the values that the update brings may come into an object.
    fn may_bring(&self, update: &Update) -> bool
        ensures { result ≡ list_all (may_enter (fixed_by self.now.seen.setting self.now.seen.world))
            (new_values update.now) }
    {
        match update {
            Update::Bag(BagUpdate::Add(item)) => self.may_enter(item),
            Update::RcDict(DictUpdate::Put(key, value)) => {
                self.may_enter(key) && self.may_enter(value)
            }
            Update::Queue(QueueUpdate::Add(item)) => self.may_enter(item),
            _ => true,
        }
    }

    // Touches the names to which the update's new values refer, where there is no object.
    fn miss_update(&mut self, update: &Update) -> Result<(), AllocError>
        ensures missed { OnOk result (self.new.seen ≡ missed_update update.now self.old.seen) }
        ensures same { OnErr result (SameObjects self.old.seen self.new.seen) }
    {
        match update {
            Update::Bag(BagUpdate::Add(item)) => self.miss_value(item),
            Update::RcDict(DictUpdate::Put(key, value)) => self.miss_both(key, value),
            Update::Queue(QueueUpdate::Add(item)) => self.miss_value(item),
            _ => Ok(()),
        }
    }

    // Updates the object of this name, and notes the update; neither where the object doesn't
    // take it.
    fn apply_noted(&mut self, oid: Oid, update: Update) -> Result<(), AllocError>
        ensures updated { OnOk result (self.new.seen ≡ applied_noted oid update self.old.seen) }
        ensures unchanged { OnErr result (self.new.seen ≡ self.old.seen) }
    {
        let count = self.updates.len();
        let copy = update.clone()?;
        self.updates.push((oid, copy))?;
        match self.apply(oid, update) {
            Ok(true) => Ok(()),
            Ok(false) => {
                self.updates.truncate(count);
                Ok(())
            }
            Err(AllocError) => {
                self.updates.truncate(count);
                Err(AllocError)
            }
        }
    }

    // Updates the object of this name; whether it took the update.
    fn apply(&mut self, oid: Oid, update: Update) -> Result<bool, AllocError>
        ensures taken { IfOk result (λ taken.
            taken ≡ holds_of (takes update) (object_at oid self.old.seen)) }
        ensures applied { OnOk result (self.new.seen ≡ applied oid update self.old.seen) }
        ensures unchanged { OnErr result (self.new.seen ≡ self.old.seen) }
    {
        if self.shown.has(oid.number()) {
            return self.shown.update(oid.number(), update);
        }
        let Some(object) = self.shown.before(oid) else {
            return Ok(false);
        };
        let mut copy = object.clone()?;
        if !take_update(&mut copy, update)? {
            return Ok(false);
        }
        self.shown.put(oid.number(), copy)?;
        Ok(true)
    }
}

/// Updates the object; whether it took the update. Where memory ran out the object is as before.
pub(crate) fn take_update(object: &mut Object, update: Update) -> Result<bool, AllocError>
    ensures taken { IfOk result (λ taken. taken ≡ takes update (contents_of object.old)) }
    ensures updated { OnOk result
        (contents_of object.new ≡ with_update update (contents_of object.old)) }
    ensures unchanged { OnErr result (object.new ≡ object.old) }
{
    match update_body(&mut object.body, update) {
        Ok(()) => Ok(true),
        Err(UpdateFault::Refused) => Ok(false),
        Err(UpdateFault::NoMemory) => Err(AllocError),
    }
}

// Whether the body's class has such updates.
fn fits_update(update: &Update, body: &Body) -> bool
    ensures { result ≡ fits_update update.now body.now }
{
    match (update, body) {
        (Update::Counter(_), Body::Counter(_)) => true,
        (Update::Bag(_), Body::Bag(_)) => true,
        (Update::RcDict(_), Body::RcDict(_)) => true,
        (Update::Queue(_), Body::Queue(_)) => true,
        _ => false,
    }
}

// Whether the key that the update brings, if it does, may be one.
fn has_key(update: &Update) -> bool
    ensures { result ≡ has_key update.now }
{
    match update {
        Update::RcDict(DictUpdate::Put(key, _)) => key.is_key(),
        _ => true,
    }
}

// Whether the pairs or items can be counted after an update that may add one.
fn has_room(update: &Update, body: &Body) -> bool
    ensures { result ≡ has_room update.now body.now }
{
    match (update, body) {
        (Update::Bag(BagUpdate::Add(item)), Body::Bag(bag)) => has_room_in_bag(item, bag),
        (Update::RcDict(DictUpdate::Put(key, _)), Body::RcDict(dict)) => {
            has_room_in_dict(key, dict)
        }
        (Update::Queue(QueueUpdate::Add(_)), Body::Queue(queue)) => queue.size() < COUNT_LIMIT,
        _ => true,
    }
}

// Whether the items can be counted with this one.
fn has_room_in_bag(item: &Value, bag: &Bag<Value>) -> bool
    ensures { result ≡ can_count (length (with_one_more value_order item.now bag.now)) }
{
    let pairs = bag.pairs();
    match place(pairs, item) {
        Ok(_) => pairs.len() as u64 <= COUNT_LIMIT,
        Err(_) => (pairs.len() as u64) < COUNT_LIMIT,
    }
}

// Whether the pairs can be counted with one of this key, whatever its value.
fn has_room_in_dict(key: &Value, dict: &KeyDict<Value, Value>) -> bool
    ensures { (value : Value)
        → result ≡ can_count (length (put_key value_order key.now value dict.now)) }
{
    let pairs = dict.pairs();
    match place(pairs, key) {
        Ok(_) => pairs.len() as u64 <= COUNT_LIMIT,
        Err(_) => (pairs.len() as u64) < COUNT_LIMIT,
    }
}
