//! What the parts of a state do where a value comes at a key of a dictionary.
ghost use Rattle.std.specs.Prelude.{◌≡◌, None};
ghost use Rattle.std.specs.FinMap.{get};
ghost use Rattle.gem_object.specs.Edits.{with_value_at};
ghost use Rattle.object_programs.specs.Fixed.{fixed_by};
ghost use Rattle.object_programs.specs.Guard.{holds_of};
ghost use Rattle.object_programs.specs.Spelled.{is_nil};
ghost use Rattle.running_objects.specs.Seen.{object_at, IsSoundState};
ghost use Rattle.running_objects.specs.Acted.{Edited};
ghost use Rattle.plain_state.specs.Keys.{has_room_for, may_put};

use crate::edit::Edit;
use crate::parts::Parts;
use gem_object::{Body, Oid, Value};
use running_objects::Stop;

impl Parts {
    /// Puts a value at a key.
    pub(crate) fn put_at(&mut self, oid: Oid, key: Value, value: Value) -> Result<(), Stop>
        requires { IsSoundState self.old.seen }
        ensures edited { Edited oid (with_value_at key value) self.old.seen result self.new.seen }
        ensures absent { object_at oid self.old.seen ≡ None → self.new.seen ≡ self.old.seen }
    {
        if !self.has_pairs(oid) {
            return Ok(());
        }
        if self.may_put(oid, &key, &value) {
            self.change(oid, Edit::PutAt(key, value))?;
            return Ok(());
        }
        self.miss_both(&key, &value)?;
        Ok(())
    }

    /// Whether a written dictionary of this name may have this value at this key.
    fn may_put(&self, oid: Oid, key: &Value, value: &Value) -> bool
        ensures { result ≡ holds_of (λ object. may_put
            (fixed_by self.now.seen.setting self.now.seen.world) key.now value.now object.body)
            (get self.now.seen.world.changes oid) }
    {
        let Some(object) = self.shown.changed(oid.number()) else {
            return false;
        };
        self.may_enter(key)
            && self.may_enter(value)
            && !is_nil(key)
            && has_room_for(key, &object.body)
    }
}

fn is_nil(value: &Value) -> bool
    ensures { result ≡ is_nil value.now }
{
    match value {
        Value::Nil => true,
        _ => false,
    }
}

// Whether the dictionary has the key, or can count one more.
fn has_room_for(key: &Value, body: &Body) -> bool
    ensures { result ≡ has_room_for key.now body.now }
{
    match body {
        Body::Dict(pairs) => pairs.len() < u32::MAX as usize || body.value_at(key).is_some(),
        _ => false,
    }
}
