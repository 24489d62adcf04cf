//! Writes of whoever knows that they are allowed and fit. Each is one step: it touches what a write
//! touches, and then changes the object, or nothing.
ghost use Rattle.std.specs.Prelude.{◌≡◌, ◌≤◌, ◌<◌, OnOk, OnErr, IfOk};
ghost use Rattle.gem_image.specs.Image.{contents_of};
ghost use Rattle.gem_world.specs.World.{next_name};
ghost use Rattle.gem_world.specs.Changes.{with_body, in_segment, note};
ghost use Rattle.object_programs.specs.declared.limits.TheConstants.{COUNTER_LIMIT};
ghost use Rattle.running_objects.specs.Seen.{IsSoundState};
ghost use Rattle.plain_state.specs.Parts.{in_world, asked};
ghost use Rattle.plain_state.specs.Writes.{replaced, changed_to, moved_to, updated_to, added};

use crate::edit::Edit;
use crate::parts::Parts;
use gem_object::{Body, Object, Oid};
use gem_update::Update;
use std::alloc::AllocError;

impl Parts {
    // Puts a body in place of that of the object of this name, if there is one.
    fn replace_body(&mut self, oid: Oid, body: Body) -> Result<(), AllocError>
        ensures replaced { OnOk result
            (self.new.seen ≡ replaced oid (with_body body) self.old.seen) }
        ensures unchanged { OnErr result (self.new.seen ≡ self.old.seen) }
    {
        let Some(old) = self.look(oid) else {
            return Ok(());
        };
        let new = Object {
            class: old.class,
            segment: old.segment,
            changed: old.changed,
            body,
        };
        self.shown.put(oid.number(), new)
    }

    // Puts the object of this name, if there is one, into a segment.
    fn replace_segment(&mut self, oid: Oid, segment: Oid) -> Result<(), AllocError>
        ensures replaced { OnOk result
            (self.new.seen ≡ replaced oid (in_segment segment) self.old.seen) }
        ensures unchanged { OnErr result (self.new.seen ≡ self.old.seen) }
    {
        if self.shown.has(oid.number()) {
            return self.shown.edit(oid.number(), Edit::MoveTo(segment));
        }
        let Some(object) = self.shown.before(oid) else {
            return Ok(());
        };
        let mut copy = object.clone()?;
        copy.segment = segment;
        self.shown.put(oid.number(), copy)
    }

    // Puts a body in place of that of the object of this name, if there is one, and notes the
    // update that it comes by, unless the object was made here.
    #[tactic(auto, unfolding(gem_world::specs::Changes::note))]
    fn replace_noted(&mut self, oid: Oid, update: Update, body: Body) -> Result<(), AllocError>
        ensures replaced { OnOk result (self.new.seen ≡ replaced oid (with_body body)
            (in_world (note oid update self.old.seen.setting) self.old.seen)) }
        ensures unchanged { OnErr result (self.new.seen ≡ self.old.seen) }
    {
        if self.is_made(oid) {
            return self.replace_body(oid, body);
        }
        let count = self.updates.len();
        self.updates.push((oid, update))?;
        match self.replace_body(oid, body) {
            Ok(()) => Ok(()),
            Err(AllocError) => {
                self.updates.truncate(count);
                Err(AllocError)
            }
        }
    }

    /// Puts a body in place of that of an object.
    pub(crate) fn change_body(&mut self, oid: Oid, body: Body) -> Result<(), AllocError>
        requires { 3 ≤ self.old.spare }
        ensures changed { OnOk result (self.new.seen ≡ changed_to oid body self.old.seen) }
        ensures asked { OnErr result (self.new.seen ≡ asked oid self.old.seen) }
    {
        self.ask_within(oid);
        self.replace_body(oid, body)
    }

    /// Puts an object into a segment, which is read.
    pub(crate) fn change_segment(&mut self, oid: Oid, segment: Oid) -> Result<(), AllocError>
        requires { 6 ≤ self.old.spare }
        ensures changed { OnOk result (self.new.seen ≡ moved_to oid segment self.old.seen) }
        ensures asked { OnErr result
            (self.new.seen ≡ asked segment (asked oid self.old.seen)) }
    {
        self.ask_within(oid);
        self.ask_within(segment);
        self.replace_segment(oid, segment)
    }

    /// Puts a body in place of that of an object, and notes the update that it comes by, unless
    /// the object was made here.
    pub(crate) fn change_by(
        &mut self,
        oid: Oid,
        update: Update,
        body: Body,
    ) -> Result<(), AllocError>
        requires { 3 ≤ self.old.spare }
        ensures changed { OnOk result
            (self.new.seen ≡ updated_to oid update body self.old.seen) }
        ensures asked { OnErr result (self.new.seen ≡ asked oid self.old.seen) }
    {
        self.ask_within(oid);
        self.replace_noted(oid, update, body)
    }

    /// Makes an object; its name.
    pub(crate) fn add(&mut self, object: Object) -> Result<Oid, AllocError>
        requires sound { IsSoundState self.old.seen }
        requires name { self.old.seen.world.next < COUNTER_LIMIT }
        ensures name { IfOk result (λ oid.
            oid ≡ next_name self.old.seen.setting self.old.seen.world) }
        ensures added { OnOk result
            (self.new.seen ≡ added (contents_of object) self.old.seen) }
        ensures unchanged { OnErr result (self.new.seen ≡ self.old.seen) }
    {
        let oid = Oid::from_parts(self.serial, self.next);
        self.shown.put(oid.number(), object)?;
        self.next += 1;
        Ok(oid)
    }
}
