//! What a plain state gives beside the calls of programs: room for touches, and writes and makes in
//! one step.
ghost use Rattle.std.specs.Prelude.{◌≡◌, ◌≤◌, ◌<◌, ◌+◌, ℕ, true, Some, OnOk, OnErr, IfOk};
ghost use Rattle.gem_update.specs.Update.{updated};
ghost use Rattle.gem_image.specs.Image.{contents_of};
ghost use Rattle.gem_image.specs.Rights.{right_in};
ghost use Rattle.gem_world.specs.World.{shown_objects, next_name};
ghost use Rattle.gem_world.specs.Access.{a_read, a_write, right_at, is_allowed};
ghost use Rattle.object_programs.specs.Budget.{is_within_limits};
ghost use Rattle.object_programs.specs.Fixed.{fixed_by};
ghost use Rattle.object_programs.specs.Guard.{is_segment_at};
ghost use Rattle.object_programs.specs.Methods.{methods_fit};
ghost use Rattle.object_programs.specs.declared.limits.TheConstants.{COUNTER_LIMIT};
ghost use Rattle.plain_state.specs.Parts.{asked};
ghost use Rattle.plain_state.specs.Writes.{changed_to, moved_to, updated_to, added, IsWritable, is_changeable, accepts_body, body_after, may_add};

use crate::state::PlainState;
use gem_image::Image;
use gem_object::{Body, Object, Oid, Right};
use gem_update::{Update, UpdateFault, update_body};
use object_guard::{all_fit, fits, same_fixed};
use std::alloc::AllocError;
use std::slice;

impl PlainState {
    /// Makes room, so that so many names can be touched for the first time without memory. An
    /// access touches at most three.
    ///
    /// # Errors
    ///
    /// `AllocError` where memory ran out. What is seen is as before.
    pub fn reserve(&mut self, touches: usize) -> Result<(), AllocError>
        ensures unchanged { self.new.seen ≡ self.old.seen }
        ensures made { OnOk result (touches ≤ self.new.spare) }
        ensures room { self.old.spare ≤ self.new.spare }
    {
        self.parts.reserve(touches)
    }

    /// Touches what an access of the object of this name touches. It takes no memory.
    pub fn ask(&mut self, oid: Oid)
        requires { 3 ≤ self.old.spare }
        ensures asked { self.new.seen ≡ asked oid self.old.seen }
        ensures room { self.old.spare ≤ self.new.spare + 3 }
    {
        self.parts.ask_within(oid);
    }

    /// The user's right on the object of this name; none where there is no such object. It takes no
    /// memory, and touches nothing.
    pub fn right(&self, oid: Oid) -> Right
        ensures { result ≡ right_at oid self.now.seen.setting self.now.seen.world }
    {
        self.parts.right_on(oid)
    }

    /// The right that the segment of this name gives the user on the objects in it. It takes no
    /// memory, and touches nothing.
    pub fn right_in(&self, segment: Oid) -> Right
        ensures { result ≡ right_in (shown_objects self.now.seen.setting self.now.seen.world)
            self.now.seen.setting.user segment }
    {
        self.parts.right_in(segment)
    }

    /// Whether the user may read the object of this name. It takes no memory, and touches nothing.
    pub fn may_read(&self, oid: Oid) -> bool
        ensures { result ≡ is_allowed a_read oid self.now.seen.setting self.now.seen.world }
    {
        self.parts.may_read(oid)
    }

    /// Whether the user may write the object of this name. It takes no memory, and touches nothing.
    pub fn may_write(&self, oid: Oid) -> bool
        ensures { result ≡ is_allowed a_write oid self.now.seen.setting self.now.seen.world }
    {
        self.parts.may_write(oid)
    }

    /// The counter of the name that is drawn next, from 1 to 2^24.
    pub fn next_counter(&self) -> u32
        ensures { result ≡ self.now.seen.world.next }
    {
        self.parts.next
    }

    /// The counter of the first name that the transaction drew, or would have drawn.
    pub fn first_counter(&self) -> u32
        ensures { result ≡ self.now.seen.setting.first }
    {
        self.parts.first
    }

    /// The image of the view, once more. Nothing is copied.
    ///
    /// # Errors
    ///
    /// `AllocError` where the count of owners is full.
    pub fn view(&self) -> Result<Image, AllocError>
        ensures { IfOk result (λ image. image ≡ self.now.seen.setting.view) }
    {
        self.parts.shown.view().share()
    }

    /// Whether the object of this name is an ordinary one, or was made here. It takes no memory,
    /// and touches nothing.
    #[tactic(auto, unfolding(object_programs::specs::Guard::may_change))]
    pub fn is_changeable(&self, oid: Oid) -> bool
        ensures { result ≡ is_changeable oid self.now.seen }
    {
        match self.parts.look(oid) {
            Some(old) => self.parts.is_made(oid) || !old.body.is_shared(),
            None => false,
        }
    }

    /// Whether there is a segment of this name. It takes no memory, and touches nothing.
    pub fn is_segment(&self, oid: Oid) -> bool
        ensures { result
            ≡ is_segment_at (fixed_by self.now.seen.setting self.now.seen.world) oid }
    {
        self.parts.is_segment(oid)
    }

    /// Whether the object of this name may stand with this body: it is of the same kind, can be
    /// stored, and refers to objects that are there. It touches nothing.
    ///
    /// # Errors
    ///
    /// `AllocError` where no memory was found for a copy of the body.
    #[tactic(auto, unfolding(object_programs::specs::Guard::may_replace))]
    pub fn accepts_body(&self, oid: Oid, body: &Body) -> Result<bool, AllocError>
        requires { methods_fit oid body.now ≡ true }
        ensures { IfOk result (λ accepts. accepts ≡ accepts_body oid body.now self.now.seen) }
    {
        let Some(old) = self.parts.look(oid) else {
            return Ok(false);
        };
        let new = Object {
            class: old.class,
            segment: old.segment,
            changed: old.changed,
            body: body.clone()?,
        };
        Ok(same_fixed(old, &new) && fits(&self.parts, oid, &new))
    }

    /// The body that the object of this name has after an update, if there is one and it takes the
    /// update. The body is copied for that, and nothing is touched.
    ///
    /// # Errors
    ///
    /// `AllocError` where memory ran out.
    pub fn body_after(&self, oid: Oid, update: &Update) -> Result<Option<Body>, AllocError>
        ensures { IfOk result (λ body. body ≡ body_after oid update.now self.now.seen) }
    {
        let Some(object) = self.parts.look(oid) else {
            return Ok(None);
        };
        updated_body(&object.body, update)
    }

    /// Whether the object may be made where a name is left: it can be stored, and its class has
    /// such objects, which may refer to it by its name. It takes no memory, and touches nothing.
    #[tactic(auto, unfolding(object_programs::specs::Guard::may_make))]
    pub fn may_add(&self, object: &Object) -> bool
        requires methods { (name : ℕ) → methods_fit name object.now.body ≡ true }
        requires name { self.now.seen.world.next < COUNTER_LIMIT }
        ensures { result ≡ may_add (contents_of object.now) self.now.seen }
    {
        let first = Oid::from_parts(self.parts.serial, self.parts.next);
        all_fit(&self.parts, first, slice::from_ref(object))
    }

    /// Puts a body in place of that of an object, which is among the written ones from then on,
    /// unless it was made here. It touches what a write touches.
    ///
    /// # Errors
    ///
    /// `AllocError` where memory ran out. But for the touches all is as before.
    pub fn change_body(&mut self, oid: Oid, body: Body) -> Result<(), AllocError>
        requires room { 3 ≤ self.old.spare }
        requires allowed { IsWritable oid self.old.seen }
        requires changeable { is_changeable oid self.old.seen ≡ true }
        requires fits { accepts_body oid body self.old.seen ≡ true }
        ensures changed { OnOk result (self.new.seen ≡ changed_to oid body self.old.seen) }
        ensures asked { OnErr result (self.new.seen ≡ asked oid self.old.seen) }
    {
        self.parts.change_body(oid, body)
    }

    /// Puts an object into a segment. It touches what a write of the object and a read of the
    /// segment touch.
    ///
    /// # Errors
    ///
    /// `AllocError` where memory ran out. But for the touches all is as before.
    pub fn change_segment(&mut self, oid: Oid, segment: Oid) -> Result<(), AllocError>
        requires room { 6 ≤ self.old.spare }
        requires allowed { IsWritable oid self.old.seen }
        requires changeable { is_changeable oid self.old.seen ≡ true }
        requires segment { is_segment_at
            (fixed_by self.old.seen.setting self.old.seen.world) segment ≡ true }
        ensures changed { OnOk result (self.new.seen ≡ moved_to oid segment self.old.seen) }
        ensures asked { OnErr result
            (self.new.seen ≡ asked segment (asked oid self.old.seen)) }
    {
        self.parts.change_segment(oid, segment)
    }

    /// Gives a reduced-conflict object the body that it has after an update, and notes the update,
    /// unless the object was made here. It touches what a write touches: not the object itself,
    /// where place and view both have it.
    ///
    /// # Errors
    ///
    /// `AllocError` where memory ran out. But for the touches all is as before.
    pub fn change_by(&mut self, oid: Oid, update: Update, body: Body) -> Result<(), AllocError>
        requires room { 3 ≤ self.old.spare }
        requires allowed { IsWritable oid self.old.seen }
        requires update { body_after oid update self.old.seen ≡ Some body }
        requires fits { accepts_body oid body self.old.seen ≡ true }
        ensures changed { OnOk result
            (self.new.seen ≡ updated_to oid update body self.old.seen) }
        ensures asked { OnErr result (self.new.seen ≡ asked oid self.old.seen) }
    {
        self.parts.change_by(oid, update, body)
    }

    /// Makes an object; its name. It takes no space of the chunk's.
    ///
    /// # Errors
    ///
    /// `AllocError` where memory ran out. All is as before.
    pub fn add(&mut self, object: Object) -> Result<Oid, AllocError>
        requires name { self.old.seen.world.next < COUNTER_LIMIT }
        requires limits { is_within_limits (contents_of object) ≡ true }
        requires fits { may_add (contents_of object) self.old.seen ≡ true }
        ensures name { IfOk result (λ oid.
            oid ≡ next_name self.old.seen.setting self.old.seen.world) }
        ensures added { OnOk result
            (self.new.seen ≡ added (contents_of object) self.old.seen) }
        ensures unchanged { OnErr result (self.new.seen ≡ self.old.seen) }
    {
        self.parts.add(object)
    }
}

// The body after an update, if it takes it.
fn updated_body(body: &Body, update: &Update) -> Result<Option<Body>, AllocError>
    ensures { IfOk result (λ after. after ≡ updated update.now body.now) }
{
    let mut copy = body.clone()?;
    match update_body(&mut copy, update.clone()?) {
        Ok(()) => Ok(Some(copy)),
        Err(UpdateFault::Refused) => Ok(None),
        Err(UpdateFault::NoMemory) => Err(AllocError),
    }
}
