//! What a view does: looks, changes, moves, makes and updates. A call touches what an access
//! touches, and then it is refused, or done.
ghost use Rattle.std.specs.Prelude.{◌≡◌, ◌≤◌, ◌<◌, ◌+◌, true, IfOk};
ghost use Rattle.gem_record.specs.gem_world.World.{next_name};
ghost use Rattle.object_programs.specs.Fixed.{fixed_by};
ghost use Rattle.object_programs.specs.Guard.{is_segment_at};
ghost use Rattle.object_programs.specs.declared.limits.TheConstants.{COUNTER_LIMIT};
ghost use Rattle.plain_state.specs.Parts.{asked};
ghost use Rattle.plain_state.specs.Writes.{changed_to, moved_to, added, is_changeable, accepts_body, may_add};
ghost use Rattle.session_view.specs.Calls.{EndsBy, fault_in, look_fault, change_due, move_due, make_due, update_due, updated, is_large_at, is_shared_at, takes};

use crate::fault::ViewFault;
use crate::view::View;
use gem_object::{Body, Object, Oid, may_write};
use gem_update::Update;
use object_programs::{COUNTER_LIMIT, is_small};
use running_objects::Objects;

impl View {
    /// Looks at an ordinary object, or at one that was made in the transaction, which is then asked
    /// for by `peek`. It touches the object, its segment and the user's profile, but for what was
    /// made in the transaction, and takes no memory.
    ///
    /// # Errors
    ///
    /// `NoRead` where the user may not read the object.
    pub fn look(&mut self, oid: Oid) -> Result<(), ViewFault>
        requires room { 3 ≤ self.old.state.spare }
        requires changeable { is_changeable oid self.old.state.seen ≡ true }
        ensures fault { fault_in result ≡ look_fault oid self.old.state.seen }
        ensures seen { self.new.state.seen ≡ asked oid self.old.state.seen }
        ensures room { self.old.state.spare ≤ self.new.state.spare + 3 }
    {
        self.read(oid)
    }

    /// Looks at a reduced-conflict object, which is then asked for by `peek`. It touches the
    /// object's segment and the user's profile, but never an object of the image that is a
    /// reduced-conflict one, and takes no memory.
    ///
    /// # Errors
    ///
    /// `NoRead` where the user may not read the object.
    pub fn rc_look(&mut self, oid: Oid) -> Result<(), ViewFault>
        requires room { 3 ≤ self.old.state.spare }
        requires shared { is_shared_at oid self.old.state.seen ≡ true }
        ensures fault { fault_in result ≡ look_fault oid self.old.state.seen }
        ensures seen { self.new.state.seen ≡ asked oid self.old.state.seen }
        ensures room { self.old.state.spare ≤ self.new.state.spare + 3 }
    {
        self.read(oid)
    }
}

impl View {
    // Looks at an object.
    fn read(&mut self, oid: Oid) -> Result<(), ViewFault>
        requires { 3 ≤ self.old.state.spare }
        ensures fault { fault_in result ≡ look_fault oid self.old.state.seen }
        ensures seen { self.new.state.seen ≡ asked oid self.old.state.seen }
        ensures room { self.old.state.spare ≤ self.new.state.spare + 3 }
    {
        let allowed = self.state.may_read(oid);
        self.state.ask(oid);
        if allowed {
            Ok(())
        } else {
            Err(ViewFault::NoRead(oid))
        }
    }

    /// Puts a body in place of that of an ordinary object, or of one that was made in the
    /// transaction.
    ///
    /// # Errors
    ///
    /// `NoWrite` where the user may not write the object, and then `TooLarge`; `NoMemory` where
    /// memory ran out.
    pub fn change(&mut self, oid: Oid, body: Body) -> Result<(), ViewFault>
        requires changeable { is_changeable oid self.old.state.seen ≡ true }
        requires fits { accepts_body oid body self.old.state.seen ≡ true }
        ensures ends { EndsBy (change_due oid body self.old.state.seen) self.old.state.seen
            (asked oid self.old.state.seen) (changed_to oid body self.old.state.seen) result
            self.new.state.seen }
    {
        self.state.reserve(3)?;
        if !self.state.may_write(oid) {
            self.state.ask(oid);
            return Err(ViewFault::NoWrite(oid));
        }
        if !is_small(&body) {
            self.state.ask(oid);
            return Err(ViewFault::TooLarge);
        }
        self.state.change_body(oid, body)?;
        Ok(())
    }

    /// Puts an ordinary object, or one that was made in the transaction, into a segment, which is
    /// read.
    ///
    /// # Errors
    ///
    /// `NoWrite` of the object where the user may not write it, and then of the segment where that
    /// gives the user less than Write on the objects in it; `NoMemory` where memory ran out.
    pub fn move_to(&mut self, oid: Oid, segment: Oid) -> Result<(), ViewFault>
        requires changeable { is_changeable oid self.old.state.seen ≡ true }
        requires segment { is_segment_at
            (fixed_by self.old.state.seen.setting self.old.state.seen.world) segment ≡ true }
        ensures ends { EndsBy (move_due oid segment self.old.state.seen) self.old.state.seen
            (asked segment (asked oid self.old.state.seen))
            (moved_to oid segment self.old.state.seen) result self.new.state.seen }
    {
        self.state.reserve(6)?;
        if !self.state.may_write(oid) {
            self.state.ask(oid);
            return Err(ViewFault::NoWrite(oid));
        }
        if !may_write(self.state.right_in(segment)) {
            self.state.ask(oid);
            self.state.ask(segment);
            return Err(ViewFault::NoWrite(segment));
        }
        self.state.change_segment(oid, segment)?;
        Ok(())
    }

    /// Makes an object; its name. It touches nothing, and takes no space of the chunk's.
    ///
    /// # Errors
    ///
    /// `TooLarge`, and then `NamesUsed` where no name is left; `NoMemory` where memory ran out.
    pub fn make(&mut self, class: Oid, segment: Oid, body: Body) -> Result<Oid, ViewFault>
        requires fits { self.old.state.seen.world.next < COUNTER_LIMIT
            → may_add (record { class = class; segment = segment; body = body })
            self.old.state.seen ≡ true }
        ensures ends { EndsBy (make_due body self.old.state.seen) self.old.state.seen
            self.old.state.seen
            (added (record { class = class; segment = segment; body = body })
            self.old.state.seen) result self.new.state.seen }
        ensures name { IfOk result (λ oid.
            oid ≡ next_name self.old.state.seen.setting self.old.state.seen.world) }
    {
        if !is_small(&body) {
            return Err(ViewFault::TooLarge);
        }
        if self.state.next_counter() as u64 >= COUNTER_LIMIT {
            return Err(ViewFault::NamesUsed);
        }
        let object = Object {
            class,
            segment,
            changed: 0,
            body,
        };
        Ok(self.state.add(object)?)
    }

    /// Updates a reduced-conflict object, and notes the update, unless the object was made in the
    /// transaction. The object itself isn't touched where it is in the image. Its body is copied.
    ///
    /// # Errors
    ///
    /// `NoWrite` where the user may not write the object, and then `TooLarge` where it is above the
    /// limits of objects or would be; `NoMemory` where memory ran out.
    pub fn rc_update(&mut self, oid: Oid, update: Update) -> Result<(), ViewFault>
        requires { takes oid update self.old.state.seen ≡ true }
        ensures ends { EndsBy (update_due oid update self.old.state.seen) self.old.state.seen
            (asked oid self.old.state.seen) (updated oid update self.old.state.seen) result
            self.new.state.seen }
    {
        self.state.reserve(3)?;
        if !self.state.may_write(oid) {
            self.state.ask(oid);
            return Err(ViewFault::NoWrite(oid));
        }
        if self.is_large(oid) {
            self.state.ask(oid);
            return Err(ViewFault::TooLarge);
        }
        let Some(body) = self.state.body_after(oid, &update)? else {
            unreachable!()
        };
        if !is_small(&body) {
            self.state.ask(oid);
            return Err(ViewFault::TooLarge);
        }
        self.state.change_by(oid, update, body)?;
        Ok(())
    }

    // Whether the object of this name is above the limits of objects, as merges may leave it.
    fn is_large(&self, oid: Oid) -> bool
        ensures { result ≡ is_large_at oid self.now.state.seen }
    {
        match self.state.object(oid) {
            Some(object) => !is_small(&object.body),
            None => false,
        }
    }
}
