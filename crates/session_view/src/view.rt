//! The view: a plain state over one image.
ghost use Rattle.std.specs.Prelude.{◌≡◌, ◌≤◌, ◌<◌, ℕ, true, option_map, option_copied, IfOk, OnOk};
ghost use Rattle.gem_image.specs.Image.{contents_of};
ghost use Rattle.gem_record.specs.gem_world.World.{is_made};
ghost use Rattle.gem_record.specs.gem_world.Access.{right_at};
ghost use Rattle.object_programs.specs.Fixed.{fixed_by};
ghost use Rattle.object_programs.specs.Guard.{is_segment_at};
ghost use Rattle.object_programs.specs.Methods.{methods_fit};
ghost use Rattle.object_programs.specs.declared.limits.TheConstants.{COUNTER_LIMIT};
ghost use Rattle.running_objects.specs.Seen.{object_at, with_whole_budget};
ghost use Rattle.plain_state.specs.State.{begun, BeginsSound};
ghost use Rattle.plain_state.specs.Writes.{is_changeable, accepts_body, may_add};
ghost use Rattle.session_view.specs.Calls.{takes};

use gem_image::Image;
use gem_object::{Body, Object, Oid, Right};
use gem_update::Update;
use plain_state::PlainState;
use running_objects::{Objects, RunsChunks};
use std::alloc::{AllocError, Global};

/// The private view of a transaction over an image: what it looks at is touched, and what it
/// changes and makes stands beside the image, which stays as it is. It has a chunk's budget too, so
/// that chunks run on it (`Objects`).
#[derive(Drop)]
pub struct View {
    pub(crate) state: PlainState,
}

impl View {
    /// The view of a transaction of this user over an image, before anything is done. The names that
    /// it draws are of this serial, and the first of them has this counter.
    ///
    /// # Errors
    ///
    /// `AllocError` where the count of the image's owners is full.
    pub fn start(
        alloc: Global,
        image: Image,
        serial: u32,
        next: u32,
        user: Oid,
    ) -> Result<View, AllocError>
        requires { BeginsSound image image user serial next }
        ensures seen { IfOk result (λ view.
            view.state.seen ≡ begun image image user serial next) }
    {
        let place = image.share()?;
        Ok(View {
            state: PlainState::start(alloc, place, image, user, serial, next),
        })
    }

    /// Makes room, so that so many names can be touched for the first time without memory. A look
    /// touches at most three.
    ///
    /// # Errors
    ///
    /// `AllocError` where memory ran out. What is seen is as before.
    pub fn reserve(&mut self, touches: usize) -> Result<(), AllocError>
        ensures unchanged { self.new.state.seen ≡ self.old.state.seen }
        ensures made { OnOk result (touches ≤ self.new.state.spare) }
        ensures room { self.old.state.spare ≤ self.new.state.spare }
    {
        self.state.reserve(touches)
    }

    /// Begins a chunk: its budget is whole and its transcript empty. The objects stay as they are.
    /// It takes no memory.
    pub fn begin_chunk(&mut self)
        ensures begun { self.new.state.seen ≡ with_whole_budget self.old.state.seen }
    {
        self.state.begin_chunk();
    }

    /// What the chunk has written on the transcript so far, at most 65,536 bytes.
    pub fn transcript(&self) -> &[u8]
        ensures { result.now ≡ self.now.state.seen.budget.text }
    {
        self.state.transcript()
    }

    /// The object of this name, if there is one, as it is now. It takes no memory, asks for no
    /// right and touches nothing. What it says of the number of the last commit isn't claimed.
    pub fn peek(&self, oid: Oid) -> Option<&Object>
        ensures { option_map contents_of (option_copied result)
            ≡ object_at oid self.now.state.seen }
    {
        self.state.object(oid)
    }

    /// The user's right on the object of this name; none where there is no such object. It takes no
    /// memory, and touches nothing.
    pub fn right(&self, oid: Oid) -> Right
        ensures { result
            ≡ right_at oid self.now.state.seen.setting self.now.state.seen.world }
    {
        self.state.right(oid)
    }

    /// Whether the object of this name was made in the transaction. It takes no memory, and touches
    /// nothing.
    pub fn is_made(&self, oid: Oid) -> bool
        ensures { result ≡ is_made oid self.now.state.seen.setting self.now.state.seen.world }
    {
        self.state.is_made(oid)
    }

    /// The counter of the name that is drawn next, from 1 to 2^24. It takes no memory, and touches
    /// nothing.
    pub fn next_counter(&self) -> u32
        ensures { result ≡ self.now.state.seen.world.next }
    {
        self.state.next_counter()
    }

    /// Whether the object of this name is an ordinary one, or was made in the transaction. It takes
    /// no memory, and touches nothing.
    pub fn is_changeable(&self, oid: Oid) -> bool
        ensures { result ≡ is_changeable oid self.now.state.seen }
    {
        self.state.is_changeable(oid)
    }

    /// Whether there is a segment of this name. It takes no memory, and touches nothing.
    pub fn is_segment(&self, oid: Oid) -> bool
        ensures { result ≡ is_segment_at
            (fixed_by self.now.state.seen.setting self.now.state.seen.world) oid }
    {
        self.state.is_segment(oid)
    }

    /// Whether the object of this name may stand with this body: it is of the same kind, can be
    /// stored, and refers to objects that are there. It touches nothing.
    ///
    /// # Errors
    ///
    /// `AllocError` where no memory was found for a copy of the body.
    pub fn accepts_body(&self, oid: Oid, body: &Body) -> Result<bool, AllocError>
        requires { methods_fit oid body.now ≡ true }
        ensures { IfOk result (λ accepts.
            accepts ≡ accepts_body oid body.now self.now.state.seen) }
    {
        self.state.accepts_body(oid, body)
    }

    /// Whether the object of this name takes the update, and may then stand there. Its body is copied
    /// for that, and nothing is touched.
    ///
    /// # Errors
    ///
    /// `AllocError` where memory ran out.
    pub fn takes(&self, oid: Oid, update: &Update) -> Result<bool, AllocError>
        ensures { IfOk result (λ taken. taken ≡ takes oid update.now self.now.state.seen) }
    {
        match self.state.body_after(oid, update)? {
            Some(body) => self.state.accepts_body(oid, &body),
            None => Ok(false),
        }
    }

    /// Whether the object may be made where a name is left: it can be stored, and its class has
    /// such objects. It takes no memory, and touches nothing.
    pub fn may_add(&self, object: &Object) -> bool
        requires methods { (name : ℕ) → methods_fit name object.now.body ≡ true }
        requires name { self.now.state.seen.world.next < COUNTER_LIMIT }
        ensures { result ≡ may_add (contents_of object.now) self.now.state.seen }
    {
        self.state.may_add(object)
    }
}
