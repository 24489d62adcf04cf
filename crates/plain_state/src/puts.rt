//! What the parts of a state do where a body is put in place of another.
ghost use Rattle.std.specs.Prelude.{◌≡◌, ◌<◌, ◌≤◌, ◌+◌, ◌^◌, ◌&&◌, true, length, fold, option_map, OnOk, OnErr};
ghost use Rattle.std.specs.FinMap.{get};
ghost use Rattle.gem_image.specs.Image.{contents_of};
ghost use Rattle.gem_world.specs.World.{with_name};
ghost use Rattle.gem_world.specs.Changes.{with_body};
ghost use Rattle.object_programs.specs.Atom.{Put};
ghost use Rattle.object_programs.specs.Guard.{holds_of, may_change, may_replace};
ghost use Rattle.object_programs.specs.Methods.{methods_fit};
ghost use Rattle.running_objects.specs.Seen.{IsSoundState};
ghost use Rattle.running_objects.specs.Acted.{Acted};
ghost use Rattle.plain_state.specs.Parts.{SameObjects};
ghost use Rattle.plain_state.specs.Puts.{missed_all, lacked};

use crate::edit::Edit;
use crate::parts::Parts;
use gem_object::{Body, Object, Oid};
use indexmap::IndexSet;
use object_guard::{fits, missing_names, same_fixed};
use running_objects::Stop;
use std::alloc::AllocError;
use std::slice;

impl Parts {
    /// The written object of this name with another body.
    fn with_body(&self, oid: Oid, body: Body) -> Option<Object>
        ensures object { option_map contents_of result
            ≡ option_map (with_body body) (get self.now.seen.world.changes oid) }
        ensures name { oid < 2 ^ 48 }
    {
        let old = self.shown.changed(oid.number())?;
        Some(Object {
            class: old.class,
            segment: old.segment,
            changed: old.changed,
            body,
        })
    }

    /// Whether this object may take the place of a written one of this name.
    #[tactic(auto, unfolding(object_programs::specs::Guard::may_change, object_programs::specs::Guard::may_replace))]
    fn may_put_body(&self, oid: Oid, new: &Object) -> bool
        requires { methods_fit oid new.now.body ≡ true }
        ensures { result ≡ holds_of (λ old.
            may_change oid old self.now.seen.setting self.now.seen.world
            && may_replace oid old (contents_of new.now) self.now.seen.setting self.now.seen.world)
            (get self.now.seen.world.changes oid) }
    {
        match self.shown.changed(oid.number()) {
            Some(old) => {
                (self.is_made(oid) || !old.body.is_shared())
                    && same_fixed(old, new)
                    && fits(self, oid, new)
            }
            None => false,
        }
    }

    /// Touches the names at which no object is.
    fn miss_all(&mut self, names: &[u64]) -> Result<(), AllocError>
        ensures missed { OnOk result (self.new.seen ≡ missed_all names.now self.old.seen) }
        ensures same { OnErr result (SameObjects self.old.seen self.new.seen) }
    {
        touch_all(&mut self.touched, names)
    }

    /// Touches the names that new objects lack, of which the first has this name.
    pub(crate) fn miss_lacking(&mut self, first: Oid, objects: &[Object]) -> Result<(), AllocError>
        requires sound { IsSoundState self.old.seen }
        requires names { first + length objects.now ≤ 2 ^ 48 }
        ensures lacked { OnOk result (self.new.seen ≡ lacked first objects.now self.old.seen) }
        ensures same { OnErr result (SameObjects self.old.seen self.new.seen) }
    {
        let alloc = *self.text.allocator();
        let missing = missing_names(alloc, self, first, objects)?;
        self.miss_all(&missing)
    }

    /// Puts a body in place of that of a written object.
    pub(crate) fn put(&mut self, oid: Oid, body: Body) -> Result<(), Stop>
        requires sound { IsSoundState self.old.seen }
        requires methods { methods_fit oid body ≡ true }
        ensures { Acted (Put oid body) self.old.seen result self.new.seen }
    {
        let Some(new) = self.with_body(oid, body) else {
            return Ok(());
        };
        if self.may_put_body(oid, &new) {
            self.change(oid, Edit::PutBody(new.body))?;
            return Ok(());
        }
        self.miss_lacking(oid, slice::from_ref(&new))?;
        Ok(())
    }
}

// Adds each of the names that isn't there yet.
fn touch_all(touched: &mut IndexSet<u64>, names: &[u64]) -> Result<(), AllocError>
    ensures { OnOk result (touched.new.keys ≡ fold with_name touched.old.keys names.now) }
{
    for name in names {
        touched.insert(*name)?;
    }
    Ok(())
}
