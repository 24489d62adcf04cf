//! What the parts of a state do where an object is put into another segment.
ghost use Rattle.std.specs.Prelude.{◌≡◌, ◌&&◌};
ghost use Rattle.std.specs.FinMap.{get};
ghost use Rattle.object_programs.specs.Atom.{Move};
ghost use Rattle.object_programs.specs.Fixed.{fixed_by};
ghost use Rattle.object_programs.specs.Guard.{holds_of, is_segment_at, may_change};
ghost use Rattle.running_objects.specs.Seen.{IsSoundState};
ghost use Rattle.running_objects.specs.Acted.{Acted};

use crate::edit::Edit;
use crate::parts::Parts;
use gem_object::{Body, Oid, Value};
use running_objects::Stop;

impl Parts {
    /// Whether there is a segment of this name.
    pub(crate) fn is_segment(&self, segment: Oid) -> bool
        ensures { result
            ≡ is_segment_at (fixed_by self.now.seen.setting self.now.seen.world) segment }
    {
        let Some(object) = self.look(segment) else {
            return false;
        };
        match &object.body {
            Body::Segment(_) => true,
            _ => false,
        }
    }

    /// Whether a written object of this name may be put into that segment.
    #[tactic(auto, unfolding(object_programs::specs::Guard::may_change))]
    fn may_move(&self, oid: Oid, segment: Oid) -> bool
        ensures { result ≡ holds_of (λ object.
            may_change oid object self.now.seen.setting self.now.seen.world
            && is_segment_at (fixed_by self.now.seen.setting self.now.seen.world) segment)
            (get self.now.seen.world.changes oid) }
    {
        match self.shown.changed(oid.number()) {
            Some(object) => {
                (self.is_made(oid) || !object.body.is_shared()) && self.is_segment(segment)
            }
            None => false,
        }
    }

    /// Puts an object into another segment.
    pub(crate) fn move_to(&mut self, oid: Oid, segment: Oid) -> Result<(), Stop>
        requires { IsSoundState self.old.seen }
        ensures { Acted (Move oid segment) self.old.seen result self.new.seen }
    {
        if !self.shown.has(oid.number()) {
            return Ok(());
        }
        if self.may_move(oid, segment) {
            self.change(oid, Edit::MoveTo(segment))?;
            return Ok(());
        }
        self.miss_value(&Value::Ref(segment))?;
        Ok(())
    }
}
