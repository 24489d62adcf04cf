//! What of classes the guard asks of edits: how many slots an instance may have.
ghost use Rattle.std.specs.Prelude.{◌≡◌};
ghost use Rattle.object_programs.specs.Fixed.{fixed_by};
ghost use Rattle.plain_state.specs.Classes.{takes_slots, accepts_slots, is_in_kernel};

use crate::parts::Parts;
use gem_object::{Kind, Object, Oid};
use gem_sound::names::{TRANSCRIPT, TRANSCRIPT_STREAM_CLASS, is_kernel_name};
use object_guard::{Sees, class_at, has_names};

impl Sees for Parts {
    ghost use Rattle.object_programs.specs.Fixed.{fixed_by};

    ghost parts = { λ state. fixed_by state.seen.setting state.seen.world };

    #[tactic(auto, using(crate::proofs::Replaced::part_seen))]
    fn object(&self, oid: Oid) -> Option<&Object> {
        self.look(oid)
    }
}

impl Parts {
    /// Whether the class of this name may have an object with so many slots.
    pub(crate) fn accepts_slots(&self, class: Oid, count: usize) -> bool
        ensures { result
            ≡ accepts_slots (fixed_by self.now.seen.setting self.now.seen.world) class count }
    {
        let Some(found) = class_at(self, class) else {
            return false;
        };
        let takes = takes_slots(found.kind);
        (takes && has_names(self, class, count))
            || (count == 0 && is_kernel_name(class, TRANSCRIPT_STREAM_CLASS))
    }
}

// Whether instances of classes of this kind have slots.
fn takes_slots(kind: Kind) -> bool
    ensures { result ≡ takes_slots kind }
{
    match kind {
        Kind::None => false,
        Kind::Plain => true,
        Kind::Indexed => true,
        Kind::Bytes => false,
        Kind::Dict => false,
        Kind::Segment => false,
        Kind::User => false,
        Kind::Counter => false,
        Kind::Bag => false,
        Kind::RcDict => false,
        Kind::Queue => false,
    }
}

/// Whether the name is that of an object of the kernel.
pub(crate) fn is_in_kernel(oid: Oid) -> bool
    ensures { result ≡ is_in_kernel oid }
{
    0 < oid.number() && oid.number() <= u64::from(TRANSCRIPT)
}
