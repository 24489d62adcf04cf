//! How the slots of an Array or an OrderedCollection are laid out.
ghost use Rattle.std.specs.Prelude.{◌≡◌, ◌+◌, ◌-◌};
ghost use Rattle.prim_parts.specs.Does.{IsThere};
ghost use Rattle.prim_collections.specs.Looks.{SaysOf};
ghost use Rattle.prim_collections.specs.Slots.{TellsLayout};

use crate::bodies::slots_at;
use gem_object::Oid;
use prim_parts::named_slots;
use running_objects::{Objects, Stop};

/// How many slots a sequence has, and how many of them are named: these come first, and its
/// elements after them.
#[derive(Clone, Copy)]
pub struct Layout {
    pub named: usize,
    pub slots: usize,
}

impl Layout {
    /// How many elements the sequence has.
    pub fn size(self) -> usize
        ensures { result ≡ self.slots - self.named }
    {
        self.slots.saturating_sub(self.named)
    }

    /// The place of the last element; where there is none, a place without a slot.
    pub fn last(self) -> usize
        ensures { result ≡ self.named + (self.slots - self.named - 1) }
    {
        self.named + self.size().saturating_sub(1)
    }
}

/// The layout of the sequence of this name, which was read or written; E5 where the object is no
/// sequence.
pub fn layout_of<O: Objects>(objects: &O, name: Oid) -> Result<Layout, Stop>
    requires { IsThere name (O.seen objects.now) }
    ensures { TellsLayout name (O.seen objects.now) result }
{
    let slots = slots_at(objects, name)?.len();
    let class = class_at(objects, name);
    let named = named_slots(objects, class);
    Ok(Layout { named, slots })
}

/// The class of the object of this name, which is there as well.
pub fn class_at<O: Objects>(objects: &O, name: Oid) -> Oid
    requires { IsThere name (O.seen objects.now) }
    ensures class { SaysOf (λ object. object.class) name (O.seen objects.now) result }
    ensures there { IsThere result (O.seen objects.now) }
{
    objects.sound();
    let Some(object) = objects.object(name) else {
        unreachable!()
    };
    object.class
}
