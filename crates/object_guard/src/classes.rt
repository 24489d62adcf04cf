//! The classes of a state, and the names of the instance variables that they have.
ghost use Rattle.std.specs.Prelude.{◌≡◌, nat_le, length, option_map, option_copied};
ghost use Rattle.object_programs.specs.Guard.{holds_of, names_at};
ghost use Rattle.object_programs.specs.Programs.{part_of};
ghost use Rattle.object_guard.specs.Parts.{part_of_class, has_room};

use crate::sees::Sees;
use gem_object::{Body, ClassBody, Oid};
use gem_sound::names::{OBJECT_CLASS, is_kernel_name};
use object_programs::CHAIN_LIMIT;

/// The class of this name, if there is one. It takes no memory.
pub fn class_at<S: Sees>(state: &S, class: Oid) -> Option<&ClassBody>
    ensures { option_map part_of_class (option_copied result)
        ≡ part_of (S.parts state.now class) }
{
    match &state.object(class)?.body {
        Body::Class(body) => Some(body),
        _ => None,
    }
}

/// Whether so many slots are enough for the names that the instances of the class have, the
/// inherited ones included. False also where its superclasses don't end at Object. It takes no
/// memory, and looks at each class on the way up once; of superclasses that go in a circle it looks
/// at 2^48.
pub fn has_names<S: Sees>(state: &S, class: Oid, slots: usize) -> bool
    ensures { result ≡ holds_of (has_room slots) (names_at (S.parts state.now) class) }
{
    let mut class = class;
    let mut slots = slots;
    let mut limit = CHAIN_LIMIT;
    while limit > 0 {
        let Some(found) = class_at(state, class) else {
            return false;
        };
        if found.names.len() > slots {
            return false;
        }
        slots -= found.names.len();
        let Some(superclass) = found.superclass else {
            return is_kernel_name(class, OBJECT_CLASS);
        };
        class = superclass;
        limit -= 1;
    }
    false
}
