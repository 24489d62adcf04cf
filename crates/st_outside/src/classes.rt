//! Classes that were read.
ghost use Rattle.std.specs.Prelude.{◌≡◌, option_and_then, option_copied};
ghost use Rattle.gem_sound.specs.Parts.{class_of};
ghost use Rattle.running_objects.specs.Seen.{object_at};

use gem_object::{Body, ClassBody, Oid};
use object_programs::CHAIN_LIMIT;
use running_objects::Objects;

/// So many classes are gone through at most: more than there are names.
pub(crate) const CHAIN_STEPS: u64 = CHAIN_LIMIT + 1;

/// The class that a body is.
pub(crate) fn class_of(body: &Body) -> Option<&ClassBody>
    ensures { option_copied result ≡ class_of body.now }
{
    match body {
        Body::Class(class) => Some(class),
        _ => None,
    }
}

/// The class of this name, if there is one.
pub(crate) fn class_at<O: Objects>(objects: &O, name: Oid) -> Option<&ClassBody>
    ensures { option_copied result
        ≡ option_and_then (λ object. class_of object.body) (object_at name (O.seen objects.now)) }
{
    class_of(&objects.object(name)?.body)
}
