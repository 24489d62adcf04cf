//! How many names classes have, with those that they inherit. Each class is followed once.
ghost use Rattle.std.specs.Prelude.{◌≡◌, ◌^◌, ◌-◌, min, length, option_copied, IfOk, IfSome, IfNone};
ghost use Rattle.std.specs.Vec.{vec_len};
ghost use Rattle.gem_image.specs.Image.{objects_in};
ghost use Rattle.gem_sound.specs.Parts.{class_at};
ghost use Rattle.image_check.specs.Chains.{IsCountOf, IsEndless, AreCounts, IsClimb, IsSeen};

use gem_image::Image;
use gem_object::{Body, ClassBody, Oid};
use gem_sound::names::OBJECT_CLASS;
use std::alloc::{AllocError, Global};
use std::collections::BTreeMap;

/// How many names the classes have that were looked at, by the numbers of the classes' names.
pub(crate) type Counts = BTreeMap<u64, u64>;

/// A class whose superclass was followed, and how many names it adds.
#[derive(Clone, Copy)]
pub(crate) struct Step {
    class: Oid,
    own: u64,
}

/// What is seen at a class.
#[derive(Clone, Copy)]
enum Seen {
    /// How many names it has, with those that it inherits.
    Known(u64),
    /// How many names it adds, and its superclass.
    Above(u64, Oid),
    /// No class whose superclasses may end at Object.
    Nothing,
}

/// The class of this name.
pub(crate) fn class_at(image: &Image, name: Oid) -> Option<&ClassBody>
    ensures { option_copied result ≡ class_at (objects_in image.now) name }
{
    match &image.look(name)?.body {
        Body::Class(class) => Some(class),
        _ => None,
    }
}

fn look(image: &Image, counts: &Counts, name: Oid) -> Seen
    requires { AreCounts (objects_in image.now) counts.now.entries }
    ensures { IsSeen (objects_in image.now) name result }
{
    if let Some(count) = counts.get(&name.number()) {
        return Seen::Known(*count);
    }
    let Some(class) = class_at(image, name) else {
        return Seen::Nothing;
    };
    let own = class.names.len() as u64;
    match class.superclass {
        Some(superclass) => Seen::Above(own, superclass),
        None if name.number() == u64::from(OBJECT_CLASS) => Seen::Known(own),
        None => Seen::Nothing,
    }
}

// Follows the superclasses up to a class whose count is known. None where they don't end at Object.
// More superclasses than there are objects go in a circle.
fn climb(
    alloc: Global,
    image: &Image,
    counts: &Counts,
    name: Oid,
) -> Result<Option<(Vec<Step>, u64)>, AllocError>
    requires { AreCounts (objects_in image.now) counts.now.entries }
    ensures some { IfOk result (λ climbed. IfSome climbed (λ found.
        IsClimb (objects_in image.now) name found.0.items found.1)) }
    ensures none { IfOk result (λ climbed. IfNone climbed (IsEndless (objects_in image.now) name)) }
{
    let objects = image.count();
    let mut steps = Vec::new(alloc);
    let mut class = name;
    for _turn in 0..objects + 1 {
        match look(image, counts, class) {
            Seen::Known(count) => return Ok(Some((steps, count))),
            Seen::Above(own, superclass) => {
                steps.push(Step { class, own })?;
                class = superclass;
            }
            Seen::Nothing => return Ok(None),
        }
    }
    Ok(None)
}

/// How many names the class has with those that it inherits; None where there is no such class or
/// its superclasses don't end at Object. The number stays at 2^64 - 1 once it is there. What was
/// found is kept, so that no class is followed twice.
pub(crate) fn count_names(
    alloc: Global,
    image: &Image,
    counts: &mut Counts,
    name: Oid,
) -> Result<Option<u64>, AllocError>
    requires { AreCounts (objects_in image.now) counts.old.entries }
    ensures count { IfOk result (IsCountOf (objects_in image.now) name) }
    ensures kept { AreCounts (objects_in image.now) counts.new.entries }
{
    let Some((mut steps, mut count)) = climb(alloc, image, counts, name)? else {
        return Ok(None);
    };
    while let Some(step) = steps.pop() {
        count = count.saturating_add(step.own);
        counts.insert(step.class.number(), count)?;
    }
    Ok(Some(count))
}
