//! The rules on the kernel's objects, and on what fits an object.
ghost use Rattle.std.specs.Prelude.{◌≡◌, ◌<◌, ◌^◌, is_some, IsSome, IfOk, Some};
ghost use Rattle.std.specs.Bool.{Decides};
ghost use Rattle.gem_object.specs.Edits.{plain_slots};
ghost use Rattle.gem_object.specs.Spelling.{IsSpelledBody};
ghost use Rattle.gem_image.specs.Image.{objects_in, contents_of};
ghost use Rattle.gem_image.specs.Rights.{rights_at};
ghost use Rattle.gem_sound.specs.Parts.{user_at, dictionary_at};
ghost use Rattle.gem_sound.specs.Kernel.{kernel_body};
ghost use Rattle.gem_sound.specs.Sound.{HasKernelBody, FitsClass, NamesFit, IsFitting};
ghost use Rattle.image_check.specs.Chains.{AreCounts};
ghost use Rattle.image_check.specs.Bodies.{IsSpecial};

use crate::chains::{Counts, class_at, count_names};
use crate::kernel::{has_body, kernel_body};
use gem_image::Image;
use gem_object::{Body, Object, Oid};
use gem_sound::names::{CLASS_CLASS, TRANSCRIPT_STREAM_CLASS};
use std::alloc::{AllocError, Global};

/// Whether the body is of the kind that the kernel's object with this number has.
pub(crate) fn has_kernel_body(number: u64, object: &Object) -> bool
    ensures { Decides result
        (HasKernelBody (kernel_body number) (Some (contents_of object.now))) }
{
    match kernel_body(number) {
        Some(kind) => has_body(kind, &object.body),
        None => true,
    }
}

// Whether it is a class object, or a transcript.
fn is_special(image: &Image, class: Oid, body: &Body) -> bool
    ensures { Decides result (IsSpecial (objects_in image.now) class body.now) }
{
    let counter = class.number();
    let special = match body {
        Body::Class(_) => counter == u64::from(CLASS_CLASS),
        Body::Plain(values) => values.is_empty() && counter == u64::from(TRANSCRIPT_STREAM_CLASS),
        _ => false,
    };
    special && class_at(image, class).is_some()
}

// Whether the class fits an object with this body.
fn fits_class(
    alloc: Global,
    image: &Image,
    counts: &mut Counts,
    name: Oid,
    body: &Body,
) -> Result<bool, AllocError>
    requires counts { AreCounts (objects_in image.now) counts.old.entries }
    requires slots { plain_slots body.now < 2 ^ 32 }
    ensures fits { IfOk result (λ kept.
        Decides kept (FitsClass (objects_in image.now) name body.now)) }
    ensures kept { AreCounts (objects_in image.now) counts.new.entries }
{
    if is_special(image, name, body) {
        return Ok(true);
    }
    let Some(class) = class_at(image, name) else {
        return Ok(false);
    };
    if !class.kind.fits(body) {
        return Ok(false);
    }
    match count_names(alloc, image, counts, name)? {
        Some(count) => Ok(count <= body.plain_slots() as u64),
        None => Ok(false),
    }
}

fn is_segment(image: &Image, name: Oid) -> bool
    ensures { result ≡ is_some (rights_at (objects_in image.now) name) }
{
    match image.look(name) {
        Some(object) => matches!(object.body, Body::Segment(_)),
        None => false,
    }
}

fn is_user(image: &Image, name: u64) -> bool
    ensures { result ≡ is_some (user_at (objects_in image.now) name) }
{
    image.invariant();
    let Some(oid) = Oid::of(name) else {
        return false;
    };
    match image.look(oid) {
        Some(object) => matches!(object.body, Body::User(_)),
        None => false,
    }
}

fn is_dictionary(image: &Image, name: Oid) -> bool
    ensures { result ≡ is_some (dictionary_at (objects_in image.now) name) }
{
    match image.look(name) {
        Some(object) => matches!(object.body, Body::Dict(_)),
        None => false,
    }
}

// Whether what a segment or a user names is of its kind.
fn names_fit(image: &Image, body: &Body) -> bool
    ensures { Decides result (NamesFit (objects_in image.now) body.now) }
{
    match body {
        Body::Segment(rights) => is_user(image, rights.owner),
        Body::User(user) => {
            is_segment(image, user.default_segment) && is_dictionary(image, user.globals)
        }
        _ => true,
    }
}

/// Whether its class and its segment fit the object, and so does what it names. Its class's count
/// is kept.
pub(crate) fn is_fitting(
    alloc: Global,
    image: &Image,
    counts: &mut Counts,
    object: &Object,
) -> Result<bool, AllocError>
    requires counts { AreCounts (objects_in image.now) counts.old.entries }
    requires spelled { IsSpelledBody object.now.body }
    ensures fits { IfOk result (λ kept.
        Decides kept (IsFitting (objects_in image.now) (contents_of object.now))) }
    ensures kept { AreCounts (objects_in image.now) counts.new.entries }
{
    if !fits_class(alloc, image, counts, object.class, &object.body)? {
        return Ok(false);
    }
    Ok(is_segment(image, object.segment) && names_fit(image, &object.body))
}
