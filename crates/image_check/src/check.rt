//! Whether an image is sound.
ghost use Rattle.std.specs.Prelude.{◌≡◌, ◌+◌, ◌≤◌, IfOk, IfErr, IfSome, OnOk, Some, option_copied};
ghost use Rattle.std.specs.FinMap as map;
ghost use Rattle.gem_object.specs.Spelling.{IsSpelled};
ghost use Rattle.gem_image.specs.Image.{objects_in, contents_of};
ghost use Rattle.gem_sound.specs.Sound.{IsSoundImage};
ghost use Rattle.image_check.specs.Chains.{AreCounts};
ghost use Rattle.image_check.specs.Faults.{IsFault, IsFirstBroken, IsFirstOfClass, AreKeptBelow};

use crate::chains::Counts;
use crate::fault::{Rule, SoundFault};
use crate::fitting::{has_kernel_body, is_fitting};
use crate::kernel::kernel_body;
use crate::rules::{has_methods, has_place, has_references};
use gem_image::Image;
use gem_object::{Body, Object, Oid};
use gem_sound::names::{TRANSCRIPT, kernel_name};
use std::alloc::{AllocError, Global};

/// The counter after that of Transcript, the kernel's last object.
const KERNEL_END: u32 = TRANSCRIPT + 1;

// The first of the rules on classes that the object breaks.
fn broken_by_class(
    alloc: Global,
    image: &Image,
    counts: &mut Counts,
    number: Oid,
    object: &Object,
) -> Result<Option<Rule>, AllocError>
    requires { AreCounts (objects_in image.now) counts.old.entries }
    ensures first { IfOk result (λ broken.
        IsFirstOfClass (objects_in image.now) number (contents_of object.now) broken) }
    ensures kept { AreCounts (objects_in image.now) counts.new.entries }
{
    let Body::Class(class) = &object.body else {
        return Ok(None);
    };
    if !has_methods(alloc, number, class)? {
        return Ok(Some(Rule::I2));
    }
    if !has_place(alloc, image, counts, number, class)? {
        return Ok(Some(Rule::I3));
    }
    Ok(None)
}

// The first rule that the object breaks.
fn first_broken(
    alloc: Global,
    image: &Image,
    counts: &mut Counts,
    number: Oid,
    object: &Object,
) -> Result<Option<Rule>, AllocError>
    requires counts { AreCounts (objects_in image.now) counts.old.entries }
    requires spelled { IsSpelled object.now }
    ensures first { IfOk result (λ broken.
        IsFirstBroken (objects_in image.now) number (contents_of object.now) broken) }
    ensures kept { AreCounts (objects_in image.now) counts.new.entries }
{
    if !has_references(alloc, image, number, object)? {
        return Ok(Some(Rule::I1));
    }
    if let Some(rule) = broken_by_class(alloc, image, counts, number, object)? {
        return Ok(Some(rule));
    }
    if !has_kernel_body(number.number(), object) {
        return Ok(Some(Rule::I4));
    }
    if !is_fitting(alloc, image, counts, object)? {
        return Ok(Some(Rule::I5));
    }
    Ok(None)
}

// Goes on where the object keeps all rules.
fn check_object(
    alloc: Global,
    image: &Image,
    counts: &mut Counts,
    oid: Oid,
    object: &Object,
) -> Result<(), SoundFault>
    requires counts { AreCounts (objects_in image.now) counts.old.entries }
    requires there { map.get image.now oid ≡ Some object.now }
    requires spelled { IsSpelled object.now }
    requires below { AreKeptBelow (objects_in image.now) oid }
    ensures next { OnOk result (AreKeptBelow (objects_in image.now) (oid + 1)) }
    ensures fault { IfErr result (IsFault (objects_in image.now)) }
    ensures kept { AreCounts (objects_in image.now) counts.new.entries }
{
    match first_broken(alloc, image, counts, oid, object)? {
        Some(rule) => Err(SoundFault::Broken { oid, rule }),
        None => Ok(()),
    }
}

// Goes on where what stands at the kernel's name keeps all rules.
fn check_name(alloc: Global, image: &Image, counts: &mut Counts, oid: Oid) -> Result<(), SoundFault>
    requires counts { AreCounts (objects_in image.now) counts.old.entries }
    requires below { AreKeptBelow (objects_in image.now) oid }
    ensures next { OnOk result (AreKeptBelow (objects_in image.now) (oid + 1)) }
    ensures fault { IfErr result (IsFault (objects_in image.now)) }
    ensures kept { AreCounts (objects_in image.now) counts.new.entries }
{
    if let Some(object) = image.look(oid) {
        return check_object(alloc, image, counts, oid, object);
    }
    match kernel_body(oid.number()) {
        Some(_) => Err(SoundFault::Broken {
            oid,
            rule: Rule::I4,
        }),
        None => Ok(()),
    }
}

fn check_kernel(alloc: Global, image: &Image, counts: &mut Counts) -> Result<(), SoundFault>
    requires { AreCounts (objects_in image.now) counts.old.entries }
    ensures next { OnOk result (AreKeptBelow (objects_in image.now) 36) }
    ensures fault { IfErr result (IsFault (objects_in image.now)) }
    ensures kept { AreCounts (objects_in image.now) counts.new.entries }
{
    for counter in 0..KERNEL_END {
        check_name(alloc, image, counts, kernel_name(counter))?;
    }
    Ok(())
}

fn check_others(alloc: Global, image: &Image, counts: &mut Counts) -> Result<(), SoundFault>
    requires counts { AreCounts (objects_in image.now) counts.old.entries }
    requires kernel { AreKeptBelow (objects_in image.now) 36 }
    ensures sound { OnOk result (IsSoundImage image.now) }
    ensures fault { IfErr result (IsFault (objects_in image.now)) }
{
    let mut from = u64::from(KERNEL_END);
    while let Some(entry) = image.next_from(from) {
        check_object(alloc, image, counts, entry.0, entry.1)?;
        from = entry.0.number() + 1;
    }
    Ok(())
}

/// Whether the image is sound. Each object is looked at once, and the superclasses of each class
/// are followed once.
///
/// # Errors
///
/// `Broken` exactly where the image isn't sound: the lowest name at which a rule is broken, and the
/// first rule that is broken there. A name of the kernel at which no object stands breaks I4.
/// `NoMemory` where memory ran out, of which the contract says no more.
pub fn sound(alloc: Global, image: &Image) -> Result<(), SoundFault>
    ensures sound { OnOk result (IsSoundImage image.now) }
    ensures fault { IfErr result (IsFault (objects_in image.now)) }
{
    let mut counts = Counts::new(alloc);
    check_kernel(alloc, image, &mut counts)?;
    check_others(alloc, image, &mut counts)
}
