// The image of the kernel, and images that break one rule.
ghost use Rattle.std.specs.Prelude.{◌≡◌, ◌<◌, ◌^◌};
ghost use Rattle.gem_object.specs.Spelling.{IsSpelled};

use crate::objects::{class, class_with, name, names, plain, primitive, segment, sourced, user};
use gem_image::Image;
use gem_object::{Kind, Object};
use image_check::sound;
use kernel_image::kernel;
use radix_pages::Steps;
use std::alloc::{AllocError, Global};
use std::marker::Brand;
use std::process::Abort;
use std::sync::ledger::{Blank, Ledger};
use std::test::Fail;

/// The counter of an object that the kernel doesn't have.
const NEW: u32 = 40;

/// What is said of the image: nothing where it is sound.
fn told(alloc: Global, image: &Image) -> Result<String, AllocError> {
    match sound(alloc, image) {
        Ok(()) => Ok(String::new(alloc)),
        Err(fault) => format!(in alloc; "{fault}"),
    }
}

/// Whether this is what is said of the image.
fn says(alloc: Global, image: &Image, want: &str) -> Result<bool, AllocError> {
    Ok(told(alloc, image)?.as_str() == want)
}

/// Whether the kernel with this object breaks the rule first, at that name.
fn breaks<L: Ledger>(
    alloc: Global,
    counter: u32,
    object: Object,
    want: &str,
    steps: &mut Steps<L>,
) -> Result<bool, AllocError>
    requires counter { counter < 2 ^ 24 }
    requires spelled { IsSpelled object }
{
    let image = kernel(alloc, steps)?.with(alloc, name(counter), object, steps)?;
    says(alloc, &image, want)
}

/// Whether the kernel with two more objects, of the names 0:41 and 0:40, breaks the rule first, at
/// that name.
fn both_break<L: Ledger>(
    alloc: Global,
    other: Object,
    object: Object,
    want: &str,
    steps: &mut Steps<L>,
) -> Result<bool, AllocError>
    requires other { IsSpelled other }
    requires spelled { IsSpelled object }
{
    let image = kernel(alloc, steps)?.with(alloc, name(41), other, steps)?;
    let image = image.with(alloc, name(NEW), object, steps)?;
    says(alloc, &image, want)
}

fn check_kernel<R: Abort, L: Ledger>(
    rt: &R,
    alloc: Global,
    steps: &mut Steps<L>,
) -> Result<(), Fail> {
    let image = kernel(alloc, steps)?;
    assert_eq!(rt; image.count(), 35);
    assert!(rt; says(alloc, &image, "")?);
    // Where nothing is there, Object is the first that misses.
    assert!(rt; says(alloc, &Image::empty(), "I4 at 0:1")?);
    Ok(())
}

// I1: the name 0, a class that isn't there, and a segment that isn't there.
fn check_references<R: Abort, L: Ledger>(
    rt: &R,
    alloc: Global,
    steps: &mut Steps<L>,
) -> Result<(), Fail> {
    assert!(rt; breaks(alloc, 0, plain(alloc, 1, 29), "I1 at 0:0", steps)?);
    assert!(rt; breaks(alloc, NEW, plain(alloc, 99, 29), "I1 at 0:40", steps)?);
    assert!(rt; breaks(alloc, NEW, plain(alloc, 1, 99), "I1 at 0:40", steps)?);
    assert!(rt; breaks(alloc, NEW, plain(alloc, 1, 29), "", steps)?);
    Ok(())
}

// I2: another selector, no text of a method, and a primitive in another class.
fn check_methods<R: Abort, L: Ledger>(
    rt: &R,
    alloc: Global,
    steps: &mut Steps<L>,
) -> Result<(), Fail> {
    let good = class_with(alloc, sourced(alloc, b"a ^1")?)?;
    assert!(rt; breaks(alloc, NEW, good, "", steps)?);
    let other = class_with(alloc, sourced(alloc, b"b ^1")?)?;
    assert!(rt; breaks(alloc, NEW, other, "I2 at 0:40", steps)?);
    let ends = class_with(alloc, sourced(alloc, b"a ^")?)?;
    assert!(rt; breaks(alloc, NEW, ends, "I2 at 0:40", steps)?);
    let primitive = class_with(alloc, primitive(alloc)?)?;
    assert!(rt; breaks(alloc, NEW, primitive, "I2 at 0:40", steps)?);
    Ok(())
}

// I3: a class that is its own superclass, one under no class, and one of another kind.
fn check_superclasses<R: Abort, L: Ledger>(
    rt: &R,
    alloc: Global,
    steps: &mut Steps<L>,
) -> Result<(), Fail> {
    let circle = class(alloc, NEW, Kind::Plain, names(alloc, 0)?)?;
    assert!(rt; breaks(alloc, NEW, circle, "I3 at 0:40", steps)?);
    let under_nothing = class(alloc, 35, Kind::Plain, names(alloc, 0)?)?;
    assert!(rt; breaks(alloc, NEW, under_nothing, "I3 at 0:40", steps)?);
    let other_kind = class(alloc, 1, Kind::Bytes, names(alloc, 0)?)?;
    assert!(rt; breaks(alloc, NEW, other_kind, "I3 at 0:40", steps)?);
    Ok(())
}

// I3: as many names as there may be, one more, and names that there may not be.
fn check_names<R: Abort, L: Ledger>(
    rt: &R,
    alloc: Global,
    steps: &mut Steps<L>,
) -> Result<(), Fail> {
    let most = class(alloc, 1, Kind::Plain, names(alloc, 200)?)?;
    assert!(rt; breaks(alloc, NEW, most, "", steps)?);
    let more = class(alloc, 1, Kind::Plain, names(alloc, 201)?)?;
    assert!(rt; breaks(alloc, NEW, more, "I3 at 0:40", steps)?);
    let of_bytes = class(alloc, 15, Kind::Bytes, names(alloc, 1)?)?;
    assert!(rt; breaks(alloc, NEW, of_bytes, "I3 at 0:40", steps)?);
    Ok(())
}

// I3: a class of the kernel with names, and one under another class. I4: Transcript with rights.
fn check_kernel_classes<R: Abort, L: Ledger>(
    rt: &R,
    alloc: Global,
    steps: &mut Steps<L>,
) -> Result<(), Fail> {
    let named = class(alloc, 1, Kind::Plain, names(alloc, 1)?)?;
    assert!(rt; breaks(alloc, 7, named, "I3 at 0:7", steps)?);
    let elsewhere = class(alloc, 7, Kind::Dict, names(alloc, 0)?)?;
    assert!(rt; breaks(alloc, 18, elsewhere, "I3 at 0:18", steps)?);
    assert!(rt; breaks(alloc, 35, segment(alloc, 23, 31), "I4 at 0:35", steps)?);
    Ok(())
}

// I5: a class without instances, no segment, and an owner who is no user.
fn check_fit<R: Abort, L: Ledger>(rt: &R, alloc: Global, steps: &mut Steps<L>) -> Result<(), Fail> {
    assert!(rt; breaks(alloc, NEW, plain(alloc, 4, 29), "I5 at 0:40", steps)?);
    assert!(rt; breaks(alloc, NEW, plain(alloc, 1, 27), "I5 at 0:40", steps)?);
    assert!(rt; breaks(alloc, NEW, segment(alloc, 23, 35), "I5 at 0:40", steps)?);
    assert!(rt; breaks(alloc, NEW, segment(alloc, 23, 31), "", steps)?);
    Ok(())
}

// I5: a default segment that is none, and globals that are none.
fn check_users<R: Abort, L: Ledger>(
    rt: &R,
    alloc: Global,
    steps: &mut Steps<L>,
) -> Result<(), Fail> {
    assert!(rt; breaks(alloc, NEW, user(alloc, 29, 33)?, "", steps)?);
    assert!(rt; breaks(alloc, NEW, user(alloc, 27, 33)?, "I5 at 0:40", steps)?);
    assert!(rt; breaks(alloc, NEW, user(alloc, 29, 35)?, "I5 at 0:40", steps)?);
    Ok(())
}

// I5: an instance with fewer slots than its class has names, where the class has a higher number.
fn check_slots<R: Abort, L: Ledger>(
    rt: &R,
    alloc: Global,
    steps: &mut Steps<L>,
) -> Result<(), Fail> {
    let named = class(alloc, 1, Kind::Plain, names(alloc, 1)?)?;
    assert!(rt; both_break(alloc, named, plain(alloc, 41, 29), "I5 at 0:40", steps)?);
    Ok(())
}

// The lowest name counts, whatever its rule.
fn check_order<R: Abort, L: Ledger>(
    rt: &R,
    alloc: Global,
    steps: &mut Steps<L>,
) -> Result<(), Fail> {
    let other = plain(alloc, 99, 29);
    assert!(rt; both_break(alloc, other, plain(alloc, 4, 29), "I5 at 0:40", steps)?);
    Ok(())
}

fn check_all<R: Abort, L: Ledger>(rt: &R, alloc: Global, blank: Blank) -> Result<(), Fail>
    requires name { blank.name ≡ L.name }
    requires parts { blank.parts ≡ L.parts }
    requires some_parts { 0 < L.parts }
{
    let mut steps = Steps::<L>::start(blank);
    check_kernel(rt, alloc, &mut steps)?;
    check_references(rt, alloc, &mut steps)?;
    check_methods(rt, alloc, &mut steps)?;
    check_superclasses(rt, alloc, &mut steps)?;
    check_names(rt, alloc, &mut steps)?;
    check_kernel_classes(rt, alloc, &mut steps)?;
    check_fit(rt, alloc, &mut steps)?;
    check_users(rt, alloc, &mut steps)?;
    check_slots(rt, alloc, &mut steps)?;
    check_order(rt, alloc, &mut steps)
}

#[test]
fn soundness(rt: HostRuntime) -> Result<(), Fail> {
    check_all::<HostRuntime, Brand>(&rt, rt.alloc(), Blank::new(1))
}
