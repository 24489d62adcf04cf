//! Leaves gathered from an image.
ghost use Rattle.std.specs.Prelude.{◌≡◌, ◌<◌, ◌^◌, ◌++◌, IfOk, OnOk};
ghost use Rattle.std.specs.FinMap as map;
ghost use Rattle.body_codec.specs.Spelled.{spelled_changed};
ghost use Rattle.extent_plan.specs.Leaves;
ghost use Rattle.extent_plan.specs.Leaves.{plain, leaf_objects};
ghost use Rattle.extent_plan.specs.Gathered.{AddsOne, Adds, AreGathered};

use crate::numbers::put_eight;
use body_codec::write_object;
use gem_image::Image;
use gem_object::{Object, Oid};
use std::alloc::{AllocError, Global};

// How many names a leaf has.
const LEAF_SIZE: u64 = 64;

// What was gathered of a leaf: how many objects it has, their largest serial, and each object's
// bytes behind its name.
#[derive(Drop)]
pub(crate) struct Gathered {
    pub count: u64,
    pub serial: u32,
    pub items: Vec<u8>,
}

// Adds an object's bytes behind its name.
fn put_entry(
    alloc: Global,
    oid: Oid,
    object: &Object,
    items: &mut Vec<u8>,
) -> Result<(), AllocError>
    ensures { OnOk result (items.new.items
        ≡ items.old.items ++ spelled_changed (oid, plain object.now)) }
{
    let mut bytes = write_object(alloc, object)?;
    put_eight(oid.number(), items)?;
    items.append(&mut bytes)?;
    Ok(())
}

// Adds an object.
fn gather_object(
    alloc: Global,
    oid: Oid,
    object: &Object,
    gathered: &mut Gathered,
) -> Result<(), AllocError>
    requires { gathered.old.count < 64 }
    ensures { OnOk result (AddsOne oid object.now gathered.old gathered.new) }
{
    put_entry(alloc, oid, object, &mut gathered.items)?;
    gathered.count += 1;
    gathered.serial = gathered.serial.max(oid.serial());
    Ok(())
}

// Adds what stands at a name.
fn gather_name(
    alloc: Global,
    image: &Image,
    oid: Oid,
    gathered: &mut Gathered,
) -> Result<(), AllocError>
    requires { gathered.old.count < 64 }
    ensures { OnOk result (Adds oid (map.get image.now oid) gathered.old gathered.new) }
{
    match image.look(oid) {
        Some(object) => gather_object(alloc, oid, object, gathered),
        None => Ok(()),
    }
}

// The name of a leaf at this place.
fn name_in(leaf: u64, place: u64) -> Oid
    requires leaf { leaf < 2 ^ 42 }
    requires place { place < 64 }
    ensures { result ≡ Leaves.name_in leaf place }
{
    let Some(oid) = Oid::of(LEAF_SIZE * leaf + place) else {
        unreachable!()
    };
    oid
}

// Gathers the objects that the image has at the names of a leaf.
pub(crate) fn gather_leaf(alloc: Global, image: &Image, leaf: u64) -> Result<Gathered, AllocError>
    requires { leaf < 2 ^ 42 }
    ensures { IfOk result (AreGathered (leaf_objects image.now leaf)) }
{
    let mut gathered = Gathered {
        count: 0,
        serial: 0,
        items: Vec::new(alloc),
    };
    for place in 0..LEAF_SIZE {
        gather_name(alloc, image, name_in(leaf, place), &mut gathered)?;
    }
    Ok(gathered)
}
