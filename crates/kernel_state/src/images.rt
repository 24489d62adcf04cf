//! The image of the kernel with more objects beside.
ghost use Rattle.std.specs.Prelude.{◌<◌, ◌^◌};

use gem_image::Image;
use gem_object::{Body, Counter, Object, Oid, Value, Values};
use gem_sound::names::{
    ARRAY_CLASS, DATA_CURATOR_SEGMENT, RC_COUNTER_CLASS, SYSTEM_SEGMENT, kernel_name,
};
use kernel_image::kernel;
use object_guard::is_spelled;
use object_programs::laws::what_is_spelled;
use radix_pages::Steps;
use std::alloc::{AllocError, Global};
use std::sync::ledger::Ledger;

/// The image of the kernel with so many arrays of one slot and as many counters at 0, with names of
/// the serial 2: the arrays have odd counters, and the other objects even ones. Every fourth pair
/// of them lies in the system's segment, where DataCurator may only read, and the others in
/// DataCurator's own.
pub fn larger_image<L: Ledger>(
    alloc: Global,
    pairs: u32,
    steps: &mut Steps<L>,
) -> Result<Image, AllocError>
    requires { pairs < 2 ^ 22 }
{
    let mut image = kernel(alloc, steps)?;
    for pair in 0..pairs {
        insert_array(alloc, &mut image, pair, steps)?;
        insert_counter(alloc, &mut image, pair, steps)?;
    }
    Ok(image)
}

// The segment of a pair.
fn segment_of(pair: u32) -> Oid {
    if pair % 4 == 3 {
        kernel_name(SYSTEM_SEGMENT)
    } else {
        kernel_name(DATA_CURATOR_SEGMENT)
    }
}

// Puts the array of a pair into the image.
fn insert_array<L: Ledger>(
    alloc: Global,
    image: &mut Image,
    pair: u32,
    steps: &mut Steps<L>,
) -> Result<(), AllocError>
    requires { pair < 2 ^ 22 }
{
    let mut values = Values::of(Vec::new(alloc));
    values.push(Value::Nil)?;
    let object = Object {
        class: kernel_name(ARRAY_CLASS),
        segment: segment_of(pair),
        changed: 0,
        body: Body::Plain(values),
    };
    insert(
        alloc,
        image,
        Oid::from_parts(2, 2 * pair + 1),
        object,
        steps,
    )
}

// Puts its counter there.
fn insert_counter<L: Ledger>(
    alloc: Global,
    image: &mut Image,
    pair: u32,
    steps: &mut Steps<L>,
) -> Result<(), AllocError>
    requires { pair < 2 ^ 22 }
{
    let object = Object {
        class: kernel_name(RC_COUNTER_CLASS),
        segment: segment_of(pair),
        changed: 0,
        body: Body::Counter(Counter { value: 0 }),
    };
    insert(
        alloc,
        image,
        Oid::from_parts(2, 2 * pair + 2),
        object,
        steps,
    )
}

// Puts an object into an image, if it can be stored.
fn insert<L: Ledger>(
    alloc: Global,
    image: &mut Image,
    oid: Oid,
    object: Object,
    steps: &mut Steps<L>,
) -> Result<(), AllocError> {
    if !is_spelled(&object.body) {
        return Ok(());
    }
    what_is_spelled();
    image.insert(alloc, oid, object, steps)
}
