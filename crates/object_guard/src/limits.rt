//! What objects take that are made, and whether they are within the limits of objects.
ghost use Rattle.std.specs.Prelude.{◌≡◌, ◌^◌, ◌-◌, ◌+◌, min, map, sum_by};
ghost use Rattle.std.specs.List.{list_all};
ghost use Rattle.object_programs.specs.gem_image.Image.{contents_of};
ghost use Rattle.object_programs.specs.Budget.{object_cost, is_within_limits};
ghost use Rattle.object_programs.specs.Atom.{objects_cost};

use gem_object::{Body, Object};
use object_programs::{BYTES_LIMIT, SLOTS_LIMIT, bytes_cost};

/// Whether each of the objects is within the limits of objects: its slots, and its bytes where it
/// is stored. It takes no memory, and looks at each value once.
pub fn are_within_limits(objects: &[Object]) -> bool
    ensures { result ≡ list_all is_within_limits (map contents_of objects.now) }
{
    all_within(objects)
}

fn all_within(objects: &[Object]) -> bool
    ensures { result ≡ list_all (λ object. is_within_limits (contents_of object)) objects.now }
{
    objects.iter().all(|object| is_within_limits(object))
}

fn is_within_limits(object: &Object) -> bool
    ensures { result ≡ is_within_limits (contents_of object.now) }
{
    object.body.slots() <= SLOTS_LIMIT && object.size() <= BYTES_LIMIT
}

/// The space that the objects take where they are made, in slots. The number stays at 2^64 - 1 once
/// it is there. It takes no memory.
pub fn objects_cost(objects: &[Object]) -> u64
    ensures { result ≡ min (objects_cost (map contents_of objects.now)) (2 ^ 64 - 1) }
{
    let mut cost = 0u64;
    for object in objects {
        cost = cost.saturating_add(object_cost(&object.body));
    }
    cost
}

fn object_cost(body: &Body) -> u64
    ensures { result ≡ min (object_cost body.now) (2 ^ 64 - 1) }
{
    match body {
        Body::Bytes(bytes) => bytes_cost(bytes.len() as u64).saturating_add(1),
        Body::Class(_) => 1,
        Body::Segment(_) => 1,
        Body::User(_) => 1,
        _ => body.slots().saturating_add(1),
    }
}
