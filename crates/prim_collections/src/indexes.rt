//! Indexes of the language, which count from 1, and sizes.
ghost use Rattle.std.specs.Prelude.{◌≡◌, ◌<◌, pos, IfOk};
ghost use Rattle.gem_object.specs.declared.value.Value.TheVariants.{Int};
ghost use Rattle.object_programs.specs.Programs.{need};
ghost use Rattle.object_programs.specs.declared.fault.Fault.TheVariants as fault;
ghost use Rattle.prim_rules.specs.Indexes.{place_in, part_of};
ghost use Rattle.prim_parts.specs.Does.{Computes, pointed};

use gem_object::Value;
use object_programs::Fault;
use running_objects::Stop;
use std::alloc::AllocError;

/// The place of the item with this index among so many; E4 where there is none.
pub fn place_in(size: usize, index: i64) -> Result<usize, Stop>
    ensures place { Computes (need fault.Index (place_in size index)) result }
    ensures within { IfOk result (λ place. place < size) }
{
    if index < 1 {
        return Err(Stop::Fails(Fault::Index));
    }
    let number = index as usize;
    if number <= size {
        return Ok(number - 1);
    }
    Err(Stop::Fails(Fault::Index))
}

/// The items from one index to the other; E4 where these aren't the bounds of a part. The part is
/// empty where the second is one before the first.
pub fn part_of<T>(items: &[T], from: i64, to: i64) -> Result<&[T], Stop>
    ensures { Computes (need fault.Index (part_of items.now from to)) (pointed result) }
{
    if from < 1 || to < from - 1 {
        return Err(Stop::Fails(Fault::Index));
    }
    let start = from as usize - 1;
    let end = to as usize;
    if end <= items.len() {
        return Ok(&items[start..end]);
    }
    Err(Stop::Fails(Fault::Index))
}

/// A size as an integer. No memory has room for so many items that it isn't one.
pub fn size_of(size: usize) -> Result<Value, AllocError>
    ensures { IfOk result (λ value. value ≡ Int (pos size)) }
{
    match i64::try_from(size) {
        Ok(number) => Ok(Value::Int(number)),
        Err(_) => Err(AllocError),
    }
}
