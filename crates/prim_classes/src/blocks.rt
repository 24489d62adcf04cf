//! The primitives 28 to 32, of blocks. They look at no objects.
ghost use Rattle.std.specs.Prelude.{◌≡◌, IfOk};
ghost use Rattle.prim_rules.specs.Blocks.{value_row, row_32};
ghost use Rattle.prim_parts.specs.Does.{Computes};

use gem_object::{Sequence, Value, Values};
use object_programs::Fault;
use prim_parts::{block_in, check, no_arguments};
use prim_rules::PrimitiveAnswer;
use running_objects::Stop;
use std::alloc::{AllocError, Global};

/// 28 to 31, `value` and its like with so many arguments.
pub fn value_row(
    alloc: Global,
    count: usize,
    receiver: &Value,
    arguments: &[Value],
) -> Result<PrimitiveAnswer, Stop>
    ensures { Computes (value_row count receiver.now arguments.now) result }
{
    let block = block_in(receiver)?;
    check(Fault::ArgumentKind, arguments.len() == count)?;
    check(Fault::BlockArgumentCount, block.params as usize == count)?;
    Ok(PrimitiveAnswer::Evaluates(block, copies(alloc, arguments)?))
}

/// Copies of values.
pub fn copies(alloc: Global, values: &[Value]) -> Result<Values, AllocError>
    ensures { IfOk result (λ made. made ≡ values.now) }
{
    Ok(Sequence::of(values.to_vec(alloc)?))
}

/// 32, `numArgs`.
pub fn row_32(receiver: &Value, arguments: &[Value]) -> Result<PrimitiveAnswer, Stop>
    ensures { Computes (row_32 receiver.now arguments.now) result }
{
    let block = block_in(receiver)?;
    no_arguments(arguments)?;
    Ok(PrimitiveAnswer::Gives(Value::Int(block.params as i64)))
}
