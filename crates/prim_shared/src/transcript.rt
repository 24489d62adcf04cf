//! The primitives 81 and 82, of the transcript.
ghost use Rattle.prim_rules.specs.Transcript.{row_81, row_82};
ghost use Rattle.prim_parts.specs.Does.{Does};

use crate::receivers::{ReceiverKind, read_receiver};
use gem_object::Value;
use prim_parts::{no_arguments, one_of, text_of_argument};
use prim_rules::PrimitiveAnswer;
use running_objects::{Objects, Stop};
use std::alloc::Global;

/// 81, `show:`: the receiver, after the text of the argument was written. E17 where the transcript
/// gets too long.
pub fn row_81<O: Objects>(
    alloc: Global,
    objects: &mut O,
    receiver: &Value,
    arguments: &[Value],
) -> Result<PrimitiveAnswer, Stop>
    ensures { Does (row_81 receiver.now arguments.now) (O.seen objects.old) result
        (O.seen objects.new) }
{
    let given = receiver.clone()?;
    read_receiver(objects, ReceiverKind::Plain, receiver)?;
    let value = one_of(arguments)?;
    let text = text_of_argument(alloc, objects, value)?;
    objects.show(text.bytes())?;
    Ok(PrimitiveAnswer::Gives(given))
}

/// 82, `cr`: the receiver, after an LF was written.
pub fn row_82<O: Objects>(
    objects: &mut O,
    receiver: &Value,
    arguments: &[Value],
) -> Result<PrimitiveAnswer, Stop>
    ensures { Does (row_82 receiver.now arguments.now) (O.seen objects.old) result
        (O.seen objects.new) }
{
    let given = receiver.clone()?;
    read_receiver(objects, ReceiverKind::Plain, receiver)?;
    no_arguments(arguments)?;
    objects.show(b"\n")?;
    Ok(PrimitiveAnswer::Gives(given))
}
