//! How rules end.
ghost use Rattle.std.specs.Prelude.{◌≡◌, true, false, List, Some};
ghost use Rattle.gem_object.specs.declared.value.Value.{Value};
ghost use Rattle.gem_sound.specs.gem_image.Image.{Contents};
ghost use Rattle.object_programs.specs.Methods.{methods_fit};
ghost use Rattle.object_programs.specs.Run.{and_then};
ghost use Rattle.object_programs.specs.Programs.{replace_body, update};
ghost use Rattle.prim_rules.specs.Receivers.{answer, answer_array};
ghost use Rattle.running_objects.specs.Seen.{object_at};
ghost use Rattle.prim_parts.specs.Does.{Does};
ghost use Rattle.prim_shared.specs.Told.{fits_array};

use gem_object::{Body, Oid, Value, Values};
use gem_sound::names::{ARRAY_CLASS, kernel_name};
use gem_update::Update;
use object_programs::Fault;
use prim_parts::{default_segment, new_object, replace_body, update};
use prim_rules::PrimitiveAnswer;
use running_objects::{Objects, Stop};
use std::alloc::Global;

/// A receiver that was written gets this body, which takes so much more space, and the value is the
/// answer.
pub fn answer_replaced<O: Objects>(
    objects: &mut O,
    name: Oid,
    body: Body,
    growth: u64,
    value: &Value,
) -> Result<PrimitiveAnswer, Stop>
    requires { methods_fit name body ≡ true }
    ensures { (object : Contents) → object_at name (O.seen objects.old) ≡ Some object
        → Does (and_then (replace_body growth name object body) (λ replaced. answer value.now))
        (O.seen objects.old) result (O.seen objects.new) }
{
    let given = value.clone()?;
    replace_body(objects, name, body, growth)?;
    Ok(PrimitiveAnswer::Gives(given))
}

/// A receiver that was written is updated, which takes so much more space, and the value is the
/// answer; the error where the update is refused.
pub fn answer_updated<O: Objects>(
    objects: &mut O,
    name: Oid,
    change: Update,
    refusal: Fault,
    growth: u64,
    value: &Value,
) -> Result<PrimitiveAnswer, Stop>
    ensures { (object : Contents) → object_at name (O.seen objects.old) ≡ Some object
        → Does (and_then (update refusal growth name object change)
        (λ updated. answer value.now)) (O.seen objects.old) result (O.seen objects.new) }
{
    let given = value.clone()?;
    update(objects, name, change, refusal, growth)?;
    Ok(PrimitiveAnswer::Gives(given))
}

/// A new Array of these values is the answer.
pub fn answer_array<O: Objects>(
    alloc: Global,
    objects: &mut O,
    values: Values,
) -> Result<PrimitiveAnswer, Stop>
    ensures { Does (answer_array values) (O.seen objects.old) result (O.seen objects.new) }
{
    let array = new_object(
        alloc,
        objects,
        kernel_name(ARRAY_CLASS),
        Body::Plain(values),
    )?;
    Ok(PrimitiveAnswer::Gives(array))
}

/// The answer in place of a new Array of too many values, which weren't listed: E17, after the
/// profile was read for the segment.
pub fn refuse_array<O: Objects>(objects: &mut O) -> Result<PrimitiveAnswer, Stop>
    ensures { (values : List Value) → fits_array values ≡ false
        → Does (answer_array values) (O.seen objects.old) result (O.seen objects.new) }
{
    default_segment(objects)?;
    Err(Stop::Fails(Fault::ObjectTooLarge))
}
