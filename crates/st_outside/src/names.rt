//! Names that are no variables in scope.
ghost use Rattle.std.specs.Prelude.{◌≡◌};
ghost use Rattle.object_programs.specs.Run.{give, and_then};
ghost use Rattle.gem_language.specs.OutOfScope.{instance_names, slot_of, value_of_name, read_out_of_scope, assign_name, write_out_of_scope};
ghost use Rattle.prim_parts.specs.Does.{Does};

use crate::globals::{global_value, undefined};
use crate::instances::{instance_value, set_instance_value, variable_index};
use gem_object::{Text, Value};
use running_objects::{Objects, Stop};
use st_locals::Frame;

/// The value of a name that is no variable in scope: of an instance variable of the class that
/// holds the frame's method, and else of a global; E2 where there is none. That class and all above
/// it are read, and then what has the value: E10 where the user may not. It copies the value, and a
/// global's name.
pub fn read_name<O: Objects>(objects: &mut O, name: &Text, frame: &Frame) -> Result<Value, Stop>
    ensures { Does (read_out_of_scope name.now frame.now) (O.seen objects.old) result
        (O.seen objects.new) }
{
    let slot = slot_of(objects, name, frame)?;
    value_of_name(objects, name, frame, slot)
}

/// An assignment to such a name: to an instance variable, for which the receiver is written (E11
/// where the user may not), and else E2. It answers a copy of the value. A block is E12.
pub fn write_name<O: Objects>(
    objects: &mut O,
    name: &Text,
    frame: &Frame,
    value: Value,
) -> Result<Value, Stop>
    ensures { Does (write_out_of_scope name.now frame.now value) (O.seen objects.old) result
        (O.seen objects.new) }
{
    let slot = slot_of(objects, name, frame)?;
    assign_name(objects, name, frame, slot, value)
}

// The slot of the instance variable of this name; none in a method of the class side.
fn slot_of<O: Objects>(objects: &mut O, name: &Text, frame: &Frame) -> Result<Option<usize>, Stop>
    ensures { Does (and_then (instance_names frame.now.holder)
        (λ names. give (slot_of frame.now.class_side name.now names))) (O.seen objects.old) result
        (O.seen objects.new) }
{
    let found = variable_index(objects, frame.holder(), name)?;
    if frame.class_side() {
        return Ok(None);
    }
    Ok(found)
}

/// What `read_name` gives once it is told in which slot the instance variable of this name stands.
/// Where it is none, for there is no such variable or the method is one of the class side, the
/// value is a global's. That the slot is the name's own isn't claimed.
pub fn value_of_name<O: Objects>(
    objects: &mut O,
    name: &Text,
    frame: &Frame,
    slot: Option<usize>,
) -> Result<Value, Stop>
    ensures { Does (value_of_name name.now frame.now slot) (O.seen objects.old) result
        (O.seen objects.new) }
{
    match slot {
        Some(slot) => instance_value(objects, frame.receiver(), slot),
        None => global_value(objects, name),
    }
}

/// What `write_name` does once it is told in which slot the instance variable of this name stands.
/// That the slot is the name's own isn't claimed.
pub fn assign_name<O: Objects>(
    objects: &mut O,
    name: &Text,
    frame: &Frame,
    slot: Option<usize>,
    value: Value,
) -> Result<Value, Stop>
    ensures { Does (assign_name name.now frame.now slot value) (O.seen objects.old) result
        (O.seen objects.new) }
{
    match slot {
        Some(slot) => set_instance_value(objects, frame.receiver(), slot, value),
        None => undefined(name),
    }
}
