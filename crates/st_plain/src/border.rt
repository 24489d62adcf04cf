//! What stands between objects and variables: calls that do something to objects, said with the
//! variables at hand, which they leave as they are.
ghost use Rattle.prim_rules.specs.Rules.{rule_of};
ghost use Rattle.gem_language.specs.LookUp.{find_method};
ghost use Rattle.gem_language.specs.OutOfScope.{read_out_of_scope, write_out_of_scope};
ghost use Rattle.running_objects.specs.Ran.{Ran};

use gem_language::Found;
use gem_object::{Text, Value};
use prim_rules::PrimitiveAnswer;
use running_objects::{Objects, Stop};
use st_locals::{Frame, Locals};
use std::alloc::Global;

/// The method that answers a message with this selector to the receiver.
pub(crate) fn find_method<O: Objects>(
    objects: &mut O,
    locals: &Locals,
    to_super: bool,
    frame: &Frame,
    receiver: &Value,
    selector: &Text,
) -> Result<Option<Found>, Stop>
    ensures { Ran (find_method to_super frame.now receiver.now selector.now)
        (O.seen objects.old) locals.now result (O.seen objects.new) locals.now }
{
    st_outside::find_method(objects, to_super, frame, receiver, selector)
}

/// What the primitive of this number comes to.
pub(crate) fn primitive<O: Objects>(
    alloc: Global,
    objects: &mut O,
    locals: &Locals,
    number: u8,
    receiver: &Value,
    arguments: &[Value],
) -> Result<PrimitiveAnswer, Stop>
    ensures { Ran (rule_of number receiver.now arguments.now) (O.seen objects.old) locals.now
        result (O.seen objects.new) locals.now }
{
    prim_calls::call(alloc, objects, number, receiver, arguments)
}

/// The value of a name that is no variable in scope.
pub(crate) fn read_name<O: Objects>(
    objects: &mut O,
    locals: &Locals,
    name: &Text,
    frame: &Frame,
) -> Result<Value, Stop>
    ensures { Ran (read_out_of_scope name.now frame.now) (O.seen objects.old) locals.now result
        (O.seen objects.new) locals.now }
{
    st_outside::read_name(objects, name, frame)
}

/// An assignment to a name that is no variable in scope; it answers the value.
pub(crate) fn write_name<O: Objects>(
    objects: &mut O,
    locals: &Locals,
    name: &Text,
    frame: &Frame,
    value: Value,
) -> Result<Value, Stop>
    ensures { Ran (write_out_of_scope name.now frame.now value) (O.seen objects.old) locals.now
        result (O.seen objects.new) locals.now }
{
    st_outside::write_name(objects, name, frame, value)
}
