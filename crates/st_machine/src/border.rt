//! What stands between objects and variables: calls that do something to objects, said with the
//! variables at hand, which they leave as they are. A frame here has no scopes: those of the
//! activation that runs stand on a stack, and nothing here asks for them.
ghost use Rattle.std.specs.Prelude.{◌≡◌, true, false, None, Ok, IfSome};
ghost use Rattle.tree_meaning.specs.object_programs.Budget.{Budget};
ghost use Rattle.gem_language.specs.prim_rules.Rules.{rule_of};
ghost use Rattle.gem_language.specs.LookUp.{find_method};
ghost use Rattle.gem_language.specs.OutOfScope.{read_out_of_scope, write_out_of_scope};
ghost use Rattle.look_up_cache.specs.Memory.{told_by, with_budget};
ghost use Rattle.look_up_cache.specs.Table.{held_at};
ghost use Rattle.running_objects.specs.Ran.{Ran};
ghost use Rattle.st_machine.specs.AtOnce.{assigning};
ghost use Rattle.st_machine.specs.Parts.{framed};

use crate::finds::FindsMethods;
use crate::lack::Lack;
use crate::layers::Layers;
use crate::locals::Locals;
use crate::outline::Outline;
use gem_language::Found;
use gem_object::{Text, Value};
use prim_parts::PrimitiveAnswer;
use running_objects::{Objects, Stop};
use std::alloc::Global;
use tree_meaning::Mark;

/// The method that answers a message with this selector to `super`.
pub(crate) fn find_above<O: Objects>(
    objects: &mut O,
    locals: &Locals,
    chain: &Layers<Mark>,
    frame: &Outline,
    receiver: &Value,
    selector: &Text,
) -> Result<Option<Found>, Stop>
    ensures { Ran (find_method true (framed chain.now.own frame.now) receiver.now selector.now)
        (O.seen objects.old) locals.now result (O.seen objects.new) locals.now }
{
    st_outside::find_method(objects, true, frame.frame(), receiver, selector)
}

/// The place at which the method stands that answers a message with this selector to the receiver.
pub(crate) fn place_of_method<O: FindsMethods>(
    objects: &mut O,
    locals: &Locals,
    chain: &Layers<Mark>,
    frame: &Outline,
    receiver: &Value,
    selector: &Text,
) -> Result<usize, Stop>
    ensures { Ran (find_method false (framed chain.now.own frame.now) receiver.now selector.now)
        (O.seen objects.old) locals.now (told_by (O.founds objects.new) result)
        (O.seen objects.new) locals.now }
{
    objects.find_method(frame.frame(), receiver, selector)
}

/// The place at which what such a look-up finds stands, where that is known without a look at any
/// object, whatever the budget is.
pub(crate) fn known_place<O: FindsMethods>(
    objects: &O,
    locals: &Locals,
    chain: &Layers<Mark>,
    frame: &Outline,
    receiver: &Value,
    selector: &Text,
) -> Option<usize>
    ensures { IfSome result (λ at. (budget : Budget) → Ran
        (find_method false (framed chain.now.own frame.now) receiver.now selector.now)
        (with_budget budget (O.seen objects.now)) locals.now
        (Ok (held_at (O.founds objects.now) at)) (with_budget budget (O.seen objects.now))
        locals.now) }
{
    let at = objects.known_method(frame.frame(), receiver, selector)?;
    Some(at)
}

/// What the primitive of this number comes to.
#[inline(never)]
pub(crate) fn primitive<O: Objects>(
    alloc: Global,
    objects: &mut O,
    locals: &Locals,
    number: u8,
    receiver: &Value,
    arguments: &[Value],
) -> Result<PrimitiveAnswer, Stop>
    ensures { Ran (rule_of number receiver.now arguments.now) (O.seen objects.old) locals.now
        result (O.seen objects.new) locals.now }
{
    prim_calls::call(alloc, objects, number, receiver, arguments)
}

/// The value of a name that is no variable in scope.
pub(crate) fn read_name<O: FindsMethods>(
    objects: &mut O,
    locals: &Locals,
    chain: &Layers<Mark>,
    name: &Text,
    frame: &Outline,
) -> Result<Value, Stop>
    ensures { Ran (read_out_of_scope name.now (framed chain.now.own frame.now))
        (O.seen objects.old) locals.now result (O.seen objects.new) locals.now }
{
    objects.read_name(frame.frame(), name)
}

/// The same where it is known without a look at any object.
#[inline(always)]
pub(crate) fn known_variable<O: FindsMethods>(
    objects: &O,
    locals: &Locals,
    chain: &Layers<Mark>,
    name: &Text,
    frame: &Outline,
) -> Option<Value>
    ensures { IfSome result (λ value. Ran
        (read_out_of_scope name.now (framed chain.now.own frame.now)) (O.seen objects.now)
        locals.now (Ok value) (O.seen objects.now) locals.now) }
{
    let inner = frame.frame();
    let value = objects.known_variable(name, inner.receiver(), inner.holder(), inner.class_side())?;
    Some(value)
}

/// An assignment to a name that is no variable in scope; it answers the value.
pub(crate) fn write_name<O: FindsMethods>(
    objects: &mut O,
    locals: &Locals,
    chain: &Layers<Mark>,
    name: &Text,
    frame: &Outline,
    value: Value,
) -> Result<Value, Stop>
    ensures { Ran (write_out_of_scope name.now (framed chain.now.own frame.now) value)
        (O.seen objects.old) locals.now result (O.seen objects.new) locals.now }
{
    objects.write_name(frame.frame(), name, value)
}

/// The same where it is known that it ends well, if nothing is lacking for it.
#[inline(always)]
pub(crate) fn set_known_variable<O: FindsMethods>(
    objects: &mut O,
    locals: &Locals,
    chain: &Layers<Mark>,
    name: &Text,
    frame: &Outline,
    value: &Value,
) -> Option<Result<(), Lack>>
    ensures done { IfSome result (λ ended. Ran
        (write_out_of_scope name.now (framed chain.now.own frame.now) value.now)
        (O.seen objects.old) locals.now (assigning value.now ended) (O.seen objects.new)
        locals.now) }
    ensures unchanged { result ≡ None → objects.new ≡ objects.old }
{
    let inner = frame.frame();
    objects.set_known_variable(
        name,
        inner.receiver(),
        inner.holder(),
        inner.class_side(),
        value,
    )
}
