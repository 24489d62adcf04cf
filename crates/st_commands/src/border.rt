//! What stands between objects and variables: calls that do something to objects, said with the
//! variables at hand, which they leave as they are.
ghost use Rattle.object_programs.specs.Atom.{Tick};
ghost use Rattle.object_programs.specs.Run.{atom};
ghost use Rattle.gem_language.specs.prim_rules.Printing.{print_text};
ghost use Rattle.gem_language.specs.Literals.{literal_value};
ghost use Rattle.st_tree.specs.Views.{constant_of};
ghost use Rattle.running_objects.specs.Ran.{Ran};

use crate::printing::print_value;
use gem_object::{Text, Value};
use running_objects::{Objects, Stop};
use st_locals::Activations;
use st_tree::Literal;
use std::alloc::Global;

/// Takes a unit: E13 where none is left.
pub fn take_unit<O: Objects, L: Activations>(objects: &mut O, locals: &L) -> Result<(), Stop>
    ensures { Ran (atom Tick) (O.seen objects.old) (L.local locals.now) result (O.seen objects.new)
        (L.local locals.now) }
{
    objects.tick()
}

/// The new object of a string or an array that is written out in the text.
pub fn literal<O: Objects, L: Activations>(
    alloc: Global,
    objects: &mut O,
    locals: &L,
    literal: &Literal,
) -> Result<Value, Stop>
    ensures { Ran (literal_value (constant_of literal.now)) (O.seen objects.old)
        (L.local locals.now) result (O.seen objects.new) (L.local locals.now) }
{
    st_outside::literal(alloc, objects, literal)
}

/// The print text of a value.
pub fn print<O: Objects, L: Activations>(
    alloc: Global,
    objects: &mut O,
    locals: &L,
    value: &Value,
) -> Result<Text, Stop>
    ensures { Ran (print_text value.now) (O.seen objects.old) (L.local locals.now) result
        (O.seen objects.new) (L.local locals.now) }
{
    print_value(alloc, objects, value)
}
