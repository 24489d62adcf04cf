//! What a value is printed as.
ghost use Rattle.gem_language.specs.prim_rules.Printing.{print_text};
ghost use Rattle.prim_parts.specs.Does.{Does};

use gem_object::{Text, Value};
use running_objects::{Objects, Stop};
use std::alloc::Global;

/// The text as which a value is printed, with the budget at hand. Each object that the text tells
/// of is read.
///
/// # Errors
///
/// `Fails` with the error by which the printing ends: E10 where an object may not be read, E17
/// where the text is too long. `NoMemory` where memory ran out; then only what every run keeps is
/// known.
pub fn print_value<O: Objects>(alloc: Global, objects: &mut O, value: &Value) -> Result<Text, Stop>
    ensures { Does (print_text value.now) (O.seen objects.old) result (O.seen objects.new) }
{
    prim_classes::print_text(alloc, objects, value)
}
