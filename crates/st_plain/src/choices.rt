//! What the evaluator decides by values.
ghost use Rattle.std.specs.Prelude.{◌≡◌, ◌≤◌, ◌^◌, nat_eq, length};
ghost use Rattle.st_tree.specs.Falls.{size_closure};
ghost use Rattle.gem_object.specs.declared.value.Value.TheVariants as value;
ghost use Rattle.tree_meaning.specs.Operands.{truth_of};
ghost use Rattle.tree_meaning.specs.Bodies.{params_count};
ghost use Rattle.st_plain.specs.Choices.{test_of, handed_value};

use gem_object::Value;
use object_programs::Fault;
use running_objects::Stop;
use st_locals::{MadeBlock, truth_of};
use tree_meaning::Truth;

/// Whether a condition is this truth value; E3 where it is none.
pub(crate) fn test(value: &Value, when: bool) -> Result<bool, Stop>
    ensures { result ≡ test_of (truth_of value.now) when }
{
    match truth_of(value) {
        Truth::True => Ok(when),
        Truth::False => Ok(!when),
        Truth::Neither => Err(Stop::Fails(Fault::NotBoolean)),
    }
}

/// What the body of a counting loop is handed, where it is handed the number.
pub(crate) fn handed(hands: bool, number: i64) -> Option<Value>
    ensures { result ≡ handed_value hands (value.Int number) }
{
    if hands {
        Some(Value::Int(number))
    } else {
        None
    }
}

/// Whether a block takes so many arguments. Its tree is no larger than the bound of made blocks.
pub(crate) fn takes(made: &MadeBlock, arguments: &[Value]) -> bool
    ensures takes { result ≡ nat_eq (length arguments.now) (params_count made.now.tree) }
    ensures bound { size_closure made.now.tree ≤ 2 ^ 40 }
{
    arguments.len() == made.tree().params.len()
}
