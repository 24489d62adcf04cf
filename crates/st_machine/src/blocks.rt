//! Blocks that are evaluated by the primitives for it.
ghost use Rattle.std.specs.Prelude.{◌≡◌, List, length, Ok, IfSome};
ghost use Rattle.gem_object.specs.declared.value.Value.{Value};
ghost use Rattle.gem_language.specs.prim_rules.Rules.{rule_of};
ghost use Rattle.prim_parts.specs.prim_rules.declared.answer.PrimitiveAnswer.TheVariants.{Evaluates};
ghost use Rattle.prim_parts.specs.Does.{Computes};

use gem_object::{BlockRef, Value};

/// The number of the primitive `value`. Those with one, two and three arguments follow it.
const VALUE: usize = 28;

/// The block that the primitive of this number evaluates with so many arguments, where the receiver
/// is a block with as many parameters. None where it does anything else; of None the contract says
/// nothing.
pub(crate) fn block_called(number: u8, receiver: &Value, count: usize) -> Option<BlockRef>
    ensures { IfSome result (λ block. (arguments : List Value) → length arguments ≡ count
        → Computes (rule_of number receiver.now arguments) (Ok (Evaluates block arguments))) }
{
    let Value::Block(block) = receiver else {
        return None;
    };
    if count > 3 {
        return None;
    }
    if number as usize != VALUE + count {
        return None;
    }
    if block.params as usize != count {
        return None;
    }
    Some(*block)
}
