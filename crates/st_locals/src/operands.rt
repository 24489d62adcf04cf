//! What the special forms ask of values, and the values of literals.
ghost use Rattle.std.specs.Prelude.{◌≡◌, IfOk};
ghost use Rattle.st_tree.specs.Views.{constant_of};
ghost use Rattle.tree_meaning.specs.Names.{singleton_value};
ghost use Rattle.tree_meaning.specs.Operands.{truth_of, int_pair};
ghost use Rattle.tree_meaning.specs.Meaning.{plain_constant};

use gem_object::Value;
use st_tree::Literal;
use std::alloc::AllocError;
use tree_meaning::{Pair, Singleton, Truth};

/// What a value is as a condition.
pub fn truth_of(value: &Value) -> Truth
    ensures { result ≡ truth_of value.now }
{
    match value {
        Value::True => Truth::True,
        Value::False => Truth::False,
        _ => Truth::Neither,
    }
}

/// What two values are as the ends of a counting loop.
pub fn int_pair(first: &Value, limit: &Value) -> Pair
    ensures { result ≡ int_pair first.now limit.now }
{
    match (first, limit) {
        (Value::Int(first), Value::Int(limit)) => Pair::Ints(*first, *limit),
        _ => Pair::Others,
    }
}

/// The value of a name that always stands for the same object. It takes no memory.
pub fn singleton_value(singleton: Singleton) -> Value
    ensures { result ≡ singleton_value singleton }
{
    match singleton {
        Singleton::Nil => Value::Nil,
        Singleton::True => Value::True,
        Singleton::False => Value::False,
    }
}

/// The value that a literal stands for. None exactly for a string and an array, each of which is a
/// new object. Err where a symbol finds no memory.
pub fn plain_constant(literal: &Literal) -> Result<Option<Value>, AllocError>
    ensures { IfOk result (λ answer. answer ≡ plain_constant (constant_of literal.now)) }
{
    Ok(match literal {
        Literal::Int(number) => Some(Value::Int(*number)),
        Literal::Char(code) => Some(Value::Char(*code)),
        Literal::Sym(bytes) => Some(Value::Sym(bytes.clone()?)),
        Literal::Nil => Some(Value::Nil),
        Literal::True => Some(Value::True),
        Literal::False => Some(Value::False),
        Literal::Str(_) => None,
        Literal::Array(_) => None,
    })
}
