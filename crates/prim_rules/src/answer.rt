//! What a primitive answers.

use gem_object::{BlockRef, Sequence, Value};

/// What a primitive comes to: a value, or a block that is to be evaluated.
#[derive(Debug, Drop)]
pub enum PrimitiveAnswer {
    /// The primitive answers this value.
    Gives(Value),
    /// It answers what the block answers when it is evaluated with these arguments, the first one
    /// first.
    Evaluates(BlockRef, Sequence<Value>),
}
