//! Values.
ghost use Rattle.std.specs.Prelude.{◌≡◌};
ghost use Rattle.gem_object.specs.References.{reference_of};
ghost use Rattle.gem_object.specs.Spelling.{is_key};

use gem_value::Oid;
use std::alloc::AllocError;
use texts::Text;

/// A block that a chunk made.
#[derive(Clone, Copy, Debug, PartialEq, Eq, PartialOrd, Ord, Hash)]
pub struct BlockRef {
    /// Its number: the blocks that a chunk makes are numbered from 0, in the order in which they
    /// are made.
    pub number: u64,
    /// How many parameters it has.
    pub params: u32,
}

/// What a slot holds. Values are ordered by their kinds, in this order, and within a kind by their
/// numbers or bytes.
#[derive(Debug, PartialEq, Eq, PartialOrd, Ord, Hash, Drop)]
pub enum Value {
    Nil,
    False,
    True,
    /// An integer. It is stored where it is one of the language's.
    Int(i64),
    /// A character, by its code. It is stored below 128.
    Char(u8),
    /// A symbol, by its bytes.
    Sym(Text),
    /// A reference to the object of this name.
    Ref(Oid),
    /// A block. It is never stored.
    Block(BlockRef),
}

impl Value {
    /// The name of the object that the value refers to. It takes no memory.
    pub fn reference(&self) -> Option<Oid>
        ensures { result ≡ reference_of self.now }
    {
        match self {
            Value::Ref(oid) => Some(*oid),
            _ => None,
        }
    }

    /// Whether the value may be a key of a reduced-conflict dictionary: it is neither nil, a
    /// reference nor a block. It takes no memory.
    pub fn is_key(&self) -> bool
        ensures { result ≡ is_key self.now }
    {
        match self {
            Value::False | Value::True => true,
            Value::Int(_) | Value::Char(_) | Value::Sym(_) => true,
            Value::Nil | Value::Ref(_) | Value::Block(_) => false,
        }
    }
}

impl Clone for Value {
    ghost is_clone = { λ value copy. copy ≡ value };

    #[inline(always)]
    fn clone(&self) -> Result<Value, AllocError> {
        Ok(match self {
            Value::Nil => Value::Nil,
            Value::False => Value::False,
            Value::True => Value::True,
            Value::Int(number) => Value::Int(*number),
            Value::Char(code) => Value::Char(*code),
            Value::Sym(name) => Value::Sym(name.clone()?),
            Value::Ref(oid) => Value::Ref(*oid),
            Value::Block(block) => Value::Block(*block),
        })
    }
}
