//! What is wrong with code.
ghost use Rattle.std.specs.Prelude.{◌≡◌, Some};
ghost use Rattle.st_code.specs.declared.fault.CodeFault.TheVariants.{NoMemory};
ghost use Rattle.st_code.specs.FaultText.{fault_text};

use std::alloc::{AllocError, AllocFailed};
use std::error::Error;
use std::fmt;

/// Why bytes, literals and blocks are no code. Each fault but the last has the lowest place at
/// which its rule breaks; the rules are tried in the order Byte, Jump, Operand, Stack.
#[derive(Clone, Copy, Debug, PartialEq, Eq)]
pub enum CodeFault {
    /// No instruction begins at the place, though the one before it ends there.
    Byte { at: u32 },
    /// The target of the jump at the place is no instruction of its block.
    Jump { at: u32 },
    /// A literal, a block or a variable that isn't there or isn't of the right kind, or a place at
    /// which ways meet that don't agree on the open scopes. Blocks that don't ascend from 0 break
    /// this rule at 0, before all other rules are tried.
    Operand { at: u32 },
    /// An instruction that finds too little on the stack, a return that finds more than one value,
    /// one behind which a way runs past its block's end, or a place at which ways meet that don't
    /// agree on the height.
    Stack { at: u32 },
    /// Memory ran out.
    NoMemory,
}

impl fmt::Display for CodeFault {
    ghost output = { λ fault. Some (fault_text fault) };

    fn fmt<W: fmt::Write>(&self, f: &mut fmt::Formatter<W>) -> fmt::Result {
        match *self {
            CodeFault::Byte { at } => write!(f, "byte at {at}"),
            CodeFault::Jump { at } => write!(f, "jump at {at}"),
            CodeFault::Operand { at } => write!(f, "operand at {at}"),
            CodeFault::Stack { at } => write!(f, "stack at {at}"),
            CodeFault::NoMemory => f.write_str("out of memory"),
        }
    }
}

impl Error for CodeFault {}

impl From<AllocError> for CodeFault {
    ghost from_gives = { λ _ fault. fault ≡ NoMemory };

    fn from(_: AllocError) -> CodeFault {
        CodeFault::NoMemory
    }
}

impl<T: Drop> From<AllocFailed<T>> for CodeFault {
    ghost from_gives = { λ _ fault. fault ≡ NoMemory };

    fn from(_: AllocFailed<T>) -> CodeFault {
        CodeFault::NoMemory
    }
}
