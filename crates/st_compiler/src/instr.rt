//! Instructions as the compiler puts them out.

use gem_object::{Text, Value};
use st_tree::Literal;

/// An instruction: an op code with its operands. A jump says how many instructions it passes, or by
/// how many it leads back.
#[derive(Debug, Drop)]
pub enum Instr {
    /// Puts the receiver.
    PushSelf,
    /// Puts nil.
    PushNil,
    /// Puts true.
    PushTrue,
    /// Puts false.
    PushFalse,
    /// Puts the value.
    PushLit(Value),
    /// Puts a new object, made of the string or the array.
    MakeLit(Literal),
    /// Puts the variable at this depth and index.
    PushLocal(usize, usize),
    /// Stores into the variable at this depth and index, and leaves the value.
    StoreLocal(usize, usize),
    /// Puts what the name stands for.
    PushName(Text),
    /// Stores under the name, and leaves the value.
    StoreName(Text),
    /// Drops a value.
    Pop,
    /// Puts the uppermost value again.
    Dup,
    /// Sends the message of the selector with so many arguments.
    Send(Text, usize),
    /// The same, looked up from the superclass on.
    SuperSend(Text, usize),
    /// Puts a new block, the one of this number.
    PushBlock(usize),
    /// Answers from the method.
    ReturnMethod,
    /// Answers from the method in which the block stands.
    ReturnHome,
    /// Answers from the block.
    ReturnBlock,
    /// Passes so many instructions.
    Jump(usize),
    /// Goes back by so many.
    JumpBack(usize),
    /// Takes a Boolean, and passes so many instructions if it is true.
    JumpTrue(usize),
    /// Takes a Boolean, and passes so many instructions if it is false.
    JumpFalse(usize),
    /// Spends a unit.
    TakeUnit,
    /// Opens a scope of so many variables.
    Enter(usize),
    /// Closes the scope.
    Leave,
    /// Begins a loop with its first number and its limit.
    LoopStart,
    /// Passes so many instructions once the counter is past the limit, and else puts the counter.
    LoopNext(usize),
    /// Adds one to the counter and goes back by so many.
    LoopStep(usize),
}

/// A block that is pushed.
#[derive(Debug, Drop)]
pub struct BlockBody {
    /// How many parameters it has.
    pub params: usize,
    /// How many temporaries it has.
    pub temps: usize,
    /// Its instructions.
    pub code: Vec<Instr>,
}
