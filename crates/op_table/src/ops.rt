//! The op codes.
ghost use Rattle.std.specs.Prelude.{◌≡◌, ◌≢◌, ◌↔◌, ℕ, slice_get, IsNone, IfSome};
ghost use Rattle.op_table.specs.Ops.{row_for, widths, op_rows, row_at};
ghost use Rattle.op_table.specs.declared.ops.Op.{Op};

/// What one instruction does. Its operands follow its byte: a depth is one byte, any other operand
/// is four, the lowest first.
#[derive(Clone, Copy, Debug, PartialEq, Eq, Hash)]
pub enum Op {
    /// Puts the receiver.
    PushSelf,
    /// Puts nil.
    PushNil,
    /// Puts true.
    PushTrue,
    /// Puts false.
    PushFalse,
    /// Puts a value, the literal.
    PushLit,
    /// Puts a new string or array made of the literal.
    MakeLit,
    /// Puts the variable at a depth and an index.
    PushLocal,
    /// Stores into the variable at a depth and an index, and leaves the value.
    StoreLocal,
    /// Puts what the name, a literal, stands for.
    PushName,
    /// Stores under the name, a literal, and leaves the value.
    StoreName,
    /// Drops a value.
    Pop,
    /// Puts the uppermost value again.
    Dup,
    /// Sends the message of a selector, a literal, with a count of arguments.
    Send,
    /// The same, looked up from the superclass on.
    SuperSend,
    /// Puts a new block.
    PushBlock,
    /// Answers from the method.
    ReturnMethod,
    /// Answers from the method in which the block stands.
    ReturnHome,
    /// Answers from the block.
    ReturnBlock,
    /// Goes on at the target.
    Jump,
    /// Takes a Boolean, and goes on at the target if it is true.
    JumpTrue,
    /// Takes a Boolean, and goes on at the target if it is false.
    JumpFalse,
    /// Charges a unit.
    Unit,
    /// Opens a scope with a count of new variables.
    Enter,
    /// Closes the scope.
    Leave,
    /// Begins a loop with its first number and its limit.
    LoopStart,
    /// Leaves the loop for the target once the counter is past the limit, and else puts the
    /// counter.
    LoopNext,
    /// Adds one to the counter and goes on at the target.
    LoopStep,
}

/// An op with its byte and its shape.
#[derive(Clone, Copy, Debug, PartialEq, Eq, Hash)]
pub struct Row {
    /// The byte with which an instruction of this op begins.
    pub byte: u8,
    /// What the instruction does.
    pub op: Op,
    /// How many operands follow the byte.
    pub operands: u8,
    /// How many values it takes from the stack. `Send` and `SuperSend` take as many more as their
    /// count says.
    pub pops: u8,
    /// How many values it puts on the stack: of `LoopNext` where it goes on, and of `LoopStep`
    /// where it jumps.
    pub pushes: u8,
}

/// A table of `N` rows.
#[derive(Clone, Copy)]
pub struct Table<const N: usize> {
    /// The rows, each op's once.
    pub rows: &'static [Row; N],
}

macro_rules! table {
    ($($byte:literal $op:ident $operands:literal $pops:literal $pushes:literal)*) => {
        [$(Row {
            byte: $byte,
            op: Op::$op,
            operands: $operands,
            pops: $pops,
            pushes: $pushes,
        }),*]
    };
}

/// The table of the op codes, in the order of their bytes.
pub fn op_table() -> Table<27>
    ensures { result.rows.now ≡ op_rows }
{
    // Byte, op, operands, values taken, values put.
    static ROWS: [Row; 27] = table! {
        0x00 PushSelf 0 0 1
        0x01 PushNil 0 0 1
        0x02 PushTrue 0 0 1
        0x03 PushFalse 0 0 1
        0x04 PushLit 1 0 1
        0x05 MakeLit 1 0 1
        0x06 PushLocal 2 0 1
        0x07 StoreLocal 2 1 1
        0x08 PushName 1 0 1
        0x09 StoreName 1 1 1
        0x0a Pop 0 1 0
        0x0b Dup 0 1 2
        0x0c Send 2 1 1
        0x0d SuperSend 2 1 1
        0x0e PushBlock 1 0 1
        0x0f ReturnMethod 0 1 0
        0x10 ReturnHome 0 1 0
        0x11 ReturnBlock 0 1 0
        0x12 Jump 1 0 0
        0x13 JumpTrue 1 1 0
        0x14 JumpFalse 1 1 0
        0x15 Unit 0 0 0
        0x16 Enter 1 0 0
        0x17 Leave 0 0 0
        0x18 LoopStart 0 2 2
        0x19 LoopNext 1 2 3
        0x1a LoopStep 1 2 2
    };
    Table { rows: &ROWS }
}

/// The row of a byte. It takes no memory.
pub fn row_of(byte: u8) -> Option<Row>
    ensures value { result ≡ row_at byte }
    ensures found { IfSome result (λ row. (row ≡ row_for row.op) × (row.byte ≡ byte)) }
    ensures none { IsNone result ↔ ((op : Op) → (row_for op).byte ≢ byte) }
{
    let rows = op_table().rows;
    row_in(rows, usize::from(byte))
}

fn row_in(rows: &[Row], place: usize) -> Option<Row>
    ensures { result ≡ slice_get rows.now place }
{
    rows.get(place).copied()
}

/// The byte of an op. It takes no memory.
pub fn byte_of(op: Op) -> u8
    ensures { result ≡ (row_for op).byte }
{
    op_table().rows[op as usize].byte
}

/// How many bytes each operand of an op takes, in their order, the lowest byte of each first. It
/// takes no memory.
pub fn widths_of(op: Op) -> &'static [u8]
    ensures { result.now ≡ widths op }
{
    match op {
        Op::PushLocal | Op::StoreLocal => &[1, 4],
        Op::Send | Op::SuperSend => &[4, 4],
        Op::PushLit
        | Op::MakeLit
        | Op::PushName
        | Op::StoreName
        | Op::PushBlock
        | Op::Jump
        | Op::JumpTrue
        | Op::JumpFalse
        | Op::Enter
        | Op::LoopNext
        | Op::LoopStep => &[4],
        Op::PushSelf
        | Op::PushNil
        | Op::PushTrue
        | Op::PushFalse
        | Op::Pop
        | Op::Dup
        | Op::ReturnMethod
        | Op::ReturnHome
        | Op::ReturnBlock
        | Op::Unit
        | Op::Leave
        | Op::LoopStart => &[],
    }
}
