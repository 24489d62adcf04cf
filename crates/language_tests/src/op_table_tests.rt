// The tables, row by row.
use op_table::{Kind, Op, PrimRow, Row, byte_of, op_table, prim_row, row_of};

// Byte, op, operands, values taken, values put.
const OP_ROWS: [(u8, Op, u8, u8, u8); 27] = [
    (0x00, Op::PushSelf, 0, 0, 1),
    (0x01, Op::PushNil, 0, 0, 1),
    (0x02, Op::PushTrue, 0, 0, 1),
    (0x03, Op::PushFalse, 0, 0, 1),
    (0x04, Op::PushLit, 1, 0, 1),
    (0x05, Op::MakeLit, 1, 0, 1),
    (0x06, Op::PushLocal, 2, 0, 1),
    (0x07, Op::StoreLocal, 2, 1, 1),
    (0x08, Op::PushName, 1, 0, 1),
    (0x09, Op::StoreName, 1, 1, 1),
    (0x0a, Op::Pop, 0, 1, 0),
    (0x0b, Op::Dup, 0, 1, 2),
    (0x0c, Op::Send, 2, 1, 1),
    (0x0d, Op::SuperSend, 2, 1, 1),
    (0x0e, Op::PushBlock, 1, 0, 1),
    (0x0f, Op::ReturnMethod, 0, 1, 0),
    (0x10, Op::ReturnHome, 0, 1, 0),
    (0x11, Op::ReturnBlock, 0, 1, 0),
    (0x12, Op::Jump, 1, 0, 0),
    (0x13, Op::JumpTrue, 1, 1, 0),
    (0x14, Op::JumpFalse, 1, 1, 0),
    (0x15, Op::Unit, 0, 0, 0),
    (0x16, Op::Enter, 1, 0, 0),
    (0x17, Op::Leave, 0, 0, 0),
    (0x18, Op::LoopStart, 0, 2, 2),
    (0x19, Op::LoopNext, 1, 2, 3),
    (0x1a, Op::LoopStep, 1, 2, 2),
];

#[test]
fn op_rows(rt: HostRuntime) {
    assert_eq!(rt; op_table().rows.len(), OP_ROWS.len());
    for &(byte, op, operands, pops, pushes) in &OP_ROWS {
        let row = Row {
            byte,
            op,
            operands,
            pops,
            pushes,
        };
        assert_eq!(rt; row_of(byte), Some(row));
        assert_eq!(rt; byte_of(op), byte);
    }
    assert_eq!(rt; row_of(0x1b), None);
    assert_eq!(rt; row_of(0x80), None);
    assert_eq!(rt; row_of(0xff), None);
}

const PRIM_ROWS: [(u8, &str, u8, Kind); 25] = [
    (1, "==", 1, Kind::Any),
    (9, "assignToSegment:", 1, Kind::Any),
    (14, r"\\", 1, Kind::Integer),
    (26, "printString:", 1, Kind::Integer),
    (27, "asInteger", 0, Kind::Character),
    (31, "value:value:value:", 3, Kind::Block),
    (36, "add:", 1, Kind::Ordered),
    (41, ",", 1, Kind::Sequence),
    (44, "at:put:", 2, Kind::Str),
    (49, "=", 1, Kind::Chars),
    (51, "asInteger", 0, Kind::Str),
    (52, "new", 0, Kind::Class),
    (53, "new:", 1, Kind::Class),
    (54, "subclass:instVarNames:inDictionary:", 3, Kind::Class),
    (63, "includesKey:", 1, Kind::Dictionary),
    (71, "group:authorization:", 2, Kind::Segment),
    (78, "defaultSegment", 0, Kind::User),
    (79, "newUser:", 1, Kind::UserClass),
    (80, "myUserProfile", 0, Kind::SystemClass),
    (82, "cr", 0, Kind::Transcript),
    (84, "incrementBy:", 1, Kind::Counter),
    (87, "occurrencesOf:", 1, Kind::Bag),
    (90, "at:put:", 2, Kind::RcDict),
    (95, "remove", 0, Kind::Queue),
    (96, "asArray", 0, Kind::Queue),
];

#[test]
fn prim_rows(rt: HostRuntime) {
    for &(number, selector, args, receiver) in &PRIM_ROWS {
        let row = PrimRow {
            number,
            selector,
            args,
            receiver,
        };
        assert_eq!(rt; prim_row(number), Some(row));
    }
    assert_eq!(rt; prim_row(0), None);
    assert_eq!(rt; prim_row(97), None);
    assert_eq!(rt; prim_row(255), None);
}
