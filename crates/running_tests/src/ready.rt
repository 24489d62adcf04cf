// Primitives that are ready: of two integers they answer what `chunk_tables` has in its rows, and
// where that is an error, or of anything else, they aren't ready.

use gem_object::{BlockRef, Value};

/// The first and the last integer of the language.
const FIRST: i64 = -1_152_921_504_606_846_976;

const LAST: i64 = 1_152_921_504_606_846_975;

/// What the primitive of this number is ready to answer, where that is an integer.
fn integer(number: u8, receiver: i64, argument: i64) -> Option<i64> {
    let arguments = [Value::Int(argument)];
    match prim_calls::ready(number, &Value::Int(receiver), &arguments) {
        Some(Value::Int(answer)) => Some(answer),
        _ => None,
    }
}

/// The same, where that is a truth.
fn truth(number: u8, receiver: i64, argument: i64) -> Option<bool> {
    let arguments = [Value::Int(argument)];
    match prim_calls::ready(number, &Value::Int(receiver), &arguments) {
        Some(Value::True) => Some(true),
        Some(Value::False) => Some(false),
        _ => None,
    }
}

/// Whether it is ready for two integers.
fn is_ready(number: u8) -> bool {
    let arguments = [Value::Int(2)];
    prim_calls::ready(number, &Value::Int(7), &arguments).is_some()
}

/// Whether it is ready for this receiver and an integer.
fn is_ready_for(number: u8, receiver: Value) -> bool {
    let arguments = [Value::Int(2)];
    prim_calls::ready(number, &receiver, &arguments).is_some()
}

/// Whether it is ready for an integer and this argument.
fn is_ready_with(number: u8, argument: Value) -> bool {
    let arguments = [argument];
    prim_calls::ready(number, &Value::Int(7), &arguments).is_some()
}

/// Whether it is ready for an integer with no argument, or with two.
fn is_ready_for_others(number: u8) -> bool {
    let arguments = [Value::Int(2), Value::Int(2)];
    let none = prim_calls::ready(number, &Value::Int(7), &[]).is_some();
    none || prim_calls::ready(number, &Value::Int(7), &arguments).is_some()
}

#[test]
fn sums_and_products(rt: HostRuntime) {
    let rows = [
        (10, 3, 4, Some(7)),
        (10, -5, 3, Some(-2)),
        (10, LAST - 1, 1, Some(LAST)),
        (10, LAST, 1, None),
        (10, -LAST, -1, Some(FIRST)),
        (10, -LAST, -2, None),
        (11, 3, 4, Some(-1)),
        (11, -LAST, 1, Some(FIRST)),
        (11, -LAST, 2, None),
        (11, LAST, -1, None),
        (12, 6, 7, Some(42)),
        (12, -6, 7, Some(-42)),
        (
            12,
            1_073_741_824,
            1_073_741_823,
            Some(1_152_921_503_533_105_152),
        ),
        (12, 1_073_741_824, 1_073_741_824, None),
        (12, -1_073_741_824, 1_073_741_824, Some(FIRST)),
        (12, LAST, LAST, None),
    ];
    for &(number, receiver, argument, wanted) in &rows {
        assert_eq!(rt; integer(number, receiver, argument), wanted);
    }
}

#[test]
fn quotients_remainders_and_bits(rt: HostRuntime) {
    let rows = [
        (13, 7, 2, Some(3)),
        (13, -7, 2, Some(-4)),
        (13, 7, -2, Some(-4)),
        (13, -7, -2, Some(3)),
        (13, 7, 0, None),
        (13, FIRST, -1, None),
        (14, 7, 2, Some(1)),
        (14, -7, 2, Some(1)),
        (14, 7, -2, Some(-1)),
        (14, -7, -2, Some(-1)),
        (14, 7, 0, None),
        (14, FIRST, -1, Some(0)),
        (21, 12, 10, Some(8)),
        (21, -1, 255, Some(255)),
        (21, -4, -6, Some(-8)),
    ];
    for &(number, receiver, argument, wanted) in &rows {
        assert_eq!(rt; integer(number, receiver, argument), wanted);
    }
}

#[test]
fn comparisons(rt: HostRuntime) {
    let rows = [
        (1, 3, 3, true),
        (1, 3, 4, false),
        (2, 3, 3, true),
        (2, 3, 4, false),
        (17, 3, 4, true),
        (17, 4, 3, false),
        (17, 3, 3, false),
        (18, 3, 2, true),
        (18, 3, 3, false),
        (19, 3, 3, true),
        (19, 4, 3, false),
        (20, 3, 3, true),
        (20, 2, 3, false),
    ];
    for &(number, receiver, argument, wanted) in &rows {
        assert_eq!(rt; truth(number, receiver, argument), Some(wanted));
    }
}

#[test]
fn of_integers_alone(rt: HostRuntime) {
    let block = BlockRef {
        number: 5,
        params: 0,
    };
    for &number in &[1, 2, 10, 11, 12, 13, 14, 17, 18, 19, 20, 21] {
        assert!(rt; is_ready(number));
        assert!(rt; !is_ready_for(number, Value::Nil));
        assert!(rt; !is_ready_for(number, Value::Char(97)));
        assert!(rt; !is_ready_for(number, Value::Block(block)));
        assert!(rt; !is_ready_with(number, Value::Nil));
        assert!(rt; !is_ready_with(number, Value::Char(97)));
        assert!(rt; !is_ready_with(number, Value::Block(block)));
        assert!(rt; !is_ready_for_others(number));
    }
}

#[test]
fn no_others(rt: HostRuntime) {
    for &number in &[0, 3, 9, 15, 16, 22, 23, 24, 25, 26, 27, 28, 97] {
        assert!(rt; !is_ready(number));
    }
}
