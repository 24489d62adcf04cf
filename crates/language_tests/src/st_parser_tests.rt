//! Trees and faults of texts, worked out by hand.
use st_parser::{ParseFault, parse_chunk, parse_method};
use st_tree::{Literal, Primary, Tree};
use std::alloc::{AllocError, Global};
use std::process::Abort;
use std::test::Fail;

fn fault_of(parsed: Result<Tree, ParseFault>) -> Option<(u32, u8)> {
    match parsed {
        Ok(_) => None,
        Err(ParseFault::Rule { at, rule }) => Some((at, rule)),
        Err(ParseFault::NoMemory) => Some((0, 0)),
    }
}

fn fault_of_chunk(rt: &impl Abort, alloc: Global, text: &[u8]) -> Option<(u32, u8)> {
    assert!(rt; text.len() < 10_000);
    fault_of(parse_chunk(alloc, text))
}

fn fault_of_method(rt: &impl Abort, alloc: Global, text: &[u8]) -> Option<(u32, u8)> {
    assert!(rt; text.len() < 10_000);
    fault_of(parse_method(alloc, text))
}

// Where chunks fail, and by which rule.
const CHUNKS: [(&[u8], Option<(u32, u8)>); 43] = [
    (b"", None),
    (b"3 + }", Some((4, 1))),
    (b"3 + 'it", Some((4, 2))),
    (b"$", Some((0, 2))),
    (b"1152921504606846976", Some((0, 3))),
    (b"-1152921504606846975", None),
    (b"3 + } + ] foo", Some((4, 1))),
    (b"3 +\n", Some((4, 4))),
    (b"(3 + [4", Some((7, 5))),
    (b"[3 + (4", Some((7, 6))),
    (b"(3 + [4)", Some((7, 5))),
    (b"3 + 4 max: 9", None),
    (b"3 +", Some((3, 4))),
    (b"3 + - 4", Some((6, 4))),
    (b"3 - -4", None),
    (b"3--4", None),
    (b"#(--3)", None),
    (b"3 + -", Some((5, 4))),
    (b"super := 3", Some((6, 8))),
    (b"super", Some((5, 4))),
    (b"super foo; bar: 3 - 4; + 4", None),
    (b"| a a | a", Some((4, 7))),
    (b"[:x]", None),
    (b"[:x | x + 1. ^x. ]", None),
    (b"[ 3 )", Some((4, 5))),
    (b"( 3 ]", Some((4, 6))),
    (b"([3", Some((3, 5))),
    (b"#(1 -2 - 3 a b:c: d: + | (x nil) #(true) 'a')", None),
    (b"#(1 ]", Some((4, 6))),
    (b"[ + ]", Some((2, 5))),
    (
        b"a := b := 3 foo: 4 + 5 bar: [:y :z | | t | t := y. t]",
        None,
    ),
    (b"[:x | x := 3]", Some((8, 8))),
    (b"[:x | [:y | x := 3]]", Some((14, 8))),
    (b"[:x | [:y :y | y]]", Some((11, 7))),
    (b"[:x | | x | x]", Some((8, 7))),
    (b"[:x | [:x | x]]", None),
    (b"| t | [t := 3. | u | u]", Some((15, 5))),
    (b"#(1 (2 $a", Some((9, 6))),
    (b"^3. 4", Some((4, 4))),
    (b"[^3. 4]", Some((5, 5))),
    (b"x foo: 3; bar baz", Some((14, 4))),
    (b"3 ; foo", Some((2, 4))),
    (b"(a) := 3", Some((4, 4))),
];

#[test]
fn faults(rt: HostRuntime) -> Result<(), Fail> {
    for &(text, wanted) in &CHUNKS {
        assert_eq!(rt; fault_of_chunk(&rt, rt.alloc(), text), wanted);
    }
    Ok(())
}

// Brackets may be nested 200 deep, and no deeper.
#[test]
fn deep(rt: HostRuntime) -> Result<(), Fail> {
    let alloc = rt.alloc();
    let mut text = Vec::new(alloc);
    push_often(&mut text, b"(", 200)?;
    text.push(b'3')?;
    push_often(&mut text, b")", 200)?;
    assert_eq!(rt; fault_of_chunk(&rt, alloc, &text), None);
    Ok(())
}

// What stands before 201 pieces, the piece, and the place of the bracket that is one too many.
const TOO_DEEP: [(&[u8], &[u8], u32); 6] = [
    (b"", b"(", 200),
    (b"", b"[", 200),
    (b"", b"#(", 400),
    (b"#(", b"(", 201),
    (b"x := ", b"([", 205),
    (b"[ :x | ", b"x foo: #(1) bar: (", 3596),
];

#[test]
fn too_deep(rt: HostRuntime) -> Result<(), Fail> {
    let alloc = rt.alloc();
    for &(front, piece, at) in &TOO_DEEP {
        let text = repeated(alloc, front, piece)?;
        assert_eq!(rt; fault_of_chunk(&rt, alloc, &text), Some((at, 9)));
    }
    Ok(())
}

fn repeated(alloc: Global, front: &[u8], piece: &[u8]) -> Result<Vec<u8>, AllocError> {
    let mut text = front.to_vec(alloc)?;
    push_often(&mut text, piece, 201)?;
    Ok(text)
}

fn push_often(text: &mut Vec<u8>, piece: &[u8], count: usize) -> Result<(), AllocError> {
    for _ in 0..count {
        text.extend_from_slice(piece)?;
    }
    Ok(())
}

// A chunk of 65,536 bytes, of messages of each kind in a row and in parentheses that are nested 199
// deep.
#[test]
fn long(rt: HostRuntime) -> Result<(), Fail> {
    let alloc = rt.alloc();
    let mut text = Vec::new(alloc);
    push_often(&mut text, b"(", 199)?;
    text.extend_from_slice(b"account")?;
    push_often(&mut text, b" foo + 1", 8_017)?;
    push_often(&mut text, b") k: 1", 199)?;
    assert!(rt; text.len() == 65_536);
    assert_eq!(rt; fault_of(parse_chunk(alloc, &text)), None);
    Ok(())
}

// Binary messages are sent before keyword messages.
#[test]
fn order_of_messages(rt: HostRuntime) -> Result<(), Fail> {
    let tree = parse_chunk(rt.alloc(), b"3 + 4 max: 9")?;
    assert_eq!(rt; tree.body.len(), 1);
    for statement in &tree.body {
        assert_eq!(rt; statement.expr.messages.len(), 2);
        assert!(rt; statement.expr.messages[0].selector.bytes() == b"+".as_slice());
        assert!(rt; statement.expr.messages[1].selector.bytes() == b"max:".as_slice());
    }
    Ok(())
}

// A `-` that touches a number is its sign where a head may stand, and a message elsewhere.
#[test]
fn signs(rt: HostRuntime) -> Result<(), Fail> {
    let tree = parse_chunk(rt.alloc(), b"-7 // 2. 3 -4")?;
    assert_eq!(rt; tree.body.len(), 2);
    let quotient = &tree.body[0].expr;
    assert!(rt; matches!(quotient.head, Primary::Lit(Literal::Int(-7))));
    assert_eq!(rt; quotient.messages.len(), 1);
    assert!(rt; quotient.messages[0].selector.bytes() == b"//".as_slice());
    let difference = &tree.body[1].expr;
    assert!(rt; matches!(difference.head, Primary::Lit(Literal::Int(3))));
    assert_eq!(rt; difference.messages.len(), 1);
    assert!(rt; difference.messages[0].selector.bytes() == b"-".as_slice());
    Ok(())
}

// What stands in a literal array, and the receiver of a cascade.
#[test]
fn arrays_and_cascades(rt: HostRuntime) -> Result<(), Fail> {
    let tree = parse_chunk(rt.alloc(), b"#(1 -2 a b:c: nil) at: 3 - -4; + 5")?;
    assert_eq!(rt; tree.body.len(), 1);
    for statement in &tree.body {
        assert_eq!(rt; statement.expr.messages.len(), 1);
        assert_eq!(rt; statement.expr.cascade.len(), 1);
        let Primary::Lit(Literal::Array(array)) = &statement.expr.head else {
            return Err(Fail::new("no array"));
        };
        assert_eq!(rt; array.items.len(), 5);
        assert!(rt; matches!(array.items[1], Literal::Int(-2)));
        assert!(rt; matches!(&array.items[3], Literal::Sym(t) if t.bytes() == b"b:c:".as_slice()));
        assert!(rt; matches!(array.items[4], Literal::Nil));
    }
    Ok(())
}

// Methods of each form of pattern, and where others fail.
const METHODS: [(&[u8], Option<(u32, u8)>); 15] = [
    (b"sum | a | a := 3. ^a", None),
    (b"+ other ^self foo: other", None),
    (b"at: i put: x [:y | y foo: i]", None),
    (b"at: i put: i ^i", Some((11, 7))),
    (b"at: i put: x [:y | y := i]", Some((21, 8))),
    (b"", Some((0, 4))),
    (b"3", Some((0, 4))),
    (b"foo: 3", Some((5, 4))),
    (b"foo := 3", Some((4, 4))),
    (b"foo: x bar:", Some((11, 4))),
    (b"+ self", Some((2, 7))),
    (b"foo: a | a |", Some((9, 7))),
    (b"foo: a a := 3", Some((9, 8))),
    (b"| x ^self or: [x]", None),
    (b"| x | y | y", None),
];

#[test]
fn methods(rt: HostRuntime) -> Result<(), Fail> {
    for &(text, wanted) in &METHODS {
        assert_eq!(rt; fault_of_method(&rt, rt.alloc(), text), wanted);
    }
    Ok(())
}
