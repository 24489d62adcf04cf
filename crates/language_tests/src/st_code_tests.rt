//! Faults of code, worked out by hand.
use st_code::{BlockCode, Code, CodeFault};
use st_tree::{Literal, Literals};
use std::alloc::{AllocError, Global};
use std::process::Abort;
use std::test::Fail;
use texts::Text;

#[derive(Clone, Copy)]
enum Kind {
    Number,
    Symbol,
    Text,
    Many,
}

fn literal_of(alloc: Global, kind: Kind) -> Result<Literal, AllocError> {
    Ok(match kind {
        Kind::Number => Literal::Int(3),
        Kind::Symbol => Literal::Sym(Text::copy_of(alloc, b"foo")?),
        Kind::Text => Literal::Str(Text::copy_of(alloc, b"foo")?),
        Kind::Many => Literal::Array(Literals {
            items: Vec::new(alloc),
        }),
    })
}

fn literals_of(alloc: Global, kinds: &[Kind]) -> Result<Vec<Literal>, AllocError> {
    let mut literals = Vec::new(alloc);
    for kind in kinds {
        literals.push(literal_of(alloc, *kind)?)?;
    }
    Ok(literals)
}

fn fault_of(
    alloc: Global,
    bytes: &[u8],
    kinds: &[Kind],
    blocks: &[BlockCode],
) -> Result<Option<CodeFault>, AllocError> {
    let bytes = bytes.to_vec(alloc)?;
    if bytes.len() > 1_000 {
        return Ok(Some(CodeFault::NoMemory));
    }
    let literals = literals_of(alloc, kinds)?;
    match Code::check(bytes, literals, blocks.to_vec(alloc)?) {
        Ok(_) => Ok(None),
        Err(fault) => Ok(Some(fault)),
    }
}

/// Bytes, literals, blocks, and the fault.
type Case = (
    &'static [u8],
    &'static [Kind],
    &'static [BlockCode],
    Option<CodeFault>,
);

// The starts, parameters and temporaries of blocks.
macro_rules! blocks {
    ($($start:literal $params:literal $temps:literal),*) => {
        &[$(BlockCode { start: $start, params: $params, temps: $temps }),*]
    };
}

// The numbers of the cases that have another fault.
fn wrong(alloc: Global, cases: &[Case]) -> Result<Vec<usize>, AllocError> {
    let mut wrong = Vec::new(alloc);
    for (number, (bytes, kinds, blocks, fault)) in cases.iter().enumerate() {
        if fault_of(alloc, bytes, kinds, blocks)? != *fault {
            wrong.push(number)?;
        }
    }
    Ok(wrong)
}

// The list of blocks.
const BLOCKS: [Case; 7] = [
    (b"\x01\x0f", &[], blocks![0 0 0], None),
    (
        b"\x01\x0f",
        &[],
        blocks![],
        Some(CodeFault::Operand { at: 0 }),
    ),
    (b"", &[], blocks![0 0 0], Some(CodeFault::Operand { at: 0 })),
    (
        b"\x01\x0f",
        &[],
        blocks![1 0 0],
        Some(CodeFault::Operand { at: 0 }),
    ),
    (
        b"\x01\x0f\x01\x11",
        &[],
        blocks![0 0 0, 0 0 0],
        Some(CodeFault::Operand { at: 0 }),
    ),
    (
        b"\x01\x0f",
        &[],
        blocks![0 0 0, 2 0 0],
        Some(CodeFault::Operand { at: 0 }),
    ),
    (
        b"\x1b",
        &[],
        blocks![0 0 0, 3 0 0],
        Some(CodeFault::Operand { at: 0 }),
    ),
];

// Instructions that aren't there.
const BYTES: [Case; 4] = [
    (
        b"\x01\x1b",
        &[],
        blocks![0 0 0],
        Some(CodeFault::Byte { at: 1 }),
    ),
    (
        b"\x01\x04\x00\x00",
        &[Kind::Number],
        blocks![0 0 0],
        Some(CodeFault::Byte { at: 1 }),
    ),
    (
        b"\x04\x00\x00\x00\x00\x0f",
        &[Kind::Number],
        blocks![0 0 0, 3 0 0],
        Some(CodeFault::Byte { at: 0 }),
    ),
    (
        b"\x12\x02\x00\x00\x00\x01\x0f\xff",
        &[],
        blocks![0 0 0],
        Some(CodeFault::Byte { at: 7 }),
    ),
];

// Targets; the last one is a loop, whose two ends come to 22 with the same stack.
const JUMPS: [Case; 7] = [
    (b"\x12\x05\x00\x00\x00\x01\x0f", &[], blocks![0 0 0], None),
    (
        b"\x12\x02\x00\x00\x00\x01\x0f",
        &[],
        blocks![0 0 0],
        Some(CodeFault::Jump { at: 0 }),
    ),
    (
        b"\x12\x07\x00\x00\x00\x01\x0f",
        &[],
        blocks![0 0 0],
        Some(CodeFault::Jump { at: 0 }),
    ),
    (
        b"\x01\x0f\x12\x09\x00\x00\x00\x01\x0f",
        &[],
        blocks![0 0 0],
        Some(CodeFault::Jump { at: 2 }),
    ),
    (
        b"\x0e\x01\x00\x00\x00\x0f\x12\x05\x00\x00\x00",
        &[],
        blocks![0 0 0, 6 0 0],
        Some(CodeFault::Jump { at: 6 }),
    ),
    (
        b"\x08\x00\x00\x00\x00\x12\x00\x01\x00\x00",
        &[],
        blocks![0 0 0],
        Some(CodeFault::Jump { at: 5 }),
    ),
    (
        b"\x04\x00\x00\x00\x00\x04\x00\x00\x00\x00\x18\x19\x16\x00\x00\x00\x0a\x1a\x0b\x00\x00\x00\x01\x0f",
        &[Kind::Number],
        blocks![0 0 0],
        None,
    ),
];

// Literals.
const OPERANDS: [Case; 11] = [
    (
        b"\x04\x00\x00\x00\x00\x0f",
        &[Kind::Number],
        blocks![0 0 0],
        None,
    ),
    (
        b"\x04\x00\x00\x00\x00\x0f",
        &[Kind::Symbol],
        blocks![0 0 0],
        None,
    ),
    (
        b"\x04\x01\x00\x00\x00\x0f",
        &[Kind::Number],
        blocks![0 0 0],
        Some(CodeFault::Operand { at: 0 }),
    ),
    (
        b"\x04\x00\x00\x00\x00\x0f",
        &[Kind::Text],
        blocks![0 0 0],
        Some(CodeFault::Operand { at: 0 }),
    ),
    (
        b"\x05\x00\x00\x00\x00\x0f",
        &[Kind::Text],
        blocks![0 0 0],
        None,
    ),
    (
        b"\x05\x00\x00\x00\x00\x0f",
        &[Kind::Many],
        blocks![0 0 0],
        None,
    ),
    (
        b"\x05\x00\x00\x00\x00\x0f",
        &[Kind::Number],
        blocks![0 0 0],
        Some(CodeFault::Operand { at: 0 }),
    ),
    (
        b"\x08\x00\x00\x00\x00\x0f",
        &[Kind::Symbol],
        blocks![0 0 0],
        None,
    ),
    (
        b"\x08\x00\x00\x00\x00\x0f",
        &[Kind::Number],
        blocks![0 0 0],
        Some(CodeFault::Operand { at: 0 }),
    ),
    (
        b"\x01\x0c\x00\x00\x00\x00\x00\x00\x00\x00\x0f",
        &[Kind::Symbol],
        blocks![0 0 0],
        None,
    ),
    (
        b"\x01\x0d\x00\x00\x00\x00\x00\x00\x00\x00\x0f",
        &[Kind::Many],
        blocks![0 0 0],
        Some(CodeFault::Operand { at: 1 }),
    ),
];

// Blocks that are pushed.
const PUSHES: [Case; 6] = [
    (
        b"\x0e\x01\x00\x00\x00\x0f\x01\x11",
        &[],
        blocks![0 0 0, 6 0 0],
        None,
    ),
    (
        b"\x01\x0f\x01\x11",
        &[],
        blocks![0 0 0, 2 0 0],
        Some(CodeFault::Operand { at: 2 }),
    ),
    (
        b"\x0e\x00\x00\x00\x00\x0f",
        &[],
        blocks![0 0 0],
        Some(CodeFault::Operand { at: 0 }),
    ),
    (
        b"\x0e\x01\x00\x00\x00\x0f",
        &[],
        blocks![0 0 0],
        Some(CodeFault::Operand { at: 0 }),
    ),
    (
        b"\x0e\x01\x00\x00\x00\x0a\x0e\x01\x00\x00\x00\x0f\x01\x11",
        &[],
        blocks![0 0 0, 12 0 0],
        Some(CodeFault::Operand { at: 6 }),
    ),
    (
        b"\x01\x0f\x0e\x01\x00\x00\x00\x11",
        &[],
        blocks![0 0 0, 2 0 0],
        Some(CodeFault::Operand { at: 2 }),
    ),
];

// Open scopes.
const SCOPES: [Case; 13] = [
    (b"\x06\x00\x00\x00\x00\x00\x0f", &[], blocks![0 1 0], None),
    (b"\x06\x00\x01\x00\x00\x00\x0f", &[], blocks![0 1 1], None),
    (
        b"\x06\x00\x00\x00\x00\x00\x0f",
        &[],
        blocks![0 0 0],
        Some(CodeFault::Operand { at: 0 }),
    ),
    (
        b"\x01\x07\x01\x00\x00\x00\x00\x0f",
        &[],
        blocks![0 1 0],
        Some(CodeFault::Operand { at: 1 }),
    ),
    (
        b"\x16\x02\x00\x00\x00\x06\x00\x01\x00\x00\x00\x17\x0f",
        &[],
        blocks![0 0 0],
        None,
    ),
    (
        b"\x16\x02\x00\x00\x00\x06\x00\x02\x00\x00\x00\x17\x0f",
        &[],
        blocks![0 0 0],
        Some(CodeFault::Operand { at: 5 }),
    ),
    (
        b"\x16\x02\x00\x00\x00\x17\x06\x00\x01\x00\x00\x00\x0f",
        &[],
        blocks![0 0 0],
        Some(CodeFault::Operand { at: 6 }),
    ),
    (
        b"\x17\x01\x0f",
        &[],
        blocks![0 0 0],
        Some(CodeFault::Operand { at: 0 }),
    ),
    (
        b"\x0e\x01\x00\x00\x00\x0f\x06\x01\x02\x00\x00\x00\x11",
        &[],
        blocks![0 1 2, 6 2 0],
        None,
    ),
    (
        b"\x0e\x01\x00\x00\x00\x0f\x06\x00\x02\x00\x00\x00\x11",
        &[],
        blocks![0 1 2, 6 2 0],
        Some(CodeFault::Operand { at: 6 }),
    ),
    (
        b"\x0e\x01\x00\x00\x00\x0f\x17\x01\x11",
        &[],
        blocks![0 1 2, 6 2 0],
        Some(CodeFault::Operand { at: 6 }),
    ),
    (
        b"\x02\x13\x0b\x00\x00\x00\x16\x01\x00\x00\x00\x01\x0f",
        &[],
        blocks![0 0 0],
        Some(CodeFault::Operand { at: 11 }),
    ),
    (
        b"\x01\x0f\x0e\x01\x00\x00\x00\x0f\x06\x07\x00\x00\x00\x00\x11",
        &[],
        blocks![0 0 0, 8 0 0],
        None,
    ),
];

// The stack.
const HEIGHTS: [Case; 10] = [
    (
        b"\x0a\x01\x0f",
        &[],
        blocks![0 0 0],
        Some(CodeFault::Stack { at: 0 }),
    ),
    (
        b"\x01\x01\x0f",
        &[],
        blocks![0 0 0],
        Some(CodeFault::Stack { at: 2 }),
    ),
    (
        b"\x01",
        &[],
        blocks![0 0 0],
        Some(CodeFault::Stack { at: 0 }),
    ),
    (b"\x01\x0f\x0a\x0a", &[], blocks![0 0 0], None),
    (
        b"\x02\x13\x07\x00\x00\x00\x01\x01\x0f",
        &[],
        blocks![0 0 0],
        Some(CodeFault::Stack { at: 7 }),
    ),
    (
        b"\x01\x0c\x00\x00\x00\x00\x01\x00\x00\x00\x0f",
        &[Kind::Symbol],
        blocks![0 0 0],
        Some(CodeFault::Stack { at: 1 }),
    ),
    (
        b"\x01\x01\x0c\x00\x00\x00\x00\x01\x00\x00\x00\x0f",
        &[Kind::Symbol],
        blocks![0 0 0],
        None,
    ),
    (b"\x01\x0b\x0a\x0f", &[], blocks![0 0 0], None),
    (
        b"\x0e\x01\x00\x00\x00\x0f\x01",
        &[],
        blocks![0 0 0, 6 0 0],
        Some(CodeFault::Stack { at: 6 }),
    ),
    (
        b"\x0a\x04\x00\x00\x00\x00\x0f",
        &[],
        blocks![0 0 0],
        Some(CodeFault::Operand { at: 1 }),
    ),
];

fn check<R: Abort>(rt: &R, alloc: Global, cases: &[Case]) -> Result<(), Fail> {
    let wrong = wrong(alloc, cases)?;
    assert_eq!(rt; wrong.as_slice(), [].as_slice());
    Ok(())
}

#[test]
fn faults_of_blocks(rt: HostRuntime) -> Result<(), Fail> {
    check(&rt, rt.alloc(), &BLOCKS)
}

#[test]
fn faults_of_bytes(rt: HostRuntime) -> Result<(), Fail> {
    check(&rt, rt.alloc(), &BYTES)
}

#[test]
fn faults_of_jumps(rt: HostRuntime) -> Result<(), Fail> {
    check(&rt, rt.alloc(), &JUMPS)
}

#[test]
fn faults_of_operands(rt: HostRuntime) -> Result<(), Fail> {
    check(&rt, rt.alloc(), &OPERANDS)
}

#[test]
fn faults_of_pushes(rt: HostRuntime) -> Result<(), Fail> {
    check(&rt, rt.alloc(), &PUSHES)
}

#[test]
fn faults_of_scopes(rt: HostRuntime) -> Result<(), Fail> {
    check(&rt, rt.alloc(), &SCOPES)
}

#[test]
fn faults_of_heights(rt: HostRuntime) -> Result<(), Fail> {
    check(&rt, rt.alloc(), &HEIGHTS)
}
