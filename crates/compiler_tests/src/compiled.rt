//! The code of texts, worked out by hand.
ghost use Rattle.std.specs.Prelude.{◌<◌, ◌≤◌, ◌^◌, length, IfOk};
ghost use Rattle.st_tree.specs.Falls.{size_program};

use gem_object::Value;
use st_compiler::{BlockBody, Instr, compile};
use st_parser::{ParseFault, parse_chunk, parse_method};
use st_tree::Tree;
use std::alloc::{AllocError, Global};
use std::test::Fail;

/// The byte of an op code with its numbers; of a text its length, and of a jump back the second.
type Shape = (u8, usize, usize);

fn value_shape(value: &Value) -> Shape {
    match value {
        Value::Int(number) if *number >= 0 => (0x04, *number as usize, 0),
        _ => (0x04, 0, 0),
    }
}

fn shape(one: &Instr) -> Shape {
    match one {
        Instr::PushSelf => (0x00, 0, 0),
        Instr::PushNil => (0x01, 0, 0),
        Instr::PushTrue => (0x02, 0, 0),
        Instr::PushFalse => (0x03, 0, 0),
        Instr::PushLit(value) => value_shape(value),
        Instr::MakeLit(_) => (0x05, 0, 0),
        Instr::PushLocal(depth, index) => (0x06, *depth, *index),
        Instr::StoreLocal(depth, index) => (0x07, *depth, *index),
        Instr::PushName(name) => (0x08, name.bytes().len(), 0),
        Instr::StoreName(name) => (0x09, name.bytes().len(), 0),
        Instr::Pop => (0x0a, 0, 0),
        Instr::Dup => (0x0b, 0, 0),
        Instr::Send(selector, count) => (0x0c, selector.bytes().len(), *count),
        Instr::SuperSend(selector, count) => (0x0d, selector.bytes().len(), *count),
        Instr::PushBlock(number) => (0x0e, *number, 0),
        Instr::ReturnMethod => (0x0f, 0, 0),
        Instr::ReturnHome => (0x10, 0, 0),
        Instr::ReturnBlock => (0x11, 0, 0),
        Instr::Jump(ahead) => (0x12, *ahead, 0),
        Instr::JumpBack(back) => (0x12, 0, *back),
        Instr::JumpTrue(ahead) => (0x13, *ahead, 0),
        Instr::JumpFalse(ahead) => (0x14, *ahead, 0),
        Instr::TakeUnit => (0x15, 0, 0),
        Instr::Enter(count) => (0x16, *count, 0),
        Instr::Leave => (0x17, 0, 0),
        Instr::LoopStart => (0x18, 0, 0),
        Instr::LoopNext(ahead) => (0x19, *ahead, 0),
        Instr::LoopStep(back) => (0x1a, *back, 0),
    }
}

fn shapes(alloc: Global, code: &[Instr]) -> Result<Vec<Shape>, AllocError> {
    let mut all = Vec::new(alloc);
    for one in code {
        all.push(shape(one))?;
    }
    Ok(all)
}

#[derive(Clone, Copy)]
enum Kind {
    Chunk,
    Method,
}

fn parsed(alloc: Global, kind: Kind, text: &[u8]) -> Result<Tree, ParseFault>
    requires { length text.now < 10000 }
    ensures { IfOk result (λ tree. size_program tree ≤ 2 ^ 40) }
{
    match kind {
        Kind::Chunk => parse_chunk(alloc, text),
        Kind::Method => parse_method(alloc, text),
    }
}

fn shapes_of(alloc: Global, block: &BlockBody) -> Result<Vec<Shape>, AllocError> {
    shapes(alloc, block.code.as_slice())
}

// Texts whose code pushes no block.
const TEXTS: [(Kind, &[u8], &[Shape]); 11] = [
    (
        Kind::Chunk,
        b"3 + 4",
        &[(0x04, 3, 0), (0x04, 4, 0), (0x0c, 1, 1), (0x0f, 0, 0)],
    ),
    (
        Kind::Chunk,
        b"super foo",
        &[(0x00, 0, 0), (0x0d, 3, 0), (0x0f, 0, 0)],
    ),
    (
        Kind::Chunk,
        b"Foo := 'a'",
        &[(0x05, 0, 0), (0x09, 3, 0), (0x0f, 0, 0)],
    ),
    (
        Kind::Chunk,
        b"self a; b: 1",
        &[
            (0x00, 0, 0),
            (0x0b, 0, 0),
            (0x0c, 1, 0),
            (0x0a, 0, 0),
            (0x04, 1, 0),
            (0x0c, 2, 1),
            (0x0f, 0, 0),
        ],
    ),
    (
        Kind::Chunk,
        b"true ifTrue: [1] ifFalse: [2]",
        &[
            (0x02, 0, 0),
            (0x15, 0, 0),
            (0x14, 2, 0),
            (0x04, 1, 0),
            (0x12, 1, 0),
            (0x04, 2, 0),
            (0x0f, 0, 0),
        ],
    ),
    (
        Kind::Chunk,
        b"false or: [nil]",
        &[
            (0x03, 0, 0),
            (0x15, 0, 0),
            (0x13, 2, 0),
            (0x01, 0, 0),
            (0x12, 1, 0),
            (0x02, 0, 0),
            (0x0f, 0, 0),
        ],
    ),
    (
        Kind::Chunk,
        b"[nil] whileTrue: [self]",
        &[
            (0x15, 0, 0),
            (0x01, 0, 0),
            (0x14, 4, 0),
            (0x15, 0, 0),
            (0x00, 0, 0),
            (0x0a, 0, 0),
            (0x12, 0, 5),
            (0x01, 0, 0),
            (0x0f, 0, 0),
        ],
    ),
    (
        Kind::Chunk,
        b"1 to: 2 do: [:i | i]",
        &[
            (0x04, 1, 0),
            (0x0b, 0, 0),
            (0x04, 2, 0),
            (0x15, 0, 0),
            (0x18, 0, 0),
            (0x19, 8, 0),
            (0x15, 0, 0),
            (0x16, 1, 0),
            (0x07, 0, 0),
            (0x0a, 0, 0),
            (0x06, 0, 0),
            (0x17, 0, 0),
            (0x0a, 0, 0),
            (0x1a, 8, 0),
            (0x0f, 0, 0),
        ],
    ),
    (
        Kind::Chunk,
        b"3 timesRepeat: [4]",
        &[
            (0x04, 3, 0),
            (0x15, 0, 0),
            (0x16, 1, 0),
            (0x07, 0, 0),
            (0x04, 1, 0),
            (0x06, 0, 0),
            (0x17, 0, 0),
            (0x18, 0, 0),
            (0x19, 5, 0),
            (0x15, 0, 0),
            (0x0a, 0, 0),
            (0x04, 4, 0),
            (0x0a, 0, 0),
            (0x1a, 5, 0),
            (0x0f, 0, 0),
        ],
    ),
    (
        Kind::Chunk,
        b"3 + (nil ifTrue: [^4])",
        &[
            (0x04, 3, 0),
            (0x01, 0, 0),
            (0x15, 0, 0),
            (0x14, 4, 0),
            (0x0a, 0, 0),
            (0x04, 4, 0),
            (0x0f, 0, 0),
            (0x12, 1, 0),
            (0x01, 0, 0),
            (0x0c, 1, 1),
            (0x0f, 0, 0),
        ],
    ),
    (
        Kind::Method,
        b"foo | a | a := 3. ^a",
        &[
            (0x04, 3, 0),
            (0x07, 0, 0),
            (0x0a, 0, 0),
            (0x06, 0, 0),
            (0x0f, 0, 0),
            (0x0a, 0, 0),
            (0x00, 0, 0),
            (0x0f, 0, 0),
        ],
    ),
];

fn has_code(alloc: Global, tree: &Tree, wanted: &[Shape]) -> Result<bool, AllocError>
    requires { size_program tree.now ≤ 2 ^ 40 }
{
    let compiled = compile(tree)?;
    let shapes = shapes(alloc, compiled.code())?;
    Ok(compiled.blocks().is_empty() && shapes.as_slice() == wanted)
}

#[test]
fn texts(rt: HostRuntime) -> Result<(), Fail> {
    let alloc = rt.alloc();
    let mut wrong = Vec::new(alloc);
    for (number, (kind, text, wanted)) in TEXTS.iter().enumerate() {
        assert!(rt; text.len() < 10_000);
        let tree = parsed(alloc, *kind, text)?;
        if !has_code(alloc, &tree, wanted)? {
            wrong.push(number)?;
        }
    }
    assert_eq!(rt; wrong.as_slice(), [].as_slice());
    Ok(())
}

// A block within a block: the outer one has the number 0.
#[test]
fn blocks(rt: HostRuntime) -> Result<(), Fail> {
    let alloc = rt.alloc();
    let tree = parse_chunk(alloc, b"[:x | [^x]]")?;
    let compiled = compile(&tree)?;
    let shapes = shapes(alloc, compiled.code())?;
    assert_eq!(rt; shapes.as_slice(), [(0x0e, 0, 0), (0x0f, 0, 0)].as_slice());
    let blocks = compiled.blocks();
    assert_eq!(rt; blocks.len(), 2);
    let (outer, inner) = (&blocks[0], &blocks[1]);
    assert_eq!(rt; (outer.params, outer.temps, inner.params), (1, 0, 0));
    let shapes_of_outer = shapes_of(alloc, outer)?;
    assert_eq!(rt;
        shapes_of_outer.as_slice(),
        [(0x0e, 1, 0), (0x11, 0, 0)].as_slice()
    );
    let shapes_of_inner = shapes_of(alloc, inner)?;
    assert_eq!(rt;
        shapes_of_inner.as_slice(),
        [(0x06, 1, 0), (0x10, 0, 0), (0x11, 0, 0)].as_slice()
    );
    Ok(())
}
