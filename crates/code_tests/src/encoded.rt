//! The bytes of texts, worked out by hand.
ghost use Rattle.std.specs.Prelude.{◌<◌, ◌≤◌, ◌^◌, length, IfOk};
ghost use Rattle.st_tree.specs.Falls.{size_program};

use st_code::{BlockCode, Code};
use st_compiler::compile;
use st_encoder::{EncodeError, encode};
use st_parser::{ParseFault, parse_chunk, parse_method};
use st_tree::{Literal, Tree};
use std::alloc::{AllocError, Global};
use std::test::Fail;

#[derive(Clone, Copy)]
enum Kind {
    Chunk,
    Method,
}

fn parsed(alloc: Global, kind: Kind, text: &[u8]) -> Result<Tree, ParseFault>
    requires { length text.now < 10000 }
    ensures { IfOk result (λ tree. size_program tree ≤ 2 ^ 40) }
{
    match kind {
        Kind::Chunk => parse_chunk(alloc, text),
        Kind::Method => parse_method(alloc, text),
    }
}

/// A text, its bytes, and how many literals it has.
type Case = (Kind, &'static [u8], &'static [u8], usize);

// Texts whose code pushes no block.
const TEXTS: [Case; 5] = [
    (
        Kind::Chunk,
        b"3 + 4",
        &[
            0x04, 0, 0, 0, 0, 0x04, 1, 0, 0, 0, 0x0c, 2, 0, 0, 0, 1, 0, 0, 0, 0x0f,
        ],
        3,
    ),
    (
        Kind::Method,
        b"foo | a | a := 3. ^a",
        &[
            0x04, 0, 0, 0, 0, 0x07, 0, 0, 0, 0, 0, 0x0a, 0x06, 0, 0, 0, 0, 0, 0x0f, 0x0a, 0x00,
            0x0f,
        ],
        1,
    ),
    (
        Kind::Chunk,
        b"true ifTrue: [3]",
        &[
            0x02, 0x15, 0x14, 17, 0, 0, 0, 0x04, 0, 0, 0, 0, 0x12, 18, 0, 0, 0, 0x01, 0x0f,
        ],
        1,
    ),
    (
        Kind::Chunk,
        b"1 to: 3 do: [:i | i]",
        &[
            0x04, 0, 0, 0, 0, 0x0b, 0x04, 1, 0, 0, 0, 0x15, 0x18, 0x19, 44, 0, 0, 0, 0x15, 0x16, 1,
            0, 0, 0, 0x07, 0, 0, 0, 0, 0, 0x0a, 0x06, 0, 0, 0, 0, 0, 0x17, 0x0a, 0x1a, 13, 0, 0, 0,
            0x0f,
        ],
        2,
    ),
    (
        Kind::Chunk,
        b"Foo := 'a'",
        &[0x05, 0, 0, 0, 0, 0x09, 1, 0, 0, 0, 0x0f],
        2,
    ),
];

fn coded(tree: &Tree) -> Result<Code, EncodeError>
    requires { size_program tree.now ≤ 2 ^ 40 }
{
    let compiled = compile(tree)?;
    encode(&compiled)
}

fn has_bytes(tree: &Tree, wanted: &[u8], literals: usize) -> Result<bool, EncodeError>
    requires { size_program tree.now ≤ 2 ^ 40 }
{
    let code = coded(tree)?;
    Ok(code.bytes() == wanted && code.literals().len() == literals && code.blocks().len() == 1)
}

#[test]
fn texts(rt: HostRuntime) -> Result<(), Fail> {
    let alloc = rt.alloc();
    let mut wrong = Vec::new(alloc);
    for (number, (kind, text, wanted, literals)) in TEXTS.iter().enumerate() {
        assert!(rt; text.len() < 10_000);
        let tree = parsed(alloc, *kind, text)?;
        if !has_bytes(&tree, wanted, *literals)? {
            wrong.push(number)?;
        }
    }
    assert_eq!(rt; wrong.as_slice(), [].as_slice());
    Ok(())
}

// Blocks stand behind the text, each before those in it, and have the numbers from 1 on.
#[test]
fn blocks(rt: HostRuntime) -> Result<(), Fail> {
    let alloc = rt.alloc();
    let tree = parse_chunk(alloc, b"[:x | [^x]]")?;
    let code = coded(&tree)?;
    assert_eq!(rt;
        code.bytes(),
        [
            0x0e, 1, 0, 0, 0, 0x0f, 0x0e, 2, 0, 0, 0, 0x11, 0x06, 1, 0, 0, 0, 0, 0x10, 0x11,
        ]
        .as_slice()
    );
    let wanted = [(0, 0, 0), (6, 1, 0), (12, 0, 0)].map(|(start, params, temps)| BlockCode {
        start,
        params,
        temps,
    });
    assert_eq!(rt; code.blocks(), wanted.as_slice());
    Ok(())
}
