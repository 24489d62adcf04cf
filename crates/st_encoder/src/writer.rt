//! The bytes of compiled code.
ghost use Rattle.std.specs.Prelude.{◌≡◌, ◌⊎◌, ◌<◌, ◌≤◌, ◌+◌, ◌++◌, ◌∷◌, ◌^◌, [], true, false, None, length, IfOk, IfErr, OnOk, option_to_list};
ghost use Rattle.st_code.specs.Faults.{fault_of};
ghost use Rattle.st_compiler.specs.Emitted.{instructions, instruction_of, bodies};
ghost use Rattle.st_encoder.specs.Bytes.{literals_in, code_size, fit_from, total_size, text_bytes, text_literals, text_blocks, text_fits};
ghost use Rattle.st_encoder.specs.Operands.{operands_of, operands_fit};
ghost use Rattle.st_encoder.specs.Written.{IsTooLarge, WroteOne, WroteCode, WroteBodies, DontFit};

use crate::error::EncodeError;
use crate::literal::literal_in;
use crate::operands::{LIMIT, op_of, operands_of, places_from, put_operands};
use op_table::byte_of;
use st_code::{BlockCode, Code, CodeFault};
use st_compiler::{BlockBody, Compiled, Instr};
use st_tree::Literal;
use std::alloc::{AllocError, Global};

// An instruction with its operands. Its literal, where it has one, has this number.
fn put_instruction(
    bytes: &mut Vec<u8>,
    literal: usize,
    places: &[usize],
    number: usize,
    one: &Instr,
) -> Result<(), EncodeError>
    requires { number < 2 ^ 32 }
    ensures ok { OnOk result (WroteOne literal places.now number (instruction_of one.now)
        bytes.old.items bytes.new.items) }
    ensures large { IfErr result (IsTooLarge
        (operands_fit (operands_of literal places.now number (instruction_of one.now)) ≡ false)) }
{
    let operands = operands_of(literal, places, number, one)?;
    bytes.push(byte_of(op_of(one)))?;
    put_operands(bytes, operands)
}

fn put_literal(literals: &mut Vec<Literal>, one: &Instr) -> Result<(), AllocError>
    ensures { OnOk result
        (literals.new.items ≡ literals.old.items ++ literals_in (instruction_of one.now)) }
{
    if let Some(literal) = literal_in(one)? {
        literals.push(literal)?;
    }
    Ok(())
}

// The code of a block that begins behind these bytes.
fn put_code(
    alloc: Global,
    bytes: &mut Vec<u8>,
    literals: &mut Vec<Literal>,
    code: &[Instr],
) -> Result<(), EncodeError>
    requires { length bytes.old.items < 2 ^ 32 }
    ensures ok { OnOk result (WroteCode (length bytes.old.items) (instructions code.now) 0
        (instructions code.now) bytes.old.items literals.old.items bytes.new.items
        literals.new.items) }
    ensures small { OnOk result
        (length bytes.old.items + code_size (instructions code.now) < 2 ^ 32) }
    ensures large { IfErr result (IsTooLarge
        ((2 ^ 32 ≤ length bytes.old.items + code_size (instructions code.now))
        ⊎ (fit_from (length bytes.old.items) (length literals.old.items) (instructions code.now) 0
        (instructions code.now) ≡ false))) }
{
    let start = bytes.len();
    let places = places_from(alloc, start, code)?;
    let mut number = 0;
    let mut rest = code;
    while let Some((one, later)) = rest.split_first() {
        put_instruction(bytes, literals.len(), &places, number, one)?;
        put_literal(literals, one)?;
        number += 1;
        rest = later;
    }
    Ok(())
}

// A block with its code.
fn put_body(
    alloc: Global,
    bytes: &mut Vec<u8>,
    literals: &mut Vec<Literal>,
    blocks: &mut Vec<BlockCode>,
    params: usize,
    temps: usize,
    code: &[Instr],
) -> Result<(), EncodeError>
    requires { length bytes.old.items < 2 ^ 32 }
    ensures ok { OnOk result (WroteBodies
        (record { params = params; temps = temps; code = instructions code.now } ∷ [])
        bytes.old.items literals.old.items blocks.old.items bytes.new.items literals.new.items
        blocks.new.items) }
    ensures small { OnOk result (length bytes.new.items < 2 ^ 32) }
    ensures large { IfErr result (IsTooLarge (DontFit
        (record { params = params; temps = temps; code = instructions code.now } ∷ [])
        (length bytes.old.items) (length literals.old.items))) }
{
    if params >= LIMIT || temps >= LIMIT {
        return Err(EncodeError::TooLarge);
    }
    blocks.push(BlockCode {
        start: bytes.len() as u32,
        params: params as u32,
        temps: temps as u32,
    })?;
    put_code(alloc, bytes, literals, code)
}

// The blocks that are pushed in a text.
fn put_bodies(
    alloc: Global,
    bytes: &mut Vec<u8>,
    literals: &mut Vec<Literal>,
    blocks: &mut Vec<BlockCode>,
    pushed: &[BlockBody],
) -> Result<(), EncodeError>
    requires { length bytes.old.items < 2 ^ 32 }
    ensures ok { OnOk result (WroteBodies (bodies pushed.now) bytes.old.items literals.old.items
        blocks.old.items bytes.new.items literals.new.items blocks.new.items) }
    ensures small { OnOk result (length bytes.new.items < 2 ^ 32) }
    ensures large { IfErr result (IsTooLarge (DontFit (bodies pushed.now)
        (length bytes.old.items) (length literals.old.items))) }
{
    let mut rest = pushed;
    while let Some((body, later)) = rest.split_first() {
        put_body(
            alloc,
            bytes,
            literals,
            blocks,
            body.params,
            body.temps,
            &body.code,
        )?;
        rest = later;
    }
    Ok(())
}

// What the compiler gives keeps the rules of checked code.
fn checked(
    bytes: Vec<u8>,
    literals: Vec<Literal>,
    blocks: Vec<BlockCode>,
) -> Result<Code, AllocError>
    requires few { length bytes.items < 2 ^ 32 }
    requires checked { fault_of bytes.items literals.items blocks.items ≡ None }
    ensures bytes { IfOk result (λ code. code.bytes.items ≡ bytes.items) }
    ensures literals { IfOk result (λ code. code.literals.items ≡ literals.items) }
    ensures blocks { IfOk result (λ code. code.blocks.items ≡ blocks.items) }
{
    match Code::check(bytes, literals, blocks) {
        Ok(code) => Ok(code),
        Err(CodeFault::NoMemory) => Err(AllocError),
        Err(_) => unreachable!(),
    }
}

/// The bytes of compiled code, with its literals and blocks. They keep the rules of checked code.
///
/// # Errors
///
/// `TooLarge` where there are no bytes for the code, and only there; or want of memory.
pub fn encode(compiled: &Compiled) -> Result<Code, EncodeError>
    ensures bytes { IfOk result (λ code. code.bytes.items ≡ text_bytes compiled.now) }
    ensures literals { IfOk result (λ code. code.literals.items ≡ text_literals compiled.now) }
    ensures blocks { IfOk result (λ code. code.blocks.items ≡ text_blocks compiled.now) }
    ensures fits { OnOk result (text_fits compiled.now ≡ true) }
    ensures large { IfErr result (IsTooLarge (text_fits compiled.now ≡ false)) }
{
    let alloc = compiled.allocator();
    let mut bytes = Vec::new(alloc);
    let mut literals = Vec::new(alloc);
    let mut blocks = Vec::new(alloc);
    put_body(
        alloc,
        &mut bytes,
        &mut literals,
        &mut blocks,
        compiled.params_count(),
        compiled.temps_count(),
        compiled.code(),
    )?;
    put_bodies(
        alloc,
        &mut bytes,
        &mut literals,
        &mut blocks,
        compiled.blocks(),
    )?;
    Ok(checked(bytes, literals, blocks)?)
}
