//! The operands of instructions.
ghost use Rattle.std.specs.Prelude.{◌≡◌, ◌<◌, ◌≤◌, ◌+◌, ◌-◌, ◌^◌, suc, min, take, false, nat_lt, IfOk, IfErr, OnOk};
ghost use Rattle.std.specs.Int.{w32, to_le_bytes};
ghost use Rattle.st_code.specs.Lines.{width};
ghost use Rattle.st_compiler.specs.Instruction.{op_of};
ghost use Rattle.st_compiler.specs.Emitted.{instruction_of, instructions};
ghost use Rattle.st_encoder.specs.Bytes.{size_of, code_size};
ghost use Rattle.st_encoder.specs.Operands.{places_from, last_entry, entry, operands_of, operands_bytes, operands_fit};
ghost use Rattle.st_encoder.specs.declared.operands.Operands.TheVariants.{Number};
ghost use Rattle.st_encoder.specs.Written.{IsTooLarge, Wrote};

use crate::error::EncodeError;
use op_table::{Op, widths_of};
use st_compiler::Instr;
use std::alloc::Global;

/// As many bytes there can't be, and no number of four bytes is as large.
pub(crate) const LIMIT: usize = 0x1_0000_0000;

/// The operands of an instruction.
#[derive(Clone, Copy, Debug, PartialEq, Eq)]
pub(crate) enum Operands {
    Nothing,
    /// In four bytes.
    Number(usize),
    /// A depth, in one byte, and an index, in four.
    Local(usize, usize),
    /// Each in four bytes.
    Numbers(usize, usize),
}

/// The op code of an instruction.
pub(crate) fn op_of(one: &Instr) -> Op
    ensures { result ≡ op_of (instruction_of one.now) }
{
    match one {
        Instr::PushSelf => Op::PushSelf,
        Instr::PushNil => Op::PushNil,
        Instr::PushTrue => Op::PushTrue,
        Instr::PushFalse => Op::PushFalse,
        Instr::PushLit(_) => Op::PushLit,
        Instr::MakeLit(_) => Op::MakeLit,
        Instr::PushLocal(_, _) => Op::PushLocal,
        Instr::StoreLocal(_, _) => Op::StoreLocal,
        Instr::PushName(_) => Op::PushName,
        Instr::StoreName(_) => Op::StoreName,
        Instr::Pop => Op::Pop,
        Instr::Dup => Op::Dup,
        Instr::Send(_, _) => Op::Send,
        Instr::SuperSend(_, _) => Op::SuperSend,
        Instr::PushBlock(_) => Op::PushBlock,
        Instr::ReturnMethod => Op::ReturnMethod,
        Instr::ReturnHome => Op::ReturnHome,
        Instr::ReturnBlock => Op::ReturnBlock,
        Instr::Jump(_) | Instr::JumpBack(_) => Op::Jump,
        Instr::JumpTrue(_) => Op::JumpTrue,
        Instr::JumpFalse(_) => Op::JumpFalse,
        Instr::TakeUnit => Op::Unit,
        Instr::Enter(_) => Op::Enter,
        Instr::Leave => Op::Leave,
        Instr::LoopStart => Op::LoopStart,
        Instr::LoopNext(_) => Op::LoopNext,
        Instr::LoopStep(_) => Op::LoopStep,
    }
}

fn width(op: Op, number: usize) -> usize
    ensures is { result ≡ width op number }
    ensures small { result < 256 }
{
    match widths_of(op).get(number) {
        Some(width) => usize::from(*width),
        None => 0,
    }
}

/// How many bytes an instruction takes.
fn size_of(one: &Instr) -> usize
    ensures is { result ≡ size_of (instruction_of one.now) }
    ensures small { result < 512 }
{
    let op = op_of(one);
    1 + width(op, 0) + width(op, 1)
}

/// Where each instruction begins, and where the last one ends; too large where that is 2^32 or
/// above.
pub(crate) fn places_from(
    alloc: Global,
    start: usize,
    code: &[Instr],
) -> Result<Vec<usize>, EncodeError>
    requires { start < 2 ^ 32 }
    ensures places { IfOk result (λ places.
        places.items ≡ places_from start (instructions code.now)) }
    ensures small { OnOk result (start + code_size (instructions code.now) < 2 ^ 32) }
    ensures large { IfErr result
        (IsTooLarge (2 ^ 32 ≤ start + code_size (instructions code.now))) }
{
    let mut places = Vec::new(alloc);
    let mut at = start;
    let mut rest = code;
    while let Some((one, later)) = rest.split_first() {
        places.push(at)?;
        at += size_of(one);
        if at >= LIMIT {
            return Err(EncodeError::TooLarge);
        }
        rest = later;
    }
    places.push(at)?;
    Ok(places)
}

fn last_entry(places: &[usize]) -> usize
    ensures { result ≡ last_entry places.now }
{
    match places.get(places.len().saturating_sub(1)) {
        Some(place) => *place,
        None => 0,
    }
}

/// The entry of this number, or the last one.
fn entry(places: &[usize], number: usize) -> usize
    ensures { result ≡ entry places.now number }
{
    match places.get(number) {
        Some(place) => *place,
        None => last_entry(places),
    }
}

// Where there is no such number, the jump leads behind all instructions, as one by less does.
fn number_ahead(number: usize, ahead: usize) -> usize
    requires { number < 2 ^ 32 }
    ensures { result ≡ min (suc number + ahead) (2 ^ 64 - 1) }
{
    (number + 1).saturating_add(ahead)
}

fn entry_ahead(places: &[usize], number: usize, ahead: usize) -> usize
    requires { number < 2 ^ 32 }
    ensures { result ≡ entry places.now (suc number + ahead) }
{
    entry(places, number_ahead(number, ahead))
}

fn number_of_block(block: usize) -> Result<Operands, EncodeError>
    ensures ok { IfOk result (λ operands. operands ≡ Number (suc block)) }
    ensures large { IfErr result (λ error. operands_fit (Number (suc block)) ≡ false) }
{
    match block.checked_add(1) {
        Some(number) => Ok(Operands::Number(number)),
        None => Err(EncodeError::TooLarge),
    }
}

/// The operands of an instruction; too large where a number is so large that there is none above
/// it.
pub(crate) fn operands_of(
    literal: usize,
    places: &[usize],
    number: usize,
    one: &Instr,
) -> Result<Operands, EncodeError>
    requires { number < 2 ^ 32 }
    ensures ok { IfOk result (λ operands.
        operands ≡ operands_of literal places.now number (instruction_of one.now)) }
    ensures large { IfErr result (λ error.
        operands_fit (operands_of literal places.now number (instruction_of one.now)) ≡ false) }
{
    match one {
        Instr::PushLit(_) => Ok(Operands::Number(literal)),
        Instr::MakeLit(_) => Ok(Operands::Number(literal)),
        Instr::PushName(_) => Ok(Operands::Number(literal)),
        Instr::StoreName(_) => Ok(Operands::Number(literal)),
        Instr::PushLocal(depth, index) => Ok(Operands::Local(*depth, *index)),
        Instr::StoreLocal(depth, index) => Ok(Operands::Local(*depth, *index)),
        Instr::Send(_, count) => Ok(Operands::Numbers(literal, *count)),
        Instr::SuperSend(_, count) => Ok(Operands::Numbers(literal, *count)),
        Instr::PushBlock(block) => number_of_block(*block),
        Instr::Jump(ahead) => Ok(Operands::Number(entry_ahead(places, number, *ahead))),
        Instr::JumpTrue(ahead) => Ok(Operands::Number(entry_ahead(places, number, *ahead))),
        Instr::JumpFalse(ahead) => Ok(Operands::Number(entry_ahead(places, number, *ahead))),
        Instr::LoopNext(ahead) => Ok(Operands::Number(entry_ahead(places, number, *ahead))),
        Instr::JumpBack(behind) => Ok(Operands::Number(entry_behind(places, number, *behind))),
        Instr::LoopStep(behind) => Ok(Operands::Number(entry_behind(places, number, *behind))),
        Instr::Enter(count) => Ok(Operands::Number(*count)),
        Instr::PushSelf
        | Instr::PushNil
        | Instr::PushTrue
        | Instr::PushFalse
        | Instr::Pop
        | Instr::Dup
        | Instr::ReturnMethod
        | Instr::ReturnHome
        | Instr::ReturnBlock
        | Instr::TakeUnit
        | Instr::Leave
        | Instr::LoopStart => Ok(Operands::Nothing),
    }
}

fn entry_behind(places: &[usize], number: usize, behind: usize) -> usize
    ensures { result ≡ entry places.now (number - behind) }
{
    entry(places, number.saturating_sub(behind))
}

fn put_number(bytes: &mut Vec<u8>, number: usize) -> Result<(), EncodeError>
    ensures ok { OnOk result
        (Wrote (to_le_bytes w32 number) (nat_lt number (2 ^ 32)) bytes.old.items bytes.new.items) }
    ensures large { IfErr result (IsTooLarge (nat_lt number (2 ^ 32) ≡ false)) }
{
    if number >= LIMIT {
        return Err(EncodeError::TooLarge);
    }
    bytes.extend_from_slice(&(number as u32).to_le_bytes())?;
    Ok(())
}

fn put_depth(bytes: &mut Vec<u8>, depth: usize) -> Result<(), EncodeError>
    ensures ok { OnOk result
        (Wrote (take 1 (to_le_bytes w32 depth)) (nat_lt depth 256) bytes.old.items bytes.new.items) }
    ensures large { IfErr result (IsTooLarge (nat_lt depth 256 ≡ false)) }
{
    if depth >= 256 {
        return Err(EncodeError::TooLarge);
    }
    bytes.push(depth as u8)?;
    Ok(())
}

/// The bytes of the operands.
pub(crate) fn put_operands(bytes: &mut Vec<u8>, operands: Operands) -> Result<(), EncodeError>
    ensures ok { OnOk result (Wrote (operands_bytes operands) (operands_fit operands)
        bytes.old.items bytes.new.items) }
    ensures large { IfErr result (IsTooLarge (operands_fit operands ≡ false)) }
{
    match operands {
        Operands::Nothing => Ok(()),
        Operands::Number(number) => put_number(bytes, number),
        Operands::Local(depth, index) => {
            put_depth(bytes, depth)?;
            put_number(bytes, index)
        }
        Operands::Numbers(first, second) => {
            put_number(bytes, first)?;
            put_number(bytes, second)
        }
    }
}
