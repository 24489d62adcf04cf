//! What literals and blocks the operands may name.
ghost use Rattle.std.specs.Prelude.{◌≡◌, ◌+◌, ◌<◌, ◌≤◌, ◌^◌, length, replicate, None, slice_get, IfOk};
ghost use Rattle.st_code.specs.Operands.{is_symbol, is_new, is_some_symbol, literal_fits, pushes_block, note_place, note_push, first_pushes, is_first_push, push_fits, is_pushed, is_start, start_fits, operands_fit};
ghost use Rattle.st_code.specs.Faults.{no_pushes};

use crate::blocks::BlockCode;
use crate::line::Line;
use op_table::Op;
use st_tree::Literal;
use std::alloc::{AllocError, Global};

fn is_symbol(literals: &[Literal], number: u32) -> bool
    ensures { result ≡ is_some_symbol (slice_get literals.now number) }
{
    match literals.get(number as usize) {
        Some(Literal::Sym(_)) => true,
        _ => false,
    }
}

fn is_new(literal: &Literal) -> bool
    ensures { result ≡ is_new literal.now }
{
    matches!(literal, Literal::Str(_) | Literal::Array(_))
}

fn literal_fits(op: Op, literals: &[Literal], number: u32) -> bool
    ensures { result ≡ literal_fits op (slice_get literals.now number) }
{
    match op {
        Op::PushLit => match literals.get(number as usize) {
            Some(literal) => !is_new(literal),
            None => false,
        },
        Op::MakeLit => match literals.get(number as usize) {
            Some(literal) => is_new(literal),
            None => false,
        },
        Op::PushName | Op::StoreName | Op::Send | Op::SuperSend => is_symbol(literals, number),
        _ => true,
    }
}

pub(crate) fn pushes_block(op: Op) -> bool
    ensures { result ≡ pushes_block op }
{
    matches!(op, Op::PushBlock)
}

fn note_place(number: u32, at: u32, pushes: &mut [Option<u32>])
    ensures { pushes.new ≡ note_place number at pushes.old (slice_get pushes.old number) }
{
    let number = number as usize;
    if number < pushes.len() && pushes[number].is_none() {
        pushes[number] = Some(at);
    }
}

fn note_push(at: u32, line: Option<Line>, pushes: &mut [Option<u32>])
    ensures { pushes.new ≡ note_push at line pushes.old }
{
    if let Some(line) = line {
        if pushes_block(line.row.op) {
            note_place(line.first, at, pushes);
        }
    }
}

/// Where each block is first pushed.
pub(crate) fn first_pushes(
    alloc: Global,
    blocks: &[BlockCode],
    lines: &[Option<Line>],
) -> Result<Vec<Option<u32>>, AllocError>
    requires { length lines.now < 2 ^ 32 }
    ensures { IfOk result (λ pushes. pushes.items
        ≡ first_pushes 0 lines.now (no_pushes blocks.now)) }
{
    let mut pushes = vec![in alloc; None; blocks.len()]?;
    for (at, line) in lines.iter().enumerate() {
        note_push(at as u32, *line, &mut pushes);
    }
    Ok(pushes)
}

fn push_fits(at: u32, line: &Line, pushes: &[Option<u32>]) -> bool
    ensures { result ≡ push_fits at line.now pushes.now }
{
    if !pushes_block(line.row.op) {
        return true;
    }
    if line.block >= line.first {
        return false;
    }
    match pushes.get(line.first as usize) {
        Some(Some(place)) => *place == at,
        _ => false,
    }
}

fn start_fits(at: u32, line: &Line, blocks: &[BlockCode], pushes: &[Option<u32>]) -> bool
    ensures { result ≡ start_fits at line.now blocks.now pushes.now }
{
    if line.block == 0 {
        return true;
    }
    let number = line.block as usize;
    match blocks.get(number) {
        Some(block) if block.start == at => matches!(pushes.get(number), Some(Some(_))),
        _ => true,
    }
}

/// Whether an instruction's operands are what they have to be, whatever way leads to it.
pub(crate) fn operands_fit(
    literals: &[Literal],
    blocks: &[BlockCode],
    pushes: &[Option<u32>],
    at: u32,
    line: &Line,
) -> bool
    ensures { result ≡ operands_fit literals.now blocks.now pushes.now at line.now }
{
    literal_fits(line.row.op, literals, line.first)
        && push_fits(at, line, pushes)
        && start_fits(at, line, blocks, pushes)
}
