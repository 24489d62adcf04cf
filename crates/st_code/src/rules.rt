//! The lowest places at which rules break.
ghost use Rattle.std.specs.Prelude.{◌≡◌, ◌+◌, ◌<◌, ◌^◌, ◌&&◌, not, length, None, Some, slice_get, IfOk};
ghost use Rattle.st_code.specs.Faults.{lower, lowest, lowest_fault, jump_faults, jump_fault, same_scopes, same_height, same, agrees, meetings, is_variable, scopes_fit, scope_faults, operand_faults, operand_fault, stack_fits, stack_faults_by, stack_faults, stack_fault};
ghost use Rattle.st_code.specs.Lines.{is_of};

use crate::blocks::BlockCode;
use crate::line::{Line, is_of};
use crate::literals::operands_fit;
use crate::ways::{Held, Way, goes_on, is_return, jumps, takes, ways_on};
use op_table::Op;
use st_tree::Literal;
use std::alloc::{AllocError, Global};

/// What ways have to agree on where they meet.
#[derive(Clone, Copy, Debug, PartialEq, Eq)]
pub(crate) enum Agreement {
    Scopes,
    Height,
}

/// What is known of code.
#[derive(Drop)]
pub(crate) struct Known {
    /// What stands at each place.
    pub(crate) lines: Vec<Option<Line>>,
    /// Where each block is first pushed.
    pub(crate) pushes: Vec<Option<u32>>,
    /// What the first way brings to each place.
    pub(crate) held: Vec<Option<Held>>,
}

fn lower(found: Option<u32>, place: u32) -> Option<u32>
    ensures { result ≡ Some (lower found place) }
{
    match found {
        Some(other) => Some(other.min(place)),
        None => Some(place),
    }
}

fn jump_found(
    lines: &[Option<Line>],
    at: u32,
    line: Option<Line>,
    found: Option<u32>,
) -> Option<u32>
    ensures { result ≡ lowest found (jump_faults lines.now at line) }
{
    let Some(line) = line else {
        return found;
    };
    if jumps(line.row.op) && !is_of(line.block, lines, line.first) {
        return lower(found, at);
    }
    found
}

/// The lowest place of a jump whose target is no instruction of its block.
pub(crate) fn jump_fault(lines: &[Option<Line>]) -> Option<u32>
    requires { length lines.now < 2 ^ 32 }
    ensures { result ≡ jump_fault lines.now }
{
    let mut found = None;
    for (at, line) in lines.iter().enumerate() {
        found = jump_found(lines, at as u32, *line, found);
    }
    found
}

fn same(on: Agreement, first: &Held, second: &Held) -> bool
    ensures { result ≡ same on first.now second.now }
{
    match on {
        Agreement::Scopes => {
            first.scopes() == second.scopes() && first.around() == second.around()
        }
        Agreement::Height => first.height() == second.height(),
    }
}

fn agrees(on: Agreement, known: &[Option<Held>], at: u32, held: &Held) -> bool
    ensures { result ≡ agrees on (slice_get known.now at) held.now }
{
    match known.get(at as usize) {
        Some(Some(first)) => same(on, first, held),
        _ => false,
    }
}

fn meets(on: Agreement, known: &Known, way: &Way) -> bool
    ensures { result ≡ (is_of way.now.block (slice_get known.now.lines.items way.now.to)
        && not (agrees on (slice_get known.now.held.items way.now.to) way.now.held)) }
{
    is_of(way.block, &known.lines, way.to) && !agrees(on, &known.held, way.to, &way.held)
}

fn meeting_found(on: Agreement, known: &Known, ways: &[Way], first: Option<u32>) -> Option<u32>
    ensures { result
        ≡ lowest first (meetings on known.now.lines.items known.now.held.items ways.now) }
{
    let mut found = first;
    for way in ways {
        if meets(on, known, way) {
            found = lower(found, way.to);
        }
    }
    found
}

fn is_variable(scopes: &[u64], depth: u32, index: u32) -> bool
    ensures { result ≡ is_variable (slice_get scopes.now depth) index }
{
    match scopes.get(depth as usize) {
        Some(variables) => u64::from(index) < *variables,
        None => false,
    }
}

fn scopes_fit(line: &Line, held: &Held) -> bool
    ensures { result ≡ scopes_fit line.now.row.op line.now.first line.now.second held.now }
{
    match line.row.op {
        Op::PushLocal | Op::StoreLocal => { is_variable(held.scopes(), line.first, line.second) }
        Op::Leave => held.around() < held.scopes().len(),
        _ => true,
    }
}

fn scope_found(
    alloc: Global,
    blocks: &[BlockCode],
    known: &Known,
    at: u32,
    line: &Line,
    found: Option<u32>,
) -> Result<Option<u32>, AllocError>
    ensures { IfOk result (λ place. place
        ≡ lowest found (scope_faults known.now.lines.items blocks.now known.now.held.items at
        line.now (slice_get known.now.held.items at))) }
{
    let Some(Some(held)) = known.held.get(at as usize) else {
        return Ok(found);
    };
    if !scopes_fit(line, held) {
        return Ok(lower(found, at));
    }
    let ways = ways_on(alloc, blocks, line, held)?;
    Ok(meeting_found(Agreement::Scopes, known, &ways, found))
}

fn operand_found(
    literals: &[Literal],
    blocks: &[BlockCode],
    known: &Known,
    at: u32,
    line: Option<Line>,
    found: Option<u32>,
) -> Result<Option<u32>, AllocError>
    ensures { IfOk result (λ place. place
        ≡ lowest found (operand_faults literals.now known.now.lines.items blocks.now
        known.now.pushes.items known.now.held.items at line)) }
{
    let Some(line) = line else {
        return Ok(found);
    };
    if !operands_fit(literals, blocks, &known.pushes, at, &line) {
        return Ok(lower(found, at));
    }
    scope_found(*known.lines.allocator(), blocks, known, at, &line, found)
}

/// The lowest place at which an operand isn't what it has to be, or ways don't agree on the open
/// scopes.
pub(crate) fn operand_fault(
    literals: &[Literal],
    blocks: &[BlockCode],
    known: &Known,
) -> Result<Option<u32>, AllocError>
    requires { length known.now.lines.items < 2 ^ 32 }
    ensures { IfOk result (λ found. found
        ≡ lowest_fault (operand_faults literals.now known.now.lines.items blocks.now
        known.now.pushes.items known.now.held.items) 0 known.now.lines.items None) }
{
    let mut found = None;
    for (at, line) in known.lines.iter().enumerate() {
        found = operand_found(literals, blocks, known, at as u32, *line, found)?;
    }
    Ok(found)
}

fn stack_fits(known: &Known, line: &Line, height: u64) -> bool
    ensures { result ≡ stack_fits known.now.lines.items line.now height }
{
    if takes(line) > height {
        return false;
    }
    if is_return(line.row.op) && height != 1 {
        return false;
    }
    !goes_on(line.row.op) || is_of(line.block, &known.lines, line.next)
}

fn stack_found(
    blocks: &[BlockCode],
    known: &Known,
    at: u32,
    line: Option<Line>,
    found: Option<u32>,
) -> Result<Option<u32>, AllocError>
    ensures { IfOk result (λ place. place
        ≡ lowest found (stack_faults known.now.lines.items blocks.now known.now.held.items at
        line)) }
{
    let Some(line) = line else {
        return Ok(found);
    };
    let Some(Some(held)) = known.held.get(at as usize) else {
        return Ok(found);
    };
    if !stack_fits(known, &line, held.height()) {
        return Ok(lower(found, at));
    }
    let ways = ways_on(*known.lines.allocator(), blocks, &line, held)?;
    Ok(meeting_found(Agreement::Height, known, &ways, found))
}

/// The lowest place at which the stack isn't what it has to be, or ways don't agree on its height.
pub(crate) fn stack_fault(blocks: &[BlockCode], known: &Known) -> Result<Option<u32>, AllocError>
    requires { length known.now.lines.items < 2 ^ 32 }
    ensures { IfOk result (λ found. found
        ≡ lowest_fault (stack_faults known.now.lines.items blocks.now known.now.held.items)
        0 known.now.lines.items None) }
{
    let mut found = None;
    for (at, line) in known.lines.iter().enumerate() {
        found = stack_found(blocks, known, at as u32, *line, found)?;
    }
    Ok(found)
}
