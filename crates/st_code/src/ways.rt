//! Where an instruction leads, and what a way brings there.
ghost use Rattle.std.specs.Prelude.{◌≡◌, ◌+◌, ◌++◌, ◌<◌, ◌^◌, ◌∷◌, option_to_list, IfOk, OnOk};
ghost use Rattle.st_code.specs.Ways.{is_return, jumps, goes_on, arguments, takes, height_after, puts_going_on, puts_jumping, scopes_after, held_after, next_way, jump_way, start_way, block_way, ways_on};

use crate::blocks::BlockCode;
use crate::line::Line;
use crate::literals::pushes_block;
use op_table::Op;
use std::alloc::{AllocError, Global};
use std::marker::Model;

/// What a way brings to a place: the values on the stack, the open scopes by their numbers of
/// variables, the innermost first, and how many of these were open at the start of the block.
#[derive(Debug, Drop)]
pub(crate) struct Held {
    height: u64,
    scopes: Vec<u64>,
    around: usize,
}

impl Model for Held {
    ghost use Rattle.st_code.specs.Held.{Held as HeldValue};

    ghost Value = { HeldValue };

    ghost view = { λ h. record { height = h.height; scopes = h.scopes.items; around = h.around } };
}

/// A step of a way: to a place of a block, with what it brings.
#[derive(Debug, Drop)]
pub(crate) struct Way {
    pub(crate) to: u32,
    pub(crate) block: u32,
    pub(crate) held: Held,
}

impl Held {
    pub(crate) fn height(&self) -> u64
        ensures { result ≡ self.now.height }
    {
        self.height
    }

    pub(crate) fn scopes(&self) -> &[u64]
        ensures { result.now ≡ self.now.scopes }
    {
        self.scopes.as_slice()
    }

    pub(crate) fn around(&self) -> usize
        ensures { result ≡ self.now.around }
    {
        self.around
    }
}

pub(crate) fn is_return(op: Op) -> bool
    ensures { result ≡ is_return op }
{
    matches!(op, Op::ReturnMethod | Op::ReturnHome | Op::ReturnBlock)
}

/// Whether a way may lead to the target.
pub(crate) fn jumps(op: Op) -> bool
    ensures { result ≡ jumps op }
{
    matches!(
        op,
        Op::Jump | Op::JumpTrue | Op::JumpFalse | Op::LoopNext | Op::LoopStep
    )
}

/// Whether a way may lead to the next instruction.
pub(crate) fn goes_on(op: Op) -> bool
    ensures { result ≡ goes_on op }
{
    !matches!(op, Op::Jump) && !is_return(op)
}

fn arguments(op: Op, count: u32) -> u32
    ensures { result ≡ arguments op count }
{
    match op {
        Op::Send | Op::SuperSend => count,
        _ => 0,
    }
}

/// How many values an instruction takes.
pub(crate) fn takes(line: &Line) -> u64
    ensures { result ≡ takes line.now }
{
    u64::from(line.row.pops) + u64::from(arguments(line.row.op, line.second))
}

fn puts_going_on(op: Op, pushes: u8) -> u8
    ensures { result ≡ puts_going_on op pushes }
{
    match op {
        Op::LoopStep => 0,
        _ => pushes,
    }
}

fn puts_jumping(op: Op, pushes: u8) -> u8
    ensures { result ≡ puts_jumping op pushes }
{
    match op {
        Op::LoopNext => 0,
        _ => pushes,
    }
}

// A height that no u64 holds is answered as want of memory: it would take as many places.
fn height_after(line: &Line, puts: u8, height: u64) -> Result<u64, AllocError>
    ensures { IfOk result (λ after. after ≡ height_after line.now puts height) }
{
    match height
        .saturating_sub(takes(line))
        .checked_add(u64::from(puts))
    {
        Some(after) => Ok(after),
        None => Err(AllocError),
    }
}

fn with_scope(alloc: Global, variables: u64, outer: &[u64]) -> Result<Vec<u64>, AllocError>
    ensures { IfOk result (λ scopes. scopes.items ≡ variables ∷ outer.now) }
{
    let mut scopes = vec![in alloc; variables]?;
    scopes.extend_from_slice(outer)?;
    Ok(scopes)
}

fn scopes_after(
    alloc: Global,
    op: Op,
    variables: u32,
    scopes: &[u64],
) -> Result<Vec<u64>, AllocError>
    ensures { IfOk result (λ after. after.items ≡ scopes_after op variables scopes.now) }
{
    match op {
        Op::Enter => with_scope(alloc, u64::from(variables), scopes),
        Op::Leave => match scopes.split_first() {
            Some((_, outer)) => outer.to_vec(alloc),
            None => Ok(Vec::new(alloc)),
        },
        _ => scopes.to_vec(alloc),
    }
}

fn held_after(alloc: Global, line: &Line, puts: u8, held: &Held) -> Result<Held, AllocError>
    ensures { IfOk result (λ after. after ≡ held_after line.now puts held.now) }
{
    Ok(Held {
        height: height_after(line, puts, held.height)?,
        scopes: scopes_after(alloc, line.row.op, line.first, held.scopes())?,
        around: held.around,
    })
}

fn next_way(alloc: Global, line: &Line, held: &Held) -> Result<Option<Way>, AllocError>
    ensures { IfOk result (λ way. way ≡ next_way line.now held.now) }
{
    let op = line.row.op;
    if !goes_on(op) {
        return Ok(None);
    }
    let held = held_after(alloc, line, puts_going_on(op, line.row.pushes), held)?;
    Ok(Some(Way {
        to: line.next,
        block: line.block,
        held,
    }))
}

fn jump_way(alloc: Global, line: &Line, held: &Held) -> Result<Option<Way>, AllocError>
    ensures { IfOk result (λ way. way ≡ jump_way line.now held.now) }
{
    let op = line.row.op;
    if !jumps(op) {
        return Ok(None);
    }
    let held = held_after(alloc, line, puts_jumping(op, line.row.pushes), held)?;
    Ok(Some(Way {
        to: line.first,
        block: line.block,
        held,
    }))
}

/// The step to the start of a block, around which these scopes are open.
pub(crate) fn start_way(
    alloc: Global,
    number: u32,
    outer: &[u64],
    block: &BlockCode,
) -> Result<Way, AllocError>
    ensures { IfOk result (λ way. way ≡ start_way number outer.now block.now) }
{
    let variables = u64::from(block.params) + u64::from(block.temps);
    let scopes = with_scope(alloc, variables, outer)?;
    Ok(Way {
        to: block.start,
        block: number,
        held: Held {
            height: 0,
            around: scopes.len(),
            scopes,
        },
    })
}

fn block_way(
    alloc: Global,
    blocks: &[BlockCode],
    line: &Line,
    held: &Held,
) -> Result<Option<Way>, AllocError>
    ensures { IfOk result (λ way. way ≡ block_way blocks.now line.now held.now) }
{
    if !pushes_block(line.row.op) {
        return Ok(None);
    }
    let Some(block) = blocks.get(line.first as usize) else {
        return Ok(None);
    };
    Ok(Some(start_way(alloc, line.first, held.scopes(), block)?))
}

fn add(ways: &mut Vec<Way>, way: Option<Way>) -> Result<(), AllocError>
    ensures { OnOk result (ways.new.items ≡ ways.old.items ++ option_to_list way) }
{
    if let Some(way) = way {
        ways.push(way)?;
    }
    Ok(())
}

/// The steps of a way from an instruction: to the next one, to the target, and to the start of a
/// block that is pushed.
pub(crate) fn ways_on(
    alloc: Global,
    blocks: &[BlockCode],
    line: &Line,
    held: &Held,
) -> Result<Vec<Way>, AllocError>
    ensures { IfOk result (λ ways. ways.items ≡ ways_on blocks.now line.now held.now) }
{
    let mut ways = Vec::new(alloc);
    add(&mut ways, next_way(alloc, line, held)?)?;
    add(&mut ways, jump_way(alloc, line, held)?)?;
    add(&mut ways, block_way(alloc, blocks, line, held)?)?;
    Ok(ways)
}
