//! The bytes of code as instructions.
ghost use Rattle.std.specs.Prelude.{◌≡◌, ◌+◌, ◌++◌, ◌<◌, ◌≤◌, ◌^◌, ℕ, zero, true, List, drop, length, slice_get, slice_range, Option, Result, Ok, Err, MatchOption, IfOk};
ghost use Rattle.st_code.specs.Lines.{Lines, are_blocks, width, number_in, whole_line, line_at, with_first, lines_from, lines_of, is_of, AreRead};

use crate::blocks::{BlockCode, end_of};
use crate::fault::CodeFault;
use op_table::{Op, Row, row_of, widths_of};
use std::alloc::Global;

/// An instruction as it stands in the bytes.
#[derive(Clone, Copy, Debug, PartialEq, Eq)]
pub struct Line {
    /// The row of its op code.
    pub row: Row,
    /// Its first operand, 0 where it has none.
    pub first: u32,
    /// Its second operand, 0 where it has none.
    pub second: u32,
    /// The place behind it.
    pub next: u32,
    /// The number of its block.
    pub block: u32,
}

/// Whether an instruction of this block stands at the place.
pub(crate) fn is_of(block: u32, lines: &[Option<Line>], at: u32) -> bool
    ensures { result ≡ is_of block (slice_get lines.now at) }
{
    match lines.get(at as usize) {
        Some(Some(line)) => line.block == block,
        _ => false,
    }
}

fn width(op: Op, number: usize) -> usize
    ensures is { result ≡ width op number }
    ensures small { result < 256 }
{
    match widths_of(op).get(number) {
        Some(width) => usize::from(*width),
        None => 0,
    }
}

fn number_in(bytes: &[u8]) -> u32
    ensures { result ≡ number_in bytes.now }
{
    match bytes {
        [only] => u32::from(*only),
        [a, b, c, d] => u32::from_le_bytes([*a, *b, *c, *d]),
        _ => 0,
    }
}

fn whole_line(block: u32, at: u32, row: Row, rest: &[u8]) -> Option<Line>
    requires { at + 1 + length rest.now < 2 ^ 32 }
    ensures { result ≡ whole_line block at row rest.now }
{
    let first_width = width(row.op, 0);
    let second_width = width(row.op, 1);
    if rest.len() < first_width + second_width {
        return None;
    }
    let (first, behind) = rest.split_at(first_width);
    let (second, _) = behind.split_at(second_width);
    Some(Line {
        row,
        first: number_in(first),
        second: number_in(second),
        next: at + 1 + first_width as u32 + second_width as u32,
        block,
    })
}

/// The instruction at the front of these bytes.
#[tactic(auto, unfolding(crate::specs::Lines::line_at))]
fn line_at(block: u32, at: u32, bytes: &[u8]) -> Option<Line>
    requires { at + length bytes.now < 2 ^ 32 }
    ensures { result ≡ line_at block at bytes.now }
{
    let Some((byte, rest)) = bytes.split_first() else {
        return None;
    };
    let Some(row) = row_of(*byte) else {
        return None;
    };
    whole_line(block, at, row, rest)
}

/// What stands at the first of these bytes, and how many behind it are operands; none where an
/// instruction has to begin there and none does.
fn first_line(block: u32, at: u32, skip: u32, bytes: &[u8]) -> Option<(Option<Line>, u32)>
    requires some { 0 < length bytes.now }
    requires few { at + length bytes.now < 2 ^ 32 }
    ensures { MatchOption result (lines_from block at skip bytes.now ≡ Err at)
        (λ read. lines_from block at skip bytes.now
        ≡ with_first read.0 (lines_from block (at + 1) read.1 (drop 1 bytes.now))) }
{
    if skip > 0 {
        return Some((None, skip - 1));
    }
    let Some(line) = line_at(block, at, bytes) else {
        return None;
    };
    Some((Some(line), line.next.saturating_sub(at + 1)))
}

/// The instructions of a block's bytes.
fn read_block(
    alloc: Global,
    block: u32,
    start: u32,
    bytes: &[u8],
) -> Result<Vec<Option<Line>>, CodeFault>
    requires { start + length bytes.now < 2 ^ 32 }
    ensures read { AreRead (lines_from block start 0 bytes.now) result }
    ensures size { IfOk result (λ lines. length lines.items ≡ length bytes.now) }
{
    let mut lines = Vec::with_capacity(alloc, bytes.len())?;
    let mut skip = 0;
    let mut at = start;
    let mut rest = bytes;
    while let Some((_, behind)) = rest.split_first() {
        let Some((line, operands)) = first_line(block, at, skip, rest) else {
            return Err(CodeFault::Byte { at });
        };
        lines.push(line)?;
        skip = operands;
        at += 1;
        rest = behind;
    }
    Ok(lines)
}

fn part_of(bytes: &[u8], start: usize, end: usize) -> &[u8]
    requires above { start ≤ end }
    requires within { end ≤ length bytes.now }
    ensures value { result.now ≡ slice_range bytes.now start end }
    ensures size { start + length result.now ≡ end }
{
    let (_, behind) = bytes.split_at(start);
    let (own, _) = behind.split_at(end - start);
    own
}

/// The instructions of all blocks.
pub(crate) fn read_lines(
    alloc: Global,
    bytes: &[u8],
    blocks: &[BlockCode],
) -> Result<Vec<Option<Line>>, CodeFault>
    requires few { length bytes.now < 2 ^ 32 }
    requires blocks { are_blocks (length bytes.now) blocks.now ≡ true }
    ensures read { AreRead (lines_of bytes.now 0 blocks.now) result }
    ensures size { IfOk result (λ lines. length lines.items ≡ length bytes.now) }
{
    let mut lines = Vec::with_capacity(alloc, bytes.len())?;
    let mut number = 0;
    let mut rest = blocks;
    while let Some((block, later)) = rest.split_first() {
        let end = end_of(bytes.len(), later);
        let part = part_of(bytes, block.start as usize, end);
        let own = read_block(alloc, number, block.start, part)?;
        lines.extend_from_slice(&own)?;
        number += 1;
        rest = later;
    }
    Ok(lines)
}
