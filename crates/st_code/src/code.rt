//! Checked code.
ghost use Rattle.std.specs.Prelude.{◌≡◌, ◌<◌, ◌^◌, length, None, Ok, IfOk, IfErr, OnOk};
ghost use Rattle.st_code.specs.Lines.{lines_of};
ghost use Rattle.st_code.specs.Faults.{fault_of, line_fault, IsFault};

use crate::blocks::{BlockCode, are_blocks};
use crate::fault::CodeFault;
use crate::line::{Line, read_lines};
use crate::literals::first_pushes;
use crate::reach::known_of;
use crate::rules::{Known, jump_fault, operand_fault, stack_fault};
use st_tree::Literal;
use std::alloc::Global;

/// The code of a method or a chunk, with that of its blocks. It keeps the rules of checked code.
#[derive(Debug, Drop)]
pub struct Code {
    bytes: Vec<u8>,
    literals: Vec<Literal>,
    blocks: Vec<BlockCode>,
    ghost checked: { fault_of bytes.items literals.items blocks.items ≡ None },
}

impl Code {
    /// The bytes, the literals and the blocks as code, if they keep the rules of checked code. The
    /// first block is the method or the chunk itself.
    ///
    /// # Errors
    ///
    /// The first of the rules that breaks, in the order Byte, Jump, Operand, Stack, with the lowest
    /// place at which it does; or `NoMemory`, of which the contract says no more.
    pub fn check(
        bytes: Vec<u8>,
        literals: Vec<Literal>,
        blocks: Vec<BlockCode>,
    ) -> Result<Code, CodeFault>
        requires { length bytes.items < 2 ^ 32 }
        ensures bytes { IfOk result (λ code. code.bytes.items ≡ bytes.items) }
        ensures literals { IfOk result (λ code. code.literals.items ≡ literals.items) }
        ensures blocks { IfOk result (λ code. code.blocks.items ≡ blocks.items) }
        ensures checked { OnOk result (fault_of bytes.items literals.items blocks.items ≡ None) }
        ensures fault { IfErr result
            (IsFault (fault_of bytes.items literals.items blocks.items)) }
    {
        keep_rules(&bytes, &literals, &blocks)?;
        Ok(Code {
            bytes,
            literals,
            blocks,
        })
    }

    /// The bytes. It takes no memory.
    pub fn bytes(&self) -> &[u8]
        ensures { result.now ≡ self.now.bytes.items }
    {
        self.bytes.as_slice()
    }

    /// The literals. It takes no memory.
    pub fn literals(&self) -> &[Literal]
        ensures { result.now ≡ self.now.literals.items }
    {
        self.literals.as_slice()
    }

    /// The blocks, the first of which is the method or the chunk itself. It takes no memory.
    pub fn blocks(&self) -> &[BlockCode]
        ensures { result.now ≡ self.now.blocks.items }
    {
        self.blocks.as_slice()
    }
}

#[tactic(auto, unfolding(crate::specs::Faults::fault_of))]
fn keep_rules(bytes: &Vec<u8>, literals: &[Literal], blocks: &[BlockCode]) -> Result<(), CodeFault>
    requires { length bytes.now.items < 2 ^ 32 }
    ensures checked { OnOk result (fault_of bytes.now.items literals.now blocks.now ≡ None) }
    ensures fault { IfErr result (IsFault (fault_of bytes.now.items literals.now blocks.now)) }
{
    if !are_blocks(bytes.len(), blocks) {
        return Err(CodeFault::Operand { at: 0 });
    }
    let lines = read_lines(*bytes.allocator(), bytes, blocks)?;
    keep_line_rules(literals, blocks, lines)
}

fn keep_line_rules(
    literals: &[Literal],
    blocks: &[BlockCode],
    lines: Vec<Option<Line>>,
) -> Result<(), CodeFault>
    requires { length lines.items < 2 ^ 32 }
    ensures checked { OnOk result (line_fault literals.now blocks.now (Ok lines.items) ≡ None) }
    ensures fault { IfErr result (IsFault (line_fault literals.now blocks.now (Ok lines.items))) }
{
    if let Some(at) = jump_fault(&lines) {
        return Err(CodeFault::Jump { at });
    }
    let alloc = *lines.allocator();
    let pushes = first_pushes(alloc, blocks, &lines)?;
    let held = known_of(alloc, &lines, blocks)?;
    let known = Known {
        lines,
        pushes,
        held,
    };
    if let Some(at) = operand_fault(literals, blocks, &known)? {
        return Err(CodeFault::Operand { at });
    }
    if let Some(at) = stack_fault(blocks, &known)? {
        return Err(CodeFault::Stack { at });
    }
    Ok(())
}
