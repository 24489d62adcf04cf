//! The code of a text.
ghost use Rattle.std.specs.Prelude.{◌≡◌, ◌≤◌, ◌^◌, length, map, IfOk};
ghost use Rattle.st_tree.specs.Falls.{size_program};
ghost use Rattle.tree_meaning.specs.Bodies.{method_place};
ghost use Rattle.st_compiler.specs.TreeCode.{statements_in_turn_code, statement_codes, method_code, chunk_code};
ghost use Rattle.st_compiler.specs.Emitted.{instructions, bodies, piece_body, text_code, AreOf};

use crate::emit::emit_statements;
use crate::instr::{BlockBody, Instr};
use crate::parts::put;
use st_locals::Place;
use st_tree::Tree;
use std::alloc::{AllocError, Global};
use std::marker::Model;

/// The code of a method or a chunk, with the tree from which it was made, as which contracts see
/// it. It is the code that the definition gives for the tree.
#[derive(Debug, Drop)]
pub struct Compiled {
    tree: Tree,
    code: Vec<Instr>,
    blocks: Vec<BlockBody>,
}

impl Model for Compiled {
    ghost use Rattle.st_tree.specs.Trees.{Program};
    ghost use Rattle.st_tree.specs.Codes.{program_code};

    ghost Value = { Program };

    ghost coded = { program_code };

    ghost use Rattle.st_compiler.specs.Emitted.{text_code, AreOf};

    ghost view = { λ c. c.tree };

    ghost invariant = { λ c. AreOf (text_code c.tree) c.code.items c.blocks.items };
}

impl Compiled {
    /// Where its memory comes from.
    pub fn allocator(&self) -> Global {
        *self.code.allocator()
    }

    /// How many parameters the text has. It takes no memory.
    pub fn params_count(&self) -> usize
        ensures { result ≡ length self.now.params }
    {
        self.tree.params.len()
    }

    /// How many temporaries the text has. It takes no memory.
    pub fn temps_count(&self) -> usize
        ensures { result ≡ length self.now.temps }
    {
        self.tree.temps.len()
    }

    /// Its instructions. It takes no memory.
    pub fn code(&self) -> &[Instr]
        ensures { instructions result.now ≡ (text_code self.now 0).code }
    {
        self.code.as_slice()
    }

    /// The blocks that are pushed in it, numbered from 0 in the order of the text. It takes no
    /// memory.
    pub fn blocks(&self) -> &[BlockBody]
        ensures { bodies result.now ≡ map piece_body (text_code self.now 0).pieces }
    {
        self.blocks.as_slice()
    }
}

/// Instructions, and the blocks that are pushed in them.
#[derive(Drop)]
struct Output {
    code: Vec<Instr>,
    blocks: Vec<BlockBody>,
}

/// The code of a tree: of a method where it has a selector, and else of a chunk. What it means is
/// said by the laws of this crate. It copies the tree; want of memory is the only error.
pub fn compile(tree: &Tree) -> Result<Compiled, AllocError>
    requires { size_program tree.now ≤ 2 ^ 40 }
    ensures { IfOk result (λ compiled. compiled ≡ tree.now) }
{
    let output = compile_text(tree)?;
    Ok(Compiled {
        tree: tree.clone()?,
        code: output.code,
        blocks: output.blocks,
    })
}

fn compile_text(tree: &Tree) -> Result<Output, AllocError>
    requires { size_program tree.now ≤ 2 ^ 40 }
    ensures { IfOk result (λ output.
        AreOf (text_code tree.now) output.code.items output.blocks.items) }
{
    match &tree.selector {
        Some(_) => compile_method(tree),
        None => compile_chunk(tree),
    }
}

// A method ends as if `^self` stood at its end.
#[tactic(auto, using(crate::proofs::Emits::emits), unfolding(crate::specs::TreeCode::method_code))]
fn compile_method(tree: &Tree) -> Result<Output, AllocError>
    requires { size_program tree.now ≤ 2 ^ 40 }
    ensures { IfOk result (λ output.
        AreOf (method_code tree.now) output.code.items output.blocks.items) }
{
    let mut output = compile_body(tree)?;
    put(&mut output.code, Instr::Pop)?;
    put(&mut output.code, Instr::PushSelf)?;
    put(&mut output.code, Instr::ReturnMethod)?;
    Ok(output)
}

// A chunk ends as if `^` stood before its last statement.
#[tactic(auto, using(crate::proofs::Emits::emits), unfolding(crate::specs::TreeCode::chunk_code))]
fn compile_chunk(tree: &Tree) -> Result<Output, AllocError>
    requires { size_program tree.now ≤ 2 ^ 40 }
    ensures { IfOk result (λ output.
        AreOf (chunk_code tree.now) output.code.items output.blocks.items) }
{
    let mut output = compile_body(tree)?;
    put(&mut output.code, Instr::ReturnMethod)?;
    Ok(output)
}

// The statements of a text.
#[tactic(auto, using(crate::proofs::Emits::emits))]
fn compile_body(tree: &Tree) -> Result<Output, AllocError>
    requires { size_program tree.now ≤ 2 ^ 40 }
    ensures { IfOk result (λ output.
        AreOf (statements_in_turn_code (statement_codes tree.now.body) (method_place tree.now) 0)
        output.code.items output.blocks.items) }
{
    let alloc = *tree.body.allocator();
    let place = Place::of_method(tree)?;
    let mut code = Vec::new(alloc);
    let mut blocks = Vec::new(alloc);
    emit_statements(alloc, &mut code, &mut blocks, &place, &tree.body, 0)?;
    Ok(Output { code, blocks })
}
