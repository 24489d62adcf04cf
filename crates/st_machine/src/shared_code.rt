//! The code of a text, which all share that run it.
ghost use Rattle.std.specs.Prelude.{◌≡◌, ◌<◌, length, map, slice_get, option_map, option_copied, IfOk, IfSome};
ghost use Rattle.st_compiler.specs.Emitted.{instructions, bodies, body_of, piece_body};
ghost use Rattle.st_machine.specs.Parts.{table_of, HasPart, part_code};

use st_compiler::{BlockBody, Compiled, Instr};
use std::alloc::{AllocError, Global};
use std::marker::Model;
use std::sync::Arc;

/// A part of a text that runs by itself.
#[derive(Clone, Copy, Debug, PartialEq, Eq)]
pub(crate) enum Part {
    /// The method or the chunk.
    Whole,
    /// The block of this number among those that are pushed in it.
    Block(usize),
}

/// The code of a text, which all share that run it. Contracts see the text's tree.
#[derive(Drop)]
pub struct SharedCode {
    compiled: Arc<Compiled>,
}

impl Model for SharedCode {
    ghost use Rattle.std.specs.Arc.{arc_value};
    ghost use Rattle.st_tree.specs.Trees.{Program};
    ghost use Rattle.st_tree.specs.Codes.{program_code};

    ghost Value = { Program };

    ghost coded = { program_code };

    ghost view = { λ code. arc_value code.compiled };
}

impl SharedCode {
    /// The code, to be shared.
    pub fn of(alloc: Global, compiled: Compiled) -> Result<SharedCode, AllocError>
        ensures { IfOk result (λ code. code ≡ compiled) }
    {
        Ok(SharedCode {
            compiled: Arc::new(alloc, compiled)?,
        })
    }

    /// The same code for one more. It copies nothing.
    pub fn share(&self) -> Result<SharedCode, AllocError>
        ensures { IfOk result (λ code. code ≡ self.now) }
    {
        Ok(SharedCode {
            compiled: Arc::try_clone(&self.compiled)?,
        })
    }

    /// The code.
    pub fn compiled(&self) -> &Compiled
        ensures { result.now ≡ self.now }
    {
        &self.compiled
    }

    /// How many temporaries the text has.
    pub(crate) fn temps_count(&self) -> usize
        ensures { result ≡ length self.now.temps }
    {
        self.compiled().temps_count()
    }

    /// The instructions of a part.
    pub(crate) fn code_of(&self, part: Part) -> &[Instr]
        requires { HasPart self.now part }
        ensures { instructions result.now ≡ part_code self.now part }
    {
        match part {
            Part::Whole => self.compiled().code(),
            Part::Block(number) => match self.block(number) {
                Some(block) => block.code.as_slice(),
                None => unreachable!(),
            },
        }
    }

    /// The block of this number among those that are pushed in the text.
    pub(crate) fn block(&self, number: usize) -> Option<&BlockBody>
        ensures { option_map body_of (option_copied result)
            ≡ option_map piece_body (slice_get (table_of self.now) number) }
    {
        block_at(self.compiled().blocks(), number)
    }
}

/// The block of this number among those that the compiler put out.
fn block_at(blocks: &[BlockBody], number: usize) -> Option<&BlockBody>
    ensures { option_map body_of (option_copied result) ≡ slice_get (bodies blocks.now) number }
{
    blocks.get(number)
}
