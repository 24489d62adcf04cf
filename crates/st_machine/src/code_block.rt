//! Made blocks.
ghost use Rattle.std.specs.Prelude.{◌≡◌, ◌<◌, length, reverse, IfOk};
ghost use Rattle.tree_meaning.specs.Bodies.{params_count, temps_count};
ghost use Rattle.st_machine.specs.Parts.{table_of, piece_of, made_of, framed};

use crate::outline::Outline;
use crate::shared_code::SharedCode;
use std::alloc::{AllocError, Global};
use std::marker::Model;
use std::sync::Arc;
use tree_meaning::Mark;

/// A block that was made: the code of the text in which it is pushed, its number there, and what
/// the activation knew that made it. Contracts see its tree and its place in place of the code.
#[derive(Drop)]
pub(crate) struct CodeBlock {
    code: SharedCode,
    number: usize,
    scopes: Vec<Mark>,
    outline: Outline,
}

impl Model for CodeBlock {
    ghost use Rattle.std.specs.Prelude.{◌<◌, length, reverse};
    ghost use Rattle.gem_object.specs.contracts.value.Value as value;
    ghost use Rattle.tree_meaning.specs.contracts.place.Mark as mark;
    ghost use Rattle.tree_meaning.specs.Place.{MadeBlock as TreeBlock};
    ghost use Rattle.st_locals.specs.Codes.{made_block_code};
    ghost use Rattle.st_machine.specs.Parts.{table_of, made_of, framed};

    ghost Value = { TreeBlock };

    ghost coded = { made_block_code value.the_row.coded mark.the_row.coded };

    ghost view = { λ made. made_of made.code made.number
        (framed (reverse made.scopes.items) made.outline) };

    ghost invariant = { λ made. made.number < length (table_of made.code) };
}

impl CodeBlock {
    /// The block of this number, made by an activation with these scopes, of which the last one is
    /// the innermost. It takes no memory.
    pub(crate) fn of(
        code: SharedCode,
        number: usize,
        scopes: Vec<Mark>,
        outline: Outline,
    ) -> CodeBlock
        requires { number < length (table_of code) }
        ensures { result ≡ made_of code number (framed (reverse scopes.items) outline) }
    {
        CodeBlock {
            code,
            number,
            scopes,
            outline,
        }
    }

    /// How many parameters it has.
    pub(crate) fn params_count(&self) -> usize
        ensures { result ≡ params_count self.now.tree }
    {
        match self.code.block(self.number) {
            Some(block) => block.params,
            None => unreachable!(),
        }
    }

    /// How many temporaries it has.
    pub(crate) fn temps_count(&self) -> usize
        ensures { result ≡ temps_count self.now.tree }
    {
        match self.code.block(self.number) {
            Some(block) => block.temps,
            None => unreachable!(),
        }
    }

    /// The code of the text in which it is pushed, and its number there.
    pub(crate) fn code(&self) -> (&SharedCode, usize)
        ensures number { result.1 < length (table_of result.0.now) }
        ensures tree { (piece_of result.0.now result.1).tree ≡ self.now.tree }
        ensures place { (piece_of result.0.now result.1).place ≡ self.now.place }
    {
        (&self.code, self.number)
    }

    /// What the activation knew that made it, but for its scopes.
    pub(crate) fn outline(&self) -> &Outline
        ensures { framed self.now.frame.scopes result.now ≡ self.now.frame }
    {
        &self.outline
    }

    /// The scopes of the activation that made it, the innermost one last.
    pub(crate) fn scopes(&self) -> &[Mark]
        ensures { reverse result.now ≡ self.now.frame.scopes }
    {
        self.scopes.as_slice()
    }
}

/// A made block, which all share that evaluate it.
#[derive(Drop)]
pub(crate) struct SharedBlock {
    block: Arc<CodeBlock>,
}

impl Model for SharedBlock {
    ghost use Rattle.std.specs.Arc.{arc_value};
    ghost use Rattle.gem_object.specs.contracts.value.Value as value;
    ghost use Rattle.tree_meaning.specs.contracts.place.Mark as mark;
    ghost use Rattle.tree_meaning.specs.Place.{MadeBlock as TreeBlock};
    ghost use Rattle.st_locals.specs.Codes.{made_block_code};

    ghost Value = { TreeBlock };

    ghost coded = { made_block_code value.the_row.coded mark.the_row.coded };

    ghost view = { λ shared. arc_value shared.block };
}

impl SharedBlock {
    /// The block, to be shared.
    pub(crate) fn of(alloc: Global, block: CodeBlock) -> Result<SharedBlock, AllocError>
        ensures { IfOk result (λ shared. shared ≡ block) }
    {
        Ok(SharedBlock {
            block: Arc::new(alloc, block)?,
        })
    }

    /// The same block for one more. It copies nothing.
    pub(crate) fn share(&self) -> Result<SharedBlock, AllocError>
        ensures { IfOk result (λ shared. shared ≡ self.now) }
    {
        Ok(SharedBlock {
            block: Arc::try_clone(&self.block)?,
        })
    }

    /// The block.
    pub(crate) fn block(&self) -> &CodeBlock
        ensures { result.now ≡ self.now }
    {
        &self.block
    }
}
