//! Made blocks.
ghost use Rattle.std.specs.Prelude.{◌≡◌, ◌≤◌, ◌^◌};
ghost use Rattle.st_tree.specs.Falls.{size_closure};

use crate::frame::Frame;
use crate::place::Place;
use st_tree::BlockTree;
use std::alloc::AllocError;
use std::marker::Model;

/// A block that was made: its tree, which it owns, where it stands, and what the activation knew
/// that made it. The tree's size is at most 2^40.
#[derive(Drop)]
pub struct MadeBlock {
    tree: BlockTree,
    place: Place,
    frame: Frame,
}

impl Model for MadeBlock {
    ghost use Rattle.std.specs.Prelude.{◌≤◌, ◌^◌};
    ghost use Rattle.gem_object.specs.contracts.value.Value as value;
    ghost use Rattle.tree_meaning.specs.contracts.place.Mark as mark;
    ghost use Rattle.st_tree.specs.Falls.{size_closure};
    ghost use Rattle.tree_meaning.specs.Place.{MadeBlock as TreeBlock};
    ghost use Rattle.st_locals.specs.Codes.{made_block_code};

    ghost Value = { TreeBlock };

    ghost coded = { made_block_code value.the_row.coded mark.the_row.coded };

    ghost view = { λ made. record {
      tree = made.tree;
      place = made.place;
      frame = made.frame;
    } };

    ghost invariant = { λ made. size_closure made.tree ≤ 2 ^ 40 };
}

impl MadeBlock {
    /// The block of this tree, at this place, made in this frame. It takes no memory.
    pub fn of(tree: BlockTree, place: Place, frame: Frame) -> MadeBlock
        requires { size_closure tree ≤ 2 ^ 40 }
        ensures { result ≡ record { tree = tree; place = place; frame = frame } }
    {
        MadeBlock { tree, place, frame }
    }

    /// The tree of the block.
    pub fn tree(&self) -> &BlockTree
        ensures tree { result.now ≡ self.now.tree }
        ensures bound { size_closure self.now.tree ≤ 2 ^ 40 }
    {
        &self.tree
    }

    /// Where the block stands.
    pub fn place(&self) -> &Place
        ensures { result.now ≡ self.now.place }
    {
        &self.place
    }

    /// What the activation knew that made it.
    pub fn frame(&self) -> &Frame
        ensures { result.now ≡ self.now.frame }
    {
        &self.frame
    }
}

impl Clone for MadeBlock {
    ghost is_clone = { λ made copy. copy ≡ made };

    fn clone(&self) -> Result<MadeBlock, AllocError> {
        Ok(MadeBlock {
            tree: self.tree.clone()?,
            place: self.place.clone()?,
            frame: self.frame.clone()?,
        })
    }
}
