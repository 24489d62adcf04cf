//! The plan of a checkpoint.
ghost use Rattle.std.specs.Prelude.{◌≡◌, ◌+◌, ◌-◌, ◌*◌, ◌<◌, ◌≤◌, ◌^◌, ℕ, List, length, min, IfOk, IfSome, OnOk, IsErrOf};
ghost use Rattle.std.specs.List.{AllByRecursion};
ghost use Rattle.extent_pages.specs.Pages.{most_pages};
ghost use Rattle.extent_pages.specs.Extent.{Leaf, pages_of_leaves};
ghost use Rattle.extent_plan.specs.Runs.{AscendFrom};
ghost use Rattle.extent_plan.specs.Pieces;
ghost use Rattle.extent_plan.specs.Plan.{ArePlaces};
ghost use Rattle.extent_plan.specs.Drafts.{Sharing};
ghost use Rattle.extent_plan.specs.Needed.{numbers_at, AreToWrite, checkpoint_pages};
ghost use Rattle.extent_plan.specs.Planning.{IsWritten, IsPlanFor};

use crate::chain::put_chain;
use crate::draft::draft_leaves;
use crate::free::free_pages;
use crate::lay::{lay_leaves, pages_filled, pages_of};
use crate::place::LeafPlace;
use crate::totals::{piece_of_root, root_with, spell_directory};
use disk_pieces::Piece;
use gem_image::Image;
use std::alloc::{AllocError, Global};

/// The number from which on there are no pages.
pub const MOST_PAGES: u64 = 262_144;

// How many numbers there are for leaves.
const LEAVES: usize = 1 << 42;

/// What a checkpoint is to write, and where the extent lies then.
#[derive(Debug, Drop)]
pub struct Plan {
    /// The pieces that are to be written, in their order.
    pub pieces: Vec<Piece>,
    /// The pages of the directory.
    pub directory: Vec<u32>,
    /// The leaves, in the order of their numbers.
    pub leaves: Vec<LeafPlace>,
}

/// Why nothing was planned.
#[derive(Clone, Copy, Debug, PartialEq, Eq)]
pub enum PlanFault {
    /// The three pages at the front, those that the current root uses and those that would be
    /// written are more than `MOST_PAGES`.
    Full {
        /// How many they are.
        pages: u64,
    },
    /// Memory ran out.
    NoMemory,
}

impl From<AllocError> for PlanFault {
    ghost use Rattle.extent_plan.specs.declared.plan.PlanFault.TheVariants as faults;

    ghost from_gives = { λ _ e. e ≡ faults.NoMemory };

    fn from(_e: AllocError) -> PlanFault {
        PlanFault::NoMemory
    }
}

// The pages of a directory of so many leaves; None where they are more than there are numbers, which
// no memory holds.
fn directory_pages(leaves: usize) -> Option<usize>
    ensures { IfSome result (λ pages. pages ≡ Pieces.pages_filled (4 + 12 * leaves)) }
{
    if leaves > LEAVES {
        return None;
    }
    Some(pages_filled(4 + 12 * leaves))
}

// Makes the pieces of an extent with this number, its root in this page and its directory in these.
fn write_plan(
    alloc: Global,
    number: u64,
    page: u32,
    directory: &[u32],
    laid: (Vec<LeafPlace>, Vec<Piece>),
    around: (Vec<Piece>, Vec<Piece>),
) -> Result<Plan, AllocError>
    requires { length directory.now ≡ Pieces.pages_filled (4 + 12 * length laid.0.items) }
    ensures { IfOk result (IsWritten number page directory.now laid.0.items laid.1.items
        around.0.items around.1.items) }
{
    let (leaves, mut leaf_pieces) = laid;
    let (mut pieces, mut after) = around;
    let payload = spell_directory(alloc, &leaves)?;
    let root = root_with(number, directory, &leaves);
    pieces.push(piece_of_root(alloc, page, &root)?)?;
    pieces.append(&mut after)?;
    put_chain(alloc, directory, &payload, &mut pieces)?;
    pieces.append(&mut leaf_pieces)?;
    Ok(Plan {
        pieces,
        directory: directory.to_vec(alloc)?,
        leaves,
    })
}

/// Plans a checkpoint of an image up to the commit of this number, with its root in this page. The
/// current root uses these pages, which ascend from 3 on, and has these leaves; where there is no
/// root, that is no page and no leaf. The changed leaves are told by their numbers.
///
/// Written are the changed leaves, a directory and a root, in the lowest pages that the current root
/// doesn't use; its other leaves stay, and the image isn't asked about them. The pieces around are
/// written before the root and behind it.
///
/// The clauses speak of the old leaves as they lie, and of a commit up to which the root goes: the
/// changed leaves have to be those in which an object was changed after it, and those that the root
/// hasn't (`AreToWrite`). Each leaf that stays has to hold what the image has.
///
/// # Errors
///
/// `Full` exactly where the three pages at the front, those that are used and those that would be
/// written are more than `MOST_PAGES`, with their number. `NoMemory` may come in place of any answer.
pub fn plan_checkpoint(
    alloc: Global,
    image: &Image,
    number: u64,
    page: u32,
    changed: &[u64],
    used: &[u32],
    leaves: &[LeafPlace],
    around: (Vec<Piece>, Vec<Piece>),
) -> Result<Plan, PlanFault>
    requires used { AscendFrom 3 used.now }
    requires few { length used.now ≤ most_pages }
    requires low { AllByRecursion (λ leaf. leaf < 2 ^ 42) changed.now }
    ensures planned { (since : ℕ) (old : List Leaf) → number < 2 ^ 63 →
        AreToWrite image.now since (numbers_at leaves.now) changed.now →
        ArePlaces leaves.now old → Sharing image.now since old →
        length (pages_of_leaves old) ≤ most_pages →
        IfOk result (IsPlanFor image.now number page used.now old
        around.0.items around.1.items) }
    ensures full { (since pages : ℕ) →
        AreToWrite image.now since (numbers_at leaves.now) changed.now →
        IsErrOf result (PlanFault.Full pages) →
        (most_pages < checkpoint_pages image.now since used.now leaves.now)
        × (pages ≡ min (checkpoint_pages image.now since used.now leaves.now) (2 ^ 64 - 1)) }
    ensures room { (since : ℕ) → AreToWrite image.now since (numbers_at leaves.now) changed.now →
        OnOk result (checkpoint_pages image.now since used.now leaves.now ≤ most_pages) }
{
    let drafts = draft_leaves(alloc, image, leaves, changed)?;
    let Some(directory) = directory_pages(drafts.len()) else {
        return Err(PlanFault::NoMemory);
    };
    let needed = (directory as u64).saturating_add(pages_of(&drafts));
    let pages = (3 + used.len() as u64).saturating_add(needed);
    if pages > MOST_PAGES {
        return Err(PlanFault::Full { pages });
    }
    let free = free_pages(alloc, used, needed as usize)?;
    let (directory, rest) = free.split_at(directory);
    let laid = lay_leaves(alloc, drafts, rest)?;
    let plan = write_plan(alloc, number, page, directory, laid, around)?;
    Ok(plan)
}
