//! Leaves that are given their pages.
ghost use Rattle.std.specs.Prelude.{◌≡◌, ◌-◌, ◌≤◌, ◌<◌, ◌^◌, ℕ, List, length, min, IfOk};
ghost use Rattle.gem_image.specs.Image.{Image};
ghost use Rattle.extent_pages.specs.Extent.{Leaf};
ghost use Rattle.extent_plan.specs.Runs.{IsRun};
ghost use Rattle.extent_plan.specs.Pieces;
ghost use Rattle.extent_plan.specs.Drafts.{DraftsTo};
ghost use Rattle.extent_plan.specs.Laying.{draft_pages, pages_of_drafts, LiesOn, LaysOne, AreLaid};

use crate::chain::{PAYLOAD_SIZE, put_chain};
use crate::draft::Draft;
use crate::fresh::FreshLeaf;
use crate::place::LeafPlace;
use disk_pieces::Piece;
use std::alloc::{AllocError, Global};

// How many pages a payload of so many bytes fills.
pub(crate) fn pages_filled(count: usize) -> usize
    requires { count < 2 ^ 63 }
    ensures { result ≡ Pieces.pages_filled count }
{
    (count + (PAYLOAD_SIZE - 1)) / PAYLOAD_SIZE
}

// How many pages a draft is to be written on.
fn pages_of_draft(draft: &Draft) -> u64
    ensures { result ≡ draft_pages draft.now }
{
    match draft {
        Draft::Shared(_) => 0,
        Draft::Fresh(fresh) => pages_filled(fresh.payload.len()) as u64,
    }
}

/// How many pages drafts are to be written on, or 2^64 - 1 where they are more.
pub(crate) fn pages_of(drafts: &[Draft]) -> u64
    ensures { result ≡ min (pages_of_drafts drafts.now) (2 ^ 64 - 1) }
{
    let mut count: u64 = 0;
    let mut rest = drafts;
    while let Some((draft, behind)) = rest.split_first() {
        count = count.saturating_add(pages_of_draft(draft));
        rest = behind;
    }
    count
}

// Puts a fresh leaf on the first of the free pages.
fn lay_fresh<'a>(
    alloc: Global,
    fresh: FreshLeaf,
    free: &'a [u32],
    pieces: &mut Vec<Piece>,
) -> Result<(LeafPlace, &'a [u32]), AllocError>
    requires { Pieces.pages_filled (length fresh.payload.items) ≤ length free.now }
    ensures { IfOk result (λ x. LiesOn fresh free.now x.1.now pieces.old.items pieces.new.items x.0) }
{
    let count = pages_filled(fresh.payload.len());
    let (pages, rest) = free.split_at(count);
    put_chain(alloc, pages, &fresh.payload, pieces)?;
    let place = LeafPlace {
        number: fresh.number,
        pages: pages.to_vec(alloc)?,
        count: fresh.count,
        serial: fresh.serial,
    };
    Ok((place, rest))
}

// Gives a draft its pages, where it is to be written.
fn lay_leaf<'a>(
    alloc: Global,
    draft: Draft,
    free: &'a [u32],
    pieces: &mut Vec<Piece>,
) -> Result<(LeafPlace, &'a [u32]), AllocError>
    requires { draft_pages draft ≤ length free.now }
    ensures { IfOk result (λ x. LaysOne draft free.now x.1.now pieces.old.items pieces.new.items x.0) }
{
    match draft {
        Draft::Shared(place) => Ok((place, free)),
        Draft::Fresh(fresh) => lay_fresh(alloc, fresh, free, pieces),
    }
}

/// Gives each leaf that is to be written its pages, the first of those that are free, and makes its
/// pieces.
pub(crate) fn lay_leaves(
    alloc: Global,
    drafts: Vec<Draft>,
    free: &[u32],
) -> Result<(Vec<LeafPlace>, Vec<Piece>), AllocError>
    requires { pages_of_drafts drafts.items ≤ length free.now }
    ensures count { IfOk result (λ x. length x.0.items ≡ length drafts.items) }
    ensures laid { IfOk result (λ x. (image : Image) (kept : List ℕ) (old made left : List Leaf)
        (from : ℕ) → DraftsTo image old drafts.items made left → IsRun kept from free.now →
        AreLaid kept old from x.1.items x.0.items made) }
{
    let mut places = Vec::new(alloc);
    let mut pieces = Vec::new(alloc);
    let mut rest = free;
    for draft in drafts {
        let (place, behind) = lay_leaf(alloc, draft, rest, &mut pieces)?;
        places.push(place)?;
        rest = behind;
    }
    Ok((places, pieces))
}
