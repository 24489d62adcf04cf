//! Which leaves stay as they are, and which are to be written.
ghost use Rattle.std.specs.Prelude.{◌≡◌, ◌<◌, ◌^◌, ◌∷◌, ℕ, true, List, length, IfOk, OnOk, MatchOption};
ghost use Rattle.std.specs.List.{AllByRecursion};
ghost use Rattle.extent_pages.specs.Extent.{Leaf};
ghost use Rattle.extent_plan.specs.Plan.{ArePlaces};
ghost use Rattle.extent_plan.specs.Laying.{pages_of_drafts};
ghost use Rattle.extent_plan.specs.Needed.{sum_below, pages_written, leaves_in, numbers_at, AreToWrite};
ghost use Rattle.extent_plan.specs.Drafts;
ghost use Rattle.extent_plan.specs.Drafts.{NoneBefore, IsFreshOf, KeepsPlace, SpellsLeaf, Sharing, Drafted};

use crate::fresh::FreshLeaf;
use crate::gather::{Gathered, gather_leaf};
use crate::place::LeafPlace;
use gem_image::Image;
use std::alloc::{AllocError, Global};

// A leaf that stays where it is, or one that is to be written.
#[derive(Drop)]
pub(crate) enum Draft {
    Shared(LeafPlace),
    Fresh(FreshLeaf),
}

// Whether a leaf comes before the first of these, if there is one.
fn comes_before(leaf: u64, changed: &[u64]) -> bool
    ensures { result ≡ Drafts.comes_before leaf changed.now }
{
    match changed.first() {
        Some(first) => leaf < *first,
        None => true,
    }
}

// The first place and those behind it, where it comes before the leaves that are to be written.
fn first_kept<'a>(
    places: &'a [LeafPlace],
    changed: &[u64],
) -> Option<(&'a LeafPlace, &'a [LeafPlace])>
    ensures { MatchOption result (NoneBefore places.now changed.now) (λ x.
        (places.now ≡ x.0.now ∷ x.1.now)
        × (Drafts.comes_before x.0.now.number changed.now ≡ true)) }
{
    let (first, behind) = places.split_first()?;
    if comes_before(first.number, changed) {
        Some((first, behind))
    } else {
        None
    }
}

// The places behind that of the leaf of this number, where it is the first.
fn places_behind(places: &[LeafPlace], leaf: u64) -> &[LeafPlace]
    ensures { result.now ≡ Drafts.places_behind leaf places.now }
{
    let Some((first, behind)) = places.split_first() else {
        return places;
    };
    if first.number == leaf { behind } else { places }
}

// A leaf of what was gathered, to be written.
fn fresh_leaf(alloc: Global, leaf: u64, mut gathered: Gathered) -> Result<FreshLeaf, AllocError>
    requires { gathered.count < 256 }
    ensures { IfOk result (IsFreshOf leaf gathered) }
{
    let mut payload = vec![in alloc; gathered.count as u8]?;
    payload.append(&mut gathered.items)?;
    Ok(FreshLeaf {
        number: leaf,
        count: gathered.count,
        serial: gathered.serial,
        payload,
    })
}

// Drafts a place, which stays.
fn keep_place(alloc: Global, place: &LeafPlace, drafts: &mut Vec<Draft>) -> Result<(), AllocError>
    ensures { OnOk result (KeepsPlace place.now drafts.old.items drafts.new.items) }
{
    drafts.push(Draft::Shared(place.copied(alloc)?))?;
    Ok(())
}

// Drafts the leaf of this number, which is to be written as the image has it.
fn spell_leaf(
    alloc: Global,
    image: &Image,
    leaf: u64,
    drafts: &mut Vec<Draft>,
) -> Result<(), AllocError>
    requires { leaf < 2 ^ 42 }
    ensures { OnOk result (SpellsLeaf image.now leaf drafts.old.items drafts.new.items) }
{
    let gathered = gather_leaf(alloc, image, leaf)?;
    drafts.push(Draft::Fresh(fresh_leaf(alloc, leaf, gathered)?))?;
    Ok(())
}

/// Drafts the leaves of an image, in the order of their numbers: those that are to be written, and
/// the other ones of the current root, which stay. Of the image only the first are looked at.
pub(crate) fn draft_leaves(
    alloc: Global,
    image: &Image,
    kept: &[LeafPlace],
    changed: &[u64],
) -> Result<Vec<Draft>, AllocError>
    requires { AllByRecursion (λ leaf. leaf < 2 ^ 42) changed.now }
    ensures counted { IfOk result (λ drafts. (since : ℕ) →
        AreToWrite image.now since (numbers_at kept.now) changed.now →
        (length drafts.items ≡ leaves_in image.now) × (pages_of_drafts drafts.items
        ≡ sum_below (2 ^ 42) (pages_written image.now since (numbers_at kept.now)))) }
    ensures drafts { IfOk result (λ drafts. (since : ℕ) (old : List Leaf) →
        AreToWrite image.now since (numbers_at kept.now) changed.now →
        ArePlaces kept.now old → Sharing image.now since old →
        Drafted image.now old drafts.items) }
{
    let mut drafts = Vec::new(alloc);
    let mut places = kept;
    let mut left = changed;
    image.invariant();
    loop {
        if let Some((place, behind)) = first_kept(places, left) {
            keep_place(alloc, place, &mut drafts)?;
            places = behind;
            continue;
        }
        let Some((leaf, behind)) = left.split_first() else {
            return Ok(drafts);
        };
        spell_leaf(alloc, image, *leaf, &mut drafts)?;
        places = places_behind(places, *leaf);
        left = behind;
    }
}
