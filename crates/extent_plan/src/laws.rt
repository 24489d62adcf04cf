//! What follows from the definitions alone. Each law is the contract of a function that does
//! nothing.
ghost use Rattle.std.specs.Prelude.{◌≡◌, ◌<◌, ℕ, List, [], length, true, Some, None};
ghost use Rattle.std.specs.List.{AllByRecursion};
ghost use Rattle.std.specs.FinMap.{entries, from_entries};
ghost use Rattle.gem_object.specs.declared.object.Object.{Object};
ghost use Rattle.gem_image.specs.Image.{Image, AreNamed};
ghost use Rattle.gem_record.specs.Stored.{Root, pages_over};
ghost use Rattle.disk_pieces.specs.Pieces.{Piece, Stand};
ghost use Rattle.extent_pages.specs.Pages.{most_pages, pages_of, is_one_of, Chain};
ghost use Rattle.extent_pages.specs.Spelled.{spelled_leaf};
ghost use Rattle.extent_pages.specs.Extent.{Leaf, Extent, pages_of_leaves};
ghost use Rattle.extent_pages.specs.Laid.{IsChain, LeavesLie, IsLaid};
ghost use Rattle.extent_pages.specs.Stored.{IsStoredLeaf, AreStored, IsStoredExtent};
ghost use Rattle.extent_plan.specs.declared.place.LeafPlace.{LeafPlace};
ghost use Rattle.extent_plan.specs.Pieces.{pages_filled};
ghost use Rattle.extent_plan.specs.Plan.{ArePlaces, Around, IsPlanned};
ghost use Rattle.extent_plan.specs.Drafts.{objects_in_all, Sharing};
ghost use Rattle.extent_plan.specs.Needed.{AreChanged, AreToWrite, numbers_at, checkpoint_pages};
ghost use Rattle.extent_plan.specs.Shared.{KeepsHeld, Alike};

/// In each file in which the pieces of a plan stand, and in which the old leaves lie in pages that are
/// kept, the extent of the plan lies, with its root in the plan's page.
pub fn plans_lie()
    ensures { (file kept : List ℕ) (old : List Leaf) (page : ℕ) (around : Around)
        (extent : Extent) (pieces : List Piece) (directory : List ℕ) →
        IsPlanned kept old page around extent pieces → page < most_pages →
        LeavesLie (pages_of file) directory old →
        ((other : ℕ) → is_one_of other (pages_of_leaves old) ≡ true → is_one_of other kept ≡ true) →
        ((other : ℕ) → is_one_of other directory ≡ true → is_one_of other kept ≡ true) →
        Stand file pieces → IsLaid (pages_of file) page extent }
{}

/// An old leaf may stay in which no object was changed after the root's commit, where each name of
/// the root's image is in the image, and each object that wasn't changed since stands in the root's
/// image with the same class, segment and body.
pub fn leaves_may_stay()
    ensures { (image : Image) (since : ℕ) (old : List Leaf) →
        KeepsHeld image (from_entries (objects_in_all old)) since → AreStored old →
        Sharing image since old }
{}

/// The leaves that count as changed over a root are those that a checkpoint writes over it, where each
/// name of the root's image is in the image, and each object that wasn't changed since stands in the
/// root's image with the same class, segment and body. Without a root these are all leaves.
pub fn changed_leaves_are_written()
    ensures first { (image : Image) (since : ℕ) (changed : List ℕ) →
        AreChanged None image changed → AreToWrite image since [] changed }
    ensures later { (image : Image) (since : ℕ) (old : List Leaf) (places : List LeafPlace)
        (changed : List ℕ) → ArePlaces places old → AreStored old →
        KeepsHeld image (from_entries (objects_in_all old)) since →
        AreChanged (Some since) image changed →
        AreToWrite image since (numbers_at places) changed }
{}

/// The extent of a plan can be stored, where each of the old leaves can: its leaves are of their form,
/// and they and the directory have as many pages as their bytes fill.
pub fn planned_extents_can_be_stored()
    ensures { (kept : List ℕ) (old : List Leaf) (page : ℕ) (around : Around) (extent : Extent)
        (pieces : List Piece) → IsPlanned kept old page around extent pieces →
        AllByRecursion IsStoredLeaf old → IsStoredExtent extent }
{}

/// A chain that lies in a file has as many pages as its payload fills.
pub fn pages_by_length()
    ensures { (file taken : List ℕ) (chain : Chain) → IsChain (pages_of file) taken chain →
        length chain.pages ≡ pages_filled (length chain.payload) }
{}

/// Objects at the same names, with the same class, segment and body, make the same bytes of a leaf.
pub fn same_objects_same_bytes()
    ensures { (objects others : List (ℕ × Object)) → Alike objects others →
        spelled_leaf objects ≡ spelled_leaf others }
{}

/// A checkpoint takes as many pages as are counted over the entries of its image, by the current root
/// where there is one. That is said of leaves that may stay: each name of the root's image is in the
/// image, and each object that wasn't changed since stands there with the same class, segment and body.
pub fn pages_are_counted()
    ensures first { (image : Image) (since : ℕ) → AreNamed image →
        checkpoint_pages image since [] [] ≡ pages_over None (entries image) }
    ensures later { (image : Image) (root : Root) (old : List Leaf) (used : List ℕ)
        (places : List LeafPlace) → AreNamed image → ArePlaces places old → AreStored old →
        KeepsHeld image (from_entries (objects_in_all old)) root.number →
        length used ≡ root.pages →
        checkpoint_pages image root.number used places ≡ pages_over (Some root) (entries image) }
{}
