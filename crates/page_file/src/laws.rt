//! What follows from the definitions alone. Each law is the contract of a function that does
//! nothing.
ghost use Rattle.std.specs.Prelude.{◌≡◌, ℕ, true, List, length, Option, Some, Ok, Result};
ghost use Rattle.gem_io.specs.declared.device.Failed.{Failed};
ghost use Rattle.gem_disk.specs.declared.disk.Which.TheVariants as which;
ghost use Rattle.gem_disk.specs.Disk.{Change, Past, FileImages, stepped, Writes, Cuts, Syncs};
ghost use Rattle.gem_image.specs.Image.{Image};
ghost use Rattle.gem_record.specs.Stored.{image_pages, after_checkpoint};
ghost use Rattle.extent_pages.specs.Extent.{Extent, pages_used, extent_of};
ghost use Rattle.page_file.specs.declared.file.PageFile.{PageFile};
ghost use Rattle.page_file.specs.Checkpoint.{IsCheckpoint};
ghost use Rattle.page_file.specs.PageFile.{IsAtRest, AreFound};
ghost use Rattle.page_file.specs.Changing.{counted_root, root_found, IsChanged};

/// Each crash of an extent at rest leaves one that stands for what it stands for.
pub fn rest_is_held()
    ensures { (past : Past) (pages : PageFile) (before : Option Extent) (image : List ℕ) →
        IsAtRest past pages before → FileImages past.first past.steps which.Extent image →
        extent_of image ≡ Ok before }
{}

/// Calls on the log, done or failed, leave an extent at rest.
pub fn rest_stays()
    ensures step { (past : Past) (change : Change) (bytes : List ℕ) (pages : PageFile)
        (before : Option Extent) → IsAtRest past pages before →
        IsAtRest (stepped past which.Log change bytes) pages before }
    ensures write { (at : ℕ) (bytes : List ℕ) (old new : Past) (outcome : Result (Unit {0}) Failed)
        (pages : PageFile) (before : Option Extent) → Writes which.Log at bytes old outcome new →
        IsAtRest old pages before → IsAtRest new pages before }
    ensures cut { (n : ℕ) (old new : Past) (outcome : Result (Unit {0}) Failed)
        (pages : PageFile) (before : Option Extent) → Cuts which.Log n old outcome new →
        IsAtRest old pages before → IsAtRest new pages before }
    ensures sync { (old new : Past) (outcome : Result (Unit {0}) Failed)
        (pages : PageFile) (before : Option Extent) → Syncs which.Log old outcome new →
        IsAtRest old pages before → IsAtRest new pages before }
{}

/// A checkpoint at rest uses as many pages as the record of what is stored counts of its image. So what
/// is counted of it is the root that the record has of the image: after a checkpoint was made, and
/// after an extent was opened.
pub fn pages_are_those_of_the_image()
    ensures pages { (past : Past) (pages : PageFile) (image : Image) (number : ℕ) (next : Extent) →
        IsAtRest past pages (Some next) → IsCheckpoint image number next →
        length (pages_used next) ≡ image_pages image }
    ensures changed { (past : Past) (pages : PageFile) (image : Image) (number : ℕ) →
        (is : IsChanged past pages image number) →
        counted_root (Some is.next) ≡ (after_checkpoint true image number).root }
    ensures found { (past : Past) (pages : PageFile) (image : Option Image) (number : ℕ)
        (before : Option Extent) → AreFound image number before → IsAtRest past pages before →
        counted_root before ≡ root_found image number }
{}
