//! Writes the pieces of a checkpoint.
ghost use Rattle.std.specs.Prelude.{◌≡◌, ℕ, ◌≤◌, Option, Some, None, IfSome, length, IsTrue, OnOk};
ghost use Rattle.gem_io.specs.Faults.{HasCause};
ghost use Rattle.gem_disk.specs.declared.disk.Which.TheVariants as which;
ghost use Rattle.gem_disk.specs.Disk.{reads};
ghost use Rattle.disk_pieces.specs.Crashes.{IsDurable, OnlyLeaves};
ghost use Rattle.extent_pages.specs.Extent.{Extent};
ghost use Rattle.page_file.specs.Checkpoint.{IsClosed, HoldsEither, SwitchesFrom, HasNone, MayRenew, MayBegin, StandsFor};
ghost use Rattle.page_file.specs.Planned.{root_before, new_page, IsRooted, MayCheckpoint};
ghost use Rattle.gem_image.specs.Image.{Image};

use disk_pieces::{Piece, bring_and_switch, switch};
use gem_disk::{Disk, Which};
use gem_io::Failed;

const GATE: u64 = 0;

const SELECTOR: u64 = 1;

const CLOSED: u8 = 0;

const OPEN: u8 = 1;

// Writes a later checkpoint, with its root in the page that isn't the current root's. Its number
// serves as the selector.
pub(crate) fn write_later<D: Disk>(disk: &mut D, page: u8, pieces: &[Piece]) -> Result<(), Failed>
    requires { IsTrue D.tells → (extent : Extent) × (next : Extent)
        × MayRenew (D.past disk.old) extent next page pieces.now }
    ensures any_moment { (extent next : Extent) → IsTrue D.tells →
        MayRenew (D.past disk.old) extent next page pieces.now →
        OnlyLeaves (HoldsEither (Some extent) next) (D.past disk.old) (D.past disk.new) }
    ensures switches { (extent next : Extent) → IsTrue D.tells →
        MayRenew (D.past disk.old) extent next page pieces.now →
        SwitchesFrom (Some extent) (D.past disk.old) (D.past disk.new) }
    ensures done { (extent next : Extent) → IsTrue D.tells →
        MayRenew (D.past disk.old) extent next page pieces.now →
        OnOk result (IsRooted (reads (D.past disk.new) which.Extent) next page) }
    ensures durable { IsTrue D.tells → OnOk result (IsDurable (D.past disk.new)) }
    ensures faults { HasCause (D.faults disk.old) (D.faults disk.new) result }
{
    bring_and_switch(disk, pieces, SELECTOR, page)
}

// Closes the gate of an extent that stands for no checkpoint, where it has one byte at most. A
// longer one has its gate closed.
fn close_gate<D: Disk>(disk: &mut D) -> Result<(), Failed>
    ensures any_moment { IsTrue D.tells → IsDurable (D.past disk.old) →
        HasNone (reads (D.past disk.old) which.Extent) →
        OnlyLeaves HasNone (D.past disk.old) (D.past disk.new) }
    ensures closed { IsTrue D.tells → HasNone (reads (D.past disk.old) which.Extent) →
        OnOk result (IsClosed (reads (D.past disk.new) which.Extent)) }
    ensures durable { IsTrue D.tells → IsDurable (D.past disk.old) →
        OnOk result (IsDurable (D.past disk.new)) }
    ensures faults { HasCause (D.faults disk.old) (D.faults disk.new) result }
{
    if disk.length(Which::Extent)? < 2 {
        return switch(disk, GATE, CLOSED);
    }
    Ok(())
}

// Writes the first checkpoint.
pub(crate) fn write_first<D: Disk>(disk: &mut D, pieces: &[Piece]) -> Result<(), Failed>
    requires { IsTrue D.tells → (next : Extent)
        × MayBegin (D.past disk.old) next pieces.now }
    ensures any_moment { (next : Extent) → IsTrue D.tells →
        MayBegin (D.past disk.old) next pieces.now →
        OnlyLeaves (HoldsEither None next) (D.past disk.old) (D.past disk.new) }
    ensures switches { (next : Extent) → IsTrue D.tells →
        MayBegin (D.past disk.old) next pieces.now →
        SwitchesFrom None (D.past disk.old) (D.past disk.new) }
    ensures done { (next : Extent) → IsTrue D.tells →
        MayBegin (D.past disk.old) next pieces.now →
        OnOk result (IsRooted (reads (D.past disk.new) which.Extent) next 1) }
    ensures durable { IsTrue D.tells → OnOk result (IsDurable (D.past disk.new)) }
    ensures faults { HasCause (D.faults disk.old) (D.faults disk.new) result }
{
    close_gate(disk)?;
    bring_and_switch(disk, pieces, GATE, OPEN)
}

// Writes a planned checkpoint: the first one, or a later one beside the root in this page.
pub(crate) fn write_planned<D: Disk>(
    disk: &mut D,
    root: Option<u8>,
    pieces: &[Piece],
) -> Result<(), Failed>
    requires planned { IsTrue D.tells → (before : Option Extent) × (image : Image) × (number : ℕ)
        × (root ≡ root_before (reads (D.past disk.old) which.Extent) before)
        × MayCheckpoint (D.past disk.old) before image number pieces.now }
    requires page { IfSome root (λ page. (1 ≤ page) × (page ≤ 2)) }
    ensures any_moment { (before : Option Extent) (image : Image) (number : ℕ) →
        IsTrue D.tells → root ≡ root_before (reads (D.past disk.old) which.Extent) before →
        MayCheckpoint (D.past disk.old) before image number pieces.now →
        OnlyLeaves (StandsFor before image number) (D.past disk.old) (D.past disk.new) }
    ensures switches { (before : Option Extent) (image : Image) (number : ℕ) →
        IsTrue D.tells → root ≡ root_before (reads (D.past disk.old) which.Extent) before →
        MayCheckpoint (D.past disk.old) before image number pieces.now →
        SwitchesFrom before (D.past disk.old) (D.past disk.new) }
    ensures done { (before : Option Extent) (image : Image) (number : ℕ) →
        IsTrue D.tells → root ≡ root_before (reads (D.past disk.old) which.Extent) before →
        (may : MayCheckpoint (D.past disk.old) before image number pieces.now) →
        OnOk result (IsRooted (reads (D.past disk.new) which.Extent) may.next (new_page root)) }
    ensures durable { IsTrue D.tells → OnOk result (IsDurable (D.past disk.new)) }
    ensures faults { HasCause (D.faults disk.old) (D.faults disk.new) result }
{
    match root {
        None => write_first(disk, pieces),
        Some(page) => write_later(disk, 3 - page, pieces),
    }
}
