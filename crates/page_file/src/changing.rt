//! Makes checkpoints of an open extent.
ghost use Rattle.std.specs.Prelude.{◌≡◌, ◌≢◌, ◌≤◌, ◌<◌, ◌^◌, ◌-◌, ◌∷◌, ℕ, List, Option, Some, None, [], IfOk, IfErr, IfSome, OnOk, IsTrue, IsErrOf};
ghost use Rattle.std.specs.List.{AllByRecursion};
ghost use Rattle.gem_io.specs.Faults.{HasRisen};
ghost use Rattle.gem_disk.specs.Disk.{Past};
ghost use Rattle.disk_pieces.specs.Crashes.{OnlyLeaves};
ghost use Rattle.extent_pages.specs.Extent.{Extent};
ghost use Rattle.extent_plan.specs.Needed.{AreChanged};
ghost use Rattle.extent_plan.specs.Planning.{IsPlanFor};
ghost use Rattle.page_file.specs.Around.{first_around, later_around};
ghost use Rattle.page_file.specs.Checkpoint.{StandsFor, SwitchesFrom};
ghost use Rattle.page_file.specs.Planned.{AreUsed};
ghost use Rattle.page_file.specs.Changing.{pages_taken, IsCounted, IsPlanCounted, MayShare, MayChange, IsNext, IsChanged, root_in};

use crate::around::{make_empty_piece, make_selector_piece};
use crate::fault::CheckFault;
use crate::file::{Current, PageFile};
use crate::writing::write_planned;
use disk_pieces::Piece;
use extent_plan::{Plan, PlanFault, plan_checkpoint, used_pages};
use gem_disk::Disk;
use gem_image::Image;
use std::alloc::{AllocError, Global};

// One piece, as a list.
fn alone(alloc: Global, piece: Piece) -> Result<Vec<Piece>, AllocError>
    ensures { IfOk result (λ pieces. pieces.items ≡ piece ∷ []) }
{
    let mut pieces = Vec::new(alloc);
    pieces.push(piece)?;
    Ok(pieces)
}

// A plan of the first checkpoint.
fn plan_first(alloc: Global, image: &Image, number: u64, changed: &[u64]) -> Result<Plan, PlanFault>
    requires { AllByRecursion (λ leaf. leaf < 2 ^ 42) changed.now }
    ensures planned { number < 2 ^ 63 → AreChanged None image.now changed.now → IfOk result
        (IsPlanFor image.now number 1 [] [] first_around.before first_around.after) }
    ensures counted { AreChanged None image.now changed.now →
        IsPlanCounted (pages_taken None image.now) result }
{
    image.invariant();
    let before = alone(alloc, make_selector_piece(alloc)?)?;
    let after = alone(alloc, make_empty_piece(alloc)?)?;
    plan_checkpoint(alloc, image, number, 1, changed, &[], &[], (before, after))
}

// A plan of a later one, beside the current root.
fn plan_later(
    alloc: Global,
    image: &Image,
    number: u64,
    changed: &[u64],
    current: &Current,
) -> Result<Plan, PlanFault>
    requires { AllByRecursion (λ leaf. leaf < 2 ^ 42) changed.now }
    ensures planned { (extent : Extent) → number < 2 ^ 63 →
        MayShare image.now changed.now current.now extent → IfOk result (λ plan. (kept : List ℕ)
        × AreUsed kept extent × IsPlanFor image.now number (3 - current.now.page) kept
        extent.leaves later_around.before later_around.after plan) }
    ensures counted { (extent : Extent) → MayShare image.now changed.now current.now extent →
        IsPlanCounted (pages_taken (Some extent) image.now) result }
{
    image.invariant();
    let used = used_pages(alloc, &current.directory, &current.leaves)?;
    let page = u32::from(3 - current.page);
    let around = (Vec::new(alloc), Vec::new(alloc));
    plan_checkpoint(
        alloc,
        image,
        number,
        page,
        changed,
        &used,
        &current.leaves,
        around,
    )
}

impl PageFile {
    // The page of the current root.
    fn root_page(&self) -> Option<u8>
        ensures page { result ≡ root_in self.now.current }
        ensures bound { IfSome result (λ page. (1 ≤ page) × (page ≤ 2)) }
    {
        match &self.current {
            Some(current) => Some(current.page),
            None => None,
        }
    }

    // A plan of the next checkpoint, and the page of its root.
    fn plan_next(
        &self,
        alloc: Global,
        image: &Image,
        number: u64,
        changed: &[u64],
    ) -> Result<(u8, Plan), PlanFault>
        requires { AllByRecursion (λ leaf. leaf < 2 ^ 42) changed.now }
        ensures planned { (past : Past) (before : Option Extent) → number < 2 ^ 63 →
            MayChange past self.now before image.now number changed.now →
            IfOk result (λ x. IsNext past before image.now number x.0 x.1) }
        ensures bound { IfOk result (λ x. (1 ≤ x.0) × (x.0 ≤ 2)) }
        ensures counted { (past : Past) (before : Option Extent) →
            MayChange past self.now before image.now number changed.now →
            IsPlanCounted (pages_taken before image.now) result }
    {
        match &self.current {
            None => {
                let plan = plan_first(alloc, image, number, changed)?;
                Ok((1, plan))
            }
            Some(current) => {
                let plan = plan_later(alloc, image, number, changed, current)?;
                Ok((3 - current.page, plan))
            }
        }
    }

    /// Makes a checkpoint of an image, up to the commit of this number, which is below 2^63. Written
    /// are the changed leaves, a directory and the other root, in pages that the current root
    /// doesn't use. The image isn't asked about other leaves.
    ///
    /// Where there is a root, the number is not below its number, each name of its image is in the
    /// image, and each object that wasn't changed after its commit stands in its image with the
    /// same class, segment and body. The changed leaves are those in which an object was changed
    /// after its commit; at the first checkpoint all that the image has. They are told by their
    /// numbers, each of which is below 2^42, in ascending order.
    ///
    /// While pages are written, a crash leaves an extent that stands for what it stood for. From the
    /// write of the selector on, or of the gate at the first checkpoint, it may also stand for the
    /// image: that one byte is written once all pages are on the disk, and nothing but its sync
    /// comes after it. After `Ok` it stands for the image, all of it on the disk.
    ///
    /// # Errors
    ///
    /// `Full` exactly where the three pages at the front, those that the current root uses and
    /// those that would be written are more than an extent may have, with their number; `NoMemory`
    /// may come in place of any other answer. Both come before the disk is called, and nothing is
    /// changed. `Disk`: the disk's count of faults rose; the extent has to be opened again.
    pub fn write_changed<D: Disk>(
        &mut self,
        alloc: Global,
        disk: &mut D,
        image: &Image,
        number: u64,
        changed: &[u64],
    ) -> Result<(), CheckFault>
        requires small { number < 2 ^ 63 }
        requires low { AllByRecursion (λ leaf. leaf < 2 ^ 42) changed.now }
        requires may { IsTrue D.tells → (before : Option Extent)
            × MayChange (D.past disk.old) self.old before image.now number changed.now }
        ensures any_moment { (before : Option Extent) → IsTrue D.tells →
            MayChange (D.past disk.old) self.old before image.now number changed.now →
            OnlyLeaves (StandsFor before image.now number) (D.past disk.old)
            (D.past disk.new) }
        ensures switches { (before : Option Extent) → IsTrue D.tells →
            MayChange (D.past disk.old) self.old before image.now number changed.now →
            SwitchesFrom before (D.past disk.old) (D.past disk.new) }
        ensures made { (before : Option Extent) → IsTrue D.tells →
            MayChange (D.past disk.old) self.old before image.now number changed.now →
            OnOk result (IsChanged (D.past disk.new) self.new image.now number) }
        ensures counted { (before : Option Extent) → IsTrue D.tells →
            MayChange (D.past disk.old) self.old before image.now number changed.now →
            IsCounted (pages_taken before image.now) result }
        ensures unchanged { IfErr result (λ fault. fault ≢ CheckFault.Disk →
            (disk.new ≡ disk.old) × (self.new ≡ self.old)) }
        ensures failed { IsErrOf result CheckFault.Disk →
            HasRisen (D.faults disk.old) (D.faults disk.new) }
        ensures later { D.faults disk.old ≤ D.faults disk.new }
        ensures quiet { OnOk result (D.faults disk.new ≡ D.faults disk.old) }
    {
        let (page, plan) = self.plan_next(alloc, image, number, changed)?;
        let Plan {
            pieces,
            directory,
            leaves,
        } = plan;
        write_planned(disk, self.root_page(), &pieces)?;
        self.current = Some(Current {
            page,
            number,
            directory,
            leaves,
        });
        Ok(())
    }
}
