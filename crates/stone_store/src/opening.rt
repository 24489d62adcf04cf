//! Opens a store.
ghost use Rattle.std.specs.Prelude.{◌≡◌, ◌≢◌, ◌≤◌, ◌<◌, ℕ, Result, Option, IsTrue, IfOk, IfErr, IsErrOf, is_some, is_ok, length, option_map, OnOk};
ghost use Rattle.gem_io.specs.Faults.{HasRisen};
ghost use Rattle.gem_disk.specs.Disk.{Past, as_read};
ghost use Rattle.gem_disk.specs.Runs.{LeavesOnly};
ghost use Rattle.gem_image.specs.Image.{Image};
ghost use Rattle.extent_pages.specs.Extent.{Extent, pages_used};
ghost use Rattle.page_file.specs.PageFile.{IsAtRest as ExtentRests};
ghost use Rattle.page_file.specs.Changing.{counted_root};
ghost use Rattle.gem_keeper.specs.Found.{StandsFor};
ghost use Rattle.gem_keeper.specs.Crashes.{FitsNow};
ghost use Rattle.stone_store.specs.declared.fault.StoreFlaw.{StoreFlaw};
ghost use Rattle.stone_store.specs.Store.{Held, root_number, store_of};
ghost use Rattle.stone_store.specs.Left.{FilesStandFor, StandsInAll};
ghost use Rattle.stone_store.specs.Opening.{IsFound, MayGoOn, OpensNot, Opens, ReadsSame};
ghost use Rattle.stone_store.specs.Restoring.{image_read, IsStoreOf, RestsAs, IsFromRecords};
ghost use Rattle.stone_store.specs.Resting.{stored_root, BothRest};
ghost use Rattle.stone_store.specs.Whole.{StoresBy, store_moment, store_stands, store_left};

use crate::fault::{StoreFault, StoreFlaw};
use crate::parts::{FoundImage, Parts, Root};
use crate::records::{Restored, Restoring, start_restoring};
use crate::store::Store;
use gem_disk::Disk;
use gem_image::Image;
use image_check::sound;
use kernel_image::kernel;
use page_file::{PageFile, open_pages};
use radix_pages::Steps;
use std::alloc::{AllocError, Global};
use std::marker::Brand;
use std::sync::ledger::{Blank, Ledger};
use tran_log::{LogRule, replay_log};

/// What opening a store gives: what was found, or why nothing was, and the store, which has the disk.
#[derive(Drop)]
pub struct Opened<D: Disk + Drop> {
    /// What was found.
    pub result: Result<FoundImage, StoreFault>,
    /// The store. Where opening failed, it is only good for being closed.
    pub store: Store<D>,
}

// The image of the root, or the kernel's.
fn first_image<L: Ledger>(
    alloc: Global,
    image: Option<Image>,
    steps: &mut Steps<L>,
) -> Result<Image, AllocError>
    ensures { IfOk result (λ first. first ≡ image_read image) }
{
    match image {
        Some(image) => Ok(image),
        None => kernel(alloc, steps),
    }
}

// The image for which the files stand, by what was restored of them: the log fits, and the image is
// sound.
fn accept(alloc: Global, restored: Restored) -> Result<FoundImage, StoreFault>
    requires { IsFromRecords restored }
    ensures may_go_on { IfOk result MayGoOn }
    ensures opens { (store : Result Held StoreFlaw) → IsStoreOf restored store →
        Opens store result }
    ensures no_disk { IfErr result (λ fault. fault ≢ StoreFault.Disk) }
{
    let Restored { found, misfit } = restored;
    if let Some(at) = misfit {
        let rule = LogRule::Number;
        return Err(StoreFault::NotStore(StoreFlaw::Log { at, rule }));
    }
    sound(alloc, &found.image)?;
    Ok(found)
}

// The current root of an open extent, which has this number, if there is one.
fn root_of(pages: &PageFile, number: u64) -> Option<Root>
    ensures { (past : Past) (root : Option Extent) → ExtentRests past pages.now root →
        number ≡ root_number root → option_map stored_root result ≡ counted_root root }
{
    let pages = pages.used()?;
    Some(Root { number, pages })
}

// Reads both files, the log one record after the other.
fn read_both<D: Disk, L: Ledger>(
    alloc: Global,
    disk: &mut D,
    mut steps: Steps<L>,
) -> Result<(Parts, Restored), StoreFault>
    ensures rests { IsTrue D.tells → IfOk result (λ x. RestsAs (D.past disk.new) x.0 x.1) }
    ensures records { IfOk result (λ x. IsFromRecords x.1) }
    ensures flawed { IsTrue D.tells → IfErr result
        (OpensNot (store_of (as_read (D.past disk.old)))) }
    ensures same { IsTrue D.tells → ReadsSame (D.past disk.old) (D.past disk.new) }
    ensures any_moment { (image : Image) (number : ℕ) → IsTrue D.tells →
        StandsInAll (D.past disk.old) image number →
        LeavesOnly (D.past disk.old) (D.past disk.new) (FilesStandFor image number) }
    ensures failed { IsErrOf result StoreFault.Disk →
        HasRisen (D.faults disk.old) (D.faults disk.new) }
    ensures quiet { OnOk result (D.faults disk.new ≡ D.faults disk.old) }
    ensures later { D.faults disk.old ≤ D.faults disk.new }
{
    let (pages, image, number) = open_pages(alloc, disk, &mut steps)?;
    let first = first_image(alloc, image, &mut steps)?;
    let mut restoring = start_restoring(first, number, steps);
    let log = replay_log(alloc, disk, &mut restoring)?;
    let root = root_of(&pages, number);
    let parts = Parts { log, pages, root };
    let Restoring { restored, .. } = restoring;
    Ok((parts, restored))
}

// Opens both files, and gives the image for which they stand. Nobody counts the nodes that are built.
fn open_both<D: Disk, L: Ledger>(
    alloc: Global,
    disk: &mut D,
    blank: Blank,
) -> Result<(Parts, FoundImage), StoreFault>
    requires name { blank.name ≡ L.name }
    requires parts { blank.parts ≡ L.parts }
    requires some_parts { 0 < L.parts }
    ensures found { IsTrue D.tells → IfOk result
        (λ x. IsFound (store_of (as_read (D.past disk.old))) x.1) }
    ensures may_go_on { IfOk result (λ x. MayGoOn x.1) }
    ensures rests { IsTrue D.tells → IfOk result (λ x. BothRest (D.past disk.new) x.0) }
    ensures flawed { IsTrue D.tells → IfErr result
        (OpensNot (store_of (as_read (D.past disk.old)))) }
    ensures same { IsTrue D.tells → ReadsSame (D.past disk.old) (D.past disk.new) }
    ensures any_moment { (image : Image) (number : ℕ) → IsTrue D.tells →
        StandsInAll (D.past disk.old) image number →
        LeavesOnly (D.past disk.old) (D.past disk.new) (FilesStandFor image number) }
    ensures failed { IsErrOf result StoreFault.Disk →
        HasRisen (D.faults disk.old) (D.faults disk.new) }
    ensures quiet { OnOk result (D.faults disk.new ≡ D.faults disk.old) }
    ensures later { D.faults disk.old ≤ D.faults disk.new }
{
    let steps = Steps::<L>::start(blank);
    let (parts, restored) = read_both(alloc, disk, steps)?;
    let found = accept(alloc, restored)?;
    Ok((parts, found))
}

/// Opens the store of two files: gives the image for which they stand, with the number of its last
/// commit, and the store. Each file is synced and then read once, the log in pieces: besides the
/// image one record of it is held at a time. A log of one byte at most becomes one without records.
/// Where it fails, the disk is still in the store, which gives it back.
///
/// The files stand for the image of the extent's root, or for that of the kernel, with the records of
/// the log of later commits, one after the other.
///
/// What the files hold stays the same, whatever the answer is. Where a disk as it reads is one of its
/// crash images and all of these stand for one image, each crash meanwhile leaves files that stand
/// for it. After `Ok` the store stands for the image that was found, and so does what a crash leaves;
/// and sessions can go on with that image, also where the disk tells nothing.
///
/// # Errors
///
/// `NotStore` exactly where the files are no store: for the first flaw of the extent, of the log or of
/// the image. `Disk`: the count of faults rose in this call; after `Ok` it is as it was. `NoMemory` may
/// come in place of any answer.
pub fn open_store<D: Disk + Drop>(alloc: Global, disk: D) -> Opened<D>
    ensures opens { IsTrue D.tells →
        Opens (store_of (as_read (D.past disk))) result.result }
    ensures ready { is_some result.store.parts ≡ is_ok result.result }
    ensures stands { IsTrue D.tells → IfOk result.result (λ found.
        FitsNow (store_moment D.past) (store_stands D.past) (store_left D.past) result.store
        (StandsFor found.image found.number)) }
    ensures may_go_on { IfOk result.result MayGoOn }
    ensures stored { IsTrue D.tells → StoresBy (as_read (D.past disk)) result.store.parts }
    ensures same { IsTrue D.tells → ReadsSame (D.past disk) (D.past result.store.disk) }
    ensures any_moment { (image : Image) (number : ℕ) → IsTrue D.tells →
        StandsInAll (D.past disk) image number →
        LeavesOnly (D.past disk) (D.past result.store.disk) (FilesStandFor image number) }
    ensures failed { IsErrOf result.result StoreFault.Disk →
        HasRisen (D.faults disk) (D.faults result.store.disk) }
    ensures quiet { OnOk result.result (D.faults result.store.disk ≡ D.faults disk) }
    ensures later { D.faults disk ≤ D.faults result.store.disk }
{
    let mut disk = disk;
    match open_both::<D, Brand>(alloc, &mut disk, Blank::new(1)) {
        Ok((parts, found)) => Opened {
            result: Ok(found),
            store: Store {
                disk,
                parts: Some(parts),
            },
        },
        Err(fault) => Opened {
            result: Err(fault),
            store: Store { disk, parts: None },
        },
    }
}
