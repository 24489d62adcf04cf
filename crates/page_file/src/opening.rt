//! Opens an extent.
ghost use Rattle.std.specs.Prelude.{◌≡◌, ◌≤◌, All, length, IfOk, IfSome, OnOk, IsTrue, IsErrOf};
ghost use Rattle.std.specs.List.{AllByRecursion};
ghost use Rattle.gem_io.specs.Faults.{HasCause, HasRisen};
ghost use Rattle.gem_object.specs.Spelling.{IsSpelled};
ghost use Rattle.gem_disk.specs.declared.disk.Which.TheVariants as which;
ghost use Rattle.gem_disk.specs.Disk.{reads};
ghost use Rattle.extent_pages.specs.Extent.{root_page_of, selected, extent_of};
ghost use Rattle.extent_pages.specs.Stored.{AreOfLeaf, IsStoredLeaf};
ghost use Rattle.extent_pages.specs.Reads.{SyncsOnce};
ghost use Rattle.extent_plan.specs.Plan.{IsPlace};
ghost use Rattle.page_file.specs.Opening.{objects_put, AreTaken, IsUnchanged};
ghost use Rattle.page_file.specs.PageFile.{Opens};

use crate::file::{Current, PageFile};
use extent_pages::{Extent, Leaf, PageFault, largest_with, open_extent};
use extent_plan::LeafPlace;
use gem_disk::{Disk, Which};
use gem_image::Image;
use gem_io::Failed;
use gem_object::{Object, Oid};
use radix_pages::Steps;
use std::alloc::{AllocError, Global};
use std::sync::ledger::Ledger;

// Puts objects into an image, the last one first.
fn put_objects<L: Ledger>(
    alloc: Global,
    mut objects: Vec<(Oid, Object)>,
    image: &mut Image,
    steps: &mut Steps<L>,
) -> Result<(), AllocError>
    requires { All (λ entry. IsSpelled entry.1) objects.items }
    ensures { OnOk result (image.new ≡ objects_put objects.items image.old) }
{
    while let Some(entry) = objects.pop() {
        image.insert(alloc, entry.0, entry.1, steps)?;
    }
    Ok(())
}

// Puts the objects of a leaf into an image, and gives where the leaf lies.
fn take_leaf<L: Ledger>(
    alloc: Global,
    leaf: Leaf,
    image: &mut Image,
    steps: &mut Steps<L>,
) -> Result<LeafPlace, AllocError>
    requires { AreOfLeaf leaf.number leaf.objects }
    ensures image { OnOk result (image.new ≡ objects_put leaf.objects image.old) }
    ensures place { IfOk result (λ place. IsPlace place leaf) }
{
    let Leaf {
        number,
        pages,
        objects,
    } = leaf;
    let place = LeafPlace {
        number,
        pages,
        count: objects.len() as u64,
        serial: largest_with(0, &objects),
    };
    put_objects(alloc, objects, image, steps)?;
    Ok(place)
}

// Puts the objects of all leaves into an image, and gives where the leaves lie. It begins with the
// last leaf.
fn take_leaves<L: Ledger>(
    alloc: Global,
    mut leaves: Vec<Leaf>,
    steps: &mut Steps<L>,
) -> Result<(Image, Vec<LeafPlace>), AllocError>
    requires { AllByRecursion IsStoredLeaf leaves.items }
    ensures { IfOk result (λ x. AreTaken leaves.items x.0 x.1.items) }
{
    let mut image = Image::empty();
    let mut places = Vec::new(alloc);
    while let Some(leaf) = leaves.pop() {
        let place = take_leaf(alloc, leaf, &mut image, steps)?;
        places.push(place)?;
    }
    places.reverse();
    Ok((image, places))
}

// The page of the root that a selector names.
fn page_of(selector: u8) -> u8
    ensures page { result ≡ root_page_of selector }
    ensures first { 1 ≤ result }
    ensures last { result ≤ 2 }
{
    if selector % 2 == 1 { 1 } else { 2 }
}

// The page of the root that the file's selector names.
fn read_selected<D: Disk>(disk: &mut D) -> Result<u8, Failed>
    requires { IsTrue D.tells → 2 ≤ length (reads (D.past disk.old) which.Extent) }
    ensures page { IsTrue D.tells → IfOk result
        (λ page. page ≡ selected (reads (D.past disk.old) which.Extent)) }
    ensures bound { IfOk result (λ page. (1 ≤ page) × (page ≤ 2)) }
    ensures past { IsTrue D.tells → D.past disk.new ≡ D.past disk.old }
    ensures faults { HasCause (D.faults disk.old) (D.faults disk.new) result }
{
    let mut bytes = [0];
    disk.read(Which::Extent, 1, &mut bytes)?;
    Ok(page_of(bytes[0]))
}

/// Opens the extent of a disk: gives where it lies, the image of its root and that image's number;
/// `None` and 0 where no checkpoint was made. The objects' numbers of the commits that changed them
/// aren't stored; they are given as 0, whatever the disk tells.
///
/// It begins with one sync of the extent, which is all that it does to the disk; so the file reads
/// as before, and where it succeeds a crash leaves what it reads as.
///
/// `NotPages`: the bytes are no extent; the page and the rule are those of its first fault. `Disk`:
/// the count of faults rose in this call; after `Ok` it is as it was. `NoMemory` may come in place of
/// any answer.
pub fn open_pages<D: Disk, L: Ledger>(
    alloc: Global,
    disk: &mut D,
    steps: &mut Steps<L>,
) -> Result<(PageFile, Option<Image>, u64), PageFault>
    ensures opens { IsTrue D.tells → Opens result (D.past disk.new)
        (extent_of (reads (D.past disk.old) which.Extent)) }
    ensures unchanged { IfOk result (λ x. IfSome x.1 IsUnchanged) }
    ensures past { IsTrue D.tells → SyncsOnce (D.past disk.old) result (D.past disk.new) }
    ensures failed { IsErrOf result PageFault.Disk → HasRisen (D.faults disk.old) (D.faults disk.new) }
    ensures quiet { OnOk result (D.faults disk.new ≡ D.faults disk.old) }
    ensures later { D.faults disk.old ≤ D.faults disk.new }
{
    let Some(extent) = open_extent(alloc, disk)? else {
        return Ok((PageFile { current: None }, None, 0));
    };
    let Extent {
        number,
        directory,
        leaves,
    } = extent;
    let page = read_selected(disk)?;
    let (image, leaves) = take_leaves(alloc, leaves, steps)?;
    let current = Current {
        page,
        number,
        directory,
        leaves,
    };
    let pages = PageFile {
        current: Some(current),
    };
    Ok((pages, Some(image), number))
}
