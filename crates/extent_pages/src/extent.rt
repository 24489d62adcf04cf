//! What a root stands for.
ghost use Rattle.std.specs.Prelude.{◌≡◌, ◌≤◌, ◌<◌, ◌^◌, ℕ, List, ◌++◌, length, map, IsTrue, IfOk, IfSome, IsErrOf, OnOk};
ghost use Rattle.std.specs.List.{AllByRecursion};
ghost use Rattle.gem_io.specs.Faults.{HasRisen};
ghost use Rattle.gem_disk.specs.declared.disk.Which.TheVariants as which;
ghost use Rattle.gem_disk.specs.Disk.{reads};
ghost use Rattle.extent_pages.specs.Pages.{most_pages, pages_of};
ghost use Rattle.extent_pages.specs.Extent.{first_page, root_in, root_page_of, leaf_in, leaves_at, extent_at, extent_of};
ghost use Rattle.extent_pages.specs.Stored.{IsStoredLeaf, IsStoredExtent};
ghost use Rattle.extent_pages.specs.Reads.{Gives, Marks, SyncsOnce};

use crate::chain::read_chain;
use crate::count::is_counted;
use crate::directory::read_directory;
use crate::fault::{PageFault, PageRule};
use crate::leaf::{Leaf, read_leaf};
use crate::page::{
    MOST_PAGES, PAGE_SIZE, no_marks, number_of_eight, number_of_four, read_page, read_slice,
};
use crate::root::Root;
use gem_disk::{Disk, Which};
use std::alloc::Global;
use std::marker::Model;

/// What a root stands for, and where it lies.
///
/// Contracts see it as the number, the pages of the directory and the leaves.
#[derive(Debug, Drop)]
pub struct Extent {
    /// The number of the commit up to which it goes.
    pub number: u64,
    /// The pages of the directory's chain, in the chain's order.
    pub directory: Vec<u32>,
    /// The leaves in the order of their numbers.
    pub leaves: Vec<Leaf>,
}

impl Model for Extent {
    ghost use Rattle.extent_pages.specs.Extent.{Extent};

    ghost Value = { Extent };

    ghost view = { λ extent. record {
      number = extent.number;
      directory = extent.directory.items;
      leaves = extent.leaves.items;
    } };
}

// The number of the first of these pages has room in four bytes. This does nothing at run time.
fn first_has_room(pages: &[u32])
    ensures { first_page pages.now < 2 ^ 32 }
{
    let _pages = pages;
}

// The leaf of an entry of the directory: its number, and its first page. Its pages are taken from
// then on.
fn read_leaf_of<D: Disk>(
    alloc: Global,
    disk: &mut D,
    size: u64,
    marks: &mut Vec<bool>,
    entry: &(u64, u32),
) -> Result<Leaf, PageFault>
    requires size { IsTrue D.tells → size ≡ length (reads (D.past disk.old) which.Extent) }
    requires marks { length marks.old.items ≡ most_pages }
    ensures leaf { (taken : List ℕ) → IsTrue D.tells → Marks marks.old.items taken
        → Gives (λ leaf. leaf) result
        (leaf_in (pages_of (reads (D.past disk.old) which.Extent)) taken entry.now) }
    ensures marked { (taken : List ℕ) → IsTrue D.tells → Marks marks.old.items taken
        → IfOk result (λ leaf. Marks marks.new.items (leaf.pages ++ taken)) }
    ensures stored { IfOk result (λ leaf. IsStoredLeaf leaf × (leaf.number ≡ entry.now.0)) }
    ensures marks { length marks.new.items ≡ most_pages }
    ensures past { IsTrue D.tells → D.past disk.new ≡ D.past disk.old }
    ensures failed { IsErrOf result PageFault.Disk → HasRisen (D.faults disk.old) (D.faults disk.new) }
    ensures quiet { OnOk result (D.faults disk.new ≡ D.faults disk.old) }
    ensures later { D.faults disk.old ≤ D.faults disk.new }
{
    let chain = read_chain(alloc, disk, size, marks, entry.1)?;
    let objects = read_leaf(alloc, entry.0, &chain)?;
    first_has_room(&chain.pages);
    Ok(Leaf {
        number: entry.0,
        pages: chain.pages,
        objects,
    })
}

// The leaves of the entries of a directory.
fn read_leaves<D: Disk>(
    alloc: Global,
    disk: &mut D,
    size: u64,
    marks: &mut Vec<bool>,
    entries: &[(u64, u32)],
) -> Result<Vec<Leaf>, PageFault>
    requires size { IsTrue D.tells → size ≡ length (reads (D.past disk.old) which.Extent) }
    requires marks { length marks.old.items ≡ most_pages }
    ensures leaves { (taken : List ℕ) → IsTrue D.tells → Marks marks.old.items taken
        → Gives (λ leaves. leaves.items) result
        (leaves_at (pages_of (reads (D.past disk.old) which.Extent)) taken entries.now) }
    ensures stored { IfOk result (λ leaves. AllByRecursion IsStoredLeaf leaves.items) }
    ensures numbers { IfOk result (λ leaves. map (λ leaf. leaf.number) leaves.items
        ≡ map (λ entry. entry.0) entries.now) }
    ensures past { IsTrue D.tells → D.past disk.new ≡ D.past disk.old }
    ensures failed { IsErrOf result PageFault.Disk → HasRisen (D.faults disk.old) (D.faults disk.new) }
    ensures quiet { OnOk result (D.faults disk.new ≡ D.faults disk.old) }
    ensures later { D.faults disk.old ≤ D.faults disk.new }
{
    let mut leaves = Vec::new(alloc);
    let mut rest = entries;
    while let Some((entry, behind)) = rest.split_first() {
        let leaf = read_leaf_of(alloc, disk, size, marks, entry)?;
        leaves.push(leaf)?;
        rest = behind;
    }
    Ok(leaves)
}

// The root of what the root in a page of the file stands for.
fn root_in(bytes: &[u8]) -> Root
    requires { 28 ≤ length bytes.now }
    ensures { result ≡ root_in bytes.now }
{
    Root {
        number: number_of_eight(bytes, 0),
        serial: number_of_four(bytes, 8),
        objects: number_of_eight(bytes, 12),
        directory: number_of_four(bytes, 20),
        pages: number_of_four(bytes, 24),
    }
}

// What the root in a page of the file stands for, which has this size.
fn read_extent<D: Disk>(
    alloc: Global,
    disk: &mut D,
    size: u64,
    page: u32,
) -> Result<Extent, PageFault>
    requires size { IsTrue D.tells → size ≡ length (reads (D.past disk.old) which.Extent) }
    ensures extent { IsTrue D.tells → Gives (λ extent. extent) result
        (extent_at (pages_of (reads (D.past disk.old) which.Extent)) page) }
    ensures stored { IfOk result (λ extent. IsStoredExtent extent) }
    ensures past { IsTrue D.tells → D.past disk.new ≡ D.past disk.old }
    ensures failed { IsErrOf result PageFault.Disk → HasRisen (D.faults disk.old) (D.faults disk.new) }
    ensures quiet { OnOk result (D.faults disk.new ≡ D.faults disk.old) }
    ensures later { D.faults disk.old ≤ D.faults disk.new }
{
    let at = (page as u64) * PAGE_SIZE;
    let Some(bytes) = read_page(alloc, disk, size, page)? else {
        return Err(PageFault::NotPages {
            at,
            rule: PageRule::Outside,
        });
    };
    let root = root_in(&bytes);
    let mut marks = no_marks(alloc, MOST_PAGES as usize)?;
    let chain = read_chain(alloc, disk, size, &mut marks, root.directory)?;
    let entries = read_directory(alloc, &chain)?;
    let leaves = read_leaves(alloc, disk, size, &mut marks, &entries)?;
    let extent = Extent {
        number: root.number,
        directory: chain.pages,
        leaves,
    };
    if is_counted(&root, &extent) {
        Ok(extent)
    } else {
        Err(PageFault::NotPages {
            at,
            rule: PageRule::Count,
        })
    }
}

// The page of the root that a selector names.
fn root_page_of(selector: u8) -> u32
    ensures { result ≡ root_page_of selector }
{
    if selector % 2 == 1 { 1 } else { 2 }
}

// What the file stands for, by its gate and its selector.
fn find_extent<D: Disk>(alloc: Global, disk: &mut D) -> Result<Option<Extent>, PageFault>
    ensures extent { IsTrue D.tells → Gives (λ extent. extent) result
        (extent_of (reads (D.past disk.old) which.Extent)) }
    ensures stored { IfOk result (λ found. IfSome found (λ extent. IsStoredExtent extent)) }
    ensures past { IsTrue D.tells → D.past disk.new ≡ D.past disk.old }
    ensures failed { IsErrOf result PageFault.Disk → HasRisen (D.faults disk.old) (D.faults disk.new) }
    ensures quiet { OnOk result (D.faults disk.new ≡ D.faults disk.old) }
    ensures later { D.faults disk.old ≤ D.faults disk.new }
{
    let size = disk.length(Which::Extent)?;
    if size < 2 {
        return Ok(None);
    }
    let front = read_slice(alloc, disk, 0, 2)?;
    if front[0] != 1 {
        return Ok(None);
    }
    let page = root_page_of(front[1]);
    Ok(Some(read_extent(alloc, disk, size, page)?))
}

/// Opens the extent of a disk: gives what the root stands for that its selector names, or `None`
/// where no checkpoint was made: the file has one byte at most, or its gate isn't open.
///
/// It begins with one sync of the extent, which is all that it does to the disk; so the file reads
/// as before, and where it succeeds a crash leaves what it reads as.
///
/// The leaves can be stored as they are, whether or not the disk tells what its file reads as.
///
/// `NotPages`: the bytes are no extent; the page and the rule are those of its first fault. `Disk`:
/// the count of faults rose in this call; after `Ok` it is as it was. `NoMemory` may come in place of
/// any answer.
pub fn open_extent<D: Disk>(alloc: Global, disk: &mut D) -> Result<Option<Extent>, PageFault>
    ensures extent { IsTrue D.tells → Gives (λ extent. extent) result
        (extent_of (reads (D.past disk.old) which.Extent)) }
    ensures stored { IfOk result (λ found. IfSome found (λ extent. IsStoredExtent extent)) }
    ensures past { IsTrue D.tells → SyncsOnce (D.past disk.old) result (D.past disk.new) }
    ensures failed { IsErrOf result PageFault.Disk → HasRisen (D.faults disk.old) (D.faults disk.new) }
    ensures quiet { OnOk result (D.faults disk.new ≡ D.faults disk.old) }
    ensures later { D.faults disk.old ≤ D.faults disk.new }
{
    disk.sync(Which::Extent)?;
    find_extent(alloc, disk)
}
