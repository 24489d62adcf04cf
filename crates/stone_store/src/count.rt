//! How many pages a checkpoint takes, and which leaves have changed, by its image and by the root
//! before it.
ghost use Rattle.std.specs.Prelude.{◌≡◌, ◌+◌, ◌*◌, ◌<◌, ◌≤◌, ◌^◌, ◌||◌, ◌++◌, Some, length, IfSome};
ghost use Rattle.std.specs.FinMap as map;
ghost use Rattle.gem_record.specs.Effects.{changed_size};
ghost use Rattle.gem_record.specs.Stored;
ghost use Rattle.gem_record.specs.Stored.{image_pages};
ghost use Rattle.extent_pages.specs.Spelled.{spelled_leaf};
ghost use Rattle.extent_plan.specs.Leaves;
ghost use Rattle.extent_plan.specs.Leaves.{leaf_objects};
ghost use Rattle.extent_plan.specs.Needed.{counts_changed};
ghost use Rattle.stone_store.specs.Counted.{size_at, stale_over, leaf_if, AddsLeaf, AreCounted, AreListed, pages_written, since_root, Refuses, Counts};

use crate::parts::Root;
use gem_image::Image;
use gem_keeper::CheckFault;
use gem_object::{Object, Oid};
use gem_record::PAGE_LIMIT;
use std::alloc::Global;

// How many names a leaf has.
const LEAF_SIZE: u64 = 64;

// How many bytes of a chain a page holds.
const PAGE_ROOM: u64 = 16_376;

// How many bytes a leaf has, and whether it counts as changed.
#[derive(Clone, Copy, Debug)]
struct Measured {
    size: u64,
    stale: bool,
}

// How many leaves were counted, the pages of all of them, and those of the changed ones.
#[derive(Clone, Copy, Debug)]
struct Sums {
    leaves: u64,
    all: u64,
    stale: u64,
}

/// The pages of all leaves of an image and of its directory, and how many of them are written by a
/// checkpoint.
#[derive(Clone, Copy, Debug)]
pub(crate) struct PageCounts {
    pub all: u64,
    pub written: u64,
}

// The bytes of an object with its name. No memory holds 2^64 - 1 and more.
fn entry_size(oid: Oid, object: &Object) -> Option<u64>
    ensures { IfSome result (λ size. size ≡ changed_size (oid, object.now)) }
{
    let size = object.size();
    if size == u64::MAX {
        return None;
    }
    size.checked_add(8)
}

fn either(one: bool, other: bool) -> bool
    ensures { result ≡ (one || other) }
{
    one || other
}

// Whether an object counts as changed over a root that goes up to this commit; without a root each
// does.
fn is_stale(root: Option<u64>, object: &Object) -> bool
    ensures { result ≡ stale_over root (Some object.now) }
{
    match root {
        Some(since) => since < object.changed,
        None => true,
    }
}

// Adds what stands at a name.
fn measure_name(image: &Image, root: Option<u64>, oid: Oid, leaf: Measured) -> Option<Measured>
    ensures size { IfSome result (λ now.
        now.size ≡ leaf.size + size_at oid (map.get image.now oid)) }
    ensures stale { IfSome result (λ now.
        now.stale ≡ (leaf.stale || stale_over root (map.get image.now oid))) }
{
    match image.look(oid) {
        Some(object) => {
            let size = entry_size(oid, object)?;
            Some(Measured {
                size: leaf.size.checked_add(size)?,
                stale: either(leaf.stale, is_stale(root, object)),
            })
        }
        None => Some(Measured {
            size: leaf.size,
            stale: either(leaf.stale, false),
        }),
    }
}

// The name of a leaf at this place.
fn name_in(leaf: u64, place: u64) -> Oid
    requires leaf { leaf < 2 ^ 42 }
    requires place { place < 64 }
    ensures { result ≡ Leaves.name_in leaf place }
{
    let Some(oid) = Oid::of(LEAF_SIZE * leaf + place) else {
        unreachable!()
    };
    oid
}

// The bytes of a leaf, and whether it counts as changed.
fn measure_leaf(image: &Image, root: Option<u64>, leaf: u64) -> Option<Measured>
    requires { leaf < 2 ^ 42 }
    ensures size { IfSome result (λ measured.
        measured.size ≡ length (spelled_leaf (leaf_objects image.now leaf))) }
    ensures stale { IfSome result (λ measured.
        measured.stale ≡ counts_changed root image.now leaf) }
{
    let mut measured = Measured {
        size: 1,
        stale: false,
    };
    for place in 0..LEAF_SIZE {
        measured = measure_name(image, root, name_in(leaf, place), measured)?;
    }
    Some(measured)
}

// The pages of a chain of so many bytes.
fn chain_pages(bytes: u64) -> Option<u64>
    ensures { IfSome result (λ pages. pages ≡ Stored.chain_pages bytes) }
{
    Some(bytes.checked_add(PAGE_ROOM - 1)? / PAGE_ROOM)
}

// Puts a leaf behind the others that have changed, where it has. None where memory ran out.
fn note_leaf(leaf: u64, stale: bool, changed: &mut Vec<u64>) -> Option<()>
    ensures { IfSome result (λ x. changed.new.items ≡ changed.old.items ++ leaf_if stale leaf) }
{
    if stale {
        return changed.push(leaf).ok();
    }
    Some(())
}

// Adds a leaf.
fn add_leaf(
    image: &Image,
    root: Option<u64>,
    leaf: u64,
    sums: Sums,
    changed: &mut Vec<u64>,
) -> Option<Sums>
    requires leaf { leaf < 2 ^ 42 }
    requires few { sums.leaves ≤ leaf }
    ensures { IfSome result (λ new.
        AddsLeaf image.now root leaf sums new changed.old.items changed.new.items) }
{
    let measured = measure_leaf(image, root, leaf)?;
    let pages = chain_pages(measured.size)?;
    note_leaf(leaf, measured.stale, changed)?;
    let stale = if measured.stale { pages } else { 0 };
    Some(Sums {
        leaves: sums.leaves + 1,
        all: sums.all.checked_add(pages)?,
        stale: sums.stale.checked_add(stale)?,
    })
}

// Counts all leaves of an image, and lists those that have changed.
fn count_leaves(alloc: Global, image: &Image, root: Option<u64>) -> Option<(Sums, Vec<u64>)>
    ensures { IfSome result (λ x. AreCounted image.now root x.0 x.1.items) }
{
    let mut changed = Vec::new(alloc);
    let mut sums = Sums {
        leaves: 0,
        all: 0,
        stale: 0,
    };
    let mut next: u64 = 0;
    image.invariant();
    while let Some(entry) = image.next_from(LEAF_SIZE * next) {
        let leaf = entry.0.number() / LEAF_SIZE;
        sums = add_leaf(image, root, leaf, sums, &mut changed)?;
        next = leaf + 1;
    }
    Some((sums, changed))
}

// The pages of a directory of so many leaves.
fn directory_pages(leaves: u64) -> Option<u64>
    ensures { IfSome result (λ pages. pages ≡ Stored.chain_pages (12 * leaves + 4)) }
{
    chain_pages(leaves.checked_mul(12)?.checked_add(4)?)
}

// The pages of an image, those that are written over a root that goes up to this commit, and the
// leaves that have changed since; without a root all are and have. None where a count would be 2^64
// and more, which no memory holds, or where memory ran out.
fn count_pages(alloc: Global, image: &Image, root: Option<u64>) -> Option<(PageCounts, Vec<u64>)>
    ensures all { IfSome result (λ x. x.0.all ≡ image_pages image.now) }
    ensures written { IfSome result (λ x. x.0.written ≡ pages_written root image.now) }
    ensures changed { IfSome result (λ x. AreListed root image.now x.1.items) }
{
    image.invariant();
    let (sums, changed) = count_leaves(alloc, image, root)?;
    let directory = directory_pages(sums.leaves)?;
    let counts = PageCounts {
        all: sums.all.checked_add(directory)?,
        written: sums.stale.checked_add(directory)?,
    };
    Some((counts, changed))
}

// Up to which commit a root goes, if there is one.
fn since(root: Option<Root>) -> Option<u64>
    ensures { result ≡ since_root root }
{
    match root {
        Some(root) => Some(root.number),
        None => None,
    }
}

// Why a checkpoint of an image with these counts isn't made over a root: it would count too many
// pages, or more than any memory holds.
fn refusal(counts: PageCounts, root: Option<Root>) -> Option<CheckFault>
    ensures { Refuses counts root result }
{
    let used = match root {
        Some(root) => root.pages,
        None => 0,
    };
    let pages = counts.written.saturating_add(used).saturating_add(3);
    if pages == u64::MAX {
        return Some(CheckFault::NoMemory);
    }
    if pages > PAGE_LIMIT {
        return Some(CheckFault::Full { pages });
    }
    None
}

/// How many pages an image has, and how many are written by a checkpoint of it over a root, with the
/// leaves that have changed since that root, in ascending order; or why none is made.
pub(crate) fn counted(
    alloc: Global,
    image: &Image,
    root: Option<Root>,
) -> Result<(PageCounts, Vec<u64>), CheckFault>
    ensures { Counts image.now root result }
{
    let Some(found) = count_pages(alloc, image, since(root)) else {
        return Err(CheckFault::NoMemory);
    };
    match refusal(found.0, root) {
        Some(fault) => Err(fault),
        None => Ok(found),
    }
}
