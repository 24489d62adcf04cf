//! Counts of an extent against its root.
ghost use Rattle.std.specs.Prelude.{◌≡◌, ◌==◌, ◌++◌, length};
ghost use Rattle.std.specs.List.{flat_map, fold};
ghost use Rattle.extent_pages.specs.Extent.{larger_serial, largest_serial, is_counted};

use crate::extent::Extent;
use crate::leaf::Leaf;
use crate::root::Root;
use gem_object::{Object, Oid};

fn objects_in(leaf: &Leaf) -> &[(Oid, Object)]
    ensures { result.now ≡ leaf.now.objects }
{
    &leaf.objects
}

fn pages_in(leaf: &Leaf) -> &[u32]
    ensures { result.now ≡ leaf.now.pages }
{
    &leaf.pages
}

// Whether the leaves have so many objects together.
fn have_objects(leaves: &[Leaf], count: u64) -> bool
    ensures { result ≡ (count == length (flat_map (λ leaf. leaf.objects) leaves.now)) }
{
    let mut left = count;
    let mut rest = leaves;
    while let Some((leaf, behind)) = rest.split_first() {
        let objects = objects_in(leaf).len() as u64;
        if left < objects {
            return false;
        }
        left -= objects;
        rest = behind;
    }
    left == 0
}

// Whether the leaves have so many pages together.
fn have_pages(leaves: &[Leaf], count: usize) -> bool
    ensures { result ≡ (count == length (flat_map (λ leaf. leaf.pages) leaves.now)) }
{
    let mut left = count;
    let mut rest = leaves;
    while let Some((leaf, behind)) = rest.split_first() {
        let pages = pages_in(leaf).len();
        if left < pages {
            return false;
        }
        left -= pages;
        rest = behind;
    }
    left == 0
}

// Whether the directory and the leaves have so many pages together.
fn use_pages(directory: &[u32], leaves: &[Leaf], count: u32) -> bool
    ensures { result ≡ (count
        == length (directory.now ++ flat_map (λ leaf. leaf.pages) leaves.now)) }
{
    let count = count as usize;
    directory.len() <= count && have_pages(leaves, count - directory.len())
}

/// The largest serial of the names of these objects and of this one.
pub fn largest_with(serial: u32, objects: &[(Oid, Object)]) -> u32
    ensures { result ≡ fold larger_serial serial objects.now }
{
    let mut largest = serial;
    let mut rest = objects;
    while let Some((object, behind)) = rest.split_first() {
        largest = largest.max(object.0.serial());
        rest = behind;
    }
    largest
}

// The largest serial of the names of the leaves' objects.
fn largest_serial(leaves: &[Leaf]) -> u32
    ensures { result ≡ largest_serial (flat_map (λ leaf. leaf.objects) leaves.now) }
{
    let mut largest = 0u32;
    let mut rest = leaves;
    while let Some((leaf, behind)) = rest.split_first() {
        largest = largest_with(largest, objects_in(leaf));
        rest = behind;
    }
    largest
}

// Whether the number of a root is one that it may have, and its counts and its largest serial are
// those of its extent.
pub(crate) fn is_counted(root: &Root, extent: &Extent) -> bool
    ensures { result ≡ is_counted root.now extent.now }
{
    root.number < 1 << 63
        && root.serial == largest_serial(&extent.leaves)
        && have_objects(&extent.leaves, root.objects)
        && use_pages(&extent.directory, &extent.leaves, root.pages)
}
