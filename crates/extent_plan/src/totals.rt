//! What a directory and a root say of leaves.
ghost use Rattle.std.specs.Prelude.{◌≡◌, ◌+◌, ◌-◌, ◌^◌, ◌++◌, length, min, IfOk, OnOk};
ghost use Rattle.extent_pages.specs.Spelled.{spelled_entry, spelled_directory, root_page};
ghost use Rattle.extent_plan.specs.Totals.{entry_of, entries_at, objects_at, pages_at, serial_at};
ghost use Rattle.extent_pages.specs.Extent;
ghost use Rattle.extent_plan.specs.Plan.{root_piece};

use crate::chain::{PAGE_SIZE, fill_up, first_page};
use crate::numbers::{put_eight, put_four};
use crate::place::LeafPlace;
use disk_pieces::Piece;
use extent_pages::Root;
use std::alloc::{AllocError, Global};

// Adds the entry of a leaf.
fn put_place(place: &LeafPlace, out: &mut Vec<u8>) -> Result<(), AllocError>
    ensures { OnOk result (out.new.items ≡ out.old.items ++ spelled_entry (entry_of place.now)) }
{
    put_eight(place.number, out)?;
    put_four(u64::from(first_page(&place.pages)), out)?;
    Ok(())
}

/// The payload of a directory of these leaves.
pub(crate) fn spell_directory(alloc: Global, places: &[LeafPlace]) -> Result<Vec<u8>, AllocError>
    ensures { IfOk result (λ bytes. bytes.items ≡ spelled_directory (entries_at places.now)) }
{
    let mut bytes = Vec::new(alloc);
    put_four(places.len() as u64, &mut bytes)?;
    let mut rest = places;
    while let Some((place, behind)) = rest.split_first() {
        put_place(place, &mut bytes)?;
        rest = behind;
    }
    Ok(bytes)
}

// How many objects these leaves have, or 2^64 - 1 where there are more.
fn count_objects(places: &[LeafPlace]) -> u64
    ensures { result ≡ min (objects_at places.now) (2 ^ 64 - 1) }
{
    let mut count: u64 = 0;
    let mut rest = places;
    while let Some((place, behind)) = rest.split_first() {
        count = count.saturating_add(place.count);
        rest = behind;
    }
    count
}

// How many pages they have, or 2^64 - 1.
fn count_pages(places: &[LeafPlace]) -> u64
    ensures { result ≡ min (pages_at places.now) (2 ^ 64 - 1) }
{
    let mut count: u64 = 0;
    let mut rest = places;
    while let Some((place, behind)) = rest.split_first() {
        count = count.saturating_add(place.pages.len() as u64);
        rest = behind;
    }
    count
}

// The largest serial of their objects' names.
fn top_serial(places: &[LeafPlace]) -> u32
    ensures { result ≡ serial_at places.now }
{
    let mut serial: u32 = 0;
    let mut rest = places;
    while let Some((place, behind)) = rest.split_first() {
        serial = serial.max(place.serial);
        rest = behind;
    }
    serial
}

/// The root of an extent of these leaves, with a directory in these pages.
pub(crate) fn root_with(number: u64, directory: &[u32], places: &[LeafPlace]) -> Root
    ensures number { result.number ≡ number }
    ensures serial { result.serial ≡ serial_at places.now }
    ensures objects { result.objects ≡ min (objects_at places.now) (2 ^ 64 - 1) }
    ensures directory { result.directory ≡ Extent.first_page directory.now }
    ensures pages { result.pages ≡ min (length directory.now + pages_at places.now) (2 ^ 32 - 1) }
{
    let pages = count_pages(places).saturating_add(directory.len() as u64);
    Root {
        number,
        serial: top_serial(places),
        objects: count_objects(places),
        directory: first_page(directory),
        pages: pages.min(u64::from(u32::MAX)) as u32,
    }
}

// The bytes of the page of a root.
fn spell_root(alloc: Global, root: &Root) -> Result<Vec<u8>, AllocError>
    ensures { IfOk result (λ bytes. bytes.items ≡ root_page root.now) }
{
    let mut bytes = Vec::new(alloc);
    put_eight(root.number, &mut bytes)?;
    put_four(u64::from(root.serial), &mut bytes)?;
    put_eight(root.objects, &mut bytes)?;
    put_four(u64::from(root.directory), &mut bytes)?;
    put_four(u64::from(root.pages), &mut bytes)?;
    fill_up(&mut bytes, PAGE_SIZE as usize)?;
    Ok(bytes)
}

/// The page of a root as a piece.
pub(crate) fn piece_of_root(alloc: Global, page: u32, root: &Root) -> Result<Piece, AllocError>
    ensures { IfOk result (λ piece. piece ≡ root_piece page root.now) }
{
    let bytes = spell_root(alloc, root)?;
    Ok(Piece::new(PAGE_SIZE * u64::from(page), bytes))
}
