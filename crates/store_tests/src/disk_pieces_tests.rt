// Pieces that are brought to a disk, and then one byte: what a crash leaves where the disk stops after
// each of its calls, or one of them fails.
use crate::untold::Untold;
use disk_pieces::{Piece, bring_and_switch};
use gem_disk::Pick;
use std::alloc::Global;
use std::test::Fail;

// Two bytes inside the file, and one at its end.
fn two_pieces(alloc: Global) -> Result<Vec<Piece>, Fail> {
    let mut pieces = Vec::new(alloc);
    pieces.push(Piece::new(1, Vec::from_slice(alloc, &[7, 7])?))?;
    pieces.push(Piece::new(4, Vec::from_slice(alloc, &[8])?))?;
    Ok(pieces)
}

fn disk_of_four(alloc: Global) -> Result<Untold, Fail> {
    let extent = Vec::from_slice(alloc, &[0, 1, 2, 3])?;
    Ok(Untold::new(Vec::new(alloc), extent))
}

// Whether the pieces and the byte are brought to a disk where it is said so, and a crash leaves these
// bytes then.
fn leaves(
    alloc: Global,
    mut disk: Untold,
    is_done: bool,
    pick: Pick,
    wanted: &[u8],
) -> Result<bool, Fail> {
    let pieces = two_pieces(alloc)?;
    let answer = bring_and_switch(&mut disk, &pieces, 0, 1);
    let images = disk.crash(pick)?;
    Ok(answer.is_ok() == is_done && images.extent.as_slice() == wanted)
}

// Whether a crash leaves these bytes, where so many calls of the disk pass.
fn is_left(alloc: Global, calls: u64, pick: Pick, wanted: &[u8]) -> Result<bool, Fail> {
    let mut disk = disk_of_four(alloc)?;
    disk.stop_after(calls);
    leaves(alloc, disk, calls >= 5, pick, wanted)
}

// After so many calls: what was synced, what was written, and what a byte 9 all over the rest makes.
fn are_left(alloc: Global, calls: u64, images: [&[u8]; 3]) -> Result<bool, Fail> {
    let [old, new, torn] = images;
    Ok(
        is_left(alloc, calls, Pick::Old, old)?
            && is_left(alloc, calls, Pick::New, new)?
            && is_left(alloc, calls, Pick::Torn(9), torn)?,
    )
}

const BEFORE: &[u8] = &[0, 1, 2, 3];

const BROUGHT: &[u8] = &[0, 7, 7, 3, 8];

const SWITCHED: &[u8] = &[1, 7, 7, 3, 8];

#[test]
fn pieces_that_stop(rt: HostRuntime) -> Result<(), Fail> {
    let alloc = rt.alloc();
    assert!(rt; are_left(alloc, 0, [BEFORE, BEFORE, BEFORE])?);
    assert!(rt; are_left(alloc, 1, [BEFORE, &[0, 7, 7, 3], &[0, 9, 9, 3]])?);
    assert!(rt; are_left(alloc, 2, [BEFORE, BROUGHT, &[0, 9, 9, 3, 9]])?);
    Ok(())
}

#[test]
fn bytes_that_stop(rt: HostRuntime) -> Result<(), Fail> {
    let alloc = rt.alloc();
    assert!(rt; are_left(alloc, 3, [BROUGHT, BROUGHT, BROUGHT])?);
    assert!(rt; are_left(alloc, 4, [BROUGHT, SWITCHED, &[9, 7, 7, 3, 8]])?);
    assert!(rt; are_left(alloc, 5, [SWITCHED, SWITCHED, SWITCHED])?);
    Ok(())
}

// Whether what was synced and what was written is this, where one call fails with nothing done.
fn is_kept(alloc: Global, call: u64, images: [&[u8]; 2]) -> Result<bool, Fail> {
    let [old, new] = images;
    let mut disk = disk_of_four(alloc)?;
    disk.fail_at(call);
    let is_old = leaves(alloc, disk, call > 5, Pick::Old, old)?;
    let mut disk = disk_of_four(alloc)?;
    disk.fail_at(call);
    Ok(is_old && leaves(alloc, disk, call > 5, Pick::New, new)?)
}

#[test]
fn pieces_that_fail(rt: HostRuntime) -> Result<(), Fail> {
    let alloc = rt.alloc();
    assert!(rt; is_kept(alloc, 1, [BEFORE, BEFORE])?);
    assert!(rt; is_kept(alloc, 2, [BEFORE, &[0, 7, 7, 3]])?);
    assert!(rt; is_kept(alloc, 3, [BEFORE, BROUGHT])?);
    Ok(())
}

#[test]
fn bytes_that_fail(rt: HostRuntime) -> Result<(), Fail> {
    let alloc = rt.alloc();
    assert!(rt; is_kept(alloc, 4, [BROUGHT, BROUGHT])?);
    assert!(rt; is_kept(alloc, 5, [BROUGHT, SWITCHED])?);
    assert!(rt; is_kept(alloc, 6, [SWITCHED, SWITCHED])?);
    Ok(())
}
