// Rights of owners, members of groups and others.
use seg_rights::{Groups, Right, Rights, may_read, may_write};
use std::alloc::{AllocError, Global};
use std::test::Fail;

const OWNER: u64 = 31;

const OTHER: u64 = 32;

fn segment(
    alloc: Global,
    owner_right: Right,
    world_right: Right,
) -> Result<Rights<&'static str>, AllocError> {
    let groups = vec![in alloc; ("Readers", Right::Read), ("Writers", Right::Write)]?;
    Ok(Rights {
        owner: OWNER,
        owner_right,
        groups: Groups::from(groups),
        world_right,
    })
}

// Whether a user in these groups has this right in a segment with these rights of its owner and of
// the world.
fn gives(
    alloc: Global,
    (owner_right, world_right): (Right, Right),
    user: u64,
    groups: &[&'static str],
    right: Right,
) -> Result<bool, AllocError> {
    let segment = segment(alloc, owner_right, world_right)?;
    Ok(segment.right_of(user, groups) == right)
}

const NONE: Right = Right::None;

const READ: Right = Right::Read;

const WRITE: Right = Right::Write;

#[test]
fn rights_of_owners(rt: HostRuntime) -> Result<(), Fail> {
    let alloc = rt.alloc();
    // The owner has no right of his own, but the world may write.
    assert!(rt; gives(alloc, (NONE, WRITE), OWNER, &[], WRITE)?);
    // The kernel's segments: the owner writes, the world reads.
    assert!(rt; gives(alloc, (WRITE, READ), OWNER, &[], WRITE)?);
    // The groups count for the owner too.
    assert!(rt; gives(alloc, (NONE, NONE), OWNER, &["Readers"], READ)?);
    Ok(())
}

#[test]
fn rights_of_others(rt: HostRuntime) -> Result<(), Fail> {
    let alloc = rt.alloc();
    // Two groups, one that reads and one that writes.
    assert!(rt; gives(alloc, (NONE, NONE), OTHER, &["Readers", "Writers"], WRITE)?);
    assert!(rt; gives(alloc, (NONE, NONE), OTHER, &["Readers"], READ)?);
    // A user in no group, and one in a group that the segment does not name.
    assert!(rt; gives(alloc, (WRITE, NONE), OTHER, &[], NONE)?);
    assert!(rt; gives(alloc, (WRITE, READ), OTHER, &["Guests"], READ)?);
    // The kernel's segments.
    assert!(rt; gives(alloc, (WRITE, READ), OTHER, &[], READ)?);
    Ok(())
}

#[test]
fn copies_and_gives_back(rt: HostRuntime) -> Result<(), Fail> {
    let copy = segment(rt.alloc(), Right::Write, Right::None)?.clone()?;
    let groups = [("Readers", Right::Read), ("Writers", Right::Write)];
    assert_eq!(rt; copy.groups.as_slice(), groups.as_slice());
    assert_eq!(rt; copy.groups.into_vec().as_slice(), groups.as_slice());
    Ok(())
}

#[test]
fn allows(rt: HostRuntime) {
    let cases = [
        (Right::None, false, false),
        (Right::Read, true, false),
        (Right::Write, true, true),
    ];
    for &(right, reads, writes) in &cases {
        assert_eq!(rt; may_read(right), reads);
        assert_eq!(rt; may_write(right), writes);
    }
}
