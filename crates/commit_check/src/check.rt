//! What stands against a commit.
ghost use Rattle.std.specs.Prelude.{◌≡◌, ◌++◌, IfOk, OnOk};
ghost use Rattle.std.specs.List.{flat_map};
ghost use Rattle.std.specs.Option.{option_to_list};
ghost use Rattle.gem_record.specs.Names.{Ascend};
ghost use Rattle.commit_check.specs.Conflicts.{checks_reads, is_touched, is_checked, change_kind, lock_kind, on_change, on_lock, merge_at, conflict_in, object_in, conflicts_on, merged_on, conflicts_of, merged_objects};

use crate::merging::{Outcome, merge};
use crate::names::names_used;
use gem_image::Image;
use gem_object::{Conflict, ConflictKind, Conflicts, Object, Oid, Sequence};
use gem_record::{ByName, Mode, TxnRecord};
use lock_table::{LockKind, Locks};
use std::alloc::{AllocError, Global};

/// What a commit meets at its place.
#[derive(Debug, Drop)]
pub struct Judgement {
    /// What stands against it: empty where nothing does.
    pub conflicts: Conflicts,
    /// The updated objects whose merge isn't refused, as the merge leaves them. `changed` is still
    /// that of the object before the commit.
    pub merged: ByName<Object>,
}

/// The conflicts that stand against the commit of the record over this image and these locks, by
/// object and then by kind, and what the merges make of the updated objects.
///
/// Each merge is made once. The work is that of the merges, and for each name that the transaction
/// touched, wrote or updated a few binary searches; the contract doesn't say so. An updated object
/// that isn't in both images, or whose body in the image is none that is merged, has neither a
/// conflict of the merge nor a merged object.
///
/// # Errors
///
/// `AllocError` where memory ran out.
pub fn conflicts(
    alloc: Global,
    image: &Image,
    transaction: &TxnRecord,
    locks: &Locks,
) -> Result<Judgement, AllocError>
    ensures conflicts { IfOk result (λ judgement. judgement.conflicts
        ≡ conflicts_of (record { image = image.now; locks = locks.now }) transaction.now) }
    ensures merged { IfOk result (λ judgement.
        judgement.merged ≡ merged_objects image.now transaction.now) }
{
    let names = names_used(alloc, transaction)?;
    let (found, merged) = judge_all(alloc, image, transaction, locks, &names)?;
    Ok(Judgement {
        conflicts: Sequence::of(found),
        merged: ByName::of(merged),
    })
}

// The conflicts and the merged objects of these names, in their order.
fn judge_all(
    alloc: Global,
    image: &Image,
    transaction: &TxnRecord,
    locks: &Locks,
    names: &[Oid],
) -> Result<(Vec<Conflict>, Vec<(Oid, Object)>), AllocError>
    ensures conflicts { IfOk result (λ judged. judged.0.items ≡ flat_map
        (conflicts_on (record { image = image.now; locks = locks.now }) transaction.now)
        names.now) }
    ensures merged { IfOk result (λ judged.
        judged.1.items ≡ flat_map (merged_on image.now transaction.now) names.now) }
{
    let mut found = Vec::new(alloc);
    let mut merged = Vec::new(alloc);
    for oid in names {
        push_some(&mut found, change(image, transaction, *oid))?;
        push_some(&mut found, lock(locks, transaction, *oid))?;
        push_merge(
            &mut found,
            &mut merged,
            *oid,
            merge(alloc, image, transaction, *oid)?,
        )?;
    }
    Ok((found, merged))
}

fn push_some(found: &mut Vec<Conflict>, conflict: Option<Conflict>) -> Result<(), AllocError>
    ensures { OnOk result (found.new.items ≡ found.old.items ++ option_to_list conflict) }
{
    if let Some(conflict) = conflict {
        found.push(conflict)?;
    }
    Ok(())
}

fn push_merge(
    found: &mut Vec<Conflict>,
    merged: &mut Vec<(Oid, Object)>,
    oid: Oid,
    merge: Outcome,
) -> Result<(), AllocError>
    ensures conflicts { OnOk result (found.new.items ≡ found.old.items ++ conflict_in merge) }
    ensures merged { OnOk result (merged.new.items ≡ merged.old.items ++ object_in oid merge) }
{
    match merge {
        Outcome::Nothing => {}
        Outcome::Made(object) => merged.push((oid, object))?,
        Outcome::Refused(conflict) => found.push(conflict)?,
    }
    Ok(())
}

// The conflict of a change since the view.
fn change(image: &Image, transaction: &TxnRecord, oid: Oid) -> Option<Conflict>
    ensures { result ≡ on_change image.now transaction.now oid }
{
    let object = image.look(oid)?;
    if object.changed <= transaction.view {
        return None;
    }
    match change_kind(
        transaction.written.contains(oid),
        is_checked(transaction, oid),
    ) {
        None => None,
        Some(kind) => Some(Conflict {
            oid,
            kind,
            shown: object.changed,
        }),
    }
}

fn is_checked(transaction: &TxnRecord, oid: Oid) -> bool
    ensures { result ≡ is_checked transaction.now oid }
{
    checks_reads(transaction.mode) && is_touched(transaction, oid)
}

fn checks_reads(mode: Mode) -> bool
    ensures { result ≡ checks_reads mode }
{
    match mode {
        Mode::Full => true,
        Mode::NoRw => false,
    }
}

fn is_touched(transaction: &TxnRecord, oid: Oid) -> bool
    ensures { result ≡ is_touched transaction.now oid }
{
    transaction.touched.contains(oid)
}

fn change_kind(written: bool, checked: bool) -> Option<ConflictKind>
    ensures { result ≡ change_kind written checked }
{
    if written {
        Some(ConflictKind::WriteWrite)
    } else if checked {
        Some(ConflictKind::ReadWrite)
    } else {
        None
    }
}

// The conflict of another session's lock.
fn lock(locks: &Locks, transaction: &TxnRecord, oid: Oid) -> Option<Conflict>
    ensures { result ≡ on_lock locks.now transaction.now oid }
{
    if !transaction.written.contains(oid) && !transaction.updates.contains(oid) {
        return None;
    }
    let (holder, held) = locks.blocks(transaction.session, oid.number())?;
    Some(Conflict {
        oid,
        kind: lock_kind(held),
        shown: holder as u64,
    })
}

fn lock_kind(held: LockKind) -> ConflictKind
    ensures { result ≡ lock_kind held }
{
    match held {
        LockKind::Read => ConflictKind::WriteReadLock,
        LockKind::Write => ConflictKind::WriteWriteLock,
    }
}
