//! What written objects and updates refer to.
ghost use Rattle.std.specs.Prelude.{◌≡◌, ◌++◌, IfOk, OnOk};
ghost use Rattle.std.specs.List.{flat_map};
ghost use Rattle.gem_object.specs.References.{references_of};
ghost use Rattle.gem_update.specs.References.{names_in_update};
ghost use Rattle.kept_set.specs.Kept.{roots_of};

use gem_object::{Object, Oid, Sequence};
use gem_update::Update;
use std::alloc::{AllocError, Global};

// The numbers of the names that written objects and updates refer to.
pub(crate) fn roots(
    alloc: Global,
    written: &[(Oid, Object)],
    updates: &[(Oid, Sequence<Update>)],
) -> Result<Vec<u64>, AllocError>
    ensures { IfOk result (λ names. names.items ≡ roots_of written.now updates.now) }
{
    let mut names = Vec::new(alloc);
    push_written(written, &mut names)?;
    push_updated(updates, &mut names)?;
    Ok(names)
}

fn push_written(written: &[(Oid, Object)], names: &mut Vec<u64>) -> Result<(), AllocError>
    ensures { OnOk result (names.new.items
        ≡ names.old.items ++ flat_map (λ entry. references_of entry.1) written.now) }
{
    for entry in written {
        entry.1.push_references(names)?;
    }
    Ok(())
}

fn push_updated(updates: &[(Oid, Sequence<Update>)], names: &mut Vec<u64>) -> Result<(), AllocError>
    ensures { OnOk result (names.new.items
        ≡ names.old.items ++ flat_map (λ entry. flat_map names_in_update entry.1) updates.now) }
{
    for entry in updates {
        push_updates(entry.1.as_slice(), names)?;
    }
    Ok(())
}

fn push_updates(updates: &[Update], names: &mut Vec<u64>) -> Result<(), AllocError>
    ensures { OnOk result (names.new.items
        ≡ names.old.items ++ flat_map names_in_update updates.now) }
{
    for update in updates {
        update.push_references(names)?;
    }
    Ok(())
}
