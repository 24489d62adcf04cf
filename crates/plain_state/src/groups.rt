//! The updates of many objects, put together by object.
ghost use Rattle.std.specs.Prelude.{◌≡◌, ◌++◌, ◌∷◌, [], ℕ, cond, nat_eq, map, IfOk, OnOk};
ghost use Rattle.gem_world.specs.Changes.{updates_on};
ghost use Rattle.plain_state.specs.Lists.{updates_at};

use gem_object::{Oid, Sequence};
use gem_update::Update;
use indexmap::IndexMap;
use std::alloc::{AllocError, Global};

/// The updates of each object, in their order, under the number of its name.
pub(crate) fn group(
    alloc: Global,
    updates: &[(Oid, Update)],
) -> Result<IndexMap<u64, Sequence<Update>>, AllocError>
    ensures { IfOk result (λ groups. (name : ℕ)
        → updates_at groups name ≡ updates_on name updates.now) }
{
    let mut groups = IndexMap::new(alloc);
    for (oid, update) in updates {
        add(alloc, &mut groups, oid.number(), update.clone()?)?;
    }
    Ok(groups)
}

// Adds an update behind those of the same name.
fn add(
    alloc: Global,
    groups: &mut IndexMap<u64, Sequence<Update>>,
    name: u64,
    update: Update,
) -> Result<(), AllocError>
    ensures { OnOk result ((other : ℕ) → updates_at groups.new other
        ≡ updates_at groups.old other ++ cond (nat_eq name other) (update ∷ []) []) }
{
    let mut group = match groups.swap_remove(&name) {
        Some(group) => group,
        None => Sequence::of(Vec::new(alloc)),
    };
    group.push(update)?;
    groups.insert(name, group)?;
    Ok(())
}

/// Copies of the groups of these names, each with its name.
pub(crate) fn list_groups(
    alloc: Global,
    names: &[Oid],
    groups: &IndexMap<u64, Sequence<Update>>,
) -> Result<Vec<(Oid, Sequence<Update>)>, AllocError>
    ensures { IfOk result (λ listed.
        listed.items ≡ map (λ name. (name, updates_at groups.now name)) names.now) }
{
    let mut listed = Vec::with_capacity(alloc, names.len())?;
    for oid in names {
        let copy = copy_group(alloc, groups, oid.number())?;
        listed.push((*oid, copy))?;
    }
    Ok(listed)
}

// A copy of the group under this name, which is empty where there is none.
fn copy_group(
    alloc: Global,
    groups: &IndexMap<u64, Sequence<Update>>,
    name: u64,
) -> Result<Sequence<Update>, AllocError>
    ensures { IfOk result (λ copy. copy ≡ updates_at groups.now name) }
{
    match groups.get(&name) {
        Some(group) => group.try_clone(),
        None => Ok(Sequence::of(Vec::new(alloc))),
    }
}
