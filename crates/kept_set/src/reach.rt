//! Which made objects are kept.
ghost use Rattle.std.specs.Prelude.{◌≡◌, ◌++◌, length, IfOk, IfErr, OnOk};
ghost use Rattle.std.specs.Ordering.{nat_cmp};
ghost use Rattle.std.specs.List.Sorted.{IsSearchInRange};
ghost use Rattle.sorted_pairs.specs.Place.{Ascends, StandsAt, FitsAt};
ghost use Rattle.kept_set.specs.Kept.{roots_of, names_of, kept_of};
ghost use Rattle.kept_set.specs.Worklist.{name_seen, marked, AreReached, IsFollowed};

use crate::roots::roots;
use gem_object::{Object, Oid, Sequence};
use gem_update::Update;
use std::alloc::{AllocError, Global};

/// The names of the made objects that are kept, ascending: those that a written object or an update
/// refers to, and those that a kept one refers to. The made names must ascend strictly.
///
/// It looks up each root and each reference of a kept object once, by a binary search among the
/// made names; the contract doesn't say so. It needs memory for the names that are yet to be looked
/// up, for a mark a made object, and for the result; want of it is the only error.
pub fn kept(
    alloc: Global,
    written: &[(Oid, Object)],
    made: &[(Oid, Object)],
    updates: &[(Oid, Sequence<Update>)],
) -> Result<Vec<Oid>, AllocError>
    requires { Ascends nat_cmp made.now }
    ensures { IfOk result (λ names. names.items
        ≡ names_of (kept_of (roots_of written.now updates.now) made.now)) }
{
    let pile = roots(alloc, written, updates)?;
    let seen = reached(alloc, made, pile)?;
    names_seen(alloc, made, &seen)
}

// Which of the made objects the names on the pile lead to.
fn reached(
    alloc: Global,
    made: &[(Oid, Object)],
    mut pile: Vec<u64>,
) -> Result<Vec<bool>, AllocError>
    requires { Ascends nat_cmp made.now }
    ensures { IfOk result (λ seen. AreReached pile.items made.now seen.items) }
{
    let mut seen = vec![in alloc; false; made.len()]?;
    while let Some(name) = pile.pop() {
        follow(made, &mut seen, &mut pile, name)?;
    }
    Ok(seen)
}

// Follows a name that was taken from the pile: a made object that wasn't seen yet is marked, and
// what it refers to comes on the pile.
fn follow(
    made: &[(Oid, Object)],
    seen: &mut Vec<bool>,
    pile: &mut Vec<u64>,
    name: u64,
) -> Result<(), AllocError>
    requires ascends { Ascends nat_cmp made.now }
    requires marks { length seen.old.items ≡ length made.now }
    ensures marks { length seen.new.items ≡ length made.now }
    ensures followed { OnOk result
        (IsFollowed name made.now seen.old.items pile.old.items seen.new.items pile.new.items) }
{
    let Ok(at) = place_of(made, name) else {
        return Ok(());
    };
    if seen[at] {
        return Ok(());
    }
    seen[at] = true;
    made[at].1.push_references(pile)
}

// The place of the object of this name, or where it would stand.
fn place_of(made: &[(Oid, Object)], name: u64) -> Result<usize, usize>
    requires { Ascends nat_cmp made.now }
    ensures in_range { IsSearchInRange result (length made.now) }
    ensures stands { IfOk result (StandsAt nat_cmp name made.now) }
    ensures fits { IfErr result (FitsAt nat_cmp name made.now) }
{
    made.binary_search_by_key(&name, |entry| entry.0.number())
}

// The names of the marked objects.
fn names_seen(alloc: Global, made: &[(Oid, Object)], seen: &[bool]) -> Result<Vec<Oid>, AllocError>
    requires { length seen.now ≡ length made.now }
    ensures { IfOk result (λ names. names.items ≡ marked made.now seen.now) }
{
    let mut names = Vec::new(alloc);
    for (at, entry) in made.iter().enumerate() {
        push_seen(&mut names, seen[at], entry.0)?;
    }
    Ok(names)
}

fn push_seen(names: &mut Vec<Oid>, seen: bool, name: Oid) -> Result<(), AllocError>
    ensures { OnOk result (names.new.items ≡ names.old.items ++ name_seen seen name) }
{
    if seen {
        names.push(name)?;
    }
    Ok(())
}
