//! Groups of segments and of users, which stand in the order of their bytes.
ghost use Rattle.std.specs.Prelude.{◌≡◌, ◌-◌, ◌++◌, nat_le, bytes_eq, IfOk, OnOk};
ghost use Rattle.object_programs.specs.declared.limits.TheConstants.{GROUPS_LIMIT};
ghost use Rattle.std.specs.List.{list_any};
ghost use Rattle.std.specs.Ordering.{nat_cmp};
ghost use Rattle.std.specs.Cmp.Lexicographic.{slice_cmp};
ghost use Rattle.std.specs.BTreeMap.{insert_entry};
ghost use Rattle.std.specs.Map.{remove_entry};
ghost use Rattle.prim_rules.specs.Groups.{with_group, without_group, with_right};

use gem_object::{Right, Text};
use object_programs::GROUPS_LIMIT;
use std::alloc::{AllocError, Global};
use std::cmp::Ordering;

/// Whether so many groups are no more than may be.
pub fn are_few(count: usize) -> bool
    ensures { result ≡ nat_le count GROUPS_LIMIT }
{
    count as u64 <= GROUPS_LIMIT
}

/// How many items there are more than before.
pub fn items_added(after: usize, before: usize) -> u64
    ensures { result ≡ after - before }
{
    (after as u64).saturating_sub(before as u64)
}

/// Whether a user who is in these groups is in this one.
pub fn is_among(group: &Text, groups: &[Text]) -> bool
    ensures { result ≡ list_any (bytes_eq group.now) groups.now }
{
    for other in groups {
        if group == other {
            return true;
        }
    }
    false
}

// Copies of these groups come at the end.
fn push_groups(made: &mut Vec<Text>, groups: &[Text]) -> Result<(), AllocError>
    ensures { OnOk result (made.new.items ≡ made.old.items ++ groups.now) }
{
    for group in groups {
        made.push(group.clone()?)?;
    }
    Ok(())
}

/// The groups of a user with this one.
pub fn with_group(alloc: Global, group: &Text, groups: &[Text]) -> Result<Vec<Text>, AllocError>
    ensures { IfOk result (λ made. made.items ≡ with_group group.now groups.now) }
{
    let mut made = Vec::new(alloc);
    let mut rest = groups;
    while let Some(split) = rest.split_first() {
        match group.cmp(split.0) {
            Ordering::Less => {
                made.push(group.clone()?)?;
                push_groups(&mut made, rest)?;
                return Ok(made);
            }
            Ordering::Equal => {
                push_groups(&mut made, rest)?;
                return Ok(made);
            }
            Ordering::Greater => made.push(split.0.clone()?)?,
        }
        rest = split.1;
    }
    made.push(group.clone()?)?;
    Ok(made)
}

/// The groups of a user without this one.
pub fn without_group(alloc: Global, group: &Text, groups: &[Text]) -> Result<Vec<Text>, AllocError>
    ensures { IfOk result (λ made. made.items ≡ without_group group.now groups.now) }
{
    let mut made = Vec::new(alloc);
    let mut rest = groups;
    while let Some(split) = rest.split_first() {
        if group == split.0 {
            push_groups(&mut made, split.1)?;
            return Ok(made);
        }
        made.push(split.0.clone()?)?;
        rest = split.1;
    }
    Ok(made)
}

// Copies of these groups with their rights come at the end.
fn push_entries(made: &mut Vec<(Text, Right)>, entries: &[(Text, Right)]) -> Result<(), AllocError>
    ensures { OnOk result (made.new.items ≡ made.old.items ++ entries.now) }
{
    for entry in entries {
        made.push((entry.0.clone()?, entry.1))?;
    }
    Ok(())
}

// The groups of a segment where this one has that right, in place of the one that it had.
fn with_entry(
    alloc: Global,
    group: &Text,
    right: Right,
    entries: &[(Text, Right)],
) -> Result<Vec<(Text, Right)>, AllocError>
    ensures { IfOk result (λ made. made.items
        ≡ insert_entry (slice_cmp nat_cmp) entries.now group.now right) }
{
    let mut made = Vec::new(alloc);
    let mut rest = entries;
    while let Some(split) = rest.split_first() {
        match group.cmp(&split.0.0) {
            Ordering::Less => {
                made.push((group.clone()?, right))?;
                push_entries(&mut made, rest)?;
                return Ok(made);
            }
            Ordering::Equal => {
                made.push((split.0.0.clone()?, right))?;
                push_entries(&mut made, split.1)?;
                return Ok(made);
            }
            Ordering::Greater => made.push((split.0.0.clone()?, split.0.1))?,
        }
        rest = split.1;
    }
    made.push((group.clone()?, right))?;
    Ok(made)
}

// The groups of a segment without this one.
fn without_entry(
    alloc: Global,
    group: &Text,
    entries: &[(Text, Right)],
) -> Result<Vec<(Text, Right)>, AllocError>
    ensures { IfOk result (λ made. made.items
        ≡ remove_entry (bytes_eq group.now) entries.now) }
{
    let mut made = Vec::new(alloc);
    let mut rest = entries;
    while let Some(split) = rest.split_first() {
        if *group == split.0.0 {
            push_entries(&mut made, split.1)?;
            return Ok(made);
        }
        made.push((split.0.0.clone()?, split.0.1))?;
        rest = split.1;
    }
    Ok(made)
}

/// The groups of a segment where this one has that right; a group without a right isn't among them.
pub fn with_right(
    alloc: Global,
    group: &Text,
    right: Right,
    entries: &[(Text, Right)],
) -> Result<Vec<(Text, Right)>, AllocError>
    ensures { IfOk result (λ made. made.items ≡ with_right group.now right entries.now) }
{
    match right {
        Right::None => without_entry(alloc, group, entries),
        Right::Read => with_entry(alloc, group, right, entries),
        Right::Write => with_entry(alloc, group, right, entries),
    }
}

/// A copy of the groups of a segment.
pub fn same_entries(
    alloc: Global,
    entries: &[(Text, Right)],
) -> Result<Vec<(Text, Right)>, AllocError>
    ensures { IfOk result (λ made. made.items ≡ entries.now) }
{
    let mut made = Vec::new(alloc);
    push_entries(&mut made, entries)?;
    Ok(made)
}
