//! The classes from one up to the last superclass, as their fixed parts tell. Nothing is touched.
ghost use Rattle.std.specs.Prelude.{◌≡◌, ◌≤◌, option_map, option_copied, ◌++◌, IfOk, OnOk};
ghost use Rattle.object_programs.specs.Programs.{part_of};
ghost use Rattle.prim_parts.specs.Walks.{part_of_class, parts_seen, classes_up, has_class, count_names, names_of};

use gem_object::{Body, ClassBody, Names, Oid, Sequence, Text};
use running_objects::Objects;
use std::alloc::{AllocError, Global};

// The class of this name, if there is one.
fn class_at<O: Objects>(objects: &O, name: Oid) -> Option<&ClassBody>
    ensures { option_map part_of_class (option_copied result)
        ≡ part_of (parts_seen (O.seen objects.now) name) }
{
    match &objects.object(name)?.body {
        Body::Class(class) => Some(class),
        _ => None,
    }
}

/// Whether one of the classes from this one up has this name.
pub(crate) fn has_class<O: Objects>(objects: &O, limit: u64, class: Oid, ancestor: Oid) -> bool
    ensures { result
        ≡ has_class ancestor (classes_up (parts_seen (O.seen objects.now)) limit class) }
{
    let mut class = class;
    let mut limit = limit;
    while limit > 0 {
        let Some(found) = class_at(objects, class) else {
            return false;
        };
        if class == ancestor {
            return true;
        }
        let Some(superclass) = found.superclass else {
            return false;
        };
        class = superclass;
        limit -= 1;
    }
    false
}

/// How many names the classes from this one up add, which are at most 200.
pub(crate) fn count_names<O: Objects>(objects: &O, limit: u64, class: Oid) -> usize
    requires { count_names (classes_up (parts_seen (O.seen objects.now)) limit class) ≤ 200 }
    ensures { result
        ≡ count_names (classes_up (parts_seen (O.seen objects.now)) limit class) }
{
    let mut class = class;
    let mut limit = limit;
    let mut count = 0;
    while limit > 0 {
        let Some(found) = class_at(objects, class) else {
            return count;
        };
        count += found.names.len();
        let Some(superclass) = found.superclass else {
            return count;
        };
        class = superclass;
        limit -= 1;
    }
    count
}

/// The names that the classes from this one up add, those of the lowest class first.
pub(crate) fn push_names<O: Objects>(
    alloc: Global,
    objects: &O,
    limit: u64,
    class: Oid,
) -> Result<Names, AllocError>
    ensures { IfOk result (λ names. names
        ≡ names_of (classes_up (parts_seen (O.seen objects.now)) limit class)) }
{
    let mut class = class;
    let mut limit = limit;
    let mut names = Vec::new(alloc);
    while limit > 0 {
        let Some(found) = class_at(objects, class) else {
            return Ok(Sequence::of(names));
        };
        push_copies(&mut names, found.names.as_slice())?;
        let Some(superclass) = found.superclass else {
            return Ok(Sequence::of(names));
        };
        class = superclass;
        limit -= 1;
    }
    Ok(Sequence::of(names))
}

// Copies of these names come at the end.
fn push_copies(names: &mut Vec<Text>, more: &[Text]) -> Result<(), AllocError>
    ensures { OnOk result (names.new.items ≡ names.old.items ++ more.now) }
{
    for name in more {
        names.push(name.clone()?)?;
    }
    Ok(())
}
