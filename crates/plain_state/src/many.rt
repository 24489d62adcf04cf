//! Entries for many objects at once.
ghost use Rattle.std.specs.Prelude.{◌≡◌, ◌<◌, ◌≤◌, ◌+◌, ◌^◌, length, nat_eq};
ghost use Rattle.indexmap.specs.IndexMap.{insert_entry, spare};
ghost use Rattle.plain_state.specs.Overlay.{contents_by_name};
ghost use Rattle.plain_state.specs.Puts.{with_all};

use crate::entry::Entry;
use gem_object::Object;
use indexmap::IndexMap;

/// Puts objects at this name and at those after it, where there is room for them. It takes no
/// memory.
pub(crate) fn insert_all(entries: &mut IndexMap<u64, Entry>, first: u64, objects: Vec<Object>)
    requires room { length objects.items ≤ spare entries.old }
    requires names { first + length objects.items ≤ 2 ^ 48 }
    ensures { contents_by_name entries.new.entries ≡ with_all first objects.items
        (contents_by_name entries.old.entries) }
{
    let mut number = first;
    for object in objects {
        insert(entries, number, object);
        number += 1;
    }
}

// Puts an object at this name, where there is room for it.
fn insert(entries: &mut IndexMap<u64, Entry>, number: u64, object: Object)
    requires { 0 < spare entries.old }
    ensures entries { entries.new.entries ≡ insert_entry nat_eq entries.old.entries number object }
    ensures room { spare entries.old ≤ spare entries.new + 1 }
{
    let Ok(_) = entries.insert(number, Entry::new(object)) else {
        unreachable!()
    };
}
