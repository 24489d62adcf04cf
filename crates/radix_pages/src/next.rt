//! The lowest key from a given one on.
ghost use Rattle.std.specs.Prelude.{◌+◌, ◌*◌, ◌^◌, ◌<◌, IfSome};
ghost use Rattle.radix_pages.specs.Next.{IsNext, IsNextAt, entry_copied};
ghost use Rattle.radix_pages.specs.Node.{SlotTakes, slot_at};

use crate::digits::{key_of, rest_of};
use crate::node::{Node, Slot};

/// The lowest key of the node from this one on, with its value.
#[cycle(next)]
pub(crate) fn next_in<T>(node: &Node<T>, key: u64) -> Option<(u64, &T)>
    requires { key < 2 ^ (node.now.bits * (node.now.height + 1)) }
    ensures next { IsNext node.now.map key (entry_copied result) }
    ensures in_range { IfSome result (λ entry.
        entry.0 < 2 ^ (node.now.bits * (node.now.height + 1))) }
{
    let shift = node.bits * node.height;
    let first = (key >> shift) as usize;
    let mut from = rest_of(key, shift);
    for at in first..node.slots.len() {
        if let Some((rest, value)) = next_below(&node.slots[at], from) {
            return Some((key_of(at, rest, shift), value));
        }
        from = 0;
    }
    None
}

/// The lowest rest of a key in the slot from this one on, with its value.
#[cycle(next)]
fn next_below<T>(slot: &Slot<T>, from: u64) -> Option<(u64, &T)>
    requires { SlotTakes slot.now from }
    ensures next { IsNextAt (slot_at slot.now) from (entry_copied result) }
    ensures in_range { IfSome result (λ entry. SlotTakes slot.now entry.0) }
{
    match slot {
        Slot::Empty => None,
        Slot::Value(value) => Some((from, &**value)),
        Slot::Branch(node) => next_in(node, from),
    }
}
