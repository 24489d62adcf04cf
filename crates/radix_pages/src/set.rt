//! How a key is set: nodes that are shared are copied on the way down, others are changed in place.
ghost use Rattle.std.specs.Prelude.{◌≡◌, ◌+◌, ◌*◌, ◌^◌, ◌<◌, ◌≤◌, OnOk, OnErr, length};
ghost use Rattle.std.specs.FinMap as map;
ghost use Rattle.radix_pages.specs.Level.{level_with};
ghost use Rattle.radix_pages.specs.Node.{SameSlots, SlotFits, slot_map};

use crate::digits::rest_of;
use crate::node::{Node, Slot};
use crate::steps::Steps;
use std::alloc::{AllocError, Global};
use std::sync::Arc;
use std::sync::ledger::Ledger;

/// Makes the vector as long as this at least, by empty slots.
fn make_room<T: Drop>(slots: &mut Vec<Slot<T>>, wanted: usize) -> Result<(), AllocError>
    ensures room { OnOk result (wanted ≤ length slots.new.items) }
    ensures same { SameSlots wanted slots.old.items slots.new.items }
{
    while slots.len() < wanted {
        slots.push(Slot::Empty)?;
    }
    Ok(())
}

/// Sets the key in a node that nobody shares.
#[cycle(set)]
fn set_node<T: Drop, L: Ledger>(
    alloc: Global,
    node: &mut Node<T>,
    key: u64,
    value: Arc<T>,
    steps: &mut Steps<L>,
) -> Result<(), AllocError>
    requires { key < 2 ^ (node.old.bits * (node.old.height + 1)) }
    ensures ok { OnOk result
        (node.new ≡ level_with node.old (map.insert node.old.map key value.value)) }
    ensures err { OnErr result (node.new ≡ node.old) }
    ensures nodes { steps.new ≤ steps.old + node.old.height }
{
    let shift = node.bits * node.height;
    let at = (key >> shift) as usize;
    make_room(&mut node.slots, at + 1)?;
    if node.height == 0 {
        node.slots[at] = Slot::Value(value);
        return Ok(());
    }
    let rest = rest_of(key, shift);
    let (bits, height) = (node.bits, node.height - 1);
    set_below(alloc, &mut node.slots[at], bits, height, rest, value, steps)
}

/// Sets the key in the node of this height that stands in the slot, or in a new one where the slot
/// is empty.
#[cycle(set)]
pub(crate) fn set_below<T: Drop, L: Ledger>(
    alloc: Global,
    slot: &mut Slot<T>,
    bits: u32,
    height: u32,
    key: u64,
    value: Arc<T>,
    steps: &mut Steps<L>,
) -> Result<(), AllocError>
    requires some_bits { 0 < bits }
    requires in_range { bits * (height + 1) ≤ 48 }
    requires fits { SlotFits bits (height + 1) slot.old }
    requires key { key < 2 ^ (bits * (height + 1)) }
    ensures ok { OnOk result
        (slot_map slot.new ≡ map.insert (slot_map slot.old) key value.value) }
    ensures err { OnErr result (slot_map slot.new ≡ slot_map slot.old) }
    ensures fits { SlotFits bits (height + 1) slot.new }
    ensures nodes { steps.new ≤ steps.old + (height + 1) }
{
    match slot {
        Slot::Empty => {
            let mut node = Node::empty(alloc, bits, height, steps);
            set_node(alloc, &mut node, key, value, steps)?;
            *slot = Slot::Branch(Arc::new(alloc, node)?);
            Ok(())
        }
        Slot::Value(_) => unreachable!(),
        Slot::Branch(below) => {
            if Arc::strong_count(below) != 1 {
                let node = below.copy(steps)?;
                *below = Arc::new(alloc, node)?;
            }
            match Arc::get_mut(below) {
                Some(node) => set_node(alloc, node, key, value, steps),
                // It doesn't come, since the node has no other owner; but no clause says so.
                None => Err(AllocError),
            }
        }
    }
}
