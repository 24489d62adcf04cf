//! A node of the tree, to contracts a map of its own, and the look-up of a key in it.
ghost use Rattle.std.specs.Prelude.{◌≡◌, ◌+◌, ◌*◌, ◌^◌, ◌<◌, ◌≤◌, IfOk, OnOk, OnErr, option_map, option_copied};
ghost use Rattle.std.specs.Arc.{arc_value};
ghost use Rattle.std.specs.FinMap as map;
ghost use Rattle.radix_pages.specs.Level.{level};

use crate::digits::rest_of;
use crate::steps::Steps;
use std::alloc::{AllocError, Global};
use std::marker::Model;
use std::sync::Arc;
use std::sync::ledger::Ledger;

/// A node: what stands at its keys, which have `bits` bits for each level from its own down. Those
/// of the leaves have the height 0. The vector ends with the highest slot that was ever used, and
/// what lies past its end is empty.
#[cycle(node)]
#[derive(Drop)]
pub(crate) struct Node<T> {
    pub(crate) bits: u32,
    pub(crate) height: u32,
    pub(crate) slots: Vec<Slot<T>>,
}

/// What a node has at one digit. Values stand in the leaves alone, and branches above them.
#[cycle(node)]
#[derive(Drop)]
pub(crate) enum Slot<T> {
    Empty,
    Value(Arc<T>),
    Branch(Arc<Node<T>>),
}

impl<T> Model for Node<T> {
    ghost use Rattle.radix_pages.specs.Level.{Level, level_code};

    ghost Value = { Level T };

    ghost coded = { level_code T.code };

    ghost use Rattle.radix_pages.specs.Node.{map_of, IsWellBuilt};

    ghost view = { λ node. record {
      bits = node.bits;
      height = node.height;
      map = map_of node.bits node.height node.slots.items;
    } };

    ghost invariant = { λ node. IsWellBuilt node.bits node.height node.slots.items };

    ghost size = { λ node. node.height };

    ghost use Rattle.radix_pages.specs.Falls.{child_below};

    ghost size_decreases = { λ node well_built.
        child_below node.bits node.height node.slots.items well_built };
}

impl<T: Drop> Clone for Slot<T> {
    ghost use Rattle.radix_pages.specs.Node.{SlotClones};

    ghost is_clone = { SlotClones };

    fn clone(&self) -> Result<Slot<T>, AllocError> {
        match self {
            Slot::Empty => Ok(Slot::Empty),
            Slot::Value(value) => Ok(Slot::Value(value.clone()?)),
            Slot::Branch(node) => Ok(Slot::Branch(node.clone()?)),
        }
    }
}

impl<T> Node<T> {
    /// A node with nothing in it.
    pub(crate) fn empty<L: Ledger>(
        alloc: Global,
        bits: u32,
        height: u32,
        steps: &mut Steps<L>,
    ) -> Node<T>
        requires some_bits { 0 < bits }
        requires in_range { bits * (height + 1) ≤ 48 }
        ensures node { result ≡ level bits height map.empty }
        ensures nodes { steps.new ≡ steps.old + 1 }
    {
        steps.tick();
        Node {
            bits,
            height,
            slots: Vec::new(alloc),
        }
    }

    /// What stands at the key in this node and those below it.
    pub(crate) fn leaf(&self, key: u64) -> Option<&Arc<T>>
        requires { key < 2 ^ (self.now.bits * (self.now.height + 1)) }
        ensures { option_map arc_value (option_copied result) ≡ map.get self.now.map key }
    {
        let mut node = self;
        let mut rest = key;
        'down: loop {
            let shift = node.bits * node.height;
            let at = (rest >> shift) as usize;
            if at >= node.slots.len() {
                return None;
            }
            match &node.slots[at] {
                Slot::Empty => return None,
                Slot::Value(value) => return Some(value),
                Slot::Branch(below) => {
                    node = &**below;
                    rest = rest_of(rest, shift);
                }
            }
        }
    }
}

impl<T: Drop> Node<T> {
    /// The same node once more, which shares what stands in its slots.
    pub(crate) fn copy<L: Ledger>(&self, steps: &mut Steps<L>) -> Result<Node<T>, AllocError>
        ensures node { IfOk result (λ node. node ≡ self.now) }
        ensures nodes { OnOk result (steps.new ≡ steps.old + 1) }
        ensures err { OnErr result (steps.new ≡ steps.old) }
    {
        let slots = self.slots.clone()?;
        steps.tick();
        Ok(Node {
            bits: self.bits,
            height: self.height,
            slots,
        })
    }
}
