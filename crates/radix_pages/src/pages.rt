//! The map: its root, and how many keys it has.
ghost use Rattle.std.specs.Prelude.{◌≡◌, ◌+◌, ◌*◌, ◌^◌, ◌<◌, ◌≤◌, IfOk, OnOk, OnErr, option_map, option_copied};
ghost use Rattle.std.specs.Arc.{arc_value};
ghost use Rattle.std.specs.FinMap as map;
ghost use Rattle.radix_pages.specs.Next.{IsNext, entry_copied};

use crate::digits::has_bits;
use crate::next::next_in;
use crate::node::Slot;
use crate::set::set_below;
use crate::steps::Steps;
use std::alloc::{AllocError, Global};
use std::marker::Model;
use std::sync::Arc;
use std::sync::ledger::Ledger;

/// A map from keys below 2^(BITS * LEVELS), as a tree of nodes with up to 2^BITS slots each, LEVELS
/// nodes deep. Contracts see the finite map.
///
/// Maps share their nodes: `share` copies nothing, and what is set in one map leaves every other as
/// it was. To set a key builds at most LEVELS new nodes, and all else is shared.
///
/// The contract doesn't say what a call costs otherwise: `get` and `set` go down LEVELS nodes, and
/// the copy of a node takes up to 2^BITS slots.
#[derive(Drop)]
pub struct Pages<T, const BITS: usize, const LEVELS: usize> {
    root: Slot<T>,
    count: u64,
}

impl<T, const BITS: usize, const LEVELS: usize> Model for Pages<T, BITS, LEVELS> {
    ghost use Rattle.std.specs.Coded.{coded_ℕ};
    ghost use Rattle.std.specs.FinMap as map;
    ghost use Rattle.std.specs.Ordering.{nat_cmp};
    ghost use Rattle.radix_pages.specs.Node.{slot_map};
    ghost use Rattle.radix_pages.specs.Root.{IsRoot};

    ghost Value = { map.FinMap nat_cmp T };

    ghost coded = { map.code coded_ℕ T.code };

    ghost view = { λ pages. slot_map pages.root };

    ghost invariant = { λ pages. IsRoot BITS LEVELS pages.root pages.count };
}

impl<T: Drop, const BITS: usize, const LEVELS: usize> Pages<T, BITS, LEVELS> {
    /// The map without keys.
    pub fn new() -> Pages<T, BITS, LEVELS>
        requires some_bits { 0 < BITS }
        requires few_bits { BITS ≤ 8 }
        requires some_levels { 0 < LEVELS }
        requires in_range { BITS * LEVELS ≤ 48 }
        ensures { result ≡ map.empty }
    {
        Pages {
            root: Slot::Empty,
            count: 0,
        }
    }

    /// How many keys there are.
    pub fn count(&self) -> u64
        ensures count { result ≡ map.len self.now }
        ensures bound { result ≤ 2 ^ (BITS * LEVELS) }
    {
        self.count
    }

    /// The value at the key, if there is one; none at a key that is too large for the map.
    #[inline(always)]
    pub fn get(&self, key: u64) -> Option<&T>
        ensures { option_copied result ≡ map.get self.now key }
    {
        match self.leaf(key) {
            Some(value) => Some(&**value),
            None => None,
        }
    }

    /// What `get` finds, with its owners counted: whoever clones it keeps the value, whatever
    /// becomes of the map.
    pub fn leaf(&self, key: u64) -> Option<&Arc<T>>
        ensures { option_map arc_value (option_copied result) ≡ map.get self.now key }
    {
        let root = &self.root;
        if !has_bits(key, (BITS * LEVELS) as u32) {
            return None;
        }
        match root {
            Slot::Empty => None,
            Slot::Value(_) => unreachable!(),
            Slot::Branch(node) => node.leaf(key),
        }
    }

    /// The lowest key from this one on, with its value, if there is one.
    pub fn next_from(&self, key: u64) -> Option<(u64, &T)>
        ensures { IsNext self.now key (entry_copied result) }
    {
        let root = &self.root;
        if !has_bits(key, (BITS * LEVELS) as u32) {
            return None;
        }
        match root {
            Slot::Empty => None,
            Slot::Value(_) => unreachable!(),
            Slot::Branch(node) => next_in(node, key),
        }
    }

    /// The same map once more, for another owner. No node is copied.
    ///
    /// # Errors
    ///
    /// `AllocError` where the count of owners is full.
    pub fn share(&self) -> Result<Pages<T, BITS, LEVELS>, AllocError>
        ensures { IfOk result (λ pages. pages ≡ self.now) }
    {
        Ok(Pages {
            root: self.root.clone()?,
            count: self.count,
        })
    }

    /// The map with the value at the key, and all else as here. This map stays as it is.
    ///
    /// # Errors
    ///
    /// `AllocError` where memory ran out.
    pub fn set<L: Ledger>(
        &self,
        alloc: Global,
        key: u64,
        value: T,
        steps: &mut Steps<L>,
    ) -> Result<Pages<T, BITS, LEVELS>, AllocError>
        requires { key < 2 ^ (BITS * LEVELS) }
        ensures pages { IfOk result (λ pages. pages ≡ map.insert self.now key value) }
        ensures nodes { steps.new ≤ steps.old + LEVELS }
    {
        let mut pages = self.share()?;
        pages.insert(alloc, key, value, steps)?;
        Ok(pages)
    }

    /// Sets the value at the key in this map alone: maps with which it shares nodes stay as they
    /// are. Nodes that it shares with nobody are changed in place, so a row of inserts after a
    /// `share` copies each node once.
    ///
    /// # Errors
    ///
    /// `AllocError` where memory ran out. The map is as it was.
    pub fn insert<L: Ledger>(
        &mut self,
        alloc: Global,
        key: u64,
        value: T,
        steps: &mut Steps<L>,
    ) -> Result<(), AllocError>
        requires { key < 2 ^ (BITS * LEVELS) }
        ensures ok { OnOk result (self.new ≡ map.insert self.old key value) }
        ensures err { OnErr result (self.new ≡ self.old) }
        ensures nodes { steps.new ≤ steps.old + LEVELS }
    {
        let is_new = self.get(key).is_none();
        let value = Arc::new(alloc, value)?;
        let height = (LEVELS - 1) as u32;
        set_below(
            alloc,
            &mut self.root,
            BITS as u32,
            height,
            key,
            value,
            steps,
        )?;
        if is_new {
            self.count += 1;
        }
        Ok(())
    }
}
