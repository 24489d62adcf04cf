//! A stack that all activations share.
ghost use Rattle.std.specs.Prelude.{◌≡◌, ◌<◌, ◌≤◌, [], ◌∷◌, ◌++◌, length, reverse, take, drop, set, slice_get, option_copied, Some, OnOk, OnErr};
ghost use Rattle.st_machine.specs.Layers.{nothing_on, begun, ended, kept, Popped};

use list_stack::ListStack;
use std::alloc::{AllocError, Global};
use std::marker::Model;

/// A stack that all activations share: each has its own part of it, above those of the activations
/// that wait for it. What is put there takes no memory, once the stack has been as high before.
#[derive(Drop)]
pub(crate) struct Layers<T> {
    items: Vec<T>,
    base: usize,
}

impl<T> Model for Layers<T> {
    ghost use Rattle.std.specs.Prelude.{◌≤◌, length, reverse, take, drop};
    ghost use Rattle.st_machine.specs.Layers.{Layers as TwoLayers};

    ghost Value = { TwoLayers T };

    ghost view = { λ layers. record {
      own = reverse (drop layers.base layers.items.items);
      below = take layers.base layers.items.items;
    } };

    ghost invariant = { λ layers. layers.base ≤ length layers.items.items };
}

impl<T: Drop> Layers<T> {
    /// An empty stack, before anything runs. It takes no memory.
    pub(crate) fn new(alloc: Global) -> Layers<T>
        ensures { result ≡ nothing_on T }
    {
        Layers {
            items: Vec::new(alloc),
            base: 0,
        }
    }

    /// How many items the activation that runs has put there.
    pub(crate) fn height(&self) -> usize
        ensures { result ≡ length self.now.own }
    {
        self.items.len() - self.base
    }

    /// Puts an item on top. Where it finds no memory all is as before.
    #[inline(always)]
    pub(crate) fn push(&mut self, item: T) -> Result<(), AllocError>
        ensures pushed { OnOk result (self.new.own ≡ item ∷ self.old.own) }
        ensures unchanged { OnErr result (self.new.own ≡ self.old.own) }
        ensures below { self.new.below ≡ self.old.below }
    {
        Ok(self.items.push(item)?)
    }

    /// Puts items on top, the last one uppermost. Where it finds no memory all is as before.
    pub(crate) fn push_all(&mut self, mut items: Vec<T>) -> Result<(), AllocError>
        ensures pushed { OnOk result (self.new.own ≡ reverse items.items ++ self.old.own) }
        ensures unchanged { OnErr result (self.new.own ≡ self.old.own) }
        ensures below { self.new.below ≡ self.old.below }
    {
        Ok(self.items.append(&mut items)?)
    }

    /// Takes the uppermost item, where the activation that runs has put one there.
    pub(crate) fn pop(&mut self) -> Option<T>
        ensures popped { Popped result self.old.own self.new.own }
        ensures below { self.new.below ≡ self.old.below }
    {
        if self.items.len() <= self.base {
            return None;
        }
        self.items.pop()
    }

    /// The item at this depth, of which 0 is the uppermost one's.
    #[inline(always)]
    pub(crate) fn item(&self, depth: usize) -> Option<&T>
        ensures { option_copied result ≡ slice_get self.now.own depth }
    {
        if depth >= self.height() {
            return None;
        }
        Some(self.at_depth(depth))
    }

    /// The same, where there is one.
    #[inline(always)]
    pub(crate) fn at_depth(&self, depth: usize) -> &T
        requires { depth < length self.now.own }
        ensures { Some result.now ≡ slice_get self.now.own depth }
    {
        &self.items[self.items.len() - 1 - depth]
    }

    /// So many of the uppermost items, the uppermost one last.
    pub(crate) fn upper(&self, count: usize) -> &[T]
        requires { count ≤ length self.now.own }
        ensures { result.now ≡ reverse (take count self.now.own) }
    {
        &self.items[self.items.len() - count..]
    }

    /// All items of the activation that runs, the uppermost one last.
    pub(crate) fn own(&self) -> &[T]
        ensures { result.now ≡ reverse self.now.own }
    {
        &self.items[self.base..]
    }

    /// Puts an item in place of the one at this depth. It takes no memory.
    #[inline(always)]
    pub(crate) fn put(&mut self, depth: usize, item: T)
        requires { depth < length self.old.own }
        ensures own { self.new.own ≡ set self.old.own depth item }
        ensures below { self.new.below ≡ self.old.below }
    {
        let at = self.items.len() - 1 - depth;
        self.items[at] = item;
    }

    /// Drops so many of the uppermost items.
    #[inline(always)]
    pub(crate) fn drop_upper(&mut self, count: usize)
        requires { count ≤ length self.old.own }
        ensures own { self.new.own ≡ drop count self.old.own }
        ensures below { self.new.below ≡ self.old.below }
    {
        if count == 1 {
            let _ = self.items.pop();
        } else if count == 2 {
            let _ = self.items.pop();
            let _ = self.items.pop();
        } else if count > 0 {
            let left = self.items.len() - count;
            self.items.truncate(left);
        }
    }

    /// Moves so many of the uppermost items to a new list on top of these, the uppermost one last.
    /// Where it finds no memory the lists are as before.
    pub(crate) fn move_upper(
        &mut self,
        lists: &mut ListStack<T>,
        count: usize,
    ) -> Result<(), AllocError>
        requires { count ≤ length self.old.own }
        ensures opened { OnOk result
            (lists.new ≡ lists.old ++ reverse (take count self.old.own) ∷ []) }
        ensures own { OnOk result (self.new.own ≡ drop count self.old.own) }
        ensures below { self.new.below ≡ self.old.below }
        ensures unchanged { OnErr result (lists.new ≡ lists.old) }
    {
        lists.open_taking(&mut self.items, count)
    }

    /// An activation begins. What is answered is wanted at its end.
    pub(crate) fn begin(&mut self) -> usize
        ensures base { result ≡ length self.old.below }
        ensures begun { self.new ≡ begun self.old }
    {
        let base = self.base;
        self.base = self.items.len();
        base
    }

    /// An activation ends, with all that it has put there. So many items stood below the one that
    /// goes on.
    pub(crate) fn end(&mut self, base: usize)
        requires { base ≤ length self.old.below }
        ensures { self.new ≡ ended base self.old }
    {
        self.items.truncate(self.base);
        self.base = base;
    }

    /// The same, but what the activation has put there stays, above what the one that goes on has
    /// put.
    #[inline(always)]
    pub(crate) fn end_keeping(&mut self, base: usize)
        requires { base ≤ length self.old.below }
        ensures { self.new ≡ kept base self.old }
    {
        self.base = base;
    }
}
