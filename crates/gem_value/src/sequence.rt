//! Lists that are changed in place.
ghost use Rattle.std.specs.Prelude.{◌≡◌, ◌==◌, ◌↔◌, ◌<◌, ◌≤◌, ◌+◌, ◌++◌, ◌∷◌, [], take, drop, length, slice_get, slice_set, Some, IsSome, IfOk, OnOk, OnErr};
ghost use Rattle.std.specs.Option.{option_to_list};

use std::alloc::AllocError;
use std::marker::Model;

/// A list, which a contract sees as the list of its items.
#[derive(Debug, Drop)]
pub struct Sequence<T> {
    items: Vec<T>,
}

impl<T> Model for Sequence<T> {
    ghost use Rattle.std.specs.Prelude.{List};
    ghost use Rattle.std.specs.Coded.{coded_list};

    ghost Value = { List T };

    ghost coded = { coded_list T.code };

    ghost view = { λ sequence. sequence.items.items };
}

impl<T> Sequence<T> {
    /// The list of these items. It keeps the vector, so it takes no memory.
    pub fn of(items: Vec<T>) -> Sequence<T>
        ensures { result ≡ items.items }
    {
        Sequence { items }
    }

    /// The items, in order.
    pub fn as_slice(&self) -> &[T]
        ensures { result.now ≡ self.now }
    {
        self.items.as_slice()
    }

    /// How many items there are.
    pub fn len(&self) -> usize
        ensures { result ≡ length self.now }
    {
        self.items.len()
    }

    /// Whether there are none.
    pub fn is_empty(&self) -> bool
        ensures { result ≡ (length self.now == 0) }
    {
        self.items.is_empty()
    }

    /// Gives the items back. It takes no memory.
    pub fn into_items(self) -> Vec<T>
        ensures { result.items ≡ self }
    {
        self.items
    }

    /// Puts an item in the place of the one that stands there. It takes no memory.
    pub fn set(&mut self, at: usize, item: T)
    where
        T: Drop,
        requires { at < length self.old }
        ensures { self.new ≡ slice_set self.old at item }
    {
        self.items[at] = item;
    }

    /// Adds an item at the end. Where it finds no memory the list is as before.
    pub fn push(&mut self, item: T) -> Result<(), AllocError>
    where
        T: Drop,
        ensures added { OnOk result (self.new ≡ self.old ++ item ∷ []) }
        ensures unchanged { OnErr result (self.new ≡ self.old) }
    {
        Ok(self.items.push(item)?)
    }

    /// Takes the last item away. It takes no memory.
    pub fn pop(&mut self) -> Option<T>
        ensures some { IsSome result ↔ (0 < length self.old) }
        ensures last { self.old ≡ self.new ++ option_to_list result }
    {
        self.items.pop()
    }

    /// Adds an item at this place; those from there on move up by one. Where it finds no memory the
    /// list is as before.
    pub fn insert(&mut self, at: usize, item: T) -> Result<(), AllocError>
    where
        T: Drop,
        requires { at ≤ length self.old }
        ensures added { OnOk result (self.new ≡ take at self.old ++ item ∷ drop at self.old) }
        ensures unchanged { OnErr result (self.new ≡ self.old) }
    {
        Ok(self.items.insert(at, item)?)
    }

    /// Takes the item at this place away; those after it move down by one. It takes no memory.
    pub fn remove(&mut self, at: usize) -> T
        requires { at < length self.old }
        ensures removed { slice_get self.old at ≡ Some result }
        ensures rest { self.new ≡ take at self.old ++ drop (at + 1) self.old }
    {
        self.items.remove(at)
    }

    /// The same list once more.
    pub fn try_clone(&self) -> Result<Sequence<T>, AllocError>
    where
        T: Clone,
        requires { (x y : T) → T.is_clone x y → y ≡ x }
        ensures { IfOk result (λ copy. copy ≡ self.now) }
    {
        Ok(Sequence {
            items: self.items.clone()?,
        })
    }
}
