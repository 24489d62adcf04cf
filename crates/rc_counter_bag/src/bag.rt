//! The bag.
ghost use Rattle.std.specs.Prelude.{◌≡◌, ◌↔◌, ◌⊎◌, ℕ, List, true, Some, None, Ok, Err, IsSome, IfOk, IfSome, OnOk, OnErr, IsErrOf};
ghost use Rattle.rc_counter_bag.specs.Bag.{IsBag, size, size as occurrences, count, updated, adds_new, merged};

use crate::pairs;
use crate::update::{BagFault, BagUpdate};
use std::alloc::AllocError;
use std::marker::Model;

/// A multiset: items in ascending order, each with how often it occurs.
///
/// Contracts see it as the list of these pairs.
#[derive(Debug, Drop)]
pub struct Bag<T: Ord> {
    pairs: Vec<(T, u64)>,
    // All occurrences, so that nobody has to sum them up.
    total: u64,
}

impl<T: Ord> Model for Bag<T> {
    ghost Value = { List (T × ℕ) };

    ghost view = { λ bag. bag.pairs.items };

    ghost invariant = { λ bag. IsBag T.cmp bag.pairs.items × (bag.total ≡ occurrences bag.pairs.items) };
}

impl<T: Ord + Clone + Drop> Bag<T> {
    /// The bag of these pairs. Takes no memory.
    ///
    /// None where the items don't ascend strictly or one occurs 0 times.
    pub fn of_pairs(pairs: Vec<(T, u64)>) -> Option<Bag<T>>
        ensures bag { IsSome result ↔ IsBag T.cmp pairs.items }
        ensures same { IfSome result (λ bag. bag ≡ pairs.items) }
    {
        if pairs::is_bag(&pairs) {
            Some(Bag {
                total: pairs::size(&pairs),
                pairs,
            })
        } else {
            None
        }
    }

    /// The items in ascending order, each with how often it occurs.
    pub fn pairs(&self) -> &[(T, u64)]
        ensures pairs { result.now ≡ self.now }
        ensures bag { IsBag T.cmp self.now }
    {
        &self.pairs
    }

    /// How often the item occurs. A count stays at 2^64 - 1 once it is there.
    pub fn count(&self, item: &T) -> u64
        ensures { result ≡ count T.cmp item.now self.now }
    {
        pairs::count(&self.pairs, item)
    }

    /// All occurrences of all items. It is 2^64 - 1 at most. Takes constant time.
    pub fn size(&self) -> u64
        ensures { result ≡ size self.now }
    {
        self.total
    }

    /// The same bag once more.
    pub fn try_clone(&self) -> Result<Bag<T>, AllocError>
        requires { (x y : T) → T.is_clone x y → y ≡ x }
        ensures { IfOk result (λ bag. bag ≡ self.now) }
    {
        Ok(Bag {
            pairs: self.pairs.clone()?,
            total: self.total,
        })
    }

    /// Applies one update.
    ///
    /// `Missing(0)`: a removal of an item that doesn't occur. `NoMemory`: an add of an item that
    /// doesn't occur yet found no memory. After either the bag is as before.
    pub fn apply(&mut self, update: BagUpdate<T>) -> Result<(), BagFault>
        ensures applied { OnOk result (updated T.cmp update self.old ≡ Some self.new) }
        ensures missing { IsErrOf result (BagFault.Missing 0)
            ↔ (updated T.cmp update self.old ≡ None) }
        ensures index { (at : ℕ) → IsErrOf result (BagFault.Missing at) → at ≡ 0 }
        ensures memory { IsErrOf result BagFault.NoMemory → adds_new T.cmp update self.old ≡ true }
        ensures unchanged { OnErr result (self.new ≡ self.old) }
    {
        match update {
            BagUpdate::Add(item) => {
                pairs::add(&mut self.pairs, item)?;
                self.total = self.total.saturating_add(1);
                Ok(())
            }
            BagUpdate::Remove(item) => {
                if !pairs::remove(&mut self.pairs, &item) {
                    return Err(BagFault::Missing(0));
                }
                self.total = pairs::size_after(self.total, &self.pairs);
                Ok(())
            }
        }
    }

    /// What the updates, made by a session at its view, make of the bag at the commit's place: they
    /// are applied in order.
    ///
    /// `Missing`: the index of the first removal that finds no occurrence. `NoMemory` may come in
    /// place of any answer, since the place's pairs are copied first.
    pub fn merge(
        at_view: &Bag<T>,
        at_place: &Bag<T>,
        updates: &[BagUpdate<T>],
    ) -> Result<Bag<T>, BagFault>
        requires { (x y : T) → T.is_clone x y → y ≡ x }
        ensures ok { IfOk result (λ bag.
            merged T.cmp at_view.now at_place.now updates.now ≡ Ok bag) }
        ensures missing { (at : ℕ) → IsErrOf result (BagFault.Missing at)
            → merged T.cmp at_view.now at_place.now updates.now ≡ Err at }
        ensures refuses { (at : ℕ) → merged T.cmp at_view.now at_place.now updates.now ≡ Err at
            → IsErrOf result (BagFault.Missing at) ⊎ IsErrOf result BagFault.NoMemory }
    {
        let mut pairs = at_place.pairs.clone()?;
        pairs::replay(&mut pairs, updates)?;
        Ok(Bag {
            total: pairs::size(&pairs),
            pairs,
        })
    }
}
