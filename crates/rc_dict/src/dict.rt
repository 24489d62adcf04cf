//! The dictionary.
ghost use Rattle.std.specs.Prelude.{◌≡◌, ◌↔◌, ℕ, List, true, length, option_copied, Some, None, Ok, Err, IsSome, IfOk, IfSome, OnOk, OnErr, IsErrOf};
ghost use Rattle.rc_dict.specs.Dict.{IsDict, entry, updated, puts_new, last_entry, merged};

use crate::pairs;
use crate::update::{DictFault, DictUpdate};
use sorted_pairs::ascend;
use std::alloc::AllocError;
use std::marker::Model;

/// A dictionary: keys in ascending order, each with its value.
///
/// Contracts see it as the list of these pairs.
#[derive(Debug, Drop)]
pub struct KeyDict<K: Ord, T> {
    pairs: Vec<(K, T)>,
}

impl<K: Ord, T> Model for KeyDict<K, T> {
    ghost Value = { List (K × T) };

    ghost view = { λ dict. dict.pairs.items };

    ghost invariant = { λ dict. IsDict K.cmp dict.pairs.items };
}

impl<K: Ord + Clone + Drop, T: Ord + Clone + Drop> KeyDict<K, T> {
    /// The dictionary of these pairs. Takes no memory.
    ///
    /// None where the keys don't ascend strictly.
    pub fn of_pairs(pairs: Vec<(K, T)>) -> Option<KeyDict<K, T>>
        ensures dict { IsSome result ↔ IsDict K.cmp pairs.items }
        ensures same { IfSome result (λ dict. dict ≡ pairs.items) }
    {
        if ascend(&pairs) {
            Some(KeyDict { pairs })
        } else {
            None
        }
    }

    /// The keys in ascending order, each with its value.
    pub fn pairs(&self) -> &[(K, T)]
        ensures pairs { result.now ≡ self.now }
        ensures dict { IsDict K.cmp self.now }
    {
        &self.pairs
    }

    /// The key's value.
    pub fn get(&self, key: &K) -> Option<&T>
        ensures { option_copied result ≡ entry K.cmp key.now self.now }
    {
        pairs::entry(&self.pairs, key)
    }

    /// How many keys have a value.
    pub fn size(&self) -> u64
        ensures { result ≡ length self.now }
    {
        self.pairs.len() as u64
    }

    /// The same dictionary once more.
    pub fn try_clone(&self) -> Result<KeyDict<K, T>, AllocError>
        requires keys { (x y : K) → K.is_clone x y → y ≡ x }
        requires values { (x y : T) → T.is_clone x y → y ≡ x }
        ensures { IfOk result (λ dict. dict ≡ self.now) }
    {
        Ok(KeyDict {
            pairs: self.pairs.clone()?,
        })
    }

    /// Applies one update.
    ///
    /// `Key(0)`: a removal of a key that has no value. `NoMemory`: a put of a key that has no value
    /// yet found no memory. After either the dictionary is as before.
    pub fn apply(&mut self, update: DictUpdate<K, T>) -> Result<(), DictFault>
        ensures applied { OnOk result (updated K.cmp update self.old ≡ Some self.new) }
        ensures absent { IsErrOf result (DictFault.Key 0) ↔ (updated K.cmp update self.old ≡ None) }
        ensures index { (at : ℕ) → IsErrOf result (DictFault.Key at) → at ≡ 0 }
        ensures memory { IsErrOf result DictFault.NoMemory → puts_new K.cmp update self.old ≡ true }
        ensures unchanged { OnErr result (self.new ≡ self.old) }
    {
        match update {
            DictUpdate::Put(key, value) => Ok(pairs::put(&mut self.pairs, key, value)?),
            DictUpdate::Remove(key) => {
                if pairs::remove(&mut self.pairs, &key) {
                    Ok(())
                } else {
                    Err(DictFault::Key(0))
                }
            }
        }
    }

    /// What the updates, made by a session at its view, make of the dictionary at the commit's
    /// place: the last update of each key stands.
    ///
    /// `Key`: the index of the first update whose key's entry at the place isn't the one at the
    /// view. `NoMemory` may come in place of a dictionary.
    pub fn merge(
        at_view: &KeyDict<K, T>,
        at_place: &KeyDict<K, T>,
        updates: &[DictUpdate<K, T>],
    ) -> Result<KeyDict<K, T>, DictFault>
        requires keys { (x y : K) → K.is_clone x y → y ≡ x }
        requires values { (x y : T) → T.is_clone x y → y ≡ x }
        ensures ok { IfOk result (λ dict.
            merged K.cmp T.cmp at_view.now at_place.now updates.now ≡ Ok dict) }
        ensures last { IfOk result (λ dict. (key : K) → entry K.cmp key dict
            ≡ last_entry K.cmp key updates.now (entry K.cmp key at_place.now)) }
        ensures changed { (at : ℕ) → IsErrOf result (DictFault.Key at)
            ↔ (merged K.cmp T.cmp at_view.now at_place.now updates.now ≡ Err at) }
    {
        if let Some(at) = pairs::first_changed(&at_view.pairs, &at_place.pairs, updates) {
            return Err(DictFault::Key(at));
        }
        let mut merged = at_place.try_clone()?;
        pairs::settle(&mut merged.pairs, updates)?;
        Ok(merged)
    }
}
