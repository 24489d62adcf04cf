//! The map.
ghost use Rattle.std.specs.Prelude.{◌≡◌, ◌↔◌, List, [], None, length, is_some, slice_get, option_copied, IsTrue, IsSome, IfOk, IfSome, OnOk, OnErr};
ghost use Rattle.std.specs.Map.Iter.{deref_pair};
ghost use Rattle.std.specs.Option.{option_map};
ghost use Rattle.insertion_map.specs.Pairs.{AreDistinct, entry_of, with_pair, without_key};

use indexmap::IndexMap;
use std::alloc::{AllocError, Global};
use std::hash::Hash;
use std::marker::Model;

/// A map whose keys stand in the order in which they came.
///
/// Contracts see it as the list of its pairs, in which no key stands twice. A key is found by its
/// hash, so a look-up and a put take the same time on average however many pairs there are; a
/// removal moves the pairs after the removed one.
#[derive(Debug, Drop)]
pub struct InsertionMap<K: Eq + Hash, T> {
    entries: IndexMap<K, T>,
}

impl<K: Eq + Hash, T> Model for InsertionMap<K, T> {
    ghost Value = { List (K × T) };

    ghost view = { λ map. map.entries.entries };

    ghost invariant = { λ map. AreDistinct K.eq map.entries.entries };
}

impl<K: Eq + Hash + Drop, T: Drop> InsertionMap<K, T> {
    /// The map without pairs. Takes no memory.
    #[tactic(auto, using(crate::proofs::Words::kit_words))]
    pub fn new(alloc: Global) -> InsertionMap<K, T>
        ensures { result ≡ [] }
    {
        InsertionMap {
            entries: IndexMap::new(alloc),
        }
    }

    /// The map of these pairs, in their order; None where a key stands twice.
    pub fn of_pairs(
        alloc: Global,
        pairs: Vec<(K, T)>,
    ) -> Result<Option<InsertionMap<K, T>>, AllocError>
        ensures distinct { IfOk result (λ made. IsSome made ↔ AreDistinct K.eq pairs.items) }
        ensures pairs { IfOk result (λ made. IfSome made (λ map. map ≡ pairs.items)) }
    {
        let mut map = InsertionMap::new(alloc);
        for (key, value) in pairs {
            if map.put(key, value)?.is_some() {
                return Ok(None);
            }
        }
        Ok(Some(map))
    }

    /// How many pairs there are.
    pub fn len(&self) -> usize
        ensures len { result ≡ length self.now }
        ensures distinct { AreDistinct K.eq self.now }
    {
        self.entries.len()
    }

    /// Whether there is no pair.
    pub fn is_empty(&self) -> bool
        ensures { IsTrue result ↔ (self.now ≡ []) }
    {
        self.entries.is_empty()
    }

    /// The pair at this index in the order of the keys' coming, counted from 0.
    pub fn pair(&self, at: usize) -> Option<(&K, &T)>
        ensures { option_map deref_pair result ≡ slice_get self.now at }
    {
        self.entries.get_index(at)
    }

    /// The key's value.
    #[tactic(auto, using(crate::proofs::Words::kit_words))]
    pub fn get(&self, key: &K) -> Option<&T>
        ensures { option_copied result ≡ entry_of K.eq key.now self.now }
    {
        self.entries.get(key)
    }

    /// Whether the key has a value.
    #[tactic(auto, using(crate::proofs::Words::kit_words))]
    pub fn contains_key(&self, key: &K) -> bool
        ensures { result ≡ is_some (entry_of K.eq key.now self.now) }
    {
        self.entries.contains_key(key)
    }

    /// Puts the value at the key, and gives the value that the key had. A key that is there keeps
    /// its place, and a new one comes last.
    ///
    /// Memory is needed, and may be missing, only for a new key; then the map is as before.
    #[tactic(auto, using(crate::proofs::Words::kit_words))]
    pub fn put(&mut self, key: K, value: T) -> Result<Option<T>, AllocError>
        ensures put { OnOk result (self.new ≡ with_pair K.eq key value self.old) }
        ensures before { IfOk result (λ before. before ≡ entry_of K.eq key self.old) }
        ensures memory { OnErr result (entry_of K.eq key self.old ≡ None) }
        ensures unchanged { OnErr result (self.new ≡ self.old) }
    {
        Ok(self.entries.insert(key, value)?)
    }

    /// Takes the key's pair away, and gives its value. The other pairs keep their order. Takes no
    /// memory.
    #[tactic(auto, using(crate::proofs::Words::kit_words))]
    pub fn remove(&mut self, key: &K) -> Option<T>
        ensures value { result ≡ entry_of K.eq key.now self.old }
        ensures without { self.new ≡ without_key K.eq key.now self.old }
    {
        self.entries.shift_remove(key)
    }

    /// The same map once more.
    pub fn try_clone(&self) -> Result<InsertionMap<K, T>, AllocError>
    where
        K: Clone,
        T: Clone,
        requires keys { (x y : K) → K.is_clone x y → y ≡ x }
        requires values { (x y : T) → T.is_clone x y → y ≡ x }
        ensures { IfOk result (λ map. map ≡ self.now) }
    {
        Ok(InsertionMap {
            entries: self.entries.clone()?,
        })
    }
}
