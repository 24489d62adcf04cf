//! What a dictionary does to its list of pairs.
ghost use Rattle.std.specs.Prelude.{◌≡◌, false, None, OnOk, OnErr, is_some, option_copied};
ghost use Rattle.rc_dict.specs.Dict.{IsDict, entry, put, without, all_settled, same_entry, first_changed};

use crate::update::DictUpdate;
use sorted_pairs::place;
use std::alloc::AllocError;

// The key's value.
pub(crate) fn entry<'a, K: Ord, T>(pairs: &'a [(K, T)], key: &K) -> Option<&'a T>
    requires { IsDict K.cmp pairs.now }
    ensures { option_copied result ≡ entry K.cmp key.now pairs.now }
{
    match place(pairs, key) {
        Ok(at) => Some(&pairs[at].1),
        Err(_) => None,
    }
}

// Puts the pair. Memory is needed, and may be missing, only for a key that has no value yet.
pub(crate) fn put<K: Ord + Drop, T: Drop>(
    pairs: &mut Vec<(K, T)>,
    key: K,
    value: T,
) -> Result<(), AllocError>
    requires { IsDict K.cmp pairs.old.items }
    ensures put { OnOk result (pairs.new.items ≡ put K.cmp key value pairs.old.items) }
    ensures dict { IsDict K.cmp pairs.new.items }
    ensures memory { OnErr result (entry K.cmp key pairs.old.items ≡ None) }
    ensures unchanged { OnErr result (pairs.new.items ≡ pairs.old.items) }
{
    match place(pairs, &key) {
        Ok(at) => {
            pairs[at] = (key, value);
            Ok(())
        }
        Err(at) => Ok(pairs.insert(at, (key, value))?),
    }
}

// Takes the key's pair away, and says whether there was one.
pub(crate) fn remove<K: Ord + Drop, T: Drop>(pairs: &mut Vec<(K, T)>, key: &K) -> bool
    requires { IsDict K.cmp pairs.old.items }
    ensures found { result ≡ is_some (entry K.cmp key.now pairs.old.items) }
    ensures without { pairs.new.items ≡ without K.cmp key.now pairs.old.items }
    ensures dict { IsDict K.cmp pairs.new.items }
    ensures unchanged { result ≡ false → pairs.new.items ≡ pairs.old.items }
{
    match place(pairs, key) {
        Ok(at) => {
            pairs.remove(at);
            true
        }
        Err(_) => false,
    }
}

// Applies the updates in order. A removal of a key that has no value changes nothing.
pub(crate) fn settle<K: Ord + Clone + Drop, T: Clone + Drop>(
    pairs: &mut Vec<(K, T)>,
    updates: &[DictUpdate<K, T>],
) -> Result<(), AllocError>
    requires dict { IsDict K.cmp pairs.old.items }
    requires keys { (x y : K) → K.is_clone x y → y ≡ x }
    requires values { (x y : T) → T.is_clone x y → y ≡ x }
    ensures settled { OnOk result
        (pairs.new.items ≡ all_settled K.cmp updates.now pairs.old.items) }
    ensures dict { IsDict K.cmp pairs.new.items }
{
    for update in updates {
        match update {
            DictUpdate::Put(key, value) => put(pairs, key.clone()?, value.clone()?)?,
            DictUpdate::Remove(key) => {
                remove(pairs, key);
            }
        }
    }
    Ok(())
}

// The index of the first update whose key's entry at the place isn't the one at the view.
pub(crate) fn first_changed<K: Ord, T: Ord>(
    view: &[(K, T)],
    place: &[(K, T)],
    updates: &[DictUpdate<K, T>],
) -> Option<u64>
    requires view { IsDict K.cmp view.now }
    requires place { IsDict K.cmp place.now }
    ensures { result ≡ first_changed K.cmp T.cmp view.now place.now 0 updates.now }
{
    for (at, update) in updates.iter().enumerate() {
        let key = update.key();
        if !is_same(entry(view, key), entry(place, key)) {
            return Some(at as u64);
        }
    }
    None
}

// Whether there is no value twice, or values that compare as equal.
fn is_same<T: Ord>(before: Option<&T>, now: Option<&T>) -> bool
    ensures { result ≡ same_entry T.cmp (option_copied before.entry) (option_copied now.entry) }
{
    match (before, now) {
        (None, None) => true,
        (Some(before), Some(now)) => before.cmp(now).is_eq(),
        _ => false,
    }
}
