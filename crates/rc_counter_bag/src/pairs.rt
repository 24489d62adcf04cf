//! What a bag does to its list of pairs.
ghost use Rattle.std.specs.Prelude.{◌≡◌, ◌==◌, ◌-◌, ◌^◌, ◌↔◌, ◌<◌, if◌then◌else◌, ℕ, false, Some, None, Ok, Err, IsTrue, OnOk, OnErr, IsErrOf};
ghost use Rattle.rc_counter_bag.specs.Bag.{IsBag, one_less, size, count, with_one_more, with_one_less, replayed};

use crate::update::{BagFault, BagUpdate};
use sorted_pairs::{ascend, place};
use std::alloc::AllocError;

// How often the item occurs.
pub(crate) fn count<T: Ord>(pairs: &[(T, u64)], item: &T) -> u64
    requires { IsBag T.cmp pairs.now }
    ensures { result ≡ count T.cmp item.now pairs.now }
{
    match place(pairs, item) {
        Ok(at) => pairs[at].1,
        Err(_) => 0,
    }
}

// Adds one occurrence. Memory is needed, and may be missing, only for an item that doesn't occur
// yet.
pub(crate) fn add<T: Ord + Drop>(pairs: &mut Vec<(T, u64)>, item: T) -> Result<(), AllocError>
    requires { IsBag T.cmp pairs.old.items }
    ensures added { OnOk result (pairs.new.items ≡ with_one_more T.cmp item pairs.old.items) }
    ensures bag { IsBag T.cmp pairs.new.items }
    ensures memory { OnErr result (count T.cmp item pairs.old.items ≡ 0) }
    ensures unchanged { OnErr result (pairs.new.items ≡ pairs.old.items) }
{
    match place(pairs, &item) {
        Ok(at) => {
            let pair = &mut pairs[at];
            pair.1 = pair.1.saturating_add(1);
            Ok(())
        }
        Err(at) => Ok(pairs.insert(at, (item, 1))?),
    }
}

// Takes one occurrence away. False, and nothing changes, where there is none.
pub(crate) fn remove<T: Ord + Drop>(pairs: &mut Vec<(T, u64)>, item: &T) -> bool
    requires { IsBag T.cmp pairs.old.items }
    ensures removed { IsTrue result
        → with_one_less T.cmp item.now pairs.old.items ≡ Some pairs.new.items }
    ensures bag { IsBag T.cmp pairs.new.items }
    ensures missing { result ≡ false → with_one_less T.cmp item.now pairs.old.items ≡ None }
    ensures unchanged { result ≡ false → pairs.new.items ≡ pairs.old.items }
{
    let Ok(at) = place(pairs, item) else {
        return false;
    };
    let last = pairs[at].1 == 1;
    if last {
        pairs.remove(at);
    } else {
        let pair = &mut pairs[at];
        pair.1 = one_less(pair.1);
    }
    true
}

// One occurrence less, unless the count stands at its end.
fn one_less(occurrences: u64) -> u64
    requires { 0 < occurrences }
    ensures { result ≡ one_less occurrences }
{
    if occurrences == u64::MAX {
        occurrences
    } else {
        occurrences - 1
    }
}

// Applies the updates in order, until one is refused.
pub(crate) fn replay<T: Ord + Clone + Drop>(
    pairs: &mut Vec<(T, u64)>,
    updates: &[BagUpdate<T>],
) -> Result<(), BagFault>
    requires bag { IsBag T.cmp pairs.old.items }
    requires clones { (x y : T) → T.is_clone x y → y ≡ x }
    ensures replayed { OnOk result
        (replayed T.cmp 0 updates.now pairs.old.items ≡ Ok pairs.new.items) }
    ensures bag { IsBag T.cmp pairs.new.items }
    ensures missing { (at : ℕ) → IsErrOf result (BagFault.Missing at)
        → replayed T.cmp 0 updates.now pairs.old.items ≡ Err at }
{
    for (at, update) in updates.iter().enumerate() {
        match update {
            BagUpdate::Add(item) => add(pairs, item.clone()?)?,
            BagUpdate::Remove(item) => {
                if !remove(pairs, item) {
                    return Err(BagFault::Missing(at as u64));
                }
            }
        }
    }
    Ok(())
}

// Whether the items ascend strictly and each occurs.
pub(crate) fn is_bag<T: Ord>(pairs: &[(T, u64)]) -> bool
    ensures { IsTrue result ↔ IsBag T.cmp pairs.now }
{
    ascend(pairs) && pairs.iter().all(|pair| pair.1 > 0)
}

// The sum of the occurrences, 2^64 - 1 at most.
pub(crate) fn size<T>(pairs: &[(T, u64)]) -> u64
    ensures { result ≡ size pairs.now }
{
    let mut sum = 0u64;
    for pair in pairs {
        sum = sum.saturating_add(pair.1);
    }
    sum
}

// The size of the pairs of which a removal took one, where it was this before. A size at its end
// doesn't tell how many there are, so it is summed up again.
pub(crate) fn size_after<T>(before: u64, pairs: &[(T, u64)]) -> u64
    ensures { result ≡ (if before == 2 ^ 64 - 1 then size pairs.now else before - 1) }
{
    if before == u64::MAX {
        size(pairs)
    } else {
        before.saturating_sub(1)
    }
}
