//! What holds of every counter and every bag. Each law is the contract of a function that does
//! nothing, and speaks of the definitions of update and merge alone.
ghost use Rattle.std.specs.Prelude.{◌≡◌, ◌↔◌, ℕ, ℤ, List, map, take, slice_get, if◌then◌else◌, Some, None, Ok, Err, IsOk};
ghost use Rattle.std.specs.Ordering.{is_eq};
ghost use Rattle.std.specs.declared.cmp.Ordering.TheVariants.{Equal};
ghost use Rattle.rc_counter_bag.specs.Bag.{IsBag, one_more, one_less, count, updated, merged};
ghost use Rattle.rc_counter_bag.specs.Turns.{raised_twice, sums_merged, updated_twice, merged_twice};
ghost use Rattle.rc_counter_bag.specs.declared.update.BagUpdate.{BagUpdate};
ghost use Rattle.rc_counter_bag.specs.declared.update.BagUpdate.TheVariants.{Add, Remove};

/// Increments of a counter, and adds to a bag, give the same object in either order where neither
/// order is refused; adds never are. So do the merges of two sessions that only add.
///
/// A bag keeps the item that was added first. So two items that compare as equal and differ leave
/// the same occurrences in either order, and the same pairs where no such items are added.
pub fn adds_commute<T: Ord>()
    ensures increments { (value first second one other : ℤ)
        → raised_twice first second value ≡ Some one
        → raised_twice second first value ≡ Some other → one ≡ other }
    ensures merged_increments { (view place : ℤ) (first second : List ℤ) (one other : ℤ)
        → sums_merged view place first second ≡ Some one
        → sums_merged view place second first ≡ Some other → one ≡ other }
    ensures adds { (pairs : List (T × ℕ)) (first second : T)
        → (T.cmp first second ≡ Equal → first ≡ second)
        → updated_twice T.cmp (Add first) (Add second) pairs
        ≡ updated_twice T.cmp (Add second) (Add first) pairs }
    ensures occurrences { (pairs one other : List (T × ℕ)) (first second item : T)
        → IsBag T.cmp pairs
        → updated_twice T.cmp (Add first) (Add second) pairs ≡ Some one
        → updated_twice T.cmp (Add second) (Add first) pairs ≡ Some other
        → count T.cmp item one ≡ count T.cmp item other }
    ensures merged_adds { (view place : List (T × ℕ)) (first second : List T)
        → ((x y : T) → T.cmp x y ≡ Equal → x ≡ y)
        → merged_twice T.cmp view place (map Add first) (map Add second)
        ≡ merged_twice T.cmp view place (map Add second) (map Add first) }
    ensures never_refused { (view place : List (T × ℕ)) (first second : List T)
        → IsOk (merged_twice T.cmp view place (map Add first) (map Add second)) }
{}

/// An add raises the occurrences of its item by one, and a removal lowers them by one, and no
/// other's; occurrences that have come to 2^64 - 1 stay there. A removal is refused exactly where
/// the item doesn't occur. A bag stays one.
pub fn occurrences_follow<T: Ord>()
    ensures add { (pairs more : List (T × ℕ)) (added item : T)
        → IsBag T.cmp pairs → updated T.cmp (Add added) pairs ≡ Some more
        → count T.cmp item more ≡ (if is_eq (T.cmp added item)
        then one_more (count T.cmp item pairs) else count T.cmp item pairs) }
    ensures removal { (pairs less : List (T × ℕ)) (removed item : T)
        → IsBag T.cmp pairs → updated T.cmp (Remove removed) pairs ≡ Some less
        → count T.cmp item less ≡ (if is_eq (T.cmp removed item)
        then one_less (count T.cmp item pairs) else count T.cmp item pairs) }
    ensures refusal { (pairs : List (T × ℕ)) (removed : T) → IsBag T.cmp pairs
        → (updated T.cmp (Remove removed) pairs ≡ None) ↔ (count T.cmp removed pairs ≡ 0) }
    ensures bag { (update : BagUpdate T) (pairs after : List (T × ℕ))
        → IsBag T.cmp pairs → updated T.cmp update pairs ≡ Some after → IsBag T.cmp after }
{}

/// The index that a merge is refused at is that of a removal whose item doesn't occur after the
/// updates before it, which merge.
pub fn first_refusal<T: Ord>()
    ensures { (view place : List (T × ℕ)) (updates : List (BagUpdate T)) (at : ℕ)
        → merged T.cmp view place updates ≡ Err at
        → (before : List (T × ℕ)) × (item : T)
        × (merged T.cmp view place (take at updates) ≡ Ok before)
        × (slice_get updates at ≡ Some (Remove item)) × (count T.cmp item before ≡ 0) }
{}
