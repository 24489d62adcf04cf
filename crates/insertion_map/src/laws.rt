//! What holds of every map. Each law is the contract of a function that does nothing, and speaks of
//! the definitions alone.
ghost use Rattle.std.specs.Prelude.{◌≡◌, List, [], ◌∷◌, ◌++◌, true, false, not, map, filter, if◌then◌else◌, Some, None, IsSome};
ghost use Rattle.insertion_map.specs.Pairs.{AreDistinct, entry_of, with_pair, without_key};

/// A put leaves its value at its key, and at every other key what was there. No key stands twice
/// after it.
pub fn put_is_shown<K: Eq, T>()
    ensures entries { (pairs : List (K × T)) (put key : K) (value : T)
        → entry_of K.eq key (with_pair K.eq put value pairs)
        ≡ (if K.eq put key then Some value else entry_of K.eq key pairs) }
    ensures distinct { (pairs : List (K × T)) (key : K) (value : T)
        → AreDistinct K.eq pairs → AreDistinct K.eq (with_pair K.eq key value pairs) }
{}

/// A put of a new key adds its pair at the end. A put of a key that is there leaves the keys as
/// they are.
pub fn put_keeps_order<K: Eq, T>()
    ensures new { (pairs : List (K × T)) (key : K) (value : T) → entry_of K.eq key pairs ≡ None
        → with_pair K.eq key value pairs ≡ pairs ++ (key, value) ∷ [] }
    ensures present { (pairs : List (K × T)) (key : K) (value : T)
        → IsSome (entry_of K.eq key pairs)
        → map (λ pair. pair.0) (with_pair K.eq key value pairs) ≡ map (λ pair. pair.0) pairs }
{}

/// Of two puts of one key the last counts. Puts of two keys may change places if one of the keys is
/// there already.
pub fn puts_follow<K: Eq, T>()
    ensures twice { (pairs : List (K × T)) (one other : K) (x y : T) → K.eq one other ≡ true
        → with_pair K.eq other y (with_pair K.eq one x pairs) ≡ with_pair K.eq one y pairs }
    ensures apart { (pairs : List (K × T)) (one other : K) (x y : T) → K.eq one other ≡ false
        → IsSome (entry_of K.eq other pairs)
        → with_pair K.eq other y (with_pair K.eq one x pairs)
        ≡ with_pair K.eq one x (with_pair K.eq other y pairs) }
{}

/// A removed key is gone, and every other key has what it had. The other pairs stay in their order,
/// and all of them where the key had no value. No key stands twice after it.
pub fn removed_is_gone<K: Eq, T>()
    ensures entries { (pairs : List (K × T)) (removed key : K) → AreDistinct K.eq pairs
        → entry_of K.eq key (without_key K.eq removed pairs)
        ≡ (if K.eq removed key then None else entry_of K.eq key pairs) }
    ensures others { (pairs : List (K × T)) (removed : K) → AreDistinct K.eq pairs
        → without_key K.eq removed pairs ≡ filter (λ pair. not (K.eq removed pair.0)) pairs }
    ensures absent { (pairs : List (K × T)) (removed : K) → entry_of K.eq removed pairs ≡ None
        → without_key K.eq removed pairs ≡ pairs }
    ensures distinct { (pairs : List (K × T)) (removed : K)
        → AreDistinct K.eq pairs → AreDistinct K.eq (without_key K.eq removed pairs) }
{}
