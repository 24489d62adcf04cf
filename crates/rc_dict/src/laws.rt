//! What holds of every dictionary. Each law is the contract of a function that does nothing, and
//! speaks of the definitions of update and merge alone.
ghost use Rattle.std.specs.Prelude.{◌≡◌, ◌↔◌, ℕ, List, false, take, slice_get, if◌then◌else◌, Some, None, Ok, Err, IsOk};
ghost use Rattle.std.specs.Ordering.{is_eq};
ghost use Rattle.std.specs.declared.cmp.Ordering.TheVariants.{Equal};
ghost use Rattle.rc_dict.specs.Dict.{IsDict, key_of, value_of, entry, updated, is_same_at, last_entry, merged};
ghost use Rattle.rc_dict.specs.Turns.{updated_twice, AreApart, merged_twice};
ghost use Rattle.rc_dict.specs.declared.update.DictUpdate.{DictUpdate};
ghost use Rattle.rc_dict.specs.declared.update.DictUpdate.TheVariants.{Put, Remove};

/// Puts of distinct keys give the same dictionary in either order; a put is never refused.
///
/// So do the merges of two sessions that update no key in common, where no keys that differ compare
/// as equal: if each merges at a place, both merge there, one after the other.
pub fn adds_commute<K: Ord, T: Ord>()
    ensures puts { (pairs : List (K × T)) (one other : K) (x y : T)
        → is_eq (K.cmp one other) ≡ false
        → updated_twice K.cmp (Put one x) (Put other y) pairs
        ≡ updated_twice K.cmp (Put other y) (Put one x) pairs }
    ensures merges { (view place : List (K × T)) (first second : List (DictUpdate K T))
        → ((j k : K) → K.cmp j k ≡ Equal → j ≡ k)
        → IsDict K.cmp place → AreApart K.cmp first second
        → IsOk (merged K.cmp T.cmp view place first)
        → IsOk (merged K.cmp T.cmp view place second)
        → merged_twice K.cmp T.cmp view place first second
        ≡ merged_twice K.cmp T.cmp view place second first }
    ensures merges_stand { (view place : List (K × T)) (first second : List (DictUpdate K T))
        → IsDict K.cmp place → AreApart K.cmp first second
        → IsOk (merged K.cmp T.cmp view place first)
        → IsOk (merged K.cmp T.cmp view place second)
        → IsOk (merged_twice K.cmp T.cmp view place first second) }
{}

/// An update leaves its value, or none, at its key, and every other key as it was. A removal is
/// refused exactly where its key has no value. A dictionary stays one.
pub fn entries_follow<K: Ord, T: Ord>()
    ensures entries { (update : DictUpdate K T) (pairs after : List (K × T)) (key : K)
        → IsDict K.cmp pairs → updated K.cmp update pairs ≡ Some after
        → entry K.cmp key after
        ≡ (if is_eq (K.cmp (key_of update) key) then value_of update else entry K.cmp key pairs) }
    ensures refusal { (pairs : List (K × T)) (removed : K)
        → (updated K.cmp (Remove removed) pairs ≡ None) ↔ (entry K.cmp removed pairs ≡ None) }
    ensures dict { (update : DictUpdate K T) (pairs after : List (K × T))
        → IsDict K.cmp pairs → updated K.cmp update pairs ≡ Some after → IsDict K.cmp after }
{}

/// The last update of each key stands after a merge, and a key without one stays as it was. The
/// entries tell what dictionary it is, where no keys that differ compare as equal.
pub fn last_update_stands<K: Ord, T: Ord>()
    ensures last { (view place after : List (K × T)) (updates : List (DictUpdate K T)) (key : K)
        → IsDict K.cmp place → merged K.cmp T.cmp view place updates ≡ Ok after
        → entry K.cmp key after ≡ last_entry K.cmp key updates (entry K.cmp key place) }
    ensures told { (one other : List (K × T)) → ((j k : K) → K.cmp j k ≡ Equal → j ≡ k)
        → IsDict K.cmp one → IsDict K.cmp other
        → ((key : K) → entry K.cmp key one ≡ entry K.cmp key other) → one ≡ other }
{}

/// The index that a merge is refused at is that of an update whose key was changed since the view,
/// and the updates before it merge.
pub fn first_refusal<K: Ord, T: Ord>()
    ensures { (view place : List (K × T)) (updates : List (DictUpdate K T)) (at : ℕ)
        → merged K.cmp T.cmp view place updates ≡ Err at
        → (update : DictUpdate K T) × (slice_get updates at ≡ Some update)
        × (is_same_at K.cmp T.cmp (key_of update) view place ≡ false)
        × IsOk (merged K.cmp T.cmp view place (take at updates)) }
{}
