//! What holds of every queue. Each law is the contract of a function that does nothing, and speaks
//! of the definitions of update and merge alone.
ghost use Rattle.std.specs.Prelude.{◌≡◌, ◌≢◌, ℕ, ◌+◌, ◌<◌, ◌≤◌, min, List, ◌++◌, map, length, take, slice_get, Some, Ok, Err, IsSome, IsOk, option_map, true};
ghost use Rattle.std.specs.List.{AllZip};
ghost use Rattle.std.specs.declared.cmp.Ordering.TheVariants.{Equal};
ghost use Rattle.rc_queue.specs.Contents.{Contents};
ghost use Rattle.rc_queue.specs.Update.{most_removals, updated, merged, first_removal, is_removal, added_items, removed_items};
ghost use Rattle.rc_queue.specs.Turns.{updated_twice, merged_twice};
ghost use Rattle.rc_queue.specs.declared.update.QueueUpdate.{QueueUpdate};
ghost use Rattle.rc_queue.specs.declared.update.QueueUpdate.TheVariants.{Add, Remove};

/// On a queue that holds an item, an add and the removal of its front give the same queue in either
/// order, and neither order is refused. So do the merges of a session that adds and of one that
/// removes.
pub fn ends_commute<T: Ord>()
    ensures front_goes { (queue : Contents T) (front : T)
        → slice_get queue.items 0 ≡ Some front → IsSome (updated T.cmp (Remove front) queue) }
    ensures updates { (queue : Contents T) (front added : T)
        → IsSome (updated T.cmp (Remove front) queue)
        → updated_twice T.cmp (Add added) (Remove front) queue
        ≡ updated_twice T.cmp (Remove front) (Add added) queue }
    ensures neither_refused { (queue : Contents T) (front added : T)
        → IsSome (updated T.cmp (Remove front) queue)
        → IsSome (updated_twice T.cmp (Add added) (Remove front) queue) }
    ensures merges { (view place : Contents T) (added taken : List T)
        → IsOk (merged T.cmp view place (map Remove taken))
        → merged_twice T.cmp view place (map Add added) (map Remove taken)
        ≡ merged_twice T.cmp view place (map Remove taken) (map Add added) }
    ensures merges_stand { (view place : Contents T) (added taken : List T)
        → IsOk (merged T.cmp view place (map Remove taken))
        → IsOk (merged_twice T.cmp view place (map Add added) (map Remove taken)) }
{}

/// The index that a merge is refused at is that of a removal, and the updates before it merge.
pub fn first_refusal<T: Ord>()
    ensures removal { (view place : Contents T) (updates : List (QueueUpdate T)) (at : ℕ)
        → merged T.cmp view place updates ≡ Err at
        → option_map is_removal (slice_get updates at) ≡ Some true }
    ensures none_before { (view place : Contents T) (updates : List (QueueUpdate T)) (at : ℕ)
        → merged T.cmp view place updates ≡ Err at
        → IsOk (merged T.cmp view place (take at updates)) }
{}

/// A merge neither loses items nor makes any. The items of the place and then those added are, in
/// order, those that went and those that stay; what went is, one by one, what the removals named,
/// and the count of removals rose by their number.
pub fn nothing_lost<T: Ord>()
    ensures items { (view place after : Contents T) (updates : List (QueueUpdate T))
        → merged T.cmp view place updates ≡ Ok after
        → (gone : List T) × (place.items ++ added_items updates ≡ gone ++ after.items)
        × AllZip (λ item named. T.cmp item named ≡ Equal) gone (removed_items updates) }
    ensures count { (view place after : Contents T) (updates : List (QueueUpdate T))
        → merged T.cmp view place updates ≡ Ok after → place.removed ≤ most_removals
        → after.removed ≡ min (place.removed + length (removed_items updates)) most_removals }
{}

/// No front is handed out twice: where a front was removed since the view, a merge with a removal
/// is refused at its first one. So once a session's removal is merged, the next session that worked
/// at the same view merges none. The count of removals must be able to tell, so it is below its
/// end.
pub fn front_goes_once<T: Ord>()
    ensures removed_since { (view place : Contents T) (updates : List (QueueUpdate T)) (at : ℕ)
        → view.removed ≢ place.removed
        → first_removal 0 updates ≡ Some at → merged T.cmp view place updates ≡ Err at }
    ensures next_session { (view place after : Contents T)
        (first second : List (QueueUpdate T)) (i j : ℕ)
        → view.removed < most_removals → merged T.cmp view place first ≡ Ok after
        → first_removal 0 first ≡ Some i → first_removal 0 second ≡ Some j
        → merged T.cmp view after second ≡ Err j }
{}
