//! What follows from the definitions alone. Each law is the contract of a function that does
//! nothing.
ghost use Rattle.std.specs.Prelude.{◌≡◌, ◌≢◌, ◌↔◌, ◌≤◌, ◌+◌, ℕ, List, None, IsSome};
ghost use Rattle.std.specs.FinMap as map;
ghost use Rattle.lock_table.specs.LockKind.{kind_granted};
ghost use Rattle.lock_table.specs.Locks.{LockSet, LockEvent, kind_held, after_held, after_dropped, after_left, locks_after_event, locks_after, IsInTheWay, IsDenied, IsLowestHolder, denied_for};
ghost use Rattle.lock_table.specs.Granted.{MayFollow, AreGranted, IsExclusive};
ghost use Rattle.lock_table.specs.declared.lock.LockKind.{LockKind};

/// A request is denied for at most one session, the one that `denied_for` names, and for none just
/// where nobody is in its way.
pub fn denied_for_the_lowest()
    ensures request { (locks : LockSet) (session oid : ℕ) (kind : LockKind)
        (holder : ℕ) (held : LockKind) →
        (denied_for locks session oid kind ≡ Some (holder, held))
        ↔ IsDenied locks session oid kind holder held }
    ensures nobody { (locks : LockSet) (session oid : ℕ) (kind : LockKind) →
        (denied_for locks session oid kind ≡ None)
        ↔ ((holder : ℕ) (held : LockKind) → ¬ IsInTheWay locks session oid kind holder held) }
    ensures holder { (locks : LockSet) (session oid holder : ℕ) (held : LockKind) →
        (denied_for locks session oid LockKind.Write ≡ Some (holder, held))
        ↔ IsLowestHolder locks session oid holder held }
{}

/// A lock that is granted changes how this session holds this object, and nothing else.
pub fn held_changes_one()
    ensures this { (locks : LockSet) (session oid : ℕ) (kind : LockKind) →
        kind_held (after_held locks session oid kind) session oid
        ≡ Some (kind_granted (kind_held locks session oid) kind) }
    ensures others { (locks : LockSet) (session oid : ℕ) (kind : LockKind)
        (other object : ℕ) → (other ≡ session → object ≢ oid) →
        kind_held (after_held locks session oid kind) other object
        ≡ kind_held locks other object }
{}

/// A lock that is dropped is gone, and every other stays.
pub fn dropped_changes_one()
    ensures this { (locks : LockSet) (session oid : ℕ) →
        kind_held (after_dropped locks session oid) session oid ≡ None }
    ensures others { (locks : LockSet) (session oid other object : ℕ) →
        (other ≡ session → object ≢ oid) →
        kind_held (after_dropped locks session oid) other object
        ≡ kind_held locks other object }
{}

/// A session that has left holds nothing, and every other session's locks stay.
pub fn left_changes_one_session()
    ensures this { (locks : LockSet) (session oid : ℕ) →
        kind_held (after_left locks session) session oid ≡ None }
    ensures others { (locks : LockSet) (session other oid : ℕ) → other ≢ session →
        kind_held (after_left locks session) other oid ≡ kind_held locks other oid }
{}

/// A grant adds at most one lock. What is given up takes at least one where one was held, and
/// changes nothing where none was.
pub fn counts_of_locks()
    ensures held { (locks : LockSet) (session oid : ℕ) (kind : LockKind) →
        map.len (after_held locks session oid kind) ≤ map.len locks + 1 }
    ensures dropped { (locks : LockSet) (session oid : ℕ) →
        IsSome (kind_held locks session oid) →
        map.len (after_dropped locks session oid) + 1 ≡ map.len locks }
    ensures dropped_none { (locks : LockSet) (session oid : ℕ) →
        kind_held locks session oid ≡ None → after_dropped locks session oid ≡ locks }
    ensures left { (locks : LockSet) (session oid : ℕ) →
        IsSome (kind_held locks session oid) →
        map.len (after_left locks session) + 1 ≤ map.len locks }
    ensures left_none { (locks : LockSet) (session : ℕ) →
        ((oid : ℕ) → kind_held locks session oid ≡ None) → after_left locks session ≡ locks }
{}

/// Where each lock was granted with no other session in its way, whoever holds an object to write
/// holds it alone: after one more event, and after all of them, the oldest first.
pub fn exclusive()
    ensures event { (locks : LockSet) (event : LockEvent) → MayFollow locks event →
        IsExclusive locks → IsExclusive (locks_after_event locks event) }
    ensures events { (events : List LockEvent) → AreGranted events →
        IsExclusive (locks_after events) }
{}
