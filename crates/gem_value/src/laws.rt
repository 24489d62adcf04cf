//! What follows from the definitions alone. Each law is the contract of a function that does
//! nothing.
ghost use Rattle.std.specs.Prelude.{◌≡◌, ◌^◌, ◌<◌, ℕ};
ghost use Rattle.std.specs.Ordering.{nat_cmp, ordering_then};
ghost use Rattle.gem_value.specs.Oid.{oid_number, serial_of, counter_of};
ghost use Rattle.gem_value.specs.Conflict.{kind_number};
ghost use Rattle.gem_value.specs.declared.conflict.Conflict.{Conflict};
ghost use Rattle.gem_value.specs.declared.conflict.ConflictKind.{ConflictKind};

use crate::{Conflict, ConflictKind, Oid};

/// A serial and a counter below 2^24 make a name of which they are the serial and the counter, and
/// every name is made so.
pub fn oid_parts()
    ensures serial { (serial counter : ℕ) → counter < 2 ^ 24 →
        serial_of (oid_number serial counter) ≡ serial }
    ensures counter { (serial counter : ℕ) → counter < 2 ^ 24 →
        counter_of (oid_number serial counter) ≡ counter }
    ensures bound { (serial counter : ℕ) → serial < 2 ^ 24 → counter < 2 ^ 24 →
        oid_number serial counter < 2 ^ 48 }
    ensures back { (number : ℕ) → oid_number (serial_of number) (counter_of number) ≡ number }
{}

/// Names are ordered by their numbers, so by their serials, and by their counters where the serials
/// are equal.
pub fn oid_order()
    ensures number { (number other : ℕ) → ⟦<Oid as Ord>⟧.cmp number other ≡ nat_cmp number other }
    ensures parts { (number other : ℕ) → ⟦<Oid as Ord>⟧.cmp number other
        ≡ ordering_then (nat_cmp (serial_of number) (serial_of other))
        (nat_cmp (counter_of number) (counter_of other)) }
{}

/// Kinds of conflict with the same number are the same.
pub fn one_kind_a_number()
    ensures { (kind other : ConflictKind) → kind_number kind ≡ kind_number other → kind ≡ other }
{}

/// Kinds of conflict are ordered by their numbers.
pub fn kind_order()
    ensures { (kind other : ConflictKind) → ⟦<ConflictKind as Ord>⟧.cmp kind other
        ≡ nat_cmp (kind_number kind) (kind_number other) }
{}

/// Conflicts are ordered by their objects, then by their kinds, and then by what is shown.
pub fn conflict_order()
    ensures { (conflict other : Conflict) → ⟦<Conflict as Ord>⟧.cmp conflict other
        ≡ ordering_then (nat_cmp conflict.oid other.oid)
        (ordering_then (nat_cmp (kind_number conflict.kind) (kind_number other.kind))
        (nat_cmp conflict.shown other.shown)) }
{}
