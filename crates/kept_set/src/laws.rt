//! What follows from the definitions alone. Each law is the contract of a function that does
//! nothing.
ghost use Rattle.std.specs.Prelude.{◌≡◌, ◌↔◌, ℕ, List, Some, IsSome};
ghost use Rattle.std.specs.Ordering.{nat_cmp};
ghost use Rattle.sorted_pairs.specs.Place.{Ascends};
ghost use Rattle.gem_object.specs.declared.object.Object.{Object};
ghost use Rattle.kept_set.specs.Kept.{Objects, object_of, IsKept, kept_of};

/// The kept objects are made ones whose names are those of the smallest set, in the order of the
/// made names.
pub fn kept_is_smallest()
    ensures names { (roots : List ℕ) (made : Objects) (name : ℕ) →
        IsSome (object_of name (kept_of roots made)) ↔ IsKept roots made name }
    ensures objects { (roots : List ℕ) (made : Objects) (name : ℕ) (object : Object) →
        object_of name (kept_of roots made) ≡ Some object → object_of name made ≡ Some object }
    ensures order { (roots : List ℕ) (made : Objects) →
        Ascends nat_cmp made → Ascends nat_cmp (kept_of roots made) }
{}
