//! What follows from the definitions alone. Each law is the contract of a function that does
//! nothing.
ghost use Rattle.std.specs.Prelude.{◌≡◌, ◌<◌, ◌++◌, ℕ, List, All, Ok, length};
ghost use Rattle.gem_object.specs.Sizes.{object_size};
ghost use Rattle.gem_object.specs.declared.object.Object.{Object};
ghost use Rattle.gem_record.specs.Effects.{effect_size};
ghost use Rattle.gem_record.specs.declared.effect.Effect.{Effect};
ghost use Rattle.body_codec.specs.Spelled.{spelled_object, spelled_effect};
ghost use Rattle.body_codec.specs.Stored.{TellsApart, IsStored, IsStoredEffect};
ghost use Rattle.body_codec.specs.ReadingBodies.{object_at, effect_at};

/// Objects and effects have one spelling each, and none is the front of another. The number of the
/// commit isn't in it, so it is said of objects and effects of the same number.
pub fn no_prefix()
    ensures objects { (number : ℕ) → TellsApart (IsStored number) spelled_object }
    ensures effects { (number : ℕ) → TellsApart (IsStoredEffect number) spelled_effect }
{}

/// A spelling is as long as the size says.
pub fn length_is_size()
    ensures objects { (object : Object) → length (spelled_object object) ≡ object_size object }
    ensures effects { (effect : Effect) → length (spelled_effect effect) ≡ effect_size effect }
{}

/// What has a spelling is read from it, whatever stands behind; and whatever is read of bytes is
/// spelled by those that were taken.
pub fn reading_is_exact()
    ensures objects { (number : ℕ) (object : Object) (rest : List ℕ) → IsStored number object
        → object_at number (spelled_object object ++ rest) ≡ Ok (object, rest) }
    ensures only_objects { (number : ℕ) (bytes : List ℕ) (object : Object) (rest : List ℕ)
        → All (λ byte. byte < 256) bytes → object_at number bytes ≡ Ok (object, rest)
        → IsStored number object × (bytes ≡ spelled_object object ++ rest) }
    ensures effects { (number : ℕ) (effect : Effect) (rest : List ℕ) → IsStoredEffect number effect
        → effect_at number (spelled_effect effect ++ rest) ≡ Ok (effect, rest) }
    ensures only_effects { (number : ℕ) (bytes : List ℕ) (effect : Effect) (rest : List ℕ)
        → All (λ byte. byte < 256) bytes → effect_at number bytes ≡ Ok (effect, rest)
        → IsStoredEffect number effect × (bytes ≡ spelled_effect effect ++ rest) }
{}
