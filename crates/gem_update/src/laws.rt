//! What follows from the definitions alone. Each law is the contract of a function that does
//! nothing.
ghost use Rattle.std.specs.Prelude.{◌≡◌, ◌↔◌, ◌<◌, ◌^◌, Some, IsSome, true, All, List};
ghost use Rattle.gem_object.specs.Kinds.{is_shared, fits};
ghost use Rattle.gem_object.specs.Spelling.{IsSpelledBody};
ghost use Rattle.gem_object.specs.declared.kind.Kind.{Kind};
ghost use Rattle.gem_object.specs.declared.body.Body.{Body};
ghost use Rattle.gem_update.specs.Spelling.{IsStorableUpdate, entries_of};
ghost use Rattle.gem_update.specs.Update.{fits_update, updated, merged, merge_kind};
ghost use Rattle.gem_update.specs.declared.update.Update.{Update};

/// Bodies whose refused merges are conflicts are those of the reduced-conflict objects.
pub fn shared_are_merged()
    ensures { (body : Body) → IsSome (merge_kind body) ↔ (is_shared body ≡ true) }
{}

/// A body whose values can be stored stays one after an update or a merge with such values, as
/// long as its pairs or items can be counted in 32 bits.
pub fn spelling_stays()
    ensures update { (update : Update) (body after : Body) → IsSpelledBody body
        → IsStorableUpdate update → updated update body ≡ Some after → entries_of after < 2 ^ 32
        → IsSpelledBody after }
    ensures merge { (view place after : Body) (updates : List Update) → IsSpelledBody place
        → All IsStorableUpdate updates → merged view place updates ≡ Some after
        → entries_of after < 2 ^ 32 → IsSpelledBody after }
{}

/// What is accepted is of one class: the update fits the body, and each update of a merge fits both
/// bodies. The body that follows is of the same kind.
pub fn one_class()
    ensures update { (update : Update) (body after : Body) → updated update body ≡ Some after
        → fits_update update body ≡ true }
    ensures merge { (view place after : Body) (updates : List Update)
        → merged view place updates ≡ Some after
        → All (λ update. (fits_update update view ≡ true) × (fits_update update place ≡ true))
        updates }
    ensures kind { (update : Update) (body after : Body) (kind : Kind)
        → updated update body ≡ Some after → fits kind after ≡ fits kind body }
    ensures merged_kind { (view place after : Body) (updates : List Update) (kind : Kind)
        → merged view place updates ≡ Some after → fits kind after ≡ fits kind place }
{}
