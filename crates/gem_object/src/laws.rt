//! What follows from the definitions alone. Each law is the contract of a function that does
//! nothing.
ghost use Rattle.std.specs.Prelude.{◌≡◌, ℕ, All};
ghost use Rattle.std.specs.Ordering.{nat_cmp};
ghost use Rattle.std.specs.declared.cmp.Ordering.TheVariants.{Equal};
ghost use Rattle.gem_object.specs.Order.{value_order, same_value};
ghost use Rattle.gem_object.specs.Kinds.{kind_number};
ghost use Rattle.gem_object.specs.Slots.{slots_of};
ghost use Rattle.gem_object.specs.Sizes.{fields_size};
ghost use Rattle.gem_object.specs.References.{references_of};
ghost use Rattle.gem_object.specs.Spelling.{IsOid, IsSpelled};
ghost use Rattle.gem_object.specs.Edits.{with_slot, with_byte};
ghost use Rattle.gem_object.specs.declared.value.Value.{Value};
ghost use Rattle.gem_object.specs.declared.kind.Kind.{Kind};
ghost use Rattle.gem_object.specs.declared.body.Body.{Body};
ghost use Rattle.gem_object.specs.declared.object.Object.{Object};

use crate::{Kind, Value};

/// Values are ordered by their tags, and by their contents where the tags are equal. Values that
/// compare as equal are equal.
pub fn order_of_values()
    ensures order { (value other : Value) → ⟦<Value as Ord>⟧.cmp value other
        ≡ value_order value other }
    ensures equal { (value other : Value) → ⟦<Value as Ord>⟧.cmp value other ≡ Equal
        → value ≡ other }
{}

/// Kinds are ordered by their numbers, and no two have the same.
pub fn order_of_kinds()
    ensures order { (kind other : Kind) → ⟦<Kind as Ord>⟧.cmp kind other
        ≡ nat_cmp (kind_number kind) (kind_number other) }
    ensures one { (kind other : Kind) → kind_number kind ≡ kind_number other → kind ≡ other }
{}

/// Whatever an object refers to that has a spelling is the number of an object's name.
pub fn references_are_names()
    ensures { (object : Object) → IsSpelled object → All IsOid (references_of object) }
{}

/// A change of one slot keeps the number of slots, and a change of one byte the size.
pub fn changes_keep_room()
    ensures slots { (at : ℕ) (value : Value) (body : Body) →
        slots_of (with_slot at value body) ≡ slots_of body }
    ensures size { (at byte : ℕ) (body : Body) →
        fields_size (with_byte at byte body) ≡ fields_size body }
{}

/// Values are equal exactly where they compare as equal.
pub fn equality_of_values()
    ensures { (value other : Value) → ⟦<Value as PartialEq>⟧.eq value other
        ≡ same_value value other }
{}
