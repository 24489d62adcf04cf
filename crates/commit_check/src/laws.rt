//! What follows from the definitions alone. Each law is the contract of a function that does
//! nothing.
ghost use Rattle.std.specs.Prelude.{◌↔◌, ℕ};
ghost use Rattle.std.specs.List.{Contains};
ghost use Rattle.std.specs.List.Sorted.{IsStrictlySortedBy};
ghost use Rattle.gem_record.specs.Names.{AscendByName};
ghost use Rattle.gem_record.specs.declared.record.TxnRecord.{TxnRecord};
ghost use Rattle.gem_object.specs.gem_value.declared.conflict.Conflict.{Conflict};
ghost use Rattle.gem_object.specs.declared.object.Object.{Object};
ghost use Rattle.gem_image.specs.Image.{Image};
ghost use Rattle.commit_check.specs.Conflicts.{Place, conflicts_of, merged_objects};
ghost use Rattle.commit_check.specs.Table.{IsInOrder, Stands, IsMerged, conflict_cmp};

/// The conflicts against a commit are just those of the table, each once, by object and then by
/// kind.
pub fn exactly_the_table()
    ensures each { (place : Place) (transaction : TxnRecord) (conflict : Conflict) →
        Contains (conflicts_of place transaction) conflict ↔ Stands place transaction conflict }
    ensures in_order { (place : Place) (transaction : TxnRecord) → IsInOrder transaction →
        IsStrictlySortedBy conflict_cmp (conflicts_of place transaction) }
{}

/// The merged objects are just those whose merge isn't refused, each once, by name.
pub fn exactly_the_merged()
    ensures each { (image : Image) (transaction : TxnRecord) (oid : ℕ) (object : Object) →
        Contains (merged_objects image transaction) (oid, object)
        ↔ IsMerged image transaction oid object }
    ensures in_order { (image : Image) (transaction : TxnRecord) → IsInOrder transaction →
        AscendByName (merged_objects image transaction) }
{}
