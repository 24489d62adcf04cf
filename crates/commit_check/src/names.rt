//! The names that a transaction used.
ghost use Rattle.std.specs.Prelude.{◌≡◌, IfOk};
ghost use Rattle.gem_record.specs.Names.{Ascend, AscendByName};
ghost use Rattle.commit_check.specs.Conflicts.{names_of, names_used};
ghost use Rattle.commit_check.specs.Union.{union};

use gem_object::Oid;
use gem_record::TxnRecord;
use std::alloc::{AllocError, Global};
use std::cmp::Ordering;

// The names of the objects that the transaction touched, wrote or updated, in order.
pub(crate) fn names_used(alloc: Global, transaction: &TxnRecord) -> Result<Vec<Oid>, AllocError>
    ensures names { IfOk result (λ names. names.items ≡ names_used transaction.now) }
    ensures in_order { IfOk result (λ names. Ascend names.items) }
{
    let written = names_of(alloc, transaction.written.as_slice())?;
    let updated = names_of(alloc, transaction.updates.as_slice())?;
    let accessed = union(alloc, transaction.touched.as_slice(), &written)?;
    union(alloc, &accessed, &updated)
}

// The names of pairs.
fn names_of<T>(alloc: Global, pairs: &[(Oid, T)]) -> Result<Vec<Oid>, AllocError>
    requires { AscendByName pairs.now }
    ensures names { IfOk result (λ names. names.items ≡ names_of pairs.now) }
    ensures in_order { IfOk result (λ names. Ascend names.items) }
{
    let mut names = Vec::new(alloc);
    for pair in pairs {
        names.push(pair.0)?;
    }
    Ok(names)
}

// The names of two ascending lists in order, each once.
fn union(alloc: Global, left: &[Oid], right: &[Oid]) -> Result<Vec<Oid>, AllocError>
    requires left { Ascend left.now }
    requires right { Ascend right.now }
    ensures names { IfOk result (λ names. names.items ≡ union left.now right.now) }
    ensures in_order { IfOk result (λ names. Ascend names.items) }
{
    let mut names = Vec::new(alloc);
    let (mut i, mut j) = (0, 0);
    while i < left.len() && j < right.len() {
        match left[i].cmp(&right[j]) {
            Ordering::Less => {
                names.push(left[i])?;
                i += 1;
            }
            Ordering::Equal => {
                names.push(left[i])?;
                i += 1;
                j += 1;
            }
            Ordering::Greater => {
                names.push(right[j])?;
                j += 1;
            }
        }
    }
    names.extend_from_slice(&left[i..])?;
    names.extend_from_slice(&right[j..])?;
    Ok(names)
}
