//! The merge of the updates of one object.
ghost use Rattle.std.specs.Prelude.{◌≡◌, IfOk};
ghost use Rattle.gem_update.specs.Update.{merge_kind};
ghost use Rattle.commit_check.specs.Conflicts.{merge_at, made_or_refused, refused};

use gem_image::Image;
use gem_object::{Conflict, Object, Oid};
use gem_record::TxnRecord;
use gem_update::{UpdateFault, merge_body, merge_kind};
use std::alloc::{AllocError, Global};

/// What comes of the updates of an object.
#[derive(Debug, Drop)]
pub(crate) enum Outcome {
    /// There are none.
    Nothing,
    /// The object with the body that the merge makes.
    Made(Object),
    /// The merge is refused.
    Refused(Conflict),
}

// What the transaction's updates of the object make of it in the image.
pub(crate) fn merge(
    alloc: Global,
    image: &Image,
    transaction: &TxnRecord,
    oid: Oid,
) -> Result<Outcome, AllocError>
    ensures { IfOk result (λ merge. merge ≡ merge_at image.now transaction.now oid) }
{
    let Some(updates) = transaction.updates.find(oid) else {
        return Ok(Outcome::Nothing);
    };
    let Some(view) = transaction.base.look(oid) else {
        return Ok(Outcome::Nothing);
    };
    let Some(place) = image.look(oid) else {
        return Ok(Outcome::Nothing);
    };
    match merge_body(alloc, &view.body, &place.body, updates.as_slice()) {
        Ok(body) => Ok(Outcome::Made(Object {
            class: place.class,
            segment: place.segment,
            changed: place.changed,
            body,
        })),
        Err(UpdateFault::Refused) => Ok(refused(oid, place)),
        Err(UpdateFault::NoMemory) => Err(AllocError),
    }
}

// The conflict of a refused merge.
fn refused(oid: Oid, place: &Object) -> Outcome
    ensures { result ≡ refused oid place.now (merge_kind place.now.body) }
{
    match merge_kind(&place.body) {
        None => Outcome::Nothing,
        Some(kind) => Outcome::Refused(Conflict {
            oid,
            kind,
            shown: place.changed,
        }),
    }
}
