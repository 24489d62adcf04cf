//! The updates of objects whose updates are merged.
ghost use Rattle.std.specs.Prelude.{◌≡◌, IfOk};

use gem_object::{BagUpdate, DictUpdate, QueueUpdate, Value};
use std::alloc::AllocError;

/// One update of an object whose updates are merged. A session keeps a list of them for each such
/// object, in the order in which it made them.
#[derive(Debug, Drop)]
pub enum Update {
    /// A counter is raised by this number, or lowered where it is negative.
    Counter(i64),
    /// A bag's item occurs once more or once less.
    Bag(BagUpdate<Value>),
    /// A dictionary's key has another value or none.
    RcDict(DictUpdate<Value, Value>),
    /// A queue has an item more at its back, or its front no more.
    Queue(QueueUpdate<Value>),
}

impl Clone for Update {
    ghost is_clone = { λ update copy. copy ≡ update };

    fn clone(&self) -> Result<Update, AllocError> {
        Ok(match self {
            Update::Counter(by) => Update::Counter(*by),
            Update::Bag(update) => Update::Bag(copy_of_bag_update(update)?),
            Update::RcDict(update) => Update::RcDict(copy_of_dict_update(update)?),
            Update::Queue(update) => Update::Queue(copy_of_queue_update(update)?),
        })
    }
}

pub(crate) fn copy_of_bag_update(update: &BagUpdate<Value>) -> Result<BagUpdate<Value>, AllocError>
    ensures { IfOk result (λ copy. copy ≡ update.now) }
{
    Ok(match update {
        BagUpdate::Add(item) => BagUpdate::Add(item.clone()?),
        BagUpdate::Remove(item) => BagUpdate::Remove(item.clone()?),
    })
}

pub(crate) fn copy_of_dict_update(
    update: &DictUpdate<Value, Value>,
) -> Result<DictUpdate<Value, Value>, AllocError>
    ensures { IfOk result (λ copy. copy ≡ update.now) }
{
    Ok(match update {
        DictUpdate::Put(key, value) => DictUpdate::Put(key.clone()?, value.clone()?),
        DictUpdate::Remove(key) => DictUpdate::Remove(key.clone()?),
    })
}

pub(crate) fn copy_of_queue_update(
    update: &QueueUpdate<Value>,
) -> Result<QueueUpdate<Value>, AllocError>
    ensures { IfOk result (λ copy. copy ≡ update.now) }
{
    Ok(match update {
        QueueUpdate::Add(item) => QueueUpdate::Add(item.clone()?),
        QueueUpdate::Remove(item) => QueueUpdate::Remove(item.clone()?),
    })
}
