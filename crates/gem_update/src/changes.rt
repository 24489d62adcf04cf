//! The changes of one class among updates of all four.
ghost use Rattle.std.specs.Prelude.{◌≡◌, Some, None, IfOk, IsErrOf};
ghost use Rattle.gem_update.specs.Update.{counter_change, bag_change, dict_change, queue_change, all_changes};

use crate::joined::UpdateFault;
use crate::update::{Update, copy_of_bag_update, copy_of_dict_update, copy_of_queue_update};
use gem_object::{BagUpdate, DictUpdate, QueueUpdate, Value};
use std::alloc::{AllocError, Global};

// The changes of one class.
pub(crate) trait Change: Sized {
    ghost use Rattle.std.specs.Prelude.{Option};
    ghost use Rattle.gem_update.specs.declared.update.Update.{Update};

    ghost change_of: { Update → Option Self };

    // A copy of the update's change, where it is one of this class.
    fn of_update(update: &Update) -> Result<Option<Self>, AllocError>
        ensures { IfOk result (λ change. change ≡ change_of update.now) };
}

impl Change for i64 {
    ghost change_of = { counter_change };

    fn of_update(update: &Update) -> Result<Option<i64>, AllocError> {
        match update {
            Update::Counter(by) => Ok(Some(*by)),
            _ => Ok(None),
        }
    }
}

impl Change for BagUpdate<Value> {
    ghost change_of = { bag_change };

    fn of_update(update: &Update) -> Result<Option<BagUpdate<Value>>, AllocError> {
        match update {
            Update::Bag(update) => Ok(Some(copy_of_bag_update(update)?)),
            _ => Ok(None),
        }
    }
}

impl Change for DictUpdate<Value, Value> {
    ghost change_of = { dict_change };

    fn of_update(update: &Update) -> Result<Option<DictUpdate<Value, Value>>, AllocError> {
        match update {
            Update::RcDict(update) => Ok(Some(copy_of_dict_update(update)?)),
            _ => Ok(None),
        }
    }
}

impl Change for QueueUpdate<Value> {
    ghost change_of = { queue_change };

    fn of_update(update: &Update) -> Result<Option<QueueUpdate<Value>>, AllocError> {
        match update {
            Update::Queue(update) => Ok(Some(copy_of_queue_update(update)?)),
            _ => Ok(None),
        }
    }
}

// Copies of the changes, where all are of one class.
pub(crate) fn all_changes<C: Change + Drop>(
    alloc: Global,
    updates: &[Update],
) -> Result<Vec<C>, UpdateFault>
    ensures all { IfOk result (λ changes.
        all_changes C.change_of updates.now ≡ Some changes.items) }
    ensures refused { IsErrOf result UpdateFault.Refused
        → all_changes C.change_of updates.now ≡ None }
{
    let mut changes = Vec::new(alloc);
    for update in updates {
        let Some(change) = C::of_update(update)? else {
            return Err(UpdateFault::Refused);
        };
        changes.push(change)?;
    }
    Ok(changes)
}
