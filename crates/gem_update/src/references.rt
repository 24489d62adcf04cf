//! What updates refer to, one name after another.
ghost use Rattle.std.specs.Prelude.{◌≡◌, ◌++◌, ◌∷◌, [], OnOk};
ghost use Rattle.gem_update.specs.References.{values_in_update, names_in_update};
ghost use Rattle.gem_update.specs.declared.update.Update.{Update};

use crate::update::Update;
use gem_object::{BagUpdate, DictUpdate, QueueUpdate, Value};
use std::alloc::AllocError;

impl Update {
    /// Adds the numbers of the names that the update refers to at the end of the list, each as
    /// often and in the order in which the update has them. The error is want of memory, and then
    /// the first of them may be there.
    pub fn push_references(&self, list: &mut Vec<u64>) -> Result<(), AllocError>
        ensures { OnOk result (list.new.items ≡ list.old.items ++ names_in_update self.now) }
    {
        match self {
            Update::Counter(_) => Ok(()),
            Update::Bag(update) => item_of_bag(update).push_reference(list),
            Update::RcDict(DictUpdate::Put(key, value)) => {
                key.push_reference(list)?;
                value.push_reference(list)
            }
            Update::RcDict(DictUpdate::Remove(key)) => key.push_reference(list),
            Update::Queue(update) => item_of_queue(update).push_reference(list),
        }
    }
}

// The item that an update of a bag adds or removes.
fn item_of_bag(update: &BagUpdate<Value>) -> &Value
    ensures { values_in_update (Update.Bag update.now) ≡ result.now ∷ [] }
{
    match update {
        BagUpdate::Add(item) => item,
        BagUpdate::Remove(item) => item,
    }
}

// The item that an update of a queue adds or removes.
fn item_of_queue(update: &QueueUpdate<Value>) -> &Value
    ensures { values_in_update (Update.Queue update.now) ≡ result.now ∷ [] }
{
    match update {
        QueueUpdate::Add(item) => item,
        QueueUpdate::Remove(item) => item,
    }
}
