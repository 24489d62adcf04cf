//! Updates and merges over bodies.
ghost use Rattle.std.specs.Prelude.{◌≡◌, ◌↔◌, true, Some, None, IfOk, OnOk, OnErr, IsErrOf};
ghost use Rattle.gem_update.specs.Fault.{fault_text, fault_of};
ghost use Rattle.gem_update.specs.Outcomes.{is_bag_memory, is_dict_memory, is_queue_memory};
ghost use Rattle.gem_update.specs.Update.{updated, needs_memory, merged, merge_kind};
ghost use Rattle.gem_update.specs.declared.joined.UpdateFault.TheVariants.{Refused, NoMemory};

use crate::changes::all_changes;
use crate::merging::Merging;
use crate::update::Update;
use gem_object::{
    Bag, BagFault, BagUpdate, Body, ConflictKind, Counter, CounterRange, DictFault, DictUpdate,
    KeyDict, Queue, QueueFault, QueueUpdate, Value,
};
use std::alloc::{AllocError, AllocFailed, Global};
use std::error::Error;
use std::fmt;

/// Why an update or a merge wasn't made.
#[derive(Clone, Copy, Debug, PartialEq, Eq)]
pub enum UpdateFault {
    /// The body's class refuses it, or not all that was given is of one class.
    Refused,
    /// Memory ran out.
    NoMemory,
}

impl fmt::Display for UpdateFault {
    ghost output = { λ fault. Some (fault_text fault) };

    fn fmt<W: fmt::Write>(&self, f: &mut fmt::Formatter<W>) -> fmt::Result {
        match self {
            UpdateFault::Refused => f.write_str("the update is refused"),
            UpdateFault::NoMemory => f.write_str("out of memory"),
        }
    }
}

impl Error for UpdateFault {}

impl From<AllocError> for UpdateFault {
    ghost from_gives = { λ _ fault. fault ≡ NoMemory };

    fn from(_: AllocError) -> UpdateFault {
        UpdateFault::NoMemory
    }
}

impl<T: Drop> From<AllocFailed<T>> for UpdateFault {
    ghost from_gives = { λ _ fault. fault ≡ NoMemory };

    fn from(_: AllocFailed<T>) -> UpdateFault {
        UpdateFault::NoMemory
    }
}

impl From<CounterRange> for UpdateFault {
    ghost from_gives = { λ _ fault. fault ≡ Refused };

    fn from(_: CounterRange) -> UpdateFault {
        UpdateFault::Refused
    }
}

impl From<BagFault> for UpdateFault {
    ghost from_gives = { λ given fault. fault ≡ fault_of (is_bag_memory given) };

    fn from(fault: BagFault) -> UpdateFault {
        match fault {
            BagFault::Missing(_) => UpdateFault::Refused,
            BagFault::NoMemory => UpdateFault::NoMemory,
        }
    }
}

impl From<DictFault> for UpdateFault {
    ghost from_gives = { λ given fault. fault ≡ fault_of (is_dict_memory given) };

    fn from(fault: DictFault) -> UpdateFault {
        match fault {
            DictFault::Key(_) => UpdateFault::Refused,
            DictFault::NoMemory => UpdateFault::NoMemory,
        }
    }
}

impl From<QueueFault> for UpdateFault {
    ghost from_gives = { λ given fault. fault ≡ fault_of (is_queue_memory given) };

    fn from(fault: QueueFault) -> UpdateFault {
        match fault {
            QueueFault::Remove(_) => UpdateFault::Refused,
            QueueFault::NoMemory => UpdateFault::NoMemory,
        }
    }
}

/// Makes the update in the body.
///
/// `Refused`: the body isn't of the update's class, or the class refuses the update: a counter's
/// sum isn't an integer of the language, a bag's removed item doesn't occur, a dictionary's removed
/// key has no value, a queue's front isn't the item that is removed. `NoMemory`: an item that is
/// added, or a key that has no value yet, found no memory. After either the body is as before.
pub fn update_body(body: &mut Body, update: Update) -> Result<(), UpdateFault>
    ensures updated { OnOk result (updated update body.old ≡ Some body.new) }
    ensures refused { IsErrOf result UpdateFault.Refused ↔ (updated update body.old ≡ None) }
    ensures memory { IsErrOf result UpdateFault.NoMemory → needs_memory update body.old ≡ true }
    ensures unchanged { OnErr result (body.new ≡ body.old) }
{
    match update {
        Update::Counter(by) => update_counter(body, by),
        Update::Bag(update) => update_bag(body, update),
        Update::RcDict(update) => update_dict(body, update),
        Update::Queue(update) => update_queue(body, update),
    }
}

fn update_counter(body: &mut Body, by: i64) -> Result<(), UpdateFault>
    ensures updated { OnOk result (updated (Update.Counter by) body.old ≡ Some body.new) }
    ensures refused { IsErrOf result UpdateFault.Refused
        ↔ (updated (Update.Counter by) body.old ≡ None) }
    ensures memory { IsErrOf result UpdateFault.NoMemory
        → needs_memory (Update.Counter by) body.old ≡ true }
    ensures unchanged { OnErr result (body.new ≡ body.old) }
{
    match body {
        Body::Counter(counter) => Ok(Merging::apply(counter, by)?),
        _ => Err(UpdateFault::Refused),
    }
}

fn update_bag(body: &mut Body, update: BagUpdate<Value>) -> Result<(), UpdateFault>
    ensures updated { OnOk result (updated (Update.Bag update) body.old ≡ Some body.new) }
    ensures refused { IsErrOf result UpdateFault.Refused
        ↔ (updated (Update.Bag update) body.old ≡ None) }
    ensures memory { IsErrOf result UpdateFault.NoMemory
        → needs_memory (Update.Bag update) body.old ≡ true }
    ensures unchanged { OnErr result (body.new ≡ body.old) }
{
    match body {
        Body::Bag(bag) => Ok(Merging::apply(bag, update)?),
        _ => Err(UpdateFault::Refused),
    }
}

fn update_dict(body: &mut Body, update: DictUpdate<Value, Value>) -> Result<(), UpdateFault>
    ensures updated { OnOk result (updated (Update.RcDict update) body.old ≡ Some body.new) }
    ensures refused { IsErrOf result UpdateFault.Refused
        ↔ (updated (Update.RcDict update) body.old ≡ None) }
    ensures memory { IsErrOf result UpdateFault.NoMemory
        → needs_memory (Update.RcDict update) body.old ≡ true }
    ensures unchanged { OnErr result (body.new ≡ body.old) }
{
    match body {
        Body::RcDict(dict) => Ok(Merging::apply(dict, update)?),
        _ => Err(UpdateFault::Refused),
    }
}

fn update_queue(body: &mut Body, update: QueueUpdate<Value>) -> Result<(), UpdateFault>
    ensures updated { OnOk result (updated (Update.Queue update) body.old ≡ Some body.new) }
    ensures refused { IsErrOf result UpdateFault.Refused
        ↔ (updated (Update.Queue update) body.old ≡ None) }
    ensures memory { IsErrOf result UpdateFault.NoMemory
        → needs_memory (Update.Queue update) body.old ≡ true }
    ensures unchanged { OnErr result (body.new ≡ body.old) }
{
    match body {
        Body::Queue(queue) => Ok(Merging::apply(queue, update)?),
        _ => Err(UpdateFault::Refused),
    }
}

/// What the updates, made by a session at its view, make of the object at a commit's place. The two
/// bodies are the object's at the view and at the place.
///
/// `Refused`: the merge is refused, or not all that was given is of one class; `merge_kind` tells
/// which conflict a refusal is. `NoMemory` may come in place of any answer, since the updates and
/// the body at the place are copied.
pub fn merge_body(
    alloc: Global,
    at_view: &Body,
    at_place: &Body,
    updates: &[Update],
) -> Result<Body, UpdateFault>
    ensures merged { IfOk result (λ body.
        merged at_view.now at_place.now updates.now ≡ Some body) }
    ensures refused { IsErrOf result UpdateFault.Refused
        → merged at_view.now at_place.now updates.now ≡ None }
{
    match (at_view, at_place) {
        (Body::Counter(at_view), Body::Counter(at_place)) => {
            Ok(Body::Counter(merge_counters(alloc, at_view, at_place, updates)?))
        }
        (Body::Bag(at_view), Body::Bag(at_place)) => {
            Ok(Body::Bag(merge_bags(alloc, at_view, at_place, updates)?))
        }
        (Body::RcDict(at_view), Body::RcDict(at_place)) => {
            Ok(Body::RcDict(merge_dicts(alloc, at_view, at_place, updates)?))
        }
        (Body::Queue(at_view), Body::Queue(at_place)) => {
            Ok(Body::Queue(merge_queues(alloc, at_view, at_place, updates)?))
        }
        _ => Err(UpdateFault::Refused),
    }
}

fn merge_counters(
    alloc: Global,
    at_view: &Counter,
    at_place: &Counter,
    updates: &[Update],
) -> Result<Counter, UpdateFault>
    ensures merged { IfOk result (λ counter.
        merged (Body.Counter at_view.now) (Body.Counter at_place.now) updates.now
        ≡ Some (Body.Counter counter)) }
    ensures refused { IsErrOf result UpdateFault.Refused
        → merged (Body.Counter at_view.now) (Body.Counter at_place.now) updates.now ≡ None }
{
    let changes: Vec<_> = all_changes(alloc, updates)?;
    Ok(Merging::merge(at_view, at_place, &changes)?)
}

fn merge_bags(
    alloc: Global,
    at_view: &Bag<Value>,
    at_place: &Bag<Value>,
    updates: &[Update],
) -> Result<Bag<Value>, UpdateFault>
    ensures merged { IfOk result (λ bag.
        merged (Body.Bag at_view.now) (Body.Bag at_place.now) updates.now
        ≡ Some (Body.Bag bag)) }
    ensures refused { IsErrOf result UpdateFault.Refused
        → merged (Body.Bag at_view.now) (Body.Bag at_place.now) updates.now ≡ None }
{
    let changes: Vec<_> = all_changes(alloc, updates)?;
    Ok(Merging::merge(at_view, at_place, &changes)?)
}

fn merge_dicts(
    alloc: Global,
    at_view: &KeyDict<Value, Value>,
    at_place: &KeyDict<Value, Value>,
    updates: &[Update],
) -> Result<KeyDict<Value, Value>, UpdateFault>
    ensures merged { IfOk result (λ dict.
        merged (Body.RcDict at_view.now) (Body.RcDict at_place.now) updates.now
        ≡ Some (Body.RcDict dict)) }
    ensures refused { IsErrOf result UpdateFault.Refused
        → merged (Body.RcDict at_view.now) (Body.RcDict at_place.now) updates.now ≡ None }
{
    let changes: Vec<_> = all_changes(alloc, updates)?;
    Ok(Merging::merge(at_view, at_place, &changes)?)
}

fn merge_queues(
    alloc: Global,
    at_view: &Queue<Value>,
    at_place: &Queue<Value>,
    updates: &[Update],
) -> Result<Queue<Value>, UpdateFault>
    ensures merged { IfOk result (λ queue.
        merged (Body.Queue at_view.now) (Body.Queue at_place.now) updates.now
        ≡ Some (Body.Queue queue)) }
    ensures refused { IsErrOf result UpdateFault.Refused
        → merged (Body.Queue at_view.now) (Body.Queue at_place.now) updates.now ≡ None }
{
    let changes: Vec<_> = all_changes(alloc, updates)?;
    Ok(Merging::merge(at_view, at_place, &changes)?)
}

/// Which conflict a refused merge of this body is. None exactly where such bodies aren't merged.
pub fn merge_kind(body: &Body) -> Option<ConflictKind>
    ensures { result ≡ merge_kind body.now }
{
    match body {
        Body::Counter(_) => Some(ConflictKind::CounterRange),
        Body::Bag(_) => Some(ConflictKind::BagRemove),
        Body::RcDict(_) => Some(ConflictKind::DictionaryKey),
        Body::Queue(_) => Some(ConflictKind::QueueRemove),
        _ => None,
    }
}
