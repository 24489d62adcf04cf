//! What the calls of the four classes have in common.
ghost use Rattle.std.specs.Prelude.{◌≡◌, true, false, not, MatchResult, IfErr, OnOk, OnErr, IsErrOf};
ghost use Rattle.gem_object.specs.Order.{value_order};
ghost use Rattle.gem_object.specs.rc_counter_bag.Bag.{adds_new};
ghost use Rattle.gem_object.specs.rc_dict.Dict.{puts_new};
ghost use Rattle.gem_object.specs.rc_queue.Update.{is_removal};
ghost use Rattle.gem_update.specs.Outcomes.{counter_updated, counter_merged, bag_updated, bag_merged, dict_updated, dict_merged, queue_updated, queue_merged, is_bag_memory, is_dict_memory, is_queue_memory};

use gem_object::{
    Bag, BagFault, BagUpdate, Counter, CounterRange, DictFault, DictUpdate, KeyDict, Queue,
    QueueFault, QueueUpdate, Value,
};

/// An object whose updates are merged: a session works on it as it stands at the session's view,
/// and hands over what it did as a list of updates, which a commit makes anew at its own place.
///
/// What an update and a merge make, or the fault by which they are refused, is a function of what
/// they are given. The one other answer is want of memory.
pub trait Merging: Sized {
    ghost use Rattle.std.specs.Prelude.{Bool, List, Result};

    /// One update.
    type Change;

    /// Why an update or a merge is refused, or that memory ran out.
    type Fault;

    ghost updated: { Self.Change → Self → Result Self Self.Fault };

    ghost merged: { Self → Self → List Self.Change → Result Self Self.Fault };

    ghost is_memory: { Self.Fault → Bool };

    ghost needs_memory: { Self.Change → Self → Bool };

    /// Applies one update. After a fault the object is as before.
    fn apply(&mut self, update: Self::Change) -> Result<(), Self::Fault>
        ensures updated { OnOk result (updated update self.old ≡ Ok self.new) }
        ensures refused { IfErr result (λ fault.
            is_memory fault ≡ false → updated update self.old ≡ Err fault) }
        ensures refuses { (fault : Self.Fault) → updated update self.old ≡ Err fault
            → IsErrOf result fault }
        ensures memory { IfErr result (λ fault.
            is_memory fault ≡ true → needs_memory update self.old ≡ true) }
        ensures unchanged { OnErr result (self.new ≡ self.old) };

    /// What the updates, made by a session at its view, make of the object at the commit's place.
    fn merge(at_view: &Self, at_place: &Self, updates: &[Self::Change]) -> Result<Self, Self::Fault>
        ensures { MatchResult result
            (λ after. merged at_view.now at_place.now updates.now ≡ Ok after)
            (λ fault. is_memory fault ≡ false
            → merged at_view.now at_place.now updates.now ≡ Err fault) };
}

impl Merging for Counter {
    type Change = i64;

    type Fault = CounterRange;

    ghost updated = { counter_updated };

    ghost merged = { counter_merged };

    ghost is_memory = { λ _. false };

    ghost needs_memory = { λ _ _. false };

    fn apply(&mut self, update: i64) -> Result<(), CounterRange> {
        *self = Counter::apply(*self, update)?;
        Ok(())
    }

    fn merge(
        at_view: &Counter,
        at_place: &Counter,
        updates: &[i64],
    ) -> Result<Counter, CounterRange> {
        Counter::merge(*at_view, *at_place, updates)
    }
}

impl Merging for Bag<Value> {
    type Change = BagUpdate<Value>;

    type Fault = BagFault;

    ghost updated = { bag_updated };

    ghost merged = { bag_merged };

    ghost is_memory = { is_bag_memory };

    ghost needs_memory = { adds_new value_order };

    fn apply(&mut self, update: BagUpdate<Value>) -> Result<(), BagFault> {
        Bag::apply(self, update)
    }

    fn merge(
        at_view: &Bag<Value>,
        at_place: &Bag<Value>,
        updates: &[BagUpdate<Value>],
    ) -> Result<Bag<Value>, BagFault> {
        Bag::merge(at_view, at_place, updates)
    }
}

impl Merging for KeyDict<Value, Value> {
    type Change = DictUpdate<Value, Value>;

    type Fault = DictFault;

    ghost updated = { dict_updated };

    ghost merged = { dict_merged };

    ghost is_memory = { is_dict_memory };

    ghost needs_memory = { puts_new value_order };

    fn apply(&mut self, update: DictUpdate<Value, Value>) -> Result<(), DictFault> {
        KeyDict::apply(self, update)
    }

    fn merge(
        at_view: &KeyDict<Value, Value>,
        at_place: &KeyDict<Value, Value>,
        updates: &[DictUpdate<Value, Value>],
    ) -> Result<KeyDict<Value, Value>, DictFault> {
        KeyDict::merge(at_view, at_place, updates)
    }
}

impl Merging for Queue<Value> {
    type Change = QueueUpdate<Value>;

    type Fault = QueueFault;

    ghost updated = { queue_updated };

    ghost merged = { queue_merged };

    ghost is_memory = { is_queue_memory };

    ghost needs_memory = { λ update _. not (is_removal update) };

    fn apply(&mut self, update: QueueUpdate<Value>) -> Result<(), QueueFault> {
        Queue::apply(self, update)
    }

    fn merge(
        at_view: &Queue<Value>,
        at_place: &Queue<Value>,
        updates: &[QueueUpdate<Value>],
    ) -> Result<Queue<Value>, QueueFault> {
        Queue::merge(at_view, at_place, updates)
    }
}
