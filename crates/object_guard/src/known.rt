//! Whether the objects are there to which values and bodies refer.
ghost use Rattle.std.specs.Prelude.{◌≡◌, ◌<◌, ◌^◌, true, ℕ, Bool};
ghost use Rattle.std.specs.List.{list_all};
ghost use Rattle.std.specs.Option.{option_to_list};
ghost use Rattle.gem_object.specs.References.{names_in, names_in_pairs, names_in_items, names_in_body};
ghost use Rattle.object_programs.specs.Guard.{Parts, is_known};
ghost use Rattle.object_programs.specs.Spelled.{is_spelled};
ghost use Rattle.running_objects.specs.Fitting.{is_known_value};
ghost use Rattle.object_guard.specs.Known.{is_known_pair, is_known_item};

use crate::sees::Sees;
use gem_object::{Body, Dictionary, Oid, Queue, Value};

/// Whether there is an object of this name.
pub(crate) fn is_there<S: Sees>(state: &S, oid: Oid) -> bool
    ensures { result ≡ is_known (S.parts state.now) oid }
{
    state.object(oid).is_some()
}

/// Whether the object is there to which the value refers, if it refers to one. It takes no memory.
pub fn knows<S: Sees>(state: &S, value: &Value) -> bool
    ensures { result ≡ is_known_value (S.parts state.now) value.now }
{
    match value {
        Value::Ref(oid) => is_there(state, *oid),
        _ => true,
    }
}

fn knows_pair<S: Sees>(state: &S, key: &Value, value: &Value) -> bool
    ensures { result ≡ is_known_pair (S.parts state.now) (key.now, value.now) }
{
    knows(state, key) && knows(state, value)
}

// What refers to objects by values.
trait Refers {
    ghost known: { Parts → Self → Bool };

    // Whether the objects are there to which it refers.
    fn is_known<S: Sees>(&self, state: &S) -> bool
        ensures { result ≡ known (S.parts state.now) self.now };
}

impl Refers for Value {
    ghost known = { is_known_value };

    fn is_known<S: Sees>(&self, state: &S) -> bool {
        knows(state, self)
    }
}

impl Refers for (Value, Value) {
    ghost known = { is_known_pair };

    fn is_known<S: Sees>(&self, state: &S) -> bool {
        knows_pair(state, &self.0, &self.1)
    }
}

impl Refers for (Value, u64) {
    ghost known = { is_known_item };

    fn is_known<S: Sees>(&self, state: &S) -> bool {
        knows(state, &self.0)
    }
}

fn are_known<S: Sees, T: Refers>(state: &S, items: &[T]) -> bool
    ensures { result ≡ list_all (T.known (S.parts state.now)) items.now }
{
    for item in items {
        if !item.is_known(state) {
            return false;
        }
    }
    true
}

fn are_pairs_known<S: Sees>(state: &S, pairs: &Dictionary) -> bool
    ensures { result ≡ list_all (is_known_pair (S.parts state.now)) pairs.now }
{
    for at in 0..pairs.len() {
        let Some(pair) = pairs.pair(at) else {
            return true;
        };
        if !knows_pair(state, pair.0, pair.1) {
            return false;
        }
    }
    true
}

fn are_waiting_known<S: Sees>(state: &S, queue: &Queue<Value>) -> bool
    ensures { result ≡ list_all (is_known_value (S.parts state.now)) queue.now.items }
{
    for at in 0..queue.size() {
        let Some(item) = queue.item(at) else {
            return true;
        };
        if !knows(state, item) {
            return false;
        }
    }
    true
}

fn is_there_at<S: Sees>(state: &S, number: u64) -> bool
    requires { number < 2 ^ 48 }
    ensures { result ≡ is_known (S.parts state.now) number }
{
    match Oid::of(number) {
        Some(oid) => is_there(state, oid),
        None => false,
    }
}

/// Whether each object is there to which the body refers. It takes no memory, and looks at each
/// value once.
pub(crate) fn knows_all<S: Sees>(state: &S, body: &Body) -> bool
    requires { is_spelled body.now ≡ true }
    ensures { result ≡ list_all (is_known (S.parts state.now)) (names_in_body body.now) }
{
    match body {
        Body::Plain(values) => knows_values(state, values.as_slice()),
        Body::Bytes(_) => true,
        Body::Dict(pairs) => knows_dictionary(state, pairs),
        Body::Class(class) => is_superclass_known(state, class.superclass),
        Body::Segment(rights) => is_there_at(state, rights.owner),
        Body::User(user) => is_there(state, user.default_segment) && is_there(state, user.globals),
        Body::Counter(_) => true,
        Body::Bag(bag) => knows_items(state, bag.pairs()),
        Body::RcDict(dict) => knows_pairs(state, dict.pairs()),
        Body::Queue(queue) => knows_queue(state, queue),
    }
}

#[tactic(auto, using(crate::proofs::Pieces::values_known))]
fn knows_values<S: Sees>(state: &S, values: &[Value]) -> bool
    ensures { result ≡ list_all (is_known (S.parts state.now)) (names_in values.now) }
{
    are_known(state, values)
}

#[tactic(auto, using(crate::proofs::Pieces::pairs_known))]
fn knows_pairs<S: Sees>(state: &S, pairs: &[(Value, Value)]) -> bool
    ensures { result ≡ list_all (is_known (S.parts state.now)) (names_in_pairs pairs.now) }
{
    are_known(state, pairs)
}

#[tactic(auto, using(crate::proofs::Pieces::items_known))]
fn knows_items<S: Sees>(state: &S, pairs: &[(Value, u64)]) -> bool
    ensures { result ≡ list_all (is_known (S.parts state.now)) (names_in_items pairs.now) }
{
    are_known(state, pairs)
}

#[tactic(auto, using(crate::proofs::Pieces::pairs_known))]
fn knows_dictionary<S: Sees>(state: &S, pairs: &Dictionary) -> bool
    ensures { result ≡ list_all (is_known (S.parts state.now)) (names_in_pairs pairs.now) }
{
    are_pairs_known(state, pairs)
}

#[tactic(auto, using(crate::proofs::Pieces::values_known))]
fn knows_queue<S: Sees>(state: &S, queue: &Queue<Value>) -> bool
    ensures { result ≡ list_all (is_known (S.parts state.now)) (names_in queue.now.items) }
{
    are_waiting_known(state, queue)
}

fn is_superclass_known<S: Sees>(state: &S, superclass: Option<Oid>) -> bool
    ensures { result ≡ list_all (is_known (S.parts state.now)) (option_to_list superclass) }
{
    match superclass {
        Some(oid) => is_there(state, oid),
        None => true,
    }
}
