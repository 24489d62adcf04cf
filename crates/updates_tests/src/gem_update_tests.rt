// Updates and merges as sessions and commits make them, by class, and the same over bodies.
use gem_object::{
    Bag, BagFault, BagUpdate, Body, ConflictKind, Counter, CounterRange, DictFault, DictUpdate,
    KeyDict, Queue, QueueFault, QueueUpdate, Value,
};
use gem_update::*;
use std::alloc::Global;
use std::slice;
use std::test::Fail;

const GREATEST: i64 = 1152921504606846975;

const fn counter(value: i64) -> Counter {
    Counter { value }
}

// Whether this comes of merging a session's updates, where the counter has the first value at the
// view and the second at the place.
fn counter_merges(
    view: i64,
    place: i64,
    updates: [i64; 2],
    want: Result<Counter, CounterRange>,
) -> bool {
    Merging::merge(&counter(view), &counter(place), &updates) == want
}

#[test]
fn merges_of_counters(rt: HostRuntime) {
    let greatest = Ok(counter(GREATEST));
    // Two sessions count to ten from 0; the second stands at twenty.
    assert!(rt; counter_merges(0, 10, [4, 6], Ok(counter(20))));
    // One below the end of the range: of two increments the second is refused.
    assert!(rt; counter_merges(GREATEST - 1, GREATEST - 1, [0, 1], greatest));
    assert!(rt; counter_merges(GREATEST - 1, GREATEST, [0, 1], Err(CounterRange)));
    // Only the result must be in the range.
    assert!(rt; counter_merges(GREATEST - 1, GREATEST, [1, -1], greatest));
}

#[test]
fn updates_of_a_counter(rt: HostRuntime) -> Result<(), Fail> {
    let mut counter = counter(GREATEST);
    assert_eq!(rt; Merging::apply(&mut counter, 1), Err(CounterRange));
    Merging::apply(&mut counter, -1)?;
    assert_eq!(rt; counter.value, GREATEST - 1);
    Ok(())
}

// A bag in which x occurs so often.
pub(crate) fn bag(alloc: Global, occurrences: u64) -> Result<Bag<Value>, Fail> {
    let mut pairs = Vec::new(alloc);
    if occurrences > 0 {
        pairs.push((Value::Char(b'x'), occurrences))?;
    }
    Ok(Bag::of_pairs(pairs).ok_or("pairs of a bag")?)
}

pub(crate) const fn add() -> BagUpdate<Value> {
    BagUpdate::Add(Value::Char(b'x'))
}

pub(crate) const fn remove() -> BagUpdate<Value> {
    BagUpdate::Remove(Value::Char(b'x'))
}

// Whether a bag of this size comes of merging a session's updates, where x occurs so often at the
// view and at the place.
fn bag_merges(
    alloc: Global,
    (view, place): (u64, u64),
    updates: [BagUpdate<Value>; 2],
    want: Result<u64, BagFault>,
) -> Result<bool, Fail> {
    let merged = Merging::merge(&bag(alloc, view)?, &bag(alloc, place)?, &updates);
    Ok(has_size(&merged, want))
}

fn has_size(merged: &Result<Bag<Value>, BagFault>, want: Result<u64, BagFault>) -> bool {
    match (merged, want) {
        (Ok(bag), Ok(size)) => bag.size() == size,
        (Err(fault), Err(wanted)) => *fault == wanted,
        _ => false,
    }
}

#[test]
fn merges_of_bags(rt: HostRuntime) -> Result<(), Fail> {
    let alloc = rt.alloc();
    // Two sessions remove one occurrence: the second is refused. With two it isn't.
    assert!(rt; bag_merges(alloc, (1, 1), [add(), remove()], Ok(1))?);
    assert!(rt; bag_merges(alloc, (1, 0), [remove(), add()], Err(BagFault::Missing(0)))?);
    assert!(rt; bag_merges(alloc, (2, 1), [remove(), add()], Ok(1))?);
    assert!(rt;
        bag_merges(
            alloc,
            (2, 1),
            [remove(), remove()],
            Err(BagFault::Missing(1))
        )?
    );
    Ok(())
}

// From this call a caller's proof learns nothing of the bag, so it stays short.
fn apply_to_bag(bag: &mut Bag<Value>, update: BagUpdate<Value>) -> Result<(), BagFault> {
    Merging::apply(bag, update)
}

#[test]
fn updates_of_a_bag(rt: HostRuntime) -> Result<(), Fail> {
    let mut x = bag(rt.alloc(), 1)?;
    apply_to_bag(&mut x, add())?;
    apply_to_bag(&mut x, remove())?;
    apply_to_bag(&mut x, remove())?;
    assert_eq!(rt; apply_to_bag(&mut x, remove()), Err(BagFault::Missing(0)));
    assert_eq!(rt; x.size(), 0);
    Ok(())
}

// A dictionary of these letters and numbers.
pub(crate) fn dict(alloc: Global, entries: &[(u8, i64)]) -> Result<KeyDict<Value, Value>, Fail> {
    let mut pairs = Vec::new(alloc);
    for (letter, number) in entries {
        pairs.push((Value::Char(*letter), Value::Int(*number)))?;
    }
    Ok(KeyDict::of_pairs(pairs).ok_or("pairs of a dictionary")?)
}

pub(crate) const fn put(letter: u8, number: i64) -> DictUpdate<Value, Value> {
    DictUpdate::Put(Value::Char(letter), Value::Int(number))
}

// Whether a dictionary of so many keys comes of merging a session's updates, where the dictionary
// was empty at the view and has this entry at the place.
fn dict_merges(
    alloc: Global,
    entry: (u8, i64),
    updates: [DictUpdate<Value, Value>; 2],
    want: Result<u64, DictFault>,
) -> Result<bool, Fail> {
    let merged = Merging::merge(&dict(alloc, &[])?, &dict(alloc, &[entry])?, &updates);
    Ok(has_keys(&merged, want))
}

fn has_keys(
    merged: &Result<KeyDict<Value, Value>, DictFault>,
    want: Result<u64, DictFault>,
) -> bool {
    match (merged, want) {
        (Ok(dict), Ok(size)) => dict.size() == size,
        (Err(fault), Err(wanted)) => *fault == wanted,
        _ => false,
    }
}

// Two sessions put at two keys: both stand. At one key the second is refused, even where it puts
// the same value.
#[test]
fn merges_of_dictionaries(rt: HostRuntime) -> Result<(), Fail> {
    let alloc = rt.alloc();
    assert!(rt; dict_merges(alloc, (b'a', 1), [put(b'b', 2), put(b'b', 3)], Ok(2))?);
    let second = Err(DictFault::Key(1));
    assert!(rt; dict_merges(alloc, (b'a', 1), [put(b'b', 2), put(b'a', 1)], second)?);
    let first = Err(DictFault::Key(0));
    assert!(rt; dict_merges(alloc, (b'b', 1), [put(b'b', 2), put(b'a', 1)], first)?);
    Ok(())
}

#[test]
fn updates_of_a_dictionary(rt: HostRuntime) -> Result<(), Fail> {
    let mut a = dict(rt.alloc(), &[(b'a', 1)])?;
    Merging::apply(&mut a, put(b'a', 2))?;
    assert!(rt; a.get(&Value::Char(b'a')) == Some(&Value::Int(2)));
    let absent = Merging::apply(&mut a, DictUpdate::Remove(Value::Char(b'b')));
    assert_eq!(rt; absent, Err(DictFault::Key(0)));
    Ok(())
}

// A queue of these numbers.
fn queue(alloc: Global, removed: u64, numbers: &[i64]) -> Result<Queue<Value>, Fail> {
    let mut items = Vec::new(alloc);
    for number in numbers {
        items.push(Value::Int(*number))?;
    }
    Ok(Queue::of_items(removed, items))
}

const fn join(number: i64) -> QueueUpdate<Value> {
    QueueUpdate::Add(Value::Int(number))
}

const fn leave(number: i64) -> QueueUpdate<Value> {
    QueueUpdate::Remove(Value::Int(number))
}

// Whether this comes of merging an update, where 1 and 2 waited at the view and so many have left
// the place, in which these numbers wait: the front and the number of items, or a fault.
fn queue_merges(
    alloc: Global,
    (removed, numbers): (u64, &[i64]),
    update: QueueUpdate<Value>,
    want: Result<(i64, u64), QueueFault>,
) -> Result<bool, Fail> {
    let at_view = queue(alloc, 0, &[1, 2])?;
    let at_place = queue(alloc, removed, numbers)?;
    let merged = Merging::merge(&at_view, &at_place, &[update]);
    Ok(waits(&merged, want))
}

fn waits(merged: &Result<Queue<Value>, QueueFault>, want: Result<(i64, u64), QueueFault>) -> bool {
    match (merged, want) {
        (Ok(queue), Ok((front, size))) => {
            queue.front() == Some(&Value::Int(front)) && queue.size() == size
        }
        (Err(fault), Err(wanted)) => *fault == wanted,
        _ => false,
    }
}

#[test]
fn merges_of_queues(rt: HostRuntime) -> Result<(), Fail> {
    let alloc = rt.alloc();
    let refused = Err(QueueFault::Remove(0));
    // A session that adds and one that removes, in either order.
    assert!(rt; queue_merges(alloc, (0, &[1, 2, 3]), leave(1), Ok((2, 2)))?);
    assert!(rt; queue_merges(alloc, (1, &[2]), join(3), Ok((2, 2)))?);
    // Two that remove: the second is refused.
    assert!(rt; queue_merges(alloc, (1, &[2]), leave(1), refused)?);
    // Another item stands at the front.
    assert!(rt; queue_merges(alloc, (0, &[8, 7]), leave(7), refused)?);
    Ok(())
}

// From this call a caller's proof learns nothing of the queue, so it stays short.
fn apply_to_queue(queue: &mut Queue<Value>, update: QueueUpdate<Value>) -> Result<(), QueueFault> {
    Merging::apply(queue, update)
}

#[test]
fn updates_of_a_queue(rt: HostRuntime) -> Result<(), Fail> {
    let mut line = queue(rt.alloc(), 0, &[1])?;
    assert_eq!(rt;
        apply_to_queue(&mut line, leave(2)),
        Err(QueueFault::Remove(0))
    );
    apply_to_queue(&mut line, join(2))?;
    apply_to_queue(&mut line, leave(1))?;
    assert_eq!(rt; (line.removed(), line.size()), (1, 1));
    Ok(())
}

// The bodies at the view and at the place.
type Bodies = (Body, Body);

fn bags(alloc: Global) -> Result<Bodies, Fail> {
    let view = Body::Bag(bag(alloc, 2)?);
    Ok((view, Body::Bag(bag(alloc, 1)?)))
}

fn dicts(alloc: Global) -> Result<Bodies, Fail> {
    let view = Body::RcDict(dict(alloc, &[])?);
    Ok((view, Body::RcDict(dict(alloc, &[(b'a', 1)])?)))
}

fn queues(alloc: Global) -> Result<Bodies, Fail> {
    let view = Body::Queue(queue(alloc, 0, &[1])?);
    Ok((view, Body::Queue(queue(alloc, 1, &[])?)))
}

const fn counters() -> Bodies {
    let view = Body::Counter(counter(GREATEST));
    (view, Body::Counter(counter(GREATEST)))
}

// Whether a merge of the update gives a body of so many bytes, or is refused.
fn is_merged(alloc: Global, bodies: &Bodies, update: &Update, bytes: Option<u64>) -> bool {
    match merge_body(alloc, &bodies.0, &bodies.1, slice::from_ref(update)) {
        Ok(body) => bytes == Some(body.size()),
        Err(fault) => bytes.is_none() && fault == UpdateFault::Refused,
    }
}

// Whether the update leaves a body of so many bytes, or is refused.
fn is_updated(mut body: Body, update: Update, bytes: Option<u64>) -> bool {
    match update_body(&mut body, update) {
        Ok(()) => bytes == Some(body.size()),
        Err(fault) => bytes.is_none() && fault == UpdateFault::Refused,
    }
}

// Whether both are so of these bodies, where a merge is refused as this kind.
fn changes(
    alloc: Global,
    bodies: Bodies,
    update: Update,
    kind: ConflictKind,
    bytes: Option<u64>,
) -> bool {
    let is_kind = merge_kind(&bodies.1) == Some(kind);
    let merged = is_merged(alloc, &bodies, &update, bytes);
    is_kind && merged && is_updated(bodies.1, update, bytes)
}

#[test]
fn bodies_that_take_an_update(rt: HostRuntime) -> Result<(), Fail> {
    let alloc = rt.alloc();
    let kind = ConflictKind::BagRemove;
    assert!(rt; changes(alloc, bags(alloc)?, Update::Bag(add()), kind, Some(14)));
    let kind = ConflictKind::DictionaryKey;
    assert!(rt;
        changes(
            alloc,
            dicts(alloc)?,
            Update::RcDict(put(b'b', 2)),
            kind,
            Some(26)
        )
    );
    Ok(())
}

#[test]
fn bodies_that_refuse_an_update(rt: HostRuntime) -> Result<(), Fail> {
    let alloc = rt.alloc();
    let kind = ConflictKind::CounterRange;
    assert!(rt; changes(alloc, counters(), Update::Counter(1), kind, None));
    let kind = ConflictKind::QueueRemove;
    assert!(rt; changes(alloc, queues(alloc)?, Update::Queue(leave(1)), kind, None));
    // An update of another class.
    let kind = ConflictKind::BagRemove;
    assert!(rt; changes(alloc, bags(alloc)?, Update::Counter(1), kind, None));
    Ok(())
}
