// What updates change of the slots and of the stored bytes of a body, by class.
use crate::gem_update_tests::{add, bag, dict, put, remove};
use body_growth::{Change, body_updated};
use gem_object::{BagUpdate, Body, Counter, DictUpdate, Queue, QueueUpdate, Value};
use gem_update::Update;
use std::alloc::Global;
use std::test::Fail;

// The slots and the bytes that go, and those that come.
const fn change(freed: (u64, u64), taken: (u64, u64)) -> Option<Change> {
    Some(Change {
        slots_freed: freed.0,
        slots_taken: taken.0,
        bytes_freed: freed.1,
        bytes_taken: taken.1,
    })
}

// Whether a body is told to change so by an update.
fn tells(body: &Body, update: Update, want: Option<Change>) -> bool {
    body_updated(body, &update) == want
}

// The same of a bag in which x occurs so often.
fn bag_tells(
    alloc: Global,
    occurrences: u64,
    update: BagUpdate<Value>,
    want: Option<Change>,
) -> Result<bool, Fail> {
    let body = Body::Bag(bag(alloc, occurrences)?);
    Ok(tells(&body, Update::Bag(update), want))
}

// A character has two bytes, and a count eight.
#[test]
fn bags_with_more(rt: HostRuntime) -> Result<(), Fail> {
    let alloc = rt.alloc();
    assert!(rt; bag_tells(alloc, 0, add(), change((0, 0), (1, 10)))?);
    assert!(rt; bag_tells(alloc, 1, add(), change((0, 0), (1, 0)))?);
    assert!(rt; bag_tells(alloc, u64::MAX, add(), change((0, 0), (0, 0)))?);
    Ok(())
}

#[test]
fn bags_with_less(rt: HostRuntime) -> Result<(), Fail> {
    let alloc = rt.alloc();
    assert!(rt; bag_tells(alloc, 0, remove(), None)?);
    assert!(rt; bag_tells(alloc, 1, remove(), change((1, 10), (0, 0)))?);
    assert!(rt; bag_tells(alloc, 2, remove(), change((1, 0), (0, 0)))?);
    assert!(rt; bag_tells(alloc, u64::MAX, remove(), change((0, 0), (0, 0)))?);
    Ok(())
}

const fn put_key(letter: u8, number: i64) -> Update {
    Update::RcDict(put(letter, number))
}

const fn remove_key(letter: u8) -> Update {
    Update::RcDict(DictUpdate::Remove(Value::Char(letter)))
}

// A dictionary with one key, a. An integer has nine bytes.
#[test]
fn dictionaries(rt: HostRuntime) -> Result<(), Fail> {
    let body = Body::RcDict(dict(rt.alloc(), &[(b'a', 1)])?);
    assert!(rt; tells(&body, put_key(b'a', 7), change((0, 11), (0, 11))));
    assert!(rt; tells(&body, put_key(b'b', 7), change((0, 0), (2, 11))));
    assert!(rt; tells(&body, remove_key(b'a'), change((2, 11), (0, 0))));
    assert!(rt; tells(&body, remove_key(b'b'), None));
    Ok(())
}

// A queue of one character, x.
fn queue(alloc: Global) -> Result<Body, Fail> {
    let mut items = Vec::new(alloc);
    items.push(Value::Char(b'x'))?;
    Ok(Body::Queue(Queue::of_items(0, items)))
}

const fn queue_add(item: Value) -> Update {
    Update::Queue(QueueUpdate::Add(item))
}

const fn queue_remove(item: Value) -> Update {
    Update::Queue(QueueUpdate::Remove(item))
}

#[test]
fn queues(rt: HostRuntime) -> Result<(), Fail> {
    let body = queue(rt.alloc())?;
    let x = Value::Char(b'x');
    assert!(rt; tells(&body, queue_add(Value::Nil), change((0, 0), (1, 1))));
    assert!(rt; tells(&body, queue_remove(x), change((1, 2), (0, 0))));
    assert!(rt; tells(&body, queue_remove(Value::Nil), None));
    Ok(())
}

#[test]
fn counters(rt: HostRuntime) -> Result<(), Fail> {
    let body = Body::Counter(Counter { value: 1 });
    assert!(rt; tells(&body, Update::Counter(1), change((0, 0), (0, 0))));
    assert!(rt; tells(&body, Update::Counter(i64::MAX), None));
    assert!(rt; tells(&body, Update::Bag(add()), None));
    Ok(())
}
