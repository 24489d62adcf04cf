// Merges as commits make them, and the calls of a queue.
use rc_queue::{Queue, QueueFault, QueueUpdate};
use std::alloc::{AllocError, Global};
use std::process::Abort;
use std::test::Fail;

const fn add(number: u32) -> QueueUpdate<u32> {
    QueueUpdate::Add(number)
}

const fn remove(number: u32) -> QueueUpdate<u32> {
    QueueUpdate::Remove(number)
}

fn queue(alloc: Global, removed: u64, numbers: &[u32]) -> Result<Queue<u32>, AllocError> {
    Ok(Queue::of_items(removed, numbers.to_vec(alloc)?))
}

fn has(queue: &Queue<u32>, removed: u64, numbers: &[u32]) -> bool {
    for (at, number) in numbers.iter().enumerate() {
        if queue.item(at as u64) != Some(number) {
            return false;
        }
    }
    queue.removed() == removed && queue.size() == numbers.len() as u64
}

fn is_wanted(merged: &Result<Queue<u32>, QueueFault>, want: Result<(u64, &[u32]), u64>) -> bool {
    match (merged, want) {
        (Ok(queue), Ok((removed, numbers))) => has(queue, removed, numbers),
        (Err(fault), Err(at)) => *fault == QueueFault::Remove(at),
        _ => false,
    }
}

// Whether this comes of merging a session's updates, where so many items had left at the view and
// these numbers wait at the place, which others have left: such a queue, or the refused removal.
fn merges(
    alloc: Global,
    view: u64,
    place: (u64, &[u32]),
    updates: &[QueueUpdate<u32>],
    want: Result<(u64, &[u32]), u64>,
) -> Result<bool, AllocError> {
    let at_view = queue(alloc, view, &[])?;
    let at_place = queue(alloc, place.0, place.1)?;
    Ok(is_wanted(&Queue::merge(&at_view, &at_place, updates), want))
}

// A producer beside a consumer, in either order, where 1 and 2 wait.
#[test]
fn producer_and_consumer(rt: HostRuntime) -> Result<(), Fail> {
    let alloc = rt.alloc();
    assert!(rt; merges(alloc, 0, (0, &[1, 2]), &[add(3)], Ok((0, &[1, 2, 3])))?);
    assert!(rt; merges(alloc, 0, (0, &[1, 2, 3]), &[remove(1)], Ok((1, &[2, 3])))?);
    assert!(rt; merges(alloc, 0, (0, &[1, 2]), &[remove(1)], Ok((1, &[2])))?);
    assert!(rt; merges(alloc, 0, (1, &[2]), &[add(3)], Ok((1, &[2, 3])))?);
    Ok(())
}

#[test]
fn two_consumers(rt: HostRuntime) -> Result<(), Fail> {
    let alloc = rt.alloc();
    // The second is refused, whatever is at the front by then.
    assert!(rt; merges(alloc, 0, (1, &[2]), &[remove(1)], Err(0))?);
    assert!(rt; merges(alloc, 0, (1, &[1]), &[add(4), remove(1)], Err(1))?);
    // A removal with nothing left.
    assert!(rt; merges(alloc, 5, (5, &[1]), &[remove(1), remove(2)], Err(1))?);
    Ok(())
}

// A session takes what it added itself, but another's add stands before it.
#[test]
fn own_items(rt: HostRuntime) -> Result<(), Fail> {
    let alloc = rt.alloc();
    assert!(rt; merges(alloc, 0, (0, &[]), &[add(7), remove(7)], Ok((1, &[])))?);
    assert!(rt; merges(alloc, 0, (0, &[8]), &[add(7), remove(7)], Err(1))?);
    Ok(())
}

fn has_equal_copy(queue: &Queue<u32>, removed: u64, numbers: &[u32]) -> Result<bool, AllocError> {
    Ok(has(&queue.try_clone()?, removed, numbers))
}

// From these calls a caller's proof learns nothing of the queue, so it stays short.
fn apply(queue: &mut Queue<u32>, update: QueueUpdate<u32>) -> Result<(), QueueFault> {
    queue.apply(update)
}

fn has_front(queue: &Queue<u32>, number: &u32) -> bool {
    queue.front() == Some(number)
}

fn check_removals<R: Abort>(rt: &R, line: &mut Queue<u32>) -> Result<(), QueueFault> {
    apply(line, remove(4))?;
    assert!(rt; has_front(line, &5));
    apply(line, remove(5))?;
    assert_eq!(rt; apply(line, remove(5)), Err(QueueFault::Remove(0)));
    Ok(())
}

#[test]
fn applies(rt: HostRuntime) -> Result<(), Fail> {
    let mut line = queue(rt.alloc(), u64::MAX - 1, &[4])?;
    apply(&mut line, add(5))?;
    assert_eq!(rt; apply(&mut line, remove(5)), Err(QueueFault::Remove(0)));
    assert!(rt; has_equal_copy(&line, u64::MAX - 1, &[4, 5])?);
    check_removals(&rt, &mut line)?;
    assert!(rt; has(&line, u64::MAX, &[]));
    Ok(())
}
