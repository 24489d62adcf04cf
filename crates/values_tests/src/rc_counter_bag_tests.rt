// Merges as commits make them, and the calls of a bag.
use rc_counter_bag::{Bag, BagFault, BagUpdate, Counter, CounterRange};
use std::alloc::Global;
use std::process::Abort;
use std::test::Fail;

const GREATEST: i64 = 1152921504606846975;

const LEAST: i64 = -1152921504606846976;

const fn counter(value: i64) -> Counter {
    Counter { value }
}

// Whether this comes of merging a session's updates, where the counter has the first value at the
// view and the second at the place.
fn counter_merges(view: i64, place: i64, updates: &[i64], want: Option<Counter>) -> bool {
    Counter::merge(counter(view), counter(place), updates).ok() == want
}

#[test]
fn merges_of_counters(rt: HostRuntime) {
    assert!(rt; counter_merges(0, 0, &[1, 1], Some(counter(2))));
    // Two sessions count to 10 from 0; the second stands at 20.
    let ten = [1, 1, 1, 1, 1, 1, 1, 1, 1, 1];
    assert!(rt; counter_merges(0, 10, &ten, Some(counter(20))));
}

// At the ends of the range only the result counts.
#[test]
fn merges_at_the_ends(rt: HostRuntime) {
    let greatest = Some(counter(GREATEST));
    assert!(rt; counter_merges(GREATEST - 1, GREATEST - 1, &[1], greatest));
    assert!(rt; counter_merges(GREATEST - 1, GREATEST, &[1], None));
    assert!(rt; counter_merges(LEAST, LEAST, &[-1], None));
    assert!(rt; counter_merges(LEAST + 1, LEAST + 1, &[-1], Some(counter(LEAST))));
    let back = [i64::MAX, i64::MAX, -i64::MAX, -i64::MAX];
    assert!(rt; counter_merges(0, GREATEST, &back, greatest));
    assert!(rt; counter_merges(0, 0, &[i64::MIN, i64::MIN], None));
}

#[test]
fn updates_of_a_counter(rt: HostRuntime) {
    let last = counter(GREATEST);
    assert_eq!(rt; last.apply(1), Err(CounterRange));
    assert_eq!(rt; last.apply(-1), Ok(counter(GREATEST - 1)));
}

const fn add(letter: char) -> BagUpdate<char> {
    BagUpdate::Add(letter)
}

const fn remove(letter: char) -> BagUpdate<char> {
    BagUpdate::Remove(letter)
}

fn bag(alloc: Global, letters: &[(char, u64)]) -> Result<Bag<char>, Fail> {
    match Bag::of_pairs(letters.to_vec(alloc)?) {
        Some(bag) => Ok(bag),
        None => Err(Fail::new("no bag")),
    }
}

fn is_wanted(merged: &Result<Bag<char>, BagFault>, want: Result<&[(char, u64)], u64>) -> bool {
    match (merged, want) {
        (Ok(bag), Ok(letters)) => bag.pairs() == letters,
        (Err(fault), Err(at)) => *fault == BagFault::Missing(at),
        _ => false,
    }
}

// Whether this comes of merging a session's updates, where the bag holds one x at the view and
// these letters at the place: a bag, or the refused removal.
fn merges(
    alloc: Global,
    place: &[(char, u64)],
    updates: &[BagUpdate<char>],
    want: Result<&[(char, u64)], u64>,
) -> Result<bool, Fail> {
    let at_view = bag(alloc, &[('x', 1)])?;
    let at_place = bag(alloc, place)?;
    Ok(is_wanted(&Bag::merge(&at_view, &at_place, updates), want))
}

// One occurrence that two sessions remove: the second is refused. With two it isn't.
#[test]
fn removals(rt: HostRuntime) -> Result<(), Fail> {
    let alloc = rt.alloc();
    assert!(rt; merges(alloc, &[('x', 1)], &[remove('x')], Ok(&[]))?);
    assert!(rt; merges(alloc, &[], &[remove('x')], Err(0))?);
    assert!(rt; merges(alloc, &[('x', 2)], &[remove('x')], Ok(&[('x', 1)]))?);
    Ok(())
}

// Adds beside those of another session, and a removal of what was added.
#[test]
fn adds(rt: HostRuntime) -> Result<(), Fail> {
    let alloc = rt.alloc();
    let three = [add('a'), add('b'), add('c')];
    let after = [('a', 1), ('b', 2), ('c', 1)];
    assert!(rt; merges(alloc, &[('b', 1)], &three, Ok(&after))?);
    let removed_twice = [add('a'), remove('a'), remove('a'), remove('b')];
    assert!(rt; merges(alloc, &[], &removed_twice, Err(2))?);
    Ok(())
}

// Occurrences stay at the end of their range.
#[test]
fn most_occurrences(rt: HostRuntime) -> Result<(), Fail> {
    let alloc = rt.alloc();
    let most = [('x', u64::MAX)];
    assert!(rt; merges(alloc, &most, &[add('x')], Ok(&most))?);
    assert!(rt; merges(alloc, &most, &[remove('x')], Ok(&most))?);
    let less = [('x', u64::MAX - 2)];
    assert!(rt; merges(alloc, &[('x', u64::MAX - 1)], &[remove('x')], Ok(&less))?);
    Ok(())
}

fn is_no_bag(alloc: Global, pairs: &[(char, u64)]) -> Result<bool, Fail> {
    Ok(Bag::of_pairs(pairs.to_vec(alloc)?).is_none())
}

#[test]
fn pairs_that_are_no_bag(rt: HostRuntime) -> Result<(), Fail> {
    let alloc = rt.alloc();
    assert!(rt; is_no_bag(alloc, &[('b', 1), ('a', 1)])?);
    assert!(rt; is_no_bag(alloc, &[('a', 1), ('a', 1)])?);
    assert!(rt; is_no_bag(alloc, &[('a', 1), ('b', 0)])?);
    Ok(())
}

// From these calls a caller's proof learns nothing of the bag, so it stays short.
fn apply(bag: &mut Bag<char>, update: BagUpdate<char>) -> Result<(), BagFault> {
    bag.apply(update)
}

fn occurs(bag: &Bag<char>, letter: char, times: u64) -> bool {
    bag.count(&letter) == times
}

fn check_letters<R: Abort>(rt: &R, bag: &mut Bag<char>) -> Result<(), BagFault> {
    apply(bag, add('a'))?;
    apply(bag, add('a'))?;
    assert_eq!(rt; apply(bag, remove('c')), Err(BagFault::Missing(0)));
    apply(bag, remove('a'))?;
    assert!(rt; occurs(bag, 'a', 1));
    assert!(rt; occurs(bag, 'c', 0));
    apply(bag, add('c'))
}

fn has_equal_copy(bag: &Bag<char>) -> Result<bool, Fail> {
    Ok(bag.try_clone()?.pairs() == bag.pairs())
}

#[test]
fn calls_of_a_bag(rt: HostRuntime) -> Result<(), Fail> {
    let mut bag = bag(rt.alloc(), &[('b', u64::MAX - 1)])?;
    check_letters(&rt, &mut bag)?;
    assert_eq!(rt; bag.size(), u64::MAX);
    assert!(rt; has_equal_copy(&bag)?);
    Ok(())
}
