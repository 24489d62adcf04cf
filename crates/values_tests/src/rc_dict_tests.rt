// Merges as commits make them, and the calls of a dictionary.
use rc_dict::{DictFault, DictUpdate, KeyDict};
use std::alloc::Global;
use std::process::Abort;
use std::test::Fail;

const fn put(letter: char, value: u32) -> DictUpdate<char, u32> {
    DictUpdate::Put(letter, value)
}

const fn remove(letter: char) -> DictUpdate<char, u32> {
    DictUpdate::Remove(letter)
}

fn dictionary(alloc: Global, entries: &[(char, u32)]) -> Result<KeyDict<char, u32>, Fail> {
    match KeyDict::of_pairs(entries.to_vec(alloc)?) {
        Some(dict) => Ok(dict),
        None => Err(Fail::new("no dictionary")),
    }
}

fn is_wanted(
    merged: &Result<KeyDict<char, u32>, DictFault>,
    want: Result<&[(char, u32)], u64>,
) -> bool {
    match (merged, want) {
        (Ok(dict), Ok(entries)) => dict.pairs() == entries,
        (Err(fault), Err(at)) => *fault == DictFault::Key(at),
        _ => false,
    }
}

// Whether this comes of merging a session's updates of the dictionary at the view with that at the
// place: a dictionary, or the refused update.
fn merges(
    alloc: Global,
    view: &[(char, u32)],
    place: &[(char, u32)],
    updates: &[DictUpdate<char, u32>],
    want: Result<&[(char, u32)], u64>,
) -> Result<bool, Fail> {
    let at_view = dictionary(alloc, view)?;
    let at_place = dictionary(alloc, place)?;
    Ok(is_wanted(&KeyDict::merge(&at_view, &at_place, updates), want))
}

#[test]
fn merges_of_puts(rt: HostRuntime) -> Result<(), Fail> {
    let alloc = rt.alloc();
    // Two sessions put at one key: the second is refused. At two keys both stand.
    let a = [('a', 1)];
    assert!(rt; merges(alloc, &[], &a, &[put('a', 1)], Err(0))?);
    assert!(rt; merges(alloc, &[], &a, &[put('b', 2)], Ok(&[('a', 1), ('b', 2)]))?);
    // The first update whose key was changed is named.
    let updates = [put('b', 7), remove('c'), put('a', 2)];
    assert!(rt; merges(alloc, &[('a', 1), ('c', 3)], &[('a', 2)], &updates, Err(1))?);
    Ok(())
}

#[test]
fn merges_of_removals(rt: HostRuntime) -> Result<(), Fail> {
    let alloc = rt.alloc();
    // A key without a value at the view and at the place may be removed.
    assert!(rt; merges(alloc, &[], &[], &[remove('a')], Ok(&[]))?);
    assert!(rt; merges(alloc, &[('a', 1)], &[], &[remove('a')], Err(0))?);
    Ok(())
}

#[test]
fn last_updates_stand(rt: HostRuntime) -> Result<(), Fail> {
    let alloc = rt.alloc();
    let updates = [put('a', 2), put('b', 3), put('a', 4), remove('b')];
    let after = [('a', 4), ('z', 9)];
    assert!(rt;
        merges(
            alloc,
            &[('a', 1)],
            &[('a', 1), ('z', 9)],
            &updates,
            Ok(&after)
        )?
    );
    Ok(())
}

fn is_no_dictionary(alloc: Global, pairs: &[(char, u32)]) -> Result<bool, Fail> {
    Ok(KeyDict::of_pairs(pairs.to_vec(alloc)?).is_none())
}

#[test]
fn pairs_that_are_no_dictionary(rt: HostRuntime) -> Result<(), Fail> {
    let alloc = rt.alloc();
    assert!(rt; is_no_dictionary(alloc, &[('b', 1), ('a', 1)])?);
    assert!(rt; is_no_dictionary(alloc, &[('a', 1), ('a', 2)])?);
    Ok(())
}

// From these calls a caller's proof learns nothing of the dictionary, so it stays short.
fn apply(dict: &mut KeyDict<char, u32>, update: DictUpdate<char, u32>) -> Result<(), DictFault> {
    dict.apply(update)
}

fn has(dict: &KeyDict<char, u32>, letter: char, value: Option<&u32>) -> bool {
    dict.get(&letter) == value
}

fn check_letters<R: Abort>(rt: &R, dict: &mut KeyDict<char, u32>) -> Result<(), DictFault> {
    apply(dict, put('a', 1))?;
    apply(dict, put('b', 3))?;
    assert_eq!(rt; apply(dict, remove('c')), Err(DictFault::Key(0)));
    assert!(rt; has(dict, 'b', Some(&3)));
    assert!(rt; has(dict, 'c', None));
    apply(dict, remove('a'))
}

fn has_equal_copy(dict: &KeyDict<char, u32>) -> Result<bool, Fail> {
    Ok(dict.try_clone()?.pairs() == dict.pairs())
}

#[test]
fn calls(rt: HostRuntime) -> Result<(), Fail> {
    let mut dict = dictionary(rt.alloc(), &[('b', 2)])?;
    check_letters(&rt, &mut dict)?;
    assert_eq!(rt; dict.size(), 1);
    assert!(rt; has_equal_copy(&dict)?);
    Ok(())
}
