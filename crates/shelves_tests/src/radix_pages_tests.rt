//! Tests of what no clause says: that calls succeed, also after memory was refused, in maps of a
//! size at which each level of the tree is used.
ghost use Rattle.std.specs.Prelude.{◌≡◌, ◌+◌, ◌*◌, ◌^◌, ◌<◌, ◌≤◌};

use radix_pages::{Pages, Steps};
use std::alloc::{AllocError, Global};
use std::marker::Brand;
use std::process::Abort;
use std::sync::Arc;
use std::sync::ledger::{Blank, Ledger};
use std::test::Fail;

type Map = Pages<u64, 6, 8>;

const MANY: u64 = 100_000;

const FEW: u64 = 200;

const GREATEST: u64 = 281_474_976_710_655;

/// The keys of the tests, which lie apart.
fn key_at(index: u64) -> u64
    requires { index < 100000 }
    ensures { result < 2 ^ 48 }
{
    index * 2_814_749_767
}

fn value_at(index: u64) -> u64 {
    index ^ 0x5555
}

/// Whether the map has the first of these keys, and nothing else.
fn has_first(map: &Map, count: u64) -> bool
    requires { count ≤ 100000 }
{
    for index in 0..count {
        if map.get(key_at(index)).copied() != Some(value_at(index)) {
            return false;
        }
    }
    map.count() == count
}

/// Inserts the key at this place with its value.
fn insert_at<L: Ledger>(
    alloc: Global,
    map: &mut Map,
    index: u64,
    steps: &mut Steps<L>,
) -> Result<(), AllocError>
    requires { index < 100000 }
{
    map.insert(alloc, key_at(index), value_at(index), steps)
}

/// The map of the first of these keys.
fn filled<L: Ledger>(alloc: Global, count: u64, steps: &mut Steps<L>) -> Result<Map, AllocError>
    requires { count ≤ 100000 }
{
    let mut map = Map::new();
    for index in 0..count {
        insert_at(alloc, &mut map, index, steps)?;
    }
    Ok(map)
}

/// The map with the greatest key set, which builds at most 8 nodes.
fn with_greatest<L: Ledger>(
    alloc: Global,
    old: &Map,
    steps: &mut Steps<L>,
) -> Result<Map, AllocError>
    ensures { steps.new ≤ steps.old + 8 }
{
    old.set(alloc, GREATEST, 7, steps)
}

/// Whether the search for the next key finds as many keys as there are, and then none.
fn finds_each(map: &Map) -> bool {
    let mut from = 0;
    for _ in 0..map.count() {
        let Some((key, _)) = map.next_from(from) else {
            return false;
        };
        if key > GREATEST {
            return false;
        }
        from = key + 1;
    }
    map.next_from(from).is_none()
}

/// The value at the key, kept beside the map.
fn kept(map: &Map, key: u64) -> Result<Option<Arc<u64>>, AllocError> {
    match map.leaf(key) {
        Some(value) => Ok(Some(value.clone()?)),
        None => Ok(None),
    }
}

/// Whether a value stays that is kept, once the map is gone.
fn keeps<L: Ledger>(alloc: Global, steps: &mut Steps<L>) -> Result<bool, AllocError> {
    let map = filled(alloc, FEW, steps)?;
    let value = kept(&map, key_at(7))?;
    let none = kept(&map, key_at(7) + 1)?;
    drop(map);
    Ok(none.is_none() && value.map(|value| *value) == Some(value_at(7)))
}

/// Takes what threads may share.
fn goes_to_threads<T: Send + Sync>(_shared: &T) {}

fn set_greatest<R: Abort, L: Ledger>(rt: &R, alloc: Global, blank: Blank) -> Result<(), Fail>
    requires name { blank.name ≡ L.name }
    requires parts { blank.parts ≡ L.parts }
    requires some_parts { 0 < L.parts }
{
    let mut steps = Steps::<L>::start(blank);
    let old = filled(alloc, MANY, &mut steps)?;
    let new = with_greatest(alloc, &old, &mut steps)?;
    goes_to_threads(&old);
    assert!(rt; has_first(&old, MANY));
    assert_eq!(rt; old.get(GREATEST).copied(), None);
    assert_eq!(rt; new.get(GREATEST).copied(), Some(7));
    assert_eq!(rt; new.count(), MANY + 1);
    assert!(rt; finds_each(&old));
    assert!(rt; finds_each(&new));
    Ok(())
}

#[test]
fn greatest_key(rt: HostRuntime) -> Result<(), Fail> {
    set_greatest::<HostRuntime, Brand>(&rt, rt.alloc(), Blank::new(1))
}

fn keep_one<R: Abort, L: Ledger>(rt: &R, alloc: Global, blank: Blank) -> Result<(), Fail>
    requires name { blank.name ≡ L.name }
    requires parts { blank.parts ≡ L.parts }
    requires some_parts { 0 < L.parts }
{
    let mut steps = Steps::<L>::start(blank);
    assert!(rt; keeps(alloc, &mut steps)?);
    Ok(())
}

#[test]
fn kept_value(rt: HostRuntime) -> Result<(), Fail> {
    keep_one::<HostRuntime, Brand>(&rt, rt.alloc(), Blank::new(1))
}

/// Inserts the key at this place, which comes next. Where memory is refused the map is as it was,
/// and the same insert then succeeds.
fn insert_next<R: Abort, L: Ledger>(
    rt: &R,
    alloc: Global,
    map: &mut Map,
    index: u64,
    steps: &mut Steps<L>,
) -> Result<(), Fail>
    requires { index < 100000 }
{
    if insert_at(alloc, map, index, steps).is_err() {
        assert!(rt; has_first(map, index));
        insert_at(alloc, map, index, steps)?;
    }
    Ok(())
}

/// Inserts into a map that shares nothing, and into one that shares all with the one before it.
fn insert_few<R: Abort, L: Ledger>(rt: &R, alloc: Global, blank: Blank) -> Result<(), Fail>
    requires name { blank.name ≡ L.name }
    requires parts { blank.parts ≡ L.parts }
    requires some_parts { 0 < L.parts }
{
    let mut steps = Steps::<L>::start(blank);
    let mut alone = Map::new();
    let mut sharing = Map::new();
    for index in 0..FEW {
        insert_next(rt, alloc, &mut alone, index, &mut steps)?;
        let old = sharing.share()?;
        insert_next(rt, alloc, &mut sharing, index, &mut steps)?;
        assert!(rt; has_first(&old, index));
    }
    assert!(rt; has_first(&alone, FEW));
    assert!(rt; has_first(&sharing, FEW));
    Ok(())
}

/// `bench/refused` runs this with each allocation refused in turn.
#[test]
fn refused_memory(rt: HostRuntime) -> Result<(), Fail> {
    insert_few::<HostRuntime, Brand>(&rt, rt.alloc(), Blank::new(1))
}
