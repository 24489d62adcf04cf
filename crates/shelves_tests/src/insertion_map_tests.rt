// A table of edits, and the calls of a map.
use insertion_map::InsertionMap;
use std::alloc::{AllocError, Global};
use std::test::Fail;

#[derive(Clone, Copy)]
enum Edit {
    Put(char, u32),
    Remove(char),
}

fn edited(map: &mut InsertionMap<char, u32>, edit: Edit) -> Result<Option<u32>, AllocError> {
    match edit {
        Edit::Put(letter, value) => map.put(letter, value),
        Edit::Remove(letter) => Ok(map.remove(&letter)),
    }
}

fn has_pairs(map: &InsertionMap<char, u32>, pairs: &[(char, u32)]) -> bool {
    for (at, (letter, value)) in pairs.iter().enumerate() {
        if map.pair(at) != Some((letter, value)) {
            return false;
        }
    }
    map.len() == pairs.len()
}

// Whether an edit of a map gives the value that the key had, and leaves these pairs.
fn leaves(
    alloc: Global,
    pairs: &[(char, u32)],
    edit: Edit,
    had: Option<u32>,
    want: &[(char, u32)],
) -> Result<bool, AllocError> {
    let Some(mut map) = InsertionMap::of_pairs(alloc, pairs.to_vec(alloc)?)? else {
        return Ok(false);
    };
    Ok(edited(&mut map, edit)? == had && has_pairs(&map, want))
}

#[test]
fn puts(rt: HostRuntime) -> Result<(), Fail> {
    let alloc = rt.alloc();
    // A new key comes last, whatever its order among the keys.
    assert!(rt; leaves(alloc, &[], Edit::Put('b', 1), None, &[('b', 1)])?);
    let two = [('b', 1), ('c', 2)];
    let after = [('b', 1), ('c', 2), ('a', 3)];
    assert!(rt; leaves(alloc, &two, Edit::Put('a', 3), None, &after)?);
    // A key that is there keeps its place.
    let three = [('b', 1), ('a', 2), ('c', 3)];
    let after = [('b', 1), ('a', 7), ('c', 3)];
    assert!(rt; leaves(alloc, &three, Edit::Put('a', 7), Some(2), &after)?);
    Ok(())
}

// The others keep their order.
#[test]
fn removals(rt: HostRuntime) -> Result<(), Fail> {
    let alloc = rt.alloc();
    let four = [('b', 1), ('a', 2), ('d', 3), ('c', 4)];
    let after = [('a', 2), ('d', 3), ('c', 4)];
    assert!(rt; leaves(alloc, &four, Edit::Remove('b'), Some(1), &after)?);
    let three = [('b', 1), ('a', 2), ('d', 3)];
    let after = [('b', 1), ('d', 3)];
    assert!(rt; leaves(alloc, &three, Edit::Remove('a'), Some(2), &after)?);
    let two = [('b', 1), ('a', 2)];
    assert!(rt; leaves(alloc, &two, Edit::Remove('c'), None, &two)?);
    Ok(())
}

#[test]
fn a_key_twice(rt: HostRuntime) -> Result<(), Fail> {
    let alloc = rt.alloc();
    let twice = [('a', 1), ('b', 2), ('a', 1)].to_vec(alloc)?;
    assert!(rt; InsertionMap::of_pairs(alloc, twice)?.is_none());
    Ok(())
}

// The map of `b` and then `a`.
fn two_pairs(alloc: Global) -> Result<InsertionMap<char, u32>, AllocError> {
    let mut map = InsertionMap::new(alloc);
    map.put('b', 1)?;
    map.put('a', 2)?;
    Ok(map)
}

#[test]
fn finds_keys(rt: HostRuntime) -> Result<(), Fail> {
    let map = two_pairs(rt.alloc())?;
    assert!(rt; map.get(&'b') == Some(&1) && map.contains_key(&'b'));
    assert!(rt; map.get(&'a') == Some(&2) && map.contains_key(&'a'));
    assert!(rt; map.get(&'c').is_none() && !map.contains_key(&'c'));
    assert_eq!(rt; map.pair(2), None);
    Ok(())
}

#[test]
fn says_whether_it_is_empty(rt: HostRuntime) -> Result<(), Fail> {
    assert!(rt; InsertionMap::<char, u32>::new(rt.alloc()).is_empty());
    assert!(rt; !two_pairs(rt.alloc())?.is_empty());
    Ok(())
}

#[test]
fn a_copy_stays(rt: HostRuntime) -> Result<(), Fail> {
    let mut map = two_pairs(rt.alloc())?;
    let copy = map.try_clone()?;
    map.remove(&'b');
    assert_eq!(rt; copy.pair(0), Some((&'b', &1)));
    assert_eq!(rt; map.pair(0), Some((&'a', &2)));
    Ok(())
}
