ghost use Rattle.std.specs.Prelude.{◌≡◌, length, IfOk};

use gem_value::{Conflict, ConflictKind, Conflicts, Oid, Sequence};
use std::alloc::{AllocError, Global};
use std::test::Fail;

// Whether a name has this serial and counter, and this number.
fn is_numbered(oid: Oid, parts: (u32, u32), number: u64) -> bool {
    (oid.serial(), oid.counter()) == parts && oid.number() == number && Oid::of(number) == Some(oid)
}

fn is_shown(alloc: Global, oid: Oid, text: &str) -> Result<bool, Fail> {
    Ok(format!(in alloc; "{oid}")?.as_str() == text)
}

#[test]
fn names_of_objects(rt: HostRuntime) -> Result<(), Fail> {
    let alloc = rt.alloc();
    let first = Oid::from_parts(1, 2);
    assert!(rt; is_numbered(first, (1, 2), 16_777_218));
    assert!(rt; is_shown(alloc, first, "1:2")?);
    let globals = Oid::from_parts(0, 27);
    assert!(rt; is_numbered(globals, (0, 27), 27));
    assert!(rt; is_shown(alloc, globals, "0:27")?);
    let last = Oid::from_parts(16_777_215, 16_777_215);
    assert!(rt; is_numbered(last, (16_777_215, 16_777_215), 281_474_976_710_655));
    assert!(rt; is_shown(alloc, last, "16777215:16777215")?);
    assert_eq!(rt; Oid::of(281_474_976_710_656), None);
    Ok(())
}

#[test]
fn kinds_of_conflict(rt: HostRuntime) {
    let kinds = [
        (1, ConflictKind::WriteWrite),
        (2, ConflictKind::ReadWrite),
        (3, ConflictKind::WriteReadLock),
        (4, ConflictKind::WriteWriteLock),
        (5, ConflictKind::CounterRange),
        (6, ConflictKind::BagRemove),
        (7, ConflictKind::DictionaryKey),
        (8, ConflictKind::QueueRemove),
    ];
    for &(number, kind) in &kinds {
        assert_eq!(rt; kind.number(), number);
        assert_eq!(rt; kind > ConflictKind::CounterRange, number > 5);
    }
}

#[test]
fn lists(rt: HostRuntime) -> Result<(), Fail> {
    let conflict = Conflict {
        oid: Oid::from_parts(0, 5),
        kind: ConflictKind::WriteWrite,
        shown: 7,
    };
    let conflicts = Conflicts::of(vec![in rt.alloc(); conflict, conflict]?);
    assert!(rt; conflicts.as_slice() == [conflict, conflict].as_slice());
    assert_eq!(rt; conflicts.into_items().len(), 2);
    Ok(())
}

// The items 10, 20 and 30.
fn tens(alloc: Global) -> Result<Sequence<u64>, AllocError>
    ensures { IfOk result (λ list. length list ≡ 3) }
{
    Ok(Sequence::of(vec![in alloc; 10, 20, 30]?))
}

#[test]
fn items_of_a_list_change(rt: HostRuntime) -> Result<(), Fail> {
    let mut list = tens(rt.alloc())?;
    list.set(1, 21);
    assert_eq!(rt; list.as_slice(), [10, 21, 30].as_slice());
    Ok(())
}

#[test]
fn a_list_grows(rt: HostRuntime) -> Result<(), Fail> {
    let mut list = tens(rt.alloc())?;
    list.insert(1, 15)?;
    list.push(40)?;
    assert_eq!(rt; list.as_slice(), [10, 15, 20, 30, 40].as_slice());
    Ok(())
}

#[test]
fn a_list_shrinks(rt: HostRuntime) -> Result<(), Fail> {
    let mut list = tens(rt.alloc())?;
    assert_eq!(rt; list.remove(1), 20);
    assert_eq!(rt; list.pop(), Some(30));
    assert_eq!(rt; list.as_slice(), [10].as_slice());
    Ok(())
}

#[test]
fn copy_of_a_list(rt: HostRuntime) -> Result<(), Fail> {
    let copy = tens(rt.alloc())?.try_clone()?;
    assert!(rt; copy.len() == 3 && !copy.is_empty());
    assert_eq!(rt; copy.into_items().pop(), Some(30));
    Ok(())
}
