// Which made objects are kept: over made objects in a few shapes, and along a chain of many.
ghost use Rattle.std.specs.Prelude.{◌↔◌, IsTrue};
ghost use Rattle.std.specs.Ordering.{nat_cmp};
ghost use Rattle.sorted_pairs.specs.Place.{Ascends};

use gem_object::{BagUpdate, Body, Object, Oid, Sequence, Value};
use gem_update::Update;
use kept_set::kept;
use sorted_pairs::ascend;
use std::alloc::Global;
use std::test::Fail;

// A class and a segment that weren't made.
const KERNEL: u64 = 200_001;

const CHAIN: u64 = 100_000;

fn named(number: u64) -> Result<Oid, Fail> {
    Ok(Oid::of(number).ok_or("the number of a name")?)
}

// An object of this class and segment, whose slots refer to these names.
fn object(alloc: Global, class: u64, segment: u64, slots: &[u64]) -> Result<Object, Fail> {
    let mut values = Vec::new(alloc);
    for slot in slots {
        values.push(Value::Ref(named(*slot)?))?;
    }
    Ok(Object {
        class: named(class)?,
        segment: named(segment)?,
        changed: 0,
        body: Body::Plain(Sequence::of(values)),
    })
}

fn is_ascending(made: &[(Oid, Object)]) -> bool
    ensures { IsTrue result ↔ Ascends nat_cmp made.now }
{
    ascend(made)
}

// A name, and the class, segment and slots of its object.
type Row = (u64, u64, u64, &'static [u64]);

fn shape(alloc: Global, row: &Row) -> Result<(Oid, Object), Fail> {
    let &(name, class, segment, slots) = row;
    Ok((named(name)?, object(alloc, class, segment, slots)?))
}

fn shapes(alloc: Global) -> Result<Vec<(Oid, Object)>, Fail> {
    let rows: [Row; 8] = [
        // A cycle, from which there is a way to an object of a made class and segment.
        (1, KERNEL, KERNEL, [2, KERNEL].as_slice()),
        (2, KERNEL, KERNEL, [1, 3].as_slice()),
        (3, 4, 5, [].as_slice()),
        (4, KERNEL, KERNEL, [].as_slice()),
        (5, KERNEL, KERNEL, [].as_slice()),
        // It refers to itself, and to the cycle.
        (6, KERNEL, KERNEL, [6, 1].as_slice()),
        (8, KERNEL, KERNEL, [9, 9].as_slice()),
        (9, KERNEL, KERNEL, [].as_slice()),
    ];
    let mut made = Vec::new(alloc);
    for row in &rows {
        made.push(shape(alloc, row)?)?;
    }
    Ok(made)
}

// A bag to which an object of this name was added.
fn update(alloc: Global, added: u64) -> Result<(Oid, Sequence<Update>), Fail> {
    let item = Value::Ref(named(added)?);
    let updates = vec![in alloc; Update::Counter(1), Update::Bag(BagUpdate::Add(item))]?;
    Ok((named(KERNEL)?, Sequence::of(updates)))
}

fn numbers(alloc: Global, names: &[Oid]) -> Result<Vec<u64>, Fail> {
    let mut numbers = Vec::new(alloc);
    for name in names {
        numbers.push(name.number())?;
    }
    Ok(numbers)
}

// Whether these names are kept, where an object of this class was written whose slot refers to a
// name, and another name was added to a bag.
fn keeps(
    alloc: Global,
    made: &[(Oid, Object)],
    class: u64,
    slot: u64,
    added: u64,
    want: &[u64],
) -> Result<bool, Fail>
    requires { Ascends nat_cmp made.now }
{
    let written = vec![in alloc; (named(7)?, object(alloc, class, KERNEL, &[slot])?)]?;
    let updates = vec![in alloc; update(alloc, added)?]?;
    let names = kept(alloc, &written, made, &updates)?;
    Ok(numbers(alloc, &names)?.as_slice() == want)
}

#[test]
fn keeps_what_is_reached(rt: HostRuntime) -> Result<(), Fail> {
    let alloc = rt.alloc();
    let made = shapes(alloc)?;
    assert!(rt; is_ascending(&made));
    assert!(rt; keeps(alloc, &made, KERNEL, KERNEL, KERNEL, &[])?);
    assert!(rt; keeps(alloc, &made, KERNEL, 1, KERNEL, &[1, 2, 3, 4, 5])?);
    assert!(rt; keeps(alloc, &made, KERNEL, 3, KERNEL, &[3, 4, 5])?);
    assert!(rt; keeps(alloc, &made, KERNEL, KERNEL, 8, &[8, 9])?);
    assert!(rt; keeps(alloc, &made, 4, 6, 9, &[1, 2, 3, 4, 5, 6, 9])?);
    // No object of this name was made.
    assert!(rt; keeps(alloc, &made, KERNEL, 7, KERNEL, &[])?);
    Ok(())
}

// So many made objects, of which each refers to the next.
fn chain(alloc: Global) -> Result<Vec<(Oid, Object)>, Fail> {
    let mut made = Vec::new(alloc);
    for number in 1..CHAIN + 1 {
        made.push((
            named(number)?,
            object(alloc, KERNEL, KERNEL, &[number + 1])?,
        ))?;
    }
    Ok(made)
}

// Whether so many names are kept, where an object was written that refers to this one.
fn keeps_so_many(
    alloc: Global,
    made: &[(Oid, Object)],
    first: u64,
    want: usize,
) -> Result<bool, Fail>
    requires { Ascends nat_cmp made.now }
{
    let written = vec![in alloc; (named(KERNEL)?, object(alloc, KERNEL, KERNEL, &[first])?)]?;
    Ok(kept(alloc, &written, made, &[])?.len() == want)
}

#[test]
fn keeps_a_long_chain(rt: HostRuntime) -> Result<(), Fail> {
    let alloc = rt.alloc();
    let made = chain(alloc)?;
    assert!(rt; is_ascending(&made));
    assert!(rt; keeps_so_many(alloc, &made, 1, 100_000)?);
    assert!(rt; keeps_so_many(alloc, &made, 99_999, 2)?);
    assert!(rt; keeps_so_many(alloc, &made, 100_001, 0)?);
    Ok(())
}
