// A record and its entry, look-ups by name, and the size of an effect.
use gem_image::Image;
use gem_object::{Body, Counter, Object, Oid, Sequence};
use gem_record::{ByName, Effect, Entry, Mode, OidList, TxnRecord};
use gem_update::Update;
use sorted_pairs::ascend;
use std::alloc::{AllocError, Global};
use std::process::Abort;
use std::test::Fail;

fn by_name<T: Drop>(rt: &impl Abort, entries: Vec<(Oid, T)>) -> ByName<T> {
    assert!(rt; ascend(&entries));
    ByName::of(entries)
}

// The names 1:1 and 1:3.
fn two_names(alloc: Global) -> Result<OidList, AllocError> {
    let names = vec![in alloc; Oid::from_parts(1, 1), Oid::from_parts(1, 3)]?;
    Ok(OidList::of(names))
}

// A counter of this value.
fn counter(value: i64) -> Object {
    Object {
        class: Oid::from_parts(0, 19),
        segment: Oid::from_parts(0, 30),
        changed: 3,
        body: Body::Counter(Counter { value }),
    }
}

// A record with an update of 1:3 and a made object 2:1.
fn record(rt: &impl Abort, alloc: Global) -> Result<TxnRecord, Fail> {
    let updates = Sequence::of(vec![in alloc; Update::Counter(1), Update::Counter(2)]?);
    let updates = vec![in alloc; (Oid::from_parts(1, 3), updates)]?;
    let made = vec![in alloc; (Oid::from_parts(2, 1), counter(1))]?;
    Ok(TxnRecord {
        session: 2,
        transaction: 3,
        user: Oid::from_parts(0, 32),
        first_command: 4,
        last_command: 5,
        first_name: 1,
        view: 7,
        mode: Mode::NoRw,
        base: Image::empty(),
        touched: two_names(alloc)?,
        written: by_name(rt, Vec::new(alloc)),
        made: by_name(rt, made),
        updates: by_name(rt, updates),
    })
}

#[test]
fn entry_of_a_record(rt: HostRuntime) -> Result<(), Fail> {
    let entry = record(&rt, rt.alloc())?.entry();
    assert_eq!(rt;
        entry,
        Entry {
            session: 2,
            transaction: 3,
            user: Oid::from_parts(0, 32),
            first_command: 4,
            last_command: 5,
            first_name: 1,
            view: 7,
            mode: Mode::NoRw,
        }
    );
    Ok(())
}

#[test]
fn names_of_a_record(rt: HostRuntime) -> Result<(), Fail> {
    let record = record(&rt, rt.alloc())?;
    // A name, whether the transaction touched it, how many updates it has, and whether it was made.
    let rows = [
        (Oid::from_parts(0, 3), false, None, false),
        (Oid::from_parts(1, 1), true, None, false),
        (Oid::from_parts(1, 2), false, None, false),
        (Oid::from_parts(1, 3), true, Some(2), false),
        (Oid::from_parts(2, 1), false, None, true),
    ];
    for (oid, touched, updates, made) in rows {
        assert_eq!(rt; record.touched.contains(oid), touched, "{oid}");
        let found = record.updates.find(oid).map(|updates| updates.len());
        assert_eq!(rt; found, updates, "{oid}");
        assert_eq!(rt; record.made.contains(oid), made, "{oid}");
        assert!(rt; !record.written.contains(oid), "{oid}");
    }
    assert_eq!(rt; record.touched.as_slice().len(), 2);
    assert_eq!(rt; record.touched.into_names().len(), 2);
    assert_eq!(rt; record.made.into_entries().len(), 1);
    Ok(())
}

#[test]
fn sizes(rt: HostRuntime) -> Result<(), Fail> {
    let alloc = rt.alloc();
    // A commit that sets a counter to 20, and one that sets two.
    let one = vec![in alloc; (Oid::from_parts(1, 3), counter(20))]?;
    let (first, second) = (Oid::from_parts(1, 3), Oid::from_parts(1, 4));
    let two = vec![in alloc; (first, counter(20)), (second, counter(-1))]?;
    for (objects, bytes, in_log) in [(one, 37, 51), (two, 70, 84)] {
        let effect = Effect {
            number: 3,
            objects: by_name(&rt, objects),
        };
        assert_eq!(rt; effect.size(), bytes);
        assert_eq!(rt; effect.log_record_size(), in_log);
    }
    Ok(())
}
