// The effect of a commit, of a record made by hand.
ghost use Rattle.std.specs.Prelude.{◌≡◌, ◌<◌, ◌^◌};
ghost use Rattle.gem_object.specs.gem_value.Oid.{oid_number};

use gem_image::Image;
use gem_object::{Body, Counter, Object, Oid, Sequence, Value, Values};
use gem_record::{ByName, Effect, Mode, OidList, TxnRecord};
use gem_sound::names::{
    ARRAY_CLASS, DATA_CURATOR, DATA_CURATOR_SEGMENT, KERNEL_SERIAL, RC_COUNTER_CLASS,
};
use gem_update::Update;
use sorted_pairs::ascend;
use std::alloc::{AllocError, Global};
use std::process::Abort;
use std::test::Fail;
use stone_core::effect_of;

// The serial and the counter of a name.
type Parts = (u32, u32);

// What was written, and a counter that was updated. Session 3 made four objects.
const WRITTEN: Parts = (2, 7);

const UPDATED: Parts = (1, 3);

const MADE: u32 = 3;

fn name(serial: u32, counter: u32) -> Oid
    requires serial { serial < 2 ^ 24 }
    requires counter { counter < 2 ^ 24 }
    ensures { result ≡ oid_number serial counter }
{
    Oid::from_parts(serial, counter)
}

fn is_named(oid: Oid, parts: Parts) -> bool {
    oid.serial() == parts.0 && oid.counter() == parts.1
}

fn by_name<T: Drop>(rt: &impl Abort, entries: Vec<(Oid, T)>) -> ByName<T> {
    assert!(rt; ascend(&entries));
    ByName::of(entries)
}

fn one_name(alloc: Global, oid: Oid) -> Result<OidList, AllocError> {
    Ok(OidList::of(vec![in alloc; oid]?))
}

// An array in whose slots these names stand.
fn array(alloc: Global, names: &[Oid]) -> Result<Object, AllocError> {
    let mut values = Vec::new(alloc);
    for oid in names {
        values.push(Value::Ref(*oid))?;
    }
    Ok(Object {
        class: name(KERNEL_SERIAL, ARRAY_CLASS),
        segment: name(KERNEL_SERIAL, DATA_CURATOR_SEGMENT),
        changed: 0,
        body: Body::Plain(Values::of(values)),
    })
}

fn counter(value: i64, changed: u64) -> Object {
    Object {
        class: name(KERNEL_SERIAL, RC_COUNTER_CLASS),
        segment: name(KERNEL_SERIAL, DATA_CURATOR_SEGMENT),
        changed,
        body: Body::Counter(Counter { value }),
    }
}

// Adds an array in whose slots these names stand.
fn push_array(
    alloc: Global,
    made: &mut Vec<(Oid, Object)>,
    oid: Oid,
    names: &[Oid],
) -> Result<(), AllocError> {
    made.push((oid, array(alloc, names)?))?;
    Ok(())
}

// What the session made: the second and the fourth lead to one another, the first to the second,
// and the third to the first and the fourth.
fn made(rt: &impl Abort, alloc: Global) -> Result<ByName<Object>, AllocError> {
    let (first, second) = (name(MADE, 1), name(MADE, 2));
    let (third, fourth) = (name(MADE, 3), name(MADE, 4));
    let mut made = Vec::new(alloc);
    push_array(alloc, &mut made, first, &[second])?;
    push_array(alloc, &mut made, second, &[fourth])?;
    push_array(alloc, &mut made, third, &[first, fourth])?;
    push_array(alloc, &mut made, fourth, &[second])?;
    Ok(by_name(rt, made))
}

// The session wrote an object, which leads to the second that it made.
fn written(rt: &impl Abort, alloc: Global) -> Result<ByName<Object>, AllocError> {
    let written = array(alloc, &[name(MADE, 2)])?;
    let written = vec![in alloc; (name(WRITTEN.0, WRITTEN.1), written)]?;
    Ok(by_name(rt, written))
}

// It updated a counter.
fn updates(rt: &impl Abort, alloc: Global) -> Result<ByName<Sequence<Update>>, AllocError> {
    let added = Sequence::of(vec![in alloc; Update::Counter(5)]?);
    let updates = vec![in alloc; (name(UPDATED.0, UPDATED.1), added)]?;
    Ok(by_name(rt, updates))
}

fn record(rt: &impl Abort, alloc: Global) -> Result<TxnRecord, AllocError> {
    let touched = one_name(alloc, name(WRITTEN.0, WRITTEN.1))?;
    let written = written(rt, alloc)?;
    let made = made(rt, alloc)?;
    let updates = updates(rt, alloc)?;
    Ok(TxnRecord {
        session: 3,
        transaction: 1,
        user: name(KERNEL_SERIAL, DATA_CURATOR),
        first_command: 1,
        last_command: 2,
        first_name: 1,
        view: 7,
        mode: Mode::Full,
        base: Image::empty(),
        touched,
        written,
        made,
        updates,
    })
}

#[derive(Clone, Copy)]
enum Contents {
    Counter(i64),
    // In the first slot is the name with these parts.
    LeadsTo(Parts),
}

fn leads_to(values: &[Value], parts: Parts) -> bool {
    match values.first() {
        Some(Value::Ref(oid)) => is_named(*oid, parts),
        _ => false,
    }
}

fn holds(body: &Body, contents: Contents) -> bool {
    match (body, contents) {
        (Body::Counter(counter), Contents::Counter(value)) => counter.value == value,
        (Body::Plain(values), Contents::LeadsTo(parts)) => leads_to(values.as_slice(), parts),
        _ => false,
    }
}

// The objects of the effect, by name: each was changed by commit 9. Nothing that was written leads
// to the first and the third that were made.
fn is_wanted(effect: &Effect) -> bool {
    let want = [
        (UPDATED, Contents::Counter(17)),
        (WRITTEN, Contents::LeadsTo((MADE, 2))),
        ((MADE, 2), Contents::LeadsTo((MADE, 4))),
        ((MADE, 4), Contents::LeadsTo((MADE, 2))),
    ];
    let objects = effect.objects.as_slice();
    objects.len() == want.len()
        && objects.iter().zip(&want).all(|((oid, object), (parts, contents))| {
            is_named(*oid, *parts) && object.changed == 9 && holds(&object.body, *contents)
        })
}

#[test]
fn effect_of_a_record(rt: HostRuntime) -> Result<(), Fail> {
    let alloc = rt.alloc();
    let done = record(&rt, alloc)?;
    let merged = vec![in alloc; (name(UPDATED.0, UPDATED.1), counter(17, 4))]?;
    let effect = effect_of(alloc, 9, &done, by_name(&rt, merged))?;
    assert_eq!(rt; effect.number, 9);
    assert!(rt; is_wanted(&effect));
    Ok(())
}
