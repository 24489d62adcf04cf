// Each call of a view once, with ample memory.
ghost use Rattle.std.specs.Prelude.{◌≡◌, ◌<◌};

use crate::notes::note_unless;
use crate::walk::is_shared;
use gem_object::{Body, Counter, Object, Oid, Right, Value, Values};
use gem_record::{Mode, TxnRecord};
use gem_sound::names::{ARRAY_CLASS, DATA_CURATOR_SEGMENT, SYSTEM_SEGMENT, kernel_name};
use gem_update::Update;
use kernel_state::{begin_over, larger_image};
use object_programs::COUNTER_LIMIT;
use radix_pages::Steps;
use session_view::{View, ViewFault};
use std::alloc::{AllocError, Global};
use std::marker::Brand;
use std::sync::ledger::{Blank, Ledger};
use std::test::Fail;

/// The name of the image's array in DataCurator's own segment.
fn own_array() -> Oid {
    Oid::from_parts(2, 1)
}

/// The name of the image's array in the system's segment.
fn system_array() -> Oid {
    Oid::from_parts(2, 7)
}

/// The name of a counter of the image in DataCurator's own segment.
fn own_counter() -> Oid {
    Oid::from_parts(2, 2)
}

/// Whether a look answers the array.
fn looks(view: &mut View) -> Result<bool, AllocError> {
    view.reserve(3)?;
    let array = own_array();
    if !view.is_changeable(array) {
        return Ok(false);
    }
    Ok(view.look(array).is_ok())
}

/// Whether an object is seen that wasn't made.
fn is_seen(view: &View, oid: Oid) -> bool {
    view.peek(oid).is_some() && !view.is_made(oid)
}

/// Whether a change of the array is done, and seen afterwards.
fn changes(alloc: Global, view: &mut View) -> Result<bool, AllocError> {
    let mut values = Values::of(Vec::new(alloc));
    values.push(Value::Int(7))?;
    let body = Body::Plain(values);
    let array = own_array();
    if !view.is_changeable(array) || !view.accepts_body(array, &body)? {
        return Ok(false);
    }
    if view.change(array, body).is_err() {
        return Ok(false);
    }
    Ok(is_seen(view, array))
}

/// Whether a change of the system's array is refused.
fn refuses_change(alloc: Global, view: &mut View) -> Result<bool, AllocError> {
    let mut values = Values::of(Vec::new(alloc));
    values.push(Value::Int(7))?;
    let body = Body::Plain(values);
    let array = system_array();
    if !view.is_changeable(array) || !view.accepts_body(array, &body)? {
        return Ok(false);
    }
    let refused = view.right(array) == Right::Read;
    Ok(refused && view.change(array, body) == Err(ViewFault::NoWrite(array)))
}

/// Whether an array with one slot more than there may be is too large, and one with as many slots
/// isn't.
fn knows_limit(alloc: Global, view: &mut View) -> Result<bool, AllocError> {
    let large = makes_with(alloc, view, 65_001)? == Err(ViewFault::TooLarge);
    Ok(large && makes_with(alloc, view, 65_000)?.is_ok())
}

/// What comes of making an array with so many slots.
fn makes_with(
    alloc: Global,
    view: &mut View,
    slots: usize,
) -> Result<Result<Oid, ViewFault>, AllocError> {
    let mut values = Values::of(Vec::new(alloc));
    for _ in 0..slots {
        values.push(Value::Nil)?;
    }
    let object = Object {
        class: kernel_name(ARRAY_CLASS),
        segment: kernel_name(DATA_CURATOR_SEGMENT),
        changed: 0,
        body: Body::Plain(values),
    };
    if view.next_counter() as u64 >= COUNTER_LIMIT || !view.may_add(&object) {
        return Ok(Err(ViewFault::NoMemory));
    }
    Ok(view.make(object.class, object.segment, object.body))
}

/// Whether the array is put into its own segment, and refused by that of the system.
fn moves(view: &mut View) -> bool {
    let (own, system) = (
        kernel_name(DATA_CURATOR_SEGMENT),
        kernel_name(SYSTEM_SEGMENT),
    );
    moves_into(view, own) == Ok(()) && moves_into(view, system) == Err(ViewFault::NoWrite(system))
}

/// What comes of putting the array into a segment.
fn moves_into(view: &mut View, segment: Oid) -> Result<(), ViewFault> {
    let array = own_array();
    if !view.is_changeable(array) || !view.is_segment(segment) {
        return Err(ViewFault::NoMemory);
    }
    view.move_to(array, segment)
}

/// Whether the counter is raised, and looked at.
fn updates(view: &mut View) -> Result<bool, AllocError> {
    let (counter, update) = (own_counter(), Update::Counter(3));
    if !view.takes(counter, &update)? {
        return Ok(false);
    }
    if view.rc_update(counter, update).is_err() {
        return Ok(false);
    }
    counts(view)
}

/// Whether an object is a counter that stands at 3.
fn is_at_three(view: &View, oid: Oid) -> bool {
    match view.peek(oid) {
        Some(object) => matches!(&object.body, Body::Counter(Counter { value: 3 })),
        None => false,
    }
}

/// Whether a look at the counter finds 3.
fn counts(view: &mut View) -> Result<bool, AllocError> {
    view.reserve(3)?;
    let counter = own_counter();
    if !is_shared(view, counter) {
        return Ok(false);
    }
    if view.rc_look(counter).is_err() {
        return Ok(false);
    }
    Ok(is_at_three(view, counter))
}

/// Whether a record has a written array, a made one and an updated counter.
fn has_changes(record: &TxnRecord) -> bool {
    record.written.contains(own_array())
        && record.written.as_slice().len() == 1
        && record.made.as_slice().len() == 1
        && record.updates.contains(own_counter())
}

/// Whether it has what was touched for that.
fn has_touched(record: &TxnRecord) -> bool {
    record.touched.contains(own_array())
        && record.touched.contains(system_array())
        && !record.touched.contains(own_counter())
}

/// Whether the record has what was done.
fn finishes(view: &View) -> Result<bool, AllocError> {
    let record = view.finish(1, 1, 1, 2, 5, Mode::Full)?;
    Ok(record.view == 5 && has_changes(&record) && has_touched(&record))
}

/// Notes a call that doesn't answer as it should.
fn check_calls(alloc: Global, view: &mut View, wrong: &mut String) -> Result<(), AllocError> {
    note_unless(wrong, "look", looks(view)?)?;
    note_unless(wrong, "change", changes(alloc, view)?)?;
    note_unless(wrong, "refused change", refuses_change(alloc, view)?)?;
    note_unless(wrong, "make", knows_limit(alloc, view)?)?;
    let moved = moves(view);
    note_unless(wrong, "move_to", moved)?;
    note_unless(wrong, "rc_update", updates(view)?)?;
    note_unless(wrong, "finish", finishes(view)?)
}

/// The calls of the view that don't answer as they should.
fn called(alloc: Global, view: &mut View) -> Result<String, AllocError> {
    let mut wrong = String::new(alloc);
    check_calls(alloc, view, &mut wrong)?;
    Ok(wrong)
}

/// The calls that don't answer as they should.
fn wrong_calls<L: Ledger>(alloc: Global, blank: Blank) -> Result<String, AllocError>
    requires name { blank.name ≡ L.name }
    requires parts { blank.parts ≡ L.parts }
    requires some_parts { 0 < L.parts }
{
    let mut steps = Steps::<L>::start(blank);
    match begin_over::<View>(alloc, larger_image(alloc, 8, &mut steps)?, 1)? {
        Some(mut view) => called(alloc, &mut view),
        None => format!(in alloc; "start"),
    }
}

/// `wrong_calls` with steps that no other call counts.
fn view_calls_by_brand(alloc: Global) -> Result<String, AllocError> {
    wrong_calls::<Brand>(alloc, Blank::new(1))
}

#[test]
fn view_calls(rt: HostRuntime) -> Result<(), Fail> {
    let wrong = view_calls_by_brand(rt.alloc())?;
    assert_eq!(rt; wrong.as_str(), "");
    Ok(())
}
