// Objects that were looked at are looked at again after each way of changing them in the same
// transaction, and many of them in turn.
ghost use Rattle.std.specs.Prelude.{◌≡◌, ◌<◌};

use crate::notes::note_unless;
use gem_object::{Body, Object, Oid, Value, Values};
use gem_sound::names::{ARRAY_CLASS, DATA_CURATOR_SEGMENT, SYSTEM_SEGMENT, kernel_name};
use gem_update::Update;
use kernel_state::{begin_over, larger_image};
use plain_state::PlainState;
use radix_pages::Steps;
use running_objects::{Objects, Stop};
use session_view::View;
use std::alloc::{AllocError, Global};
use std::marker::Brand;
use std::sync::ledger::{Blank, Ledger};
use std::test::Fail;

/// Whether a call was done.
fn is_done<T: Drop>(answer: Result<T, Stop>) -> Result<bool, AllocError> {
    match answer {
        Ok(_) => Ok(true),
        Err(Stop::NoMemory) => Err(AllocError),
        Err(_) => Ok(false),
    }
}

/// The number in the first slot of an array, or of a counter; 0 for nil, and -1 where there is
/// neither.
fn number_in(body: &Body) -> i64 {
    match body {
        Body::Plain(values) => first_number(values.as_slice()),
        Body::Counter(counter) => counter.value,
        _ => -1,
    }
}

fn first_number(values: &[Value]) -> i64 {
    match values.first() {
        Some(Value::Int(number)) => *number,
        Some(Value::Nil) => 0,
        _ => -1,
    }
}

/// The number in the object of this name.
fn number_at<O: Objects>(objects: &O, oid: Oid) -> i64 {
    match objects.object(oid) {
        Some(object) => number_in(&object.body),
        None => -1,
    }
}

/// The segment of the object of this name.
fn segment_at(plain: &PlainState, oid: Oid) -> Option<Oid> {
    Some(plain.object(oid)?.segment)
}

/// Whether a read is done and finds this number.
fn reads<O: Objects>(objects: &mut O, oid: Oid, number: i64) -> Result<bool, AllocError> {
    let done = is_done(objects.read(oid))?;
    Ok(done && number_at(objects, oid) == number)
}

/// Writes an array's first slot.
fn set_first(plain: &mut PlainState, oid: Oid, number: i64) -> Result<(), Stop> {
    plain.write(oid)?;
    plain.set_slot(oid, 0, Value::Int(number))
}

/// Whether an array's first slot is written, and found as written.
fn writes(plain: &mut PlainState, oid: Oid, number: i64) -> Result<bool, AllocError> {
    let done = is_done(set_first(plain, oid, number))?;
    Ok(done && number_at(plain, oid) == number)
}

/// Puts a body with this number in place of that of an array.
fn put_number(alloc: Global, plain: &mut PlainState, oid: Oid, number: i64) -> Result<(), Stop> {
    let mut values = Values::of(Vec::new(alloc));
    values.push(Value::Int(number))?;
    plain.put(oid, Body::Plain(values))
}

/// Whether another body is put, a slot comes before the first, and goes away again.
fn puts(alloc: Global, plain: &mut PlainState, oid: Oid) -> Result<bool, AllocError> {
    let put = is_done(put_number(alloc, plain, oid, 7))? && number_at(plain, oid) == 7;
    let more = is_done(plain.insert_slot(oid, 0, Value::Int(8)))? && number_at(plain, oid) == 8;
    let less = is_done(plain.remove_slot(oid, 0))? && number_at(plain, oid) == 7;
    Ok(put && more && less)
}

/// Whether an array that is written is put into the system's segment.
fn moves(plain: &mut PlainState, oid: Oid) -> Result<bool, AllocError> {
    let (own, system) = (
        kernel_name(DATA_CURATOR_SEGMENT),
        kernel_name(SYSTEM_SEGMENT),
    );
    let written = is_done(plain.write(oid))? && segment_at(plain, oid) == Some(own);
    let moved = is_done(plain.move_to(oid, system))? && segment_at(plain, oid) == Some(system);
    Ok(written && moved)
}

/// Whether a counter is raised twice.
fn raises(plain: &mut PlainState, oid: Oid) -> Result<bool, AllocError> {
    let once = is_done(plain.note(oid, Update::Counter(3)))? && number_at(plain, oid) == 3;
    let twice = is_done(plain.note(oid, Update::Counter(4)))? && number_at(plain, oid) == 7;
    Ok(once && twice)
}

/// Makes an array of one slot; its name.
fn make_array(alloc: Global, plain: &mut PlainState) -> Result<Oid, Stop> {
    let mut values = Values::of(Vec::new(alloc));
    values.push(Value::Nil)?;
    let mut objects = Vec::new(alloc);
    objects.push(Object {
        class: kernel_name(ARRAY_CLASS),
        segment: kernel_name(DATA_CURATOR_SEGMENT),
        changed: 0,
        body: Body::Plain(values),
    })?;
    plain.make(objects)
}

/// Whether an array is made, looked at and written.
fn makes(alloc: Global, plain: &mut PlainState, number: i64) -> Result<bool, AllocError> {
    let oid = match make_array(alloc, plain) {
        Ok(oid) => oid,
        Err(_) => return Ok(false),
    };
    Ok(reads(plain, oid, 0)? && writes(plain, oid, number)?)
}

/// The name of an array of the image. Two of which one number is 512 more than the other are kept
/// at hand at one place.
fn array(at: u32) -> Oid
    requires { at < 4096 }
{
    Oid::from_parts(2, 2 * at + 1)
}

/// Whether DataCurator may write the array, and is to.
fn is_written(at: u32) -> bool {
    at % 4 != 3 && at / 512 % 2 == 1
}

/// What stands in the array in the end.
fn number_of(at: u32) -> i64 {
    if is_written(at) { at as i64 } else { 0 }
}

/// Whether all arrays are read, and some of them written.
fn writes_some(plain: &mut PlainState, arrays: u32) -> Result<bool, AllocError>
    requires { arrays < 4096 }
{
    for at in 0..arrays {
        if !reads(plain, array(at), 0)? {
            return Ok(false);
        }
        if is_written(at) && !writes(plain, array(at), number_of(at))? {
            return Ok(false);
        }
    }
    Ok(true)
}

/// Whether each array is found as it was left.
fn finds_all(plain: &mut PlainState, arrays: u32) -> Result<bool, AllocError>
    requires { arrays < 4096 }
{
    for at in 0..arrays {
        if !reads(plain, array(at), number_of(at))? {
            return Ok(false);
        }
    }
    Ok(true)
}

/// Whether arrays are made, more than are at hand, each found as it was written.
fn makes_many(alloc: Global, plain: &mut PlainState) -> Result<bool, AllocError> {
    for number in 1..600 {
        if !makes(alloc, plain, number)? {
            return Ok(false);
        }
    }
    Ok(true)
}

/// Notes what of single objects isn't as it should be.
fn check_single(
    alloc: Global,
    plain: &mut PlainState,
    wrong: &mut String,
) -> Result<(), AllocError> {
    let (changed, moved, counter) = (array(1020), array(1021), Oid::from_parts(2, 2));
    note_unless(wrong, "read", reads(plain, changed, 0)?)?;
    note_unless(wrong, "written", writes(plain, changed, 5)?)?;
    note_unless(wrong, "edited", writes(plain, changed, 6)?)?;
    note_unless(wrong, "put", puts(alloc, plain, changed)?)?;
    note_unless(wrong, "read before a move", reads(plain, moved, 0)?)?;
    note_unless(wrong, "moved", moves(plain, moved)?)?;
    note_unless(wrong, "read before an update", reads(plain, counter, 0)?)?;
    note_unless(wrong, "updated", raises(plain, counter)?)
}

/// Notes what of many objects isn't as it should be.
fn check_many(alloc: Global, plain: &mut PlainState, wrong: &mut String) -> Result<(), AllocError> {
    note_unless(wrong, "some written", writes_some(plain, 1000)?)?;
    note_unless(wrong, "all found", finds_all(plain, 1000)?)?;
    note_unless(wrong, "made", makes_many(alloc, plain)?)?;
    note_unless(wrong, "all found again", finds_all(plain, 1000)?)
}

/// The looks that don't find what they should.
fn looked(alloc: Global, plain: &mut PlainState) -> Result<String, AllocError> {
    let mut wrong = String::new(alloc);
    check_single(alloc, plain, &mut wrong)?;
    check_many(alloc, plain, &mut wrong)?;
    Ok(wrong)
}

/// The same, over an image.
fn wrong_looks<L: Ledger>(alloc: Global, blank: Blank) -> Result<String, AllocError>
    requires name { blank.name ≡ L.name }
    requires parts { blank.parts ≡ L.parts }
    requires some_parts { 0 < L.parts }
{
    let mut steps = Steps::<L>::start(blank);
    match begin_over::<PlainState>(alloc, larger_image(alloc, 1024, &mut steps)?, 1)? {
        Some(mut plain) => looked(alloc, &mut plain),
        None => format!(in alloc; "start"),
    }
}

/// `wrong_looks` with steps that no other call counts.
fn looks_by_brand(alloc: Global) -> Result<String, AllocError> {
    wrong_looks::<Brand>(alloc, Blank::new(1))
}

#[test]
fn looks_see_changes(rt: HostRuntime) -> Result<(), Fail> {
    let wrong = looks_by_brand(rt.alloc())?;
    assert_eq!(rt; wrong.as_str(), "");
    Ok(())
}

/// Whether a body is put by the view's own call.
fn changes_body(alloc: Global, view: &mut View, oid: Oid) -> Result<bool, AllocError> {
    let mut values = Values::of(Vec::new(alloc));
    values.push(Value::Int(7))?;
    let body = Body::Plain(values);
    if !view.is_changeable(oid) || !view.accepts_body(oid, &body)? {
        return Ok(false);
    }
    Ok(view.change(oid, body).is_ok() && number_at(view, oid) == 7)
}

/// Whether an update is done by the view's own call.
fn raises_by_view(view: &mut View, oid: Oid) -> Result<bool, AllocError> {
    let update = Update::Counter(3);
    if !view.takes(oid, &update)? {
        return Ok(false);
    }
    Ok(view.rc_update(oid, update).is_ok() && number_at(view, oid) == 3)
}

/// Notes what of a view's own calls isn't seen.
fn check_view(alloc: Global, view: &mut View, wrong: &mut String) -> Result<(), AllocError> {
    let (changed, counter) = (array(0), Oid::from_parts(2, 2));
    note_unless(wrong, "read", reads(view, changed, 0)?)?;
    note_unless(wrong, "changed", changes_body(alloc, view, changed)?)?;
    note_unless(wrong, "read before an update", reads(view, counter, 0)?)?;
    note_unless(wrong, "updated", raises_by_view(view, counter)?)
}

/// The looks after a view's own calls that don't find what they should.
fn looked_by_view(alloc: Global, view: &mut View) -> Result<String, AllocError> {
    let mut wrong = String::new(alloc);
    check_view(alloc, view, &mut wrong)?;
    Ok(wrong)
}

/// The same, over an image.
fn wrong_views<L: Ledger>(alloc: Global, blank: Blank) -> Result<String, AllocError>
    requires name { blank.name ≡ L.name }
    requires parts { blank.parts ≡ L.parts }
    requires some_parts { 0 < L.parts }
{
    let mut steps = Steps::<L>::start(blank);
    match begin_over::<View>(alloc, larger_image(alloc, 8, &mut steps)?, 1)? {
        Some(mut view) => looked_by_view(alloc, &mut view),
        None => format!(in alloc; "start"),
    }
}

/// `wrong_views` with steps that no other call counts.
fn views_by_brand(alloc: Global) -> Result<String, AllocError> {
    wrong_views::<Brand>(alloc, Blank::new(1))
}

#[test]
fn looks_see_view_changes(rt: HostRuntime) -> Result<(), Fail> {
    let wrong = views_by_brand(rt.alloc())?;
    assert_eq!(rt; wrong.as_str(), "");
    Ok(())
}
