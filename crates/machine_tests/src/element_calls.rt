// What is known of the elements of sequences from the sequences alone, and when that is forgotten.
ghost use Rattle.std.specs.Prelude.{◌≡◌, ◌<◌};

use crate::machine_calls::{note_unless, value_of};
use crate::machine_tests::{Known, check_line, known};
use gem_object::{Oid, Text, Value};
use gem_sound::names::UNDEFINED_OBJECT_CLASS;
use look_up_cache::ElementMessage;
use plain_state::PlainState;
use radix_pages::Steps;
use st_locals::frame_without_scopes;
use st_machine::CodeCache;
use std::alloc::{AllocError, Global};
use std::marker::Brand;
use std::sync::ledger::{Blank, Ledger};
use std::test::Fail;

/// Runs each of these lines. Those that aren't replied to as they should be are noted.
fn check_lines(
    alloc: Global,
    state: &mut Known<PlainState>,
    cache: &mut CodeCache,
    lines: &str,
    wrong: &mut String,
) -> Result<(), AllocError> {
    for line in lines.lines() {
        check_line(alloc, state, cache, line, wrong)?;
    }
    Ok(())
}

/// Keeps with the receiver that it answers a message by its primitive, by what a look-up of this
/// selector is known to find.
fn keep(
    alloc: Global,
    state: &mut Known<PlainState>,
    receiver: &Value,
    message: ElementMessage,
    selector: &str,
) -> Result<(), AllocError> {
    let holder = Oid::from_parts(0, UNDEFINED_OBJECT_CLASS);
    let frame = frame_without_scopes(alloc, holder, false, Value::Nil, 0);
    let selector = Text::copy_of(alloc, selector.as_bytes())?;
    if let Some(at) = state.known_method(&frame, receiver, &selector) {
        state.keep_element(receiver, message, at);
    }
    Ok(())
}

/// Keeps both messages with the receiver.
fn keep_both(
    alloc: Global,
    state: &mut Known<PlainState>,
    receiver: &Value,
) -> Result<(), AllocError> {
    keep(alloc, state, receiver, ElementMessage::At, "at:")?;
    keep(alloc, state, receiver, ElementMessage::AtPut, "at:put:")
}

/// Whether the element with this index is known to be this number.
fn is_known(state: &Known<PlainState>, receiver: &Value, index: i64, wanted: i64) -> bool {
    match state.known_element(receiver, &Value::Int(index)) {
        Some(Value::Int(number)) => number == wanted,
        _ => false,
    }
}

/// Whether nothing is known of the element with this index.
fn is_unknown(state: &Known<PlainState>, receiver: &Value, index: i64) -> bool {
    state.known_element(receiver, &Value::Int(index)).is_none()
}

/// Whether this number is known to come into the slot with this index, and comes there.
fn is_put(state: &mut Known<PlainState>, receiver: &Value, index: i64, number: i64) -> bool {
    match state.do_known_put(receiver, &Value::Int(index), &Value::Int(number)) {
        Some(Ok(())) => is_known(state, receiver, index, number),
        _ => false,
    }
}

/// Whether nothing is known of a put into the first slot.
fn is_put_unknown(state: &mut Known<PlainState>, receiver: &Value) -> bool {
    state
        .do_known_put(receiver, &Value::Int(1), &Value::Int(0))
        .is_none()
}

/// Elements of an Array that was read.
fn check_reads(
    alloc: Global,
    state: &mut Known<PlainState>,
    cache: &mut CodeCache,
    wrong: &mut String,
) -> Result<(), AllocError> {
    check_lines(
        alloc,
        state,
        cache,
        "run UserGlobals at: #A put: #(5 6) => ok",
        wrong,
    )?;
    let array = value_of(alloc, state, cache, "A")?;
    note_unless(wrong, "nothing is known yet", is_unknown(state, &array, 1))?;
    check_lines(alloc, state, cache, "print A at: 2 => 6", wrong)?;
    keep_both(alloc, state, &array)?;
    let right = is_known(state, &array, 1, 5) && is_known(state, &array, 2, 6);
    note_unless(wrong, "both elements are known", right)?;
    let right = is_unknown(state, &array, 0) && is_unknown(state, &array, 3);
    note_unless(wrong, "there are no others", right)?;
    let right = state.known_element(&array, &Value::Nil).is_none();
    note_unless(wrong, "nil is no index", right)?;
    keep(alloc, state, &array, ElementMessage::AtPut, "at:")?;
    note_unless(wrong, "no put is known", is_put_unknown(state, &array))
}

/// Puts into the same Array.
fn check_puts(
    alloc: Global,
    state: &mut Known<PlainState>,
    cache: &mut CodeCache,
    wrong: &mut String,
) -> Result<(), AllocError> {
    let array = value_of(alloc, state, cache, "A")?;
    check_lines(alloc, state, cache, "print A at: 1 put: 7 => 7", wrong)?;
    note_unless(wrong, "it is read", is_known(state, &array, 1, 7))?;
    keep_both(alloc, state, &array)?;
    note_unless(wrong, "a put is known", is_put(state, &array, 1, 8))?;
    let put = state.do_known_put(&array, &Value::Int(3), &Value::Int(9));
    note_unless(wrong, "there is no slot", put.is_none())?;
    check_lines(alloc, state, cache, "print A at: 1 => 8", wrong)
}

/// The right to read the Array is taken away, and given back.
fn check_rights(
    alloc: Global,
    state: &mut Known<PlainState>,
    cache: &mut CodeCache,
    wrong: &mut String,
) -> Result<(), AllocError> {
    let array = value_of(alloc, state, cache, "A")?;
    let moved = "run UserGlobals at: #S put: Segment new. A assignToSegment: S => ok";
    check_lines(alloc, state, cache, moved, wrong)?;
    note_unless(wrong, "it was moved", is_unknown(state, &array, 1))?;
    check_lines(alloc, state, cache, "print A at: 1 => 8", wrong)?;
    keep_both(alloc, state, &array)?;
    note_unless(wrong, "it is known again", is_known(state, &array, 1, 8))?;
    let taken = "run S ownerAuthorization: #none => ok";
    check_lines(alloc, state, cache, taken, wrong)?;
    let right = is_unknown(state, &array, 1) && is_put_unknown(state, &array);
    note_unless(wrong, "there is no right", right)?;
    let given = "run S ownerAuthorization: #write => ok\nprint (A at: 1 put: 3) + (A at: 1) => 6";
    check_lines(alloc, state, cache, given, wrong)?;
    keep_both(alloc, state, &array)?;
    let right = is_known(state, &array, 1, 3) && is_put(state, &array, 1, 4);
    note_unless(wrong, "there is a right again", right)
}

/// The class of a sequence gets a method of its own for one of the two messages.
fn check_methods(
    alloc: Global,
    state: &mut Known<PlainState>,
    cache: &mut CodeCache,
    wrong: &mut String,
) -> Result<(), AllocError> {
    let made = "run Array subclass: #Row instVarNames: #() inDictionary: UserGlobals => ok\n\
        run UserGlobals at: #R put: (Row new: 1) => ok\nprint (R at: 1 put: 3) + (R at: 1) => 6";
    check_lines(alloc, state, cache, made, wrong)?;
    let row = value_of(alloc, state, cache, "R")?;
    keep_both(alloc, state, &row)?;
    let right = is_known(state, &row, 1, 3) && is_put(state, &row, 1, 4);
    note_unless(wrong, "a row is known", right)?;
    let method = "method Row at: index ^0 => method at:";
    check_lines(alloc, state, cache, method, wrong)?;
    let right = is_unknown(state, &row, 1) && is_put_unknown(state, &row);
    note_unless(wrong, "its class was changed", right)?;
    let sent = "print (R at: 1 put: 5) + (R at: 1) => 5";
    check_lines(alloc, state, cache, sent, wrong)?;
    keep_both(alloc, state, &row)?;
    note_unless(wrong, "its own method answers", is_unknown(state, &row, 1))?;
    let put = state.do_known_put(&row, &Value::Int(1), &Value::Int(6));
    note_unless(wrong, "a put is no element", matches!(put, Some(Ok(()))))
}

/// Receivers that are no sequences.
fn check_others(
    alloc: Global,
    state: &mut Known<PlainState>,
    cache: &mut CodeCache,
    wrong: &mut String,
) -> Result<(), AllocError> {
    let made = "run UserGlobals at: #T put: 'abc' => ok\nprint T at: 1 => $a";
    check_lines(alloc, state, cache, made, wrong)?;
    for receiver in [value_of(alloc, state, cache, "T")?, Value::Int(3)] {
        keep_both(alloc, state, &receiver)?;
        let right = is_unknown(state, &receiver, 1) && is_put_unknown(state, &receiver);
        note_unless(wrong, "it is no sequence", right)?;
    }
    Ok(())
}

/// Other objects come, in which nothing is known of the Array.
fn check_going_on(
    alloc: Global,
    state: &mut Known<PlainState>,
    cache: &mut CodeCache,
    other: PlainState,
    wrong: &mut String,
) -> Result<(), AllocError> {
    let array = value_of(alloc, state, cache, "A")?;
    note_unless(wrong, "it is still known", is_known(state, &array, 2, 6))?;
    let _before = state.go_on(other);
    let right = is_unknown(state, &array, 2) && is_put_unknown(state, &array);
    note_unless(wrong, "there are other objects", right)
}

/// What is known on these objects, and isn't any more on others.
fn check_elements(
    alloc: Global,
    state: &mut Known<PlainState>,
    other: PlainState,
) -> Result<String, AllocError> {
    let mut wrong = String::new(alloc);
    let mut cache = CodeCache::new(alloc)?;
    check_reads(alloc, state, &mut cache, &mut wrong)?;
    check_puts(alloc, state, &mut cache, &mut wrong)?;
    check_methods(alloc, state, &mut cache, &mut wrong)?;
    check_others(alloc, state, &mut cache, &mut wrong)?;
    check_rights(alloc, state, &mut cache, &mut wrong)?;
    check_going_on(alloc, state, &mut cache, other, &mut wrong)?;
    Ok(wrong)
}

/// What isn't known as it should be.
fn wrong_elements<L: Ledger>(alloc: Global, blank: Blank) -> Result<String, AllocError>
    requires name { blank.name ≡ L.name }
    requires parts { blank.parts ≡ L.parts }
    requires some_parts { 0 < L.parts }
{
    let mut steps = Steps::<L>::start(blank);
    let other = known::<PlainState, L>(alloc, &mut steps)?.into_objects();
    let mut state = known::<PlainState, L>(alloc, &mut steps)?;
    check_elements(alloc, &mut state, other)
}

/// `wrong_elements` with steps that no other call counts.
fn elements_by_brand(alloc: Global) -> Result<String, AllocError> {
    wrong_elements::<Brand>(alloc, Blank::new(1))
}

#[test]
fn known_elements(rt: HostRuntime) -> Result<(), Fail> {
    let wrong = elements_by_brand(rt.alloc())?;
    assert_eq!(rt; wrong.as_str(), "");
    Ok(())
}
