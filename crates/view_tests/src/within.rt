// A slot of an array that is put at one look: where the value fits, and where it is given back, each
// with what is seen afterwards.
ghost use Rattle.std.specs.Prelude.{◌≡◌, ◌<◌};

use crate::notes::note_unless;
use gem_object::{BlockRef, Body, Oid, Text, Value, Values};
use kernel_state::{begin_over, larger_image};
use radix_pages::Steps;
use running_objects::Objects;
use session_view::View;
use std::alloc::{AllocError, Global};
use std::marker::Brand;
use std::sync::ledger::{Blank, Ledger};
use std::test::Fail;

/// The name of the image's array in DataCurator's own segment.
fn array() -> Oid {
    Oid::from_parts(2, 1)
}

/// The number in a slot; 0 for nil, and -1 where there is neither.
fn number_in(body: &Body, at: usize) -> i64 {
    let Body::Plain(values) = body else {
        return -1;
    };
    match values.as_slice().get(at) {
        Some(Value::Int(number)) => *number,
        Some(Value::Nil) => 0,
        _ => -1,
    }
}

/// The number in a slot of the array.
fn number_at(view: &View, at: usize) -> i64 {
    match view.object(array()) {
        Some(object) => number_in(&object.body, at),
        None => -1,
    }
}

/// Whether a number is put into a slot of the array, and found there.
fn puts(view: &mut View, at: usize, number: i64) -> bool {
    let put = view.set_slot_within(array(), at, Value::Int(number));
    put.is_ok() && number_at(view, at) == number
}

/// Whether a value is given back, and the slot stays as it was.
fn gives_back(view: &mut View, at: usize, value: Value) -> bool {
    let before = number_at(view, at);
    view.set_slot_within(array(), at, value).is_err() && number_at(view, at) == before
}

/// A symbol of the largest size.
fn long_symbol(alloc: Global) -> Result<Value, AllocError> {
    Ok(Value::Sym(Text::of(vec![in alloc; 97; 1000]?)))
}

/// Whether the array gets so many slots with numbers.
fn gets_slots(alloc: Global, view: &mut View, slots: usize) -> Result<bool, AllocError> {
    let mut values = Values::of(Vec::new(alloc));
    for _ in 0..slots {
        values.push(Value::Int(1))?;
    }
    Ok(view.put(array(), Body::Plain(values)).is_ok())
}

/// Whether the array gets one slot with a number, and then so many with long symbols.
fn gets_symbols(alloc: Global, view: &mut View, symbols: usize) -> Result<bool, AllocError> {
    let mut values = Values::of(Vec::new(alloc));
    values.push(Value::Int(1))?;
    for _ in 0..symbols {
        values.push(long_symbol(alloc)?)?;
    }
    Ok(view.put(array(), Body::Plain(values)).is_ok())
}

/// Notes which values that don't fit aren't given back.
fn check_values(view: &mut View, wrong: &mut String) -> Result<(), AllocError> {
    let block = BlockRef {
        number: 1,
        params: 0,
    };
    note_unless(wrong, "not written", gives_back(view, 0, Value::Int(4)))?;
    note_unless(wrong, "written", view.write(array()).is_ok())?;
    note_unless(wrong, "put", puts(view, 0, 5))?;
    note_unless(wrong, "no slot", gives_back(view, 1, Value::Int(6)))?;
    note_unless(wrong, "block", gives_back(view, 0, Value::Block(block)))?;
    let missing = Value::Ref(Oid::from_parts(7, 7));
    note_unless(wrong, "no object", gives_back(view, 0, missing))
}

/// Notes where the limits of objects aren't kept.
fn check_limits(alloc: Global, view: &mut View, wrong: &mut String) -> Result<(), AllocError> {
    note_unless(wrong, "slots", gets_slots(alloc, view, 65_000)?)?;
    note_unless(wrong, "last slot", puts(view, 64_999, 7))?;
    note_unless(wrong, "more slots", gets_slots(alloc, view, 65_001)?)?;
    note_unless(wrong, "too many", gives_back(view, 0, Value::Int(8)))?;
    note_unless(wrong, "bytes", gets_symbols(alloc, view, 1045)?)?;
    note_unless(wrong, "number", puts(view, 0, 9))?;
    let symbol = long_symbol(alloc)?;
    note_unless(wrong, "too long", gives_back(view, 0, symbol))
}

/// The puts that aren't as they should be.
fn wrong_puts(alloc: Global, view: &mut View) -> Result<String, AllocError> {
    let mut wrong = String::new(alloc);
    check_values(view, &mut wrong)?;
    check_limits(alloc, view, &mut wrong)?;
    Ok(wrong)
}

/// The same, over an image.
fn wrong_within<L: Ledger>(alloc: Global, blank: Blank) -> Result<String, AllocError>
    requires name { blank.name ≡ L.name }
    requires parts { blank.parts ≡ L.parts }
    requires some_parts { 0 < L.parts }
{
    let mut steps = Steps::<L>::start(blank);
    match begin_over::<View>(alloc, larger_image(alloc, 8, &mut steps)?, 1)? {
        Some(mut view) => wrong_puts(alloc, &mut view),
        None => format!(in alloc; "start"),
    }
}

/// `wrong_within` with steps that no other call counts.
fn within_by_brand(alloc: Global) -> Result<String, AllocError> {
    wrong_within::<Brand>(alloc, Blank::new(1))
}

#[test]
fn slots_put_within_limits(rt: HostRuntime) -> Result<(), Fail> {
    let wrong = within_by_brand(rt.alloc())?;
    assert_eq!(rt; wrong.as_str(), "");
    Ok(())
}
