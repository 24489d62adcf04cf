//! Which method answers a message.
ghost use Rattle.std.specs.Prelude.{◌≡◌, true, option_copied, None};
ghost use Rattle.gem_object.specs.declared.value.Value.TheVariants as value;
ghost use Rattle.object_programs.specs.Fixed.{fixed_by};
ghost use Rattle.object_programs.specs.Run.{give};
ghost use Rattle.gem_language.specs.LookUp.{methods_on, code_of, up_classes, past_last, found_at, start_of_object, start_of_receiver, superclass_of, start_above, start_of, find_method};
ghost use Rattle.prim_parts.specs.Does.{Does};

use crate::classes::{CHAIN_STEPS, class_at};
use gem_language::Found;
use gem_object::{Body, ClassBody, Method, MethodCode, Oid, Text, Value};
use gem_sound::names::{CLASS_CLASS, kernel_name};
use object_programs::Fault;
use prim_parts::class_of_plain;
use running_objects::{Objects, Stop};
use st_locals::Frame;
use std::marker::Model;

// Where a look-up begins: at this class on this side, or past the last one.
#[derive(Drop)]
struct Start {
    class: Option<Oid>,
    class_side: bool,
}

impl Model for Start {
    ghost use Rattle.gem_language.specs.LookUp.{Start as LookUpStart};

    ghost Value = { LookUpStart };

    ghost view = { λ start. record { class = start.class; class_side = start.class_side } };
}

/// The method that answers a message with this selector to the receiver; None where there is none.
/// A message to `super` is looked up from above the class that holds the frame's method. Receivers
/// that are references, and the classes on the way, are read: E10 where the user may not. The time
/// is that of all their methods and, as is the memory, of the source that is found: it is copied.
pub fn find_method<O: Objects>(
    objects: &mut O,
    to_super: bool,
    frame: &Frame,
    receiver: &Value,
    selector: &Text,
) -> Result<Option<Found>, Stop>
    ensures { Does (find_method to_super frame.now receiver.now selector.now)
        (O.seen objects.old) result (O.seen objects.new) }
{
    let start = start_of(objects, to_super, frame, receiver)?;
    found_at(objects, &start, selector)
}

// Where the look-up begins.
fn start_of<O: Objects>(
    objects: &mut O,
    to_super: bool,
    frame: &Frame,
    receiver: &Value,
) -> Result<Start, Stop>
    ensures { Does (start_of to_super frame.now receiver.now) (O.seen objects.old) result
        (O.seen objects.new) }
{
    if to_super {
        start_for_super(objects, frame, receiver)
    } else {
        start_of_receiver(objects, receiver)
    }
}

// A receiver that is a reference is read for a message to `super` too.
#[tactic(auto, using(crate::proofs::Steps::steps))]
fn start_for_super<O: Objects>(
    objects: &mut O,
    frame: &Frame,
    receiver: &Value,
) -> Result<Start, Stop>
    ensures { Does (start_of true frame.now receiver.now) (O.seen objects.old) result
        (O.seen objects.new) }
{
    start_of_receiver(objects, receiver)?;
    start_above(objects, frame)
}

// For a class object at its own class side, for any other object at its class.
fn start_of_receiver<O: Objects>(objects: &mut O, receiver: &Value) -> Result<Start, Stop>
    ensures { Does (start_of_receiver receiver.now) (O.seen objects.old) result
        (O.seen objects.new) }
{
    match receiver {
        Value::Ref(name) => start_of_object(objects, *name),
        _ => Ok(Start {
            class: class_of_plain(receiver),
            class_side: false,
        }),
    }
}

fn start_of_object<O: Objects>(objects: &mut O, name: Oid) -> Result<Start, Stop>
    ensures { Does (start_of_receiver (value.Ref name)) (O.seen objects.old) result
        (O.seen objects.new) }
{
    objects.read(name)?;
    let Some(object) = objects.object(name) else {
        unreachable!()
    };
    Ok(start_at(name, object.class, &object.body))
}

fn start_at(name: Oid, class: Oid, body: &Body) -> Start
    ensures { result ≡ start_of_object name class body.now }
{
    match body {
        Body::Class(_) => Start {
            class: Some(name),
            class_side: true,
        },
        _ => Start {
            class: Some(class),
            class_side: false,
        },
    }
}

// Above the class that holds the frame's method. Nothing is read.
fn start_above<O: Objects>(objects: &mut O, frame: &Frame) -> Result<Start, Stop>
    ensures { Does (start_above frame.now) (O.seen objects.old) result (O.seen objects.new) }
{
    objects.know(frame.holder())?;
    Ok(Start {
        class: superclass_at(objects, frame.holder()),
        class_side: frame.class_side(),
    })
}

// The superclass of the class of this name.
fn superclass_at<O: Objects>(objects: &O, name: Oid) -> Option<Oid>
    ensures { result
        ≡ superclass_of (fixed_by (O.seen objects.now).setting (O.seen objects.now).world name) }
{
    class_at(objects, name)?.superclass
}

// What is found from there on.
fn found_at<O: Objects>(
    objects: &mut O,
    start: &Start,
    selector: &Text,
) -> Result<Option<Found>, Stop>
    ensures { Does (found_at start.now selector.now) (O.seen objects.old) result
        (O.seen objects.new) }
{
    let Some(class) = start.class else {
        return past_last(objects, start.class_side, selector);
    };
    up_side(objects, start.class_side, class, selector)
}

// What is found from this class up on this side, and past the last class side.
fn up_side<O: Objects>(
    objects: &mut O,
    class_side: bool,
    class: Oid,
    selector: &Text,
) -> Result<Option<Found>, Stop>
    ensures { Does (up_classes class_side selector.now (past_last class_side selector.now) class)
        (O.seen objects.old) result (O.seen objects.new) }
{
    let found = up_classes(objects, class_side, class, selector)?;
    match found {
        Some(found) => Ok(Some(found)),
        None => past_last(objects, class_side, selector),
    }
}

// Past the last class side the look-up goes on at the class Class.
fn past_last<O: Objects>(
    objects: &mut O,
    class_side: bool,
    selector: &Text,
) -> Result<Option<Found>, Stop>
    ensures { Does (past_last class_side selector.now) (O.seen objects.old) result
        (O.seen objects.new) }
{
    if class_side {
        up_classes(objects, false, kernel_name(CLASS_CLASS), selector)
    } else {
        Ok(None)
    }
}

// The method that a class from this one up holds on this side. Each class is read.
fn up_classes<O: Objects>(
    objects: &mut O,
    class_side: bool,
    class: Oid,
    selector: &Text,
) -> Result<Option<Found>, Stop>
    ensures { Does (up_classes class_side selector.now (give None) class) (O.seen objects.old)
        result (O.seen objects.new) }
{
    let mut class = class;
    let mut limit = CHAIN_STEPS;
    while limit > 0 {
        objects.read(class)?;
        let Some(body) = class_at(objects, class) else {
            return Ok(None);
        };
        if let Some(code) = code_of(selector, methods_on(class_side, body)) {
            return Ok(Some(Found {
                code: code.clone()?,
                holder: class,
                class_side,
            }));
        }
        let Some(superclass) = body.superclass else {
            return Ok(None);
        };
        class = superclass;
        limit -= 1;
    }
    Err(Stop::Fails(Fault::NotUnderstood(selector.clone()?)))
}

// The methods of a class on one of its sides.
fn methods_on(class_side: bool, class: &ClassBody) -> &[Method]
    ensures { result.now ≡ methods_on class_side class.now }
{
    if class_side {
        class.class_methods.as_slice()
    } else {
        class.methods.as_slice()
    }
}

// What the method with this selector does.
fn code_of<'a>(selector: &Text, methods: &'a [Method]) -> Option<&'a MethodCode>
    ensures { option_copied result ≡ code_of selector.now methods.now }
{
    for method in methods {
        if method.selector.bytes() == selector.bytes() {
            return Some(&method.code);
        }
    }
    None
}
