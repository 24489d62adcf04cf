//! The print texts of values.
ghost use Rattle.std.specs.Prelude.{◌≡◌, ◌++◌, ◌∷◌, IfOk, is_some};
ghost use Rattle.object_programs.specs.Run.{and_then, give};
ghost use Rattle.prim_rules.specs.Printing.{is_short, named_text, element_text, print_text, whole_text, elements_text, with_elements, array_text};
ghost use Rattle.prim_parts.specs.Does.{Does};
ghost use Rattle.prim_classes.specs.Prints.{print_of_value, print_of_object, has_own_text, short, joined, enclosed, element_object, whole_object, skimmed, shortened};

use crate::growing::Growing;
use crate::words::{decimal_text, quoted, symbol_text, with_article};
use gem_object::{Body, Object, Oid, Text, Value, Values};
use gem_sound::names::ARRAY_CLASS;
use object_programs::{Fault, PRINT_LIMIT};
use running_objects::{Objects, Stop};
use std::alloc::{AllocError, Global};

// What is printed of a value.
#[derive(Drop)]
enum ValuePrint {
    // a text of its own
    Own(Text),
    // that of the object of this name
    Object(Oid),
}

// What is printed of an object.
#[derive(Drop)]
enum ObjectPrint {
    // a text of its own
    Own(Text),
    // its elements
    Elements(Values),
    // the name of its class
    ByClass,
}

// What is printed of a value.
fn print_of_value(alloc: Global, value: &Value) -> Result<ValuePrint, AllocError>
    ensures { IfOk result (λ print. print ≡ print_of_value value.now) }
{
    Ok(ValuePrint::Own(match value {
        Value::Nil => Text::copy_of(alloc, b"nil")?,
        Value::False => Text::copy_of(alloc, b"false")?,
        Value::True => Text::copy_of(alloc, b"true")?,
        Value::Int(number) => decimal_text(alloc, *number)?,
        Value::Char(code) => Text::copy_of(alloc, &[b'$', *code])?,
        Value::Sym(name) => symbol_text(alloc, name.bytes())?,
        Value::Ref(name) => return Ok(ValuePrint::Object(*name)),
        Value::Block(_) => Text::copy_of(alloc, b"a Block")?,
    }))
}

// What is printed of an object. The slots of an Array are copied.
fn print_of_object(alloc: Global, object: &Object) -> Result<ObjectPrint, AllocError>
    ensures { IfOk result (λ print. print ≡ print_of_object object.now.class object.now.body) }
{
    Ok(match &object.body {
        Body::Bytes(bytes) => ObjectPrint::Own(quoted(alloc, bytes.as_slice())?),
        Body::Class(class) => ObjectPrint::Own(class.name.clone()?),
        Body::Plain(slots) if object.class.number() == ARRAY_CLASS as u64 => {
            ObjectPrint::Elements(slots.try_clone()?)
        }
        _ => ObjectPrint::ByClass,
    })
}

// The text where it isn't too long.
fn short(text: Text) -> Option<Text>
    ensures { result ≡ short text }
{
    if text.bytes().len() as u64 <= PRINT_LIMIT {
        return Some(text);
    }
    None
}

// An instance by the name of its class, which is read.
fn named_text<O: Objects>(alloc: Global, objects: &mut O, class: Oid) -> Result<Text, Stop>
    ensures { Does (named_text class) (O.seen objects.old) result (O.seen objects.new) }
{
    objects.read(class)?;
    let Some(object) = objects.object(class) else {
        unreachable!()
    };
    let Body::Class(found) = &object.body else {
        return Err(Stop::Fails(Fault::ArgumentKind));
    };
    Ok(with_article(alloc, found.name.bytes())?)
}

// An element of an Array that refers to an object, which is read.
fn element_object<O: Objects>(alloc: Global, objects: &mut O, name: Oid) -> Result<Text, Stop>
    ensures { Does (element_object name) (O.seen objects.old) result (O.seen objects.new) }
{
    objects.read(name)?;
    let Some(object) = objects.object(name) else {
        unreachable!()
    };
    let class = object.class;
    match print_of_object(alloc, object)? {
        ObjectPrint::Own(text) => Ok(text),
        ObjectPrint::Elements(_) => named_text(alloc, objects, class),
        ObjectPrint::ByClass => named_text(alloc, objects, class),
    }
}

// An element of an Array.
fn element_text<O: Objects>(alloc: Global, objects: &mut O, element: &Value) -> Result<Text, Stop>
    ensures { Does (element_text element.now) (O.seen objects.old) result
        (O.seen objects.new) }
{
    match print_of_value(alloc, element)? {
        ValuePrint::Own(text) => Ok(text),
        ValuePrint::Object(name) => element_object(alloc, objects, name),
    }
}

// The accesses of an instance that is printed by the name of its class.
fn skim_class<O: Objects>(objects: &mut O, class: Oid) -> Result<(), Stop>
    ensures { Does (skimmed (named_text class)) (O.seen objects.old) result
        (O.seen objects.new) }
{
    objects.read(class)?;
    let Some(object) = objects.object(class) else {
        unreachable!()
    };
    let Body::Class(_) = &object.body else {
        return Err(Stop::Fails(Fault::ArgumentKind));
    };
    Ok(())
}

// Whether a text of its own is printed of an object.
fn has_own_text(body: &Body) -> bool
    ensures { result ≡ has_own_text body.now }
{
    matches!(body, Body::Bytes(_) | Body::Class(_))
}

// The accesses of an element that refers to an object.
fn skim_object<O: Objects>(objects: &mut O, name: Oid) -> Result<(), Stop>
    ensures { Does (skimmed (element_object name)) (O.seen objects.old) result
        (O.seen objects.new) }
{
    objects.read(name)?;
    let Some(object) = objects.object(name) else {
        unreachable!()
    };
    let class = object.class;
    if has_own_text(&object.body) {
        return Ok(());
    }
    skim_class(objects, class)
}

// The accesses of an element, whose text isn't made.
fn skim_element<O: Objects>(objects: &mut O, element: &Value) -> Result<(), Stop>
    ensures { Does (skimmed (element_text element.now)) (O.seen objects.old) result
        (O.seen objects.new) }
{
    let Value::Ref(name) = element else {
        return Ok(());
    };
    skim_object(objects, *name)
}

// One element more behind those so far. Where these are too long only its accesses are made.
fn with_element<O: Objects>(
    alloc: Global,
    objects: &mut O,
    so_far: Option<Growing>,
    element: &Value,
) -> Result<Option<Growing>, Stop>
    ensures { Does (and_then (element_text element.now) (λ text. give (joined so_far text)))
        (O.seen objects.old) result (O.seen objects.new) }
{
    let Some(so_far) = so_far else {
        skim_element(objects, element)?;
        return Ok(None);
    };
    let text = element_text(alloc, objects, element)?;
    Ok(so_far.joined(&text)?)
}

// Elements behind a first one, each after a space.
fn with_elements<O: Objects>(
    alloc: Global,
    objects: &mut O,
    first: Text,
    elements: &[Value],
) -> Result<Option<Growing>, Stop>
    ensures { Does (shortened (with_elements first elements.now)) (O.seen objects.old) result
        (O.seen objects.new) }
{
    let mut so_far = Growing::copy_of(alloc, &first)?.short();
    for element in elements {
        so_far = with_element(alloc, objects, so_far, element)?;
    }
    Ok(so_far)
}

// Elements with one space between. All are read, also where the text is already too long.
fn elements_text<O: Objects>(
    alloc: Global,
    objects: &mut O,
    elements: &[Value],
) -> Result<Option<Growing>, Stop>
    ensures { Does (shortened (elements_text elements.now)) (O.seen objects.old) result
        (O.seen objects.new) }
{
    let Some((first, rest)) = elements.split_first() else {
        return Ok(Some(Growing::new(alloc)));
    };
    let first = element_text(alloc, objects, first)?;
    with_elements(alloc, objects, first, rest)
}

// The text of an Array, by that of its elements.
fn enclosed(alloc: Global, elements: Growing) -> Result<Text, AllocError>
    ensures { IfOk result (λ made. made ≡ enclosed elements) }
{
    let mut bytes = b"#(".to_vec(alloc)?;
    bytes.extend_from_slice(elements.into_text().bytes())?;
    bytes.push(b')')?;
    Ok(Text::of(bytes))
}

// An Array: `#(`, its elements and `)`.
fn array_text<O: Objects>(
    alloc: Global,
    objects: &mut O,
    elements: &[Value],
) -> Result<Option<Text>, Stop>
    ensures { Does (shortened (array_text elements.now)) (O.seen objects.old) result
        (O.seen objects.new) }
{
    match elements_text(alloc, objects, elements)? {
        Some(text) => Ok(short(enclosed(alloc, text)?)),
        None => Ok(None),
    }
}

// An object, which is read.
fn whole_object<O: Objects>(alloc: Global, objects: &mut O, name: Oid) -> Result<Option<Text>, Stop>
    ensures { Does (shortened (whole_object name)) (O.seen objects.old) result
        (O.seen objects.new) }
{
    objects.read(name)?;
    let Some(object) = objects.object(name) else {
        unreachable!()
    };
    let class = object.class;
    match print_of_object(alloc, object)? {
        ObjectPrint::Own(text) => Ok(short(text)),
        ObjectPrint::Elements(elements) => array_text(alloc, objects, elements.as_slice()),
        ObjectPrint::ByClass => Ok(short(named_text(alloc, objects, class)?)),
    }
}

/// The print text of a value where it has at most `PRINT_LIMIT` bytes, and None where it is longer.
/// All its accesses are made in either case, and no text is kept that is too long.
pub fn short_text<O: Objects>(
    alloc: Global,
    objects: &mut O,
    value: &Value,
) -> Result<Option<Text>, Stop>
    ensures { Does (shortened (whole_text value.now)) (O.seen objects.old) result
        (O.seen objects.new) }
{
    match print_of_value(alloc, value)? {
        ValuePrint::Own(text) => Ok(short(text)),
        ValuePrint::Object(name) => whole_object(alloc, objects, name),
    }
}

/// The print text of a value: E17 where it has more than `PRINT_LIMIT` bytes, after all its
/// accesses.
pub fn print_text<O: Objects>(alloc: Global, objects: &mut O, value: &Value) -> Result<Text, Stop>
    ensures { Does (print_text value.now) (O.seen objects.old) result (O.seen objects.new) }
{
    match short_text(alloc, objects, value)? {
        Some(text) => Ok(text),
        None => Err(Stop::Fails(Fault::ObjectTooLarge)),
    }
}
