//! Methods that are put into classes.
ghost use Rattle.std.specs.Prelude.{◌≡◌, true, is_some, length, nat_le, IfOk, OnOk, Some};
ghost use Rattle.gem_object.specs.texts.declared.limits.TheConstants.{SYMBOL_LIMIT};
ghost use Rattle.gem_sound.specs.st_grammar.Grammar.{method};
ghost use Rattle.gem_sound.specs.st_grammar_laws.TreeOf.{tree_of};
ghost use Rattle.gem_object.specs.declared.body.MethodCode.TheVariants.{Source};
ghost use Rattle.gem_object.specs.declared.body.Body.TheVariants.{Class};
ghost use Rattle.gem_sound.specs.gem_image.Image.{Contents};
ghost use Rattle.object_programs.specs.Budget.{bytes_cost};
ghost use Rattle.object_programs.specs.Fixed.{class_part};
ghost use Rattle.object_programs.specs.Methods.{answers_to};
ghost use Rattle.object_programs.specs.declared.limits.TheConstants.{BYTES_LIMIT};
ghost use Rattle.running_objects.specs.Seen.{object_at};
ghost use Rattle.gem_language.specs.Install.{with_method, class_with, class_named, put_method, install};
ghost use Rattle.st_outside.specs.Written.{put_in_class};
ghost use Rattle.prim_parts.specs.Does.{Does};

use crate::classes::class_at;
use crate::globals::global_value;
use gem_object::{Body, ClassBody, Method, MethodCode, Methods, Oid, SYMBOL_LIMIT, Text, Value};
use object_programs::{BYTES_LIMIT, Fault, bytes_cost};
use prim_parts::{check, reference_in, replace_body};
use running_objects::{Objects, Stop};
use std::alloc::AllocError;
use std::cmp::Ordering;

/// Puts the source of a method with this selector into the class that a global names, on its class
/// side or not: it takes the place of one with the selector. E2 where there is no such global, and
/// E5 where it is no class; the class is read (E10) and written (E11), E17 where the selector is
/// too long or the class too large, and E15 where there is too little space for the source. The
/// time and the memory are those of the class, which is copied.
pub fn install<O: Objects>(
    objects: &mut O,
    class_side: bool,
    class: &Text,
    selector: &Text,
    source: &Text,
) -> Result<(), Stop>
    requires { answers_to selector.now (tree_of method source.now) ≡ true }
    ensures { Does (install class_side class.now selector.now source.now) (O.seen objects.old)
        result (O.seen objects.new) }
{
    let value = global_value(objects, class)?;
    let name = class_named(objects, &value)?;
    put_method(objects, class_side, selector, source, name)
}

// The class object to which a value refers. Nothing that is there is touched.
fn class_named<O: Objects>(objects: &mut O, value: &Value) -> Result<Oid, Stop>
    ensures { Does (class_named value.now) (O.seen objects.old) result (O.seen objects.new) }
{
    let name = reference_in(value)?;
    objects.know(name)?;
    let Some(object) = objects.object(name) else {
        return Err(Stop::Fails(Fault::ArgumentKind));
    };
    check(Fault::ArgumentKind, is_class(&object.body))?;
    Ok(name)
}

fn is_class(body: &Body) -> bool
    ensures { result ≡ is_some (class_part body.now) }
{
    matches!(body, Body::Class(_))
}

// The class of this name gets a method, which has the source.
fn put_method<O: Objects>(
    objects: &mut O,
    class_side: bool,
    selector: &Text,
    source: &Text,
    name: Oid,
) -> Result<(), Stop>
    requires { answers_to selector.now (tree_of method source.now) ≡ true }
    ensures { Does (put_method class_side
        (record { selector = selector.now; code = Source source.now }) source.now name)
        (O.seen objects.old) result (O.seen objects.new) }
{
    objects.read(name)?;
    objects.write(name)?;
    put_in_class(objects, class_side, selector, source, name)
}

// The same, where the object of this name was written.
fn put_in_class<O: Objects>(
    objects: &mut O,
    class_side: bool,
    selector: &Text,
    source: &Text,
    name: Oid,
) -> Result<(), Stop>
    requires { answers_to selector.now (tree_of method source.now) ≡ true }
    ensures { (object : Contents) → object_at name (O.seen objects.old) ≡ Some object
        → Does (put_in_class class_side
        (record { selector = selector.now; code = Source source.now }) source.now name object)
        (O.seen objects.old) result (O.seen objects.new) }
{
    let Some(class) = class_at(objects, name) else {
        return Err(Stop::Fails(Fault::ArgumentKind));
    };
    check(Fault::ObjectTooLarge, is_symbol(selector))?;
    if !is_storable(source) {
        return Err(Stop::Fails(Fault::ObjectTooLarge));
    }
    let body = with_source(class, class_side, selector, source)?;
    objects.sound();
    replace_body(objects, name, body, source_cost(source))
}

// Whether a text is short enough for a symbol.
fn is_symbol(text: &Text) -> bool
    ensures { result ≡ nat_le (length text.now) SYMBOL_LIMIT }
{
    text.bytes().len() <= SYMBOL_LIMIT
}

// Whether a source is short enough for an object. A class with a longer one would be too large.
fn is_storable(source: &Text) -> bool
    ensures { result ≡ nat_le (length source.now) BYTES_LIMIT }
{
    source.bytes().len() as u64 <= BYTES_LIMIT
}

// The class with the source of a method on this side.
fn with_source(
    class: &ClassBody,
    class_side: bool,
    selector: &Text,
    source: &Text,
) -> Result<Body, AllocError>
    ensures { IfOk result (λ body. body ≡ Class (class_with class_side
        (record { selector = selector.now; code = Source source.now }) class.now)) }
{
    let method = Method {
        selector: selector.clone()?,
        code: MethodCode::Source(source.clone()?),
    };
    Ok(Body::Class(class_with(class_side, method, class)?))
}

// The space that a source takes, in slots.
fn source_cost(source: &Text) -> u64
    ensures { result ≡ bytes_cost (length source.now) }
{
    bytes_cost(source.bytes().len() as u64)
}

// The class with this method on this side.
fn class_with(class_side: bool, method: Method, class: &ClassBody) -> Result<ClassBody, AllocError>
    ensures { IfOk result (λ new. new ≡ class_with class_side method class.now) }
{
    let mut new = class.clone()?;
    if class_side {
        insert_method(&mut new.class_methods, method)?;
        return Ok(new);
    }
    insert_method(&mut new.methods, method)?;
    Ok(new)
}

// A method comes among those of a class, which ascend by selector: in the place of one with its
// selector, or between those around it.
fn insert_method(methods: &mut Methods, method: Method) -> Result<(), AllocError>
    ensures { OnOk result (methods.new ≡ with_method method methods.old) }
{
    let mut at = 0;
    while at < methods.len() {
        match method.selector.cmp(&methods.as_slice()[at].selector) {
            Ordering::Less => return methods.insert(at, method),
            Ordering::Equal => {
                methods.set(at, method);
                return Ok(());
            }
            Ordering::Greater => at += 1,
        }
    }
    methods.push(method)
}
