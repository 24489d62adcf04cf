//! The primitives 54 to 60, of classes.
ghost use Rattle.std.specs.Prelude.{◌≡◌, true, not, drop, Some, filter, map, [], IfOk, List};
ghost use Rattle.gem_image.specs.Image.{Contents};
ghost use Rattle.object_programs.specs.gem_world.World.{next_name};
ghost use Rattle.prim_parts.specs.Entering.{HasNames};
ghost use Rattle.gem_object.specs.declared.value.Value.{Value};
ghost use Rattle.gem_object.specs.declared.value.Value.TheVariants.{Sym};
ghost use Rattle.gem_object.specs.declared.body.Body.TheVariants as body;
ghost use Rattle.object_programs.specs.Methods.{methods_fit};
ghost use Rattle.object_programs.specs.Programs.{need};
ghost use Rattle.object_programs.specs.declared.fault.Fault.TheVariants as fault;
ghost use Rattle.running_objects.specs.Seen.{object_at};
ghost use Rattle.gem_sound.specs.declared.names.TheConstants.{ARRAY_CLASS};
ghost use Rattle.prim_rules.specs.Parts.{class_in, symbol_in, new_object, answers};
ghost use Rattle.prim_rules.specs.Making.{make_and_enter};
ghost use Rattle.prim_rules.specs.Classes.{new_class, class_entry, has_selector, understands, without_method, kind_to_inherit, elements_of, names_to_add, wanted_class, row_54, row_59, row_60};
ghost use Rattle.prim_rules.specs.Receivers.{Receiver, tells, lists, argument_as};
ghost use Rattle.prim_parts.specs.Does.{Does, Computes, pointed, IsThere};
ghost use Rattle.prim_classes.specs.ClassWords.{told_by, listed_by, IsNew, with_dictionary, wanted_part, made_class, class_replaced};

use crate::blocks::copies;
use crate::class_names::{class_name_in, may_add_names, may_have_subclasses, symbols_in};
use gem_object::{
    Body, ClassBody, Kind, Method, Methods, Names, Object, Oid, Sequence, Text, Value, Values,
};
use gem_sound::names::{ARRAY_CLASS, CLASS_CLASS, IDENTITY_DICTIONARY_CLASS, kernel_name};
use object_programs::Fault;
use prim_parts::{
    all_names, check, check_kind, default_segment, make_and_enter, named_slots, new_object,
    no_arguments, one_of, reference_in, replace_body, symbol_in, three_of, truth,
};
use prim_rules::PrimitiveAnswer;
use running_objects::{Objects, Stop};
use std::alloc::{AllocError, Global};

// What a class tells of itself.
#[derive(Clone, Copy)]
pub enum ClassFact {
    /// Its name.
    Name,
    /// Its superclass.
    Superclass,
}

/// What a class lists of itself.
#[derive(Clone, Copy)]
pub enum ClassList {
    /// The names of the instance variables that it adds.
    Names,
    /// The selectors of the methods of its instances.
    Selectors,
}

// What a class tells.
fn told_by(fact: ClassFact, class: &ClassBody) -> Result<Value, AllocError>
    ensures { IfOk result (λ value. value ≡ told_by fact class.now) }
{
    Ok(match fact {
        ClassFact::Name => Value::Sym(class.name.clone()?),
        ClassFact::Superclass => match class.superclass {
            Some(superclass) => Value::Ref(superclass),
            None => Value::Nil,
        },
    })
}

fn symbols_of(alloc: Global, names: &[Text]) -> Result<Values, AllocError>
    ensures { IfOk result (λ values. values ≡ map Sym names.now) }
{
    let mut values = Vec::new(alloc);
    for name in names {
        values.push(Value::Sym(name.clone()?))?;
    }
    Ok(Sequence::of(values))
}

fn selectors_of(alloc: Global, methods: &[Method]) -> Result<Values, AllocError>
    ensures { IfOk result (λ values. values ≡ map (λ method. Sym method.selector) methods.now) }
{
    let mut values = Vec::new(alloc);
    for method in methods {
        values.push(Value::Sym(method.selector.clone()?))?;
    }
    Ok(Sequence::of(values))
}

// What a class lists.
fn listed_by(alloc: Global, list: ClassList, class: &ClassBody) -> Result<Values, AllocError>
    ensures { IfOk result (λ values. values ≡ listed_by list class.now) }
{
    match list {
        ClassList::Names => symbols_of(alloc, class.names.as_slice()),
        ClassList::Selectors => selectors_of(alloc, class.methods.as_slice()),
    }
}

// The class of this name; E5 where the object is none.
fn class_at<O: Objects>(objects: &O, name: Oid) -> Result<&ClassBody, Stop>
    requires { IsThere name (O.seen objects.now) }
    ensures { (object : Contents) → object_at name (O.seen objects.now) ≡ Some object
        → Computes (need fault.ArgumentKind (class_in object.body)) (pointed result) }
{
    let Some(object) = objects.object(name) else {
        unreachable!()
    };
    match &object.body {
        Body::Class(class) => Ok(class),
        _ => Err(Stop::Fails(Fault::ArgumentKind)),
    }
}

/// 55 and 56, `name` and `superclass`.
pub fn tell<O: Objects>(
    objects: &mut O,
    fact: ClassFact,
    receiver: &Value,
    arguments: &[Value],
) -> Result<PrimitiveAnswer, Stop>
    ensures { Does (tells class_in (told_by fact) receiver.now arguments.now)
        (O.seen objects.old) result (O.seen objects.new) }
{
    let name = reference_in(receiver)?;
    objects.read(name)?;
    let class = class_at(objects, name)?;
    no_arguments(arguments)?;
    Ok(PrimitiveAnswer::Gives(told_by(fact, class)?))
}

// A new Array of these values.
fn new_array<O: Objects>(alloc: Global, objects: &mut O, values: Values) -> Result<Value, Stop>
    ensures { Does (new_object ARRAY_CLASS (body.Plain values)) (O.seen objects.old) result
        (O.seen objects.new) }
{
    new_object(
        alloc,
        objects,
        kernel_name(ARRAY_CLASS),
        Body::Plain(values),
    )
}

/// 57 and 58, `instVarNames` and `selectors`.
pub fn list<O: Objects>(
    alloc: Global,
    objects: &mut O,
    list: ClassList,
    receiver: &Value,
    arguments: &[Value],
) -> Result<PrimitiveAnswer, Stop>
    ensures { Does (lists class_in (listed_by list) receiver.now arguments.now)
        (O.seen objects.old) result (O.seen objects.new) }
{
    let name = reference_in(receiver)?;
    objects.read(name)?;
    let class = class_at(objects, name)?;
    no_arguments(arguments)?;
    let values = listed_by(alloc, list, class)?;
    let array = new_array(alloc, objects, values)?;
    Ok(PrimitiveAnswer::Gives(array))
}

// The symbol that the one argument is; E5 where it is none.
fn symbol_argument(arguments: &[Value]) -> Result<&Text, Stop>
    ensures { Computes (argument_as symbol_in arguments.now) (pointed result) }
{
    let argument = one_of(arguments)?;
    symbol_in(argument)
}

// Whether one of the methods of a class's instances answers this message.
fn understands(class: &ClassBody, selector: &Text) -> bool
    ensures { result ≡ understands class.now selector.now }
{
    let methods = class.methods.as_slice();
    methods.iter().any(|method| answers(method, selector))
}

// Whether a method answers this message.
fn answers(method: &Method, selector: &Text) -> bool
    ensures { result ≡ has_selector selector.now method.now }
{
    method.selector.bytes() == selector.bytes()
}

/// 59, `includesSelector:`.
pub fn row_59<O: Objects>(
    objects: &mut O,
    receiver: &Value,
    arguments: &[Value],
) -> Result<PrimitiveAnswer, Stop>
    ensures { Does (row_59 receiver.now arguments.now) (O.seen objects.old) result
        (O.seen objects.new) }
{
    let name = reference_in(receiver)?;
    objects.read(name)?;
    let class = class_at(objects, name)?;
    let selector = symbol_argument(arguments)?;
    Ok(PrimitiveAnswer::Gives(truth(understands(class, selector))))
}

// The methods but those that answer this message.
fn methods_without(
    alloc: Global,
    methods: &[Method],
    selector: &Text,
) -> Result<Methods, AllocError>
    ensures { IfOk result (λ kept.
        kept ≡ filter (λ method. not (has_selector selector.now method)) methods.now) }
{
    let mut kept = Vec::new(alloc);
    for method in methods {
        if !answers(method, selector) {
            kept.push(method.clone()?)?;
        }
    }
    Ok(Sequence::of(kept))
}

// The class without that method of its instances.
fn without_method(
    alloc: Global,
    class: &ClassBody,
    selector: &Text,
) -> Result<ClassBody, AllocError>
    ensures { IfOk result (λ made. made ≡ without_method selector.now class.now) }
{
    Ok(ClassBody {
        name: class.name.clone()?,
        superclass: class.superclass,
        kind: class.kind,
        names: class.names.try_clone()?,
        methods: methods_without(alloc, class.methods.as_slice(), selector)?,
        class_methods: class.class_methods.try_clone()?,
    })
}

/// 60, `removeSelector:`.
pub fn row_60<O: Objects>(
    alloc: Global,
    objects: &mut O,
    receiver: &Value,
    arguments: &[Value],
) -> Result<PrimitiveAnswer, Stop>
    ensures { Does (row_60 receiver.now arguments.now) (O.seen objects.old) result
        (O.seen objects.new) }
{
    let name = reference_in(receiver)?;
    objects.write(name)?;
    objects.sound();
    let class = class_at(objects, name)?;
    let selector = symbol_argument(arguments)?;
    check(Fault::KeyAbsent, understands(class, selector))?;
    let without = without_method(alloc, class, selector)?;
    removed(objects, name, without, receiver)
}

// The class of this name, which was written, gets this body; the receiver.
fn removed<O: Objects>(
    objects: &mut O,
    name: Oid,
    class: ClassBody,
    receiver: &Value,
) -> Result<PrimitiveAnswer, Stop>
    requires { methods_fit name (body.Class class) ≡ true }
    ensures { (object : Contents) → object_at name (O.seen objects.old) ≡ Some object
        → Does (class_replaced name object class receiver.now) (O.seen objects.old) result
        (O.seen objects.new) }
{
    replace_body(objects, name, Body::Class(class), 0)?;
    Ok(PrimitiveAnswer::Gives(receiver.clone()?))
}

// The kind of a class under which another is to be put; E5 where it is no such class. That is told
// without a touch.
fn kind_to_inherit<O: Objects>(objects: &mut O, superclass: Oid) -> Result<Kind, Stop>
    ensures does { Does (kind_to_inherit superclass) (O.seen objects.old) result
        (O.seen objects.new) }
    ensures there { IfOk result (λ kind. IsThere superclass (O.seen objects.new)) }
{
    objects.know(superclass)?;
    let Some(object) = objects.object(superclass) else {
        return Err(Stop::Fails(Fault::ArgumentKind));
    };
    let Body::Class(class) = &object.body else {
        return Err(Stop::Fails(Fault::ArgumentKind));
    };
    let kind = class.kind;
    check(Fault::ArgumentKind, may_have_subclasses(kind))?;
    Ok(kind)
}

// Copies of the slots from a place on.
fn slots_from(alloc: Global, slots: &[Value], at: usize) -> Result<Values, AllocError>
    ensures { IfOk result (λ values. values ≡ drop at slots.now) }
{
    if at >= slots.len() {
        return Ok(Sequence::of(Vec::new(alloc)));
    }
    let rest = &slots[at..];
    copies(alloc, rest)
}

// The elements of an Array, which is read.
fn elements_of<O: Objects>(alloc: Global, objects: &mut O, array: &Value) -> Result<Values, Stop>
    ensures { Does (elements_of array.now) (O.seen objects.old) result (O.seen objects.new) }
{
    let name = reference_in(array)?;
    objects.read(name)?;
    objects.sound();
    let Some(object) = objects.object(name) else {
        unreachable!()
    };
    let Body::Plain(slots) = &object.body else {
        return Err(Stop::Fails(Fault::ArgumentKind));
    };
    let named = named_slots(objects, object.class);
    Ok(slots_from(alloc, slots.as_slice(), named)?)
}

// The names that an Array gives to a class of this kind under a superclass that is there.
fn names_to_add<O: Objects>(
    alloc: Global,
    objects: &mut O,
    superclass: Oid,
    kind: Kind,
    array: &Value,
) -> Result<Names, Stop>
    requires { IsThere superclass (O.seen objects.old) }
    ensures { Does (names_to_add superclass kind array.now) (O.seen objects.old) result
        (O.seen objects.new) }
{
    objects.sound();
    let elements = elements_of(alloc, objects, array)?;
    let Some(names) = symbols_in(alloc, elements.as_slice())? else {
        return Err(Stop::Fails(Fault::ArgumentKind));
    };
    let inherited = all_names(alloc, objects, superclass)?;
    let may = may_add_names(kind, inherited.as_slice(), names.as_slice());
    check(Fault::ArgumentKind, may)?;
    Ok(names)
}

// A class with no methods yet.
fn new_class(alloc: Global, name: Text, superclass: Oid, kind: Kind, names: Names) -> ClassBody
    ensures { result ≡ new_class name superclass kind names }
{
    ClassBody {
        name,
        superclass: Some(superclass),
        kind,
        names,
        methods: Sequence::of(Vec::new(alloc)),
        class_methods: Sequence::of(Vec::new(alloc)),
    }
}

// The kind and the names that a class under this one gets by an Array of names.
fn wanted_part<O: Objects>(
    alloc: Global,
    objects: &mut O,
    name: &Text,
    superclass: Oid,
    array: &Value,
) -> Result<ClassBody, Stop>
    ensures does { (dictionary : Value)
        → Does (wanted_part name.now superclass array.now dictionary) (O.seen objects.old)
        (with_dictionary dictionary result) (O.seen objects.new) }
    ensures new { IfOk result IsNew }
{
    let kind = kind_to_inherit(objects, superclass)?;
    let names = names_to_add(alloc, objects, superclass, kind, array)?;
    Ok(new_class(alloc, name.clone()?, superclass, kind, names))
}

// The class that is to be made, by a superclass and what is wanted: a name, an Array of names, and
// an IdentityDictionary.
fn wanted_class<O: Objects>(
    alloc: Global,
    objects: &mut O,
    superclass: Oid,
    name: &Value,
    array: &Value,
    dictionary: &Value,
) -> Result<ClassBody, Stop>
    ensures does { Does (wanted_class superclass (name.now, (array.now, dictionary.now)))
        (O.seen objects.old) (with_dictionary dictionary.now result) (O.seen objects.new) }
    ensures new { IfOk result IsNew }
{
    let name = class_name_in(name)?;
    check_kind(objects, array, kernel_name(ARRAY_CLASS))?;
    check_kind(objects, dictionary, kernel_name(IDENTITY_DICTIONARY_CLASS))?;
    wanted_part(alloc, objects, name, superclass, array)
}

// The name that is drawn next, or another one where none is left.
fn next_or<O: Objects>(objects: &O, other: Oid) -> Oid
    ensures { HasNames 1 (O.seen objects.now)
        → result ≡ next_name (O.seen objects.now).setting (O.seen objects.now).world }
{
    match objects.next_name() {
        Some(name) => name,
        None => other,
    }
}

// The class is made, and goes into the dictionary of this name, which was written.
fn enter_class<O: Objects>(
    alloc: Global,
    objects: &mut O,
    class: ClassBody,
    segment: Oid,
    dictionary: Oid,
) -> Result<PrimitiveAnswer, Stop>
    requires { IsNew class }
    ensures { (receiver : Receiver (List (Value × Value))) → receiver.name ≡ dictionary
        → object_at dictionary (O.seen objects.old) ≡ Some receiver.object
        → Does (answers (make_and_enter (class_entry class segment) receiver))
        (O.seen objects.old) result (O.seen objects.new) }
{
    let name = next_or(objects, segment);
    let key = Value::Sym(class.name.clone()?);
    let object = Object {
        class: kernel_name(CLASS_CLASS),
        segment,
        changed: 0,
        body: Body::Class(class),
    };
    let made = vec![in alloc; object]?;
    let class = make_and_enter(objects, made, name, key, dictionary)?;
    Ok(PrimitiveAnswer::Gives(class))
}

// A class is made, and goes into a dictionary, which is written.
fn made_class<O: Objects>(
    alloc: Global,
    objects: &mut O,
    class: ClassBody,
    dictionary: &Value,
) -> Result<PrimitiveAnswer, Stop>
    requires { IsNew class }
    ensures { Does (made_class class dictionary.now) (O.seen objects.old) result
        (O.seen objects.new) }
{
    let name = reference_in(dictionary)?;
    objects.write(name)?;
    let Some(object) = objects.object(name) else {
        unreachable!()
    };
    let Body::Dict(_) = &object.body else {
        return Err(Stop::Fails(Fault::ArgumentKind));
    };
    let segment = default_segment(objects)?;
    enter_class(alloc, objects, class, segment, name)
}

/// 54, `subclass:instVarNames:inDictionary:`, which answers the class.
pub fn row_54<O: Objects>(
    alloc: Global,
    objects: &mut O,
    receiver: &Value,
    arguments: &[Value],
) -> Result<PrimitiveAnswer, Stop>
    ensures { Does (row_54 receiver.now arguments.now) (O.seen objects.old) result
        (O.seen objects.new) }
{
    let superclass = reference_in(receiver)?;
    let (name, array, dictionary) = three_of(arguments)?;
    let class = wanted_class(alloc, objects, superclass, name, array, dictionary)?;
    made_class(alloc, objects, class, dictionary)
}
