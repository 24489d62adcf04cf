//! The objects of the kernel, made.
ghost use Rattle.std.specs.Prelude.{◌≡◌, ◌+◌, ◌^◌, ◌<◌, ◌++◌, length, [], map, All, IfOk, OnOk};
ghost use Rattle.gem_object.specs.insertion_map.Pairs.{AreDistinct};
ghost use Rattle.gem_object.specs.Order.{same_value};
ghost use Rattle.gem_object.specs.declared.body.Body.TheVariants.{Plain};
ghost use Rattle.kernel_image.specs.Objects.{kernel_object, shared_objects, profiles, last_objects, kernel_list, entry, entries_from, other_entries, globals_entries, users_entries, dictionary, own_globals, segment_object, user_object, named_from};
ghost use Rattle.kernel_image.specs.Rows.{method_of_row, methods_of_rows, class_of_row, names_of_rows, entry_of_row};

use crate::table::{ClassRow, CodeRow, MethodRow, class_rows};
use gem_object::{
    Body, ClassBody, Dictionary, Groups, Method, MethodCode, Methods, Names, Object, Oid, Right,
    Rights, Text, UserBody, Value, Values,
};
use gem_sound::names::{
    ALL_USERS, CLASS_CLASS, DATA_CURATOR, DATA_CURATOR_GLOBALS, DATA_CURATOR_SEGMENT, GLOBALS,
    SEGMENT_CLASS, SYMBOL_DICTIONARY_CLASS, SYSTEM_SEGMENT, SYSTEM_USER, SYSTEM_USER_GLOBALS,
    TRANSCRIPT, TRANSCRIPT_STREAM_CLASS, USER_PROFILE_CLASS, kernel_name,
};
use std::alloc::{AllocError, Global};

// An object of the kernel.
fn object(class: u32, segment: u32, body: Body) -> Object
    requires class { class < 2 ^ 24 }
    requires segment { segment < 2 ^ 24 }
    ensures { result ≡ kernel_object class segment body }
{
    Object {
        class: kernel_name(class),
        segment: kernel_name(segment),
        changed: 0,
        body,
    }
}

fn text(alloc: Global, text: &str) -> Result<Text, AllocError>
    ensures { IfOk result (λ made. made ≡ text.now) }
{
    Text::copy_of(alloc, text.as_bytes())
}

fn method(alloc: Global, row: &MethodRow) -> Result<Method, AllocError>
    ensures { IfOk result (λ method. method ≡ method_of_row row.now) }
{
    let code = match row.code {
        CodeRow::Source(source) => MethodCode::Source(text(alloc, source)?),
        CodeRow::Primitive(number) => MethodCode::Primitive(number),
    };
    Ok(Method {
        selector: text(alloc, row.selector)?,
        code,
    })
}

fn methods(alloc: Global, rows: &[MethodRow]) -> Result<Methods, AllocError>
    ensures { IfOk result (λ methods. methods ≡ methods_of_rows rows.now) }
{
    let mut methods = Vec::new(alloc);
    for row in rows {
        methods.push(method(alloc, row)?)?;
    }
    Ok(Methods::of(methods))
}

fn superclass(counter: Option<u32>) -> Option<Oid>
    ensures { result ≡ counter }
{
    match counter {
        Some(counter) => Oid::of(u64::from(counter)),
        None => None,
    }
}

// The class of a row.
fn class_object(alloc: Global, row: &ClassRow) -> Result<Object, AllocError>
    ensures { IfOk result (λ object. object ≡ class_of_row row.now) }
{
    let class = ClassBody {
        name: text(alloc, row.name)?,
        superclass: superclass(row.superclass),
        kind: row.kind,
        names: Names::of(Vec::new(alloc)),
        methods: methods(alloc, row.methods)?,
        class_methods: methods(alloc, row.class_methods)?,
    };
    Ok(object(CLASS_CLASS, SYSTEM_SEGMENT, Body::Class(class)))
}

fn class_objects(alloc: Global, rows: &[ClassRow]) -> Result<Vec<Object>, AllocError>
    ensures { IfOk result (λ objects. objects.items ≡ map class_of_row rows.now) }
{
    let mut objects = Vec::new(alloc);
    for row in rows {
        objects.push(class_object(alloc, row)?)?;
    }
    Ok(objects)
}

// The entry of a dictionary that leads from a name to the object with this counter.
fn entry(alloc: Global, key: &str, counter: u32) -> Result<(Value, Value), AllocError>
    requires { counter < 2 ^ 24 }
    ensures { IfOk result (λ made. made ≡ entry key.now counter) }
{
    Ok((
        Value::Sym(text(alloc, key)?),
        Value::Ref(kernel_name(counter)),
    ))
}

// What Globals leads to beside a class.
#[derive(Clone, Copy)]
struct GlobalRow {
    name: &'static str,
    counter: u32,
}

macro_rules! globals {
    ($($name:literal $counter:expr;)*) => {
        [$(GlobalRow {
            name: $name,
            counter: $counter,
        }),*]
    };
}

fn other_globals() -> &'static [GlobalRow]
    ensures entries { map entry_of_row result.now ≡ other_entries }
    ensures counters { All (λ row. row.counter < 2 ^ 24) result.now }
{
    static ROWS: [GlobalRow; 5] = globals! {
        "Globals" GLOBALS;
        "AllUsers" ALL_USERS;
        "SystemSegment" SYSTEM_SEGMENT;
        "DataCuratorSegment" DATA_CURATOR_SEGMENT;
        "Transcript" TRANSCRIPT;
    };
    &ROWS
}

// The entries of Globals for the classes of these rows.
fn class_entries(alloc: Global, rows: &[ClassRow]) -> Result<Vec<(Value, Value)>, AllocError>
    requires { length rows.now < 2 ^ 16 }
    ensures { IfOk result (λ entries. entries.items ≡ entries_from 1 (names_of_rows rows.now)) }
{
    let mut entries = Vec::new(alloc);
    let mut counter = 1u32;
    for row in rows {
        entries.push(entry(alloc, row.name, counter)?)?;
        counter += 1;
    }
    Ok(entries)
}

// Adds the entries of these rows.
fn add_entries(
    alloc: Global,
    rows: &[GlobalRow],
    entries: &mut Vec<(Value, Value)>,
) -> Result<(), AllocError>
    requires { All (λ row. row.counter < 2 ^ 24) rows.now }
    ensures { OnOk result (entries.new.items ≡ entries.old.items ++ map entry_of_row rows.now) }
{
    for row in rows {
        entries.push(entry(alloc, row.name, row.counter)?)?;
    }
    Ok(())
}

#[tactic(auto, unfolding(crate::specs::Objects::globals_entries))]
fn globals_entries(alloc: Global) -> Result<Vec<(Value, Value)>, AllocError>
    ensures { IfOk result (λ entries. entries.items ≡ globals_entries) }
{
    let mut entries = class_entries(alloc, &class_rows())?;
    add_entries(alloc, other_globals(), &mut entries)?;
    Ok(entries)
}

#[tactic(auto, unfolding(crate::specs::Objects::users_entries))]
fn users_entries(alloc: Global) -> Result<Vec<(Value, Value)>, AllocError>
    ensures { IfOk result (λ entries. entries.items ≡ users_entries) }
{
    Ok(vec![in alloc;
        entry(alloc, "SystemUser", SYSTEM_USER)?,
        entry(alloc, "DataCurator", DATA_CURATOR)?,
    ]?)
}

// A dictionary in the segment.
fn dictionary(
    alloc: Global,
    segment: u32,
    entries: Vec<(Value, Value)>,
) -> Result<Object, AllocError>
    requires segment { segment < 2 ^ 24 }
    requires distinct { AreDistinct same_value entries.items }
    ensures { IfOk result (λ object. object ≡ dictionary segment entries.items) }
{
    gem_object::laws::equality_of_values();
    let Some(pairs) = Dictionary::of_pairs(alloc, entries)? else {
        unreachable!()
    };
    Ok(object(SYMBOL_DICTIONARY_CLASS, segment, Body::Dict(pairs)))
}

// The dictionary of a user's own globals.
fn own_globals(alloc: Global, counter: u32, segment: u32) -> Result<Object, AllocError>
    requires counter { counter < 2 ^ 24 }
    requires segment { segment < 2 ^ 24 }
    ensures { IfOk result (λ object. object ≡ own_globals counter segment) }
{
    let entries = vec![in alloc; entry(alloc, "UserGlobals", counter)?]?;
    dictionary(alloc, segment, entries)
}

fn segment(alloc: Global, counter: u32, owner: u32) -> Object
    requires { counter < 2 ^ 24 }
    ensures { result ≡ segment_object counter owner }
{
    let rights = Rights {
        owner: u64::from(owner),
        owner_right: Right::Write,
        groups: Groups::from(Vec::new(alloc)),
        world_right: Right::Read,
    };
    object(SEGMENT_CLASS, counter, Body::Segment(rights))
}

fn user(alloc: Global, key: &str, segment: u32, globals: u32) -> Result<Object, AllocError>
    requires segment { segment < 2 ^ 24 }
    requires globals { globals < 2 ^ 24 }
    ensures { IfOk result (λ object. object ≡ user_object key.now segment globals) }
{
    let user = UserBody {
        name: text(alloc, key)?,
        groups: Names::of(Vec::new(alloc)),
        default_segment: kernel_name(segment),
        globals: kernel_name(globals),
    };
    Ok(object(USER_PROFILE_CLASS, segment, Body::User(user)))
}

fn transcript(alloc: Global) -> Object
    ensures { result ≡ kernel_object 26 29 (Plain []) }
{
    let slots = Values::of(Vec::new(alloc));
    object(TRANSCRIPT_STREAM_CLASS, SYSTEM_SEGMENT, Body::Plain(slots))
}

#[tactic(auto, unfolding(crate::specs::Objects::shared_objects))]
fn add_shared(alloc: Global, objects: &mut Vec<Object>) -> Result<(), AllocError>
    ensures { OnOk result (objects.new.items ≡ objects.old.items ++ shared_objects) }
{
    let globals = globals_entries(alloc)?;
    objects.push(dictionary(alloc, DATA_CURATOR_SEGMENT, globals)?)?;
    let users = users_entries(alloc)?;
    objects.push(dictionary(alloc, DATA_CURATOR_SEGMENT, users)?)?;
    objects.push(segment(alloc, SYSTEM_SEGMENT, SYSTEM_USER))?;
    objects.push(segment(alloc, DATA_CURATOR_SEGMENT, DATA_CURATOR))?;
    Ok(())
}

#[tactic(auto, unfolding(crate::specs::Objects::profiles))]
fn add_profiles(alloc: Global, objects: &mut Vec<Object>) -> Result<(), AllocError>
    ensures { OnOk result (objects.new.items ≡ objects.old.items ++ profiles) }
{
    objects.push(user(alloc, "SystemUser", SYSTEM_SEGMENT, SYSTEM_USER_GLOBALS)?)?;
    objects.push(user(
        alloc,
        "DataCurator",
        DATA_CURATOR_SEGMENT,
        DATA_CURATOR_GLOBALS,
    )?)?;
    Ok(())
}

#[tactic(auto, unfolding(crate::specs::Objects::last_objects))]
fn add_own_globals(alloc: Global, objects: &mut Vec<Object>) -> Result<(), AllocError>
    ensures { OnOk result (objects.new.items ≡ objects.old.items ++ last_objects) }
{
    objects.push(own_globals(alloc, SYSTEM_USER_GLOBALS, SYSTEM_SEGMENT)?)?;
    objects.push(own_globals(alloc, DATA_CURATOR_GLOBALS, DATA_CURATOR_SEGMENT)?)?;
    objects.push(transcript(alloc))?;
    Ok(())
}

// The objects, in the order of their counters from 1 on.
#[tactic(auto, unfolding(crate::specs::Objects::kernel_list))]
fn objects(alloc: Global) -> Result<Vec<Object>, AllocError>
    ensures { IfOk result (λ objects. objects.items ≡ kernel_list) }
{
    let mut objects = class_objects(alloc, &class_rows())?;
    add_shared(alloc, &mut objects)?;
    add_profiles(alloc, &mut objects)?;
    add_own_globals(alloc, &mut objects)?;
    Ok(objects)
}

// The objects with their names, whose counters count from 1 on.
fn named(alloc: Global, objects: Vec<Object>) -> Result<Vec<(Oid, Object)>, AllocError>
    requires { length objects.items < 2 ^ 16 }
    ensures { IfOk result (λ named. named.items ≡ named_from 1 objects.items) }
{
    let mut named = Vec::new(alloc);
    let mut counter = 1u32;
    for object in objects {
        named.push((kernel_name(counter), object))?;
        counter += 1;
    }
    Ok(named)
}

/// The objects of the kernel with their names.
pub(crate) fn named_objects(alloc: Global) -> Result<Vec<(Oid, Object)>, AllocError>
    ensures { IfOk result (λ named. named.items ≡ named_from 1 kernel_list) }
{
    named(alloc, objects(alloc)?)
}
