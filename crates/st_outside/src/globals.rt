//! Globals.
ghost use Rattle.std.specs.Prelude.{◌≡◌, IfOk};
ghost use Rattle.gem_object.specs.Edits.{value_at};
ghost use Rattle.object_programs.specs.Run.{fail};
ghost use Rattle.object_programs.specs.declared.fault.Fault.TheVariants as fault;
ghost use Rattle.running_objects.specs.Seen.{object_at};
ghost use Rattle.gem_language.specs.OutOfScope.{global_at, own_globals, own_global, or_in_globals, find_global, global_value};
ghost use Rattle.st_outside.specs.Keys.{OfSymbol};
ghost use Rattle.prim_parts.specs.Does.{Does, Computes};

use gem_object::{Body, Oid, Text, Value};
use gem_sound::names::{GLOBALS, kernel_name};
use object_programs::Fault;
use running_objects::{Objects, Stop};
use std::alloc::AllocError;

/// A copy of the value of the global of this name: among the user's own globals, and then in
/// Globals; E2 where there is none. A dictionary is read where it is looked into: E10 where the
/// user may not.
pub fn global_value<O: Objects>(objects: &mut O, name: &Text) -> Result<Value, Stop>
    ensures { Does (global_value name.now) (O.seen objects.old) result (O.seen objects.new) }
{
    let found = find_global(objects, name)?;
    match found {
        Some(value) => Ok(value),
        None => undefined(name),
    }
}

/// E2 for this name.
pub(crate) fn undefined(name: &Text) -> Result<Value, Stop>
    ensures { Computes (fail (fault.UndefinedVariable name.now)) result }
{
    Err(Stop::Fails(Fault::UndefinedVariable(name.clone()?)))
}

// The profile is touched without a right.
fn find_global<O: Objects>(objects: &mut O, name: &Text) -> Result<Option<Value>, Stop>
    ensures { Does (find_global name.now) (O.seen objects.old) result (O.seen objects.new) }
{
    objects.own()?;
    let key = Value::Sym(name.clone()?);
    let own = own_globals(objects);
    let found = own_global(objects, &key, own)?;
    or_in_globals(objects, &key, found)
}

// The dictionary of the user's own globals.
fn own_globals<O: Objects>(objects: &O) -> Option<Oid>
    ensures { result ≡ own_globals
        (object_at (O.seen objects.now).setting.user (O.seen objects.now)) }
{
    match &objects.object(objects.user())?.body {
        Body::User(user) => Some(user.globals),
        _ => None,
    }
}

fn own_global<O: Objects>(
    objects: &mut O,
    key: &Value,
    dictionary: Option<Oid>,
) -> Result<Option<Value>, Stop>
    ensures { OfSymbol key.now (λ name. Does (own_global name dictionary) (O.seen objects.old)
        result (O.seen objects.new)) }
{
    match dictionary {
        Some(dictionary) => global_at(objects, key, dictionary),
        None => Ok(None),
    }
}

// What was found, and else what Globals has, which is read then.
fn or_in_globals<O: Objects>(
    objects: &mut O,
    key: &Value,
    found: Option<Value>,
) -> Result<Option<Value>, Stop>
    ensures { OfSymbol key.now (λ name. Does (or_in_globals name found) (O.seen objects.old) result
        (O.seen objects.new)) }
{
    match found {
        Some(value) => Ok(Some(value)),
        None => global_at(objects, key, kernel_name(GLOBALS)),
    }
}

// The global of this name in a dictionary, which is read.
fn global_at<O: Objects>(
    objects: &mut O,
    key: &Value,
    dictionary: Oid,
) -> Result<Option<Value>, Stop>
    ensures { OfSymbol key.now (λ name. Does (global_at name dictionary) (O.seen objects.old)
        result (O.seen objects.new)) }
{
    objects.read(dictionary)?;
    let Some(object) = objects.object(dictionary) else {
        unreachable!()
    };
    let found = value_at(&object.body, key)?;
    Ok(found)
}

// A copy of the value at a key.
fn value_at(body: &Body, key: &Value) -> Result<Option<Value>, AllocError>
    ensures { IfOk result (λ found. found ≡ value_at key.now body.now) }
{
    match body.value_at(key) {
        Some(value) => Ok(Some(value.clone()?)),
        None => Ok(None),
    }
}
