//! The names that objects ask for and that are missing.
ghost use Rattle.std.specs.Prelude.{◌≡◌, ◌+◌, ◌++◌, ◌≤◌, ◌^◌, length, map, filter, IfOk, OnOk};
ghost use Rattle.std.specs.Option.{option_to_list};
ghost use Rattle.object_programs.specs.gem_image.Image.{contents_of};
ghost use Rattle.object_programs.specs.Guard.{line_at, line_of_class, asked_names};
ghost use Rattle.object_programs.specs.Fixed.{class_part};
ghost use Rattle.object_programs.specs.Atom.{asked_by_all};
ghost use Rattle.object_guard.specs.Parts.{with_objects};
ghost use Rattle.object_guard.specs.Missing.{is_missing, missing_of, HaveNames, superclass_of};

use crate::sees::Sees;
use crate::together::Together;
use gem_object::{Body, Object, Oid};
use object_programs::CHAIN_LIMIT;
use std::alloc::{AllocError, Global};

/// The names that new objects ask for where no object is, when all of the new ones are there: the
/// first at this name, and each of the others at the name after that of the one before it. They are
/// numbers, since a segment has its owner's number, and a name that is asked for more than once may
/// stand there as often.
///
/// # Errors
///
/// `AllocError` where memory ran out.
pub fn missing_names<S: Sees>(
    alloc: Global,
    state: &S,
    first: Oid,
    objects: &[Object],
) -> Result<Vec<u64>, AllocError>
    requires there { HaveNames (S.parts state.now) }
    requires names { first + length objects.now ≤ 2 ^ 48 }
    ensures { IfOk result (λ missing. let parts = with_objects first objects.now (S.parts state.now)
        in missing.items ≡ missing_of parts (asked_by_all parts (map contents_of objects.now))) }
{
    let beside = Together {
        state,
        first: first.number(),
        objects,
    };
    missing_in(alloc, &beside, objects)
}

fn missing_in<S: Sees>(alloc: Global, state: &S, objects: &[Object]) -> Result<Vec<u64>, AllocError>
    requires { HaveNames (S.parts state.now) }
    ensures { IfOk result (λ missing. missing.items ≡ missing_of (S.parts state.now)
        (asked_by_all (S.parts state.now) (map contents_of objects.now))) }
{
    let mut missing = Vec::new(alloc);
    for object in objects {
        push_missing(alloc, state, object, &mut missing)?;
    }
    Ok(missing)
}

// Adds the names that the object asks for where no object is.
fn push_missing<S: Sees>(
    alloc: Global,
    state: &S,
    object: &Object,
    missing: &mut Vec<u64>,
) -> Result<(), AllocError>
    requires { HaveNames (S.parts state.now) }
    ensures { OnOk result (missing.new.items ≡ missing.old.items ++ missing_of (S.parts state.now)
        (asked_names (S.parts state.now) (contents_of object.now))) }
{
    let mut names = Vec::new(alloc);
    object.push_references(&mut names)?;
    push_unknown(state, &names, missing)?;
    push_name(missing_above(state, object.class), missing)?;
    push_name(missing_over(state, &object.body), missing)
}

fn push_unknown<S: Sees>(state: &S, names: &[u64], missing: &mut Vec<u64>) -> Result<(), AllocError>
    requires { HaveNames (S.parts state.now) }
    ensures { OnOk result (missing.new.items
        ≡ missing.old.items ++ missing_of (S.parts state.now) names.now) }
{
    for name in names {
        if is_missing(state, *name) {
            missing.push(*name)?;
        }
    }
    Ok(())
}

fn push_name(name: Option<Oid>, missing: &mut Vec<u64>) -> Result<(), AllocError>
    ensures { OnOk result (missing.new.items ≡ missing.old.items ++ option_to_list name) }
{
    match name {
        Some(name) => Ok(missing.push(name.number())?),
        None => Ok(()),
    }
}

fn is_missing<S: Sees>(state: &S, number: u64) -> bool
    requires { HaveNames (S.parts state.now) }
    ensures { result ≡ is_missing (S.parts state.now) number }
{
    match Oid::of(number) {
        Some(name) => state.object(name).is_none(),
        None => true,
    }
}

// The name that is missing on the way up from a class, if one is: the last one.
fn missing_above<S: Sees>(state: &S, class: Oid) -> Option<Oid>
    ensures { option_to_list result
        ≡ missing_of (S.parts state.now) (line_at (S.parts state.now) class) }
{
    let mut class = class;
    let mut limit = CHAIN_LIMIT;
    while limit > 0 {
        let Some(object) = state.object(class) else {
            return Some(class);
        };
        let Some(superclass) = superclass_of(&object.body) else {
            return None;
        };
        class = superclass;
        limit -= 1;
    }
    None
}

// The superclass of a class, if the body is a class and has one.
fn superclass_of(body: &Body) -> Option<Oid>
    ensures { result ≡ superclass_of (class_part body.now) }
{
    match body {
        Body::Class(class) => class.superclass,
        _ => None,
    }
}

// The name that is missing above a class object, if one is.
fn missing_over<S: Sees>(state: &S, body: &Body) -> Option<Oid>
    ensures { option_to_list result ≡ missing_of (S.parts state.now)
        (line_of_class (class_part body.now) (line_at (S.parts state.now))) }
{
    missing_above(state, superclass_of(body)?)
}
