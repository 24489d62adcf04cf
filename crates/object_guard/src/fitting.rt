//! Which object may stand at a name.
ghost use Rattle.std.specs.Prelude.{◌≡◌, ◌+◌, ◌≤◌, ◌^◌, ℕ, true, Some, None, map, length, ◌&&◌, nat_lt};
ghost use Rattle.std.specs.List.{list_all};
ghost use Rattle.gem_object.specs.Edits.{plain_slots};
ghost use Rattle.gem_object.specs.References.{names_in_body};
ghost use Rattle.object_programs.specs.gem_image.Image.{contents_of};
ghost use Rattle.object_programs.specs.gem_sound.Kernel.{kernel_class};
ghost use Rattle.object_programs.specs.gem_sound.Sound.{names_in};
ghost use Rattle.object_programs.specs.Fixed.{class_part, same_number};
ghost use Rattle.object_programs.specs.Guard.{Parts, with_part, is_known, is_segment_at, is_user_at, is_dictionary_at, is_class_object, is_transcript, accepts, named_fit, kernel_fits, kind_is_inherited, row_fits, place_fits, holds_of, are_few, names_of_class, names_at, fits, with_parts, all_fit};
ghost use Rattle.object_programs.specs.Methods.{methods_fit};
ghost use Rattle.object_programs.specs.Spelled.{is_spelled};
ghost use Rattle.object_guard.specs.Parts.{fixed_part, part_of_class, with_objects};
ghost use Rattle.image_check.specs.Kernel.{class_of};

use crate::classes::{class_at, has_names};
use crate::known::{is_there, knows_all};
use crate::sees::Sees;
use crate::spelled::is_spelled;
use crate::together::Together;
use gem_object::{Body, ClassBody, Object, Oid};
use gem_sound::NAMES_LIMIT;
use gem_sound::names::{CLASS_CLASS, OBJECT_CLASS, TRANSCRIPT_STREAM_CLASS, is_kernel_name};
use image_check::{KernelClass, has_body, has_named_slots, kernel_body, kernel_class};
use std::slice;

/// Whether this object may stand at the name, where all else is as the state shows it. The methods
/// of a class have to be such as the class may have; all else is tested. It takes no memory, goes
/// through what the object holds at most four times, and looks at each class above its class once.
pub fn fits<S: Sees>(state: &S, name: Oid, object: &Object) -> bool
    requires { methods_fit name object.now.body ≡ true }
    ensures { result ≡ fits (with_part name (fixed_part object.now) (S.parts state.now)) name
        (contents_of object.now) }
{
    let beside = Together {
        state,
        first: name.number(),
        objects: slice::from_ref(object),
    };
    fits_in(&beside, name, object)
}

/// Whether each of the objects may stand at its name, where all of them are there: the first at
/// this name, and each of the others at the name after that of the one before it. So they may refer
/// to one another and to themselves. It costs what `fits` costs of each.
pub fn all_fit<S: Sees>(state: &S, first: Oid, objects: &[Object]) -> bool
    requires methods { (name : ℕ)
        → list_all (λ object. methods_fit name object.body) objects.now ≡ true }
    requires names { first + length objects.now ≤ 2 ^ 48 }
    ensures { result ≡ all_fit (with_objects first objects.now (S.parts state.now)) first
        (map contents_of objects.now) }
{
    let beside = Together {
        state,
        first: first.number(),
        objects,
    };
    all_fit_in(&beside, first.number(), objects)
}

// Whether each of the objects may stand at its name in the state.
fn all_fit_in<S: Sees>(state: &S, first: u64, objects: &[Object]) -> bool
    requires methods { (name : ℕ)
        → list_all (λ object. methods_fit name object.body) objects.now ≡ true }
    requires names { first + length objects.now ≤ 2 ^ 48 }
    ensures { result ≡ all_fit (S.parts state.now) first (map contents_of objects.now) }
{
    let mut number = first;
    let mut rest = objects;
    while let Some((object, others)) = rest.split_first() {
        let Some(name) = Oid::of(number) else {
            return false;
        };
        if !fits_in(state, name, object) {
            return false;
        }
        number += 1;
        rest = others;
    }
    true
}

// Whether this object may stand at the name in the state.
fn fits_in<S: Sees>(state: &S, name: Oid, object: &Object) -> bool
    requires { methods_fit name object.now.body ≡ true }
    ensures { result ≡ fits (S.parts state.now) name (contents_of object.now) }
{
    passes(state, name, object)
}

// The tests in the order in which they are made: what can be stored has names that are there.
fn passes<S: Sees>(state: &S, name: Oid, object: &Object) -> bool
    ensures { result ≡ (nat_lt 0 name && (is_spelled object.now.body
        && (list_all (is_known (S.parts state.now)) (names_in (contents_of object.now))
        && (is_segment_at (S.parts state.now) object.now.segment
        && (accepts (S.parts state.now) object.now.class object.now.body
        && (named_fit (S.parts state.now) object.now.body
        && (kernel_fits name object.now.body
        && place_fits (S.parts state.now) name (class_part object.now.body)))))))) }
{
    name.number() > 0
        && is_spelled(&object.body)
        && refers(state, object)
        && is_segment(state, object.segment)
        && accepts(state, object.class, &object.body)
        && named_fit(state, &object.body)
        && kernel_fits(name.number(), &object.body)
        && place_fits(state, name, &object.body)
}

// Whether each object is there to which this one refers.
fn refers<S: Sees>(state: &S, object: &Object) -> bool
    requires { is_spelled object.now.body ≡ true }
    ensures { result ≡ list_all (is_known (S.parts state.now)) (names_in (contents_of object.now)) }
{
    is_there(state, object.class)
        && is_there(state, object.segment)
        && knows_all(state, &object.body)
}

/// Whether there is a segment of this name. It takes no memory.
pub fn is_segment<S: Sees>(state: &S, segment: Oid) -> bool
    ensures { result ≡ is_segment_at (S.parts state.now) segment }
{
    match state.object(segment) {
        Some(object) => matches!(object.body, Body::Segment(_)),
        None => false,
    }
}

fn is_user<S: Sees>(state: &S, user: Oid) -> bool
    ensures { result ≡ is_user_at (S.parts state.now) user }
{
    match state.object(user) {
        Some(object) => matches!(object.body, Body::User(_)),
        None => false,
    }
}

fn is_dictionary<S: Sees>(state: &S, dictionary: Oid) -> bool
    ensures { result ≡ is_dictionary_at (S.parts state.now) dictionary }
{
    match state.object(dictionary) {
        Some(object) => matches!(object.body, Body::Dict(_)),
        None => false,
    }
}

// Whether the class of this name may have an object of this body.
fn accepts<S: Sees>(state: &S, class: Oid, body: &Body) -> bool
    ensures { result ≡ accepts (S.parts state.now) class body.now }
{
    let Some(found) = class_at(state, class) else {
        return false;
    };
    (found.kind.fits(body) && has_names(state, class, body.plain_slots()))
        || is_class_object(class, body)
        || is_transcript(class, body)
}

fn is_class_object(class: Oid, body: &Body) -> bool
    ensures { result ≡ is_class_object class body.now }
{
    match body {
        Body::Class(_) => is_kernel_name(class, CLASS_CLASS),
        _ => false,
    }
}

fn is_transcript(class: Oid, body: &Body) -> bool
    ensures { result ≡ is_transcript class body.now }
{
    match body {
        Body::Plain(values) => {
            values.is_empty() && is_kernel_name(class, TRANSCRIPT_STREAM_CLASS)
        }
        _ => false,
    }
}

// Whether what a segment or a user names is of its kind.
fn named_fit<S: Sees>(state: &S, body: &Body) -> bool
    requires { is_spelled body.now ≡ true }
    ensures { result ≡ named_fit (S.parts state.now) body.now }
{
    match body {
        Body::Segment(rights) => match Oid::of(rights.owner) {
            Some(owner) => is_user(state, owner),
            None => false,
        },
        Body::User(user) => {
            is_segment(state, user.default_segment) && is_dictionary(state, user.globals)
        }
        _ => true,
    }
}

// Whether the body is of the kind that the kernel's object with this number has, if there is one.
fn kernel_fits(number: u64, body: &Body) -> bool
    ensures { result ≡ kernel_fits number body.now }
{
    match kernel_body(number) {
        Some(kind) => has_body(kind, body),
        None => true,
    }
}

// Whether a class has a place among the classes that it may have.
fn place_fits<S: Sees>(state: &S, name: Oid, body: &Body) -> bool
    ensures { result ≡ place_fits (S.parts state.now) name (class_part body.now) }
{
    match body {
        Body::Class(class) => {
            has_few_names(state, name, class)
                && row_fits(state, name, class)
                && (class.names.is_empty() || has_named_slots(class.kind))
        }
        _ => true,
    }
}

// Whether the superclasses of a class end at Object, and it hasn't too many names with those that
// it inherits.
fn has_few_names<S: Sees>(state: &S, name: Oid, class: &ClassBody) -> bool
    ensures { result ≡ holds_of are_few (names_of_class name (Some (part_of_class class.now))
        (names_at (S.parts state.now))) }
{
    let Some(left) = (NAMES_LIMIT as usize).checked_sub(class.names.len()) else {
        return false;
    };
    match class.superclass {
        Some(superclass) => has_names(state, superclass, left),
        None => is_kernel_name(name, OBJECT_CLASS),
    }
}

// Whether a class of the kernel is that of its row, and any other has the kind of its superclass.
fn row_fits<S: Sees>(state: &S, name: Oid, class: &ClassBody) -> bool
    ensures { result ≡ row_fits (S.parts state.now) (kernel_class name)
        (part_of_class class.now) }
{
    match kernel_class(name.number()) {
        Some(row) => is_row(row, class),
        None => has_inherited_kind(state, class),
    }
}

fn is_row(row: KernelClass, class: &ClassBody) -> bool
    ensures { result ≡ row_fits (λ _. None) (Some (class_of row)) (part_of_class class.now) }
{
    is_superclass(row.superclass, class.superclass)
        && row.kind.number() == class.kind.number()
        && class.names.is_empty()
}

fn is_superclass(counter: Option<u32>, superclass: Option<Oid>) -> bool
    ensures { result ≡ same_number superclass counter }
{
    match (counter, superclass) {
        (None, None) => true,
        (Some(counter), Some(superclass)) => is_kernel_name(superclass, counter),
        _ => false,
    }
}

fn has_inherited_kind<S: Sees>(state: &S, class: &ClassBody) -> bool
    ensures { result
        ≡ kind_is_inherited (S.parts state.now) class.now.superclass class.now.kind }
{
    let Some(superclass) = class.superclass else {
        return false;
    };
    match class_at(state, superclass) {
        Some(above) => above.kind.number() == class.kind.number(),
        None => false,
    }
}
