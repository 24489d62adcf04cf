//! The primitive 79, of new users.
ghost use Rattle.std.specs.Prelude.{◌≡◌, ◌+◌, ◌^◌, ◌<◌, [], ◌∷◌, List, map, not, is_some, option_map, option_and_then, IfOk};
ghost use Rattle.gem_object.specs.Edits.{value_at};
ghost use Rattle.gem_object.specs.declared.value.Value.{Value};
ghost use Rattle.gem_object.specs.declared.value.Value.TheVariants.{Sym};
ghost use Rattle.gem_sound.specs.gem_image.Image.{contents_of};
ghost use Rattle.object_programs.specs.gem_world.World.{next_name};
ghost use Rattle.object_programs.specs.Programs.{check};
ghost use Rattle.object_programs.specs.Run.{and_then};
ghost use Rattle.object_programs.specs.declared.fault.Fault.TheVariants as fault;
ghost use Rattle.running_objects.specs.Seen.{object_at};
ghost use Rattle.prim_rules.specs.Making.{make_and_enter};
ghost use Rattle.prim_rules.specs.Parts.{pairs_in, answers};
ghost use Rattle.prim_rules.specs.Users.{user_segment, user_globals, user_profile, user_entry, row_79};
ghost use Rattle.prim_parts.specs.Does.{Does};
ghost use Rattle.prim_parts.specs.Entering.{HasNames};
ghost use Rattle.prim_shared.specs.Held.{GoesOn};
ghost use Rattle.prim_shared.specs.NewUsers.{AreDrawn};

use crate::receivers::{ReceiverKind, write_receiver};
use crate::user_names::user_name_argument;
use gem_object::{
    Body, Dictionary, Groups, Object, Oid, Right, Rights, Sequence, Text, UserBody, Value,
};
use gem_sound::names::{
    ALL_USERS, DATA_CURATOR_SEGMENT, SEGMENT_CLASS, SYMBOL_DICTIONARY_CLASS, USER_PROFILE_CLASS,
    kernel_name,
};
use object_programs::Fault;
use prim_parts::{check, make_and_enter, reference_in};
use prim_rules::PrimitiveAnswer;
use running_objects::{Objects, Stop};
use std::alloc::{AllocError, Global};

/// The names of the objects of a new user.
#[derive(Clone, Copy)]
pub struct NewNames {
    /// The name of the user's segment.
    pub segment: Oid,
    /// The name of the dictionary of the user's globals.
    pub globals: Oid,
    /// The name of the user's profile.
    pub profile: Oid,
}

// The name so many after this one, where there is such a name.
fn name_after(name: Oid, by: u64) -> Oid
    requires { by < 2 ^ 8 }
    ensures { name + by < 2 ^ 48 → result ≡ name + by }
{
    match Oid::of(name.number() + by) {
        Some(after) => after,
        None => name,
    }
}

// The name that is drawn next. Where none is left any name serves.
fn first_name<O: Objects>(objects: &O) -> Oid
    ensures { HasNames 3 (O.seen objects.now)
        → result ≡ next_name (O.seen objects.now).setting (O.seen objects.now).world }
{
    match objects.next_name() {
        Some(name) => name,
        None => kernel_name(ALL_USERS),
    }
}

// The names that are drawn next. Where too few are left any names serve.
fn names_to_draw<O: Objects>(objects: &O) -> NewNames
    ensures { HasNames 3 (O.seen objects.now) → AreDrawn result (O.seen objects.now) }
{
    objects.sound();
    let segment = first_name(objects);
    NewNames {
        segment,
        globals: name_after(segment, 1),
        profile: name_after(segment, 2),
    }
}

// The segment of a new user.
fn new_segment(alloc: Global, names: NewNames) -> Object
    ensures { contents_of result ≡ user_segment names.segment names.profile }
{
    Object {
        class: kernel_name(SEGMENT_CLASS),
        segment: names.segment,
        changed: 0,
        body: Body::Segment(Rights {
            owner: names.profile.number(),
            owner_right: Right::Write,
            groups: Groups::from(Vec::new(alloc)),
            world_right: Right::Read,
        }),
    }
}

// The globals of a new user.
fn new_globals(alloc: Global, names: NewNames) -> Result<Object, AllocError>
    ensures { IfOk result (λ made. contents_of made
        ≡ user_globals names.segment names.globals) }
{
    let mut pairs = Dictionary::new(alloc);
    let key = Value::Sym(Text::copy_of(alloc, b"UserGlobals")?);
    pairs.put(key, Value::Ref(names.globals))?;
    Ok(Object {
        class: kernel_name(SYMBOL_DICTIONARY_CLASS),
        segment: names.segment,
        changed: 0,
        body: Body::Dict(pairs),
    })
}

// The profile of a new user.
fn new_profile(alloc: Global, name: &Text, names: NewNames) -> Result<Object, AllocError>
    ensures { IfOk result (λ made. contents_of made
        ≡ user_profile name.now names.segment names.globals) }
{
    Ok(Object {
        class: kernel_name(USER_PROFILE_CLASS),
        segment: kernel_name(DATA_CURATOR_SEGMENT),
        changed: 0,
        body: Body::User(UserBody {
            name: name.clone()?,
            groups: Sequence::of(Vec::new(alloc)),
            default_segment: names.segment,
            globals: names.globals,
        }),
    })
}

// The objects of a new user.
fn user_objects(alloc: Global, name: &Text, names: NewNames) -> Result<Vec<Object>, AllocError>
    ensures { IfOk result (λ made. map contents_of made.items
        ≡ user_segment names.segment names.profile ∷ user_globals names.segment names.globals
        ∷ user_profile name.now names.segment names.globals ∷ []) }
{
    let mut made = Vec::new(alloc);
    made.push(new_segment(alloc, names))?;
    made.push(new_globals(alloc, names)?)?;
    made.push(new_profile(alloc, name, names)?)?;
    Ok(made)
}

/// 79, `newUser:`: the profile of a new user. E5 where there is a user of the name, E17 where there
/// are too many users, E16 where names and E15 where space are lacking.
pub fn row_79<O: Objects>(
    alloc: Global,
    objects: &mut O,
    receiver: &Value,
    arguments: &[Value],
) -> Result<PrimitiveAnswer, Stop>
    ensures { Does (row_79 receiver.now arguments.now) (O.seen objects.old) result
        (O.seen objects.new) }
{
    reference_in(receiver)?;
    let name = user_name_argument(arguments)?;
    let all = Value::Ref(kernel_name(ALL_USERS));
    let users = write_receiver(objects, ReceiverKind::Dictionary, &all)?;
    add_user(alloc, objects, users, name)
}

// Whether the dictionary of this name has a value at the key.
fn has_key<O: Objects>(objects: &O, name: Oid, key: &Value) -> bool
    ensures { result ≡ is_some (option_and_then (λ object. value_at key.now object.body)
        (object_at name (O.seen objects.now))) }
{
    match objects.object(name) {
        Some(object) => object.body.value_at(key).is_some(),
        None => false,
    }
}

// A new user comes into the dictionary of all users, which was written.
fn add_user<O: Objects>(
    alloc: Global,
    objects: &mut O,
    users: Oid,
    name: &Text,
) -> Result<PrimitiveAnswer, Stop>
    ensures { GoesOn pairs_in (λ users.
        and_then (check fault.ArgumentKind
        (not (is_some (value_at (Sym name.now) users.object.body)))) (λ absent.
        answers (make_and_enter (user_entry name.now) users))) users (O.seen objects.old) result
        (O.seen objects.new) }
{
    let key = Value::Sym(name.clone()?);
    check(Fault::ArgumentKind, !has_key(objects, users, &key))?;
    let profile = make_user(alloc, objects, users, name)?;
    Ok(PrimitiveAnswer::Gives(profile))
}

// The objects of a new user are made, and the profile goes into the dictionary of all users.
fn make_user<O: Objects>(
    alloc: Global,
    objects: &mut O,
    users: Oid,
    name: &Text,
) -> Result<Value, Stop>
    ensures { GoesOn pairs_in (make_and_enter (user_entry name.now)) users (O.seen objects.old)
        result (O.seen objects.new) }
{
    let names = names_to_draw(objects);
    let made = user_objects(alloc, name, names)?;
    let key = Value::Sym(name.clone()?);
    make_and_enter(objects, made, names.profile, key, users)
}
