//! Users, and what names refer to where locks are asked for.
ghost use Rattle.std.specs.Prelude.{◌≡◌, IfOk, Some, option_copied, option_and_then, option_map, is_some};
ghost use Rattle.gem_object.specs.texts.Bytes.{Bytes};
ghost use Rattle.gem_object.specs.References.{reference_of};
ghost use Rattle.gem_object.specs.declared.value.Value.TheVariants.{Sym};
ghost use Rattle.gem_image.specs.Image.{objects_in};
ghost use Rattle.gem_meaning.specs.gem_language.KernelNames.{globals};
ghost use Rattle.gem_meaning.specs.gem_language.OutOfScope.{global_in, own_globals};
ghost use Rattle.gem_sound.specs.Parts.{user_at};
ghost use Rattle.gem_world.specs.World.{shown};
ghost use Rattle.gem_meaning.specs.Names.{if_user, user_in, find_name, found_in, found_here, global_shown, no_name};
ghost use Rattle.gem_session.specs.Names.{found_by};

use gem_image::Image;
use gem_object::{Body, Oid, Text, Value, may_read};
use gem_sound::names::{ALL_USERS, GLOBALS, KERNEL_SERIAL};
use running_objects::Objects;
use session_view::View;
use std::alloc::AllocError;

/// The object of the user with this name, who may log in where this image stands: the dictionary
/// AllUsers has one under this name.
///
/// # Errors
///
/// `AllocError` where memory ran out.
pub(crate) fn user_in(image: &Image, name: &Text) -> Result<Option<Oid>, AllocError>
    ensures { IfOk result (λ user. user ≡ user_in image.now name.now) }
{
    let key = Value::Sym(name.clone()?);
    Ok(user_at_key(image, &key))
}

// The user that AllUsers has at this key.
#[tactic(auto, unfolding(gem_meaning::specs::Names::user_in))]
fn user_at_key(image: &Image, key: &Value) -> Option<Oid>
    ensures { (name : Bytes) → key.now ≡ Sym name → result ≡ user_in image.now name }
{
    match referred_user(image, key) {
        Some(user) => if_user(image, user),
        None => None,
    }
}

// What AllUsers refers to at this key.
fn referred_user(image: &Image, key: &Value) -> Option<Oid>
    ensures { (name : Bytes) → key.now ≡ Sym name → result ≡ option_and_then reference_of
        (option_and_then (global_in name) (objects_in image.now ALL_USERS)) }
{
    image
        .look(Oid::from_parts(KERNEL_SERIAL, ALL_USERS))?
        .body
        .value_at(key)?
        .reference()
}

// The name, where it is that of a user.
fn if_user(image: &Image, name: Oid) -> Option<Oid>
    ensures { result ≡ if_user (objects_in image.now) name }
{
    match &image.look(name)?.body {
        Body::User(_) => Some(name),
        _ => None,
    }
}

/// The value that a name refers to, for the user: looked up in the user's own globals, and in
/// Globals where these lack it. There is none where neither has it, or where the user may not read
/// one in which it is looked up. Nothing is touched.
///
/// # Errors
///
/// `AllocError` where memory ran out.
pub(crate) fn find_name<'a>(view: &'a View, name: &Text) -> Result<Option<&'a Value>, AllocError>
    ensures { IfOk result (λ found. found_by (option_copied found)
        ≡ find_name name.now view.now.state.seen.setting view.now.state.seen.world) }
{
    let key = Value::Sym(name.clone()?);
    Ok(find_key(view, &key))
}

// The value at a key, for the user.
#[tactic(auto, unfolding(gem_meaning::specs::Names::find_name))]
fn find_key<'a>(view: &'a View, key: &Value) -> Option<&'a Value>
    ensures { (name : Bytes) → key.now ≡ Sym name → found_by (option_copied result)
        ≡ find_name name view.now.state.seen.setting view.now.state.seen.world }
{
    match own_globals(view) {
        Some(own) => in_own(view, own, key),
        None => in_globals(view, key),
    }
}

// The value at a key in this dictionary, where the user may read it, and where that lacks the key
// in Globals.
fn in_own<'a>(view: &'a View, own: Oid, key: &Value) -> Option<&'a Value>
    ensures { (name : Bytes) → key.now ≡ Sym name → found_by (option_copied result)
        ≡ found_in name (found_in name no_name view.now.state.seen.setting view.now.state.seen.world globals)
        view.now.state.seen.setting view.now.state.seen.world own }
{
    if !may_read(view.right(own)) {
        return None;
    }
    in_readable(view, own, key)
}

// The value at a key in this dictionary, and where that lacks the key in Globals.
fn in_readable<'a>(view: &'a View, own: Oid, key: &Value) -> Option<&'a Value>
    ensures { (name : Bytes) → key.now ≡ Sym name → found_by (option_copied result)
        ≡ found_here (global_shown name
        (shown own view.now.state.seen.setting view.now.state.seen.world))
        (found_in name no_name view.now.state.seen.setting view.now.state.seen.world globals) }
{
    match global_in(view, own, key) {
        Some(value) => Some(value),
        None => in_globals(view, key),
    }
}

// The value at a key in Globals, where the user may read it.
fn in_globals<'a>(view: &'a View, key: &Value) -> Option<&'a Value>
    ensures { (name : Bytes) → key.now ≡ Sym name → found_by (option_copied result)
        ≡ found_in name no_name view.now.state.seen.setting view.now.state.seen.world globals }
{
    let globals = Oid::from_parts(KERNEL_SERIAL, GLOBALS);
    if !may_read(view.right(globals)) {
        return None;
    }
    global_in(view, globals, key)
}

// The value at a key in the dictionary of this name, as it is now.
fn global_in<'a>(view: &'a View, dictionary: Oid, key: &Value) -> Option<&'a Value>
    ensures { (name : Bytes) → key.now ≡ Sym name → option_copied result
        ≡ option_and_then (global_in name)
        (shown dictionary view.now.state.seen.setting view.now.state.seen.world) }
{
    view.object(dictionary)?.body.value_at(key)
}

// The dictionary of the user's own globals.
fn own_globals(view: &View) -> Option<Oid>
    ensures { result ≡ own_globals (shown view.now.state.seen.setting.user view.now.state.seen.setting
        view.now.state.seen.world) }
{
    match &view.object(view.user())?.body {
        Body::User(user) => Some(user.globals),
        _ => None,
    }
}
