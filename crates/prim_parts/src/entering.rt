//! New objects that are put into a dictionary.
ghost use Rattle.std.specs.Prelude.{◌≡◌, ◌<◌, ℕ, length, true, Some};
ghost use Rattle.std.specs.List.{list_all};
ghost use Rattle.gem_sound.specs.gem_image.Image.{Contents, contents_of};
ghost use Rattle.object_programs.specs.Budget.{is_within_limits};
ghost use Rattle.object_programs.specs.Methods.{methods_fit};
ghost use Rattle.running_objects.specs.Seen.{object_at};
ghost use Rattle.prim_parts.specs.Does.{Computes};
ghost use Rattle.prim_parts.specs.Entering.{entry_room, Enters, MadeAndEntered};

use crate::arguments::check;
use crate::edits::{pair_growth, stays_small};
use body_growth::pair_put;
use gem_object::{Object, Oid, Value};
use object_programs::{Fault, is_small};
use running_objects::{Objects, Stop};

// Whether all objects are within the limits of objects.
fn are_small(made: &[Object]) -> bool
    ensures { result ≡ list_all (λ object. is_within_limits (contents_of object)) made.now }
{
    made.iter().all(|object| is_small(&object.body))
}

// The space that a pair takes in the dictionary of this name, or E17.
fn entry_room<O: Objects>(
    objects: &O,
    dictionary: Oid,
    key: &Value,
    chosen: Oid,
) -> Result<u64, Stop>
    ensures { (object : Contents) → object_at dictionary (O.seen objects.now) ≡ Some object
        → Computes (entry_room key.now chosen object) result }
{
    let Some(object) = objects.object(dictionary) else {
        return Ok(0);
    };
    let change = pair_put(&object.body, key, &Value::Ref(chosen));
    check(
        Fault::ObjectTooLarge,
        stays_small(objects, dictionary, change),
    )?;
    Ok(pair_growth(&object.body, key))
}

// Makes objects, and puts one of them into the dictionary of this name.
fn enter<O: Objects>(
    objects: &mut O,
    made: Vec<Object>,
    chosen: Oid,
    key: Value,
    dictionary: Oid,
) -> Result<Value, Stop>
    requires { (name : ℕ)
        → list_all (λ object. methods_fit name object.body) made.items ≡ true }
    ensures { Enters made.items chosen key dictionary (O.seen objects.old) result
        (O.seen objects.new) }
{
    objects.sound();
    objects.make(made)?;
    objects.put_at(dictionary, key, Value::Ref(chosen))?;
    Ok(Value::Ref(chosen))
}

/// Makes objects at the names that are drawn next, and puts the one of this name into a dictionary
/// that was written; a reference to it. The objects stand as they are where the first of them gets
/// `next_name`; where too few names are left any name serves, since sizes don't depend on it. E17
/// where an object or then the dictionary would be too large, E16 unless there is a name for each,
/// E15 where there is too little space; then nothing is made.
pub fn make_and_enter<O: Objects>(
    objects: &mut O,
    made: Vec<Object>,
    chosen: Oid,
    key: Value,
    dictionary: Oid,
) -> Result<Value, Stop>
    requires some { 0 < length made.items }
    requires methods { (name : ℕ)
        → list_all (λ object. methods_fit name object.body) made.items ≡ true }
    ensures { MadeAndEntered made.items chosen key dictionary (O.seen objects.old) result
        (O.seen objects.new) }
{
    check(Fault::ObjectTooLarge, are_small(made.as_slice()))?;
    let growth = entry_room(objects, dictionary, &key, chosen)?;
    objects.names(made.len() as u64)?;
    objects.room(growth)?;
    enter(objects, made, chosen, key, dictionary)
}
