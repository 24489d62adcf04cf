//! Of which classes objects are. What is fixed of an object is known without an access; nothing is
//! touched but names without an object.
ghost use Rattle.prim_rules.specs.Parts.{class_of_plain, class_of_reference, class_of_value, is_under, is_kind_of, check_kind, named_slots};
ghost use Rattle.prim_rules.specs.Classes.{all_names};
ghost use Rattle.std.specs.Prelude.{◌≡◌, Ok, IfOk};
ghost use Rattle.prim_parts.specs.Does.{Does, IsThere};

use crate::arguments::check;
use crate::classes::{count_names, has_class, push_names};
use gem_object::{Names, Oid, Value};
use gem_sound::names::{
    BLOCK_CLASS, CHARACTER_CLASS, FALSE_CLASS, SMALL_INTEGER_CLASS, SYMBOL_CLASS, TRUE_CLASS,
    UNDEFINED_OBJECT_CLASS, kernel_name,
};
use object_programs::{CHAIN_LIMIT, Fault};
use running_objects::{Objects, Stop};
use std::alloc::{AllocError, Global};

/// The class of a value that isn't a reference.
pub fn class_of_plain(value: &Value) -> Option<Oid>
    ensures { result ≡ class_of_plain value.now }
{
    match value {
        Value::Nil => Some(kernel_name(UNDEFINED_OBJECT_CLASS)),
        Value::False => Some(kernel_name(FALSE_CLASS)),
        Value::True => Some(kernel_name(TRUE_CLASS)),
        Value::Int(_) => Some(kernel_name(SMALL_INTEGER_CLASS)),
        Value::Char(_) => Some(kernel_name(CHARACTER_CLASS)),
        Value::Sym(_) => Some(kernel_name(SYMBOL_CLASS)),
        Value::Block(_) => Some(kernel_name(BLOCK_CLASS)),
        Value::Ref(_) => None,
    }
}

/// The class of the object of this name; E5 where there is no object.
pub fn class_of_reference<O: Objects>(objects: &mut O, name: Oid) -> Result<Oid, Stop>
    ensures { Does (class_of_reference name) (O.seen objects.old) result (O.seen objects.new) }
{
    found_class(objects, name)
}

/// The class of a value; E5 where it refers to an object that isn't there.
pub fn class_of_value<O: Objects>(objects: &mut O, value: &Value) -> Result<Oid, Stop>
    ensures { Does (class_of_value value.now) (O.seen objects.old) result (O.seen objects.new) }
{
    own_class(objects, value)
}

// The class of the object of this name, which is there.
fn found_class<O: Objects>(objects: &mut O, name: Oid) -> Result<Oid, Stop>
    ensures does { Does (class_of_reference name) (O.seen objects.old) result
        (O.seen objects.new) }
    ensures there { IfOk result (λ class. IsThere class (O.seen objects.new)) }
{
    objects.know(name)?;
    objects.sound();
    let Some(object) = objects.object(name) else {
        return Err(Stop::Fails(Fault::ArgumentKind));
    };
    Ok(object.class)
}

// The class of a value, which is there.
fn own_class<O: Objects>(objects: &mut O, value: &Value) -> Result<Oid, Stop>
    ensures does { Does (class_of_value value.now) (O.seen objects.old) result
        (O.seen objects.new) }
    ensures there { IfOk result (λ class. IsThere class (O.seen objects.new)) }
{
    if let Some(name) = value.reference() {
        return found_class(objects, name);
    }
    objects.sound();
    let Some(class) = class_of_plain(value) else {
        return Err(Stop::Fails(Fault::ArgumentKind));
    };
    Ok(class)
}

/// Whether a class that is there is this one or under it. It takes no memory.
pub fn is_under<O: Objects>(objects: &O, class: Oid, ancestor: Oid) -> bool
    requires { IsThere class (O.seen objects.now) }
    ensures { Does (is_under class ancestor) (O.seen objects.now) (Ok result)
        (O.seen objects.now) }
{
    objects.sound();
    has_class(objects, CHAIN_LIMIT, class, ancestor)
}

/// Whether a value is an instance of this class or of one under it; E5 as for its class.
pub fn is_kind_of<O: Objects>(objects: &mut O, value: &Value, class: Oid) -> Result<bool, Stop>
    ensures { Does (is_kind_of value.now class) (O.seen objects.old) result
        (O.seen objects.new) }
{
    let own = own_class(objects, value)?;
    Ok(is_under(objects, own, class))
}

/// E5, unless the value is an instance of this class or of one under it.
pub fn check_kind<O: Objects>(objects: &mut O, value: &Value, class: Oid) -> Result<(), Stop>
    ensures { Does (check_kind value.now class) (O.seen objects.old) result
        (O.seen objects.new) }
{
    let is_one = is_kind_of(objects, value, class)?;
    check(Fault::ArgumentKind, is_one)
}

/// How many named slots the instances of a class have that is there. It takes no memory.
pub fn named_slots<O: Objects>(objects: &O, class: Oid) -> usize
    requires { IsThere class (O.seen objects.now) }
    ensures { Does (named_slots class) (O.seen objects.now) (Ok result) (O.seen objects.now) }
{
    objects.sound();
    count_names(objects, CHAIN_LIMIT, class)
}

/// The names of instance variables of a class that is there: its own first, then those of its
/// superclass and so on.
pub fn all_names<O: Objects>(alloc: Global, objects: &O, class: Oid) -> Result<Names, AllocError>
    requires { IsThere class (O.seen objects.now) }
    ensures { IfOk result (λ names. Does (all_names class) (O.seen objects.now) (Ok names)
        (O.seen objects.now)) }
{
    objects.sound();
    push_names(alloc, objects, CHAIN_LIMIT, class)
}
