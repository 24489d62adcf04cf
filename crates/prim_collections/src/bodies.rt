//! What the body of an object holds that was read or written. Nothing here touches an object.
ghost use Rattle.object_programs.specs.Programs.{need};
ghost use Rattle.object_programs.specs.declared.fault.Fault.TheVariants as fault;
ghost use Rattle.prim_rules.specs.Parts.{slots_in, bytes_in, pairs_in};
ghost use Rattle.prim_parts.specs.Does.{IsThere, pointed};
ghost use Rattle.prim_collections.specs.Looks.{Looks};

use gem_object::{Body, Dictionary, Oid, Value};
use object_programs::Fault;
use running_objects::{Objects, Stop};

/// The slots of the object of this name; E5 where it has none of its own.
pub fn slots_at<O: Objects>(objects: &O, name: Oid) -> Result<&[Value], Stop>
    requires { IsThere name (O.seen objects.now) }
    ensures { Looks (λ object. need fault.ArgumentKind (slots_in object.body)) name
        (O.seen objects.now) (pointed result) }
{
    let Some(object) = objects.object(name) else {
        unreachable!()
    };
    match &object.body {
        Body::Plain(slots) => Ok(slots.as_slice()),
        _ => Err(Stop::Fails(Fault::ArgumentKind)),
    }
}

/// The bytes of the object of this name; E5 where it has none.
pub fn bytes_at<O: Objects>(objects: &O, name: Oid) -> Result<&[u8], Stop>
    requires { IsThere name (O.seen objects.now) }
    ensures { Looks (λ object. need fault.ArgumentKind (bytes_in object.body)) name
        (O.seen objects.now) (pointed result) }
{
    let Some(object) = objects.object(name) else {
        unreachable!()
    };
    match &object.body {
        Body::Bytes(bytes) => Ok(bytes.as_slice()),
        _ => Err(Stop::Fails(Fault::ArgumentKind)),
    }
}

/// The pairs of the object of this name; E5 where it is no dictionary.
pub fn pairs_at<O: Objects>(objects: &O, name: Oid) -> Result<&Dictionary, Stop>
    requires { IsThere name (O.seen objects.now) }
    ensures { Looks (λ object. need fault.ArgumentKind (pairs_in object.body)) name
        (O.seen objects.now) (pointed result) }
{
    let Some(object) = objects.object(name) else {
        unreachable!()
    };
    match &object.body {
        Body::Dict(pairs) => Ok(pairs),
        _ => Err(Stop::Fails(Fault::ArgumentKind)),
    }
}
