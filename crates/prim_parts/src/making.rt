//! New objects of primitives.
ghost use Rattle.std.specs.Prelude.{◌≡◌, ℕ, true};
ghost use Rattle.object_programs.specs.Methods.{methods_fit};
ghost use Rattle.prim_rules.specs.Parts.{default_segment, new_object_in, new_object};
ghost use Rattle.prim_rules.specs.Texts.{new_string};
ghost use Rattle.object_programs.specs.Programs.{need};
ghost use Rattle.object_programs.specs.Run.{give, and_then};
ghost use Rattle.object_programs.specs.declared.fault.Fault.TheVariants as fault;
ghost use Rattle.prim_rules.specs.Parts.{user_in};
ghost use Rattle.prim_parts.specs.Does.{Does, Computes};

use gem_object::{Body, Object, Oid, Sequence, Text, Value};
use gem_sound::names::{STRING_CLASS, kernel_name};
use object_programs::Fault;
use running_objects::{Objects, Stop};
use std::alloc::Global;

/// The segment in which the user's new objects lie: the profile is read, E10 where the user may
/// not.
pub fn default_segment<O: Objects>(objects: &mut O) -> Result<Oid, Stop>
    ensures { Does default_segment (O.seen objects.old) result (O.seen objects.new) }
{
    let user = objects.user();
    objects.read(user)?;
    let Some(profile) = objects.object(user) else {
        unreachable!()
    };
    segment_in(user, &profile.body)
}

// The default segment that a profile names.
fn segment_in(user: Oid, body: &Body) -> Result<Oid, Stop>
    ensures { Computes (and_then (need (fault.NoReadRight user) (user_in body.now))
        (λ found. give found.default_segment)) result }
{
    match body {
        Body::User(found) => Ok(found.default_segment),
        _ => Err(Stop::Fails(Fault::NoReadRight(user))),
    }
}

/// A new object of this class and body in a segment; a reference to it. E17 where it is too large,
/// E16 where no name is left, E15 where there is too little space.
pub fn new_object_in<O: Objects>(
    alloc: Global,
    objects: &mut O,
    segment: Oid,
    class: Oid,
    body: Body,
) -> Result<Value, Stop>
    requires { (name : ℕ) → methods_fit name body ≡ true }
    ensures { Does (new_object_in segment class body) (O.seen objects.old) result
        (O.seen objects.new) }
{
    let object = Object {
        class,
        segment,
        changed: 0,
        body,
    };
    let name = objects.make(vec![in alloc; object]?)?;
    Ok(Value::Ref(name))
}

/// The same in the user's default segment, for which the profile is read first.
pub fn new_object<O: Objects>(
    alloc: Global,
    objects: &mut O,
    class: Oid,
    body: Body,
) -> Result<Value, Stop>
    requires { (name : ℕ) → methods_fit name body ≡ true }
    ensures { Does (new_object class body) (O.seen objects.old) result (O.seen objects.new) }
{
    let segment = default_segment(objects)?;
    new_object_in(alloc, objects, segment, class, body)
}

/// A new String of this text in the user's default segment.
pub fn new_string<O: Objects>(alloc: Global, objects: &mut O, text: Text) -> Result<Value, Stop>
    ensures { Does (new_string text) (O.seen objects.old) result (O.seen objects.new) }
{
    let bytes = Sequence::of(text.bytes().to_vec(alloc)?);
    new_object(
        alloc,
        objects,
        kernel_name(STRING_CLASS),
        Body::Bytes(bytes),
    )
}
