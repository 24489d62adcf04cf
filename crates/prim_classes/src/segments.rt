//! The primitives 8 and 9, `segment` and `assignToSegment:`.
ghost use Rattle.std.specs.Prelude.{◌≡◌, IfOk};
ghost use Rattle.gem_object.specs.declared.value.Value.TheVariants.{Ref};
ghost use Rattle.running_objects.specs.Seen.{object_at};
ghost use Rattle.object_programs.specs.Run.{and_then, give};
ghost use Rattle.prim_rules.specs.Any.{gives_write, segment_rule, segment_argument, check_segment, assign_object, assign_value, assign_rule, row_8, row_9};
ghost use Rattle.prim_parts.specs.Does.{Does};
ghost use Rattle.prim_classes.specs.Segments.{movable_by, may_move, rights_read, check_writer, moved};

use gem_image::groups_of;
use gem_object::{Body, Groups, Oid, Rights, Text, Value, may_write};
use gem_sound::names::{SEGMENT_CLASS, kernel_name};
use object_programs::Fault;
use prim_parts::{check, check_kind, no_arguments, one_of, reference_in};
use prim_rules::PrimitiveAnswer;
use running_objects::{Objects, Stop};
use std::alloc::AllocError;

// When an object may be put into another segment.
#[derive(Clone, Copy)]
enum Movable {
    Never,
    // only in the transaction that made it
    WhereMade,
    Always,
}

// The segment in which an object lies, which is read; nil for a value.
fn segment_of<O: Objects>(objects: &mut O, value: &Value) -> Result<Value, Stop>
    ensures { Does (segment_rule value.now) (O.seen objects.old) result (O.seen objects.new) }
{
    match value {
        Value::Ref(name) => segment_at(objects, *name),
        _ => Ok(Value::Nil),
    }
}

// The segment in which the object of this name lies, which is read.
fn segment_at<O: Objects>(objects: &mut O, name: Oid) -> Result<Value, Stop>
    ensures { Does (segment_rule (Ref name)) (O.seen objects.old) result (O.seen objects.new) }
{
    objects.read(name)?;
    let Some(object) = objects.object(name) else {
        unreachable!()
    };
    Ok(Value::Ref(object.segment))
}

/// 8, `segment`.
pub fn row_8<O: Objects>(
    objects: &mut O,
    receiver: &Value,
    arguments: &[Value],
) -> Result<PrimitiveAnswer, Stop>
    ensures { Does (row_8 receiver.now arguments.now) (O.seen objects.old) result
        (O.seen objects.new) }
{
    no_arguments(arguments)?;
    Ok(PrimitiveAnswer::Gives(segment_of(objects, receiver)?))
}

// The name of the Segment that an argument is; E5 where it is none. That is told without a touch.
fn segment_argument<O: Objects>(objects: &mut O, argument: &Value) -> Result<Oid, Stop>
    ensures { Does (segment_argument argument.now) (O.seen objects.old) result
        (O.seen objects.new) }
{
    let name = reference_in(argument)?;
    check_kind(objects, argument, kernel_name(SEGMENT_CLASS))?;
    Ok(name)
}

// Whether a segment of these rights gives the user of this name Write on the objects in it.
fn gives_write<O: Objects>(objects: &O, rights: &Rights<Text>, user: Oid) -> bool
    ensures { result ≡ gives_write rights.now user (object_at user (O.seen objects.now)) }
{
    let Some(profile) = objects.object(user) else {
        return false;
    };
    let Some(groups) = groups_of(&profile.body) else {
        return false;
    };
    may_write(rights.right_of(user.number(), groups))
}

// A copy of the rights that a segment gives, which is read.
fn rights_read<O: Objects>(objects: &mut O, name: Oid) -> Result<Rights<Text>, Stop>
    ensures { Does (rights_read name) (O.seen objects.old) result (O.seen objects.new) }
{
    objects.read(name)?;
    let Some(object) = objects.object(name) else {
        unreachable!()
    };
    let Body::Segment(rights) = &object.body else {
        return Err(Stop::Fails(Fault::ArgumentKind));
    };
    Ok(copy_of(rights)?)
}

// E11, unless a segment of these rights gives the user Write on the objects in it. The profile is
// touched.
fn check_writer<O: Objects>(objects: &mut O, name: Oid, rights: &Rights<Text>) -> Result<(), Stop>
    ensures { Does (check_writer name rights.now) (O.seen objects.old) result
        (O.seen objects.new) }
{
    let user = objects.user();
    objects.own()?;
    let may = gives_write(objects, rights, user);
    check(Fault::NoWriteRight(name), may)
}

// The segment is read, and E11 unless it gives the user Write on the objects in it.
fn check_segment<O: Objects>(objects: &mut O, name: Oid) -> Result<(), Stop>
    ensures { Does (check_segment name) (O.seen objects.old) result (O.seen objects.new) }
{
    let rights = rights_read(objects, name)?;
    check_writer(objects, name, &rights)
}

// Which objects of this body may be put into another segment.
fn movable_by(body: &Body) -> Movable
    ensures { result ≡ movable_by body.now }
{
    match body {
        Body::Segment(_) | Body::User(_) => Movable::Never,
        Body::Counter(_) | Body::Bag(_) | Body::RcDict(_) | Body::Queue(_) => Movable::WhereMade,
        Body::Plain(_) | Body::Bytes(_) | Body::Dict(_) | Body::Class(_) => Movable::Always,
    }
}

fn may_move(movable: Movable, made: bool) -> bool
    ensures { result ≡ may_move movable made }
{
    match movable {
        Movable::Never => false,
        Movable::WhereMade => made,
        Movable::Always => true,
    }
}

// An object that was written is put into another segment: E19 where it may not be.
fn move_object<O: Objects>(
    objects: &mut O,
    name: Oid,
    movable: Movable,
    segment: Oid,
) -> Result<(), Stop>
    ensures { Does (moved name movable segment) (O.seen objects.old) result
        (O.seen objects.new) }
{
    let made = objects.is_made(name);
    check(Fault::SegmentChange, may_move(movable, made))?;
    objects.move_to(name, segment)
}

// An object, which is written, is put into the segment that the argument names.
fn assign_object<O: Objects>(objects: &mut O, name: Oid, argument: &Value) -> Result<(), Stop>
    ensures { Does (assign_object name argument.now) (O.seen objects.old) result
        (O.seen objects.new) }
{
    objects.write(name)?;
    let Some(object) = objects.object(name) else {
        unreachable!()
    };
    let movable = movable_by(&object.body);
    let segment = segment_argument(objects, argument)?;
    check_segment(objects, segment)?;
    move_object(objects, name, movable, segment)
}

// A value lies in no segment: the argument alone is checked.
fn assign_value<O: Objects>(objects: &mut O, argument: &Value) -> Result<(), Stop>
    ensures { Does (assign_value argument.now) (O.seen objects.old) result (O.seen objects.new) }
{
    let segment = segment_argument(objects, argument)?;
    check_segment(objects, segment)
}

// The receiver is put into the segment that the argument names.
fn assign<O: Objects>(objects: &mut O, receiver: &Value, argument: &Value) -> Result<(), Stop>
    ensures { Does (assign_rule receiver.now argument.now) (O.seen objects.old) result
        (O.seen objects.new) }
{
    match receiver {
        Value::Ref(name) => assign_object(objects, *name, argument),
        _ => assign_value(objects, argument),
    }
}

/// 9, `assignToSegment:`, which answers the receiver.
pub fn row_9<O: Objects>(
    objects: &mut O,
    receiver: &Value,
    arguments: &[Value],
) -> Result<PrimitiveAnswer, Stop>
    ensures { Does (row_9 receiver.now arguments.now) (O.seen objects.old) result
        (O.seen objects.new) }
{
    let argument = one_of(arguments)?;
    Ok(PrimitiveAnswer::Gives(assigned(objects, receiver, argument)?))
}

// The receiver, after it is put into the segment that the argument names.
fn assigned<O: Objects>(objects: &mut O, receiver: &Value, argument: &Value) -> Result<Value, Stop>
    ensures { Does (and_then (assign_rule receiver.now argument.now) (λ done. give receiver.now))
        (O.seen objects.old) result (O.seen objects.new) }
{
    assign(objects, receiver, argument)?;
    Ok(receiver.clone()?)
}

// A copy of rights.
fn copy_of(rights: &Rights<Text>) -> Result<Rights<Text>, AllocError>
    ensures { IfOk result (λ copy. copy ≡ rights.now) }
{
    Ok(Rights {
        owner: rights.owner,
        owner_right: rights.owner_right,
        groups: copy_of_groups(&rights.groups)?,
        world_right: rights.world_right,
    })
}

fn copy_of_groups(groups: &Groups<Text>) -> Result<Groups<Text>, AllocError>
    ensures { IfOk result (λ copy. copy ≡ groups.now) }
{
    groups.clone()
}
