//! The primitives 69 to 71, which change the rights that a segment gives.
ghost use Rattle.std.specs.Prelude.{◌≡◌, length, IfOk};
ghost use Rattle.gem_object.specs.declared.body.Body.TheVariants as body;
ghost use Rattle.object_programs.specs.Programs.{need};
ghost use Rattle.object_programs.specs.declared.fault.Fault.TheVariants as fault;
ghost use Rattle.prim_rules.specs.Parts.{segment_in};
ghost use Rattle.prim_rules.specs.Receivers.{argument_as, replaced_by};
ghost use Rattle.prim_rules.specs.Segments.{right_in, right_of_word, with_group_right, regrouped, sets_right, row_71};
ghost use Rattle.prim_parts.specs.Does.{Does, Computes};
ghost use Rattle.prim_shared.specs.Held.{GoesOn};
ghost use Rattle.prim_shared.specs.Rights.{with_right_of};

use crate::answers::answer_replaced;
use crate::bodies::rights_of;
use crate::groups::{are_few, items_added, same_entries, with_right};
use crate::receivers::{ReceiverKind, write_receiver};
use gem_object::{Body, Groups, Oid, Right, Rights, Text, Value};
use object_programs::Fault;
use prim_parts::{check, one_of, symbol_in, two_of};
use prim_rules::PrimitiveAnswer;
use running_objects::{Objects, Stop};
use std::alloc::{AllocError, Global};

/// Who has a right in a segment that isn't a group's.
#[derive(Clone, Copy)]
pub enum Holder {
    /// Its owner.
    Owner,
    /// Every user.
    World,
}

// The right that a value is; E5 where it is none.
fn right_in(value: &Value) -> Result<Right, Stop>
    ensures { Computes (need fault.ArgumentKind (right_in value.now)) result }
{
    match value {
        Value::Sym(word) => right_of_word(word),
        _ => Err(Stop::Fails(Fault::ArgumentKind)),
    }
}

// The right for which a word stands; E5 where it stands for none.
fn right_of_word(word: &Text) -> Result<Right, Stop>
    ensures { Computes (need fault.ArgumentKind (right_of_word word.now)) result }
{
    if word.bytes() == b"none".as_slice() {
        return Ok(Right::None);
    }
    if word.bytes() == b"read".as_slice() {
        return Ok(Right::Read);
    }
    if word.bytes() == b"write".as_slice() {
        return Ok(Right::Write);
    }
    Err(Stop::Fails(Fault::ArgumentKind))
}

// The right that the one argument is; E5 where it is none.
fn right_argument(arguments: &[Value]) -> Result<Right, Stop>
    ensures { Computes (argument_as right_in arguments.now) result }
{
    right_in(one_of(arguments)?)
}

// The rights with another one of the owner or of the world.
fn with_right_of(
    alloc: Global,
    holder: Holder,
    right: Right,
    rights: &Rights<Text>,
) -> Result<Rights<Text>, AllocError>
    ensures { IfOk result (λ made. made ≡ with_right_of holder right rights.now) }
{
    let groups = Groups::from(same_entries(alloc, rights.groups.as_slice())?);
    Ok(match holder {
        Holder::Owner => Rights {
            owner: rights.owner,
            owner_right: right,
            groups,
            world_right: rights.world_right,
        },
        Holder::World => Rights {
            owner: rights.owner,
            owner_right: rights.owner_right,
            groups,
            world_right: right,
        },
    })
}

// The rights with another one of a group.
fn with_group_right(
    alloc: Global,
    group: &Text,
    right: Right,
    rights: &Rights<Text>,
) -> Result<Rights<Text>, AllocError>
    ensures { IfOk result (λ made. made ≡ with_group_right group.now right rights.now) }
{
    Ok(Rights {
        owner: rights.owner,
        owner_right: rights.owner_right,
        groups: Groups::from(with_right(alloc, group, right, rights.groups.as_slice())?),
        world_right: rights.world_right,
    })
}

/// 69 and 70: the owner or the world gets a right; the receiver.
pub fn set_right<O: Objects>(
    alloc: Global,
    objects: &mut O,
    holder: Holder,
    receiver: &Value,
    arguments: &[Value],
) -> Result<PrimitiveAnswer, Stop>
    ensures { Does (sets_right (with_right_of holder) receiver.now arguments.now)
        (O.seen objects.old) result (O.seen objects.new) }
{
    let name = write_receiver(objects, ReceiverKind::Segment, receiver)?;
    let right = right_argument(arguments)?;
    replace_right(alloc, objects, name, holder, right, receiver)
}

// The segment of this name, which was written, gives the right, and the value is the answer.
fn replace_right<O: Objects>(
    alloc: Global,
    objects: &mut O,
    name: Oid,
    holder: Holder,
    right: Right,
    value: &Value,
) -> Result<PrimitiveAnswer, Stop>
    ensures { GoesOn segment_in (λ segment. replaced_by segment
        (body.Segment (with_right_of holder right segment.held)) 0 value.now) name
        (O.seen objects.old) result (O.seen objects.new) }
{
    let Some(rights) = rights_of(objects, name) else {
        return Err(Stop::Fails(Fault::ArgumentKind));
    };
    let made = with_right_of(alloc, holder, right, rights)?;
    answer_replaced(objects, name, Body::Segment(made), 0, value)
}

/// 71, `group:authorization:`: the group gets the right; the receiver. E17 where the segment has
/// too many groups.
pub fn row_71<O: Objects>(
    alloc: Global,
    objects: &mut O,
    receiver: &Value,
    arguments: &[Value],
) -> Result<PrimitiveAnswer, Stop>
    ensures { Does (row_71 receiver.now arguments.now) (O.seen objects.old) result
        (O.seen objects.new) }
{
    let name = write_receiver(objects, ReceiverKind::Segment, receiver)?;
    let pair = two_of(arguments)?;
    let group = symbol_in(pair.0)?;
    let right = right_in(pair.1)?;
    regroup(alloc, objects, name, group, right, receiver)
}

// The group gets the right in the segment of this name, which was written, and the value is the
// answer.
fn regroup<O: Objects>(
    alloc: Global,
    objects: &mut O,
    name: Oid,
    group: &Text,
    right: Right,
    value: &Value,
) -> Result<PrimitiveAnswer, Stop>
    ensures { GoesOn segment_in (λ segment. regrouped segment
        (with_group_right group.now right segment.held) value.now) name (O.seen objects.old)
        result (O.seen objects.new) }
{
    let Some(rights) = rights_of(objects, name) else {
        return Err(Stop::Fails(Fault::ArgumentKind));
    };
    let made = with_group_right(alloc, group, right, rights)?;
    replace_rights(objects, name, made, value)
}

// How many groups a segment names.
fn group_count(rights: &Rights<Text>) -> usize
    ensures { result ≡ length rights.now.groups }
{
    rights.groups.as_slice().len()
}

// The segment of this name, which was written, gives these rights, and the value is the answer.
fn replace_rights<O: Objects>(
    objects: &mut O,
    name: Oid,
    made: Rights<Text>,
    value: &Value,
) -> Result<PrimitiveAnswer, Stop>
    ensures { GoesOn segment_in (λ segment. regrouped segment made value.now) name
        (O.seen objects.old) result (O.seen objects.new) }
{
    let Some(rights) = rights_of(objects, name) else {
        return Err(Stop::Fails(Fault::ArgumentKind));
    };
    let after = group_count(&made);
    check(Fault::ObjectTooLarge, are_few(after))?;
    let growth = items_added(after, group_count(rights));
    answer_replaced(objects, name, Body::Segment(made), growth, value)
}
