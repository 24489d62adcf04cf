//! The primitives 76, 77 and 80, of the groups of users and of the user's own profile.
ghost use Rattle.std.specs.Prelude.{◌≡◌, bytes_eq, IfOk};
ghost use Rattle.object_programs.specs.Programs.{check};
ghost use Rattle.object_programs.specs.Run.{and_then};
ghost use Rattle.std.specs.List.{list_any};
ghost use Rattle.object_programs.specs.declared.fault.Fault.TheVariants as fault;
ghost use Rattle.prim_rules.specs.Parts.{symbol_in, user_in};
ghost use Rattle.prim_rules.specs.Groups.{with_group, without_group};
ghost use Rattle.prim_rules.specs.Receivers.{argument_as};
ghost use Rattle.prim_rules.specs.Users.{in_groups, placed_in, row_76, row_77, row_80};
ghost use Rattle.prim_parts.specs.Does.{Does, Computes, pointed};
ghost use Rattle.prim_shared.specs.Held.{GoesOn};

use crate::answers::answer_replaced;
use crate::bodies::user_of;
use crate::groups::{are_few, is_among, items_added, with_group, without_group};
use crate::receivers::{ReceiverKind, write_receiver};
use gem_object::{Body, Oid, Sequence, Text, UserBody, Value};
use object_programs::Fault;
use prim_parts::{check, no_arguments, one_of, reference_in, symbol_in};
use prim_rules::PrimitiveAnswer;
use running_objects::{Objects, Stop};
use std::alloc::{AllocError, Global};

// The text of the symbol that the one argument is; E5 where it is none.
fn symbol_argument(arguments: &[Value]) -> Result<&Text, Stop>
    ensures { Computes (argument_as symbol_in arguments.now) (pointed result) }
{
    symbol_in(one_of(arguments)?)
}

// The user in these groups.
fn in_groups(groups: Vec<Text>, user: &UserBody) -> Result<UserBody, AllocError>
    ensures { IfOk result (λ made. made ≡ in_groups groups.items user.now) }
{
    Ok(UserBody {
        name: user.name.clone()?,
        groups: Sequence::of(groups),
        default_segment: user.default_segment,
        globals: user.globals,
    })
}

/// 76, `addGroup:`: the receiver, which is in the group from now on. E17 where it is in too many.
pub fn row_76<O: Objects>(
    alloc: Global,
    objects: &mut O,
    receiver: &Value,
    arguments: &[Value],
) -> Result<PrimitiveAnswer, Stop>
    ensures { Does (row_76 receiver.now arguments.now) (O.seen objects.old) result
        (O.seen objects.new) }
{
    let name = write_receiver(objects, ReceiverKind::User, receiver)?;
    let group = symbol_argument(arguments)?;
    add_group(alloc, objects, name, group, receiver)
}

// The user of this name, which was written, comes into a group, and the value is the answer.
fn add_group<O: Objects>(
    alloc: Global,
    objects: &mut O,
    name: Oid,
    group: &Text,
    value: &Value,
) -> Result<PrimitiveAnswer, Stop>
    ensures { GoesOn user_in (λ user. placed_in user (with_group group.now user.held.groups)
        value.now) name (O.seen objects.old) result (O.seen objects.new) }
{
    let Some(user) = user_of(objects, name) else {
        return Err(Stop::Fails(Fault::ArgumentKind));
    };
    let groups = with_group(alloc, group, user.groups.as_slice())?;
    place(objects, name, groups, value)
}

/// 77, `removeGroup:`: the receiver, which is no more in the group. E18 where it wasn't.
pub fn row_77<O: Objects>(
    alloc: Global,
    objects: &mut O,
    receiver: &Value,
    arguments: &[Value],
) -> Result<PrimitiveAnswer, Stop>
    ensures { Does (row_77 receiver.now arguments.now) (O.seen objects.old) result
        (O.seen objects.new) }
{
    let name = write_receiver(objects, ReceiverKind::User, receiver)?;
    let group = symbol_argument(arguments)?;
    remove_group(alloc, objects, name, group, receiver)
}

// The user of this name, which was written, leaves a group, and the value is the answer.
fn remove_group<O: Objects>(
    alloc: Global,
    objects: &mut O,
    name: Oid,
    group: &Text,
    value: &Value,
) -> Result<PrimitiveAnswer, Stop>
    ensures { GoesOn user_in (λ user.
        and_then (check fault.KeyAbsent (list_any (bytes_eq group.now) user.held.groups))
        (λ there. placed_in user (without_group group.now user.held.groups) value.now)) name
        (O.seen objects.old) result (O.seen objects.new) }
{
    let Some(user) = user_of(objects, name) else {
        return Err(Stop::Fails(Fault::ArgumentKind));
    };
    let before = user.groups.as_slice();
    check(Fault::KeyAbsent, is_among(group, before))?;
    let groups = without_group(alloc, group, before)?;
    place(objects, name, groups, value)
}

// The user of this name, which was written, is in these groups from now on, and the value is the
// answer.
fn place<O: Objects>(
    objects: &mut O,
    name: Oid,
    groups: Vec<Text>,
    value: &Value,
) -> Result<PrimitiveAnswer, Stop>
    ensures { GoesOn user_in (λ user. placed_in user groups.items value.now) name
        (O.seen objects.old) result (O.seen objects.new) }
{
    let Some(user) = user_of(objects, name) else {
        return Err(Stop::Fails(Fault::ArgumentKind));
    };
    let after = groups.len();
    check(Fault::ObjectTooLarge, are_few(after))?;
    let growth = items_added(after, user.groups.len());
    let made = in_groups(groups, user)?;
    answer_replaced(objects, name, Body::User(made), growth, value)
}

/// 80, `myUserProfile`: the profile of the user.
pub fn row_80<O: Objects>(
    objects: &mut O,
    receiver: &Value,
    arguments: &[Value],
) -> Result<PrimitiveAnswer, Stop>
    ensures { Does (row_80 receiver.now arguments.now) (O.seen objects.old) result
        (O.seen objects.new) }
{
    reference_in(receiver)?;
    no_arguments(arguments)?;
    Ok(PrimitiveAnswer::Gives(Value::Ref(objects.user())))
}
