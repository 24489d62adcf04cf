//! Rules without arguments that read their receivers, and say or list what these hold.
ghost use Rattle.std.specs.Prelude.{◌≡◌, true, Some, option_map, IfOk};
ghost use Rattle.object_programs.specs.Spelled.{is_spelled, is_oid};
ghost use Rattle.gem_object.specs.declared.body.Body.TheVariants as body;
ghost use Rattle.gem_object.specs.declared.value.Value.TheVariants.{Ref};
ghost use Rattle.prim_rules.specs.Receivers.{tells, lists};
ghost use Rattle.prim_rules.specs.Segments.{right_symbol};
ghost use Rattle.prim_parts.specs.Does.{Does};
ghost use Rattle.prim_shared.specs.Kinds.{HeldBy, held_in};
ghost use Rattle.prim_shared.specs.Told.{kind_told, said_by, kind_listed, listed_by, fits_array};

use crate::answers::{answer_array, refuse_array};
use crate::lists::{items_of, keys_of, symbols_of, waiting_in};
use crate::receivers::{ReceiverKind, read_receiver};
use gem_object::{Body, Oid, Right, Rights, Text, UserBody, Value, Values};
use object_programs::{Fault, SLOTS_LIMIT};
use prim_parts::no_arguments;
use prim_rules::PrimitiveAnswer;
use running_objects::{Objects, Stop};
use std::alloc::{AllocError, Global};

/// What is told of a receiver.
#[derive(Clone, Copy)]
pub enum Fact {
    /// The owner of a segment.
    Owner,
    /// The right of a segment's owner.
    OwnerRight,
    /// The right of the world in a segment.
    WorldRight,
    /// The name of a user.
    UserName,
    /// The default segment of a user.
    DefaultSegment,
    /// The value of a counter.
    Count,
}

/// What is listed of a receiver.
#[derive(Clone, Copy)]
pub enum Listing {
    /// The groups of a user.
    Groups,
    /// The items of a bag, each as often as it occurs.
    Items,
    /// The keys of a reduced-conflict dictionary.
    Keys,
    /// The items of a queue.
    Waiting,
}

fn kind_told(fact: Fact) -> ReceiverKind
    ensures { result ≡ kind_told fact }
{
    match fact {
        Fact::Owner | Fact::OwnerRight | Fact::WorldRight => ReceiverKind::Segment,
        Fact::UserName | Fact::DefaultSegment => ReceiverKind::User,
        Fact::Count => ReceiverKind::Counter,
    }
}

fn kind_listed(listing: Listing) -> ReceiverKind
    ensures { result ≡ kind_listed listing }
{
    match listing {
        Listing::Groups => ReceiverKind::User,
        Listing::Items => ReceiverKind::Bag,
        Listing::Keys => ReceiverKind::SharedDictionary,
        Listing::Waiting => ReceiverKind::Queue,
    }
}

// The symbol for a right.
fn right_symbol(alloc: Global, right: Right) -> Result<Value, AllocError>
    ensures { IfOk result (λ value. value ≡ right_symbol right) }
{
    let word: &[u8] = match right {
        Right::None => b"none",
        Right::Read => b"read",
        Right::Write => b"write",
    };
    Ok(Value::Sym(Text::copy_of(alloc, word)?))
}

// What is told of a segment.
fn told_of_segment(
    alloc: Global,
    fact: Fact,
    rights: &Rights<Text>,
) -> Result<Option<Value>, AllocError>
    requires { is_oid rights.now.owner ≡ true }
    ensures { IfOk result (λ told. told
        ≡ option_map (said_by fact) (held_in (kind_told fact) (body.Segment rights.now))) }
{
    match fact {
        Fact::Owner => Ok(owner_of(rights)),
        Fact::OwnerRight => Ok(Some(right_symbol(alloc, rights.owner_right)?)),
        Fact::WorldRight => Ok(Some(right_symbol(alloc, rights.world_right)?)),
        _ => Ok(None),
    }
}

// A reference to the owner of a segment.
fn owner_of(rights: &Rights<Text>) -> Option<Value>
    requires { is_oid rights.now.owner ≡ true }
    ensures { result ≡ Some (Ref rights.now.owner) }
{
    Some(Value::Ref(Oid::of(rights.owner)?))
}

// What is told of a user.
fn told_of_user(fact: Fact, user: &UserBody) -> Result<Option<Value>, AllocError>
    ensures { IfOk result (λ told. told
        ≡ option_map (said_by fact) (held_in (kind_told fact) (body.User user.now))) }
{
    match fact {
        Fact::UserName => Ok(Some(Value::Sym(user.name.clone()?))),
        Fact::DefaultSegment => Ok(Some(Value::Ref(user.default_segment))),
        _ => Ok(None),
    }
}

// What is told of a body, where it is of the kind of which the fact is told.
fn told_of(alloc: Global, fact: Fact, body: &Body) -> Result<Option<Value>, AllocError>
    requires { is_spelled body.now ≡ true }
    ensures { IfOk result (λ told. told
        ≡ option_map (said_by fact) (held_in (kind_told fact) body.now)) }
{
    match body {
        Body::Segment(rights) => told_of_segment(alloc, fact, rights),
        Body::User(user) => told_of_user(fact, user),
        Body::Counter(counter) => match fact {
            Fact::Count => Ok(Some(Value::Int(counter.value))),
            _ => Ok(None),
        },
        _ => Ok(None),
    }
}

/// 68, 72, 73, 74, 78 and 83: what is told of the receiver.
pub fn tell<O: Objects>(
    alloc: Global,
    objects: &mut O,
    fact: Fact,
    receiver: &Value,
    arguments: &[Value],
) -> Result<PrimitiveAnswer, Stop>
    ensures { Does (tells (held_in (kind_told fact)) (said_by fact) receiver.now arguments.now)
        (O.seen objects.old) result (O.seen objects.new) }
{
    let name = read_receiver(objects, kind_told(fact), receiver)?;
    no_arguments(arguments)?;
    objects.sound();
    let Some(object) = objects.object(name) else {
        return Err(Stop::Fails(Fault::ArgumentKind));
    };
    let Some(value) = told_of(alloc, fact, &object.body)? else {
        return Err(Stop::Fails(Fault::ArgumentKind));
    };
    Ok(PrimitiveAnswer::Gives(value))
}

// What is listed of a body, where it is of the kind that is listed.
fn listed_of(alloc: Global, listing: Listing, body: &Body) -> Result<Option<Values>, AllocError>
    ensures { IfOk result (λ listed. listed
        ≡ option_map (listed_by listing) (held_in (kind_listed listing) body.now)) }
{
    match listing {
        Listing::Groups => match body {
            Body::User(user) => Ok(Some(symbols_of(alloc, user.groups.as_slice())?)),
            _ => Ok(None),
        },
        Listing::Items => match body {
            Body::Bag(bag) => Ok(Some(items_of(alloc, bag.pairs())?)),
            _ => Ok(None),
        },
        Listing::Keys => match body {
            Body::RcDict(dictionary) => Ok(Some(keys_of(alloc, dictionary.pairs())?)),
            _ => Ok(None),
        },
        Listing::Waiting => match body {
            Body::Queue(queue) => Ok(Some(waiting_in(alloc, queue)?)),
            _ => Ok(None),
        },
    }
}

// Whether an Array has slots enough for what is listed of a body, which isn't listed for that: an
// item may occur more often than memory can hold.
fn fits_array(listing: Listing, body: &Body) -> bool
    ensures { (held : HeldBy (kind_listed listing))
        → held_in (kind_listed listing) body.now ≡ Some held
        → result ≡ fits_array (listed_by listing held) }
{
    let slots = body.slots();
    match listing {
        // A pair takes two slots.
        Listing::Keys => slots / 2 <= SLOTS_LIMIT,
        _ => slots <= SLOTS_LIMIT,
    }
}

/// 75, 88, 93 and 96: a new Array of what is listed of the receiver. E17 where that is too much.
pub fn list<O: Objects>(
    alloc: Global,
    objects: &mut O,
    listing: Listing,
    receiver: &Value,
    arguments: &[Value],
) -> Result<PrimitiveAnswer, Stop>
    ensures { Does (lists (held_in (kind_listed listing)) (listed_by listing) receiver.now
        arguments.now) (O.seen objects.old) result (O.seen objects.new) }
{
    let name = read_receiver(objects, kind_listed(listing), receiver)?;
    no_arguments(arguments)?;
    let Some(object) = objects.object(name) else {
        return Err(Stop::Fails(Fault::ArgumentKind));
    };
    if !fits_array(listing, &object.body) {
        return refuse_array(objects);
    }
    let Some(values) = listed_of(alloc, listing, &object.body)? else {
        return Err(Stop::Fails(Fault::ArgumentKind));
    };
    answer_array(alloc, objects, values)
}
