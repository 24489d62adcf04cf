//! The primitives 52 and 53, `new` and `new:`.
ghost use Rattle.std.specs.Prelude.{◌≡◌, ℕ, true, [], Some, replicate, option_map, IfOk, IfSome};
ghost use Rattle.gem_object.specs.declared.body.Body.TheVariants as body;
ghost use Rattle.object_programs.specs.Methods.{methods_fit};
ghost use Rattle.object_programs.specs.declared.fault.Fault.TheVariants as fault;
ghost use Rattle.object_programs.specs.Programs.{need};
ghost use Rattle.prim_rules.specs.New.{nil_slots, new_body, own_rights, new_segment, new_of_kind, new_rule, new_sized_rule, count_in, row_52, row_53};
ghost use Rattle.prim_rules.specs.Parts.{new_object};
ghost use Rattle.prim_parts.specs.Does.{Does, Computes, IsThere};
ghost use Rattle.prim_classes.specs.Creation.{sized_kind, body_of, may_fit, new_other, new_elements};

use gem_object::{
    Bag, Body, Counter, Groups, InsertionMap, KeyDict, Kind, Object, Oid, Queue, Right, Rights,
    Sequence, Text, Value,
};
use object_programs::{BYTES_LIMIT, Fault, SLOTS_LIMIT};
use prim_parts::{
    default_segment, int_in, named_slots, new_object, no_arguments, one_of, reference_in,
};
use prim_rules::PrimitiveAnswer;
use running_objects::{Objects, Stop};
use std::alloc::{AllocError, Global};

// What `new:` gives its argument's number of.
#[derive(Clone, Copy)]
enum SizedKind {
    // slots behind the named ones
    Slots,
    // bytes
    Bytes,
}

// So many slots, each nil.
fn nil_slots(alloc: Global, count: usize) -> Result<Body, AllocError>
    ensures { IfOk result (λ made. made ≡ nil_slots count) }
{
    let mut slots = Vec::new(alloc);
    let mut left = count;
    while left > 0 {
        slots.push(Value::Nil)?;
        left -= 1;
    }
    Ok(Body::Plain(Sequence::of(slots)))
}

fn no_items(alloc: Global) -> Option<Body>
    ensures { result ≡ Some (body.Bag []) }
{
    match Bag::of_pairs(Vec::new(alloc)) {
        Some(bag) => Some(Body::Bag(bag)),
        None => None,
    }
}

fn no_pairs(alloc: Global) -> Option<Body>
    ensures { result ≡ Some (body.RcDict []) }
{
    match KeyDict::of_pairs(Vec::new(alloc)) {
        Some(dict) => Some(Body::RcDict(dict)),
        None => None,
    }
}

// The body of a new object of a class of this kind, which has so many named slots; None where
// `new` makes no such object, and for segments.
fn new_body(alloc: Global, kind: Kind, named: usize) -> Result<Option<Body>, AllocError>
    ensures body { IfOk result
        (λ made. made ≡ option_map (λ body_of. body_of named) (new_body kind)) }
    ensures methods { IfOk result (λ made. IfSome made
        (λ new. (name : ℕ) → methods_fit name new ≡ true)) }
{
    Ok(match kind {
        Kind::None | Kind::Segment | Kind::User => None,
        Kind::Plain | Kind::Indexed => Some(nil_slots(alloc, named)?),
        Kind::Bytes => Some(Body::Bytes(Sequence::of(Vec::new(alloc)))),
        Kind::Dict => Some(Body::Dict(InsertionMap::new(alloc))),
        Kind::Counter => Some(Body::Counter(Counter { value: 0 })),
        Kind::Bag => no_items(alloc),
        Kind::RcDict => no_pairs(alloc),
        Kind::Queue => Some(Body::Queue(Queue::of_items(0, Vec::new(alloc)))),
    })
}

// The rights of a new segment: this user owns it and may write, and nobody else may read.
fn own_rights(alloc: Global, user: Oid) -> Rights<Text>
    ensures { result ≡ own_rights user }
{
    Rights {
        owner: user.number(),
        owner_right: Right::Write,
        groups: Groups::from(Vec::new(alloc)),
        world_right: Right::None,
    }
}

// A new segment, which lies in itself.
fn new_segment<O: Objects>(alloc: Global, objects: &mut O, class: Oid) -> Result<Value, Stop>
    ensures { Does (new_segment class) (O.seen objects.old) result (O.seen objects.new) }
{
    let user = objects.user();
    let Some(name) = objects.next_name() else {
        return Err(Stop::Fails(Fault::NamesUsedUp));
    };
    let object = Object {
        class,
        segment: name,
        changed: 0,
        body: Body::Segment(own_rights(alloc, user)),
    };
    let name = objects.make(vec![in alloc; object]?)?;
    Ok(Value::Ref(name))
}

// A new object of a class of this kind that isn't Segment's.
fn new_other<O: Objects>(
    alloc: Global,
    objects: &mut O,
    kind: Kind,
    class: Oid,
) -> Result<Value, Stop>
    requires { IsThere class (O.seen objects.old) }
    ensures { Does (new_other kind class) (O.seen objects.old) result (O.seen objects.new) }
{
    let named = named_slots(objects, class);
    let Some(body) = new_body(alloc, kind, named)? else {
        return Err(Stop::Fails(Fault::ArgumentKind));
    };
    new_object(alloc, objects, class, body)
}

// A new object of a class of this kind.
fn new_of_kind<O: Objects>(
    alloc: Global,
    objects: &mut O,
    kind: Kind,
    class: Oid,
) -> Result<Value, Stop>
    requires { IsThere class (O.seen objects.old) }
    ensures { Does (new_of_kind kind class) (O.seen objects.old) result (O.seen objects.new) }
{
    match kind {
        Kind::Segment => new_segment(alloc, objects, class),
        _ => new_other(alloc, objects, kind, class),
    }
}

// A new object of a class, which is read.
fn new_instance<O: Objects>(alloc: Global, objects: &mut O, class: Oid) -> Result<Value, Stop>
    ensures { Does (new_rule class) (O.seen objects.old) result (O.seen objects.new) }
{
    objects.read(class)?;
    let Some(object) = objects.object(class) else {
        unreachable!()
    };
    let Body::Class(found) = &object.body else {
        return Err(Stop::Fails(Fault::ArgumentKind));
    };
    let kind = found.kind;
    new_of_kind(alloc, objects, kind, class)
}

/// 52, `new`.
pub fn row_52<O: Objects>(
    alloc: Global,
    objects: &mut O,
    receiver: &Value,
    arguments: &[Value],
) -> Result<PrimitiveAnswer, Stop>
    ensures { Does (row_52 receiver.now arguments.now) (O.seen objects.old) result
        (O.seen objects.new) }
{
    let class = reference_in(receiver)?;
    no_arguments(arguments)?;
    Ok(PrimitiveAnswer::Gives(new_instance(alloc, objects, class)?))
}

// What `new:` gives its argument's number of; None where a class of this kind doesn't understand
// it.
fn sized_kind(kind: Kind) -> Option<SizedKind>
    ensures { result ≡ sized_kind kind }
{
    match kind {
        Kind::Indexed => Some(SizedKind::Slots),
        Kind::Bytes => Some(SizedKind::Bytes),
        _ => None,
    }
}

// A count that isn't negative; E4 where it is.
fn count_in(number: i64) -> Result<u64, Stop>
    ensures { Computes (need fault.Index (count_in number)) result }
{
    if number < 0 {
        return Err(Stop::Fails(Fault::Index));
    }
    Ok(number as u64)
}

// Whether an object of so many slots or bytes may be within the limits of objects.
fn may_fit(kind: SizedKind, named: usize, count: u64) -> bool
    ensures { result ≡ may_fit kind named count }
{
    match kind {
        SizedKind::Slots => (named as u64).saturating_add(count) <= SLOTS_LIMIT,
        SizedKind::Bytes => count <= BYTES_LIMIT,
    }
}

// A body of so many slots, of which each is nil, or bytes, of which each is 0.
fn body_of(alloc: Global, kind: SizedKind, named: usize, count: u64) -> Result<Body, AllocError>
    requires { may_fit kind named count ≡ true }
    ensures body { IfOk result (λ made. made ≡ body_of kind named count) }
    ensures methods { IfOk result (λ made. (name : ℕ) → methods_fit name made ≡ true) }
{
    match kind {
        SizedKind::Slots => nil_slots(alloc, named + count as usize),
        SizedKind::Bytes => zero_bytes(alloc, count as usize),
    }
}

fn zero_bytes(alloc: Global, count: usize) -> Result<Body, AllocError>
    ensures { IfOk result (λ made. made ≡ body.Bytes (replicate count 0)) }
{
    let bytes = vec![in alloc; 0u8; count]?;
    Ok(Body::Bytes(Sequence::of(bytes)))
}

// A new object of so many elements. One that is too large is refused before its slots are made.
fn sized_object<O: Objects>(
    alloc: Global,
    objects: &mut O,
    class: Oid,
    kind: SizedKind,
    named: usize,
    count: u64,
) -> Result<Value, Stop>
    ensures { Does (new_object class (body_of kind named count)) (O.seen objects.old) result
        (O.seen objects.new) }
{
    if !may_fit(kind, named, count) {
        default_segment(objects)?;
        return Err(Stop::Fails(Fault::ObjectTooLarge));
    }
    let body = body_of(alloc, kind, named, count)?;
    new_object(alloc, objects, class, body)
}

// A new object of so many elements as an argument says, of a class that is there.
fn new_elements<O: Objects>(
    alloc: Global,
    objects: &mut O,
    class: Oid,
    kind: SizedKind,
    argument: &Value,
) -> Result<Value, Stop>
    requires { IsThere class (O.seen objects.old) }
    ensures { Does (new_elements kind class argument.now) (O.seen objects.old) result
        (O.seen objects.new) }
{
    let number = int_in(argument)?;
    let count = count_in(number)?;
    let named = named_slots(objects, class);
    sized_object(alloc, objects, class, kind, named, count)
}

// A new object of so many elements, of a class, which is read.
fn new_sized<O: Objects>(
    alloc: Global,
    objects: &mut O,
    class: Oid,
    argument: &Value,
) -> Result<Value, Stop>
    ensures { Does (new_sized_rule class argument.now) (O.seen objects.old) result
        (O.seen objects.new) }
{
    objects.read(class)?;
    let Some(object) = objects.object(class) else {
        unreachable!()
    };
    let Body::Class(found) = &object.body else {
        return Err(Stop::Fails(Fault::ArgumentKind));
    };
    let Some(kind) = sized_kind(found.kind) else {
        return Err(Stop::Fails(Fault::ArgumentKind));
    };
    new_elements(alloc, objects, class, kind, argument)
}

/// 53, `new:`.
pub fn row_53<O: Objects>(
    alloc: Global,
    objects: &mut O,
    receiver: &Value,
    arguments: &[Value],
) -> Result<PrimitiveAnswer, Stop>
    ensures { Does (row_53 receiver.now arguments.now) (O.seen objects.old) result
        (O.seen objects.new) }
{
    let class = reference_in(receiver)?;
    let argument = one_of(arguments)?;
    Ok(PrimitiveAnswer::Gives(new_sized(alloc, objects, class, argument)?))
}
