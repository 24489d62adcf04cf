//! Bodies at the front of bytes.
ghost use Rattle.std.specs.Prelude.{◌≡◌, ◌<◌, ◌^◌};
ghost use Rattle.body_codec.specs.Reading.{Gives, made, bytes_at, integer_at, value_at, long_at};
ghost use Rattle.body_codec.specs.ReadingBodies.{superclass_of, class_at, segment_at, user_at, queue_at, counter_of, occurrences_at, sorted_pair_at, pair_at, fields_at, body_at};

use crate::fault::{BodyRule, ReadError, breaks};
use crate::read::{name_of, read_byte, read_bytes, read_integer, read_name, read_text, read_u64};
use crate::read_items::{read_long, read_short};
use crate::read_lists::{
    AnyText, AnyValue, Grant, GroupName, MethodInOrder, Occurrences, SortedPair, read_dictionary,
    read_kind, read_right,
};
use gem_object::{
    Bag, Body, ClassBody, Counter, Groups, KeyDict, Oid, Queue, Rights, Sequence, Text, UserBody,
    Value,
};
use std::alloc::Global;

// The superclass of this number: none where it is 0.
fn superclass_of(number: u64) -> Option<Oid>
    requires { number < 2 ^ 48 }
    ensures { result ≡ superclass_of number }
{
    if number == 0 {
        None
    } else {
        Some(name_of(number))
    }
}

#[tactic(auto, unfolding(crate::specs::ReadingBodies::class_at, crate::specs::Reading::both_at))]
fn read_class(alloc: Global, bytes: &[u8]) -> Result<(ClassBody, &[u8]), ReadError>
    ensures { Gives (λ x. (x.0, x.1.now)) result (class_at bytes.now) }
{
    let (name, rest) = read_text(alloc, bytes)?;
    let (superclass, rest) = read_name(rest)?;
    let (kind, rest) = read_kind(rest)?;
    let (names, rest) = read_short(&AnyText, alloc, rest)?;
    let (methods, rest) = read_short(&MethodInOrder, alloc, rest)?;
    let (class_methods, rest) = read_short(&MethodInOrder, alloc, rest)?;
    let class = ClassBody {
        name,
        superclass: superclass_of(superclass),
        kind,
        names: Sequence::of(names),
        methods: Sequence::of(methods),
        class_methods: Sequence::of(class_methods),
    };
    Ok((class, rest))
}

#[tactic(auto, unfolding(crate::specs::ReadingBodies::segment_at, crate::specs::Reading::both_at))]
fn read_segment(alloc: Global, bytes: &[u8]) -> Result<(Rights<Text>, &[u8]), ReadError>
    ensures { Gives (λ x. (x.0, x.1.now)) result (segment_at bytes.now) }
{
    let (owner, rest) = read_name(bytes)?;
    let (owner_right, rest) = read_right(rest)?;
    let (groups, rest) = read_short(&Grant, alloc, rest)?;
    let (world_right, rest) = read_right(rest)?;
    let rights = Rights {
        owner,
        owner_right,
        groups: Groups::from(groups),
        world_right,
    };
    Ok((rights, rest))
}

#[tactic(auto, unfolding(crate::specs::ReadingBodies::user_at, crate::specs::Reading::both_at))]
fn read_user(alloc: Global, bytes: &[u8]) -> Result<(UserBody, &[u8]), ReadError>
    ensures { Gives (λ x. (x.0, x.1.now)) result (user_at bytes.now) }
{
    let (name, rest) = read_text(alloc, bytes)?;
    let (groups, rest) = read_short(&GroupName, alloc, rest)?;
    let (default_segment, rest) = read_name(rest)?;
    let (globals, rest) = read_name(rest)?;
    let user = UserBody {
        name,
        groups: Sequence::of(groups),
        default_segment: name_of(default_segment),
        globals: name_of(globals),
    };
    Ok((user, rest))
}

#[tactic(auto, unfolding(crate::specs::ReadingBodies::queue_at, crate::specs::Reading::both_at))]
fn read_queue(alloc: Global, bytes: &[u8]) -> Result<(Queue<Value>, &[u8]), ReadError>
    ensures { Gives (λ x. (x.0, x.1.now)) result (queue_at bytes.now) }
{
    let (removed, rest) = read_u64(bytes)?;
    let (items, rest) = read_long(&AnyValue, alloc, rest)?;
    Ok((Queue::of_items(removed, items), rest))
}

fn read_plain_body(alloc: Global, bytes: &[u8]) -> Result<(Body, &[u8]), ReadError>
    ensures { Gives (λ x. (x.0, x.1.now)) result
        (made Body.Plain (long_at (λ _. value_at) bytes.now)) }
{
    let (values, rest) = read_long(&AnyValue, alloc, bytes)?;
    Ok((Body::Plain(Sequence::of(values)), rest))
}

fn read_bytes_body(alloc: Global, bytes: &[u8]) -> Result<(Body, &[u8]), ReadError>
    ensures { Gives (λ x. (x.0, x.1.now)) result (made Body.Bytes (bytes_at bytes.now)) }
{
    let (text, rest) = read_bytes(alloc, bytes)?;
    Ok((Body::Bytes(Sequence::of(text)), rest))
}

fn read_dict_body(alloc: Global, bytes: &[u8]) -> Result<(Body, &[u8]), ReadError>
    ensures { Gives (λ x. (x.0, x.1.now)) result (made Body.Dict (long_at pair_at bytes.now)) }
{
    let (pairs, rest) = read_dictionary(alloc, bytes)?;
    Ok((Body::Dict(pairs), rest))
}

fn read_class_body(alloc: Global, bytes: &[u8]) -> Result<(Body, &[u8]), ReadError>
    ensures { Gives (λ x. (x.0, x.1.now)) result (made Body.Class (class_at bytes.now)) }
{
    let (class, rest) = read_class(alloc, bytes)?;
    Ok((Body::Class(class), rest))
}

fn read_segment_body(alloc: Global, bytes: &[u8]) -> Result<(Body, &[u8]), ReadError>
    ensures { Gives (λ x. (x.0, x.1.now)) result (made Body.Segment (segment_at bytes.now)) }
{
    let (rights, rest) = read_segment(alloc, bytes)?;
    Ok((Body::Segment(rights), rest))
}

fn read_user_body(alloc: Global, bytes: &[u8]) -> Result<(Body, &[u8]), ReadError>
    ensures { Gives (λ x. (x.0, x.1.now)) result (made Body.User (user_at bytes.now)) }
{
    let (user, rest) = read_user(alloc, bytes)?;
    Ok((Body::User(user), rest))
}

fn read_counter_body(bytes: &[u8]) -> Result<(Body, &[u8]), ReadError>
    ensures { Gives (λ x. (x.0, x.1.now)) result
        (made (λ value. Body.Counter (counter_of value)) (integer_at bytes.now)) }
{
    let (value, rest) = read_integer(bytes)?;
    Ok((Body::Counter(Counter { value }), rest))
}

fn read_bag_body(alloc: Global, bytes: &[u8]) -> Result<(Body, &[u8]), ReadError>
    ensures { Gives (λ x. (x.0, x.1.now)) result
        (made Body.Bag (long_at occurrences_at bytes.now)) }
{
    let (pairs, rest) = read_long(&Occurrences, alloc, bytes)?;
    let Some(bag) = Bag::of_pairs(pairs) else {
        unreachable!()
    };
    Ok((Body::Bag(bag), rest))
}

fn read_key_dict_body(alloc: Global, bytes: &[u8]) -> Result<(Body, &[u8]), ReadError>
    ensures { Gives (λ x. (x.0, x.1.now)) result
        (made Body.RcDict (long_at sorted_pair_at bytes.now)) }
{
    let (pairs, rest) = read_long(&SortedPair, alloc, bytes)?;
    let Some(dict) = KeyDict::of_pairs(pairs) else {
        unreachable!()
    };
    Ok((Body::RcDict(dict), rest))
}

fn read_queue_body(alloc: Global, bytes: &[u8]) -> Result<(Body, &[u8]), ReadError>
    ensures { Gives (λ x. (x.0, x.1.now)) result (made Body.Queue (queue_at bytes.now)) }
{
    let (queue, rest) = read_queue(alloc, bytes)?;
    Ok((Body::Queue(queue), rest))
}

// The body of this tag, whose fields are at the front of the rest of the bytes.
#[tactic(auto, unfolding(crate::specs::ReadingBodies::fields_at))]
fn read_fields<'a>(
    alloc: Global,
    tag: u8,
    bytes: &'a [u8],
    rest: &'a [u8],
) -> Result<(Body, &'a [u8]), ReadError>
    ensures { Gives (λ x. (x.0, x.1.now)) result (fields_at tag bytes.now rest.now) }
{
    match tag {
        0 => read_plain_body(alloc, rest),
        1 => read_bytes_body(alloc, rest),
        2 => read_dict_body(alloc, rest),
        3 => read_class_body(alloc, rest),
        4 => read_segment_body(alloc, rest),
        5 => read_user_body(alloc, rest),
        6 => read_counter_body(rest),
        7 => read_bag_body(alloc, rest),
        8 => read_key_dict_body(alloc, rest),
        9 => read_queue_body(alloc, rest),
        _ => Err(breaks(bytes, BodyRule::Kind)),
    }
}

#[tactic(auto, unfolding(crate::specs::ReadingBodies::body_at))]
pub(crate) fn read_body(alloc: Global, bytes: &[u8]) -> Result<(Body, &[u8]), ReadError>
    ensures { Gives (λ x. (x.0, x.1.now)) result (body_at bytes.now) }
{
    let (tag, rest) = read_byte(bytes)?;
    read_fields(alloc, tag, bytes, rest)
}
