//! What bodies and effects hold more than one of.
ghost use Rattle.std.specs.Prelude.{◌≡◌, ℕ, List, [], Result, option_map, option_copied, is_some};
ghost use Rattle.std.specs.Ordering.{nat_cmp};
ghost use Rattle.gem_object.specs.Order.{value_order};
ghost use Rattle.body_codec.specs.Reading.{made, Gives, above_at, byte_at, bytes_at, text_at, value_at, key_at, items_after, long_at};
ghost use Rattle.body_codec.specs.ReadingBodies.{text_order, code_at, grant_at, group_at, method_at, occurrences_at, sorted_pair_at, new_key_at, pair_at, right_at, given_right_at, kind_of, kind_at};

use crate::fault::{BodyRule, ReadError, breaks};
use crate::read::{
    read_byte, read_bytes, read_key, read_name, read_text, read_times, read_u32, read_value,
};
use crate::read_items::{ItemReader, is_above};
use gem_object::{Dictionary, Kind, Method, MethodCode, Oid, Right, Text, Value};
use std::alloc::Global;

// The values of a body.
#[derive(Drop)]
pub(crate) struct AnyValue;

// The names of a class's instance variables.
#[derive(Drop)]
pub(crate) struct AnyText;

// The groups of a user.
#[derive(Drop)]
pub(crate) struct GroupName;

// The groups of a segment, each with its right.
#[derive(Drop)]
pub(crate) struct Grant;

// The methods of a class.
#[derive(Drop)]
pub(crate) struct MethodInOrder;

// The items of a bag.
#[derive(Drop)]
pub(crate) struct Occurrences;

// The pairs of a dictionary whose updates are merged.
#[derive(Drop)]
pub(crate) struct SortedPair;

impl ItemReader for AnyValue {
    type Item = Value;

    ghost item_at = { λ _ _. value_at };

    fn read<'a>(
        &self,
        alloc: Global,
        _before: &[Value],
        bytes: &'a [u8],
    ) -> Result<(Value, &'a [u8]), ReadError> {
        read_value(alloc, bytes)
    }
}

impl ItemReader for AnyText {
    type Item = Text;

    ghost item_at = { λ _ _. text_at };

    fn read<'a>(
        &self,
        alloc: Global,
        _before: &[Text],
        bytes: &'a [u8],
    ) -> Result<(Text, &'a [u8]), ReadError> {
        read_text(alloc, bytes)
    }
}

impl ItemReader for GroupName {
    type Item = Text;

    ghost item_at = { λ _. group_at };

    fn read<'a>(
        &self,
        alloc: Global,
        before: &[Text],
        bytes: &'a [u8],
    ) -> Result<(Text, &'a [u8]), ReadError> {
        read_text_above(alloc, before.last(), bytes)
    }
}

// A text that has to be above the one before it.
#[tactic(auto, unfolding(crate::specs::Reading::above_at))]
fn read_text_above<'a>(
    alloc: Global,
    last: Option<&Text>,
    bytes: &'a [u8],
) -> Result<(Text, &'a [u8]), ReadError>
    ensures { Gives (λ x. (x.0, x.1.now)) result
        (above_at text_order (option_copied last.entry) text_at bytes.now) }
{
    let (text, rest) = read_text(alloc, bytes)?;
    if is_above(last, &text) {
        Ok((text, rest))
    } else {
        Err(breaks(bytes, BodyRule::Order))
    }
}

#[tactic(auto, unfolding(crate::specs::Reading::coded_at))]
pub(crate) fn read_right(bytes: &[u8]) -> Result<(Right, &[u8]), ReadError>
    ensures { Gives (λ x. (x.0, x.1.now)) result (right_at bytes.now) }
{
    let (number, rest) = read_byte(bytes)?;
    match number {
        0 => Ok((Right::None, rest)),
        1 => Ok((Right::Read, rest)),
        2 => Ok((Right::Write, rest)),
        _ => Err(breaks(bytes, BodyRule::Range)),
    }
}

// The right of a group, which isn't none.
#[tactic(auto, unfolding(crate::specs::Reading::coded_at))]
fn read_given_right(bytes: &[u8]) -> Result<(Right, &[u8]), ReadError>
    ensures { Gives (λ x. (x.0, x.1.now)) result (given_right_at bytes.now) }
{
    let (number, rest) = read_byte(bytes)?;
    match number {
        1 => Ok((Right::Read, rest)),
        2 => Ok((Right::Write, rest)),
        _ => Err(breaks(bytes, BodyRule::Range)),
    }
}

#[tactic(auto, unfolding(crate::specs::Reading::coded_at))]
pub(crate) fn read_kind(bytes: &[u8]) -> Result<(Kind, &[u8]), ReadError>
    ensures { Gives (λ x. (x.0, x.1.now)) result (kind_at bytes.now) }
{
    let (number, rest) = read_byte(bytes)?;
    match kind_of(number) {
        Some(kind) => Ok((kind, rest)),
        None => Err(breaks(bytes, BodyRule::Kind)),
    }
}

// The kind of this number.
fn kind_of(number: u8) -> Option<Kind>
    ensures { result ≡ kind_of number }
{
    Some(match number {
        0 => Kind::None,
        1 => Kind::Plain,
        2 => Kind::Indexed,
        3 => Kind::Bytes,
        4 => Kind::Dict,
        5 => Kind::Segment,
        6 => Kind::User,
        7 => Kind::Counter,
        8 => Kind::Bag,
        9 => Kind::RcDict,
        10 => Kind::Queue,
        _ => return None,
    })
}

impl ItemReader for Grant {
    type Item = (Text, Right);

    ghost item_at = { λ _. grant_at };

    #[tactic(auto, unfolding(crate::specs::ReadingBodies::grant_at, crate::specs::Reading::both_at))]
    fn read<'a>(
        &self,
        alloc: Global,
        before: &[(Text, Right)],
        bytes: &'a [u8],
    ) -> Result<((Text, Right), &'a [u8]), ReadError> {
        let last = match before.last() {
            Some(grant) => Some(&grant.0),
            None => None,
        };
        let (name, rest) = read_text_above(alloc, last, bytes)?;
        let (right, rest) = read_given_right(rest)?;
        Ok(((name, right), rest))
    }
}

#[tactic(auto, unfolding(crate::specs::ReadingBodies::code_at))]
fn read_code(alloc: Global, bytes: &[u8]) -> Result<(MethodCode, &[u8]), ReadError>
    ensures { Gives (λ x. (x.0, x.1.now)) result (code_at bytes.now) }
{
    let (tag, rest) = read_byte(bytes)?;
    match tag {
        0 => read_source(alloc, rest),
        1 => read_primitive(rest),
        _ => Err(breaks(bytes, BodyRule::Kind)),
    }
}

fn read_source(alloc: Global, bytes: &[u8]) -> Result<(MethodCode, &[u8]), ReadError>
    ensures { Gives (λ x. (x.0, x.1.now)) result (made MethodCode.Source (bytes_at bytes.now)) }
{
    let (source, rest) = read_bytes(alloc, bytes)?;
    Ok((MethodCode::Source(Text::of(source)), rest))
}

fn read_primitive(bytes: &[u8]) -> Result<(MethodCode, &[u8]), ReadError>
    ensures { Gives (λ x. (x.0, x.1.now)) result (made MethodCode.Primitive (byte_at bytes.now)) }
{
    let (number, rest) = read_byte(bytes)?;
    Ok((MethodCode::Primitive(number), rest))
}

impl ItemReader for MethodInOrder {
    type Item = Method;

    ghost item_at = { λ _. method_at };

    #[tactic(auto, unfolding(crate::specs::ReadingBodies::method_at, crate::specs::Reading::both_at))]
    fn read<'a>(
        &self,
        alloc: Global,
        before: &[Method],
        bytes: &'a [u8],
    ) -> Result<(Method, &'a [u8]), ReadError> {
        let last = match before.last() {
            Some(method) => Some(&method.selector),
            None => None,
        };
        let (selector, rest) = read_text_above(alloc, last, bytes)?;
        let (code, rest) = read_code(alloc, rest)?;
        Ok((Method { selector, code }, rest))
    }
}

// A value that has to be above the one before it.
#[tactic(auto, unfolding(crate::specs::Reading::above_at))]
fn read_value_above<'a>(
    alloc: Global,
    last: Option<&Value>,
    bytes: &'a [u8],
) -> Result<(Value, &'a [u8]), ReadError>
    ensures { Gives (λ x. (x.0, x.1.now)) result
        (above_at value_order (option_copied last.entry) value_at bytes.now) }
{
    let (value, rest) = read_value(alloc, bytes)?;
    if is_above(last, &value) {
        Ok((value, rest))
    } else {
        Err(breaks(bytes, BodyRule::Order))
    }
}

// A key that has to be above the one before it.
#[tactic(auto, unfolding(crate::specs::Reading::above_at))]
fn read_key_above<'a>(
    alloc: Global,
    last: Option<&Value>,
    bytes: &'a [u8],
) -> Result<(Value, &'a [u8]), ReadError>
    ensures { Gives (λ x. (x.0, x.1.now)) result
        (above_at value_order (option_copied last.entry) (key_at 5) bytes.now) }
{
    let (key, rest) = read_key(alloc, 5, bytes)?;
    if is_above(last, &key) {
        Ok((key, rest))
    } else {
        Err(breaks(bytes, BodyRule::Order))
    }
}

impl ItemReader for Occurrences {
    type Item = (Value, u64);

    ghost item_at = { λ _. occurrences_at };

    #[tactic(auto, unfolding(crate::specs::ReadingBodies::occurrences_at, crate::specs::Reading::both_at))]
    fn read<'a>(
        &self,
        alloc: Global,
        before: &[(Value, u64)],
        bytes: &'a [u8],
    ) -> Result<((Value, u64), &'a [u8]), ReadError> {
        let last = match before.last() {
            Some(pair) => Some(&pair.0),
            None => None,
        };
        let (item, rest) = read_value_above(alloc, last, bytes)?;
        let (times, rest) = read_times(rest)?;
        Ok(((item, times), rest))
    }
}

impl ItemReader for SortedPair {
    type Item = (Value, Value);

    ghost item_at = { λ _. sorted_pair_at };

    #[tactic(auto, unfolding(crate::specs::ReadingBodies::sorted_pair_at, crate::specs::Reading::both_at))]
    fn read<'a>(
        &self,
        alloc: Global,
        before: &[(Value, Value)],
        bytes: &'a [u8],
    ) -> Result<((Value, Value), &'a [u8]), ReadError> {
        let last = match before.last() {
            Some(pair) => Some(&pair.0),
            None => None,
        };
        let (key, rest) = read_key_above(alloc, last, bytes)?;
        let (value, rest) = read_value(alloc, rest)?;
        Ok(((key, value), rest))
    }
}

// A key that none of the pairs has.
#[tactic(auto, unfolding(crate::specs::ReadingBodies::new_key_at), using(crate::proofs::Equal::same_entry))]
fn read_new_key<'a>(
    alloc: Global,
    pairs: &Dictionary,
    bytes: &'a [u8],
) -> Result<(Value, &'a [u8]), ReadError>
    ensures { Gives (λ x. (x.0, x.1.now)) result (new_key_at pairs.now bytes.now) }
{
    let (key, rest) = read_key(alloc, 6, bytes)?;
    if pairs.contains_key(&key) {
        Err(breaks(bytes, BodyRule::Order))
    } else {
        Ok((key, rest))
    }
}

#[tactic(auto, unfolding(crate::specs::ReadingBodies::pair_at, crate::specs::Reading::both_at))]
fn read_pair<'a>(
    alloc: Global,
    pairs: &Dictionary,
    bytes: &'a [u8],
) -> Result<((Value, Value), &'a [u8]), ReadError>
    ensures { Gives (λ x. (x.0, x.1.now)) result (pair_at pairs.now bytes.now) }
{
    let (key, rest) = read_new_key(alloc, pairs, bytes)?;
    let (value, rest) = read_value(alloc, rest)?;
    Ok(((key, value), rest))
}

fn read_pairs(alloc: Global, count: u64, bytes: &[u8]) -> Result<(Dictionary, &[u8]), ReadError>
    ensures { Gives (λ x. (x.0, x.1.now)) result (items_after pair_at count [] bytes.now) }
{
    let mut pairs = Dictionary::new(alloc);
    let mut rest = bytes;
    for _ in 0..count {
        let ((key, value), after) = read_pair(alloc, &pairs, rest)?;
        pairs.put(key, value)?;
        rest = after;
    }
    Ok((pairs, rest))
}

#[tactic(auto, unfolding(crate::specs::Reading::long_at))]
pub(crate) fn read_dictionary(alloc: Global, bytes: &[u8]) -> Result<(Dictionary, &[u8]), ReadError>
    ensures { Gives (λ x. (x.0, x.1.now)) result (long_at pair_at bytes.now) }
{
    let (count, rest) = read_u32(bytes)?;
    read_pairs(alloc, count as u64, rest)
}
