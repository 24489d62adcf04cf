//! Numbers, texts and values at the front of bytes.
ghost use Rattle.std.specs.Prelude.{◌≡◌, ◌<◌, ◌^◌, IfOk, nat_lt};
ghost use Rattle.std.specs.List.{list_all};
ghost use Rattle.std.specs.Int.{w16, w32, w64};
ghost use Rattle.body_codec.specs.Reading.{made, Gives, number_at, byte_at, name_at, integer_at, times_at, plain_at, text_at, bytes_at, char_at, content_at, value_at, key_at};

use crate::fault::{BodyRule, ReadError, breaks};
use gem_object::{LARGEST_INTEGER, Oid, SMALLEST_INTEGER, Text, Value};
use std::alloc::Global;

#[tactic(auto, unfolding(crate::specs::Reading::byte_at))]
pub(crate) fn read_byte(bytes: &[u8]) -> Result<(u8, &[u8]), ReadError>
    ensures { Gives (λ x. (x.0, x.1.now)) result (byte_at bytes.now) }
{
    match bytes.split_first() {
        Some((byte, rest)) => Ok((*byte, rest)),
        None => Err(breaks(bytes, BodyRule::Length)),
    }
}

pub(crate) fn read_u16(bytes: &[u8]) -> Result<(u16, &[u8]), ReadError>
    ensures { Gives (λ x. (x.0, x.1.now)) result (number_at w16 bytes.now) }
{
    if bytes.len() < 2 {
        return Err(breaks(bytes, BodyRule::Length));
    }
    let (front, rest) = bytes.split_at(2);
    Ok((u16::from_le_bytes([front[0], front[1]]), rest))
}

pub(crate) fn read_u32(bytes: &[u8]) -> Result<(u32, &[u8]), ReadError>
    ensures { Gives (λ x. (x.0, x.1.now)) result (number_at w32 bytes.now) }
{
    if bytes.len() < 4 {
        return Err(breaks(bytes, BodyRule::Length));
    }
    let (front, rest) = bytes.split_at(4);
    let number = u32::from_le_bytes([front[0], front[1], front[2], front[3]]);
    Ok((number, rest))
}

pub(crate) fn read_u64(bytes: &[u8]) -> Result<(u64, &[u8]), ReadError>
    ensures { Gives (λ x. (x.0, x.1.now)) result (number_at w64 bytes.now) }
{
    if bytes.len() < 8 {
        return Err(breaks(bytes, BodyRule::Length));
    }
    let (front, rest) = bytes.split_at(8);
    let number = u64::from_le_bytes([
        front[0], front[1], front[2], front[3], front[4], front[5], front[6], front[7],
    ]);
    Ok((number, rest))
}

// The number of an object's name.
#[tactic(auto, unfolding(crate::specs::Reading::name_at))]
pub(crate) fn read_name(bytes: &[u8]) -> Result<(u64, &[u8]), ReadError>
    ensures name { Gives (λ x. (x.0, x.1.now)) result (name_at bytes.now) }
    ensures bound { IfOk result (λ x. x.0 < 2 ^ 48) }
{
    let (number, rest) = read_u64(bytes)?;
    if number < 1 << 48 {
        Ok((number, rest))
    } else {
        Err(breaks(bytes, BodyRule::Range))
    }
}

// The name of this number.
pub(crate) fn name_of(number: u64) -> Oid
    requires { number < 2 ^ 48 }
    ensures { result ≡ number }
{
    let Some(oid) = Oid::of(number) else {
        unreachable!()
    };
    oid
}

#[tactic(auto, unfolding(crate::specs::Reading::integer_at))]
pub(crate) fn read_integer(bytes: &[u8]) -> Result<(i64, &[u8]), ReadError>
    ensures { Gives (λ x. (x.0, x.1.now)) result (integer_at bytes.now) }
{
    let (number, rest) = read_u64(bytes)?;
    let number = number.cast_signed();
    if SMALLEST_INTEGER <= number && number <= LARGEST_INTEGER {
        Ok((number, rest))
    } else {
        Err(breaks(bytes, BodyRule::Range))
    }
}

// How often an item of a bag occurs.
#[tactic(auto, unfolding(crate::specs::Reading::times_at))]
pub(crate) fn read_times(bytes: &[u8]) -> Result<(u64, &[u8]), ReadError>
    ensures { Gives (λ x. (x.0, x.1.now)) result (times_at bytes.now) }
{
    let (number, rest) = read_u64(bytes)?;
    if number == 0 {
        return Err(breaks(bytes, BodyRule::Range));
    }
    Ok((number, rest))
}

fn are_plain(bytes: &[u8]) -> bool
    ensures { result ≡ list_all (λ byte. nat_lt byte 128) bytes.now }
{
    bytes.iter().all(|byte| *byte < 128)
}

#[tactic(auto, unfolding(crate::specs::Reading::plain_at))]
fn read_plain(count: usize, bytes: &[u8]) -> Result<(&[u8], &[u8]), ReadError>
    ensures { Gives (λ x. (x.0.now, x.1.now)) result (plain_at count bytes.now) }
{
    if bytes.len() < count {
        return Err(breaks(bytes, BodyRule::Length));
    }
    let (front, rest) = bytes.split_at(count);
    if are_plain(front) {
        Ok((front, rest))
    } else {
        Err(breaks(bytes, BodyRule::Byte))
    }
}

#[tactic(auto, unfolding(crate::specs::Reading::text_at))]
pub(crate) fn read_text(alloc: Global, bytes: &[u8]) -> Result<(Text, &[u8]), ReadError>
    ensures { Gives (λ x. (x.0, x.1.now)) result (text_at bytes.now) }
{
    let (count, rest) = read_u16(bytes)?;
    if count > 1000 {
        return Err(breaks(bytes, BodyRule::Range));
    }
    let (text, rest) = read_plain(count as usize, rest)?;
    Ok((Text::copy_of(alloc, text)?, rest))
}

// A text behind its length in four bytes.
#[tactic(auto, unfolding(crate::specs::Reading::bytes_at))]
pub(crate) fn read_bytes(alloc: Global, bytes: &[u8]) -> Result<(Vec<u8>, &[u8]), ReadError>
    ensures { Gives (λ x. (x.0.items, x.1.now)) result (bytes_at bytes.now) }
{
    let (count, rest) = read_u32(bytes)?;
    let (text, rest) = read_plain(count as usize, rest)?;
    Ok((text.to_vec(alloc)?, rest))
}

#[tactic(auto, unfolding(crate::specs::Reading::char_at))]
fn read_char(bytes: &[u8]) -> Result<(u8, &[u8]), ReadError>
    ensures { Gives (λ x. (x.0, x.1.now)) result (char_at bytes.now) }
{
    let (code, rest) = read_byte(bytes)?;
    if code < 128 {
        Ok((code, rest))
    } else {
        Err(breaks(bytes, BodyRule::Byte))
    }
}

fn read_int(bytes: &[u8]) -> Result<(Value, &[u8]), ReadError>
    ensures { Gives (λ x. (x.0, x.1.now)) result
        (made Value.Int (integer_at bytes.now)) }
{
    let (number, rest) = read_integer(bytes)?;
    Ok((Value::Int(number), rest))
}

fn read_character(bytes: &[u8]) -> Result<(Value, &[u8]), ReadError>
    ensures { Gives (λ x. (x.0, x.1.now)) result
        (made Value.Char (char_at bytes.now)) }
{
    let (code, rest) = read_char(bytes)?;
    Ok((Value::Char(code), rest))
}

fn read_symbol(alloc: Global, bytes: &[u8]) -> Result<(Value, &[u8]), ReadError>
    ensures { Gives (λ x. (x.0, x.1.now)) result
        (made Value.Sym (text_at bytes.now)) }
{
    let (name, rest) = read_text(alloc, bytes)?;
    Ok((Value::Sym(name), rest))
}

fn read_reference(bytes: &[u8]) -> Result<(Value, &[u8]), ReadError>
    ensures { Gives (λ x. (x.0, x.1.now)) result
        (made Value.Ref (name_at bytes.now)) }
{
    let (number, rest) = read_name(bytes)?;
    Ok((Value::Ref(name_of(number)), rest))
}

// The value of this tag, whose content is the rest of the bytes.
#[tactic(auto, unfolding(crate::specs::Reading::content_at))]
fn read_content<'a>(
    alloc: Global,
    tag: u8,
    bytes: &'a [u8],
    rest: &'a [u8],
) -> Result<(Value, &'a [u8]), ReadError>
    ensures { Gives (λ x. (x.0, x.1.now)) result (content_at tag bytes.now rest.now) }
{
    match tag {
        0 => Ok((Value::Nil, rest)),
        1 => Ok((Value::False, rest)),
        2 => Ok((Value::True, rest)),
        3 => read_int(rest),
        4 => read_character(rest),
        5 => read_symbol(alloc, rest),
        6 => read_reference(rest),
        _ => Err(breaks(bytes, BodyRule::Kind)),
    }
}

#[tactic(auto, unfolding(crate::specs::Reading::value_at))]
pub(crate) fn read_value(alloc: Global, bytes: &[u8]) -> Result<(Value, &[u8]), ReadError>
    ensures { Gives (λ x. (x.0, x.1.now)) result (value_at bytes.now) }
{
    let (tag, rest) = read_byte(bytes)?;
    read_content(alloc, tag, bytes, rest)
}

// The key of a pair, whose tag is from 1 to the greatest that is allowed there.
#[tactic(auto, unfolding(crate::specs::Reading::key_at))]
pub(crate) fn read_key(
    alloc: Global,
    greatest: u8,
    bytes: &[u8],
) -> Result<(Value, &[u8]), ReadError>
    ensures { Gives (λ x. (x.0, x.1.now)) result (key_at greatest bytes.now) }
{
    let (tag, rest) = read_byte(bytes)?;
    if tag == 0 || tag > greatest {
        return Err(breaks(bytes, BodyRule::Kind));
    }
    read_content(alloc, tag, bytes, rest)
}
