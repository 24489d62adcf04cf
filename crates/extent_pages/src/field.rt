//! Fields at the front of bytes.
ghost use Rattle.std.specs.Prelude.{◌≡◌, ◌<◌, ◌^◌, IfOk, length};
ghost use Rattle.std.specs.Ordering.{nat_cmp};
ghost use Rattle.std.specs.Int.{w32, w64};
ghost use Rattle.body_codec.specs.Reading.{number_at, byte_at, name_at, is_above, above_at};
ghost use Rattle.extent_pages.specs.Reads.{GivesField};

use crate::page::{number_of_eight, number_of_four};
use body_codec::{BodyRule, Flaw};

// The field at the front of these bytes breaks the rule.
fn breaks(bytes: &[u8], rule: BodyRule) -> Flaw
    ensures { result ≡ record { left = length bytes.now; rule = rule } }
{
    Flaw {
        left: bytes.len(),
        rule,
    }
}

#[tactic(auto, unfolding(body_codec::specs::Reading::byte_at))]
pub(crate) fn read_byte(bytes: &[u8]) -> Result<(u8, &[u8]), Flaw>
    ensures { GivesField (λ x. (x.0, x.1.now)) result (byte_at bytes.now) }
{
    match bytes.split_first() {
        Some((byte, rest)) => Ok((*byte, rest)),
        None => Err(breaks(bytes, BodyRule::Length)),
    }
}

pub(crate) fn read_u32(bytes: &[u8]) -> Result<(u32, &[u8]), Flaw>
    ensures { GivesField (λ x. (x.0, x.1.now)) result (number_at w32 bytes.now) }
{
    if bytes.len() < 4 {
        return Err(breaks(bytes, BodyRule::Length));
    }
    let (_, rest) = bytes.split_at(4);
    Ok((number_of_four(bytes, 0), rest))
}

pub(crate) fn read_u64(bytes: &[u8]) -> Result<(u64, &[u8]), Flaw>
    ensures { GivesField (λ x. (x.0, x.1.now)) result (number_at w64 bytes.now) }
{
    if bytes.len() < 8 {
        return Err(breaks(bytes, BodyRule::Length));
    }
    let (_, rest) = bytes.split_at(8);
    Ok((number_of_eight(bytes, 0), rest))
}

#[tactic(auto, unfolding(body_codec::specs::Reading::name_at))]
fn read_name(bytes: &[u8]) -> Result<(u64, &[u8]), Flaw>
    ensures name { GivesField (λ x. (x.0, x.1.now)) result (name_at bytes.now) }
    ensures bound { IfOk result (λ x. x.0 < 2 ^ 48) }
{
    let (number, rest) = read_u64(bytes)?;
    if number < 1 << 48 {
        Ok((number, rest))
    } else {
        Err(breaks(bytes, BodyRule::Range))
    }
}

// Whether a number is above the one before it, where there is one.
fn is_above(last: Option<u64>, number: u64) -> bool
    ensures { result ≡ is_above nat_cmp last number }
{
    match last {
        Some(last) => last < number,
        None => true,
    }
}

// A number that has to be above the one before it.
#[tactic(auto, unfolding(body_codec::specs::Reading::above_at))]
pub(crate) fn read_number_above(last: Option<u64>, bytes: &[u8]) -> Result<(u64, &[u8]), Flaw>
    ensures { GivesField (λ x. (x.0, x.1.now)) result
        (above_at nat_cmp last (number_at w64) bytes.now) }
{
    let (number, rest) = read_u64(bytes)?;
    if is_above(last, number) {
        Ok((number, rest))
    } else {
        Err(breaks(bytes, BodyRule::Order))
    }
}

// A name that has to be above the one before it.
#[tactic(auto, unfolding(body_codec::specs::Reading::above_at))]
pub(crate) fn read_name_above(last: Option<u64>, bytes: &[u8]) -> Result<(u64, &[u8]), Flaw>
    ensures name { GivesField (λ x. (x.0, x.1.now)) result
        (above_at nat_cmp last name_at bytes.now) }
    ensures bound { IfOk result (λ x. x.0 < 2 ^ 48) }
{
    let (number, rest) = read_name(bytes)?;
    if is_above(last, number) {
        Ok((number, rest))
    } else {
        Err(breaks(bytes, BodyRule::Order))
    }
}
