//! A record of a log, from its bytes.
ghost use Rattle.std.specs.Prelude.{◌≡◌, ◌≤◌, length, Some, None, IfOk, IfErr};
ghost use Rattle.gem_record.specs.declared.effect.Effect.{Effect};
ghost use Rattle.body_codec.specs.Whole.{whole_effect};
ghost use Rattle.tran_log.specs.declared.fault.LogRule.{LogRule};
ghost use Rattle.tran_log.specs.Log.{follows, word_in, number_in, length_in, byte_mode, parts_of, whole, whole_parts, record_at};
ghost use Rattle.tran_log.specs.Reads.{GivesRecord, NextFails, bytes_due, IsFront};

use crate::body::FORMAT_2;
use crate::fault::{LogFault, LogRule, ReadError};
use crate::logged::Logged;
use body_codec::{BodyFault, read_effect};
use gem_record::{Effect, Mode};
use std::alloc::Global;

// Whether a record may have this number behind one of the last number.
fn follows(last: Option<u64>, number: u64) -> bool
    ensures { result ≡ follows last number }
{
    if number >= 1 << 63 {
        return false;
    }
    match last {
        Some(last) => last < 1 << 63 && number == last + 1,
        None => true,
    }
}

// The length word of the record that begins the bytes.
fn word_in(bytes: &[u8]) -> u32
    requires { 12 ≤ length bytes.now }
    ensures { result ≡ word_in bytes.now }
{
    let (front, _) = bytes.split_at(4);
    u32::from_le_bytes([front[0], front[1], front[2], front[3]])
}

// Its number.
fn number_in(bytes: &[u8]) -> u64
    requires { 12 ≤ length bytes.now }
    ensures { result ≡ number_in bytes.now }
{
    let (_, behind) = bytes.split_at(4);
    let (front, _) = behind.split_at(8);
    u64::from_le_bytes([
        front[0], front[1], front[2], front[3], front[4], front[5], front[6], front[7],
    ])
}

// The mode that a byte stands for.
fn byte_mode(byte: u8) -> Option<Mode>
    ensures { result ≡ byte_mode byte }
{
    match byte {
        0 => Some(Mode::Full),
        1 => Some(Mode::NoRw),
        _ => None,
    }
}

// The mode and the bytes of the effect, in what stands behind the number of a record.
fn parts_of(of_format_2: bool, content: &[u8]) -> Result<(Mode, &[u8]), ReadError>
    ensures parts { IfOk result (λ x. parts_of of_format_2 content.now ≡ Some (x.0, x.1.now)) }
    ensures rule { IfErr result (λ error. (error ≡ ReadError.Rule LogRule.Mode)
        × (parts_of of_format_2 content.now ≡ None)) }
{
    if !of_format_2 {
        return Ok((Mode::Full, content));
    }
    match content.split_first() {
        Some((byte, effect)) => match byte_mode(*byte) {
            Some(mode) => Ok((mode, effect)),
            None => Err(ReadError::Rule(LogRule::Mode)),
        },
        None => Err(ReadError::Rule(LogRule::Mode)),
    }
}

// The effect that the bytes are, whole, with its mode.
fn read_whole(
    alloc: Global,
    mode: Mode,
    number: u64,
    bytes: &[u8],
) -> Result<(Mode, Effect), ReadError>
    ensures { GivesRecord (λ x. x) result (whole mode (whole_effect number bytes.now)) }
{
    match read_effect(alloc, bytes, number) {
        Ok((effect, size)) if size == bytes.len() => Ok((mode, effect)),
        Ok(_) => Err(ReadError::Rule(LogRule::Effect)),
        Err(BodyFault::Bad { .. }) => Err(ReadError::Rule(LogRule::Effect)),
        Err(BodyFault::NoMemory) => Err(ReadError::NoMemory),
    }
}

// The mode and the effect of a record of this number and format, behind which these bytes stand.
fn read_content(
    alloc: Global,
    number: u64,
    of_format_2: bool,
    content: &[u8],
) -> Result<(Mode, Effect), ReadError>
    ensures { GivesRecord (λ x. x) result
        (whole_parts number (parts_of of_format_2 content.now)) }
{
    let (mode, effect) = parts_of(of_format_2, content)?;
    read_whole(alloc, mode, number, effect)
}

// The mode and the effect of the record that begins the bytes, behind a record of this number, and
// how long is what stands behind its number.
#[tactic(auto, unfolding(crate::specs::Log::record_at))]
fn read_record(
    alloc: Global,
    last: Option<u64>,
    bytes: &[u8],
) -> Result<((Mode, Effect), u32), ReadError>
    ensures gives { GivesRecord (λ x. x.0) result (record_at last bytes.now) }
    ensures size { IfOk result (λ x. x.1 ≡ length_in bytes.now) }
{
    if bytes.len() < 12 {
        return Err(ReadError::Rule(LogRule::Length));
    }
    let word = word_in(bytes);
    let size = word % FORMAT_2;
    let (_, body) = bytes.split_at(12);
    if body.len() < size as usize {
        return Err(ReadError::Rule(LogRule::Length));
    }
    let number = number_in(bytes);
    if !follows(last, number) {
        return Err(ReadError::Rule(LogRule::Number));
    }
    let (content, _) = body.split_at(size as usize);
    Ok((
        read_content(alloc, number, word >= FORMAT_2, content)?,
        size,
    ))
}

// A record that was read, and how many bytes it takes with its gate.
#[derive(Drop)]
pub(crate) struct Next {
    pub one: Logged,
    pub bytes: u64,
}

// The record that begins the bytes, with its gate at this offset; faults are there, too.
pub(crate) fn read_front(
    alloc: Global,
    at: u64,
    last: Option<u64>,
    bytes: &[u8],
) -> Result<Next, LogFault>
    ensures broken { IfErr result (NextFails at (record_at last bytes.now)) }
    ensures record { IfOk result (IsFront at last bytes.now) }
{
    match read_record(alloc, last, bytes) {
        Ok(found) => {
            let (read, size) = found;
            let mode = read.0;
            let effect = read.1;
            let one = Logged { at, mode, effect };
            let bytes = 13 + size as u64;
            Ok(Next { one, bytes })
        }
        Err(ReadError::NoMemory) => Err(LogFault::NoMemory),
        Err(ReadError::Rule(rule)) => Err(LogFault::NotLog { at, rule }),
    }
}

// How many bytes the record takes that these bytes begin, with its gate; 13 where they are fewer.
// None where they don't begin with an open gate.
pub(crate) fn bytes_due(bytes: &[u8]) -> Option<u64>
    ensures { result ≡ bytes_due bytes.now }
{
    let (gate, front) = bytes.split_first()?;
    if *gate != 1 {
        return None;
    }
    if front.len() < 12 {
        return Some(13);
    }
    Some(13 + (word_in(front) % FORMAT_2) as u64)
}
