// The log: the example's bytes, appends, chains and openings that stop, an emptied log that is used
// again, and each byte of a log of both formats changed or cut off.
use crate::again::add_two;
use crate::sink::Sink;
use crate::untold::Untold;
use body_codec::read_effect;
use gem_disk::Pick;
use gem_record::{Effect, Mode};
use std::alloc::Global;
use std::test::Fail;
use tran_log::{
    AppendFault, LOG_LIMIT, Log, LogFault, LogRule, Logged, add_body, open_log, spell_body,
};

// The effect that sets the counter 1:3, of the class 0:19 and in the segment 0:30, to 20.
const EFFECT: &[u8] = b"\x01\0\0\0\x03\0\0\x01\0\0\0\0\x13\0\0\0\0\0\0\0\x1e\0\0\0\0\0\0\0\
    \x06\x14\0\0\0\0\0\0\0";

// What a log is opened to.
#[derive(Clone, Copy, Debug, PartialEq, Eq)]
enum Opened {
    Records(u64),
    Bad(u64, LogRule),
    Other,
}

// The record of this number in format 1, with an open gate before it.
fn push_old(log: &mut Vec<u8>, number: u64) -> Result<(), Fail> {
    log.push(1)?;
    log.extend_from_slice(&(EFFECT.len() as u32).to_le_bytes())?;
    log.extend_from_slice(&number.to_le_bytes())?;
    log.extend_from_slice(EFFECT)?;
    Ok(())
}

// The record in format 2, in the same way.
fn push_new(alloc: Global, log: &mut Vec<u8>, number: u64, mode: Mode) -> Result<(), Fail> {
    let body = spell_body(alloc, number, mode, EFFECT)?;
    let (_, record) = body.split_last().unwrap_or((&0, &[]));
    log.push(1)?;
    log.extend_from_slice(record)?;
    Ok(())
}

// A log of this number of records of format 2, of the commits from 3 on.
fn log_bytes(alloc: Global, records: u64) -> Result<Vec<u8>, Fail> {
    let mut bytes = Vec::new(alloc);
    for number in 3..records.saturating_add(3) {
        push_new(alloc, &mut bytes, number, Mode::Full)?;
    }
    bytes.push(0)?;
    Ok(bytes)
}

// The offsets of the gates of `mixed_log`, and of the gate behind its records.
const GATES: &[u64] = &[0, 50, 101, 152];

// The commits 3 to 5, the first in format 1, the others in format 2.
fn mixed_log(alloc: Global) -> Result<Vec<u8>, Fail> {
    let mut log = Vec::new(alloc);
    push_old(&mut log, 3)?;
    push_new(alloc, &mut log, 4, Mode::NoRw)?;
    push_new(alloc, &mut log, 5, Mode::Full)?;
    log.push(0)?;
    Ok(log)
}

fn open_disk(alloc: Global, disk: &mut Untold) -> Opened {
    match open_log(alloc, disk) {
        Ok((_, logged)) => Opened::Records(logged.len() as u64),
        Err(LogFault::NotLog { at, rule }) => Opened::Bad(at, rule),
        Err(_) => Opened::Other,
    }
}

fn open_bytes(alloc: Global, log: Vec<u8>) -> Opened {
    let mut disk = Untold::new(log, Vec::new(alloc));
    open_disk(alloc, &mut disk)
}

#[test]
fn example_bytes(rt: HostRuntime) -> Result<(), Fail> {
    let alloc = rt.alloc();
    let bytes = log_bytes(alloc, 1)?;
    assert_eq!(rt; bytes.len(), 52);
    assert_eq!(rt; bytes.as_slice(), EXAMPLE);
    Ok(())
}

// The log of the example's record alone, in format 2, with the gate behind it.
const EXAMPLE: &[u8] = b"\x01\x26\0\0\x80\x03\0\0\0\0\0\0\0\0\
    \x01\0\0\0\x03\0\0\x01\0\0\0\0\x13\0\0\0\0\0\0\0\x1e\0\0\0\0\0\0\0\
    \x06\x14\0\0\0\0\0\0\0\0";

// A log of the commit 3 in format 1 and the commit 4 in format 2, each with its gate, and the gate
// behind them.
const ONE_OF_EACH: &[u8] = b"\x01\x25\0\0\0\x03\0\0\0\0\0\0\0\
    \x01\0\0\0\x03\0\0\x01\0\0\0\0\x13\0\0\0\0\0\0\0\x1e\0\0\0\0\0\0\0\
    \x06\x14\0\0\0\0\0\0\0\
    \x01\x26\0\0\x80\x04\0\0\0\0\0\0\0\x01\
    \x01\0\0\0\x03\0\0\x01\0\0\0\0\x13\0\0\0\0\0\0\0\x1e\0\0\0\0\0\0\0\
    \x06\x14\0\0\0\0\0\0\0\
    \0";

// Whether the records of a log are at these offsets, in these modes.
fn are_logged(found: &[Logged], wanted: &[(u64, Mode)]) -> bool {
    found.len() == wanted.len()
        && found
            .iter()
            .zip(wanted.iter())
            .all(|(one, (at, mode))| one.at == *at && one.mode == *mode)
}

// Whether `mixed_log` is opened to its records and its length.
fn opens_mixed(alloc: Global) -> Result<bool, Fail> {
    let mut disk = Untold::new(mixed_log(alloc)?, Vec::new(alloc));
    let wanted = [(0, Mode::Full), (50, Mode::NoRw), (101, Mode::Full)];
    match open_log(alloc, &mut disk) {
        Ok((log, logged)) => Ok(are_logged(&logged, &wanted) && log.length() == 153),
        Err(_) => Ok(false),
    }
}

#[test]
fn both_formats(rt: HostRuntime) -> Result<(), Fail> {
    assert!(rt; opens_mixed(rt.alloc())?);
    Ok(())
}

// The log of the commit 3 alone, in format 1.
fn old_log(alloc: Global) -> Result<Vec<u8>, Fail> {
    let (record, _) = ONE_OF_EACH.split_at(50);
    let mut log = record.to_vec(alloc)?;
    log.push(0)?;
    Ok(log)
}

// What an append of the commit 4 makes of it, where it is opened to its record.
fn one_of_each(alloc: Global) -> Result<Vec<u8>, Fail> {
    let mut disk = Untold::new(old_log(alloc)?, Vec::new(alloc));
    let body = spell_body(alloc, 4, Mode::NoRw, EFFECT)?;
    if let Ok((mut log, logged)) = open_log(alloc, &mut disk) {
        let is_old = are_logged(&logged, &[(0, Mode::Full)]) && log.length() == 51;
        if is_old && log.append(&mut disk, &body).is_ok() {
            return Ok(disk.crash(Pick::Old)?.log);
        }
    }
    Ok(Vec::new(alloc))
}

// Whether a log of both records is opened to them.
fn opens_each(alloc: Global, log: Vec<u8>) -> bool {
    let mut disk = Untold::new(log, Vec::new(alloc));
    match open_log(alloc, &mut disk) {
        Ok((log, logged)) => {
            are_logged(&logged, &[(0, Mode::Full), (50, Mode::NoRw)]) && log.length() == 102
        }
        Err(_) => false,
    }
}

// A record that is added to an older log stands behind what was there, byte by byte.
#[test]
fn one_record_of_each_format(rt: HostRuntime) -> Result<(), Fail> {
    let alloc = rt.alloc();
    let log = one_of_each(alloc)?;
    assert_eq!(rt; log.as_slice(), ONE_OF_EACH);
    assert!(rt; opens_each(alloc, log));
    Ok(())
}

// How many gates stand before this offset.
fn gates_before(at: u64) -> usize {
    GATES.iter().take_while(|gate| **gate < at).count()
}

// What a cut of `mixed_log` to so many bytes leaves.
fn after_cut(size: u64) -> Opened {
    if size <= 1 {
        return Opened::Records(0);
    }
    if size == 153 {
        return Opened::Records(3);
    }
    let gate = GATES.get(gates_before(size).saturating_sub(1)).copied();
    if GATES.contains(&size) {
        Opened::Bad(size, LogRule::Gate)
    } else {
        Opened::Bad(gate.unwrap_or(0), LogRule::Length)
    }
}

fn is_cut_so(alloc: Global, size: u64) -> Result<bool, Fail> {
    let mut log = mixed_log(alloc)?;
    log.truncate(size as usize);
    Ok(open_bytes(alloc, log) == after_cut(size))
}

#[test]
fn each_cut(rt: HostRuntime) -> Result<(), Fail> {
    for size in 0..=153 {
        assert!(rt; is_cut_so(rt.alloc(), size)?, "{size}");
    }
    Ok(())
}

// What a change of the byte at this place of an effect leaves of three records: the count of
// objects, numbers of names past 2^48, and the tag of the body are told.
fn after_change(gate: u64, place: u64) -> Opened {
    match place {
        0..=3 | 10..=11 | 18..=19 | 26..=28 => Opened::Bad(gate, LogRule::Effect),
        _ => Opened::Records(3),
    }
}

// What a change of the byte at this place of a record leaves, where its gate is at an offset.
fn after_flip(index: u64, gate: u64, place: u64) -> Opened {
    match place {
        0 => Opened::Records(index),
        1..=4 => Opened::Bad(gate, LogRule::Length),
        // another number is one that the next record doesn't follow
        5..=11 if index == 0 => Opened::Bad(50, LogRule::Number),
        5..=12 => Opened::Bad(gate, LogRule::Number),
        13 if index > 0 => Opened::Bad(gate, LogRule::Mode),
        _ if index == 0 => after_change(gate, place.saturating_sub(13)),
        _ => after_change(gate, place.saturating_sub(14)),
    }
}

fn is_flipped_so(alloc: Global, at: u64) -> Result<bool, Fail> {
    let mut log = mixed_log(alloc)?;
    if let Some(byte) = log.get_mut(at as usize) {
        *byte = 255 - *byte;
    }
    let index = gates_before(at.saturating_add(1)).saturating_sub(1);
    let gate = GATES.get(index).copied().unwrap_or(0);
    Ok(open_bytes(alloc, log) == after_flip(index as u64, gate, at.saturating_sub(gate)))
}

#[test]
fn each_flip(rt: HostRuntime) -> Result<(), Fail> {
    for at in 0..=152 {
        assert!(rt; is_flipped_so(rt.alloc(), at)?, "{at}");
    }
    Ok(())
}

// What a log of one record of format 2 is opened to, where these bytes stand at an offset.
fn with_bytes(alloc: Global, at: usize, bytes: &[u8]) -> Result<Opened, Fail> {
    let mut log = log_bytes(alloc, 1)?;
    for (index, byte) in bytes.iter().enumerate() {
        if let Some(place) = log.get_mut(at.saturating_add(index)) {
            *place = *byte;
        }
    }
    Ok(open_bytes(alloc, log))
}

// The number comes before the mode, and the mode before the effect; a record without a byte for
// its mode has none.
#[test]
fn modes(rt: HostRuntime) -> Result<(), Fail> {
    let alloc = rt.alloc();
    let bad_mode = Opened::Bad(0, LogRule::Mode);
    assert_eq!(rt; with_bytes(alloc, 13, &[1])?, Opened::Records(1));
    assert_eq!(rt; with_bytes(alloc, 13, &[2])?, bad_mode);
    assert_eq!(rt; with_bytes(alloc, 13, &[2, 9])?, bad_mode);
    assert_eq!(rt;
        with_bytes(alloc, 12, &[128, 2])?,
        Opened::Bad(0, LogRule::Number)
    );
    assert_eq!(rt; with_bytes(alloc, 1, &[0])?, bad_mode);
    assert_eq!(rt;
        with_bytes(alloc, 4, &[0])?,
        Opened::Bad(0, LogRule::Effect)
    );
    Ok(())
}

// Adds a record in so many calls of the disk, and says whether it was added.
fn is_added(disk: &mut Untold, log: &mut Log, body: &[u8], calls: u64) -> bool {
    disk.stop_after(calls);
    log.append(disk, body).is_ok()
}

// The same of a chain of records.
fn is_chained(disk: &mut Untold, log: &mut Log, chain: &[u8], calls: u64) -> bool {
    if log.length().saturating_add(chain.len() as u64) > LOG_LIMIT {
        return false;
    }
    disk.stop_after(calls);
    log.append_chain(disk, chain).is_ok()
}

// The bodies of so many records, of the commits from 4 on.
fn chain_of(alloc: Global, records: u64) -> Result<Vec<u8>, Fail> {
    let mut chain = Vec::new(alloc);
    for number in 4..records.saturating_add(4) {
        add_body(&mut chain, &spell_body(alloc, number, Mode::NoRw, EFFECT)?)?;
    }
    Ok(chain)
}

// Adds so many records at once to the log of a disk, by so many calls; one record is added alone.
fn is_added_to(alloc: Global, disk: &mut Untold, records: u64, calls: u64) -> Result<bool, Fail> {
    let chain = chain_of(alloc, records)?;
    match open_log(alloc, disk) {
        Ok(opened) => {
            let mut log = opened.0;
            if records == 1 {
                return Ok(is_added(disk, &mut log, &chain, calls));
            }
            Ok(is_chained(disk, &mut log, &chain, calls))
        }
        Err(_) => Ok(false),
    }
}

// How many records a log of one has after others were added, in so many calls, and a crash.
fn after_append(alloc: Global, records: u64, calls: u64, pick: Pick) -> Result<Opened, Fail> {
    let mut disk = Untold::new(log_bytes(alloc, 1)?, Vec::new(alloc));
    if is_added_to(alloc, &mut disk, records, calls)? != (calls >= 4) {
        return Ok(Opened::Other);
    }
    let images = disk.crash(pick)?;
    Ok(open_bytes(alloc, images.log))
}

// Only once the first gate is open the new records are there, all of them, and until then none.
fn is_all_or_none(alloc: Global, records: u64, calls: u64) -> Result<bool, Fail> {
    let all = records.saturating_add(1);
    let open = if calls >= 3 { all } else { 1 };
    let synced = if calls >= 4 { all } else { 1 };
    let old = after_append(alloc, records, calls, Pick::Old)?;
    let new = after_append(alloc, records, calls, Pick::New)?;
    let torn = after_append(alloc, records, calls, Pick::Torn(7))?;
    let torn_open = after_append(alloc, records, calls, Pick::Torn(1))?;
    Ok(
        old == Opened::Records(synced)
            && new == Opened::Records(open)
            && torn == Opened::Records(synced)
            && torn_open == Opened::Records(open),
    )
}

#[test]
fn appends_that_stop(rt: HostRuntime) -> Result<(), Fail> {
    for calls in 0..=4 {
        assert!(rt; is_all_or_none(rt.alloc(), 1, calls)?, "{calls}");
    }
    Ok(())
}

#[test]
fn chains_that_stop(rt: HostRuntime) -> Result<(), Fail> {
    for calls in 0..=4 {
        assert!(rt; is_all_or_none(rt.alloc(), 3, calls)?, "{calls}");
    }
    Ok(())
}

// A thousand records are added by four calls, and by no fewer.
#[test]
fn long_chain(rt: HostRuntime) -> Result<(), Fail> {
    for calls in 3..=4 {
        assert!(rt; is_all_or_none(rt.alloc(), 1000, calls)?, "{calls}");
    }
    Ok(())
}

// Whether a log of one byte at most is opened in so many calls of the disk, to one closed gate, and
// opens without a record after a crash.
fn is_opened_small(alloc: Global, log: Vec<u8>, calls: u64, pick: Pick) -> Result<bool, Fail> {
    let mut disk = Untold::new(log, Vec::new(alloc));
    disk.stop_after(calls);
    let is_open = open_disk(alloc, &mut disk) == Opened::Records(0);
    let images = disk.crash(pick)?;
    let is_closed = images.log.starts_with(b"\0") && images.log.len() == 1;
    let is_small = open_bytes(alloc, images.log) == Opened::Records(0);
    Ok(is_small && is_open == (calls >= 4) && (is_closed || !is_open))
}

// The same of the three that tell most: no byte, a closed gate and an open one.
fn are_opened_small(alloc: Global, calls: u64, pick: Pick) -> Result<bool, Fail> {
    let none = is_opened_small(alloc, Vec::new(alloc), calls, pick)?;
    let closed = is_opened_small(alloc, vec![in alloc; 0]?, calls, pick)?;
    let open = is_opened_small(alloc, vec![in alloc; 1]?, calls, pick)?;
    Ok(none && closed && open)
}

#[test]
fn small_logs(rt: HostRuntime) -> Result<(), Fail> {
    for calls in 0..=4 {
        assert!(rt; are_opened_small(rt.alloc(), calls, Pick::Old)?, "{calls}");
        assert!(rt; are_opened_small(rt.alloc(), calls, Pick::New)?, "{calls}");
        assert!(rt;
            are_opened_small(rt.alloc(), calls, Pick::Torn(1))?,
            "{calls}"
        );
    }
    Ok(())
}

// Whether a log of three records, once emptied, holds none, and after an append over the first of
// them that one alone.
fn is_used_again(alloc: Global) -> Result<bool, Fail> {
    let mut disk = Untold::new(mixed_log(alloc)?, Vec::new(alloc));
    let body = spell_body(alloc, 9, Mode::Full, EFFECT)?;
    let Ok(opened) = open_log(alloc, &mut disk) else {
        return Ok(false);
    };
    let mut log = opened.0;
    let is_emptied = log.restart_empty(&mut disk).is_ok();
    let emptied = open_disk(alloc, &mut disk);
    let is_added = log.append(&mut disk, &body).is_ok();
    let added = open_disk(alloc, &mut disk);
    Ok(is_emptied && emptied == Opened::Records(0) && is_added && added == Opened::Records(1))
}

#[test]
fn emptied_log(rt: HostRuntime) -> Result<(), Fail> {
    assert!(rt; is_used_again(rt.alloc())?);
    Ok(())
}

fn effect_of(alloc: Global, number: u64) -> Option<Effect> {
    match read_effect(alloc, EFFECT, number) {
        Ok((effect, _)) => Some(effect),
        Err(_) => None,
    }
}

// How many records a log has to which the commits of these numbers were added.
fn with_two(alloc: Global, one: u64, two: u64) -> Option<usize> {
    let mut disk = Untold::new(Vec::new(alloc), Vec::new(alloc));
    let one = effect_of(alloc, one)?;
    let two = effect_of(alloc, two)?;
    let found = add_two(alloc, &mut disk, Mode::NoRw, &one, &two).ok()?;
    Some(found.len())
}

#[test]
fn two_added(rt: HostRuntime) -> Result<(), Fail> {
    assert_eq!(rt; with_two(rt.alloc(), 0, 1), Some(2));
    assert_eq!(rt; with_two(rt.alloc(), 5, 7), None);
    Ok(())
}

const MEBIBYTE: u64 = 1 << 20;

fn full(length: u64, size: u64) -> Result<(), AppendFault> {
    Err(AppendFault::Full { length, size })
}

// A log behind so many bodies of this length.
fn behind_bodies(disk: &mut Sink, mut log: Log, count: u64, body: &[u8]) -> Option<Log> {
    for _ in 0..count {
        if log.append(disk, body).is_err() {
            return None;
        }
    }
    Some(log)
}

// Whether a log is filled up to 67,108,864 bytes and no further, and takes a shorter record after
// one that had no room.
fn is_filled(alloc: Global) -> Result<bool, Fail> {
    let mut disk = Sink;
    let mut body = vec![in alloc; 0; MEBIBYTE as usize]?;
    let Ok(opened) = open_log(alloc, &mut disk) else {
        return Ok(false);
    };
    let Some(mut log) = behind_bodies(&mut disk, opened.0, 63, &body) else {
        return Ok(false);
    };
    let above = log.append(&mut disk, &body);
    body.truncate(MEBIBYTE as usize - 1);
    let last = log.append(&mut disk, &body);
    let more = log.append(&mut disk, b"\0");
    Ok(above == full(66_060_289, MEBIBYTE) && last == Ok(()) && more == full(67_108_864, 1))
}

#[test]
fn filled_log(rt: HostRuntime) -> Result<(), Fail> {
    assert!(rt; is_filled(rt.alloc())?);
    Ok(())
}

// Whether a log of two pieces is opened by so many calls of the disk.
fn is_opened_by(alloc: Global, calls: u64) -> Result<bool, Fail> {
    let mut disk = Untold::new(log_bytes(alloc, 2_000)?, Vec::new(alloc));
    disk.stop_after(calls);
    Ok(open_disk(alloc, &mut disk) == Opened::Records(2_000))
}

// The calls are a sync, one that asks for the length, and one for each piece.
#[test]
fn read_in_pieces(rt: HostRuntime) -> Result<(), Fail> {
    assert!(rt; !is_opened_by(rt.alloc(), 3)?);
    assert!(rt; is_opened_by(rt.alloc(), 4)?);
    Ok(())
}

// More records than two bytes count.
const MANY: u64 = 65_537;

// Whether a log of so many records is read.
fn reads_many(alloc: Global) -> Result<bool, Fail> {
    let log = log_bytes(alloc, MANY)?;
    Ok(open_bytes(alloc, log) == Opened::Records(MANY))
}

// Whether so many records are added to a log.
fn takes_many(alloc: Global) -> bool {
    let mut disk = Sink;
    match open_log(alloc, &mut disk) {
        Ok(opened) => behind_bodies(&mut disk, opened.0, MANY, b"\0").is_some(),
        Err(_) => false,
    }
}

#[test]
fn many_records(rt: HostRuntime) -> Result<(), Fail> {
    assert!(rt; reads_many(rt.alloc())?);
    assert!(rt; takes_many(rt.alloc()));
    Ok(())
}
