//! The directory of an extent.
ghost use Rattle.std.specs.Prelude.{◌≡◌, ◌≢◌, ◌+◌, ◌*◌, ℕ, [], length, IfOk, IfErr, option_map};
ghost use Rattle.body_codec.specs.Reading.{items_after, last_of, long_at};
ghost use Rattle.extent_pages.specs.Contents.{entry_at, directory_of};
ghost use Rattle.extent_pages.specs.Stored.{AreEntries};
ghost use Rattle.extent_pages.specs.Reads.{Gives, GivesField, GivesFields};

use crate::chain::{Chain, are_bytes, fault_in};
use crate::fault::{FieldError, PageFault, PageRule};
use crate::field::{read_number_above, read_u32};
use body_codec::Flaw;
use std::alloc::Global;

// The number of the last leaf, where there is one.
fn last_number(before: &[(u64, u32)]) -> Option<u64>
    ensures { result ≡ option_map (λ (entry : ℕ × ℕ). entry.0) (last_of before.now) }
{
    match before.last() {
        Some(entry) => Some(entry.0),
        None => None,
    }
}

// An entry, whose leaf's number is above those before it.
#[tactic(auto, unfolding(crate::specs::Contents::entry_at, body_codec::specs::Reading::both_at))]
fn read_entry<'a>(before: &[(u64, u32)], bytes: &'a [u8]) -> Result<((u64, u32), &'a [u8]), Flaw>
    ensures { GivesField (λ x. (x.0, x.1.now)) result (entry_at before.now bytes.now) }
{
    let (number, rest) = read_number_above(last_number(before), bytes)?;
    let (page, rest) = read_u32(rest)?;
    Ok(((number, page), rest))
}

fn read_entries(
    alloc: Global,
    count: u32,
    bytes: &[u8],
) -> Result<(Vec<(u64, u32)>, &[u8]), FieldError>
    ensures { GivesFields (λ x. (x.0.items, x.1.now)) result
        (items_after entry_at count [] bytes.now) }
{
    let mut entries = Vec::new(alloc);
    let mut rest = bytes;
    for _ in 0..count {
        let (entry, after) = read_entry(entries.as_slice(), rest)?;
        entries.push(entry)?;
        rest = after;
    }
    Ok((entries, rest))
}

#[tactic(auto, unfolding(body_codec::specs::Reading::long_at))]
fn read_all(alloc: Global, bytes: &[u8]) -> Result<(Vec<(u64, u32)>, &[u8]), FieldError>
    ensures { GivesFields (λ x. (x.0.items, x.1.now)) result (long_at entry_at bytes.now) }
{
    let (count, rest) = read_u32(bytes)?;
    read_entries(alloc, count, rest)
}

// The entries of the directory that a chain holds.
#[tactic(auto, unfolding(crate::specs::Contents::directory_of))]
pub(crate) fn read_directory(alloc: Global, chain: &Chain) -> Result<Vec<(u64, u32)>, PageFault>
    ensures entries { Gives (λ entries. entries.items) result (directory_of chain.now) }
    ensures stored { IfOk result (λ entries. AreEntries entries.items) }
    ensures long { IfOk result (λ entries.
        length chain.now.payload ≡ 4 + 12 * length entries.items) }
    ensures no_disk { IfErr result (λ fault. fault ≢ PageFault.Disk) }
{
    let payload: &[u8] = &chain.payload;
    are_bytes(payload);
    match read_all(alloc, payload) {
        Ok((entries, [])) => Ok(entries),
        Ok((_, rest)) => Err(fault_in(chain, rest.len(), PageRule::Directory)),
        Err(FieldError::Broken(flaw)) => Err(fault_in(chain, flaw.left, PageRule::Directory)),
        Err(FieldError::NoMemory) => Err(PageFault::NoMemory),
    }
}
