//! Items behind their number.
ghost use Rattle.std.specs.Prelude.{◌≡◌, ℕ, List, [], Result, option_copied, is_some};
ghost use Rattle.gem_object.specs.insertion_map.Pairs.{entry_of};
ghost use Rattle.gem_object.specs.Order.{same_value};
ghost use Rattle.body_codec.specs.declared.fault.Flaw.{Flaw};
ghost use Rattle.body_codec.specs.Reading.{Gives, is_above, items_after, short_at, long_at, some_at};
ghost use Rattle.body_codec.specs.ReadingBodies.{new_key_at, pair_at};

use crate::fault::{BodyRule, ReadError, breaks};
use crate::read::{read_key, read_u16, read_u32, read_value};
use gem_object::{Dictionary, Value};
use std::alloc::Global;

// Reads the items of a list, each with those before it at hand.
pub(crate) trait ItemReader {
    type Item: Drop;

    ghost item_at: { Self → List Self.Item → List ℕ → Result (Self.Item × List ℕ) Flaw };

    fn read<'a>(
        &self,
        alloc: Global,
        before: &[Self::Item],
        bytes: &'a [u8],
    ) -> Result<(Self::Item, &'a [u8]), ReadError>
        ensures { Gives (λ x. (x.0, x.1.now)) result (item_at self.now before.now bytes.now) };
}

// Whether the key is above the one before it, where there is one.
pub(crate) fn is_above<K: Ord>(last: Option<&K>, key: &K) -> bool
    ensures { result ≡ is_above K.cmp (option_copied last.entry) key.now }
{
    match last {
        Some(last) => last.cmp(key).is_lt(),
        None => true,
    }
}

fn read_items<'a, R: ItemReader>(
    reader: &R,
    alloc: Global,
    count: u64,
    bytes: &'a [u8],
) -> Result<(Vec<R::Item>, &'a [u8]), ReadError>
    ensures { Gives (λ x. (x.0.items, x.1.now)) result
        (items_after (R.item_at reader.now) count [] bytes.now) }
{
    let mut items = Vec::new(alloc);
    let mut rest = bytes;
    for _ in 0..count {
        let (item, after) = reader.read(alloc, items.as_slice(), rest)?;
        items.push(item)?;
        rest = after;
    }
    Ok((items, rest))
}

#[tactic(auto, unfolding(crate::specs::Reading::short_at))]
pub(crate) fn read_short<'a, R: ItemReader>(
    reader: &R,
    alloc: Global,
    bytes: &'a [u8],
) -> Result<(Vec<R::Item>, &'a [u8]), ReadError>
    ensures { Gives (λ x. (x.0.items, x.1.now)) result
        (short_at (R.item_at reader.now) bytes.now) }
{
    let (count, rest) = read_u16(bytes)?;
    read_items(reader, alloc, count as u64, rest)
}

#[tactic(auto, unfolding(crate::specs::Reading::long_at))]
pub(crate) fn read_long<'a, R: ItemReader>(
    reader: &R,
    alloc: Global,
    bytes: &'a [u8],
) -> Result<(Vec<R::Item>, &'a [u8]), ReadError>
    ensures { Gives (λ x. (x.0.items, x.1.now)) result
        (long_at (R.item_at reader.now) bytes.now) }
{
    let (count, rest) = read_u32(bytes)?;
    read_items(reader, alloc, count as u64, rest)
}

// The same where there has to be an item.
#[tactic(auto, unfolding(crate::specs::Reading::some_at))]
pub(crate) fn read_some<'a, R: ItemReader>(
    reader: &R,
    alloc: Global,
    bytes: &'a [u8],
) -> Result<(Vec<R::Item>, &'a [u8]), ReadError>
    ensures { Gives (λ x. (x.0.items, x.1.now)) result
        (some_at (R.item_at reader.now) bytes.now) }
{
    let (count, rest) = read_u32(bytes)?;
    if count == 0 {
        return Err(breaks(bytes, BodyRule::Range));
    }
    read_items(reader, alloc, count as u64, rest)
}
