//! The leaves of an extent.
ghost use Rattle.std.specs.Prelude.{◌≡◌, ◌≢◌, ◌<◌, ◌^◌, ℕ, [], IfOk, IfErr, option_map};
ghost use Rattle.gem_object.specs.declared.object.Object.{Object};
ghost use Rattle.body_codec.specs.Reading.{last_of};
ghost use Rattle.body_codec.specs.ReadingBodies.{object_at};
ghost use Rattle.extent_pages.specs.declared.fault.PageRule.TheVariants as rule;
ghost use Rattle.extent_pages.specs.Contents.{with_rule, count_at, leaf_name_at, leaf_object_at, objects_after, leaf_at, leaf_of};
ghost use Rattle.extent_pages.specs.Spelled.{spelled_leaf};
ghost use Rattle.extent_pages.specs.Stored.{AreOfLeaf};
ghost use Rattle.extent_pages.specs.Reads.{Gives, GivesPart};

use crate::chain::{Chain, are_bytes, fault_in};
use crate::fault::{PageFault, PageRule, PartError};
use crate::field::{read_byte, read_name_above};
use body_codec::{BodyFault, read_object};
use gem_object::{Object, Oid};
use std::alloc::Global;
use std::marker::Model;

/// How many names a leaf may have objects at. The number of a leaf is that of each of its names,
/// divided by this.
pub const LEAF_SIZE: u64 = 64;

/// A leaf of an extent.
///
/// Contracts see it as the number, the list of the pages and the list of the objects, by their
/// names.
#[derive(Debug, Drop)]
pub struct Leaf {
    /// The number, which is that of each name divided by `LEAF_SIZE`.
    pub number: u64,
    /// The pages of its chain, in the chain's order.
    pub pages: Vec<u32>,
    /// Its objects behind their names, which ascend.
    pub objects: Vec<(Oid, Object)>,
}

impl Model for Leaf {
    ghost use Rattle.extent_pages.specs.Extent.{Leaf};

    ghost Value = { Leaf };

    ghost view = { λ leaf. record {
      number = leaf.number;
      pages = leaf.pages.items;
      objects = leaf.objects.items;
    } };
}

// The number of objects that a leaf has.
#[tactic(auto, unfolding(crate::specs::Contents::count_at))]
fn read_count(bytes: &[u8]) -> Result<(u8, &[u8]), PartError>
    ensures { GivesPart (λ x. (x.0, x.1.now)) result (count_at bytes.now) }
{
    match read_byte(bytes) {
        Ok((count, rest)) if 1 <= count && (count as u64) <= LEAF_SIZE => Ok((count, rest)),
        Ok(_) => Err(PartError::Broken {
            left: bytes.len(),
            rule: PageRule::Leaf,
        }),
        Err(flaw) => Err(PartError::Broken {
            left: flaw.left,
            rule: PageRule::Leaf,
        }),
    }
}

// The last name, where there is one.
fn last_name(before: &[(Oid, Object)]) -> Option<u64>
    ensures { result ≡ option_map (λ (entry : ℕ × Object). entry.0) (last_of before.now) }
{
    match before.last() {
        Some(entry) => Some(entry.0.number()),
        None => None,
    }
}

// A name of the leaf of this number, above those before it.
#[tactic(auto, unfolding(crate::specs::Contents::leaf_name_at))]
fn read_leaf_name<'a>(
    leaf: u64,
    before: &[(Oid, Object)],
    bytes: &'a [u8],
) -> Result<(u64, &'a [u8]), PartError>
    ensures name { GivesPart (λ x. (x.0, x.1.now)) result (leaf_name_at leaf before.now bytes.now) }
    ensures bound { IfOk result (λ x. x.0 < 2 ^ 48) }
{
    match read_name_above(last_name(before), bytes) {
        Ok((name, rest)) if name / LEAF_SIZE == leaf => Ok((name, rest)),
        Ok(_) => Err(PartError::Broken {
            left: bytes.len(),
            rule: PageRule::Leaf,
        }),
        Err(flaw) => Err(PartError::Broken {
            left: flaw.left,
            rule: PageRule::Leaf,
        }),
    }
}

// The bytes of an object.
fn read_body(alloc: Global, bytes: &[u8]) -> Result<(Object, &[u8]), PartError>
    ensures { GivesPart (λ x. (x.0, x.1.now)) result
        (with_rule rule.Object (object_at 0 bytes.now)) }
{
    match read_object(alloc, bytes) {
        Ok((object, size)) => {
            let (_, rest) = bytes.split_at(size);
            Ok((object, rest))
        }
        Err(BodyFault::Bad { at, .. }) => Err(PartError::Broken {
            left: bytes.len() - at as usize,
            rule: PageRule::Object,
        }),
        Err(BodyFault::NoMemory) => Err(PartError::NoMemory),
    }
}

// The name of this number.
fn name_of(number: u64) -> Oid
    requires { number < 2 ^ 48 }
    ensures { result ≡ number }
{
    let Some(oid) = Oid::of(number) else {
        unreachable!()
    };
    oid
}

// An object behind its name.
#[tactic(auto, unfolding(crate::specs::Contents::leaf_object_at))]
fn read_leaf_object<'a>(
    alloc: Global,
    leaf: u64,
    before: &[(Oid, Object)],
    bytes: &'a [u8],
) -> Result<((Oid, Object), &'a [u8]), PartError>
    ensures { GivesPart (λ x. (x.0, x.1.now)) result (leaf_object_at leaf before.now bytes.now) }
{
    let (name, rest) = read_leaf_name(leaf, before, bytes)?;
    let (object, rest) = read_body(alloc, rest)?;
    Ok(((name_of(name), object), rest))
}

fn read_objects(
    alloc: Global,
    leaf: u64,
    count: u8,
    bytes: &[u8],
) -> Result<(Vec<(Oid, Object)>, &[u8]), PartError>
    ensures { GivesPart (λ x. (x.0.items, x.1.now)) result
        (objects_after leaf count [] bytes.now) }
{
    let mut objects = Vec::new(alloc);
    let mut rest = bytes;
    for _ in 0..count {
        let (object, after) = read_leaf_object(alloc, leaf, objects.as_slice(), rest)?;
        objects.push(object)?;
        rest = after;
    }
    Ok((objects, rest))
}

#[tactic(auto, unfolding(crate::specs::Contents::leaf_at))]
fn read_all(
    alloc: Global,
    leaf: u64,
    bytes: &[u8],
) -> Result<(Vec<(Oid, Object)>, &[u8]), PartError>
    ensures { GivesPart (λ x. (x.0.items, x.1.now)) result (leaf_at leaf bytes.now) }
{
    let (count, rest) = read_count(bytes)?;
    read_objects(alloc, leaf, count, rest)
}

// The objects of the leaf of this number that a chain holds.
#[tactic(auto, unfolding(crate::specs::Contents::leaf_of))]
pub(crate) fn read_leaf(
    alloc: Global,
    leaf: u64,
    chain: &Chain,
) -> Result<Vec<(Oid, Object)>, PageFault>
    ensures objects { Gives (λ objects. objects.items) result (leaf_of leaf chain.now) }
    ensures stored { IfOk result (λ objects. AreOfLeaf leaf objects.items) }
    ensures spelled { IfOk result (λ objects. chain.now.payload ≡ spelled_leaf objects.items) }
    ensures no_disk { IfErr result (λ fault. fault ≢ PageFault.Disk) }
{
    let payload: &[u8] = &chain.payload;
    are_bytes(payload);
    match read_all(alloc, leaf, payload) {
        Ok((objects, [])) => Ok(objects),
        Ok((_, rest)) => Err(fault_in(chain, rest.len(), PageRule::Leaf)),
        Err(PartError::Broken { left, rule }) => Err(fault_in(chain, left, rule)),
        Err(PartError::NoMemory) => Err(PageFault::NoMemory),
    }
}
