//! What a commit changes.
ghost use Rattle.std.specs.Prelude.{◌≡◌, ◌↔◌, ◌++◌, ◌∷◌, [], ◌<◌, ◌≤◌, ◌+◌, ◌*◌, ◌^◌, All, IsTrue, length, map, option_copied, IfOk, OnOk};
ghost use Rattle.std.specs.Ordering.{nat_cmp};
ghost use Rattle.std.specs.BTreeMap.{insert_entry};
ghost use Rattle.gem_object.specs.Spelling.{IsSpelled};
ghost use Rattle.gem_image.specs.Image.{with_objects};
ghost use Rattle.gem_record.specs.gem_update.Spelling.{entries_of};
ghost use Rattle.gem_meaning.specs.Effect.{kept_objects, stamped, by_name};
ghost use Rattle.gem_record.specs.Effects.{log_record_size};
ghost use Rattle.tran_log.specs.Log.{spelled_record};
ghost use Rattle.stone_core.specs.Effects.{named, found_in};

use body_codec::laws::length_is_size;
use body_codec::write_effect;
use gem_image::Image;
use gem_object::{Body, Object, Oid};
use gem_record::{ByName, Effect, Mode, TxnRecord};
use kept_set::kept;
use radix_pages::Steps;
use std::alloc::{AllocError, Global};
use std::collections::BTreeMap;
use std::sync::ledger::Ledger;
use tran_log::spell_body;

/// The effect of the commit with this number: what its transaction wrote, the made objects that are
/// kept, and what the merges of its updates made, by name, each changed by this commit.
///
/// The work is that of the search for the kept objects, and for each object of the effect a copy
/// and a few binary searches; the contract doesn't say so.
///
/// # Errors
///
/// `AllocError` where memory ran out.
pub fn effect_of(
    alloc: Global,
    number: u64,
    done: &TxnRecord,
    merged: ByName<Object>,
) -> Result<Effect, AllocError>
    ensures number { IfOk result (λ effect. effect.number ≡ number) }
    ensures objects { IfOk result (λ effect. effect.objects ≡ by_name (map (stamped number)
        (done.now.written ++ (kept_objects done.now ++ merged)))) }
{
    let mut changed = Vec::new(alloc);
    push_all(&mut changed, done.written.as_slice())?;
    push_kept(alloc, &mut changed, done)?;
    changed.append(&mut merged.into_entries())?;
    Ok(Effect {
        number,
        objects: stamped_by_name(alloc, number, changed)?,
    })
}

/// The image after the effect: its objects at their names, and all else as here. An object builds
/// at most 8 nodes, however many there are in the image.
///
/// # Errors
///
/// `AllocError` where memory ran out.
pub(crate) fn next_image<L: Ledger>(
    alloc: Global,
    image: &Image,
    effect: Effect,
    steps: &mut Steps<L>,
) -> Result<Image, AllocError>
    requires { All (λ entry. IsSpelled entry.1) effect.objects }
    ensures image { IfOk result (λ next. next ≡ with_objects image.now effect.objects) }
    ensures nodes { steps.new ≤ steps.old + 8 * length effect.objects }
{
    image.with_all(alloc, effect.objects.into_entries(), steps)
}

/// The bytes of the record in the log of the effect, in this mode, with the gate behind it.
///
/// # Errors
///
/// `AllocError` where memory ran out, or where the effect has no object: then it has no record.
pub(crate) fn body_of(alloc: Global, mode: Mode, effect: &Effect) -> Result<Vec<u8>, AllocError>
    ensures body { IfOk result (λ body.
        body.items ≡ spelled_record mode effect.now ++ 0 ∷ []) }
    ensures size { IfOk result (λ body. length body.items ≡ log_record_size effect.now) }
    ensures some { IfOk result (λ _. 0 < length effect.now.objects) }
{
    length_is_size();
    if effect.objects.as_slice().is_empty() {
        return Err(AllocError);
    }
    let spelled = write_effect(alloc, effect)?;
    spell_body(alloc, effect.number, mode, &spelled)
}

/// Whether each of the merged objects can be stored: each has fewer than 2^32 pairs or items.
pub(crate) fn fit(merged: &[(Oid, Object)]) -> bool
    ensures { IsTrue result ↔ All (λ entry. entries_of entry.1.body < 2 ^ 32) merged.now }
{
    for entry in merged {
        if entry_count(&entry.1.body) >= 1 << 32 {
            return false;
        }
    }
    true
}

fn entry_count(body: &Body) -> u64
    ensures { result ≡ entries_of body.now }
{
    match body {
        Body::Bag(bag) => bag.pairs().len() as u64,
        Body::RcDict(dict) => dict.pairs().len() as u64,
        Body::Queue(queue) => queue.size(),
        _ => 0,
    }
}

fn push_all(changed: &mut Vec<(Oid, Object)>, objects: &[(Oid, Object)]) -> Result<(), AllocError>
    ensures { OnOk result (changed.new.items ≡ changed.old.items ++ objects.now) }
{
    for entry in objects {
        changed.push((entry.0, entry.1.clone()?))?;
    }
    Ok(())
}

// Adds the made objects that are kept.
fn push_kept(
    alloc: Global,
    changed: &mut Vec<(Oid, Object)>,
    done: &TxnRecord,
) -> Result<(), AllocError>
    ensures { OnOk result (changed.new.items ≡ changed.old.items ++ kept_objects done.now) }
{
    let names = kept(
        alloc,
        done.written.as_slice(),
        done.made.as_slice(),
        done.updates.as_slice(),
    )?;
    push_found(changed, &names, &done.made)
}

// Adds the objects of these names that are there.
fn push_found(
    changed: &mut Vec<(Oid, Object)>,
    names: &[Oid],
    objects: &ByName<Object>,
) -> Result<(), AllocError>
    ensures { OnOk result
        (changed.new.items ≡ changed.old.items ++ found_in objects.now names.now) }
{
    for name in names {
        push_some(changed, *name, objects.find(*name))?;
    }
    Ok(())
}

fn push_some(
    changed: &mut Vec<(Oid, Object)>,
    name: Oid,
    object: Option<&Object>,
) -> Result<(), AllocError>
    ensures { OnOk result
        (changed.new.items ≡ changed.old.items ++ named name (option_copied object.entry)) }
{
    if let Some(object) = object {
        changed.push((name, object.clone()?))?;
    }
    Ok(())
}

// The objects by name, each changed by the commit with this number. Of two at one name the first
// one counts.
fn stamped_by_name(
    alloc: Global,
    number: u64,
    changed: Vec<(Oid, Object)>,
) -> Result<ByName<Object>, AllocError>
    ensures { IfOk result (λ objects.
        objects ≡ by_name (map (stamped number) changed.items)) }
{
    let stamped = stamp_all(alloc, number, changed)?;
    let mut entries = Vec::new(alloc);
    for entry in stamped {
        entries.push(entry)?;
    }
    Ok(ByName::of(entries))
}

// The same as a map. It begins with the last object, so that the first one stays.
fn stamp_all(
    alloc: Global,
    number: u64,
    mut changed: Vec<(Oid, Object)>,
) -> Result<BTreeMap<Oid, Object>, AllocError>
    ensures { IfOk result (λ objects.
        objects.entries ≡ by_name (map (stamped number) changed.items)) }
{
    let mut objects = BTreeMap::new(alloc);
    while let Some(entry) = changed.pop() {
        stamp(&mut objects, number, entry)?;
    }
    Ok(objects)
}

fn stamp(
    objects: &mut BTreeMap<Oid, Object>,
    number: u64,
    entry: (Oid, Object),
) -> Result<(), AllocError>
    ensures { OnOk result (objects.new.entries
        ≡ insert_entry nat_cmp objects.old.entries entry.0 (stamped number entry).1) }
{
    let (name, mut object) = entry;
    object.changed = number;
    objects.insert(name, object)?;
    Ok(())
}
