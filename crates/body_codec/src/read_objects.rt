//! Objects and effects from bytes.
ghost use Rattle.std.specs.Prelude.{◌≡◌, ◌⊎◌, ℕ, ◌<◌, ◌≤◌, ◌^◌, length, Ok, Err, IfOk, IsErrOf, option_copied};
ghost use Rattle.std.specs.Ordering.{nat_cmp};
ghost use Rattle.body_codec.specs.declared.fault.BodyRule.{BodyRule};
ghost use Rattle.body_codec.specs.Stored.{IsStored, IsStoredEffect};
ghost use Rattle.body_codec.specs.Spelled.{spelled_object, spelled_effect};
ghost use Rattle.body_codec.specs.Reading.{Gives, above_at, name_at, some_at};
ghost use Rattle.body_codec.specs.ReadingBodies.{object_at, changed_at, effect_at};
ghost use Rattle.body_codec.specs.Answers.{IsRead, NoneIsRead, IsFirstFault, fault_of};
ghost use Rattle.body_codec.specs.declared.fault.Flaw.{Flaw};

use crate::fault::{BodyFault, BodyRule, Flaw, ReadError, breaks};
use crate::read::{name_of, read_name};
use crate::read_bodies::read_body;
use crate::read_items::{ItemReader, is_above, read_some};
use gem_object::{Object, Oid};
use gem_record::{ByName, Effect};
use std::alloc::Global;

// The objects of an effect, which the commit of this number changed.
#[derive(Drop)]
struct ChangedBy {
    number: u64,
}

#[tactic(auto, unfolding(crate::specs::ReadingBodies::object_at, crate::specs::Reading::both_at))]
fn object_from(alloc: Global, number: u64, bytes: &[u8]) -> Result<(Object, &[u8]), ReadError>
    ensures { Gives (λ x. (x.0, x.1.now)) result (object_at number bytes.now) }
{
    let (class, rest) = read_name(bytes)?;
    let (segment, rest) = read_name(rest)?;
    let (body, rest) = read_body(alloc, rest)?;
    let object = Object {
        class: name_of(class),
        segment: name_of(segment),
        changed: number,
        body,
    };
    Ok((object, rest))
}

// A name that has to be above the one before it.
#[tactic(auto, unfolding(crate::specs::Reading::above_at))]
fn read_name_above<'a>(last: Option<&Oid>, bytes: &'a [u8]) -> Result<(u64, &'a [u8]), ReadError>
    ensures name { Gives (λ x. (x.0, x.1.now)) result
        (above_at nat_cmp (option_copied last.entry) name_at bytes.now) }
    ensures bound { IfOk result (λ x. x.0 < 2 ^ 48) }
{
    let (number, rest) = read_name(bytes)?;
    if is_above(last, &name_of(number)) {
        Ok((number, rest))
    } else {
        Err(breaks(bytes, BodyRule::Order))
    }
}

impl ItemReader for ChangedBy {
    type Item = (Oid, Object);

    ghost item_at = { λ r. changed_at r.number };

    #[tactic(auto, unfolding(crate::specs::ReadingBodies::changed_at, crate::specs::Reading::both_at))]
    fn read<'a>(
        &self,
        alloc: Global,
        before: &[(Oid, Object)],
        bytes: &'a [u8],
    ) -> Result<((Oid, Object), &'a [u8]), ReadError> {
        let last = match before.last() {
            Some(changed) => Some(&changed.0),
            None => None,
        };
        let (number, rest) = read_name_above(last, bytes)?;
        let (object, rest) = object_from(alloc, self.number, rest)?;
        Ok(((name_of(number), object), rest))
    }
}

#[tactic(auto, unfolding(crate::specs::ReadingBodies::effect_at))]
fn effect_from(alloc: Global, number: u64, bytes: &[u8]) -> Result<(Effect, &[u8]), ReadError>
    ensures { Gives (λ x. (x.0, x.1.now)) result (effect_at number bytes.now) }
{
    let (objects, rest) = read_some(&ChangedBy { number }, alloc, bytes)?;
    let effect = Effect {
        number,
        objects: ByName::of(objects),
    };
    Ok((effect, rest))
}

// What is told of an error in reading these bytes.
fn fault_of(bytes: &[u8], error: ReadError) -> BodyFault
    requires { (flaw : Flaw) → error ≡ ReadError.Flaw flaw → flaw.left ≤ length bytes.now }
    ensures { result ≡ fault_of (length bytes.now) error }
{
    match error {
        ReadError::Memory => BodyFault::NoMemory,
        ReadError::Flaw(flaw) => BodyFault::Bad {
            at: (bytes.len() - flaw.left) as u64,
            rule: flaw.rule,
        },
    }
}

/// The object whose spelling the bytes begin with, and how long the spelling is. What stands behind
/// it isn't looked at. The number of the commit that changed the object isn't in the bytes; it is
/// given as 0.
///
/// `Bad`: the bytes begin with no spelling of an object. `NoMemory` may come in place of any
/// answer.
pub fn read_object(alloc: Global, bytes: &[u8]) -> Result<(Object, usize), BodyFault>
    ensures read { IfOk result (λ read.
        IsRead (IsStored 0) spelled_object bytes.now read.0 read.1) }
    ensures fault { (at : ℕ) (rule : BodyRule) → result ≡ Err (BodyFault.Bad at rule)
        → IsFirstFault (object_at 0) bytes.now at rule
        × NoneIsRead (IsStored 0) spelled_object bytes.now }
    ensures reads { (object : Object) (size : ℕ)
        → IsRead (IsStored 0) spelled_object bytes.now object size
        → (result ≡ Ok (object, size)) ⊎ (result ≡ Err BodyFault.NoMemory) }
    ensures refuses { (at : ℕ) (rule : BodyRule) → IsFirstFault (object_at 0) bytes.now at rule
        → (result ≡ Err (BodyFault.Bad at rule)) ⊎ (result ≡ Err BodyFault.NoMemory) }
{
    match object_from(alloc, 0, bytes) {
        Ok((object, rest)) => Ok((object, bytes.len() - rest.len())),
        Err(error) => Err(fault_of(bytes, error)),
    }
}

/// The effect of the commit of this number, whose spelling the bytes begin with, and how long the
/// spelling is. What stands behind it isn't looked at.
///
/// `Bad`: the bytes begin with no spelling of an effect. `NoMemory` may come in place of any
/// answer.
pub fn read_effect(alloc: Global, bytes: &[u8], number: u64) -> Result<(Effect, usize), BodyFault>
    ensures read { IfOk result (λ read.
        IsRead (IsStoredEffect number) spelled_effect bytes.now read.0 read.1) }
    ensures fault { (at : ℕ) (rule : BodyRule) → result ≡ Err (BodyFault.Bad at rule)
        → IsFirstFault (effect_at number) bytes.now at rule
        × NoneIsRead (IsStoredEffect number) spelled_effect bytes.now }
    ensures reads { (effect : Effect) (size : ℕ)
        → IsRead (IsStoredEffect number) spelled_effect bytes.now effect size
        → (result ≡ Ok (effect, size)) ⊎ (result ≡ Err BodyFault.NoMemory) }
    ensures refuses { (at : ℕ) (rule : BodyRule)
        → IsFirstFault (effect_at number) bytes.now at rule
        → (result ≡ Err (BodyFault.Bad at rule)) ⊎ (result ≡ Err BodyFault.NoMemory) }
{
    match effect_from(alloc, number, bytes) {
        Ok((effect, rest)) => Ok((effect, bytes.len() - rest.len())),
        Err(error) => Err(fault_of(bytes, error)),
    }
}
