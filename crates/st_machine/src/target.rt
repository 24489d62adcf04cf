//! What answers a message.
ghost use Rattle.std.specs.Prelude.{◌≡◌, true, false, IfOk, IfSome, Some, option_copied};
ghost use Rattle.gem_language.specs.Commands.{selector_of};
ghost use Rattle.gem_language.specs.LookUp.{find_method};
ghost use Rattle.look_up_cache.specs.Table.{held_at};
ghost use Rattle.st_machine.specs.Parts.{framed};
ghost use Rattle.st_machine.specs.Targets.{target_for, IsCallable, LeadsTo, UnitThen};
ghost use Rattle.st_machine.specs.declared.target.Target.TheVariants.{Method};

use crate::border::{find_above, place_of_method};
use crate::cache::CodeCache;
use crate::finds::FindsMethods;
use crate::layers::Layers;
use crate::locals::Locals;
use crate::outline::Outline;
use crate::shared_code::SharedCode;
use gem_language::Found;
use gem_object::{MethodCode, Oid, Text, Value};
use running_objects::{Objects, Stop};
use std::alloc::{AllocError, Global};
use tree_meaning::Mark;

/// What answers a message.
#[derive(Drop)]
pub(crate) enum Target {
    /// No method, or one whose source has no tree: E1.
    Nothing,
    /// The primitive of this number.
    Primitive(u8),
    /// The method of this code: this class holds it, on its class side or not.
    Method(SharedCode, Oid, bool),
}

/// A method whose code is kept with its look-up: this class holds it, on its class side or not.
#[derive(Drop)]
pub(crate) struct KeptMethod {
    pub(crate) code: SharedCode,
    pub(crate) holder: Oid,
    pub(crate) class_side: bool,
}

/// What answers a message with this selector to the receiver. The code of a method that is kept
/// with its look-up isn't asked for again.
pub(crate) fn target_of<O: FindsMethods>(
    alloc: Global,
    objects: &mut O,
    locals: &Locals,
    chain: &Layers<Mark>,
    cache: &mut CodeCache,
    to_super: bool,
    frame: &Outline,
    receiver: &Value,
    selector: &Text,
) -> Result<Target, Stop>
    ensures leads { LeadsTo (find_method to_super (framed chain.now.own frame.now) receiver.now
        selector.now) (O.seen objects.old) locals.now result (O.seen objects.new) }
    ensures callable { IfOk result IsCallable }
{
    if to_super {
        target_above(
            alloc, objects, locals, chain, cache, frame, receiver, selector,
        )
    } else {
        target_known(
            alloc, objects, locals, chain, cache, frame, receiver, selector,
        )
    }
}

/// The same of a message to `super`.
fn target_above<O: Objects>(
    alloc: Global,
    objects: &mut O,
    locals: &Locals,
    chain: &Layers<Mark>,
    cache: &mut CodeCache,
    frame: &Outline,
    receiver: &Value,
    selector: &Text,
) -> Result<Target, Stop>
    ensures leads { LeadsTo (find_method true (framed chain.now.own frame.now) receiver.now
        selector.now) (O.seen objects.old) locals.now result (O.seen objects.new) }
    ensures callable { IfOk result IsCallable }
{
    let found = find_above(objects, locals, chain, frame, receiver, selector)?;
    Ok(target_for(alloc, cache, found.as_ref())?)
}

/// The same of any other message.
fn target_known<O: FindsMethods>(
    alloc: Global,
    objects: &mut O,
    locals: &Locals,
    chain: &Layers<Mark>,
    cache: &mut CodeCache,
    frame: &Outline,
    receiver: &Value,
    selector: &Text,
) -> Result<Target, Stop>
    ensures leads { LeadsTo (find_method false (framed chain.now.own frame.now) receiver.now
        selector.now) (O.seen objects.old) locals.now result (O.seen objects.new) }
    ensures callable { IfOk result IsCallable }
{
    let at = place_of_method(objects, locals, chain, frame, receiver, selector)?;
    Ok(target_at(alloc, objects, cache, at)?)
}

/// What answers by the method that stands at a place, and then the unit of the message.
#[tactic(auto, using(running_objects::proofs::Running::acted_nothing))]
#[inline(always)]
pub(crate) fn target_with_unit<O: FindsMethods>(
    alloc: Global,
    objects: &mut O,
    cache: &mut CodeCache,
    at: usize,
) -> Result<Target, Stop>
    ensures target { UnitThen (target_for (held_at (O.founds objects.old) at)) (O.seen objects.old)
        result (O.seen objects.new) }
    ensures callable { IfOk result IsCallable }
{
    let target = target_at(alloc, objects, cache, at)?;
    objects.tick()?;
    Ok(target)
}

/// What answers by the method that was found.
fn target_for(
    alloc: Global,
    cache: &mut CodeCache,
    found: Option<&Found>,
) -> Result<Target, AllocError>
    ensures target { IfOk result (λ target. target ≡ target_for (option_copied found.entry)) }
    ensures callable { IfOk result IsCallable }
{
    let Some(found) = found else {
        return Ok(Target::Nothing);
    };
    match &found.code {
        MethodCode::Primitive(number) => Ok(Target::Primitive(*number)),
        MethodCode::Source(source) => match cache.code_of(alloc, source)? {
            Some(code) => Ok(Target::Method(code, found.holder, found.class_side)),
            None => Ok(Target::Nothing),
        },
    }
}

/// What answers by the method that stands at a place, whose code is kept there.
#[inline(always)]
fn target_at<O: FindsMethods>(
    alloc: Global,
    objects: &mut O,
    cache: &mut CodeCache,
    at: usize,
) -> Result<Target, AllocError>
    ensures target { IfOk result (λ target. target ≡ target_for (held_at (O.founds objects.old) at)) }
    ensures callable { IfOk result IsCallable }
    ensures same { objects.new ≡ objects.old }
{
    if let Some(target) = kept_target(objects, at)? {
        return Ok(target);
    }
    let target = target_for(alloc, cache, objects.found(at))?;
    if let Target::Method(code, _, _) = &target {
        objects.keep_code(at, code.share()?);
    }
    Ok(target)
}

/// The same where it is known without the cache.
fn kept_target<O: FindsMethods>(objects: &O, at: usize) -> Result<Option<Target>, AllocError>
    ensures target { IfOk result (λ known. IfSome known (λ target.
        target ≡ target_for (held_at (O.founds objects.now) at))) }
    ensures callable { IfOk result (λ known. IfSome known IsCallable) }
{
    let Some(found) = objects.found(at) else {
        return Ok(Some(Target::Nothing));
    };
    match &found.code {
        MethodCode::Primitive(number) => Ok(Some(Target::Primitive(*number))),
        MethodCode::Source(_) => match objects.code(at) {
            Some(code) => Ok(Some(Target::Method(code.share()?, found.holder, found.class_side))),
            None => Ok(None),
        },
    }
}

/// The method that stands at a place, where its code is kept there.
#[inline(always)]
pub(crate) fn kept_method<O: FindsMethods>(objects: &O, at: usize) -> Option<KeptMethod>
    ensures target { IfSome result (λ kept. Method kept.code kept.holder kept.class_side
        ≡ target_for (held_at (O.founds objects.now) at)) }
    ensures callable { IfSome result (λ kept. kept.code.selector ≡ Some (selector_of kept.code)) }
{
    let found = objects.found(at)?;
    match &found.code {
        MethodCode::Primitive(_) => None,
        MethodCode::Source(_) => {
            let code = objects.code(at)?;
            let code = code.share().ok()?;
            Some(KeptMethod {
                code,
                holder: found.holder,
                class_side: found.class_side,
            })
        }
    }
}
