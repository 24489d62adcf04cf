//! Instructions for variables, for names out of scope and for new blocks.
ghost use Rattle.std.specs.Prelude.{◌≡◌, IfOk, Ok};
ghost use Rattle.gem_language.specs.OutOfScope.{read_out_of_scope};
ghost use Rattle.gem_language.specs.Sends.{outside};
ghost use Rattle.running_objects.specs.Seen.{Keeps};
ghost use Rattle.running_objects.specs.Ran.{Ran};
ghost use Rattle.st_compiler.specs.Instruction.{PushLocal, StoreLocal, PushName, StoreName, PushBlock};
ghost use Rattle.st_machine.specs.Changed.{IfChanged};
ghost use Rattle.st_machine.specs.Led.{AskedBy, IsAhead, TurnedBy, TurnsForward, IfDone, IfLeft};
ghost use Rattle.st_machine.specs.Parts.{framed, table_of};
ghost use Rattle.st_machine.specs.Targets.{Answered, AnswersAt};
ghost use Rattle.st_machine.specs.declared.changed.Changed.TheVariants as changed;
ghost use Rattle.st_machine.specs.declared.names.Put.TheVariants.{Stands, Unknown};

use crate::border::{known_variable, read_name, set_known_variable, write_name};
use crate::changed::Changed;
use crate::code_block::CodeBlock;
use crate::finds::FindsMethods;
use crate::flow::{Asked, Turn, Turned};
use crate::layers::Layers;
use crate::locals::Locals;
use crate::outline::Outline;
use crate::places::next_of;
use crate::pushes::push_copy;
use crate::scopes::scope_number;
use crate::shared_code::SharedCode;
use gem_object::{BlockRef, Text, Value};
use running_objects::{Objects, Stop};
use st_locals::count_params;
use std::alloc::{AllocError, Global};
use tree_meaning::Mark;

/// Puts a variable.
#[tactic(auto, unfolding(tree_meaning::specs::Scopes::variable_value))]
pub(crate) fn push_local<O: Objects>(
    objects: &O,
    locals: &Locals,
    stack: &mut Layers<Value>,
    chain: &Layers<Mark>,
    frame: &Outline,
    code: &SharedCode,
    scope: usize,
    index: usize,
    place: usize,
    depth: u32,
) -> Result<Turn, AllocError>
    ensures led { TurnedBy (outside depth) (table_of code.now) (PushLocal scope index) place
        stack.old.own chain.now.own frame.now (O.seen objects.now) locals.now result stack.new.own
        chain.now.own (O.seen objects.now) locals.now }
    ensures forward { IfOk result (TurnsForward place) }
    ensures stack { stack.new.below ≡ stack.old.below }
{
    match locals.item(scope_number(chain, scope), index) {
        Some(value) => push_copy(stack, value)?,
        None => stack.push(Value::Nil)?,
    }
    Ok(Turn::Goes(next_of(place)?))
}

/// Stores the uppermost value in a variable, and leaves it.
#[tactic(auto, unfolding(tree_meaning::specs::Scopes::set_variable))]
pub(crate) fn store_local<O: Objects>(
    objects: &O,
    locals: &mut Locals,
    stack: &Layers<Value>,
    chain: &Layers<Mark>,
    frame: &Outline,
    code: &SharedCode,
    scope: usize,
    index: usize,
    place: usize,
    depth: u32,
) -> Result<Turn, AllocError>
    ensures led { TurnedBy (outside depth) (table_of code.now) (StoreLocal scope index) place
        stack.now.own chain.now.own frame.now (O.seen objects.now) locals.old result stack.now.own
        chain.now.own (O.seen objects.now) locals.new }
    ensures forward { IfOk result (TurnsForward place) }
{
    let Some(top) = stack.item(0) else {
        return Ok(Turn::Stuck);
    };
    match top {
        Value::Int(number) => {
            locals.set_value(scope_number(chain, scope), index, Value::Int(*number));
        }
        _ => locals.set_value(scope_number(chain, scope), index, top.clone()?),
    }
    Ok(Turn::Goes(next_of(place)?))
}

/// Puts what a name out of scope stands for, where that is known without a look at any object. Else
/// it is left.
#[inline(always)]
pub(crate) fn push_known<O: FindsMethods>(
    objects: &O,
    locals: &Locals,
    stack: &mut Layers<Value>,
    chain: &Layers<Mark>,
    frame: &Outline,
    code: &SharedCode,
    name: &Text,
    place: usize,
    depth: u32,
) -> Turned
    ensures led { IfDone result (λ turned. TurnedBy (outside depth) (table_of code.now)
        (PushName name.now) place stack.old.own chain.now.own frame.now (O.seen objects.now)
        locals.now turned stack.new.own chain.now.own (O.seen objects.now) locals.now) }
    ensures forward { IfDone result (λ turned. IfOk turned (TurnsForward place)) }
    ensures place { IfLeft result (λ at. AnswersAt (PushName name.now) stack.old.own
        (framed chain.now.own frame.now) (O.seen objects.now) locals.now (O.founds objects.now)
        at) }
    ensures own { IfLeft result (λ _. stack.new.own ≡ stack.old.own) }
    ensures stack { stack.new.below ≡ stack.old.below }
{
    match put_known(objects, locals, stack, chain, frame, name) {
        Put::Stands => match next_of(place) {
            Ok(there) => Turned::Done(Ok(Turn::Goes(there))),
            Err(error) => Turned::Done(Err(error)),
        },
        Put::NoMemory => Turned::Done(Err(AllocError)),
        Put::Unknown => Turned::Left(None),
    }
}

/// What came of a name whose value may be known.
#[derive(Clone, Copy, Debug)]
enum Put {
    /// The value stands on the stack.
    Stands,
    /// No memory was found for it.
    NoMemory,
    /// It isn't known.
    Unknown,
}

/// Puts what a name out of scope stands for, where that is known without a look at any object.
#[inline(never)]
fn put_known<O: FindsMethods>(
    objects: &O,
    locals: &Locals,
    stack: &mut Layers<Value>,
    chain: &Layers<Mark>,
    frame: &Outline,
    name: &Text,
) -> Put
    ensures stands { result ≡ Stands → Answered (read_out_of_scope name.now
        (framed chain.now.own frame.now)) (O.seen objects.now) locals.now stack.old.own
        stack.new.own }
    ensures unknown { result ≡ Unknown → stack.new.own ≡ stack.old.own }
    ensures below { stack.new.below ≡ stack.old.below }
{
    let Some(value) = known_variable(objects, locals, chain, name, frame) else {
        return Put::Unknown;
    };
    match stack.push(value) {
        Ok(()) => Put::Stands,
        Err(_) => Put::NoMemory,
    }
}

/// Puts what a name out of scope stands for.
#[inline(never)]
pub(crate) fn push_name<O: FindsMethods>(
    objects: &mut O,
    locals: &Locals,
    stack: &mut Layers<Value>,
    chain: &Layers<Mark>,
    frame: &Outline,
    code: &SharedCode,
    name: &Text,
    place: usize,
    depth: u32,
) -> Result<Asked, Stop>
    ensures keeps { Keeps (O.seen objects.old) (O.seen objects.new) }
    ensures led { AskedBy (outside depth) (table_of code.now) (PushName name.now) place stack.old.own
        chain.now.own frame.now (O.seen objects.old) locals.now result stack.new.own chain.now.own
        (O.seen objects.new) locals.now }
    ensures forward { IfOk result (IsAhead place) }
    ensures stack { stack.new.below ≡ stack.old.below }
{
    let value = read_name(objects, locals, chain, name, frame)?;
    stack.push(value)?;
    Ok(Asked::Goes(next_of(place)?))
}

/// Stores the uppermost value under a name out of scope, and leaves it, where it is known that this
/// ends well unless something is lacking for it. Else the instruction is left.
#[inline(always)]
pub(crate) fn store_known<O: FindsMethods>(
    objects: &mut O,
    locals: &Locals,
    stack: &Layers<Value>,
    chain: &Layers<Mark>,
    frame: &Outline,
    code: &SharedCode,
    name: &Text,
    place: usize,
    depth: u32,
) -> Turned
    ensures keeps { Keeps (O.seen objects.old) (O.seen objects.new) }
    ensures led { IfDone result (λ turned. TurnedBy (outside depth) (table_of code.now)
        (StoreName name.now) place stack.now.own chain.now.own frame.now (O.seen objects.old)
        locals.now turned stack.now.own chain.now.own (O.seen objects.new) locals.now) }
    ensures forward { IfDone result (λ turned. IfOk turned (TurnsForward place)) }
    ensures place { IfLeft result (λ at. AnswersAt (StoreName name.now) stack.now.own
        (framed chain.now.own frame.now) (O.seen objects.new) locals.now (O.founds objects.new)
        at) }
    ensures seen { IfLeft result (λ _. O.seen objects.new ≡ O.seen objects.old) }
{
    let stored = store_variable(
        objects, locals, stack, chain, frame, code, name, place, depth,
    );
    stored.turned(place, None)
}

/// Stores the uppermost value under a name out of scope, and leaves it, where it is known that this
/// ends well unless something is lacking for it.
#[inline(never)]
fn store_variable<O: FindsMethods>(
    objects: &mut O,
    locals: &Locals,
    stack: &Layers<Value>,
    chain: &Layers<Mark>,
    frame: &Outline,
    code: &SharedCode,
    name: &Text,
    place: usize,
    depth: u32,
) -> Changed
    ensures keeps { Keeps (O.seen objects.old) (O.seen objects.new) }
    ensures led { IfChanged result place (λ turned. TurnedBy (outside depth) (table_of code.now)
        (StoreName name.now) place stack.now.own chain.now.own frame.now (O.seen objects.old)
        locals.now turned stack.now.own chain.now.own (O.seen objects.new) locals.now) }
    ensures unchanged { result ≡ changed.Unknown → objects.new ≡ objects.old }
{
    let Some(top) = stack.item(0) else {
        return Changed::Unknown;
    };
    match set_known_variable(objects, locals, chain, name, frame, top) {
        Some(Ok(())) => Changed::Stands,
        Some(Err(lack)) => Changed::lacking(lack),
        None => Changed::Unknown,
    }
}

/// Stores the uppermost value under a name out of scope, and leaves it.
#[inline(never)]
pub(crate) fn store_name<O: FindsMethods>(
    objects: &mut O,
    locals: &Locals,
    stack: &mut Layers<Value>,
    chain: &Layers<Mark>,
    frame: &Outline,
    code: &SharedCode,
    name: &Text,
    place: usize,
    depth: u32,
) -> Result<Asked, Stop>
    ensures keeps { Keeps (O.seen objects.old) (O.seen objects.new) }
    ensures led { AskedBy (outside depth) (table_of code.now) (StoreName name.now) place stack.old.own
        chain.now.own frame.now (O.seen objects.old) locals.now result stack.new.own chain.now.own
        (O.seen objects.new) locals.now }
    ensures forward { IfOk result (IsAhead place) }
    ensures stack { stack.new.below ≡ stack.old.below }
{
    let Some(value) = stack.pop() else {
        return Ok(Asked::Stuck);
    };
    let answer = write_name(objects, locals, chain, name, frame, value)?;
    stack.push(answer)?;
    Ok(Asked::Goes(next_of(place)?))
}

/// Puts a new block, of this number among those of the text.
#[tactic(auto, unfolding(gem_language::specs::Sends::outside, tree_meaning::specs::Calls::make_block))]
#[inline(never)]
pub(crate) fn push_block<O: Objects>(
    alloc: Global,
    objects: &O,
    locals: &mut Locals,
    stack: &mut Layers<Value>,
    chain: &Layers<Mark>,
    frame: &Outline,
    code: &SharedCode,
    number: usize,
    place: usize,
    depth: u32,
) -> Result<Asked, Stop>
    ensures led { AskedBy (outside depth) (table_of code.now) (PushBlock number) place stack.old.own
        chain.now.own frame.now (O.seen objects.now) locals.old result stack.new.own chain.now.own
        (O.seen objects.now) locals.new }
    ensures forward { IfOk result (IsAhead place) }
    ensures stack { stack.new.below ≡ stack.old.below }
{
    let Some(block) = code.block(number) else {
        return Ok(Asked::Stuck);
    };
    let params = count_params(block.params)?;
    let scopes = chain.own().to_vec(alloc)?;
    let made = CodeBlock::of(code.share()?, number, scopes, frame.clone()?);
    let number = locals.add_block(alloc, made)?;
    stack.push(Value::Block(BlockRef { number, params }))?;
    Ok(Asked::Goes(next_of(place)?))
}
